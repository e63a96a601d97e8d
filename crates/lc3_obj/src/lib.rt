//! Object files: the origin and the words of an image, each high byte first.
#![tactic(auto)]

mod fault;
mod reading;
mod writing;

pub use fault::ObjFault;
pub use reading::read_image;
pub use writing::write_image;
