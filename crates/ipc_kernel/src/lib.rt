//! The kernel: object places, descriptors, slots, and the calls on message queues and semaphores.
#![tactic(auto)]

mod call;
mod kernel;
pub mod laws;
mod limits;
mod place;
mod places;
mod process;
mod processes;

pub use call::{Answer, Call, Handle, Reply};
pub use kernel::Kernel;
pub use limits::{OBJECT_PLACES, OPEN_MAX, OPENS_MAX, PROCESS_MAX, limits_are_defined};
pub use place::Place;
pub use process::{Descriptor, OpenTables, Slot};
