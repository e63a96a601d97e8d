//! The picture of all worlds that programs can come to.
#![tactic(auto)]

mod copies;
mod picture;

pub use copies::copy_of;
pub use picture::{Arrow, MOST_DRAWN, Node, Picture, draw};
