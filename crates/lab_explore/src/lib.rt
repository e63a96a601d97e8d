//! What a search of every interleaving of some programs tells.
#![tactic(auto)]

mod again;
mod exploring;
mod fair;
mod judging;
mod keeping;
mod met;
mod reached;
mod refusals;
mod ways;

pub use exploring::explore;
pub use reached::{Visited, visit};
pub use refusals::depths_of;
