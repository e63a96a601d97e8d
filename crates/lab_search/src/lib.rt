//! Breadth-first search of every state that programs can reach, with partial-order reduction.
#![tactic(auto)]

mod footprints;
mod moves;
mod reduced;
mod search;
mod store;
mod uses;

pub use moves::both;
pub use search::{Search, search_all};
pub use store::{KnownSteps, Stop, Store};
