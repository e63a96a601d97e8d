//! Worlds that steps of programs lead to: walks to them, ends and lassos, and walks at random.
#![tactic(auto)]

mod ahead;
mod closed_walks;
mod ends;
mod errors;
mod exploration;
pub mod laws;
mod random;
mod random_walker;
mod walking;

pub use ahead::{Ahead, advance, are_alike, copy_before_wait};
pub use closed_walks::{ClosedWalk, FairSegment, WalkPart};
pub use ends::{End, end_of};
pub use errors::Errors;
pub use exploration::{Exploration, ExploreFault, Lasso, Limits, LongRun, Met, Observer, Workers};
pub use random::{Walks, walk_randomly};
pub use random_walker::{Attempt, Made, discard, try_step};
pub use walking::{Walk, WayCall, none_waits, waits};
