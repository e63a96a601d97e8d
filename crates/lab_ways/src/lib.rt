//! Whether what is asked of calls is so on every way.
#![tactic(auto)]

mod calls;
mod marking;
mod walking;
mod wanted;
mod ways;

pub use calls::CallKind;
pub use wanted::{MOST_STATES, Pattern, Wanted};
pub use ways::{Ways, ways_of};
