//! Conditions on worlds: how they are written, and whether they hold; messages that are lost, and calls that
//! are refused.
#![tactic(auto)]

mod condition;
mod judging;
mod never;
mod reading;

pub use condition::{Condition, Part, Relation, State};
pub use judging::{call_of, is_receiving, messages_in};
pub use never::{Never, Refusal, error_told};
pub use reading::ReadFault;
