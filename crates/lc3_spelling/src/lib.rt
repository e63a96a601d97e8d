//! Words as a reader takes them: those that a word is nearly spelled like, and characters that nobody sees.
#![tactic(auto)]

mod choice;
mod unseen;

pub use choice::{BARE_OPERATIONS, OPERATIONS, shown, suggestion};
pub use unseen::is_unseen;
