//! What a session of the debugger keeps, how it steps, and the texts of both: the breaks and the watches, the steps that
//! were taken, the world after them, and where a process stands in its source.
#![tactic(auto)]

mod marks;
mod places;
mod state;
mod stepping;

pub use marks::{Mark, MarkKind, has_mark, marks_text, off_text, push_changes, set_text};
pub use places::{Range, code_text, labels_text, where_text};
pub use state::Session;
pub use stepping::{Watched, play_text, step_count, taken_text};
