//! The trace of a schedule: a line for each call, each piece of output and each end of a process, where the processes
//! stand at the end, and the report.
#![tactic(auto)]

mod ends;
mod form;
mod tracing;

pub use ends::{push_call, push_outcome, stands};
pub use form::Form;
pub use tracing::{TraceFault, columns_text, ending, event_text, missing_after, step_line, trace};
