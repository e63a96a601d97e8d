//! Worlds of processes over one kernel, run by written schedules.
#![tactic(auto)]

mod calling;
pub mod laws;
mod process;
mod schedule;
mod stepped;
mod stepping;
mod trace;
mod verdict;
mod world;

pub use calling::{Next, find_next};
pub use process::{Fresh, FreshFault, Process, Program};
pub use schedule::{Block, MOST_STEPS, SchedFault, Schedule, Steps};
pub use stepped::{Entry, Stepped};
pub use stepping::{answer_call, ask_call, begin_wait, end_process, local_steps, take_step};
pub use trace::{Trace, TracedCall};
pub use verdict::Verdict;
pub use world::{RunStop, StepFault, Unwatched, Watch, World};
