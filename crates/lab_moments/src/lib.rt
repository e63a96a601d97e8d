//! The moments of a run as values: what stands in a process after a step, what the step did, the objects that it changed or is
//! about, and what is kept of the steps so far; and who lets whom wait at its end.
#![tactic(auto)]

mod holds;
mod moment;
mod objects;
mod past;
mod state;
mod values;
mod waits;

pub use holds::{Hold, Known};
pub use moment::{act_value, moment_by};
pub use objects::object_value;
pub use past::{Past, StepCount, between_value};
pub use state::{SeenWords, states, words_from};
pub use values::{AsData, list_value, push_some};
pub use waits::{circles_value, waits_value};
