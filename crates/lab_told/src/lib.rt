//! What a step of a run told, as values: what its process did, a call with its arguments as a trace writes them and with what
//! became of it, and what is kept of processes and objects on the way.
#![tactic(auto)]

mod answers;
mod asking;
mod flags;
mod handles;
pub mod laws;
mod message;
mod openers;
mod origins;
mod tally;
mod telling;
mod text;
mod told;

pub use answers::{Outcome, result_in};
pub use asking::{arguments_of, push_attributes};
pub use handles::{Level, held_place, level_at};
pub use message::{is_quotable, push_message};
pub use openers::has_open;
pub use origins::Origin;
pub use tally::{Account, Tally};
pub use telling::{Taken, Telling, steps_told, tell_run, trace_step};
pub use text::{Bytes, Text};
pub use told::{Act, Called, Event, Told, service_at, service_of_word};
