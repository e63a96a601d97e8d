//! Processes on threads, over one book of their calls, and an interleaving that leads to the end of
//! a run.
#![tactic(auto)]

mod book;
mod gate;
mod monitor;
mod reports;
mod spawning;

pub use book::Book;
pub use gate::{Gate, NoGate, PausingGate};
pub use reports::{Report, RunFault, run_threads};
