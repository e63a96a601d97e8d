//! Readers and writers that keep whether they failed, one for a terminal, and slow ones for tests.
#![tactic(auto)]

mod input;
mod output;
mod prompted;
mod slow_in;
mod slow_out;

pub use input::Input;
pub use output::Output;
pub use prompted::{Prompt, Prompted};
pub use slow_in::SlowIn;
pub use slow_out::SlowOut;

/// A device failed, or a writer took none of the bytes that it was given.
#[derive(Clone, Copy, Debug, PartialEq, Eq)]
pub struct Failed;
