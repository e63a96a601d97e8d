//! What the words of the command line ask for.
#![tactic(auto)]

mod commands;
mod misuse;
mod options;
mod parser;
mod pieces;
mod programs;
mod question;
mod request;
mod requirements;
mod rows;

pub use misuse::Shown;
pub use parser::{WARNINGS, read_words};
pub use pieces::{is_of_calls, required_words};
pub use programs::{Console, program_of, takes_input};
pub use question::{Choice, Question};
pub use request::{Manner, Notes, Page, Refusal, Request, Setup};
pub use requirements::{Requirements, Rest};
pub use rows::{CommandRow, ProgramRow, Row, Takes};

/// The most steps of each process that can be asked for.
pub const MOST_STEPS_EACH: u32 = 10_000_000;

/// The most worlds that can be asked for.
pub const MOST_WORLDS: u32 = 100_000_000;

/// The most megabytes of memory that can be asked for.
pub const MOST_MEMORY: u32 = 1_000_000;

/// The most threads that can be asked for.
pub const MOST_THREADS: u32 = 256;

/// The most local steps of a process in a row that can be asked for.
pub const MOST_LOCAL_STEPS: u32 = 10_000_000;

/// The most walks that can be asked for.
pub const MOST_WALKS: u32 = 10_000_000;
