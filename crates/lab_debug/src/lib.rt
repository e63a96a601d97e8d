//! The debugger: a session of commands over a world.
#![tactic(auto)]

mod accepting;
mod command;
mod effect;
pub mod laws;
mod reading;
mod script;

pub use lab_session::Session;
pub use lab_texts::{dis_text, mem_text, mqs_text, procs_text, regs_text, sems_text, status_text};
pub use script::{Audience, Nobody, SessionFault, session, session_over};

/// The most bytes of a line, without its line feed.
pub const LINE_LIMIT: usize = 65_536;

/// The most lines of a script.
pub const LINE_COUNT_LIMIT: u32 = 1_000_000;
