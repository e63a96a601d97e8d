//! Frames: messages on a stream of bytes, each behind header lines that tell its length.
#![tactic(auto)]

mod header;
mod reading;
mod writing;

pub use header::HEADER_LIMIT;
pub use reading::{BODY_LIMIT, Frame, FrameFault, take_frame};
pub use writing::{WriteFault, write_frame};
