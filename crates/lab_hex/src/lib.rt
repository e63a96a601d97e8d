//! The run over hexadecimal words: an image that a text says, by itself, and the report.
#![tactic(auto)]

mod run;

pub use run::{CliFault, hex_run, read_whole};
