//! What the assembler accepts and people don't mean: warnings about the lines of a source.
//!
//! Each kind of warning is a definition of its own in specs/: Numbers, Labels, Around, Returns, Codes, Strings and Warnings.
#![tactic(auto)]

mod codes;
mod flow;
mod line_kinds;
mod names;
mod numbers;
mod texts;
mod walk;

pub use line_kinds::call_named;
pub use texts::{Kind, Warning, push_text};
pub use walk::warnings;
