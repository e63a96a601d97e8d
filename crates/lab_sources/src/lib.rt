//! Sources of processes, what they are assembled to, and their labels and lines by address.
#![tactic(auto)]

mod source;

pub use source::{Content, Listing, Near, NearestLabel, Source, line_at};
