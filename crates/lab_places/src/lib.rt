//! Words with labels of sources, and where processes stand in their sources.
#![tactic(auto)]

mod labels;
mod placing;
mod status;

pub use labels::{address_in, has_label};
pub use placing::{Numbered, listed, placed, placed_by};
