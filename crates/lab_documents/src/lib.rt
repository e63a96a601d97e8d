//! Documents that an editor has open: what is asked about one, answered.
#![tactic(auto)]

mod completion;
mod document;
mod hover;
mod labels;
mod messages;
mod object;
mod positions;
mod sheet;
mod symbols;
mod words;

pub use document::{Answer, Document, Question, Shows, answer_to};
pub use messages::{diagnostics, fixes};
pub use object::Object;
pub use positions::{Position, Range};
