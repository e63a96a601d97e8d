//! Messages about a source: everything that is wrong with it, each fault in words and with its place.
#![tactic(auto)]

mod characters;
mod operations;
mod parts;
mod report;
mod source;
mod telling;
mod texts;

pub use characters::picture;
pub use operations::name_of;
pub use parts::{Part, Span, operation_number, parts_of};
pub use report::{Report, Wish, report_on};
pub use source::{Finding, LabelLines, Labels, Source, What, line_of, source_of};
pub use telling::{MOST_TOLD, Told, messages_on};
