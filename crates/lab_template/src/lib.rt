//! The page around its data, by a template that is the same for every run.
#![tactic(auto)]

mod page;
mod template;

pub use page::page_with;
pub use template::Template;

/// The most steps of a schedule of which a page has the counted ones too.
pub const MOST_WHOLE: u32 = 20_000;

/// The most bytes of data in a page.
pub const MOST_BYTES: usize = 32_000_000;

/// The most ends of which a page has the runs.
pub const MOST_ENDS: usize = 64;

/// The most bytes of these runs, as JSON.
pub const MOST_END_BYTES: usize = 16_000_000;
