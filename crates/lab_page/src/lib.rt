//! The page of a trace: one file that shows a run by its schedule, moment by moment, in a browser and without a network; and
//! the page of the ends of an exploration, each with its run.
#![tactic(auto)]

mod ends;
mod moments;
mod paging;
mod run;
mod source;
mod worlds;

pub use ends::{Answered, Asked, EndList, Endless, Extent, Found, ShownRun};
pub use lab_template::Template;
pub use paging::{PageFault, PagedRun, Roster, Shown, ends_page, run_page};
pub use source::{Source, source_of};
pub use worlds::{WorldEdge, Worlds};
