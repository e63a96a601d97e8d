//! The texts that show a world: registers, memory, output, the kernel's objects, verdicts, the report.
#![tactic(auto)]

mod memory;
mod objects;
mod output;
mod registers;
mod report;
mod status;

pub use memory::{dis_text, mem_text};
pub use objects::{NameText, access_name, fds_text, mqs_text, push_message, sems_text};
pub use output::{Escape, out_text};
pub use registers::{code_name, regs_text};
pub use report::{profile_text, report_text, verdict_text};
pub use status::{Standing, how_name, procs_text, status_text};
