//! The commands over files and programs: all but the trace, which waits for its page.
#![tactic(auto)]

mod advice;
mod asm;
mod check;
mod complaint;
mod debug;
mod explore;
mod files;
mod inquiry;
mod job;
mod labels;
mod places;
mod programs;
mod resolving;
mod run;
mod step;

pub use advice::advice_line;
pub use asm::{Assembly, assemble_file, disassemble_file};
pub use check::{check_sources, chosen_schedule, messages_if, tell_ends};
pub use complaint::{At, Complaint, Misuse, Reason};
pub use debug::{Debugged, debug_given};
pub use explore::{Search, SearchCost, find_ends, limit_met, standing_at};
pub use files::{
    has_source_name, is_file, is_same_file, read_file, read_source, write_bytes, write_whole,
};
pub use inquiry::{Inquiry, refuse_question};
pub use job::{Job, Progress, Texts};
pub use programs::{Programs, laboratory, read_programs};
pub use run::run_given;
pub use step::{process_advice, read_schedule, report_given};
