//! What is noted of a run: of each process the first call that was refused, and how many were; of its objects what is remarked; and
//! what processes wait for at its end.
//! EAGAIN counts as no refusal: it is how a call that doesn't wait says that it would have to.
#![tactic(auto)]

mod noting;
mod objects;
mod openers;
mod remarks;
mod rows;
mod text;
mod waiting;

pub use noting::{Notes, noted};
pub use objects::Made;
pub use openers::{Opened, twin_after};
pub use remarks::{Change, Remark};
pub use rows::{Noted, Refusal, Registers};
pub use text::{push_more, push_note, push_remark, push_twins, push_wait};
pub use waiting::Waiting;
