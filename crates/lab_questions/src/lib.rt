//! Questions on the programs of a laboratory: what their ends are, what is required of each, where it isn't so, and the text
//! and the JSON that tell it.
#![tactic(auto)]

mod answers;
mod asked;
mod asking;
mod bases;
mod called;
mod calling;
mod failure;
mod json;
pub mod laws;
mod left;
mod limit;
mod output;
mod reading;
mod texts;
mod watching;

pub use answers::{Answer, Answers, Found, ask_walks};
pub use asked::{Asked, CallWord, Question, Reach, Show, Waiter, Word};
pub use asking::{AskFault, ask};
pub use bases::{Basis, PlaceWord};
pub use calling::{call_count, read_calls};
pub use failure::Failure;
pub use json::answers_json;
pub use limit::{LimitMet, Standing};
pub use output::{Alternative, OutputNeed, OutputPart, OutputRelation};
