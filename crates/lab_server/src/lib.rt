//! A language server: what an editor sends and asks about the sources that it has open, answered.
#![tactic(auto)]

mod documents;
mod edits;
mod members;
mod message;
mod questions;
mod replies;
mod serving;
mod session;
mod settings;

pub use serving::{ServerFault, serve};
