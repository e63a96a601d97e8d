//! The store of the kernels that a search meets: each object and the tables of each process once;
//! whether kernels are alike, and their order; and what holds of every answer, as a search relies on it.
#![tactic(auto)]

mod alike;
mod arranging;
mod index;
mod kept;
pub mod laws;
mod uses;

pub use alike::is_alike;
pub use arranging::{are_with, arranged};
pub use index::Index;
pub use kept::Kernels;
pub use uses::{ProcessUse, Use};
