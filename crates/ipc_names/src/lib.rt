//! The names, errors and flags of message queues and semaphores (POSIX.1-2017), and tables by name.
#![tactic(auto)]

mod errno;
mod flags;
mod name;
mod table;

pub use errno::Errno;
pub use flags::{Flags, O_ACCMODE, O_CREAT, O_EXCL, O_NONBLOCK};
pub use name::Name;
pub use table::NameTable;
