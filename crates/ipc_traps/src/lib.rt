//! From the registers and the memory of a process to the call that it makes, and from the reply back.
#![tactic(auto)]

mod reading;
mod replying;
mod service;

use ipc_kernel::Call;
use ipc_names::Errno;
pub use reading::{WINDOW_MAX, is_in_memory, name_length, read_by_vector, read_call, read_words};
pub use replying::{effect_by_vector, effect_of, prepare, prepare_by_vector};
pub use service::{MQ_RECEIVE, MQ_SEND, SEM_POST, SEM_WAIT, Service};

/// What a process that stands before a call asks for.
#[derive(Drop)]
pub enum Asked {
    /// A call of the kernel.
    Kernel(Call),
    /// Nothing: a memory range is refused (EFAULT), or a name (EFAULT, ENAMETOOLONG, or EINVAL for its form). The
    /// kernel doesn't see such a call.
    Refused(Errno),
}
