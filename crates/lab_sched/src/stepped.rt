//! What a step was.
ghost use Rattle.std.specs.Prelude.{◌≡◌};

use ipc_kernel::{Answer, Call, Reply};
use ipc_names::Errno;

/// What a step of a process was.
#[derive(Drop)]
pub enum Stepped {
    /// A local step, by which no call was asked for.
    Moved,
    /// A call that was refused without the kernel: a local step.
    Refused(Errno),
    /// A call of the kernel that had this reply.
    Called(Reply),
    /// A call of the kernel for which the process now waits.
    Waits,
    /// Nothing: the process has ended, or must still wait.
    Same,
}

impl Stepped {
    ghost use Rattle.lab_sched.specs.Private.Moved.{has_moved};

    pub(crate) fn has_moved(&self) -> bool
        ensures value { result ≡ has_moved self.now }
    {
        !matches!(self, Stepped::Same)
    }
}

/// A call of a process, with its answer.
#[derive(Drop)]
pub struct Entry {
    pub pid: usize,
    pub call: Call,
    pub answer: Answer,
}
