//! The errors of the calls.
ghost use Rattle.std.specs.Prelude.{◌≡◌, ◌-◌};
ghost use Rattle.ipc_names.specs.Errno.{number_of};

/// Why a call is refused, by the names of POSIX.1-2017, `<errno.h>`.
#[derive(Clone, Copy, PartialEq, Eq, Debug)]
pub enum Errno {
    /// ENOENT: nothing has that name.
    NoEntry,
    /// EBADF: no queue descriptor, or one without the access that the call needs.
    BadDescriptor,
    /// EAGAIN: the call would wait, and was asked not to.
    Again,
    /// EFAULT: a range that isn't in the process's memory.
    Fault,
    /// EEXIST: something has that name already.
    Exists,
    /// EINVAL: a value that the call doesn't take.
    Invalid,
    /// EMFILE: the process has no free descriptor or slot.
    TooManyOpen,
    /// ENOSPC: there is no place for another object.
    NoSpace,
    /// ENAMETOOLONG: a name of more than 255 characters.
    NameTooLong,
    /// EOVERFLOW: the semaphore has its greatest value.
    Overflow,
    /// EMSGSIZE: a message longer than the queue's messages may be, or a shorter buffer.
    MessageSize,
}

impl Errno {
    /// The error's number. POSIX leaves the numbers open: these are those of Linux.
    pub fn number(self) -> u16
        ensures number { result ≡ number_of self }
    {
        match self {
            Errno::NoEntry => 2,
            Errno::BadDescriptor => 9,
            Errno::Again => 11,
            Errno::Fault => 14,
            Errno::Exists => 17,
            Errno::Invalid => 22,
            Errno::TooManyOpen => 24,
            Errno::NoSpace => 28,
            Errno::NameTooLong => 36,
            Errno::Overflow => 75,
            Errno::MessageSize => 90,
        }
    }

    /// The word that a refused call answers: the negative of the error's number, in 16 bits.
    pub fn reply(self) -> u16
        ensures negative { result ≡ 65536 - number_of self }
    {
        self.number().wrapping_neg()
    }
}
