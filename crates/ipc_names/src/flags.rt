//! The flags of mq_open and sem_open (POSIX.1-2017, fcntl.h), with the numbers that they have on
//! Linux.
ghost use Rattle.std.specs.Prelude.{◌≡◌};

use crate::Errno;

/// The bits of the access.
pub const O_ACCMODE: u16 = 0x0003;

/// Where no object has the name, one is made.
pub const O_CREAT: u16 = 0x0040;

/// With O_CREAT, an object that has the name is refused.
pub const O_EXCL: u16 = 0x0080;

/// A call that would wait is refused.
pub const O_NONBLOCK: u16 = 0x0800;

/// The flags of `mq_open` (POSIX.1-2017), each by itself.
#[derive(Clone, Copy, PartialEq, Eq, Debug)]
pub struct Flags {
    /// 0 to receive (O_RDONLY), 1 to send (O_WRONLY), 2 for both (O_RDWR).
    pub access: u8,
    /// O_CREAT: where no queue has the name, one is made.
    pub create: bool,
    /// O_EXCL: with O_CREAT, a queue that has the name already is refused.
    pub excl: bool,
    /// O_NONBLOCK: a call by this descriptor answers EAGAIN where it would wait.
    pub nonblock: bool,
}

impl Flags {
    ghost use Rattle.ipc_names.specs.Flags.{flags_read};

    /// The flags that a word sets. Access 3, and a bit that is none of these, are EINVAL.
    pub fn read(word: u16) -> Result<Flags, Errno>
        ensures flags { result ≡ flags_read word }
    {
        let access = word & O_ACCMODE;
        if word & !(O_ACCMODE | O_CREAT | O_EXCL | O_NONBLOCK) != 0 || access == 3 {
            return Err(Errno::Invalid);
        }
        Ok(Flags {
            access: access as u8,
            create: word & O_CREAT != 0,
            excl: word & O_EXCL != 0,
            nonblock: word & O_NONBLOCK != 0,
        })
    }
}
