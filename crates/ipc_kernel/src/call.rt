//! Calls, replies and answers.
ghost use Rattle.std.specs.Prelude.{◌≡◌, IfOk};
ghost use Rattle.ipc_kernel.specs.Operands.{handle_of};
ghost use Rattle.ipc_kernel.specs.OwnCalls.{is_unlink};

use ipc_names::Name;
use ipc_objects::Words;
use std::alloc::AllocError;

/// What a call on an open object names: a descriptor or a slot of its process.
#[derive(Clone, Copy, Drop)]
pub enum Handle {
    Mqd(u16),
    Slot(u16),
}

/// A call of a process, with its arguments as they were asked: only a name has been tested. A clone
/// shares the name or the words, and takes no memory: an error is that they are shared 2^63 times.
#[derive(Clone, PartialEq, Eq, Drop)]
pub enum Call {
    /// Opens a message queue, and with O_CREAT makes it. `attr` are the four words of the
    /// attributes, if they are given with O_CREAT.
    MqOpen {
        name: Name,
        flags: u16,
        attr: Option<[u16; 4]>,
    },
    /// Closes a descriptor.
    MqClose {
        mqd: u16,
    },
    /// Removes the name of a queue.
    MqUnlink {
        name: Name,
    },
    /// Adds a message to a queue, or waits while it is full.
    MqSend {
        mqd: u16,
        words: Words,
        prio: u16,
    },
    /// Takes the oldest message of the greatest priority into a buffer of `len` words, or waits
    /// while the queue is empty.
    MqReceive {
        mqd: u16,
        len: u16,
    },
    /// Tells the attributes of an open queue.
    MqGetattr {
        mqd: u16,
    },
    /// Sets or clears O_NONBLOCK of a descriptor. `flags` is the first word of the new attributes.
    MqSetattr {
        mqd: u16,
        flags: u16,
    },
    /// Opens a semaphore, and with O_CREAT makes it with a value.
    SemOpen {
        name: Name,
        flags: u16,
        value: u16,
    },
    /// Closes a slot once.
    SemClose {
        slot: u16,
    },
    /// Removes the name of a semaphore.
    SemUnlink {
        name: Name,
    },
    /// Takes one from a semaphore, or waits while it is 0.
    SemWait {
        slot: u16,
    },
    /// Takes one from a semaphore, or is refused while it is 0.
    SemTrywait {
        slot: u16,
    },
    /// Adds one to a semaphore.
    SemPost {
        slot: u16,
    },
    /// Tells the value of a semaphore.
    SemGetvalue {
        slot: u16,
    },
    /// Closes all that the process has open: its end.
    Exit,
}

/// The reply of a call. A clone shares the words of a message, as that of a call does.
#[derive(Clone, PartialEq, Eq, Drop)]
pub enum Reply {
    /// A descriptor, a slot, 0, or the negative of an error's number.
    Plain(u16),
    /// The message of mq_receive, with its priority.
    Message { words: Words, prio: u16 },
    /// The four words of the attributes: mq_flags, mq_maxmsg, mq_msgsize and mq_curmsgs. mq_setattr
    /// tells those before its change.
    Attr([u16; 4]),
    /// The value of a semaphore.
    Value(u16),
}

/// What a call is answered: a reply, or that it must wait.
#[derive(Clone, PartialEq, Eq, Drop)]
pub enum Answer {
    Done(Reply),
    Wait,
}

impl Call {
    /// The same call, as a clone is. Takes no memory: an error is that its name or its words are shared 2^63 times.
    pub fn copy(&self) -> Result<Call, AllocError>
        ensures equal { IfOk result (λ copy. copy ≡ self.now) }
    {
        self.clone()
    }

    /// Whether the call takes a name away.
    pub fn is_unlink(&self) -> bool
        ensures unlink { result ≡ is_unlink self.now }
    {
        matches!(self, Call::MqUnlink { .. } | Call::SemUnlink { .. })
    }

    /// The descriptor or slot that a call on an open object names.
    pub fn handle(&self) -> Option<Handle>
        ensures handle { result ≡ handle_of self.now }
    {
        match self {
            Call::MqSend { mqd, .. }
            | Call::MqReceive { mqd, .. }
            | Call::MqGetattr { mqd }
            | Call::MqSetattr { mqd, .. } => Some(Handle::Mqd(*mqd)),
            Call::SemWait { slot }
            | Call::SemTrywait { slot }
            | Call::SemPost { slot }
            | Call::SemGetvalue { slot } => Some(Handle::Slot(*slot)),
            _ => None,
        }
    }
}

impl Reply {
    /// The same reply, as a clone is. Takes no memory: an error is that its words are shared 2^63 times.
    pub fn copy(&self) -> Result<Reply, AllocError>
        ensures equal { IfOk result (λ copy. copy ≡ self.now) }
    {
        self.clone()
    }
}

impl Answer {
    /// The same answer, as a clone is. Takes no memory: an error is that its words are shared 2^63 times.
    pub fn copy(&self) -> Result<Answer, AllocError>
        ensures equal { IfOk result (λ copy. copy ≡ self.now) }
    {
        self.clone()
    }
}
