//! What a call is answered now, and what that changes.
ghost use Rattle.std.specs.Prelude.{◌≡◌, ℕ, false};
ghost use Rattle.ipc_kernel.specs.Kernel.{KernelState};
ghost use Rattle.ipc_kernel.specs.Outcomes.{wait_or_again};
ghost use Rattle.ipc_kernel.specs.Private.Decisions.{outcome_of, reply_of, IsPossible, decision_may_grow};
ghost use Rattle.ipc_kernel.specs.Private.Messages.{message_length};

use crate::{Descriptor, Reply, Slot};
use ipc_names::{Errno, Name};
use ipc_objects::Words;

/// A new queue, with the descriptor on which it is open.
#[derive(Clone, Copy)]
pub(super) struct NewQueue<'a> {
    pub(super) name: &'a Name,
    pub(super) max_messages: u16,
    pub(super) message_size: u16,
    pub(super) mqd: usize,
    pub(super) held: Descriptor,
}

/// A new semaphore, with the slot on which it is open.
#[derive(Clone, Copy)]
pub(super) struct NewSemaphore<'a> {
    pub(super) name: &'a Name,
    pub(super) value: u16,
    pub(super) slot: usize,
    pub(super) place: u8,
}

/// What an answered call changes.
#[derive(Clone, Copy)]
pub(super) enum Change<'a> {
    Nothing,
    /// Another state of a descriptor of the process.
    HoldDescriptor {
        mqd: usize,
        held: Option<Descriptor>,
    },
    /// Another state of a slot of the process.
    HoldSlot {
        slot: usize,
        held: Option<Slot>,
    },
    /// A new queue, open on a descriptor.
    MakeQueue(NewQueue<'a>),
    /// A new semaphore, open on a slot.
    MakeSemaphore(NewSemaphore<'a>),
    /// The queue in a place loses its name.
    UnnameQueue {
        place: u8,
        name: &'a Name,
    },
    /// The semaphore in a place loses its name.
    UnnameSemaphore {
        place: u8,
        name: &'a Name,
    },
    /// A message more in the queue in a place.
    Send {
        place: u8,
        words: &'a Words,
        prio: u16,
    },
    /// One less than this value of the semaphore in a place.
    Take {
        place: u8,
        value: u16,
    },
    /// One more than this value of the semaphore in a place.
    Post {
        place: u8,
        value: u16,
    },
    /// The process has nothing open.
    CloseAll,
}

/// A reply that isn't a message: it is short, and can be copied.
#[derive(Clone, Copy)]
pub(super) enum ShortReply {
    /// A descriptor, a slot, 0, or the negative of an error's number.
    Plain(u16),
    /// The four words of the attributes.
    Attr([u16; 4]),
    /// The value of a semaphore.
    Value(u16),
}

impl ShortReply {
    /// The reply itself.
    #[inline(always)]
    pub(super) fn reply(self) -> Reply
        ensures value { result ≡ reply_of self }
    {
        match self {
            ShortReply::Plain(word) => Reply::Plain(word),
            ShortReply::Attr(words) => Reply::Attr(words),
            ShortReply::Value(word) => Reply::Value(word),
        }
    }
}

/// What becomes of a call. A message isn't in it, so that it is short.
#[derive(Clone, Copy)]
pub(super) enum Decision<'a> {
    /// It is refused, and nothing changes.
    Refused(Errno),
    /// It must wait, and nothing changes.
    Waits,
    /// It takes the first message of the queue in a place.
    Receives(u8),
    /// It is answered, with a change.
    Answered(ShortReply, Change<'a>),
}

/// What becomes of a call that finds its queue full or empty.
#[inline(always)]
pub(super) fn wait_or_again<'a>(descriptor: Descriptor) -> Decision<'a>
    ensures outcome { (k : KernelState) (p : ℕ) → outcome_of k p result
        ≡ wait_or_again k descriptor }
    ensures possible { (k : KernelState) → IsPossible k result }
    ensures memory { decision_may_grow result ≡ false }
    ensures length { (k : KernelState) (p : ℕ) → message_length (outcome_of k p result).0 ≡ 0 }
{
    if descriptor.nonblock {
        Decision::Refused(Errno::Again)
    } else {
        Decision::Waits
    }
}
