//! Copies of queues, and whether two queues are the same.
ghost use Rattle.std.specs.Prelude.{◌≡◌, ◌↔◌, IfOk, IsTrue, slice_get};

use super::{Message, Queue};
use std::alloc::{AllocError, Global};
use std::hash::{FoldHasher, Hasher};

impl Message {
    /// Adds the message to a digest.
    pub(crate) fn feed(&self, hasher: &mut FoldHasher) {
        hasher.write_u16(self.priority);
        hasher.write_usize(self.words.len());
        for word in self.words.as_slice() {
            hasher.write_u16(*word);
        }
    }
}

impl Queue {
    /// An equal queue. The words of its messages are shared.
    pub fn copy(&self, alloc: Global) -> Result<Queue, AllocError>
        ensures equal { IfOk result (λ copy. copy ≡ self.now) }
    {
        Ok(Queue {
            max_messages: self.max_messages,
            message_size: self.message_size,
            count: self.count,
            messages: self.messages.copy(alloc)?,
        })
    }

    /// Whether the messages that would be received after `i` others are the same.
    fn has_same_entry(&self, other: &Queue, i: usize) -> bool
        ensures same { IsTrue result ↔
            (slice_get self.now.messages i ≡ slice_get other.now.messages i) }
    {
        match (self.entry(i), other.entry(i)) {
            (Some((priority, words)), Some((other_priority, other_words))) => {
                priority == other_priority && words == other_words
            }
            (None, None) => true,
            _ => false,
        }
    }

    /// A number that is the same for equal queues and, as a rule, another for others.
    pub fn digest(&self) -> u64 {
        let mut hasher = FoldHasher::default();
        hasher.write_u16(self.max_messages);
        hasher.write_u16(self.message_size);
        hasher.write_u16(self.count);
        self.messages.feed(&mut hasher);
        hasher.finish()
    }
}

/// Two queues are equal if they have the same attributes, and the same messages in the same order
/// of receive.
impl PartialEq for Queue {
    ghost use Rattle.std.specs.Cmp.{partial_equiv_from_equiv};
    ghost use Rattle.ipc_objects.specs.Equality.{queue_eq, queue_eq_equiv};

    ghost eq = { queue_eq };

    ghost laws = { partial_equiv_from_equiv queue_eq_equiv };

    #[tactic(auto, using(crate::proofs::QueueCopies::told_apart))]
    fn eq(&self, other: &Queue) -> bool {
        let (max_messages, message_size, count) = self.attr();
        if other.attr() != (max_messages, message_size, count) {
            return false;
        }
        for i in 0..count as usize {
            if !self.has_same_entry(other, i) {
                return false;
            }
        }
        true
    }
}

impl Eq for Queue {
    ghost use Rattle.ipc_objects.specs.Equality.{queue_eq_equiv};

    ghost laws = { queue_eq_equiv };
}
