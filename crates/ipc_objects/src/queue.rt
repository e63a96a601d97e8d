//! Message queues.
ghost use Rattle.std.specs.Prelude.{◌≡◌, ◌<◌, ◌≤◌, ◌∷◌, length, drop, slice_get, IfOk, IfErr, OnOk, OnErr};
ghost use Rattle.std.specs.Option.{option_copied, option_map};
ghost use Rattle.ipc_objects.specs.Limits.{mq_prio_max, mq_maxmsg_max, mq_msgsize_max};

mod copies;

use crate::Words;
use crate::messages::Messages;
use std::alloc::{AllocError, Global};
use std::marker::Model;

/// A message with its priority.
#[derive(Clone, PartialEq, Eq, Drop)]
pub struct Message {
    /// Less than `MQ_PRIO_MAX`. Messages of greater priority are received first.
    pub priority: u16,
    pub words: Words,
}

/// A message queue: the greatest number of messages that it holds, the greatest length of a
/// message in words, and its messages in the order in which they would be received
/// (POSIX.1-2017, `mq_send` and `mq_receive`).
pub struct Queue {
    max_messages: u16,
    message_size: u16,
    count: u16,
    messages: Messages,
}

impl Drop for Queue {
    fn drop(self) {
        let Queue {
            max_messages: _,
            message_size: _,
            count: _,
            messages: _,
        } = self;
    }
}

impl Model for Queue {
    ghost use Rattle.ipc_objects.specs.Queue.{QueueState};
    ghost use Rattle.ipc_objects.specs.Private.Counted.{IsCounted};

    ghost Value = { QueueState };

    ghost view = { λ a. record {
      max_messages = a.max_messages;
      message_size = a.message_size;
      messages = a.messages;
    } };

    ghost invariant = { λ a. IsCounted a.max_messages a.message_size a.count a.messages };
}

impl Queue {
    ghost use Rattle.ipc_objects.specs.Queue.{IsQueue, empty_queue, with_message, without_first};

    /// An empty queue for at most `max_messages` messages (1 to `MQ_MAXMSG_MAX`) of at most
    /// `message_size` words each (1 to `MQ_MSGSIZE_MAX`).
    pub fn new(alloc: Global, max_messages: u16, message_size: u16) -> Result<Queue, AllocError>
        requires max_at_least { 1 ≤ max_messages }
        requires max_at_most { max_messages ≤ mq_maxmsg_max }
        requires size_at_least { 1 ≤ message_size }
        requires size_at_most { message_size ≤ mq_msgsize_max }
        ensures empty { IfOk result (λ q. q ≡ empty_queue (max_messages, message_size)) }
    {
        Ok(Queue {
            max_messages,
            message_size,
            count: 0,
            messages: Messages::new(alloc),
        })
    }

    /// The greatest number of messages, the greatest length of a message, and the number of
    /// messages now (mq_maxmsg, mq_msgsize and mq_curmsgs).
    pub fn attr(&self) -> (u16, u16, u16)
        ensures max { result.0 ≡ self.now.max_messages }
        ensures size { result.1 ≡ self.now.message_size }
        ensures count { result.2 ≡ length self.now.messages }
        ensures ranges { IsQueue self.now }
    {
        (self.max_messages, self.message_size, self.count)
    }

    /// Adds a message behind all of its priority or a greater one and before all of a lesser one.
    /// Where memory is refused the words are handed back and nothing changes.
    pub fn send(&mut self, priority: u16, words: Words) -> Result<(), Words>
        requires room { length self.old.messages < self.old.max_messages }
        requires priority { priority < mq_prio_max }
        requires size { length words ≤ self.old.message_size }
        ensures ok { OnOk result (self.new ≡ with_message priority words self.old) }
        ensures err { OnErr result (self.new ≡ self.old) }
        ensures handed_back { IfErr result (λ back. back ≡ words) }
    {
        match self.messages.push(Message { priority, words }) {
            Ok(()) => {
                self.count += 1;
                Ok(())
            }
            Err(back) => Err(back.words),
        }
    }

    /// Takes out the oldest message of the greatest priority. Takes no memory.
    pub fn receive(&mut self) -> (u16, Words)
        requires some { 0 < length self.old.messages }
        ensures first { self.old.messages ≡
            record { priority = result.0; words = result.1 } ∷ drop 1 self.old.messages }
        ensures rest { self.new ≡ without_first self.old }
    {
        let message = self.messages.pop_front();
        self.count -= 1;
        (message.priority, message.words)
    }

    /// The message that would be received first.
    pub fn first(&self) -> Option<&Message>
        ensures message { option_copied result ≡ slice_get self.now.messages 0 }
    {
        self.messages.get(0)
    }

    /// The priority and words of the message that would be received after `i` others.
    pub fn entry(&self, i: usize) -> Option<(u16, &[u16])>
        ensures message { option_map (λ e. record { priority = e.0; words = e.1.now }) result ≡
            slice_get self.now.messages i }
    {
        let message = self.messages.get(i)?;
        Some((message.priority, message.words.as_slice()))
    }
}
