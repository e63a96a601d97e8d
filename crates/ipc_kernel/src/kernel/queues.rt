//! The rules of the calls on message queues.
ghost use Rattle.std.specs.Prelude.{◌≡◌, ℕ, ◌<◌, ◌≤◌, false, None, length, IsTrue};
ghost use Rattle.ipc_objects.specs.Limits.{mq_msgsize_max};
ghost use Rattle.ipc_names.specs.Flags.{flags_read};
ghost use Rattle.ipc_kernel.specs.Private.Decisions.{outcome_of, IsPossible, decision_may_grow};
ghost use Rattle.ipc_kernel.specs.Outcomes.{open_queue, unlink};
ghost use Rattle.ipc_kernel.specs.Places.{are_sizes, queue_named};
ghost use Rattle.ipc_kernel.specs.Processes.{descriptor_of, free_descriptor_of};
ghost use Rattle.ipc_kernel.specs.Queues.{attributes, descriptor_for, sizes_asked};
ghost use Rattle.ipc_kernel.specs.Private.Messages.{message_length};

use super::Kernel;
use super::decision::{Change, Decision, NewQueue, ShortReply, wait_or_again};
use crate::Descriptor;
use crate::process::first_free;
use ipc_names::{Errno, Flags, Name, O_NONBLOCK};
use ipc_objects::{
    MQ_MAXMSG_DEFAULT, MQ_MAXMSG_MAX, MQ_MSGSIZE_DEFAULT, MQ_MSGSIZE_MAX, MQ_PRIO_MAX, Queue, Words,
};

/// The greatest numbers of messages and of words of a message that mq_open asks for.
#[inline(always)]
fn sizes_asked(attr: Option<[u16; 4]>) -> (u16, u16)
    ensures sizes { result ≡ sizes_asked attr }
{
    match attr {
        None => (MQ_MAXMSG_DEFAULT, MQ_MSGSIZE_DEFAULT),
        Some(words) => (words[1], words[2]),
    }
}

#[inline(always)]
fn are_sizes(max_messages: u16, message_size: u16) -> bool
    ensures sizes { result ≡ are_sizes (max_messages, message_size) }
{
    max_messages >= 1
        && max_messages <= MQ_MAXMSG_MAX
        && message_size >= 1
        && message_size <= MQ_MSGSIZE_MAX
}

#[inline(always)]
fn attributes(descriptor: Descriptor, queue: &Queue) -> [u16; 4]
    ensures attributes { result ≡ attributes descriptor queue.now }
{
    let (max, size, count) = queue.attr();
    let flags = if descriptor.nonblock { O_NONBLOCK } else { 0 };
    [flags, max, size, count]
}

#[inline(always)]
fn descriptor_for(place: u8, flags: Flags) -> Descriptor
    ensures descriptor { result ≡ descriptor_for place flags }
{
    Descriptor {
        place,
        access: flags.access,
        nonblock: flags.nonblock,
    }
}

impl Kernel {
    ghost use Rattle.ipc_kernel.specs.Queues.{mq_create, mq_open, mq_close, mq_send, mq_receive, mq_getattr, mq_setattr};

    #[inline(always)]
    pub(super) fn decide_mq_open<'a>(
        &self,
        pid: usize,
        name: &'a Name,
        flags: u16,
        attr: Option<[u16; 4]>,
    ) -> Decision<'a>
        requires process { pid < length self.now.processes }
        ensures outcome { outcome_of self.now pid result
            ≡ mq_open self.now pid name.now (sizes_asked attr) (flags_read flags) }
        ensures possible { IsPossible self.now result }
    {
        let flags = match Flags::read(flags) {
            Ok(flags) => flags,
            Err(errno) => return Decision::Refused(errno),
        };
        let (max_messages, message_size) = sizes_asked(attr);
        if flags.create && !are_sizes(max_messages, message_size) {
            return Decision::Refused(Errno::Invalid);
        }
        match self.places.queue_named(name) {
            Some(place) => {
                if flags.create && flags.excl {
                    return Decision::Refused(Errno::Exists);
                }
                let Some(mqd) = first_free(&self.processes.of_process(pid).descriptors) else {
                    return Decision::Refused(Errno::TooManyOpen);
                };
                let held = Some(descriptor_for(place, flags));
                let change = Change::HoldDescriptor { mqd, held };
                Decision::Answered(ShortReply::Plain(mqd as u16), change)
            }
            None => {
                if !flags.create {
                    return Decision::Refused(Errno::NoEntry);
                }
                self.decide_mq_create(pid, name, (max_messages, message_size), flags)
            }
        }
    }

    #[tactic(auto, using(crate::proofs::PlaceLemmas::first_empty_place))]
    #[inline(always)]
    fn decide_mq_create<'a>(
        &self,
        pid: usize,
        name: &'a Name,
        sizes: (u16, u16),
        flags: Flags,
    ) -> Decision<'a>
        requires process { pid < length self.now.processes }
        requires sizes { IsTrue (are_sizes sizes) }
        requires absent { queue_named self.now.places name.now ≡ None }
        ensures outcome { outcome_of self.now pid result
            ≡ mq_create self.now pid name.now sizes flags
            (free_descriptor_of self.now.processes pid) }
        ensures possible { IsPossible self.now result }
    {
        let Some(mqd) = first_free(&self.processes.of_process(pid).descriptors) else {
            return Decision::Refused(Errno::TooManyOpen);
        };
        let Some(place) = self.places.first_empty() else {
            return Decision::Refused(Errno::NoSpace);
        };
        let (max_messages, message_size) = sizes;
        let new = NewQueue {
            name,
            max_messages,
            message_size,
            mqd,
            held: descriptor_for(place, flags),
        };
        Decision::Answered(ShortReply::Plain(mqd as u16), Change::MakeQueue(new))
    }

    #[inline(always)]
    pub(super) fn decide_mq_close<'a>(&self, pid: usize, mqd: u16) -> Decision<'a>
        requires process { pid < length self.now.processes }
        ensures outcome { outcome_of self.now pid result
            ≡ mq_close self.now pid mqd (descriptor_of self.now.processes pid mqd) }
        ensures possible { IsPossible self.now result }
        ensures memory { decision_may_grow result ≡ false }
    {
        match self.processes.descriptor(pid, mqd) {
            None => Decision::Refused(Errno::BadDescriptor),
            Some(_) => {
                let mqd = mqd as usize;
                let change = Change::HoldDescriptor { mqd, held: None };
                Decision::Answered(ShortReply::Plain(0), change)
            }
        }
    }

    #[inline(always)]
    pub(super) fn decide_mq_unlink<'a>(&self, name: &'a Name) -> Decision<'a>
        ensures outcome { (p : ℕ) → outcome_of self.now p result
            ≡ unlink self.now (queue_named self.now.places name.now) }
        ensures possible { IsPossible self.now result }
        ensures memory { decision_may_grow result ≡ false }
    {
        match self.places.queue_named(name) {
            None => Decision::Refused(Errno::NoEntry),
            Some(place) => {
                Decision::Answered(ShortReply::Plain(0), Change::UnnameQueue { place, name })
            }
        }
    }

    #[inline(always)]
    pub(super) fn decide_mq_send<'a>(
        &self,
        pid: usize,
        mqd: u16,
        words: &'a Words,
        prio: u16,
    ) -> Decision<'a>
        requires process { pid < length self.now.processes }
        ensures outcome { outcome_of self.now pid result
            ≡ mq_send self.now prio words.now (open_queue self.now pid mqd) }
        ensures possible { IsPossible self.now result }
    {
        let Some((descriptor, queue)) = self.open_queue(pid, mqd) else {
            return Decision::Refused(Errno::BadDescriptor);
        };
        let (max, size, count) = queue.attr();
        if descriptor.access == 0 {
            return Decision::Refused(Errno::BadDescriptor);
        }
        if prio >= MQ_PRIO_MAX {
            return Decision::Refused(Errno::Invalid);
        }
        if words.len() > size as usize {
            return Decision::Refused(Errno::MessageSize);
        }
        if count >= max {
            return wait_or_again(descriptor);
        }
        let place = descriptor.place;
        Decision::Answered(ShortReply::Plain(0), Change::Send { place, words, prio })
    }

    #[tactic(auto, using(crate::proofs::AnswerLemmas::first_short))]
    #[inline(always)]
    pub(super) fn decide_mq_receive<'a>(&self, pid: usize, mqd: u16, len: u16) -> Decision<'a>
        requires process { pid < length self.now.processes }
        ensures outcome { outcome_of self.now pid result
            ≡ mq_receive self.now len (open_queue self.now pid mqd) }
        ensures possible { IsPossible self.now result }
        ensures memory { decision_may_grow result ≡ false }
        ensures size { message_length (outcome_of self.now pid result).0 ≤ len }
        ensures limit { message_length (outcome_of self.now pid result).0 ≤ mq_msgsize_max }
    {
        let Some((descriptor, queue)) = self.open_queue(pid, mqd) else {
            return Decision::Refused(Errno::BadDescriptor);
        };
        let (_, size, count) = queue.attr();
        if descriptor.access == 1 {
            return Decision::Refused(Errno::BadDescriptor);
        }
        if len < size {
            return Decision::Refused(Errno::MessageSize);
        }
        if count == 0 {
            return wait_or_again(descriptor);
        }
        Decision::Receives(descriptor.place)
    }

    #[inline(always)]
    pub(super) fn decide_mq_getattr<'a>(&self, pid: usize, mqd: u16) -> Decision<'a>
        requires process { pid < length self.now.processes }
        ensures outcome { outcome_of self.now pid result
            ≡ mq_getattr self.now (open_queue self.now pid mqd) }
        ensures possible { IsPossible self.now result }
        ensures memory { decision_may_grow result ≡ false }
    {
        match self.open_queue(pid, mqd) {
            None => Decision::Refused(Errno::BadDescriptor),
            Some((descriptor, queue)) => {
                let reply = ShortReply::Attr(attributes(descriptor, queue));
                Decision::Answered(reply, Change::Nothing)
            }
        }
    }

    #[inline(always)]
    pub(super) fn decide_mq_setattr<'a>(&self, pid: usize, mqd: u16, flags: u16) -> Decision<'a>
        requires process { pid < length self.now.processes }
        ensures outcome { outcome_of self.now pid result
            ≡ mq_setattr self.now pid mqd flags (open_queue self.now pid mqd) }
        ensures possible { IsPossible self.now result }
        ensures memory { decision_may_grow result ≡ false }
    {
        let Some((descriptor, queue)) = self.open_queue(pid, mqd) else {
            return Decision::Refused(Errno::BadDescriptor);
        };
        if flags & !O_NONBLOCK != 0 {
            return Decision::Refused(Errno::Invalid);
        }
        let held = Some(Descriptor {
            nonblock: flags & O_NONBLOCK != 0,
            ..descriptor
        });
        let mqd = mqd as usize;
        let reply = ShortReply::Attr(attributes(descriptor, queue));
        Decision::Answered(reply, Change::HoldDescriptor { mqd, held })
    }
}
