//! Messages in the order of receive, those of the greatest priority in a bucket by themselves.
ghost use Rattle.std.specs.Prelude.{◌≡◌, ◌<◌, [], ◌∷◌, length, slice_get, Some, IfSome, IfOk, IfErr, OnOk, OnErr, All, ◌++◌};
ghost use Rattle.std.specs.Option.{option_copied};
ghost use Rattle.ipc_objects.specs.Queue.{after_send};
ghost use Rattle.ipc_objects.specs.Private.Buckets.{after_greatest, AreBelow};

use crate::Message;
use crate::buckets::Buckets;
use std::alloc::{AllocError, Global};
use std::cmp::Ordering;
use std::collections::VecDeque;
use std::hash::FoldHasher;
use std::marker::Model;
use std::mem::replace;

/// Messages in the order in which they would be received. The bucket of the greatest priority
/// stands by itself: most queues have one priority at a time, and then need no map.
#[derive(Drop)]
pub(crate) struct Messages {
    alloc: Global,
    /// The greatest priority that has messages, with its bucket.
    greatest: Option<(u16, Bucket)>,
    lesser: Buckets,
}

impl Model for Messages {
    ghost use Rattle.std.specs.Prelude.{List};
    ghost use Rattle.ipc_objects.specs.declared.queue.Message.{Message};
    ghost use Rattle.ipc_objects.specs.Private.Buckets.{after_greatest, AreBelow};

    ghost Value = { List Message };

    ghost view = { λ a. after_greatest a.greatest a.lesser };

    ghost invariant = { λ a. AreBelow a.greatest a.lesser };
}

/// Puts the bucket of the greatest priority, if there is one, among the lesser ones. Where memory
/// is refused nothing changes.
#[inline(never)]
fn put_away(greatest: &mut Option<(u16, Bucket)>, lesser: &mut Buckets) -> Result<(), AllocError>
    requires below { AreBelow greatest.old lesser.old }
    ensures none { OnOk result (greatest.new ≡ None) }
    ensures others { OnOk result (lesser.new ≡ after_greatest greatest.old lesser.old) }
    ensures greatest_kept { OnErr result (greatest.new ≡ greatest.old) }
    ensures lesser_kept { OnErr result (lesser.new ≡ lesser.old) }
{
    if let Some((priority, bucket)) = greatest.take() {
        if let Err(bucket) = lesser.put_greatest(priority, bucket) {
            *greatest = Some((priority, bucket));
            return Err(AllocError);
        }
    }
    Ok(())
}

/// Makes the bucket of a message of a priority above all others. Where memory is refused the
/// message is handed back and nothing changes.
fn put_first(
    greatest: &mut Option<(u16, Bucket)>,
    lesser: &mut Buckets,
    alloc: Global,
    message: Message,
) -> Result<(), Message>
    requires below { AreBelow greatest.old lesser.old }
    ensures first { OnOk result (greatest.new ≡ Some (message.priority, message ∷ [])) }
    ensures others { OnOk result (lesser.new ≡ after_greatest greatest.old lesser.old) }
    ensures greatest_kept { OnErr result (greatest.new ≡ greatest.old) }
    ensures lesser_kept { OnErr result (lesser.new ≡ lesser.old) }
    ensures handed_back { IfErr result (λ back. back ≡ message) }
{
    if greatest.is_some() {
        if put_away(greatest, lesser).is_err() {
            return Err(message);
        }
    }
    *greatest = Some((message.priority, Bucket::of(alloc, message)));
    Ok(())
}

/// Takes out the only message of the greatest priority.
fn take_last(greatest: &mut Option<(u16, Bucket)>, lesser: &mut Buckets) -> Message
    requires below { AreBelow greatest.old lesser.old }
    requires only { IfSome greatest.old (λ e. length e.1 ≡ 1) }
    requires some { 0 < length (after_greatest greatest.old lesser.old) }
    ensures first { after_greatest greatest.old lesser.old
        ≡ result ∷ after_greatest greatest.new lesser.new }
    ensures below { AreBelow greatest.new lesser.new }
{
    match replace(greatest, lesser.pop_greatest()) {
        Some((_, bucket)) => bucket.into_message(),
        None => unreachable!(),
    }
}

/// Takes out the oldest message of the greatest priority.
fn take_first(greatest: &mut Option<(u16, Bucket)>, lesser: &mut Buckets) -> Message
    requires below { AreBelow greatest.old lesser.old }
    requires some { 0 < length (after_greatest greatest.old lesser.old) }
    ensures first { after_greatest greatest.old lesser.old
        ≡ result ∷ after_greatest greatest.new lesser.new }
    ensures below { AreBelow greatest.new lesser.new }
{
    if let Some((_, bucket)) = greatest {
        if bucket.len() > 1 {
            return bucket.pop_front();
        }
    }
    take_last(greatest, lesser)
}

impl Messages {
    pub(crate) fn new(alloc: Global) -> Messages
        ensures empty { result ≡ [] }
    {
        Messages {
            alloc,
            greatest: None,
            lesser: Buckets::new(alloc),
        }
    }

    /// Adds a message behind all of its priority or a greater one and before all of a lesser one.
    /// Where memory is refused it is handed back and nothing changes.
    pub(crate) fn push(&mut self, message: Message) -> Result<(), Message>
        ensures ok { OnOk result (self.new ≡ after_send message self.old) }
        ensures err { OnErr result (self.new ≡ self.old) }
        ensures handed_back { IfErr result (λ back. back ≡ message) }
    {
        match &mut self.greatest {
            Some((priority, bucket)) if message.priority == *priority => bucket.push(message),
            Some((priority, _)) if message.priority < *priority => self.lesser.push(message),
            _ => put_first(&mut self.greatest, &mut self.lesser, self.alloc, message),
        }
    }

    /// Takes out the first message.
    pub(crate) fn pop_front(&mut self) -> Message
        requires some { 0 < length self.old }
        ensures first { self.old ≡ result ∷ self.new }
    {
        take_first(&mut self.greatest, &mut self.lesser)
    }

    /// The message with `n` others before it.
    pub(crate) fn get(&self, n: usize) -> Option<&Message>
        ensures message { option_copied result ≡ slice_get self.now n }
    {
        match &self.greatest {
            Some((_, bucket)) if n < bucket.len() => bucket.get(n),
            Some((_, bucket)) => self.lesser.get(n - bucket.len()),
            None => None,
        }
    }

    /// Equal messages in the same order.
    pub(crate) fn copy(&self, alloc: Global) -> Result<Messages, AllocError>
        ensures equal { IfOk result (λ copy. copy ≡ self.now) }
    {
        let greatest = match &self.greatest {
            Some((priority, bucket)) => Some((*priority, bucket.copy(alloc)?)),
            None => None,
        };
        let lesser = self.lesser.copy(alloc)?;
        Ok(Messages {
            alloc,
            greatest,
            lesser,
        })
    }

    /// Adds the messages to a digest.
    pub(crate) fn feed(&self, hasher: &mut FoldHasher) {
        if let Some((_, bucket)) = &self.greatest {
            bucket.feed(hasher);
        }
        self.lesser.feed(hasher);
    }
}

/// The messages of one priority, in the order of arrival. There is at least one, and a bucket of
/// one takes no memory of its own.
#[derive(Drop)]
pub(crate) struct Bucket {
    oldest: Message,
    later: VecDeque<Message>,
}

impl Model for Bucket {
    ghost use Rattle.std.specs.Prelude.{List, ◌∷◌};
    ghost use Rattle.ipc_objects.specs.declared.queue.Message.{Message};

    ghost Value = { List Message };

    ghost view = { λ a. a.oldest ∷ a.later.items };
}

impl Bucket {
    /// A bucket of one message.
    pub(crate) fn of(alloc: Global, message: Message) -> Bucket
        ensures only { result ≡ message ∷ [] }
    {
        Bucket {
            oldest: message,
            later: VecDeque::new(alloc),
        }
    }

    pub(crate) fn len(&self) -> usize
        ensures length { result ≡ length self.now }
    {
        1 + self.later.len()
    }

    pub(crate) fn get(&self, i: usize) -> Option<&Message>
        ensures message { option_copied result ≡ slice_get self.now i }
    {
        if i == 0 {
            return Some(&self.oldest);
        }
        self.later.get(i - 1)
    }

    /// Adds a message behind the others. Where memory is refused it is handed back.
    pub(crate) fn push(&mut self, message: Message) -> Result<(), Message>
        ensures ok { OnOk result (self.new ≡ self.old ++ message ∷ []) }
        ensures err { OnErr result (self.new ≡ self.old) }
        ensures handed_back { IfErr result (λ back. back ≡ message) }
    {
        match self.later.push_back(message) {
            Ok(()) => Ok(()),
            Err(failed) => Err(failed.value),
        }
    }

    /// Takes out the oldest of several messages.
    pub(crate) fn pop_front(&mut self) -> Message
        requires several { 1 < length self.old }
        ensures first { self.old ≡ result ∷ self.new }
    {
        let next = self.later.pop_front().unwrap();
        replace(&mut self.oldest, next)
    }

    /// The only message.
    pub(crate) fn into_message(self) -> Message
        requires only { length self ≡ 1 }
        ensures only { self ≡ result ∷ [] }
    {
        let Bucket { oldest, later: _ } = self;
        oldest
    }

    /// An equal bucket.
    pub(crate) fn copy(&self, alloc: Global) -> Result<Bucket, AllocError>
        ensures equal { IfOk result (λ copy. copy ≡ self.now) }
    {
        let oldest = self.oldest.clone()?;
        let mut later = VecDeque::new(alloc);
        for i in 0..self.later.len() {
            let message = &self.later[i];
            later.push_back(message.clone()?)?;
        }
        Ok(Bucket { oldest, later })
    }

    /// Adds the messages to a digest.
    pub(crate) fn feed(&self, hasher: &mut FoldHasher) {
        self.oldest.feed(hasher);
        for message in &self.later {
            message.feed(hasher);
        }
    }
}
