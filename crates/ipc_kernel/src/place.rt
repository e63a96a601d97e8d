//! One object place.
ghost use Rattle.std.specs.Prelude.{◌≡◌, ◌+◌, ◌-◌, ◌<◌, ◌≤◌, ◌||◌, if◌then◌else◌, IfSome, OnOk, OnErr, ◌∷◌, IsTrue, IsSomeAnd, drop};
ghost use Rattle.std.specs.Option.{option_copied};
ghost use Rattle.ipc_objects.specs.Queue.{QueueState, with_message, without_first};
ghost use Rattle.ipc_objects.specs.declared.queue.Message.{Message};
ghost use Rattle.ipc_objects.specs.Limits.{sem_value_max, mq_prio_max};
ghost use Rattle.ipc_kernel.specs.declared.place.Place.TheVariants.{Empty};

mod copies;

use ipc_names::Name;
use ipc_objects::{Queue, Semaphore, Words};
use std::alloc::AllocError;

/// What an object place holds: nothing, or a queue or a semaphore. An unlinked object has no name.
#[derive(PartialEq, Eq, Drop)]
pub enum Place {
    Empty,
    Mq {
        name: Option<Name>,
        queue: Queue,
    },
    Sem {
        name: Option<Name>,
        semaphore: Semaphore,
    },
}

/// A kind of objects, whose names are apart from those of the other.
#[derive(Clone, Copy)]
pub(crate) enum Kind {
    Queue,
    Semaphore,
}

impl Place {
    ghost use Rattle.ipc_kernel.specs.Places.{is_empty, has_name, queue_name, semaphore_name, semaphore_value, with_value, without_name, queue_in, with_queue};
    ghost use Rattle.ipc_kernel.specs.Private.Index.{KeepsName, name_by};
    ghost use Rattle.ipc_kernel.specs.Private.Messages.{HasRoomFor, HasMessage};

    /// Whether the place holds nothing.
    pub fn is_empty(&self) -> bool
        ensures empty { result ≡ is_empty self.now }
    {
        matches!(self, Place::Empty)
    }

    /// Whether the place holds an object with a name.
    pub fn has_name(&self) -> bool
        ensures named { result ≡ has_name self.now }
    {
        match self {
            Place::Empty => false,
            Place::Mq { name, .. } | Place::Sem { name, .. } => name.is_some(),
        }
    }

    /// The name of the queue, if it is one that has a name.
    pub fn queue_name(&self) -> Option<&Name>
        ensures name { option_copied result ≡ queue_name self.now }
    {
        match self {
            Place::Mq { name, .. } => name.as_ref(),
            _ => None,
        }
    }

    /// The name of the semaphore, if it is one that has a name.
    pub fn semaphore_name(&self) -> Option<&Name>
        ensures name { option_copied result ≡ semaphore_name self.now }
    {
        match self {
            Place::Sem { name, .. } => name.as_ref(),
            _ => None,
        }
    }

    /// The name of the object, if it is of this kind and has a name.
    pub(crate) fn name(&self, kind: Kind) -> Option<&Name>
        ensures name { option_copied result ≡ name_by kind self.now }
    {
        match kind {
            Kind::Queue => self.queue_name(),
            Kind::Semaphore => self.semaphore_name(),
        }
    }

    #[inline(always)]
    pub(crate) fn semaphore_value(&self) -> Option<u16>
        ensures value { result ≡ semaphore_value self.now }
        ensures bound { IfSome result (λ value. value ≤ sem_value_max) }
    {
        match self {
            Place::Sem { semaphore, .. } => Some(semaphore.value()),
            _ => None,
        }
    }

    #[inline(always)]
    pub(crate) fn queue(&self) -> Option<&Queue>
        ensures queue { option_copied result ≡ queue_in self.now }
    {
        match self {
            Place::Mq { queue, .. } => Some(queue),
            _ => None,
        }
    }

    #[inline(always)]
    pub(crate) fn send(&mut self, priority: u16, words: Words) -> Result<(), AllocError>
        requires queue { IsSomeAnd (queue_in self.old) (HasRoomFor words) }
        requires priority { priority < mq_prio_max }
        ensures ok { OnOk result ((q : QueueState) → queue_in self.old ≡ Some q
            → self.new ≡ with_queue (with_message priority words q) self.old) }
        ensures err { OnErr result (self.new ≡ self.old) }
        ensures named { KeepsName self.old self.new }
    {
        if let Place::Mq { queue, .. } = self {
            if queue.send(priority, words).is_err() {
                return Err(AllocError);
            }
        }
        Ok(())
    }

    #[inline(always)]
    pub(crate) fn receive(&mut self) -> (u16, Words)
        requires message { IsSomeAnd (queue_in self.old) HasMessage }
        ensures first { (q : QueueState) → queue_in self.old ≡ Some q
            → q.messages ≡ record { priority = result.0; words = result.1 } ∷ drop 1 q.messages }
        ensures rest { (q : QueueState) → queue_in self.old ≡ Some q
            → self.new ≡ with_queue (without_first q) self.old }
        ensures named { KeepsName self.old self.new }
    {
        match self {
            Place::Mq { queue, .. } => queue.receive(),
            _ => unreachable!(),
        }
    }

    #[inline(always)]
    pub(crate) fn post(&mut self, value: u16)
        requires value { semaphore_value self.old ≡ Some value }
        requires room { value < sem_value_max }
        ensures more { self.new ≡ with_value (value + 1) self.old }
        ensures named { KeepsName self.old self.new }
    {
        if let Place::Sem { semaphore, .. } = self {
            semaphore.post();
        }
    }

    #[inline(always)]
    pub(crate) fn take(&mut self, value: u16)
        requires value { semaphore_value self.old ≡ Some value }
        ensures less { self.new ≡ with_value (value - 1) self.old }
        ensures named { KeepsName self.old self.new }
    {
        if let Place::Sem { semaphore, .. } = self {
            let _ = semaphore.try_wait();
        }
    }

    pub(crate) fn unname(&mut self)
        ensures unnamed { self.new ≡ without_name self.old }
    {
        match self {
            Place::Empty => {}
            Place::Mq { name, .. } => *name = None,
            Place::Sem { name, .. } => *name = None,
        }
    }

    fn kind_and_name(&self) -> (u8, &str) {
        let (kind, name) = match self {
            Place::Empty => return (0, ""),
            Place::Mq { name, .. } => (1, name),
            Place::Sem { name, .. } => (2, name),
        };
        (kind, name.as_ref().map_or("", |name| name.text()))
    }

    /// Whether the object is before another by its kind and its name.
    pub fn is_before(&self, other: &Place) -> bool {
        self.kind_and_name() < other.kind_and_name()
    }

    /// Whether a place is empty, or has a name, or something refers to it.
    pub(crate) fn stays(&self, referred: bool) -> bool
        ensures stays { IsTrue result → (if has_name self.now || referred then self.now else Empty)
            ≡ self.now }
    {
        self.has_name() || referred || self.is_empty()
    }

    /// Empties a place without a name to which nothing refers.
    pub(crate) fn keep_or_empty(&mut self, referred: bool)
        ensures emptied { self.new ≡ (if has_name self.old || referred then self.old else Empty) }
    {
        if !self.has_name() && !referred {
            *self = Place::Empty;
        }
    }
}
