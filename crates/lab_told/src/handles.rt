//! Descriptors, slots and the objects that they stand for.
ghost use Rattle.std.specs.Prelude.{◌≡◌, ◌<◌, ◌++◌, Some, IfSome, length};
ghost use Rattle.ipc_kernel.specs.Limits.{object_places};
ghost use Rattle.ipc_kernel.specs.Places.{place_at};
ghost use Rattle.lab_told.specs.Objects.{held_place, object_text, behind_text, level_at};
ghost use Rattle.lab_told.specs.Words.{signed_text};

use crate::message::Signed;
use ipc_kernel::Kernel;
use ipc_traps::Service;
use std::fmt;

/// The level of an object.
#[derive(Clone, Copy, Debug, PartialEq, Eq)]
pub enum Level {
    /// How many messages a queue has, and the most that it can have.
    Messages { count: u16, most: u16 },
    /// The value of a semaphore.
    Value(u16),
}

/// The place of the object that a number of process `pid` stands for: a descriptor's for a call on queues, else a
/// slot's.
#[tactic(auto, unfolding(crate::specs::Objects::held_place))]
pub fn held_place(kernel: &Kernel, pid: usize, service: Service, number: u16) -> Option<u8>
    requires process { pid < length kernel.now.processes }
    ensures place { result ≡ held_place kernel.now pid service number }
    ensures range { IfSome result (λ place. place < object_places) }
{
    let place = if service.is_on_queues() {
        kernel.mqd(pid, number)?.place
    } else {
        kernel.slot(pid, number)?.place
    };
    Some(place)
}

/// The object in a place by its name, or by its place once it is unlinked.
#[derive(Clone, Copy)]
pub struct Object<'a>(pub &'a Kernel, pub u8);

impl fmt::Display for Object<'_> {
    ghost output = { λ o. Some (object_text o.1 (place_at o.0.now.places o.1)) };

    fn fmt<W: fmt::Write>(&self, f: &mut fmt::Formatter<W>) -> fmt::Result {
        let Object(kernel, place) = *self;
        let name = match (kernel.queue_at(place), kernel.semaphore_at(place)) {
            (Some((name, _)), _) | (None, Some((name, _))) => name,
            (None, None) => return Ok(()),
        };
        match name {
            Some(name) => {
                let name = name.text();
                write!(f, "{name}")
            }
            None => write!(f, "#{place}"),
        }
    }
}

/// A descriptor or a slot, with the object in its place where it is open.
#[derive(Clone, Copy)]
pub struct Handle<'a> {
    pub kernel: &'a Kernel,
    pub number: u16,
    pub place: Option<u8>,
}

impl fmt::Display for Handle<'_> {
    ghost output = { λ h. Some (signed_text h.number ++ behind_text h.kernel.now h.place) };

    fn fmt<W: fmt::Write>(&self, f: &mut fmt::Formatter<W>) -> fmt::Result {
        let number = Signed(self.number);
        match self.place {
            Some(place) => {
                let object = Object(self.kernel, place);
                write!(f, "{number}<{object}>")
            }
            None => write!(f, "{number}"),
        }
    }
}

/// The level of the object in a place.
#[tactic(auto, unfolding(crate::specs::Objects::level_at))]
pub fn level_at(kernel: &Kernel, place: u8) -> Option<Level>
    ensures level { result ≡ level_at kernel.now place }
{
    if let Some((_, queue)) = kernel.queue_at(place) {
        let (most, _, count) = queue.attr();
        return Some(Level::Messages { count, most });
    }
    let (_, value) = kernel.semaphore_at(place)?;
    Some(Level::Value(value))
}
