//! The descriptors and slots of one process.
ghost use Rattle.std.specs.Prelude.{◌≡◌, ◌↔◌, ◌<◌, IsTrue, IfSome, length, position, is_none, slice_get, unwrap_or};
ghost use Rattle.ipc_kernel.specs.Limits.{open_max};
ghost use Rattle.ipc_kernel.specs.Processes.{slot_refers, with_descriptor, with_slot};
ghost use Rattle.ipc_kernel.specs.Operands.{place_of};

use crate::call::Handle;
use crate::limits::OPEN_MAX;
use std::hash::{FoldHasher, Hasher};

/// An open message queue: the object place of the queue, and how this descriptor opened it.
#[derive(Clone, Copy, PartialEq, Eq)]
pub struct Descriptor {
    /// The object place, 0 to 63.
    pub place: u8,
    /// 0 to receive (O_RDONLY), 1 to send (O_WRONLY), 2 for both (O_RDWR).
    pub access: u8,
    /// A call that would wait is refused (O_NONBLOCK).
    pub nonblock: bool,
}

/// An open semaphore: its object place, and how often the process has it open.
#[derive(Clone, Copy, PartialEq, Eq)]
pub struct Slot {
    /// The object place, 0 to 63.
    pub place: u8,
    /// The opens that are not closed, 1 to 255.
    pub opens: u8,
}

/// The descriptors and slots of one process, each open or free.
#[derive(Clone, Copy, PartialEq, Eq)]
pub struct OpenTables {
    pub descriptors: [Option<Descriptor>; OPEN_MAX],
    pub slots: [Option<Slot>; OPEN_MAX],
}

impl OpenTables {
    /// Whether the tables are the same.
    pub fn is_same(&self, other: &OpenTables) -> bool
        ensures same { IsTrue result ↔ (self.now ≡ other.now) }
    {
        *self == *other
    }

    /// A number for the tables.
    pub fn digest(&self) -> u64 {
        let mut hasher = FoldHasher::default();
        for (i, descriptor) in self.descriptors.iter().enumerate() {
            if let Some(held) = descriptor {
                hasher.write_usize(i);
                hasher.write_u8(held.place);
                hasher.write_u8(held.access);
                hasher.write_u8(held.nonblock as u8);
            }
        }
        for (i, slot) in self.slots.iter().enumerate() {
            if let Some(held) = slot {
                hasher.write_usize(OPEN_MAX.saturating_add(i));
                hasher.write_u8(held.place);
                hasher.write_u8(held.opens);
            }
        }
        hasher.finish()
    }

    /// The object place that an open descriptor or slot refers to.
    pub fn place_of(&self, handle: Handle) -> Option<u8>
        ensures place { result ≡ place_of self.now handle }
    {
        match handle {
            Handle::Mqd(mqd) => Some(held_at(&self.descriptors, mqd)?.place),
            Handle::Slot(slot) => Some(held_at(&self.slots, slot)?.place),
        }
    }
}

/// What a descriptor or a slot holds, where it is open.
#[inline(always)]
pub(crate) fn held_at<T: Copy>(cells: &[Option<T>], at: u16) -> Option<T>
    ensures held { result ≡ unwrap_or (slice_get cells.now at) None }
    ensures range { IfSome result (λ _. at < length cells.now) }
{
    *cells.get(at as usize)?
}

/// The first that is free among descriptors or slots.
pub(crate) fn first_free<T>(cells: &[Option<T>]) -> Option<usize>
    ensures first { result ≡ position is_none cells.now }
    ensures range { IfSome result (λ i. i < length cells.now) }
{
    cells.iter().position(|cell| cell.is_none())
}

pub(crate) fn first_that_refers(slots: &[Option<Slot>], place: u8) -> Option<usize>
    ensures first { result ≡ position (slot_refers place) slots.now }
    ensures range { IfSome result (λ i. i < length slots.now) }
{
    slots
        .iter()
        .position(|slot| slot.is_some_and(|slot| slot.place == place))
}

pub(crate) fn write_slot(tables: &mut Vec<OpenTables>, pid: usize, slot: usize, value: Option<Slot>)
    requires process { pid < length tables.old.items }
    requires slot { slot < open_max }
    ensures held { tables.new.items ≡ with_slot tables.old.items pid slot value }
{
    let process = &mut tables[pid];
    process.slots[slot] = value;
}

pub(crate) fn write_descriptor(
    tables: &mut Vec<OpenTables>,
    pid: usize,
    mqd: usize,
    value: Option<Descriptor>,
)
    requires process { pid < length tables.old.items }
    requires mqd { mqd < open_max }
    ensures held { tables.new.items ≡ with_descriptor tables.old.items pid mqd value }
{
    let process = &mut tables[pid];
    process.descriptors[mqd] = value;
}
