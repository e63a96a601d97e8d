//! Copies of the tables of processes, and whether they are the same.
ghost use Rattle.std.specs.Prelude.{◌≡◌, ◌↔◌, IfOk, IsTrue};

use super::Processes;
use crate::process::OpenTables;
use std::alloc::{AllocError, Global};
use std::hash::{FoldHasher, Hasher};
use std::mem::size_of;

/// The number of the object in a place.
fn object_at(objects: &[u64], place: u8) -> u64 {
    objects.get(place as usize).copied().unwrap_or(0)
}

/// Adds the open descriptors and slots of a process to a digest, each with the number of its
/// object.
fn feed_process(process: &OpenTables, objects: &[u64], hasher: &mut FoldHasher) {
    for (i, descriptor) in process.descriptors.iter().enumerate() {
        if let Some(descriptor) = descriptor {
            hasher.write_usize(i);
            hasher.write_u64(object_at(objects, descriptor.place));
            hasher.write_u8(descriptor.access);
            hasher.write_u8(descriptor.nonblock as u8);
        }
    }
    for (i, slot) in process.slots.iter().enumerate() {
        if let Some(slot) = slot {
            hasher.write_usize(i);
            hasher.write_u64(object_at(objects, slot.place));
            hasher.write_u8(slot.opens);
        }
    }
}

impl Processes {
    pub(crate) fn copy(&self, alloc: Global) -> Result<Processes, AllocError>
        ensures equal { IfOk result (λ copy. copy ≡ self.now) }
    {
        let tables = Vec::from_slice(alloc, self.tables.as_slice())?;
        Ok(Processes {
            tables,
            counts: self.counts,
        })
    }

    pub(crate) fn is_same(&self, other: &Processes) -> bool
        ensures same { IsTrue result ↔ (self.now ≡ other.now) }
    {
        self.tables.as_slice() == other.tables.as_slice()
    }

    pub(crate) fn size(&self) -> usize {
        size_of::<OpenTables>().saturating_mul(self.tables.len())
    }

    /// Adds the tables to a digest, by the numbers of the objects to which they refer.
    pub(crate) fn feed(&self, objects: &[u64], hasher: &mut FoldHasher) {
        for process in &self.tables {
            hasher.write_u8(0);
            feed_process(process, objects, hasher);
        }
    }
}
