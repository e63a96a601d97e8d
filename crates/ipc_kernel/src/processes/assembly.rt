//! Processes from their tables.
ghost use Rattle.std.specs.Prelude.{◌≡◌, ◌<◌, ◌+◌, ℕ, IsTrue, IfSome, All, slice_index, count_by, length, true};
ghost use Rattle.ipc_kernel.specs.Limits.{object_places};
ghost use Rattle.ipc_kernel.specs.Processes.{descriptor_refers, slot_refers, is_referred};
ghost use Rattle.ipc_kernel.specs.Private.Counts.{references_in, references_to, HasFullTables};

use super::{Processes, note_descriptor, note_slot};
use crate::limits::{OBJECT_PLACES, PROCESS_MAX};
use crate::process::{Descriptor, OpenTables, Slot};

/// Whether one reference more to a place can be counted.
fn has_room(counts: &[u16], place: u8) -> bool
    ensures place { IsTrue result → place < length counts.now }
    ensures room { IsTrue result → slice_index counts.now place < 65535 }
{
    match counts.get(place as usize) {
        Some(count) => *count < u16::MAX,
        None => false,
    }
}

/// Counts the references of descriptors, if each is to an object place.
fn note_descriptors(counts: &mut [u16], descriptors: &[Option<Descriptor>]) -> bool
    ensures counted { IsTrue result → (k : ℕ) → slice_index counts.new k
        ≡ slice_index counts.old k + count_by (descriptor_refers k) descriptors.now }
{
    for descriptor in descriptors {
        if let Some(held) = descriptor {
            if !has_room(counts, held.place) {
                return false;
            }
            note_descriptor(counts, *descriptor);
        }
    }
    true
}

/// Counts the references of slots, if each is to an object place.
fn note_slots(counts: &mut [u16], slots: &[Option<Slot>]) -> bool
    ensures counted { IsTrue result → (k : ℕ) → slice_index counts.new k
        ≡ slice_index counts.old k + count_by (slot_refers k) slots.now }
{
    for slot in slots {
        if let Some(held) = slot {
            if !has_room(counts, held.place) {
                return false;
            }
            note_slot(counts, *slot);
        }
    }
    true
}

/// Counts the references of a process, if each is to an object place.
fn note_process(counts: &mut [u16], process: &OpenTables) -> bool
    ensures counted { IsTrue result → (k : ℕ) → slice_index counts.new k
        ≡ slice_index counts.old k + references_in k process.now }
    ensures full { HasFullTables process.now }
{
    note_descriptors(counts, &process.descriptors) && note_slots(counts, &process.slots)
}

/// Counts the references of processes, if each is to an object place.
fn note_processes(counts: &mut [u16], processes: &[OpenTables]) -> bool
    ensures counted { IsTrue result → (k : ℕ) → slice_index counts.new k
        ≡ slice_index counts.old k + references_to k processes.now }
    ensures full { IsTrue result → All HasFullTables processes.now }
{
    for process in processes {
        if !note_process(counts, process) {
            return false;
        }
    }
    true
}

impl Processes {
    /// Processes with these tables, if these are at most 64 and each reference is to a place.
    pub(crate) fn of(tables: Vec<OpenTables>) -> Option<Processes>
        ensures tables { IfSome result (λ ps. ps ≡ tables.items) }
    {
        if tables.len() > PROCESS_MAX {
            return None;
        }
        let mut counts = [0; OBJECT_PLACES];
        if !note_processes(&mut counts, tables.as_slice()) {
            return None;
        }
        Some(Processes { tables, counts })
    }

    pub(crate) fn tables(&self) -> &[OpenTables]
        ensures tables { result.now ≡ self.now }
        ensures range { (i : ℕ) → is_referred self.now i ≡ true → i < object_places }
    {
        self.tables.as_slice()
    }
}
