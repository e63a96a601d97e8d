//! The descriptors and slots of all processes, with the number of references to each place.
ghost use Rattle.std.specs.Prelude.{◌≡◌, ℕ, ◌+◌, ◌<◌, ◌≤◌, IfOk, IfSome, length, replicate, slice_set, slice_index, count_by};
ghost use Rattle.ipc_kernel.specs.Private.Counts.{indicator};
ghost use Rattle.ipc_kernel.specs.Limits.{object_places, open_max, process_max};
ghost use Rattle.ipc_kernel.specs.Processes.{slot_refers, descriptor_refers, is_referred, with_descriptor, with_slot};

mod assembly;
mod copies;

use crate::limits::{OBJECT_PLACES, OPEN_MAX};
use crate::process::{Descriptor, OpenTables, Slot, held_at, write_descriptor, write_slot};
use std::alloc::{AllocError, Global};
use std::marker::Model;

/// Counts one reference more, of a slot that is open.
fn note_slot(counts: &mut [u16], slot: Option<Slot>)
    requires place { IfSome slot (λ s. s.place < length counts.old) }
    requires room { IfSome slot (λ s. slice_index counts.old s.place < 65535) }
    ensures counted { (k : ℕ) →
        slice_index counts.new k ≡ slice_index counts.old k + indicator (slot_refers k slot) }
{
    if let Some(slot) = slot {
        counts[slot.place as usize] += 1;
    }
}

/// Counts one reference less, of a slot that was open.
fn forget_slot(counts: &mut [u16], slot: Option<Slot>)
    requires noted { IfSome slot (λ s. 0 < slice_index counts.old s.place) }
    ensures counted { (k : ℕ) →
        slice_index counts.new k + indicator (slot_refers k slot) ≡ slice_index counts.old k }
{
    if let Some(slot) = slot {
        counts[slot.place as usize] -= 1;
    }
}

/// Counts one reference more, of a descriptor that is open.
fn note_descriptor(counts: &mut [u16], descriptor: Option<Descriptor>)
    requires place { IfSome descriptor (λ d. d.place < length counts.old) }
    requires room { IfSome descriptor (λ d. slice_index counts.old d.place < 65535) }
    ensures counted { (k : ℕ) → slice_index counts.new k ≡
        slice_index counts.old k + indicator (descriptor_refers k descriptor) }
{
    if let Some(descriptor) = descriptor {
        counts[descriptor.place as usize] += 1;
    }
}

/// Counts one reference less, of a descriptor that was open.
fn forget_descriptor(counts: &mut [u16], descriptor: Option<Descriptor>)
    requires noted { IfSome descriptor (λ d. 0 < slice_index counts.old d.place) }
    ensures counted { (k : ℕ) →
        slice_index counts.new k + indicator (descriptor_refers k descriptor) ≡
        slice_index counts.old k }
{
    if let Some(descriptor) = descriptor {
        counts[descriptor.place as usize] -= 1;
    }
}

fn forget_slots(counts: &mut [u16], slots: &[Option<Slot>])
    requires noted { (k : ℕ) → count_by (slot_refers k) slots.now ≤ slice_index counts.old k }
    ensures counted { (k : ℕ) →
        slice_index counts.new k + count_by (slot_refers k) slots.now ≡ slice_index counts.old k }
{
    for slot in slots {
        forget_slot(counts, *slot);
    }
}

fn forget_descriptors(counts: &mut [u16], descriptors: &[Option<Descriptor>])
    requires noted { (k : ℕ) →
        count_by (descriptor_refers k) descriptors.now ≤ slice_index counts.old k }
    ensures counted { (k : ℕ) →
        slice_index counts.new k + count_by (descriptor_refers k) descriptors.now ≡
        slice_index counts.old k }
{
    for descriptor in descriptors {
        forget_descriptor(counts, *descriptor);
    }
}

/// The tables of all processes, with the number of references to each place.
#[derive(Drop)]
pub(crate) struct Processes {
    tables: Vec<OpenTables>,
    counts: [u16; OBJECT_PLACES],
}

impl Model for Processes {
    ghost use Rattle.std.specs.Prelude.{List};
    ghost use Rattle.ipc_kernel.specs.declared.process.OpenTables.{OpenTables};

    ghost Value = { List OpenTables };

    ghost view = { λ a. a.tables.items };

    ghost use Rattle.ipc_kernel.specs.Private.Counts.{CountsReferences};

    ghost invariant = { λ a. CountsReferences a.tables.items a.counts };
}

impl Processes {
    ghost use Rattle.ipc_kernel.specs.Processes.{process_at, descriptor_of, slot_of, closed_process};

    #[tactic(auto, using(crate::proofs::CountLemmas::counts_of_none))]
    pub(crate) fn new(alloc: Global, count: usize) -> Result<Processes, AllocError>
        requires few { count ≤ process_max }
        ensures closed { IfOk result (λ ps. ps ≡ replicate count closed_process) }
    {
        let closed = OpenTables {
            descriptors: [None; OPEN_MAX],
            slots: [None; OPEN_MAX],
        };
        let tables = vec![in alloc; closed; count]?;
        Ok(Processes {
            tables,
            counts: [0; OBJECT_PLACES],
        })
    }

    pub(crate) fn count(&self) -> usize
        ensures count { result ≡ length self.now }
    {
        self.tables.len()
    }

    #[tactic(auto, using(crate::proofs::ProcessLemmas::process_at_read))]
    #[inline(always)]
    pub(crate) fn descriptor(&self, pid: usize, mqd: u16) -> Option<Descriptor>
        requires process { pid < length self.now }
        ensures held { result ≡ descriptor_of self.now pid mqd }
        ensures range { IfSome result (λ _. mqd < open_max) }
        ensures place { IfSome result (λ held. held.place < object_places) }
    {
        let process = &self.tables[pid];
        held_at(&process.descriptors, mqd)
    }

    #[tactic(auto, using(crate::proofs::ProcessLemmas::process_at_read))]
    #[inline(always)]
    pub(crate) fn slot(&self, pid: usize, slot: u16) -> Option<Slot>
        requires process { pid < length self.now }
        ensures held { result ≡ slot_of self.now pid slot }
        ensures range { IfSome result (λ _. slot < open_max) }
        ensures place { IfSome result (λ held. held.place < object_places) }
    {
        let process = &self.tables[pid];
        held_at(&process.slots, slot)
    }

    #[tactic(auto, using(crate::proofs::ProcessLemmas::process_at_read))]
    pub(crate) fn of_process(&self, pid: usize) -> &OpenTables
        requires process { pid < length self.now }
        ensures tables { result.now ≡ process_at self.now pid }
    {
        &self.tables[pid]
    }

    pub(crate) fn set_descriptor(&mut self, pid: usize, mqd: usize, value: Option<Descriptor>)
        requires process { pid < length self.old }
        requires mqd { mqd < open_max }
        requires place { IfSome value (λ d. d.place < object_places) }
        ensures held { self.new ≡ with_descriptor self.old pid mqd value }
    {
        let held = self.descriptor(pid, mqd as u16);
        write_descriptor(&mut self.tables, pid, mqd, value);
        forget_descriptor(&mut self.counts, held);
        note_descriptor(&mut self.counts, value);
    }

    pub(crate) fn set_slot(&mut self, pid: usize, slot: usize, value: Option<Slot>)
        requires process { pid < length self.old }
        requires slot { slot < open_max }
        requires place { IfSome value (λ s. s.place < object_places) }
        ensures held { self.new ≡ with_slot self.old pid slot value }
    {
        let held = self.slot(pid, slot as u16);
        write_slot(&mut self.tables, pid, slot, value);
        forget_slot(&mut self.counts, held);
        note_slot(&mut self.counts, value);
    }

    pub(crate) fn close_all(&mut self, pid: usize)
        requires process { pid < length self.old }
        ensures closed { self.new ≡ slice_set self.old pid closed_process }
    {
        let closing = self.tables[pid];
        self.tables[pid] = OpenTables {
            descriptors: [None; OPEN_MAX],
            slots: [None; OPEN_MAX],
        };
        forget_descriptors(&mut self.counts, &closing.descriptors);
        forget_slots(&mut self.counts, &closing.slots);
    }

    pub(crate) fn is_referred(&self, place: u8) -> bool
        ensures referred { result ≡ is_referred self.now place }
    {
        (place as usize) < OBJECT_PLACES && self.counts[place as usize] > 0
    }
}
