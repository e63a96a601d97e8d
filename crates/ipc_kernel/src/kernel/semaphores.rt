//! The rules of the calls on semaphores.
ghost use Rattle.std.specs.Prelude.{◌≡◌, ℕ, ◌<◌, ◌≤◌, false, None, length};
ghost use Rattle.ipc_objects.specs.Limits.{sem_value_max};
ghost use Rattle.ipc_kernel.specs.Limits.{object_places, open_max};
ghost use Rattle.ipc_kernel.specs.Private.Decisions.{outcome_of, IsPossible, decision_may_grow};
ghost use Rattle.ipc_kernel.specs.Outcomes.{open_semaphore, unlink};
ghost use Rattle.ipc_kernel.specs.Places.{semaphore_named};
ghost use Rattle.ipc_kernel.specs.Processes.{slot_of, free_slot_of};

use super::Kernel;
use super::decision::{Change, Decision, NewSemaphore, ShortReply};
use crate::Slot;
use crate::limits::OPENS_MAX;
use crate::process::{first_free, first_that_refers};
use ipc_names::{Errno, Name, O_CREAT, O_EXCL};
use ipc_objects::SEM_VALUE_MAX;

impl Kernel {
    ghost use Rattle.ipc_kernel.specs.Semaphores.{new_slot, one_more_open, sem_create, sem_open, sem_close, sem_wait, sem_trywait, sem_post, sem_getvalue};

    #[inline(always)]
    pub(super) fn decide_sem_open<'a>(
        &self,
        pid: usize,
        name: &'a Name,
        flags: u16,
        value: u16,
    ) -> Decision<'a>
        requires process { pid < length self.now.processes }
        ensures outcome { outcome_of self.now pid result
            ≡ sem_open self.now pid name.now flags value }
        ensures possible { IsPossible self.now result }
    {
        let create = flags & O_CREAT != 0;
        let exclusive = flags & O_EXCL != 0;
        if create && value > SEM_VALUE_MAX {
            return Decision::Refused(Errno::Invalid);
        }
        match self.places.semaphore_named(name) {
            Some(place) => {
                if create && exclusive {
                    return Decision::Refused(Errno::Exists);
                }
                match first_that_refers(&self.processes.of_process(pid).slots, place) {
                    None => self.decide_new_slot(pid, place),
                    Some(slot) => self.decide_one_more_open(pid, slot),
                }
            }
            None => {
                if !create {
                    return Decision::Refused(Errno::NoEntry);
                }
                self.decide_sem_create(pid, name, value)
            }
        }
    }

    #[tactic(auto, using(crate::proofs::PlaceLemmas::first_empty_place))]
    #[inline(always)]
    fn decide_sem_create<'a>(&self, pid: usize, name: &'a Name, value: u16) -> Decision<'a>
        requires process { pid < length self.now.processes }
        requires value { value ≤ sem_value_max }
        requires absent { semaphore_named self.now.places name.now ≡ None }
        ensures outcome { outcome_of self.now pid result
            ≡ sem_create self.now pid name.now value (free_slot_of self.now.processes pid) }
        ensures possible { IsPossible self.now result }
    {
        let Some(slot) = first_free(&self.processes.of_process(pid).slots) else {
            return Decision::Refused(Errno::TooManyOpen);
        };
        let Some(place) = self.places.first_empty() else {
            return Decision::Refused(Errno::NoSpace);
        };
        let new = NewSemaphore {
            name,
            value,
            slot,
            place,
        };
        Decision::Answered(ShortReply::Plain(slot as u16), Change::MakeSemaphore(new))
    }

    #[inline(always)]
    fn decide_new_slot<'a>(&self, pid: usize, place: u8) -> Decision<'a>
        requires process { pid < length self.now.processes }
        requires place { place < object_places }
        ensures outcome { outcome_of self.now pid result
            ≡ new_slot self.now pid place (free_slot_of self.now.processes pid) }
        ensures possible { IsPossible self.now result }
    {
        match first_free(&self.processes.of_process(pid).slots) {
            None => Decision::Refused(Errno::TooManyOpen),
            Some(slot) => {
                let held = Some(Slot { place, opens: 1 });
                let change = Change::HoldSlot { slot, held };
                Decision::Answered(ShortReply::Plain(slot as u16), change)
            }
        }
    }

    #[inline(always)]
    fn decide_one_more_open<'a>(&self, pid: usize, slot: usize) -> Decision<'a>
        requires process { pid < length self.now.processes }
        requires slot { slot < open_max }
        ensures outcome { outcome_of self.now pid result
            ≡ one_more_open self.now pid slot (slot_of self.now.processes pid slot) }
        ensures possible { IsPossible self.now result }
    {
        match self.processes.slot(pid, slot as u16) {
            None => Decision::Refused(Errno::Invalid),
            Some(held) if held.opens == OPENS_MAX => Decision::Refused(Errno::TooManyOpen),
            Some(held) => {
                let held = Some(Slot {
                    opens: held.opens + 1,
                    ..held
                });
                let change = Change::HoldSlot { slot, held };
                Decision::Answered(ShortReply::Plain(slot as u16), change)
            }
        }
    }

    #[inline(always)]
    pub(super) fn decide_sem_close<'a>(&self, pid: usize, slot: u16) -> Decision<'a>
        requires process { pid < length self.now.processes }
        ensures outcome { outcome_of self.now pid result
            ≡ sem_close self.now pid slot (slot_of self.now.processes pid slot) }
        ensures possible { IsPossible self.now result }
        ensures memory { decision_may_grow result ≡ false }
    {
        match self.processes.slot(pid, slot) {
            None => Decision::Refused(Errno::Invalid),
            Some(held) => {
                let left = if held.opens > 1 {
                    Some(Slot {
                        opens: held.opens - 1,
                        ..held
                    })
                } else {
                    None
                };
                let slot = slot as usize;
                Decision::Answered(ShortReply::Plain(0), Change::HoldSlot { slot, held: left })
            }
        }
    }

    #[inline(always)]
    pub(super) fn decide_sem_unlink<'a>(&self, name: &'a Name) -> Decision<'a>
        ensures outcome { (p : ℕ) → outcome_of self.now p result
            ≡ unlink self.now (semaphore_named self.now.places name.now) }
        ensures possible { IsPossible self.now result }
        ensures memory { decision_may_grow result ≡ false }
    {
        match self.places.semaphore_named(name) {
            None => Decision::Refused(Errno::NoEntry),
            Some(place) => {
                let change = Change::UnnameSemaphore { place, name };
                Decision::Answered(ShortReply::Plain(0), change)
            }
        }
    }

    #[inline(always)]
    pub(super) fn decide_sem_wait<'a>(&self, pid: usize, slot: u16) -> Decision<'a>
        requires process { pid < length self.now.processes }
        ensures outcome { outcome_of self.now pid result
            ≡ sem_wait self.now (open_semaphore self.now pid slot) }
        ensures possible { IsPossible self.now result }
        ensures memory { decision_may_grow result ≡ false }
    {
        match self.open_semaphore(pid, slot) {
            None => Decision::Refused(Errno::Invalid),
            Some((_, 0)) => Decision::Waits,
            Some((held, value)) => {
                let place = held.place;
                Decision::Answered(ShortReply::Plain(0), Change::Take { place, value })
            }
        }
    }

    #[inline(always)]
    pub(super) fn decide_sem_trywait<'a>(&self, pid: usize, slot: u16) -> Decision<'a>
        requires process { pid < length self.now.processes }
        ensures outcome { outcome_of self.now pid result
            ≡ sem_trywait self.now (open_semaphore self.now pid slot) }
        ensures possible { IsPossible self.now result }
        ensures memory { decision_may_grow result ≡ false }
    {
        match self.open_semaphore(pid, slot) {
            None => Decision::Refused(Errno::Invalid),
            Some((_, 0)) => Decision::Refused(Errno::Again),
            Some((held, value)) => {
                let place = held.place;
                Decision::Answered(ShortReply::Plain(0), Change::Take { place, value })
            }
        }
    }

    #[inline(always)]
    pub(super) fn decide_sem_post<'a>(&self, pid: usize, slot: u16) -> Decision<'a>
        requires process { pid < length self.now.processes }
        ensures outcome { outcome_of self.now pid result
            ≡ sem_post self.now (open_semaphore self.now pid slot) }
        ensures possible { IsPossible self.now result }
        ensures memory { decision_may_grow result ≡ false }
    {
        match self.open_semaphore(pid, slot) {
            None => Decision::Refused(Errno::Invalid),
            Some((_, SEM_VALUE_MAX)) => Decision::Refused(Errno::Overflow),
            Some((held, value)) => {
                let place = held.place;
                Decision::Answered(ShortReply::Plain(0), Change::Post { place, value })
            }
        }
    }

    #[inline(always)]
    pub(super) fn decide_sem_getvalue<'a>(&self, pid: usize, slot: u16) -> Decision<'a>
        requires process { pid < length self.now.processes }
        ensures outcome { outcome_of self.now pid result
            ≡ sem_getvalue self.now (open_semaphore self.now pid slot) }
        ensures possible { IsPossible self.now result }
        ensures memory { decision_may_grow result ≡ false }
    {
        match self.open_semaphore(pid, slot) {
            None => Decision::Refused(Errno::Invalid),
            Some((_, value)) => Decision::Answered(ShortReply::Value(value), Change::Nothing),
        }
    }
}
