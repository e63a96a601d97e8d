//! What processes do with objects, from the worlds of a search.
ghost use Rattle.std.specs.Prelude.{ℕ, ◌≡◌, IsTrue, slice_get, Some};
ghost use Rattle.lab_sched.specs.Worlds.{Process as Seen, WorldState};
ghost use Rattle.lab_worlds.specs.Independent.{KeepsTo, IsCalm};
ghost use Rattle.lab_search.specs.Stored.{IsExactly, IsState, IsAt};

use crate::store::Store;
use ipc_store::ProcessUse;
use lab_states::place_of;
use std::alloc::AllocError;

impl Store {
    /// Whether what process `pid` does next, in a state over a kernel, which are kept, is within the uses.
    fn is_within(&self, uses: &[ProcessUse], kernel: u32, pid: u32, state: u32) -> bool
        ensures yes { IsTrue result → (w : WorldState) → IsExactly self.now kernel w.kernel
            → ((s : Seen) → slice_get w.processes pid ≡ Some s → IsState self.now state s)
            → KeepsTo uses.now w pid }
    {
        match self.states.call(state) {
            Some(call) => self.kernels.is_within(uses, kernel, pid, call),
            None => self.states.has_ended(state),
        }
    }

    /// Whether what each process does next from the world of a row is within the uses.
    fn keep_to_at(&self, uses: &[ProcessUse], at: usize) -> bool
        ensures yes { IsTrue result → (w : WorldState) (p : ℕ) → IsAt self.now at w
            → KeepsTo uses.now w p }
    {
        let Some((kernel, states)) = self.rows.get(at) else {
            return false;
        };
        for (pid, state) in states.iter().enumerate() {
            let Ok(pid) = place_of(pid) else {
                return false;
            };
            if !self.is_within(uses, kernel, pid, *state) {
                return false;
            }
        }
        true
    }

    /// Whether what each process does next from the world of each row is within the uses, and no
    /// semaphore is near its greatest value there.
    pub(crate) fn are_calm(&self, uses: &[ProcessUse]) -> bool
        ensures calm { IsTrue result → (i : ℕ) (w : WorldState) → IsAt self.now i w
            → IsCalm uses.now w }
    {
        for at in 0..self.rows.len() {
            if !self.keep_to_at(uses, at) {
                return false;
            }
        }
        self.kernels.are_low()
    }

    /// The same, where it matters.
    pub(crate) fn are_calm_in(&self, reduced: bool, uses: &[ProcessUse]) -> bool
        ensures calm { IsTrue result → IsTrue reduced → (i : ℕ) (w : WorldState)
            → IsAt self.now i w → IsCalm uses.now w }
    {
        !reduced || self.are_calm(uses)
    }

    /// Adds what the processes do next from the world of a row, where it isn't within the uses.
    fn note_at(&self, uses: &mut Vec<ProcessUse>, at: usize) -> Result<(), AllocError> {
        let Some((kernel, states)) = self.rows.get(at) else {
            return Ok(());
        };
        for (pid, state) in states.iter().enumerate() {
            let pid = place_of(pid)?;
            let Some(call) = self.states.call(*state) else {
                continue;
            };
            if !self.kernels.is_within(uses.as_slice(), kernel, pid, call) {
                self.kernels.note(uses, kernel, pid, call)?;
            }
        }
        Ok(())
    }

    /// Adds what the processes do next from the worlds of all rows, where it isn't within the uses.
    pub(crate) fn note_uses(&self, uses: &mut Vec<ProcessUse>) -> Result<(), AllocError> {
        for at in 0..self.rows.len() {
            self.note_at(uses, at)?;
        }
        Ok(())
    }
}
