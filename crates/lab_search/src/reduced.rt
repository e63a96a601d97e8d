//! Partial-order reduction: from a world in which the step of a process depends on no other's, that
//! step alone is tried.
ghost use Rattle.std.specs.Prelude.{ℕ, ◌≡◌, true, Some, IsTrue, IfOk, IfSome, OnOk, slice_get};
ghost use Rattle.lab_sched.specs.Worlds.{Process as Seen, WorldState, step_effect_in};
ghost use Rattle.ipc_store.specs.Uses.{uses_but};
ghost use Rattle.lab_worlds.specs.Independent.{IsIndependent, HaveEnded};
ghost use Rattle.lab_states.specs.Rows.{Row};
ghost use Rattle.lab_search.specs.Reduced.{IsExpandedIn};
ghost use Rattle.lab_search.specs.Stored.{IsExactly, IsState, IsAt, IsStore, IsMove, IsFootprintEffect};
ghost use Rattle.lab_search.specs.Private.Stored.{IsLater, IsKeptAttempt, IsIndependentAt};
ghost use Rattle.ipc_kernel.specs.Kernel.{KernelState};
ghost use Rattle.ipc_kernel.specs.Operands.{are_named};
ghost use Rattle.lab_search.specs.Private.FootprintEffect.{HasFootprint};

use crate::footprints::{Effect, Footprint};
use crate::store::{Mover, Next, Store};
use ipc_kernel::{Call, Kernel};
use ipc_store::ProcessUse;
use lab_states::{CollapsedState, place_of};
use lab_worlds::{Attempt, Errors, ExploreFault, Limits, Made, try_step};
use std::alloc::AllocError;

impl Store {
    /// Whether the step of process `pid` in a state over a kernel, which are kept, depends on no other's,
    /// as long as each keeps to the uses, and those that have ended do nothing.
    fn is_independent(
        &self,
        uses: &[ProcessUse],
        ended: &[u32],
        kernel: u32,
        pid: u32,
        state: u32,
    ) -> bool
        ensures yes { IsTrue result → (w : WorldState) (s : Seen)
            → IsExactly self.now kernel w.kernel → slice_get w.processes pid ≡ Some s
            → IsState self.now state s → are_named w.kernel.places ≡ true
            → IsIndependent (uses_but ended.now uses.now) w.kernel pid (step_effect_in w pid) }
    {
        match self.states.call(state) {
            Some(call) => self.kernels.is_own_by(uses, ended, kernel, pid, call),
            None => false,
        }
    }

    /// Whether the step of process `pid` from the world of a row is an open of what is there.
    pub fn opens_own(&self, at: usize, pid: u32) -> bool {
        let Some((kernel, state)) = self.places(at, pid) else {
            return false;
        };
        match self.states.call(state) {
            Some(call) => {
                matches!(call, Call::MqOpen { .. } | Call::SemOpen { .. })
                    && self.kernels.is_own(kernel, call)
            }
            None => false,
        }
    }

    /// The processes that have ended in the world of a row.
    fn ended_at(&self, at: usize) -> Result<Vec<u32>, AllocError>
        ensures ended { IfOk result (λ ended. (w : WorldState) → IsAt self.now at w
            → HaveEnded w ended.items) }
    {
        let mut ended = Vec::new(self.alloc);
        let Some((_, states)) = self.rows.get(at) else {
            return Ok(ended);
        };
        for (pid, state) in states.iter().enumerate() {
            let pid = place_of(pid)?;
            if !self.states.has_ended(*state) {
                continue;
            }
            ended.push(pid)?;
        }
        Ok(ended)
    }

    /// The first process of which the step from the world of a row depends on no other's, if one does,
    /// where some have ended.
    fn first_independent(&self, uses: &[ProcessUse], ended: &[u32], at: usize) -> Option<u32>
        ensures row { IfSome result (λ p. (r : Row) × (slice_get self.now.rows at ≡ Some r)) }
        ensures independent { IfSome result (λ p. (w : WorldState) → IsAt self.now at w
            → are_named w.kernel.places ≡ true
            → IsIndependent (uses_but ended.now uses.now) w.kernel p (step_effect_in w p)) }
    {
        let (kernel, states) = self.rows.get(at)?;
        for (pid, state) in states.iter().enumerate() {
            let Ok(pid) = place_of(pid) else {
                return None;
            };
            if self.is_independent(uses, ended, kernel, pid, *state) {
                return Some(pid);
            }
        }
        None
    }

    /// The first process of which the step from the world of a row depends on no other's, if one does.
    fn independent_process(&self, uses: &[ProcessUse], at: usize) -> Result<Option<u32>, AllocError>
        ensures independent { IfOk result (λ found. IfSome found
            (λ p. IsIndependentAt uses.now self.now at p)) }
    {
        let ended = self.ended_at(at)?;
        Ok(self.first_independent(uses, ended.as_slice(), at))
    }

    /// Tries each process from the world of a row, or in a search that is reduced one alone of which the
    /// step depends on no other's, where it leads to a later row; with whether that could be done.
    pub(crate) fn expand_in(
        &mut self,
        at: usize,
        limits: Limits,
        reduced: bool,
        uses: &[ProcessUse],
    ) -> Result<bool, ExploreFault>
        requires store { IsStore self.old }
        ensures later { OnOk result (IsLater self.old self.new) }
        ensures expanded_in { IfOk result (λ whole. IsTrue whole
            → IsExpandedIn reduced uses.now self.new at) }
    {
        if !reduced {
            return self.expand(at, limits);
        }
        let Some(pid) = self.independent_process(uses, at)? else {
            return self.expand(at, limits);
        };
        let alone = self.try_process(at, pid, limits, true)?;
        if alone {
            return Ok(true);
        }
        let expanded = self.expand(at, limits)?;
        Ok(expanded)
    }
}

/// How many worlds there are at least for each kernel where kernels are come to often.
const RETURNS: usize = 4;

/// What came of a step that was tried, of a process over a kernel that are kept.
#[derive(Drop)]
pub enum KeptAttempt {
    /// Nothing: the process has ended, or its call must wait.
    Still,
    /// More local steps than the process may take.
    Runs,
    /// The kernel after it, and the place of the state of the process after so many local steps, with
    /// the errors of those of these steps that are refused.
    Came {
        kernel: Kernel,
        state: u32,
        taken: u32,
        errors: Errors,
    },
}

impl Store {
    /// Tries a step of a process, and keeps its state after that and its local steps.
    fn try_move(&mut self, mover: Mover, most: u32) -> Result<KeptAttempt, ExploreFault>
        requires store { IsStore self.old }
        ensures later { OnOk result (IsLater self.old self.new) }
        ensures attempt { IfOk result (IsKeptAttempt self.old self.new mover) }
    {
        let Some(collapsed) = self.states.parts(mover.state as usize) else {
            return Err(ExploreFault::Unvouched);
        };
        let Some(kernel) = self.kernels.get(self.alloc, mover.kernel)? else {
            return Err(ExploreFault::Unvouched);
        };
        let before = collapsed.before;
        let process = collapsed.process.copy(self.alloc)?;
        match try_step(self.alloc, kernel, process, mover.pid as usize, most)? {
            Attempt::Still => Ok(KeptAttempt::Still),
            Attempt::Runs => Ok(KeptAttempt::Runs),
            Attempt::Came(made) => {
                let Made {
                    kernel,
                    process,
                    taken,
                    errors,
                } = made;
                let behind = CollapsedState { before, process };
                let state = self.states.keep_behind(self.alloc, behind)?;
                Ok(KeptAttempt::Came {
                    kernel,
                    state,
                    taken,
                    errors,
                })
            }
        }
    }

    /// What a process does next, where a kernel alike the one after its step is kept.
    fn make_next(&mut self, mover: Mover, most: u32) -> Result<Next, ExploreFault>
        requires store { IsStore self.old }
        ensures later { OnOk result (IsLater self.old self.new) }
        ensures next { IfOk result (IsMove self.new mover) }
    {
        match self.try_move(mover, most)? {
            KeptAttempt::Still => Ok(Next::Nothing),
            KeptAttempt::Runs => Ok(Next::Limit),
            KeptAttempt::Came {
                kernel,
                state,
                taken,
                errors,
            } => {
                let number = self.keep_alike(&kernel)?;
                Ok(Next::To {
                    kernel: number,
                    state,
                    taken,
                    errors,
                })
            }
        }
    }

    /// What comes of a step of a process at its call that works on one object, where the kernel after it
    /// is kept.
    fn make_effect(
        &mut self,
        mover: Mover,
        footprint: Footprint,
        most: u32,
    ) -> Result<Effect, ExploreFault>
        requires store { IsStore self.old }
        requires operand { (k : KernelState) → IsExactly self.old mover.kernel k
            → HasFootprint self.old k mover.pid footprint }
        ensures later { OnOk result (IsLater self.old self.new) }
        ensures footprint_effect { IfOk result (IsFootprintEffect self.new footprint) }
    {
        let state = footprint.state;
        match self.try_move(Mover { state, ..mover }, most)? {
            KeptAttempt::Still => Ok(Effect::Nothing),
            KeptAttempt::Runs => Ok(Effect::Limit),
            KeptAttempt::Came {
                kernel,
                state,
                taken,
                errors,
            } => {
                let number = self.keep_kernel(&kernel)?;
                let Some(tables) = self.kernels.tables_at(number, mover.pid as usize) else {
                    return Err(ExploreFault::Unvouched);
                };
                let Some(object) = self.kernels.object_at(number, footprint.place) else {
                    return Err(ExploreFault::Unvouched);
                };
                Ok(Effect::To {
                    tables,
                    object,
                    state,
                    taken,
                    errors,
                })
            }
        }
    }

    /// What comes of a step of a process at its call that works on one object. It is made if it wasn't
    /// made before.
    fn effect_of(
        &mut self,
        mover: Mover,
        footprint: Footprint,
        most: u32,
    ) -> Result<Effect, ExploreFault>
        requires store { IsStore self.old }
        requires operand { (k : KernelState) → IsExactly self.old mover.kernel k
            → HasFootprint self.old k mover.pid footprint }
        ensures later { OnOk result (IsLater self.old self.new) }
        ensures footprint_effect { IfOk result (IsFootprintEffect self.new footprint) }
    {
        if let Some(effect) = self.moves.footprints.find(footprint) {
            return Ok(effect);
        }
        let effect = self.make_effect(mover, footprint, most)?;
        self.moves.footprints.keep(footprint, effect)?;
        Ok(effect)
    }

    /// What a process does next, if it stands at a call that works on one object.
    fn make_footprint_effect(
        &mut self,
        mover: Mover,
        most: u32,
    ) -> Result<Option<Next>, ExploreFault>
        requires store { IsStore self.old }
        requires kernel { (k : KernelState) × IsExactly self.old mover.kernel k }
        ensures later { OnOk result (IsLater self.old self.new) }
        ensures next { IfOk result (λ found. IfSome found (IsMove self.new mover)) }
    {
        let Some(footprint) = self.footprint_at(mover) else {
            return Ok(None);
        };
        let effect = self.effect_of(mover, footprint, most)?;
        Ok(self.keep_next_by(mover, footprint.place, effect)?)
    }

    /// What a process does next. Each such move is made once, and so is each step at a call that works on
    /// one object, whose move is kept only where kernels are come to often.
    pub(crate) fn make_move(&mut self, mover: Mover, most: u32) -> Result<Next, ExploreFault>
        requires store { IsStore self.old }
        requires kernel { (k : KernelState) × IsExactly self.old mover.kernel k }
        ensures later { OnOk result (IsLater self.old self.new) }
        ensures next { IfOk result (IsMove self.new mover) }
    {
        if let Some(next) = self.make_footprint_effect(mover, most)? {
            if self.rows.len() < self.kernels.len().saturating_mul(RETURNS) {
                return Ok(next);
            }
            self.moves.keep(mover, next)?;
            return Ok(next);
        }
        let next = self.make_next(mover, most)?;
        self.moves.keep(mover, next)?;
        Ok(next)
    }
}
