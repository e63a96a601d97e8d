//! Footprints of steps at calls that work on one object, and the effects that a search has made.
ghost use Rattle.std.specs.Prelude.{ℕ, ◌≡◌, [], false, IfSome, IsTrue, OnOk, IfOk};
ghost use Rattle.lab_search.specs.declared.store.Store.{Store as Kept};
ghost use Rattle.lab_search.specs.declared.footprints.Effect.TheVariants.{Nothing};
ghost use Rattle.lab_search.specs.Stored.{IsFootprintEffect, AreFootprintEffects, IsExactly, IsStore, AreKnown, IsEffect};
ghost use Rattle.lab_sched.specs.Worlds.{Process as Seen};
ghost use Rattle.lab_worlds.specs.Errors.{IsAnsweredToCall};
ghost use Rattle.ipc_kernel.specs.Kernel.{KernelState};
ghost use Rattle.ipc_store.specs.Kept.{GrowsKept};
ghost use Rattle.lab_search.specs.Private.Stored.{IsLater, IsMoveFrom, IsChanged, IsNextBy};
ghost use Rattle.lab_search.specs.Private.FootprintEffect.{HasFootprint};

use crate::store::{KnownSteps, Mover, Next, Store};
use ipc_store::{Index, Kernels};
use lab_states::digest_of;
use lab_worlds::Errors;
use std::alloc::{AllocError, Global};
use std::mem::size_of;

/// A call that works on one object: the state of its process, the tables of the process, the place of
/// the object, and the object there.
#[derive(Clone, Copy, Drop)]
pub struct Footprint {
    pub state: u32,
    pub tables: u32,
    pub object: u32,
    pub place: u8,
}

/// What comes of a step at such a call.
#[derive(Clone, Copy, Drop)]
pub enum Effect {
    /// Nothing: the call must wait.
    Nothing,
    /// More local steps than the process may take.
    Limit,
    /// The tables, the object and the state then, after so many local steps, and the errors of those of
    /// these steps that are refused.
    To {
        tables: u32,
        object: u32,
        state: u32,
        taken: u32,
        errors: Errors,
    },
}

/// A call and what comes of it.
#[derive(Clone, Copy, Drop)]
pub struct FootprintEffect {
    pub footprint: Footprint,
    pub effect: Effect,
}

/// Steps at calls, each of which is made once.
#[derive(Drop)]
pub struct Footprints {
    pub made: Vec<FootprintEffect>,
    index: Index,
}

impl Footprint {
    fn is_same(self, other: Footprint) -> bool
        ensures same { IsTrue result → self ≡ other }
    {
        self.state == other.state
            && self.tables == other.tables
            && self.object == other.object
            && self.place == other.place
    }

    fn digest(self) -> u64 {
        digest_of(&[self.state, self.tables, self.object])
    }
}

impl Effect {
    pub(crate) fn is_nothing(self) -> bool
        ensures no { result ≡ false → self ≡ Nothing → ⊥ }
    {
        matches!(self, Effect::Nothing)
    }

    /// The local steps of the process then, if it comes to a call.
    pub(crate) fn steps(self) -> Option<KnownSteps>
        ensures steps { IfSome result (λ steps. (t : Kept) (k : KernelState) (p : ℕ) (s : Seen) (i : ℕ)
            → IsEffect t k p s i self → IsAnsweredToCall k p s steps.taken steps.errors) }
    {
        match self {
            Effect::Nothing => Some(KnownSteps {
                taken: 0,
                errors: Errors::No,
            }),
            Effect::Limit => None,
            Effect::To { taken, errors, .. } => Some(KnownSteps { taken, errors }),
        }
    }
}

impl Footprints {
    pub(crate) fn new(alloc: Global, index: Index) -> Footprints
        ensures none { result.made.items ≡ [] }
    {
        Footprints {
            made: Vec::new(alloc),
            index,
        }
    }

    pub(crate) fn find(&self, footprint: Footprint) -> Option<Effect>
        ensures known { (t : Kept) → AreFootprintEffects t self.now.made.items
            → IfSome result (λ effect. IsFootprintEffect t footprint effect) }
    {
        let mut number = self.index.newest(footprint.digest());
        while number > 0 {
            let made = self.made.get(number - 1)?;
            if made.footprint.is_same(footprint) {
                return Some(made.effect);
            }
            number = self.index.older(number);
        }
        None
    }

    pub(crate) fn keep(&mut self, footprint: Footprint, effect: Effect) -> Result<(), AllocError>
        ensures known { OnOk result ((t : Kept) → AreFootprintEffects t self.old.made.items
            → IsFootprintEffect t footprint effect → AreFootprintEffects t self.new.made.items) }
    {
        self.made.push(FootprintEffect { footprint, effect })?;
        self.index.add(footprint.digest())?;
        Ok(())
    }

    pub(crate) fn size(&self) -> usize {
        size_of::<FootprintEffect>()
            .saturating_add(Index::ENTRY)
            .saturating_mul(self.made.len())
    }
}

/// The number of the kernel of a mover with this object in a place and these tables of its process, or
/// of one that is alike where the object is made there. It is kept if it wasn't.
fn keep_changed(
    kernels: &mut Kernels,
    mover: Mover,
    place: u8,
    object: u32,
    tables: u32,
) -> Result<Option<u32>, AllocError>
    ensures grows { OnOk result (GrowsKept kernels.old kernels.new) }
    ensures alike { IfOk result (λ kept.
        IfSome kept (IsChanged kernels.old kernels.new mover place object tables)) }
{
    let pid = mover.pid as usize;
    if let Some(kernel) = kernels.find_with(mover.kernel, pid, place, object, tables) {
        return Ok(Some(kernel));
    }
    if let Some(kernel) = kernels.keep_with(mover.kernel, pid, place, object, tables)? {
        return Ok(Some(kernel));
    }
    if kernels.object_at(mover.kernel, place) == Some(object) {
        return Ok(None);
    }
    let kept = kernels.keep_with_new(mover.kernel, pid, place, object, tables)?;
    Ok(kept)
}

impl Store {
    /// The call that works on one object at which a process stands, if it stands at such a call.
    pub(crate) fn footprint_at(&self, mover: Mover) -> Option<Footprint>
        ensures state { IfSome result (λ footprint. footprint.state ≡ mover.state) }
        ensures operand { IfSome result (λ footprint. (k : KernelState)
            → IsExactly self.now mover.kernel k → HasFootprint self.now k mover.pid footprint) }
    {
        let state = mover.state;
        let call = self.states.call(state)?;
        let tables = self.kernels.tables_at(mover.kernel, mover.pid as usize)?;
        let place = self.kernels.operand(mover.kernel, tables, call)?;
        let object = self.kernels.object_at(mover.kernel, place)?;
        Some(Footprint {
            state,
            tables,
            object,
            place,
        })
    }

    /// What a process does next by the effect of its call on what a place holds, where the kernel
    /// after it, or one that is alike, is kept if it wasn't.
    pub(crate) fn keep_next_by(
        &mut self,
        mover: Mover,
        place: u8,
        effect: Effect,
    ) -> Result<Option<Next>, AllocError>
        requires store { IsStore self.old }
        ensures later { OnOk result (IsLater self.old self.new) }
        ensures next { IfOk result (λ found.
            IfSome found (IsNextBy self.old self.new mover place effect)) }
    {
        match effect {
            Effect::Nothing => Ok(Some(Next::Nothing)),
            Effect::Limit => Ok(Some(Next::Limit)),
            Effect::To {
                tables,
                object,
                state,
                taken,
                errors,
            } => {
                let Some(kernel) = keep_changed(&mut self.kernels, mover, place, object, tables)?
                else {
                    return Ok(None);
                };
                Ok(Some(Next::To {
                    kernel,
                    state,
                    taken,
                    errors,
                }))
            }
        }
    }

    /// What a process does next, if it has ended or this move was made.
    pub(crate) fn made_next(&self, mover: Mover) -> Option<Next>
        ensures next { AreKnown self.now → IfSome result (IsMoveFrom self.now mover) }
    {
        if self.states.has_ended(mover.state) {
            return Some(Next::Nothing);
        }
        let next = self.moves.find(mover)?;
        Some(next)
    }
}
