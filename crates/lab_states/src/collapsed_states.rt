//! Collapse compression: states of processes without the parts of their outputs that others share, each kept once.
ghost use Rattle.std.specs.Prelude.{◌≡◌, [], ◌∷◌, ◌++◌, false, IfOk, IfSome, IsTrue, OnErr, OnOk, Some, length, slice_get};
ghost use Rattle.std.specs.Option.{option_copied};
ghost use Rattle.lab_sched.specs.Held.{process_view};
ghost use Rattle.lab_sched.specs.Verdicts.{HasEnded};
ghost use Rattle.lab_conditions.specs.Conditions.{StandsAt};
ghost use Rattle.lab_states.specs.declared.collapsed_states.CollapsedState.{CollapsedState as One};
ghost use Rattle.lab_states.specs.Private.CollapsedStates.{AreSame, KeepAllNames};
ghost use Rattle.lab_states.specs.CollapsedStates.{IsSameOrMore};
ghost use Rattle.lab_states.specs.Private.Standing.{IsStanding};

use crate::row::place_of;
use ipc_kernel::Call;
use ipc_store::Index;
use lab_conditions::call_of;
use lab_sched::Process;
use lab_worlds::discard;
use std::alloc::{AllocError, Global};
use std::marker::Model;
use std::mem::size_of;

/// A state of a process: it has written the output with a number, and behind it what stands in
/// `process`.
#[derive(Drop)]
pub struct CollapsedState {
    pub before: u32,
    pub process: Process,
}

impl CollapsedState {
    /// Whether two states are the same.
    fn is_same(&self, other: &CollapsedState) -> bool
        ensures same { IsTrue result → AreSame self.now other.now }
    {
        self.before == other.before && self.process.is_same(&other.process)
    }

    /// A number that is the same for equal states and, as a rule, another for others.
    fn digest(&self) -> u64 {
        self.process.digest() ^ (self.before as u64).wrapping_mul(0x9E37_79B9_7F4A_7C15)
    }
}

/// States, each with a number, from 0, and with the call at which it stands.
#[derive(Drop)]
pub struct CollapsedStates {
    states: Vec<CollapsedState>,
    calls: Vec<Option<Call>>,
    index: Index,
    /// About how many bytes the processes take.
    held: usize,
    /// Whether one of the processes is about to take a name away.
    unlinks: bool,
}

impl Model for CollapsedStates {
    ghost use Rattle.std.specs.Prelude.{◌≡◌, false, List};
    ghost use Rattle.lab_states.specs.declared.collapsed_states.CollapsedState.{CollapsedState as One};
    ghost use Rattle.lab_states.specs.Private.CollapsedStates.{KeepAllNames};
    ghost use Rattle.lab_states.specs.Private.Standing.{AreStanding};

    ghost Value = { List One };

    ghost view = { λ a. a.states.items };

    ghost invariant = { λ a. AreStanding a.states.items a.calls.items
        × (a.unlinks ≡ false → KeepAllNames a.states.items) };
}

impl CollapsedStates {
    /// No state.
    pub fn new(alloc: Global) -> Result<CollapsedStates, AllocError>
        ensures none { IfOk result (λ states. states ≡ []) }
    {
        Ok(CollapsedStates {
            states: Vec::new(alloc),
            calls: Vec::new(alloc),
            index: Index::new(alloc)?,
            held: 0,
            unlinks: false,
        })
    }

    /// How many there are.
    pub fn len(&self) -> usize
        ensures count { result ≡ length self.now }
    {
        self.states.len()
    }

    /// The state with a number, if there is one.
    pub fn get(&self, number: usize) -> Option<&CollapsedState>
        ensures state { option_copied result ≡ slice_get self.now number }
    {
        self.states.get(number)
    }

    /// The call at which the state with a number stands, if it does.
    pub fn call(&self, number: u32) -> Option<&Call>
        ensures stands { IfSome result (λ call. (s : One) × (slice_get self.now number ≡ Some s)
            × StandsAt (process_view s.process) call.now) }
    {
        self.calls.get(number as usize)?.as_ref()
    }

    /// Whether the process has ended in the state with a number.
    pub fn has_ended(&self, number: u32) -> bool
        ensures ended { IsTrue result → (s : One) → slice_get self.now number ≡ Some s
            → HasEnded (process_view s.process) }
    {
        self.states
            .get(number as usize)
            .is_some_and(|state| matches!(state.process, Process::Ended(_)))
    }

    /// Whether one of the processes is about to take a name away.
    pub fn unlinks(&self) -> bool
        ensures none { result ≡ false → KeepAllNames self.now }
    {
        self.unlinks
    }

    /// The number of an equal state, if one is kept.
    fn find(&self, collapsed: &CollapsedState, digest: u64) -> Option<usize>
        ensures found { IfSome result (λ i. (s : One) × (slice_get self.now i ≡ Some s)
            × AreSame s collapsed.now) }
    {
        let mut number = self.index.newest(digest);
        while number > 0 {
            let at = number - 1;
            if let Some(kept) = self.get(at) {
                if kept.is_same(collapsed) {
                    return Some(at);
                }
            }
            number = self.index.older(number);
        }
        None
    }

    /// Adds a state with the call at which it stands, if it does; with its number.
    fn add(
        &mut self,
        collapsed: CollapsedState,
        call: Option<Call>,
        digest: u64,
    ) -> Result<u32, AllocError>
        requires stands { IsStanding collapsed call }
        ensures added { OnOk result (self.new ≡ self.old ++ collapsed ∷ []) }
        ensures err { OnErr result (self.new ≡ self.old) }
        ensures number { IfOk result (λ i. i ≡ length self.old) }
    {
        let number = place_of(self.states.len())?;
        self.states.reserve(1)?;
        self.calls.reserve(1)?;
        self.index.add(digest)?;
        self.held = self.held.saturating_add(collapsed.process.machine().size());
        self.unlinks |= call.as_ref().is_some_and(|call| call.is_unlink());
        self.states.push_reserved(collapsed);
        self.calls.push_reserved(call);
        Ok(number)
    }

    /// Keeps a state; with its number.
    pub fn keep(&mut self, alloc: Global, collapsed: CollapsedState) -> Result<u32, AllocError>
        ensures kept { IsSameOrMore self.old self.new collapsed }
        ensures state { IfOk result (λ i. (s : One) × (slice_get self.new i ≡ Some s)
            × AreSame s collapsed) }
    {
        let digest = collapsed.digest();
        if let Some(at) = self.find(&collapsed, digest) {
            discard(collapsed);
            return place_of(at);
        }
        let call = call_of(alloc, &collapsed.process)?;
        self.add(collapsed, call, digest)
    }

    /// About how many bytes they take.
    pub fn size(&self) -> usize {
        size_of::<u32>()
            .saturating_mul(self.states.len())
            .saturating_add(self.held)
    }

    /// Lets go of what only `keep` needs.
    pub fn forget(&mut self, alloc: Global)
        ensures same { self.new ≡ self.old }
    {
        self.index = Index::none(alloc);
    }
}
