//! States of processes at calls, each of which is kept once.
ghost use Rattle.std.specs.Prelude.{◌≡◌, [], false, All, IfOk, IfSome, IsTrue, OnOk, Some, length, slice_get};
ghost use Rattle.std.specs.Option.{option_map};
ghost use Rattle.lab_sched.specs.Held.{process_view};
ghost use Rattle.lab_sched.specs.Verdicts.{HasEnded};
ghost use Rattle.lab_sched.specs.declared.process.Process.{Process as Kept};
ghost use Rattle.lab_conditions.specs.Conditions.{StandsAt};
ghost use Rattle.lab_worlds.specs.Independent.{unlinks};
ghost use Rattle.lab_states.specs.Private.Outputs.{Extends};
ghost use Rattle.lab_states.specs.CollapsedStates.{whole_of, IsSameOrMore, IsButForOutput, IsWithin};

use crate::collapsed_states::{CollapsedState, CollapsedStates};
use crate::outputs::{Outputs, PIECE};
use ipc_kernel::Call;
use lab_sched::Process;
use std::alloc::{AllocError, Global};
use std::marker::Model;

/// States of processes, each with a number, from 0, and with the call at which it stands. What the
/// outputs of processes have in common is kept once.
#[derive(Drop)]
pub struct States {
    collapsed_states: CollapsedStates,
    outputs: Outputs,
}

impl Model for States {
    ghost use Rattle.std.specs.Prelude.{map};
    ghost use Rattle.lab_states.specs.CollapsedStates.{whole_of, Sharing};
    ghost use Rattle.lab_states.specs.Private.CollapsedStates.{AreWithin};

    ghost Value = { Sharing };

    ghost view = { λ a.
        record { processes = map (whole_of a.outputs) a.collapsed_states; outputs = a.outputs } };

    ghost invariant = { λ a. AreWithin a.outputs a.collapsed_states };
}

/// The same state, of whose output each whole piece is kept among outputs.
fn collapsed_of(
    alloc: Global,
    outputs: &mut Outputs,
    collapsed: CollapsedState,
) -> Result<CollapsedState, AllocError>
    requires within { IsWithin outputs.old collapsed }
    ensures extends { Extends outputs.old outputs.new }
    ensures whole { IfOk result (λ kept. whole_of outputs.new kept
        ≡ whole_of outputs.old collapsed) }
    ensures within { IfOk result (λ kept. IsWithin outputs.new kept) }
{
    let output = collapsed.process.machine().output();
    if output.len() < PIECE {
        return Ok(collapsed);
    }
    let shared = outputs.keep(collapsed.before, output)?;
    let rest = Vec::from_slice(alloc, &output[shared.len..])?;
    let mut process = collapsed.process;
    process.set_output(rest);
    Ok(CollapsedState {
        before: shared.number,
        process,
    })
}

impl States {
    /// No state.
    pub fn new(alloc: Global) -> Result<States, AllocError>
        ensures none { IfOk result (λ states. states.processes ≡ []) }
    {
        Ok(States {
            collapsed_states: CollapsedStates::new(alloc)?,
            outputs: Outputs::new(alloc)?,
        })
    }

    /// How many there are.
    pub fn len(&self) -> usize
        ensures count { result ≡ length self.now.processes }
    {
        self.collapsed_states.len()
    }

    /// The state with a number, if there is one.
    pub fn get(&self, alloc: Global, number: usize) -> Result<Option<Process>, AllocError>
        ensures state { IfOk result (λ process. process ≡ slice_get self.now.processes number) }
    {
        let Some(collapsed) = self.collapsed_states.get(number) else {
            return Ok(None);
        };
        let mut process = collapsed.process.copy(alloc)?;
        if collapsed.before > 0 {
            let behind = process.machine().output();
            let output = self.outputs.whole(alloc, collapsed.before, behind)?;
            process.set_output(output);
        }
        Ok(Some(process))
    }

    /// The state with a number, if there is one: the number of an output, and the process behind it.
    pub fn parts(&self, number: usize) -> Option<&CollapsedState>
        ensures whole { IfSome result (λ collapsed. slice_get self.now.processes number
            ≡ Some (whole_of self.now.outputs collapsed.now)) }
        ensures within { IfSome result (λ collapsed. IsWithin self.now.outputs collapsed.now) }
    {
        self.collapsed_states.get(number)
    }

    /// The process of the state with a number, if there is one, but for its output.
    pub fn collapsed(&self, number: usize) -> Option<&Process>
        ensures state { IfSome result (λ process. (s : Kept)
            × (slice_get self.now.processes number ≡ Some s)
            × IsButForOutput (process_view process.now) (process_view s)) }
    {
        let collapsed = self.collapsed_states.get(number)?;
        Some(&collapsed.process)
    }

    /// The call at which the state with a number stands, if it does.
    pub fn call(&self, number: u32) -> Option<&Call>
        ensures stands { IfSome result (λ call. (s : Kept)
            × (slice_get self.now.processes number ≡ Some s)
            × StandsAt (process_view s) call.now) }
    {
        let call = self.collapsed_states.call(number)?;
        Some(call)
    }

    /// Whether the process has ended in the state with a number.
    pub fn has_ended(&self, number: u32) -> bool
        ensures ended { IsTrue result → (s : Kept) → slice_get self.now.processes number ≡ Some s
            → HasEnded (process_view s) }
    {
        self.collapsed_states.has_ended(number)
    }

    /// Whether a process is about to take a name away in one of them.
    pub fn unlinks(&self) -> bool
        ensures none { result ≡ false
            → All (λ s. unlinks (process_view s) ≡ false) self.now.processes }
    {
        self.collapsed_states.unlinks()
    }

    /// Keeps a state, which is the process behind an output that is kept; with its number.
    pub fn keep_behind(
        &mut self,
        alloc: Global,
        collapsed: CollapsedState,
    ) -> Result<u32, AllocError>
        requires within { IsWithin self.old.outputs collapsed }
        ensures kept { OnOk result (IsSameOrMore self.old.processes self.new.processes
            (whole_of self.old.outputs collapsed)) }
        ensures state { IfOk result (λ i. option_map process_view
            (slice_get self.new.processes i)
            ≡ Some (process_view (whole_of self.old.outputs collapsed))) }
    {
        let collapsed = collapsed_of(alloc, &mut self.outputs, collapsed)?;
        let number = self.collapsed_states.keep(alloc, collapsed)?;
        Ok(number)
    }

    /// Keeps the state of a process; with its number.
    pub fn keep(&mut self, alloc: Global, process: Process) -> Result<u32, AllocError>
        ensures kept { OnOk result (IsSameOrMore self.old.processes self.new.processes process) }
        ensures state { IfOk result (λ i. option_map process_view
            (slice_get self.new.processes i)
            ≡ Some (process_view process)) }
    {
        let _ = &self.outputs;
        self.keep_behind(alloc, CollapsedState { before: 0, process })
    }

    /// About how many bytes they take.
    pub fn size(&self) -> usize {
        self.collapsed_states
            .size()
            .saturating_add(self.outputs.size())
    }

    /// Lets go of what only `keep` needs.
    pub fn forget(&mut self, alloc: Global)
        ensures same { self.new ≡ self.old }
    {
        self.collapsed_states.forget(alloc);
        self.outputs.forget(alloc);
    }
}
