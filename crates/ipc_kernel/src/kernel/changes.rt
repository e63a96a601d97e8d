//! How a decision is carried out, and what it would be answered.
ghost use Rattle.std.specs.Prelude.{◌≡◌, ℕ, ◌<◌, false, length, IfOk, OnOk, OnErr, IsErr, IsSomeAnd, IsTrue};
ghost use Rattle.ipc_kernel.specs.Private.Decisions.{kernel_of, outcome_of, after_change, CanChange, IsPossible, change_may_grow, decision_may_grow, decision_may_share, decision_receives, keeps_references, reply_with_first};
ghost use Rattle.ipc_kernel.specs.Outcomes.{queue_at, completion};
ghost use Rattle.ipc_kernel.specs.Places.{place_at, queue_in};
ghost use Rattle.ipc_kernel.specs.Private.Messages.{HasMessage};
ghost use Rattle.ipc_kernel.specs.declared.kernel.decision.Decision.TheVariants.{Receives};
ghost use Rattle.ipc_kernel.specs.declared.call.Reply.{Reply};
ghost use Rattle.ipc_kernel.specs.declared.call.Answer.TheVariants.{Done};

use super::decision::{Change, Decision};
use super::{Kernel, refusal};
use crate::places::Places;
use crate::processes::Processes;
use crate::{Answer, Reply, Slot};
use std::alloc::AllocError;

/// Makes a change by a process of names or of what is open. Where memory is refused nothing has
/// changed.
#[inline(never)]
fn apply_to_references(
    places: &mut Places,
    processes: &mut Processes,
    pid: usize,
    change: Change<'_>,
) -> Result<(), AllocError>
    requires process { pid < length processes.old }
    requires possible { CanChange (kernel_of places.old processes.old) change }
    requires references { keeps_references change ≡ false }
    ensures ok { OnOk result (kernel_of places.new processes.new
        ≡ after_change (kernel_of places.old processes.old) pid change.entry) }
    ensures same_places { OnErr result (places.new ≡ places.old) }
    ensures same_processes { OnErr result (processes.new ≡ processes.old) }
    ensures memory { IsErr result → IsTrue (change_may_grow change.entry) }
    ensures count { length processes.new ≡ length processes.old }
{
    match change {
        Change::HoldDescriptor { mqd, held } => processes.set_descriptor(pid, mqd, held),
        Change::HoldSlot { slot, held } => processes.set_slot(pid, slot, held),
        Change::MakeQueue(new) => {
            places.put_queue(new.held.place, new.name, new.max_messages, new.message_size)?;
            processes.set_descriptor(pid, new.mqd, Some(new.held));
        }
        Change::MakeSemaphore(new) => {
            let place = new.place;
            places.put_semaphore(place, new.name, new.value)?;
            processes.set_slot(pid, new.slot, Some(Slot { place, opens: 1 }));
        }
        Change::UnnameQueue { place, name } => places.unname_queue(place, name),
        Change::UnnameSemaphore { place, name } => places.unname_semaphore(place, name),
        Change::CloseAll => processes.close_all(pid),
        Change::Nothing | Change::Send { .. } | Change::Take { .. } | Change::Post { .. } => {
            unreachable!()
        }
    }
    Ok(())
}

/// Makes a change by a process in the places and the tables. Where memory is refused nothing has
/// changed.
#[inline(always)]
fn apply(
    places: &mut Places,
    processes: &mut Processes,
    pid: usize,
    change: Change<'_>,
) -> Result<(), AllocError>
    requires process { pid < length processes.old }
    requires possible { CanChange (kernel_of places.old processes.old) change }
    ensures ok { OnOk result (kernel_of places.new processes.new
        ≡ after_change (kernel_of places.old processes.old) pid change.entry) }
    ensures same_places { OnErr result (places.new ≡ places.old) }
    ensures same_processes { OnErr result (processes.new ≡ processes.old) }
    ensures memory { IsErr result → IsTrue (change_may_grow change.entry) }
    ensures count { length processes.new ≡ length processes.old }
{
    match change {
        Change::Nothing => {}
        Change::Send { place, words, prio } => places.send(place, prio, words)?,
        Change::Take { place, value } => places.take(place, value),
        Change::Post { place, value } => places.post(place, value),
        _ => apply_to_references(places, processes, pid, change)?,
    }
    Ok(())
}

/// Whether a change leaves each name, and what is open, as they were, so that no place is to be
/// emptied.
#[inline(always)]
fn keeps_references(change: Change<'_>) -> bool
    ensures kept { result ≡ keeps_references change.entry }
{
    matches!(
        change,
        Change::Nothing | Change::Send { .. } | Change::Take { .. } | Change::Post { .. }
    )
}

impl Kernel {
    /// Carries out a decision. Where memory is refused nothing has changed.
    #[inline(always)]
    pub(super) fn carry_out(
        &mut self,
        pid: usize,
        decision: Decision<'_>,
    ) -> Result<Answer, AllocError>
        requires process { pid < length self.old.processes }
        requires possible { IsPossible self.old decision }
        ensures outcome { IfOk result (λ a.
            (a, self.new) ≡ outcome_of self.old pid decision.entry) }
        ensures err { OnErr result (self.new ≡ self.old) }
        ensures memory { IsErr result → IsTrue (decision_may_grow decision.entry) }
        ensures count { length self.new.processes ≡ length self.old.processes }
    {
        match decision {
            Decision::Refused(errno) => Ok(refusal(errno)),
            Decision::Waits => Ok(Answer::Wait),
            Decision::Receives(place) => Ok(Answer::Done(self.receive(place))),
            Decision::Answered(reply, change) => {
                self.change(pid, change)?;
                Ok(Answer::Done(reply.reply()))
            }
        }
    }

    /// Makes a change by a process, and empties each place that nothing keeps.
    #[tactic(auto, using(crate::proofs::KernelLemmas::settled_after))]
    #[inline(always)]
    fn change(&mut self, pid: usize, change: Change<'_>) -> Result<(), AllocError>
        requires process { pid < length self.old.processes }
        requires possible { CanChange self.old change }
        ensures ok { (r : Reply) → OnOk result
            ((Done r, self.new) ≡ completion (after_change self.old pid change.entry) r) }
        ensures err { OnErr result (self.new ≡ self.old) }
        ensures memory { IsErr result → IsTrue (change_may_grow change.entry) }
        ensures count { length self.new.processes ≡ length self.old.processes }
    {
        apply(&mut self.places, &mut self.processes, pid, change)?;
        if !keeps_references(change) {
            self.places.empty_unused(&self.processes);
        }
        Ok(())
    }

    #[tactic(auto, using(crate::proofs::AnswerLemmas::settled_received, crate::proofs::AnswerLemmas::received_first))]
    #[inline(always)]
    fn receive(&mut self, place: u8) -> Reply
        requires message { IsSomeAnd (queue_in (place_at self.old.places place)) HasMessage }
        ensures outcome { (p : ℕ)
            → (Done result, self.new) ≡ outcome_of self.old p (Receives place) }
        ensures count { length self.new.processes ≡ length self.old.processes }
    {
        let (prio, words) = self.places.receive(place);
        Reply::Message { words, prio }
    }

    /// Carries out a decision; with its answer, and an equal one whose words are shared. Where
    /// memory is refused nothing has changed.
    pub(super) fn carry_out_with_copy(
        &mut self,
        pid: usize,
        decision: Decision<'_>,
    ) -> Result<(Answer, Answer), AllocError>
        requires process { pid < length self.old.processes }
        requires possible { IsPossible self.old decision }
        ensures outcome { IfOk result (λ r.
            (r.0, self.new) ≡ outcome_of self.old pid decision.entry) }
        ensures copy { IfOk result (λ r. r.1 ≡ r.0) }
        ensures err { OnErr result (self.new ≡ self.old) }
        ensures memory { IsErr result → IsTrue (decision_may_share decision.entry) }
        ensures count { length self.new.processes ≡ length self.old.processes }
    {
        match decision {
            Decision::Refused(errno) => Ok((refusal(errno), refusal(errno))),
            Decision::Waits => Ok((Answer::Wait, Answer::Wait)),
            Decision::Receives(place) => {
                let copy = self.reply_with_first(place)?;
                let reply = self.receive(place);
                Ok((Answer::Done(reply), Answer::Done(copy)))
            }
            Decision::Answered(reply, change) => {
                self.change(pid, change)?;
                Ok((Answer::Done(reply.reply()), Answer::Done(reply.reply())))
            }
        }
    }

    /// What a decision answers. Takes no memory: the words of a message are shared.
    pub(super) fn preview(&self, decision: Decision<'_>) -> Result<Answer, AllocError>
        requires possible { IsPossible self.now decision }
        ensures outcome { (p : ℕ)
            → IfOk result (λ a. a ≡ (outcome_of self.now p decision.entry).0) }
        ensures memory { IsErr result → IsTrue (decision_receives decision.entry) }
    {
        match decision {
            Decision::Refused(errno) => Ok(refusal(errno)),
            Decision::Waits => Ok(Answer::Wait),
            Decision::Receives(place) => Ok(Answer::Done(self.reply_with_first(place)?)),
            Decision::Answered(reply, _) => Ok(Answer::Done(reply.reply())),
        }
    }

    /// The first message of the queue in a place, with shared words.
    fn reply_with_first(&self, place: u8) -> Result<Reply, AllocError>
        requires message { IsSomeAnd (queue_in (place_at self.now.places place)) HasMessage }
        ensures first { IfOk result (λ r. r ≡ reply_with_first (queue_at self.now place).messages) }
    {
        let Some(held) = self.places.get(place) else {
            unreachable!();
        };
        let Some(queue) = held.queue() else {
            unreachable!();
        };
        let Some(message) = queue.first() else {
            unreachable!();
        };
        let words = message.words.clone()?;
        let prio = message.priority;
        Ok(Reply::Message { words, prio })
    }
}
