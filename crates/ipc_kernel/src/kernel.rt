//! The kernel, and how it answers calls.
ghost use Rattle.std.specs.Prelude.{◌≡◌, ◌<◌, ◌≤◌, ◌-◌, ◌||◌, length, Some, IfSome, IfOk, OnErr, IsErr, IsTrue};
ghost use Rattle.std.specs.Option.{option_map, option_copied};
ghost use Rattle.ipc_names.specs.Errno.{number_of};
ghost use Rattle.ipc_objects.specs.Limits.{sem_value_max};
ghost use Rattle.ipc_kernel.specs.Limits.{object_places, open_max, process_max};
ghost use Rattle.ipc_kernel.specs.Kernel.{KernelState};
ghost use Rattle.ipc_kernel.specs.Private.Decisions.{outcome_of, IsPossible, decision_may_grow, FitsBuffer, FitsLimit};
ghost use Rattle.ipc_kernel.specs.Places.{place_at, queue_in, queue_and_name, semaphore_value, value_and_name};
ghost use Rattle.ipc_kernel.specs.declared.call.Answer.TheVariants.{Done};
ghost use Rattle.ipc_kernel.specs.declared.call.Reply.TheVariants.{Plain};

use crate::places::Places;
use crate::processes::Processes;
use crate::{Answer, Call, Descriptor, Place, Reply, Slot};
use decision::{Change, Decision, ShortReply};
use ipc_names::{Errno, Name};
use ipc_objects::Queue;
use std::alloc::{AllocError, Global};
use std::marker::Model;

mod assembly;
mod changes;
mod copies;
mod decision;
mod queues;
mod semaphores;

/// The kernel: 64 object places, and 16 descriptors and 16 slots of each process.
pub struct Kernel {
    places: Places,
    processes: Processes,
}

impl Drop for Kernel {
    fn drop(self) {
        let Kernel {
            places: _,
            processes: _,
        } = self;
    }
}

impl Model for Kernel {
    ghost use Rattle.ipc_kernel.specs.Kernel.{KernelState, IsSettled};

    ghost Value = { KernelState };

    ghost view = { λ a. record { places = a.places; processes = a.processes } };

    ghost invariant = { λ a. IsSettled (record { places = a.places; processes = a.processes }) };
}

#[inline(always)]
fn refusal(errno: Errno) -> Answer
    ensures reply { result ≡ Done (Plain (65536 - number_of errno)) }
{
    Answer::Done(Reply::Plain(errno.reply()))
}

impl Kernel {
    ghost use Rattle.ipc_kernel.specs.Answer.{answer, is_done, is_receive, may_grow};
    ghost use Rattle.ipc_kernel.specs.Kernel.{empty_kernel, IsSettled};
    ghost use Rattle.ipc_kernel.specs.Outcomes.{open_queue, open_semaphore};
    ghost use Rattle.ipc_kernel.specs.Processes.{descriptor_of, slot_of};
    ghost use Rattle.ipc_kernel.specs.Replies.{IsAnswerTo};

    /// The kernel of `count` processes in which nothing is made and nothing is open.
    #[tactic(auto, using(crate::proofs::KernelLemmas::settled_empty))]
    pub fn new(alloc: Global, count: usize) -> Result<Kernel, AllocError>
        requires at_least { 1 ≤ count }
        requires at_most { count ≤ process_max }
        ensures empty { IfOk result (λ k. k ≡ empty_kernel count) }
    {
        let places = Places::new(alloc)?;
        let processes = Processes::new(alloc, count)?;
        Ok(Kernel { places, processes })
    }

    /// The number of processes, 1 to 64.
    pub fn count(&self) -> usize
        ensures count { result ≡ length self.now.processes }
    {
        self.processes.count()
    }

    /// The queue in a place, with its name or none.
    pub fn queue_at(&self, place: u8) -> Option<(Option<&Name>, &Queue)>
        ensures held { option_map (λ r. (option_copied r.0, r.1.now)) result
            ≡ queue_and_name (place_at self.now.places place) }
    {
        match self.places.get(place)? {
            Place::Mq { name, queue } => Some((name.as_ref(), queue)),
            _ => None,
        }
    }

    /// The value of the semaphore in a place, 0 to 32,767, with its name or none.
    pub fn semaphore_at(&self, place: u8) -> Option<(Option<&Name>, u16)>
        ensures held { option_map (λ r. (option_copied r.0, r.1)) result
            ≡ value_and_name (place_at self.now.places place) }
    {
        match self.places.get(place)? {
            Place::Sem { name, semaphore } => Some((name.as_ref(), semaphore.value())),
            _ => None,
        }
    }

    /// What a descriptor of a process holds, where it is open.
    pub fn mqd(&self, pid: usize, mqd: u16) -> Option<Descriptor>
        requires process { pid < length self.now.processes }
        ensures held { result ≡ descriptor_of self.now.processes pid mqd }
        ensures range { IfSome result (λ _. mqd < open_max) }
        ensures place { IfSome result (λ held. held.place < object_places) }
    {
        self.processes.descriptor(pid, mqd)
    }

    /// What a slot of a process holds, where it is open.
    pub fn slot(&self, pid: usize, slot: u16) -> Option<Slot>
        requires process { pid < length self.now.processes }
        ensures held { result ≡ slot_of self.now.processes pid slot }
        ensures range { IfSome result (λ _. slot < open_max) }
        ensures place { IfSome result (λ held. held.place < object_places) }
    {
        self.processes.slot(pid, slot)
    }

    /// Answers a call of a process: the reply, or that the call must wait. A refusal is a plain
    /// reply, the negative of the error's number. Where memory is refused nothing has changed, and
    /// the same call can be made again; only mq_open, mq_send and sem_open take memory.
    #[inline(always)]
    pub fn call(&mut self, pid: usize, call: &Call) -> Result<Answer, AllocError>
        requires process { pid < length self.old.processes }
        ensures answered { IfOk result (λ a. (a, self.new) ≡ answer self.old pid call.now) }
        ensures form { IfOk result (λ a. IsAnswerTo call.now a) }
        ensures err { OnErr result (self.new ≡ self.old) }
        ensures memory { IsErr result → IsTrue (may_grow call.now) }
        ensures count { length self.new.processes ≡ length self.old.processes }
        ensures settled { IsSettled self.new }
    {
        match self.decide_common(pid, call) {
            Some(decision) => self.conclude(pid, call, decision),
            None => self.call_any(pid, call),
        }
    }

    #[inline(never)]
    fn call_any(&mut self, pid: usize, call: &Call) -> Result<Answer, AllocError>
        requires process { pid < length self.old.processes }
        ensures answered { IfOk result (λ a. (a, self.new) ≡ answer self.old pid call.now) }
        ensures form { IfOk result (λ a. IsAnswerTo call.now a) }
        ensures err { OnErr result (self.new ≡ self.old) }
        ensures memory { IsErr result → IsTrue (may_grow call.now) }
        ensures count { length self.new.processes ≡ length self.old.processes }
        ensures settled { IsSettled self.new }
    {
        let decision = self.decide(pid, call);
        self.conclude(pid, call, decision)
    }

    /// Answers a call by what was decided of it.
    #[inline(always)]
    fn conclude(
        &mut self,
        pid: usize,
        call: &Call,
        decision: Decision<'_>,
    ) -> Result<Answer, AllocError>
        requires process { pid < length self.old.processes }
        requires outcome { outcome_of self.old pid decision ≡ answer self.old pid call.now }
        requires possible { IsPossible self.old decision }
        requires memory { IsTrue (decision_may_grow decision) → IsTrue (may_grow call.now) }
        requires size { FitsBuffer call.now (answer self.old pid call.now).0 }
        requires limit { FitsLimit call.now (answer self.old pid call.now).0 }
        ensures answered { IfOk result (λ a. (a, self.new) ≡ answer self.old pid call.now) }
        ensures form { IfOk result (λ a. IsAnswerTo call.now a) }
        ensures err { OnErr result (self.new ≡ self.old) }
        ensures memory { IsErr result → IsTrue (may_grow call.now) }
        ensures count { length self.new.processes ≡ length self.old.processes }
        ensures settled { IsSettled self.new }
    {
        let answer = self.carry_out(pid, decision);
        // The invariant, which `settled` tells, is known where a field is named.
        let _ = &self.places;
        answer
    }

    /// Whether a call would be answered without a wait.
    pub fn can_go(&self, pid: usize, call: &Call) -> bool
        requires process { pid < length self.now.processes }
        ensures answered { result ≡ is_done (answer self.now pid call.now).0 }
    {
        !matches!(self.decide(pid, call), Decision::Waits)
    }

    /// Answers a call as `call` does, with an equal answer beside it, whose words are shared. Where
    /// memory is refused nothing has changed; beside what takes memory in `call`, an error is that
    /// the words of a received message are shared 2^63 times.
    pub fn call_with_copy(
        &mut self,
        pid: usize,
        call: &Call,
    ) -> Result<(Answer, Answer), AllocError>
        requires process { pid < length self.old.processes }
        ensures answered { IfOk result (λ r. (r.0, self.new) ≡ answer self.old pid call.now) }
        ensures copy { IfOk result (λ r. r.1 ≡ r.0) }
        ensures form { IfOk result (λ r. IsAnswerTo call.now r.0) }
        ensures err { OnErr result (self.new ≡ self.old) }
        ensures memory { IsErr result → IsTrue (may_grow call.now || is_receive call.now) }
        ensures count { length self.new.processes ≡ length self.old.processes }
        ensures settled { IsSettled self.new }
    {
        let decision = self.decide(pid, call);
        let answers = self.carry_out_with_copy(pid, decision);
        // The invariant, which `settled` tells, is known where a field is named.
        let _ = &self.places;
        answers
    }

    /// The answer that a call would be given now; nothing changes. Takes no memory: the words of a
    /// message that would be received are shared, and an error is that they are shared 2^63 times.
    pub fn answer(&self, pid: usize, call: &Call) -> Result<Answer, AllocError>
        requires process { pid < length self.now.processes }
        ensures answered { IfOk result (λ a. a ≡ (answer self.now pid call.now).0) }
        ensures form { IfOk result (λ a. IsAnswerTo call.now a) }
        ensures memory { IsErr result → IsTrue (is_receive call.now) }
    {
        let decision = self.decide(pid, call);
        self.preview(decision)
    }

    #[tactic(auto, unfolding(crate::specs::Answer::answer))]
    #[inline(always)]
    fn decide<'a>(&self, pid: usize, call: &'a Call) -> Decision<'a>
        requires process { pid < length self.now.processes }
        ensures outcome { outcome_of self.now pid result ≡ answer self.now pid call.now }
        ensures possible { IsPossible self.now result }
        ensures memory { IsTrue (decision_may_grow result) → IsTrue (may_grow call.now) }
        ensures size { FitsBuffer call.now (answer self.now pid call.now).0 }
        ensures limit { FitsLimit call.now (answer self.now pid call.now).0 }
    {
        match call {
            Call::MqOpen { name, flags, attr } => self.decide_mq_open(pid, name, *flags, *attr),
            Call::MqClose { mqd } => self.decide_mq_close(pid, *mqd),
            Call::MqUnlink { name } => self.decide_mq_unlink(name),
            Call::MqSend { mqd, words, prio } => self.decide_mq_send(pid, *mqd, words, *prio),
            Call::MqReceive { mqd, len } => self.decide_mq_receive(pid, *mqd, *len),
            Call::MqGetattr { mqd } => self.decide_mq_getattr(pid, *mqd),
            Call::MqSetattr { mqd, flags } => self.decide_mq_setattr(pid, *mqd, *flags),
            Call::SemOpen { name, flags, value } => {
                self.decide_sem_open(pid, name, *flags, *value)
            }
            Call::SemClose { slot } => self.decide_sem_close(pid, *slot),
            Call::SemUnlink { name } => self.decide_sem_unlink(name),
            Call::SemWait { slot } => self.decide_sem_wait(pid, *slot),
            Call::SemTrywait { slot } => self.decide_sem_trywait(pid, *slot),
            Call::SemPost { slot } => self.decide_sem_post(pid, *slot),
            Call::SemGetvalue { slot } => self.decide_sem_getvalue(pid, *slot),
            Call::Exit => Decision::Answered(ShortReply::Plain(0), Change::CloseAll),
        }
    }

    /// What becomes now of one of the calls that are made most. Where the call is known, only what
    /// it needs of `call` is compiled.
    #[tactic(auto, unfolding(crate::specs::Answer::answer))]
    #[inline(always)]
    fn decide_common<'a>(&self, pid: usize, call: &'a Call) -> Option<Decision<'a>>
        requires process { pid < length self.now.processes }
        ensures outcome { IfSome result
            (λ d. outcome_of self.now pid d ≡ answer self.now pid call.now) }
        ensures possible { IfSome result (λ d. IsPossible self.now d) }
        ensures memory { IfSome result
            (λ d. IsTrue (decision_may_grow d) → IsTrue (may_grow call.now)) }
        ensures size { IfSome result (λ _. FitsBuffer call.now (answer self.now pid call.now).0) }
        ensures limit { IfSome result (λ _. FitsLimit call.now (answer self.now pid call.now).0) }
    {
        match call {
            Call::MqSend { mqd, words, prio } => {
                Some(self.decide_mq_send(pid, *mqd, words, *prio))
            }
            Call::MqReceive { mqd, len } => Some(self.decide_mq_receive(pid, *mqd, *len)),
            Call::SemWait { slot } => Some(self.decide_sem_wait(pid, *slot)),
            Call::SemPost { slot } => Some(self.decide_sem_post(pid, *slot)),
            _ => None,
        }
    }

    #[inline(always)]
    fn open_queue(&self, pid: usize, mqd: u16) -> Option<(Descriptor, &Queue)>
        requires process { pid < length self.now.processes }
        ensures found { option_map (λ r. (r.0, r.1.now)) result ≡ open_queue self.now pid mqd }
        ensures range { IfSome result (λ _. mqd < open_max) }
        ensures place { IfSome result (λ held. held.0.place < object_places) }
        ensures there { IfSome result (λ held.
            queue_in (place_at self.now.places held.0.place) ≡ Some held.1.now) }
    {
        let held = self.processes.descriptor(pid, mqd)?;
        let queue = self.places.get(held.place)?.queue()?;
        Some((held, queue))
    }

    #[inline(always)]
    fn open_semaphore(&self, pid: usize, slot: u16) -> Option<(Slot, u16)>
        requires process { pid < length self.now.processes }
        ensures found { result ≡ open_semaphore self.now pid slot }
        ensures bound { IfSome result (λ held. held.1 ≤ sem_value_max) }
        ensures there { IfSome result (λ held.
            semaphore_value (place_at self.now.places held.0.place) ≡ Some held.1) }
    {
        let held = self.processes.slot(pid, slot)?;
        let value = self.places.get(held.place)?.semaphore_value()?;
        Some((held, value))
    }
}
