//! What a step did.
ghost use Rattle.std.specs.Prelude.{◌≡◌, ◌<◌, if◌then◌else◌, IfOk, length, slice_get, drop};
ghost use Rattle.lab_sched.specs.Held.{process_view};
ghost use Rattle.lab_sched.specs.Worlds.{machine_of};
ghost use Rattle.lab_told.specs.Answers.{act_done, call_done, result_of};
ghost use Rattle.lab_told.specs.Givers.{giver_by};
ghost use Rattle.lab_told.specs.Origins.{origin_by};
ghost use Rattle.lab_told.specs.Events.{level_by, call_by, wrote, told_with, told_by};
ghost use Rattle.lab_told.specs.Scenes.{has_effect};
ghost use Rattle.lab_told.specs.Tallies.{account_of};
ghost use Rattle.lab_told.specs.declared.told.Told.TheVariants.{Nothing};
ghost use Rattle.lab_told.specs.Services.{service_of_word, service_at};

use crate::answers::{Outcome, outcome_of, wanted_of};
use crate::asking::{Asking, Observed};
use crate::handles::{Level, held_place, level_at};
use crate::origins::Origin;
use crate::tally::Tally;
use crate::text::{Bytes, Text};
use ipc_kernel::{Kernel, Reply};
use ipc_objects::Words;
use ipc_traps::Service;
use lab_sched::{Process, Stepped, World};
use lc3_machine::How;
use lc3_table::{Instr, decode};
use lc3_word::FIRST_DEVICE;
use std::alloc::{AllocError, Global};

/// A call of the kernel, and what became of it.
#[derive(Drop)]
pub struct Called {
    pub service: Service,
    /// Its arguments, as a trace writes them.
    pub arguments: Text,
    /// What it is on: the name of its object; `#` and its place, once it is unlinked; of an object that isn't there what the call
    /// names: the name, the address of one, or the number.
    pub object: Text,
    /// The place of its object, where a descriptor or a slot stands for one; of an open the one that it opened.
    pub place: Option<u8>,
    /// The words of the message that it sends, where they lie in memory.
    pub sent: Option<Words>,
    /// R3, of mq_send the priority.
    pub priority: u16,
    pub outcome: Outcome,
    /// The level of its object after it, where the call opened it or could change its level.
    pub level: Option<Level>,
    /// Where the message comes from that it received.
    pub origin: Option<Origin>,
    /// The step since which the process waited.
    pub since: Option<u32>,
    /// Where it waited, the last step that posted to its semaphore or received from its queue; none of mq_receive, which has
    /// an origin.
    pub giver: Option<u32>,
}

impl Called {
    /// The call and the place of its object, where it was answered and not refused.
    pub fn done(&self) -> Option<(Service, u8)>
        ensures call { result ≡ call_done self.now }
    {
        match (&self.outcome, self.place) {
            (Outcome::Replied(_), Some(place)) => Some((self.service, place)),
            _ => None,
        }
    }
}

/// What a process did in a step.
#[derive(Drop)]
pub enum Act {
    /// It called the kernel.
    Calls(Called),
    /// It wrote bytes.
    Writes(Bytes),
    /// It ended.
    Ends(How),
}

impl Act {
    /// The call that the process made, and the place of its object, where it was answered and not refused.
    pub fn done(&self) -> Option<(Service, u8)>
        ensures call { result ≡ act_done self.now }
    {
        match self {
            Act::Calls(call) => call.done(),
            Act::Writes(_) | Act::Ends(_) => None,
        }
    }
}

/// A step that a trace shows.
#[derive(Drop)]
pub struct Event {
    /// The program counter before the step.
    pub pc: u16,
    /// The word there.
    pub word: u16,
    /// The counted steps of the process since its last event.
    pub local: u32,
    pub act: Act,
}

/// What is told of a step.
#[derive(Drop)]
pub enum Told {
    /// It had no effect.
    Nothing,
    /// It did nothing that is shown, and is counted.
    Counted,
    /// It is shown.
    Shown(Event),
}

fn level_by(kernel: &Kernel, service: Service, place: Option<u8>) -> Option<Level>
    ensures level { result ≡ level_by kernel.now service place }
{
    if service.is_open() || service.is_on_level() {
        level_at(kernel, place?)
    } else {
        None
    }
}

/// Where the message comes from that a call with this outcome received, by the tally before it.
fn origin_by(
    tally: &Tally,
    service: Service,
    place: Option<u8>,
    outcome: &Outcome,
) -> Option<Origin>
    ensures value { result
        ≡ origin_by service place (result_of outcome.now) tally.now.origins }
{
    match (outcome, service) {
        (Outcome::Replied(_), Service::MqReceive) => tally.first_origin(place?),
        _ => None,
    }
}

/// The giver of a call that waited since that step, if it did, by the tally before it.
fn giver_by(tally: &Tally, service: Service, since: Option<u32>, place: Option<u8>) -> Option<u32>
    ensures value { result ≡ giver_by service since place tally.now.givers }
{
    match (service, since) {
        (Service::MqReceive, _) | (_, None) => None,
        (_, Some(_)) => tally.giver(place?),
    }
}

/// A call of process `pid`, and what became of it, by the kernel after it and the tally before it.
#[tactic(auto, unfolding(crate::specs::Events::call_by))]
fn call_by(kernel: &Kernel, tally: &Tally, pid: usize, asking: Asking, outcome: Outcome) -> Called
    requires process { pid < length kernel.now.processes }
    ensures called { result ≡ call_by kernel.now tally.now pid asking outcome }
{
    let Asking {
        service,
        arguments,
        object,
        place: before,
        sent,
        priority,
        wants_attributes,
    } = asking;
    let outcome = wanted_of(wants_attributes, outcome);
    let place = match &outcome {
        _ if !service.is_open() => before,
        Outcome::Replied(Reply::Plain(number)) => held_place(kernel, pid, service, *number),
        _ => None,
    };
    let origin = origin_by(tally, service, before, &outcome);
    let since = tally.account(pid).since;
    Called {
        service,
        arguments,
        object,
        place,
        sent,
        priority,
        outcome,
        level: level_by(kernel, service, place),
        origin,
        since,
        giver: giver_by(tally, service, since, before),
    }
}

/// What a process did by what it wrote, where it had written so many bytes before.
fn wrote(alloc: Global, written: usize, after: &Process) -> Result<Option<Act>, AllocError>
    ensures act { IfOk result (λ a. a
        ≡ wrote (drop written (machine_of (process_view after.now)).output)) }
{
    let output = after.machine().output();
    let bytes = &output[written.min(output.len())..];
    if bytes.is_empty() {
        Ok(None)
    } else {
        Ok(Some(Act::Writes(Bytes::of(alloc, bytes)?)))
    }
}

/// What process `pid` did in a step with an effect, if it is shown, by what the step told and by the world after it.
fn act_by(
    world: &World,
    tally: &Tally,
    pid: usize,
    before: Observed,
    stepped: Stepped,
) -> Result<Option<Act>, AllocError>
    requires process { pid < length world.now.processes }
    ensures act { IfOk result (λ a. told_with before (account_of tally.now pid) a
        ≡ told_by world.now.kernel tally.now pid before stepped
        (slice_get world.now.processes pid)) }
{
    let Some(after) = world.process(pid) else {
        return Ok(None);
    };
    match (before.asking, outcome_of(stepped), after) {
        (_, _, Process::Ended(ended)) => Ok(Some(Act::Ends(ended.how()))),
        (Some(asking), Some(outcome), _) => {
            let call = call_by(world.kernel(), tally, pid, asking, outcome);
            Ok(Some(Act::Calls(call)))
        }
        (_, _, _) => wrote(tally.allocator(), before.written, after),
    }
}

/// What a trace tells of a step of process `pid`, by what the step told, the world after it and the tally before it.
pub fn told_by(
    world: &World,
    tally: &Tally,
    pid: usize,
    before: Observed,
    stepped: Stepped,
) -> Result<Told, AllocError>
    requires process { pid < length world.now.processes }
    ensures told { IfOk result (λ t. t ≡ (if has_effect stepped
        then told_by world.now.kernel tally.now pid before stepped
        (slice_get world.now.processes pid)
        else Nothing)) }
{
    if matches!(stepped, Stepped::Same) {
        return Ok(Told::Nothing);
    }
    let (pc, word) = (before.pc, before.word);
    let local = tally.account(pid).local;
    match act_by(world, tally, pid, before, stepped)? {
        Some(act) => Ok(Told::Shown(Event {
            pc,
            word,
            local,
            act,
        })),
        None => Ok(Told::Counted),
    }
}

/// The call that a word makes as an instruction.
pub fn service_of_word(word: u16) -> Option<Service>
    ensures service { result ≡ service_of_word word }
{
    match decode(word) {
        Some(Instr::Trap { vector }) => Service::of_vector(vector),
        _ => None,
    }
}

/// The call that a process stands before.
#[tactic(auto, unfolding(crate::specs::Services::service_at))]
pub fn service_at(process: &Process) -> Option<Service>
    ensures service { result ≡ service_at (machine_of (process_view process.now)) }
{
    let pc = process.machine().pc();
    if pc < FIRST_DEVICE {
        service_of_word(process.machine().word(pc))
    } else {
        None
    }
}
