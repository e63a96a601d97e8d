//! What a reply does to the process that made the call.

ghost use Rattle.std.specs.Prelude.{◌≡◌, ◌<◌, ◌+◌, ℕ, OnOk, Option, Some};
ghost use Rattle.lc3_word.specs.Segment.{first_device};
ghost use Rattle.lc3_machine.specs.Process.{Held, Stops};
ghost use Rattle.lc3_machine.specs.Effects.{next_step};
ghost use Rattle.lc3_machine.specs.declared.want.Want.TheVariants.{Trap};
ghost use Rattle.lc3_machine.specs.Memory.{IsWritable, StaysReady};
ghost use Rattle.lc3_machine.specs.Reply.{CanTake, process_after_effect};
ghost use Rattle.lc3_machine.specs.Steps.{AsksTrap};
ghost use Rattle.ipc_traps.specs.declared.service.Service.TheVariants.{MqReceive, MqGetattr, MqSetattr, SemGetvalue};
ghost use Rattle.ipc_traps.specs.Services.{service_in};
ghost use Rattle.ipc_traps.specs.Asked.{mq_receive_request, mq_getattr_request, mq_setattr_request, sem_getvalue_request};
ghost use Rattle.ipc_traps.specs.Reply.{unless_zero, four_words_address, process_after_reply, HasRoom, IsPrepared, IsPreparedFor};

use crate::Service;
use crate::reading::{is_in_memory, register};
use ipc_kernel::Reply;
use ipc_objects::MQ_MSGSIZE_MAX;
use lc3_machine::{AtCall, Effect, Machine, Running, Want};
use std::alloc::AllocError;

/// An address, of which 0 stands for none.
fn unless_zero(address: u16) -> Option<u16>
    ensures address { result ≡ unless_zero address }
{
    if address == 0 { None } else { Some(address) }
}

/// Where the call with this vector wants the attributes of a queue written.
fn four_words_address(machine: &Machine, vector: u8) -> Option<u16>
    ensures address { result ≡ four_words_address (service_in vector) machine.now.process }
{
    match Service::of_vector(vector) {
        Some(Service::MqSetattr) => unless_zero(register(machine, 2)),
        _ => Some(register(machine, 1)),
    }
}

/// What a reply does to the process that made its call by the trap with this vector: the answer of the trap with this
/// effect is the reply.
#[tactic(auto, unfolding(crate::specs::Reply::process_after_reply, crate::specs::Reply::HasRoom))]
#[inline(always)]
pub fn effect_by_vector<'a>(machine: &Machine, vector: u8, reply: &'a Reply) -> Effect<'a>
    requires trap { next_step machine.now.process ≡ Stops (Trap vector) }
    ensures effect { process_after_effect machine.now.process result
        ≡ process_after_reply machine.now.process reply.now }
    ensures room { HasRoom machine.now reply.now → CanTake machine.now.ready result }
{
    match reply {
        Reply::Plain(word) => Effect::Plain(*word),
        Reply::Message { words, prio } => Effect::Message {
            at: register(machine, 1),
            words: words.as_slice(),
            prio_at: unless_zero(register(machine, 3)),
            prio: *prio,
        },
        Reply::Attr(words) => Effect::Four {
            at: four_words_address(machine, vector),
            words: *words,
        },
        Reply::Value(word) => Effect::One {
            at: register(machine, 1),
            word: *word,
        },
    }
}

/// What a reply does to the process whose call it answers: `AtCall::finish` with this effect is the reply.
pub fn effect_of<'a>(call: &AtCall, reply: &'a Reply) -> Effect<'a>
    requires trap { AsksTrap call.now.process }
    ensures effect { process_after_effect call.now.process result
        ≡ process_after_reply call.now.process reply.now }
    ensures room { HasRoom call.now reply.now → CanTake call.now.ready result }
{
    match call.want() {
        Want::Trap(vector) => effect_by_vector(call.machine(), vector, reply),
        Want::End(_) => unreachable!(),
    }
}

/// A process of which words of memory can be made writable, as they are for a reply.
trait Reserve {
    /// What the process holds.
    ghost held: { Self → Held };

    /// The machine of the process.
    fn shown(&self) -> &Machine
        ensures same { result.now ≡ held self.now };

    /// Makes the words of a range writable; what they hold stays the same.
    fn make_writable(&mut self, at: u16, len: u16) -> Result<(), AllocError>
        requires below_devices { (k : ℕ) → k < len → at + k < first_device }
        ensures process { (held self.new).process ≡ (held self.old).process }
        ensures ready { StaysReady (held self.old).ready (held self.new).ready }
        ensures ok { OnOk result (IsWritable (held self.new).ready at len) };
}

impl Reserve for Running {
    ghost held = { λ r. r };

    #[inline(always)]
    fn shown(&self) -> &Machine {
        self.machine()
    }

    #[inline(always)]
    fn make_writable(&mut self, at: u16, len: u16) -> Result<(), AllocError> {
        self.reserve(at, len)
    }
}

impl Reserve for AtCall {
    ghost held = { λ c. c };

    fn shown(&self) -> &Machine {
        self.machine()
    }

    fn make_writable(&mut self, at: u16, len: u16) -> Result<(), AllocError> {
        self.reserve(at, len)
    }
}

/// Makes writable each word that a reply may write to the call that a process stands before, of a buffer for a message
/// the first `MQ_MSGSIZE_MAX` words at most.
/// An error is want of memory: some of the words may be writable then.
pub fn prepare(call: &mut AtCall) -> Result<(), AllocError>
    requires trap { AsksTrap call.old.process }
    ensures process { call.new.process ≡ call.old.process }
    ensures ready { StaysReady call.old.ready call.new.ready }
    ensures ok { OnOk result (IsPrepared call.new) }
{
    match call.want() {
        Want::Trap(vector) => prepare_for(call, vector),
        Want::End(_) => unreachable!(),
    }
}

/// Makes writable what `prepare` does, for a process that runs and stands before the trap with this vector.
#[inline(always)]
pub fn prepare_by_vector(process: &mut Running, vector: u8) -> Result<(), AllocError>
    requires trap { next_step process.old.process ≡ Stops (Trap vector) }
    ensures process { process.new.process ≡ process.old.process }
    ensures ready { StaysReady process.old.ready process.new.ready }
    ensures ok { OnOk result (IsPrepared process.new) }
{
    prepare_for(process, vector)
}

#[tactic(auto, unfolding(crate::specs::Reply::IsPrepared, crate::specs::Reply::HasRoom, crate::specs::Asked::next_request))]
#[inline(always)]
fn prepare_for<P: Reserve>(process: &mut P, vector: u8) -> Result<(), AllocError>
    requires trap { next_step (P.held process.old).process ≡ Stops (Trap vector) }
    ensures process { (P.held process.new).process ≡ (P.held process.old).process }
    ensures ready { StaysReady (P.held process.old).ready (P.held process.new).ready }
    ensures ok { OnOk result (IsPrepared (P.held process.new)) }
{
    match Service::of_vector(vector) {
        Some(Service::MqReceive) => prepare_receive(process),
        Some(Service::MqGetattr) => prepare_getattr(process),
        Some(Service::MqSetattr) => prepare_setattr(process),
        Some(Service::SemGetvalue) => prepare_getvalue(process),
        _ => Ok(()),
    }
}

fn prepare_receive<P: Reserve>(process: &mut P) -> Result<(), AllocError>
    ensures process { (P.held process.new).process ≡ (P.held process.old).process }
    ensures ready { StaysReady (P.held process.old).ready (P.held process.new).ready }
    ensures ok { OnOk result (IsPreparedFor (Some MqReceive)
        (mq_receive_request (P.held process.new).process) (P.held process.new)) }
{
    let at = register(process.shown(), 1);
    let len = register(process.shown(), 2);
    let prio_at = register(process.shown(), 3);
    if !is_in_memory(at, len) {
        return Ok(());
    }
    if prio_at == 0 {
        return process.make_writable(at, len.min(MQ_MSGSIZE_MAX));
    }
    if !is_in_memory(prio_at, 1) {
        return Ok(());
    }
    process.make_writable(at, len.min(MQ_MSGSIZE_MAX))?;
    process.make_writable(prio_at, 1)
}

fn prepare_getattr<P: Reserve>(process: &mut P) -> Result<(), AllocError>
    ensures process { (P.held process.new).process ≡ (P.held process.old).process }
    ensures ready { StaysReady (P.held process.old).ready (P.held process.new).ready }
    ensures ok { OnOk result (IsPreparedFor (Some MqGetattr)
        (mq_getattr_request (P.held process.new).process) (P.held process.new)) }
{
    let at = register(process.shown(), 1);
    if !is_in_memory(at, 4) {
        return Ok(());
    }
    process.make_writable(at, 4)
}

fn prepare_setattr<P: Reserve>(process: &mut P) -> Result<(), AllocError>
    ensures process { (P.held process.new).process ≡ (P.held process.old).process }
    ensures ready { StaysReady (P.held process.old).ready (P.held process.new).ready }
    ensures ok { OnOk result (IsPreparedFor (Some MqSetattr)
        (mq_setattr_request (P.held process.new).process) (P.held process.new)) }
{
    let at = register(process.shown(), 2);
    if at == 0 {
        return Ok(());
    }
    if !is_in_memory(at, 4) {
        return Ok(());
    }
    process.make_writable(at, 4)
}

fn prepare_getvalue<P: Reserve>(process: &mut P) -> Result<(), AllocError>
    ensures process { (P.held process.new).process ≡ (P.held process.old).process }
    ensures ready { StaysReady (P.held process.old).ready (P.held process.new).ready }
    ensures ok { OnOk result (IsPreparedFor (Some SemGetvalue)
        (sem_getvalue_request (P.held process.new).process) (P.held process.new)) }
{
    let at = register(process.shown(), 1);
    if !is_in_memory(at, 1) {
        return Ok(());
    }
    process.make_writable(at, 1)
}
