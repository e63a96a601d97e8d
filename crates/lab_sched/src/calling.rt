//! Calls of running processes: how they are read, and how a process goes on with the answer.
ghost use Rattle.std.specs.Prelude.{◌≡◌, ◌<◌, IfOk, OnErr, length, ◌≤◌, ℕ};
ghost use Rattle.lc3_machine.specs.declared.want.Want.TheVariants.{Trap};
ghost use Rattle.lc3_machine.specs.Process.{Stops};
ghost use Rattle.lc3_machine.specs.Effects.{next_step};
ghost use Rattle.lc3_machine.specs.Steps.{AsksTrap};
ghost use Rattle.ipc_kernel.specs.declared.call.Reply.TheVariants.{Plain};
ghost use Rattle.ipc_traps.specs.Reply.{HasRoom, process_after_reply};
ghost use Rattle.lab_sched.specs.Private.Calling.{GoesOn, HasAsked, HasRoomFor};
ghost use Rattle.lab_sched.specs.Held.{process_view, IsHeld};
ghost use Rattle.lab_sched.specs.Settling.{IsNext};
ghost use Rattle.lab_sched.specs.Stepping.{StopsBy};

use crate::Process;
use crate::stepping::local_steps;
use ipc_kernel::{Answer, Call, Kernel, Reply};
use ipc_traps::{
    Asked, MQ_RECEIVE, MQ_SEND, SEM_POST, SEM_WAIT, effect_by_vector, prepare_by_vector,
    read_by_vector,
};
use lc3_machine::{Effect, Progress, Running, Want};
use std::alloc::{AllocError, Global};

/// Lets a plain word be the reply to the call of a running process, which goes on behind its trap.
#[tactic(auto, unfolding(ipc_traps::specs::Reply::process_after_reply))]
#[inline(always)]
pub(crate) fn give_word(running: &mut Running, word: u16)
    requires trap { AsksTrap running.old.process }
    ensures replied { running.new.process
        ≡ process_after_reply running.old.process (Plain word) }
{
    running.answer(Effect::Plain(word));
}

/// Lets a reply take effect on the running process that made the call, which goes on behind its
/// trap.
#[inline(never)]
pub(crate) fn give_reply(running: &mut Running, vector: u8, reply: &Reply)
    requires trap { next_step running.old.process ≡ Stops (Trap vector) }
    requires room { HasRoom running.old reply.now }
    ensures replied { running.new.process ≡ process_after_reply running.old.process reply.now }
{
    let effect = effect_by_vector(running.machine(), vector, reply);
    running.answer(effect);
}

/// Reads the call that a running process makes by the trap that it stands before. A call that is
/// refused without the kernel is a local step, which the process takes.
#[tactic(auto, unfolding(crate::specs::Worlds::next_action))]
#[inline(always)]
fn ask(alloc: Global, running: &mut Running, vector: u8) -> Result<Asked, AllocError>
    requires trap { next_step running.old.process ≡ Stops (Trap vector) }
    ensures asked { IfOk result (λ asked. HasAsked running.old.process asked running.new.process) }
    ensures err { OnErr result (running.new.process ≡ running.old.process) }
{
    match read_by_vector(alloc, running.machine(), vector)? {
        Asked::Kernel(call) => Ok(Asked::Kernel(call)),
        Asked::Refused(e) => {
            give_word(running, e.reply());
            Ok(Asked::Refused(e))
        }
    }
}

/// Reads the call as `ask` does, and makes room for each reply to it.
#[inline(always)]
pub(crate) fn ask_with_room(
    alloc: Global,
    running: &mut Running,
    vector: u8,
) -> Result<Asked, AllocError>
    requires trap { next_step running.old.process ≡ Stops (Trap vector) }
    ensures asked { IfOk result (λ asked. HasAsked running.old.process asked running.new.process) }
    ensures room { IfOk result (λ asked. HasRoomFor asked running.new) }
    ensures err { OnErr result (running.new.process ≡ running.old.process) }
{
    match ask(alloc, running, vector)? {
        Asked::Kernel(call) => {
            prepare_by_vector(running, vector)?;
            Ok(Asked::Kernel(call))
        }
        Asked::Refused(e) => Ok(Asked::Refused(e)),
    }
}

/// Reads the call of a running process, which goes on with the answer or the refusal. Nobody is
/// told the reply; with the call, where that must wait. Nothing has changed then.
#[inline(always)]
fn go_on_at(
    alloc: Global,
    running: &mut Running,
    vector: u8,
    kernel: &mut Kernel,
    pid: usize,
) -> Result<Option<Call>, AllocError>
    requires process { pid < length kernel.old.processes }
    requires trap { next_step running.old.process ≡ Stops (Trap vector) }
    ensures goes { GoesOn kernel.old pid running.old result kernel.new running.new }
{
    match ask_with_room(alloc, running, vector)? {
        Asked::Kernel(call) => match kernel.call(pid, &call) {
            // A plain word is the reply of most calls.
            Ok(Answer::Done(Reply::Plain(word))) => {
                give_word(running, word);
                Ok(None)
            }
            Ok(Answer::Done(reply)) => {
                give_reply(running, vector, &reply);
                Ok(None)
            }
            Ok(Answer::Wait) => Ok(Some(call)),
            Err(e) => Err(e),
        },
        Asked::Refused(_) => Ok(None),
    }
}

/// Does as `go_on_at`, whatever the vector.
#[inline(never)]
fn go_on_at_any(
    alloc: Global,
    running: &mut Running,
    vector: u8,
    kernel: &mut Kernel,
    pid: usize,
) -> Result<Option<Call>, AllocError>
    requires process { pid < length kernel.old.processes }
    requires trap { next_step running.old.process ≡ Stops (Trap vector) }
    ensures goes { GoesOn kernel.old pid running.old result kernel.new running.new }
{
    go_on_at(alloc, running, vector, kernel, pid)
}

/// Does as `go_on_at`. The calls that are made most stand by themselves, so that each is compiled
/// for its vector alone.
#[inline(always)]
pub(crate) fn go_on(
    alloc: Global,
    running: &mut Running,
    vector: u8,
    kernel: &mut Kernel,
    pid: usize,
) -> Result<Option<Call>, AllocError>
    requires process { pid < length kernel.old.processes }
    requires trap { next_step running.old.process ≡ Stops (Trap vector) }
    ensures goes { GoesOn kernel.old pid running.old result kernel.new running.new }
{
    match vector {
        MQ_SEND => go_on_at(alloc, running, MQ_SEND, kernel, pid),
        MQ_RECEIVE => go_on_at(alloc, running, MQ_RECEIVE, kernel, pid),
        SEM_WAIT => go_on_at(alloc, running, SEM_WAIT, kernel, pid),
        SEM_POST => go_on_at(alloc, running, SEM_POST, kernel, pid),
        _ => go_on_at_any(alloc, running, vector, kernel, pid),
    }
}

/// What a process does next.
#[derive(Drop)]
pub enum Next {
    /// So many local steps, at least one, which it has taken. A refusal without the kernel is one.
    Moved(u32),
    /// The call of the kernel that it asks or waits for.
    Asks(Call),
    /// Nothing: it has ended.
    Ended,
    /// Nothing yet: memory was refused.
    Short,
}

#[tactic(auto, using(crate::proofs::LocalSteps::asks))]
fn next_call(alloc: Global, process: &mut Process, progress: Progress) -> Next
    requires held { IsHeld process.old }
    requires stops { StopsBy (process_view process.old) progress }
    ensures next { (most : ℕ)
        → 1 ≤ most → IsNext (process_view process.old) most result (process_view process.new) }
    ensures held { IsHeld process.new }
{
    match process {
        Process::Running(running) => match progress {
            Progress::Stopped(Want::Trap(vector)) => match ask(alloc, running, vector) {
                Ok(Asked::Kernel(call)) => Next::Asks(call),
                Ok(Asked::Refused(_)) => Next::Moved(1),
                Err(_) => Next::Short,
            },
            Progress::Stopped(Want::End(_)) => Next::Asks(Call::Exit),
            Progress::Short | Progress::Moved => Next::Short,
        },
        Process::Waiting(_, call) => match call.clone() {
            Ok(copy) => Next::Asks(copy),
            Err(_) => Next::Short,
        },
        Process::Ended(_) => Next::Ended,
    }
}

/// Takes local steps of a process, at most so many, or tells the call that it asks or waits for.
/// The process is changed by nothing but the local steps that are told.
pub fn find_next(alloc: Global, process: &mut Process, most: u32) -> Next
    requires held { IsHeld process.old }
    requires some { 1 ≤ most }
    ensures next { IsNext (process_view process.old) most result (process_view process.new) }
    ensures held { IsHeld process.new }
{
    let (taken, progress) = local_steps(process, most);
    if taken > 0 {
        return Next::Moved(taken);
    }
    next_call(alloc, process, progress)
}
