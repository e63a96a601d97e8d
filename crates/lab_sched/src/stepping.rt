//! One step of one process: what it does next, and what the answer to its call makes of it.
ghost use Rattle.std.specs.Prelude.{◌≡◌, ◌<◌, ◌≤◌, length, IfOk, OnErr};
ghost use Rattle.lc3_machine.specs.Steps.{AreOwnSteps};
ghost use Rattle.lc3_machine.specs.declared.want.Want.TheVariants.{Trap, End};
ghost use Rattle.lab_sched.specs.Held.{process_view, HasStepped, IsHeld};
ghost use Rattle.lab_sched.specs.Private.Moved.{Steps};
ghost use Rattle.lab_sched.specs.LocalRun.{AreLocal};
ghost use Rattle.lab_sched.specs.Verdicts.{IsWaiting};
ghost use Rattle.lab_sched.specs.Worlds.{Waiting as WaitingSeen, machine_of};
ghost use Rattle.lab_sched.specs.Stepping.{CanTakeReply, IsAsked, MayWait, MayWaitIfAsked, StandsBefore, StopsBy, after_end, after_reply};

mod untold;

use crate::calling::{ask_with_room, give_reply, give_word};
use crate::{Process, Stepped};
use core::mem::replace_with;
use ipc_kernel::{Answer, Call, Kernel, Reply};
use ipc_traps::Asked;
use lc3_machine::{How, Progress, Want};
use std::alloc::{AllocError, Global};
pub(crate) use untold::advance;

/// Takes local steps of a process, at most so many; with how many were taken, and what kept a
/// running process from the next one. They are steps of its machine alone: no refusal is among them.
#[inline(always)]
pub fn local_steps(process: &mut Process, most: u32) -> (u32, Progress)
    requires held { IsHeld process.old }
    ensures local { AreLocal result.0 (process_view process.old) (process_view process.new) }
    ensures own { AreOwnSteps result.0
        (machine_of (process_view process.old)) (machine_of (process_view process.new)) }
    ensures held { IsHeld process.new }
    ensures within { result.0 ≤ most }
    ensures stops { result.0 < most → StopsBy (process_view process.new) result.1 }
{
    match process {
        Process::Running(running) => running.advance(most),
        Process::Waiting(_, _) | Process::Ended(_) => (0, Progress::Moved),
    }
}

fn waiting(process: Process, at: (u8, Call)) -> (Process, ())
    requires stands { StandsBefore (process_view process) (Trap at.0) }
    requires may { MayWait process at.1 }
    ensures waits { process_view result.0
        ≡ WaitingSeen (machine_of (process_view process)) at.1 }
    ensures held { IsHeld result.0 }
{
    match process {
        Process::Running(running) => (Process::Waiting(running.wait(at.0), at.1), ()),
        Process::Waiting(_, _) | Process::Ended(_) => unreachable!(),
    }
}

/// Lets a running process wait for the answer to the call that it makes by the trap with this vector.
#[inline(always)]
pub fn begin_wait(process: &mut Process, vector: u8, call: Call)
    requires stands { StandsBefore (process_view process.old) (Trap vector) }
    requires may { MayWait process.old call }
    ensures waits { process_view process.new
        ≡ WaitingSeen (machine_of (process_view process.old)) call }
    ensures held { IsHeld process.new }
{
    replace_with(process, (vector, call), waiting)
}

/// Reads the call that a process makes by the trap with this vector, which it stands before. It may
/// wait for the answer then, and there is room for each reply; a call that is refused without the
/// kernel is a local step, which it takes. An error is want of memory: nothing has changed.
pub fn ask_call(alloc: Global, process: &mut Process, vector: u8) -> Result<Asked, AllocError>
    requires stands { StandsBefore (process_view process.old) (Trap vector) }
    ensures asked { IfOk result
        (λ asked. IsAsked (process_view process.old) asked (process_view process.new)) }
    ensures may { IfOk result (λ asked. MayWaitIfAsked process.new asked) }
    ensures held { IsHeld process.new }
    ensures err { OnErr result (process_view process.new ≡ process_view process.old) }
{
    match process {
        Process::Running(running) => ask_with_room(alloc, running, vector),
        Process::Waiting(_, _) | Process::Ended(_) => unreachable!(),
    }
}

/// Gives a running process the reply to the call that it makes by the trap with this vector.
pub fn answer_call(process: &mut Process, vector: u8, reply: &Reply)
    requires stands { StandsBefore (process_view process.old) (Trap vector) }
    requires reply { CanTakeReply process.old reply.now }
    ensures told { process_view process.new ≡ after_reply (process_view process.old) reply.now }
    ensures held { IsHeld process.new }
{
    match process {
        Process::Running(running) => give_reply(running, vector, reply),
        Process::Waiting(_, _) | Process::Ended(_) => unreachable!(),
    }
}

#[inline(always)]
fn replied(process: Process, reply: &Reply) -> (Process, ())
    requires held { IsHeld process }
    requires waits { IsWaiting (process_view process) }
    requires reply { CanTakeReply process reply.now }
    ensures told { process_view result.0 ≡ after_reply (process_view process) reply.now }
    ensures held { IsHeld result.0 }
{
    match process {
        Process::Waiting(waiting, _) => {
            let vector = waiting.vector();
            let mut running = waiting.back();
            give_reply(&mut running, vector, reply);
            (Process::Running(running), ())
        }
        Process::Running(_) | Process::Ended(_) => unreachable!(),
    }
}

fn ended(process: Process, how: How) -> (Process, ())
    requires stands { StandsBefore (process_view process) (End how) }
    ensures ended { process_view result.0 ≡ after_end (process_view process) how }
    ensures held { IsHeld result.0 }
{
    match process {
        Process::Running(running) => (Process::Ended(running.end(how)), ()),
        Process::Waiting(_, _) | Process::Ended(_) => unreachable!(),
    }
}

/// Ends a process that stands before its end.
#[inline(always)]
pub fn end_process(process: &mut Process, how: How)
    requires stands { StandsBefore (process_view process.old) (End how) }
    ensures ended { process_view process.new ≡ after_end (process_view process.old) how }
    ensures held { IsHeld process.new }
{
    replace_with(process, how, ended)
}

#[inline(never)]
fn retry(process: &mut Process, kernel: &mut Kernel, pid: usize) -> Result<Stepped, AllocError>
    requires process { pid < length kernel.old.processes }
    requires held { IsHeld process.old }
    requires waits { IsWaiting (process_view process.old) }
    ensures steps { Steps kernel.old pid process.old result kernel.new process.new }
{
    match process {
        Process::Waiting(_, call) => match kernel.call(pid, call)? {
            Answer::Wait => Ok(Stepped::Same),
            Answer::Done(reply) => {
                replace_with(process, &reply, replied);
                Ok(Stepped::Called(reply))
            }
        },
        Process::Running(_) | Process::Ended(_) => unreachable!(),
    }
}

#[inline(always)]
fn step_trap(
    alloc: Global,
    process: &mut Process,
    vector: u8,
    kernel: &mut Kernel,
    pid: usize,
) -> Result<Stepped, AllocError>
    requires process { pid < length kernel.old.processes }
    requires stands { StandsBefore (process_view process.old) (Trap vector) }
    ensures steps { Steps kernel.old pid process.old result kernel.new process.new }
{
    match process {
        Process::Running(running) => match ask_with_room(alloc, running, vector)? {
            Asked::Kernel(call) => match kernel.call(pid, &call) {
                // A plain word is the reply of most calls.
                Ok(Answer::Done(Reply::Plain(word))) => {
                    give_word(running, word);
                    Ok(Stepped::Called(Reply::Plain(word)))
                }
                Ok(Answer::Done(reply)) => {
                    give_reply(running, vector, &reply);
                    Ok(Stepped::Called(reply))
                }
                Ok(Answer::Wait) => {
                    begin_wait(process, vector, call);
                    Ok(Stepped::Waits)
                }
                Err(e) => Err(e),
            },
            Asked::Refused(e) => Ok(Stepped::Refused(e)),
        },
        Process::Waiting(_, _) | Process::Ended(_) => unreachable!(),
    }
}

/// The step of a process that stands before its end. No process sees the reply of `Exit`.
fn step_end(
    process: &mut Process,
    how: How,
    kernel: &mut Kernel,
    pid: usize,
) -> Result<Stepped, AllocError>
    requires process { pid < length kernel.old.processes }
    requires held { IsHeld process.old }
    requires stands { StandsBefore (process_view process.old) (End how) }
    ensures steps { Steps kernel.old pid process.old result kernel.new process.new }
{
    let _ = kernel.call(pid, &Call::Exit)?;
    end_process(process, how);
    Ok(Stepped::Called(Reply::Plain(0)))
}

fn step_on(
    alloc: Global,
    process: &mut Process,
    progress: Progress,
    kernel: &mut Kernel,
    pid: usize,
) -> Result<Stepped, AllocError>
    requires process { pid < length kernel.old.processes }
    requires held { IsHeld process.old }
    requires stops { StopsBy (process_view process.old) progress }
    ensures steps { Steps kernel.old pid process.old result kernel.new process.new }
{
    match process {
        Process::Running(_) => match progress {
            Progress::Stopped(Want::Trap(vector)) => step_trap(alloc, process, vector, kernel, pid),
            Progress::Stopped(Want::End(how)) => step_end(process, how, kernel, pid),
            Progress::Short | Progress::Moved => Err(AllocError),
        },
        Process::Waiting(_, _) => retry(process, kernel, pid),
        Process::Ended(_) => Ok(Stepped::Same),
    }
}

/// Takes a step of process `pid`. Where memory is refused nothing has changed.
pub fn take_step(
    alloc: Global,
    process: &mut Process,
    kernel: &mut Kernel,
    pid: usize,
) -> Result<Stepped, AllocError>
    requires process { pid < length kernel.old.processes }
    requires held { IsHeld process.old }
    ensures ok { IfOk result
        (HasStepped kernel.old pid (process_view process.old) kernel.new
        (process_view process.new)) }
    ensures held { IsHeld process.new }
    ensures err { OnErr result (process_view process.new ≡ process_view process.old) }
    ensures kernel { OnErr result (kernel.new ≡ kernel.old) }
    ensures count { length kernel.new.processes ≡ length kernel.old.processes }
{
    let (taken, progress) = local_steps(process, 1);
    if taken == 1 {
        return Ok(Stepped::Moved);
    }
    step_on(alloc, process, progress, kernel, pid)
}
