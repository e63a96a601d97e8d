//! The local steps of a process, up to its next call.
ghost use Rattle.std.specs.Prelude.{◌≡◌, ◌≤◌, IsTrue, IfOk, false};
ghost use Rattle.lab_worlds.specs.Errors.{AreLocalAmong};
ghost use Rattle.lab_worlds.specs.Private.Onward.{IsOnward, IsRefusedWith, IsStopped};
ghost use Rattle.lab_sched.specs.Stepping.{StopsBy};
ghost use Rattle.std.specs.Prelude.{ℕ};
ghost use Rattle.lab_sched.specs.Held.{process_view, IsHeld};
ghost use Rattle.lab_sched.specs.LocalRun.{AreLocal};
ghost use Rattle.lab_worlds.specs.Calls.{IsAtCall, AreAlike};
ghost use Rattle.lab_sched.specs.Stepping.{before_wait};

use crate::errors::Errors;
use ipc_store::is_alike;
use ipc_traps::{Asked, read_by_vector};
use lab_sched::{Next, Process, World, find_next, local_steps};
use lc3_machine::{Progress, Want};
use std::alloc::{AllocError, Global};

/// A process after so many local steps, of which those that are refused have these errors. Where it isn't
/// at a call, it has more.
#[derive(Drop)]
pub struct Ahead {
    pub process: Process,
    pub taken: u32,
    pub errors: Errors,
    pub at_call: bool,
}

/// What came of a process that runs.
#[derive(Clone, Copy)]
pub struct Ran {
    pub taken: u32,
    pub errors: Errors,
    pub at_call: bool,
}

/// What a process does by itself.
#[derive(Clone, Copy)]
pub enum Onward {
    /// So many steps of its own, at least one.
    Moved(u32),
    /// A step by which its call is refused with the error of this number, before the kernel is asked.
    Refused(u16),
    /// Nothing: it is at a call.
    AtCall,
}

/// The number of the error with which the call of a process is refused before the kernel is asked, if it
/// is, by what keeps the process from a step of its own. An error is want of memory.
#[tactic(auto, using(crate::proofs::ErrorLemmas::refused_with, crate::proofs::ErrorLemmas::call_asked, crate::proofs::ErrorLemmas::end_asked))]
fn refusal_of(
    alloc: Global,
    process: &Process,
    progress: Progress,
) -> Result<Option<u16>, AllocError>
    requires stops { StopsBy (process_view process.now) progress }
    ensures stopped { IfOk result (IsStopped (process_view process.now)) }
{
    match process {
        Process::Running(running) => match progress {
            Progress::Stopped(Want::Trap(vector)) => {
                match read_by_vector(alloc, running.machine(), vector)? {
                    Asked::Kernel(_) => Ok(None),
                    Asked::Refused(error) => Ok(Some(error.number())),
                }
            }
            Progress::Stopped(Want::End(_)) => Ok(None),
            Progress::Short | Progress::Moved => Err(AllocError),
        },
        Process::Waiting(_, _) | Process::Ended(_) => Ok(None),
    }
}

/// Takes the step by which the call of a process is refused with the error of a number.
fn refuse(alloc: Global, process: &mut Process, number: u16) -> Result<Onward, AllocError>
    requires held { IsHeld process.old }
    requires refused { IsRefusedWith number (process_view process.old) }
    ensures onward { IfOk result (λ o. (most : ℕ) → 1 ≤ most
        → IsOnward (process_view process.old) most o (process_view process.new)) }
    ensures held { IsHeld process.new }
{
    match find_next(alloc, process, 1) {
        Next::Moved(_) => Ok(Onward::Refused(number)),
        Next::Asks(_) | Next::Ended => Ok(Onward::AtCall),
        Next::Short => Err(AllocError),
    }
}

/// Takes steps of a process's own, at most so many, or the one by which its call is refused, or tells
/// that it is at a call. An error is want of memory.
fn go_onward(alloc: Global, process: &mut Process, most: u32) -> Result<Onward, AllocError>
    requires held { IsHeld process.old }
    requires some { 1 ≤ most }
    ensures onward { IfOk result
        (λ o. IsOnward (process_view process.old) most o (process_view process.new)) }
    ensures held { IsHeld process.new }
{
    let (taken, progress) = local_steps(process, most);
    if taken > 0 {
        return Ok(Onward::Moved(taken));
    }
    match refusal_of(alloc, process, progress)? {
        Some(number) => refuse(alloc, process, number),
        None => Ok(Onward::AtCall),
    }
}

/// Takes local steps of a process up to its next call, or as many as it may take. An error is want
/// of memory.
pub(crate) fn run_on(alloc: Global, process: &mut Process, most: u32) -> Result<Ran, AllocError>
    requires held { IsHeld process.old }
    ensures local { IfOk result
        (λ r. AreLocal r.taken (process_view process.old) (process_view process.new)) }
    ensures errors { IfOk result (λ r.
        AreLocalAmong r.errors r.taken (process_view process.old) (process_view process.new)) }
    ensures at_call { IfOk result (λ r. IsTrue r.at_call → IsAtCall (process_view process.new)) }
    ensures held { IsHeld process.new }
    ensures within { IfOk result (λ r. r.taken ≤ most) }
    ensures long { IfOk result (λ r. r.at_call ≡ false → r.taken ≡ most) }
{
    let mut taken = 0;
    let mut errors = Errors::No;
    while taken < most {
        match go_onward(alloc, process, most - taken)? {
            Onward::Moved(more) => taken += more,
            Onward::Refused(number) => {
                taken += 1;
                errors = errors.and(Errors::Only(number));
            }
            Onward::AtCall => return Ok(Ran {
                taken,
                errors,
                at_call: true,
            }),
        }
    }
    Ok(Ran {
        taken,
        errors,
        at_call: false,
    })
}

/// A process at its next call, or after as many local steps as it may take. An error is want of
/// memory.
pub fn advance(alloc: Global, mut process: Process, most: u32) -> Result<Ahead, AllocError>
    requires held { IsHeld process }
    ensures local { IfOk result
        (λ a. AreLocal a.taken (process_view process) (process_view a.process)) }
    ensures errors { IfOk result
        (λ a. AreLocalAmong a.errors a.taken (process_view process) (process_view a.process)) }
    ensures at_call { IfOk result (λ a. IsTrue a.at_call → IsAtCall (process_view a.process)) }
    ensures held { IfOk result (λ a. IsHeld a.process) }
    ensures within { IfOk result (λ a. a.taken ≤ most) }
    ensures long { IfOk result (λ a. a.at_call ≡ false → a.taken ≡ most) }
{
    if !matches!(process, Process::Running(_)) {
        return Ok(Ahead {
            process,
            taken: 0,
            errors: Errors::No,
            at_call: true,
        });
    }
    let Ran {
        taken,
        errors,
        at_call,
    } = run_on(alloc, &mut process, most)?;
    Ok(Ahead {
        process,
        taken,
        errors,
        at_call,
    })
}

/// A copy of a process, as it was before it began to wait.
pub fn copy_before_wait(alloc: Global, process: &Process) -> Result<Process, AllocError>
    ensures before { IfOk result
        (λ copy. process_view copy ≡ before_wait (process_view process.now)) }
{
    Ok(match process {
        Process::Running(running) => Process::Running(running.copy(alloc)?),
        Process::Waiting(waiting, _) => Process::Running(waiting.copy(alloc)?.back()),
        Process::Ended(ended) => Process::Ended(ended.copy(alloc)?),
    })
}

/// Whether worlds have the same processes, over kernels that are alike.
pub fn are_alike(world: &World, other: &World) -> bool
    ensures alike { IsTrue result → AreAlike world.now other.now }
{
    if world.count() != other.count() || !is_alike(world.kernel(), other.kernel()) {
        return false;
    }
    for pid in 0..world.count() {
        let (Some(one), Some(two)) = (world.process(pid), other.process(pid)) else {
            return false;
        };
        if !one.is_same(two) {
            return false;
        }
    }
    true
}
