//! Steps of which nobody is told what they were.
ghost use Rattle.std.specs.Prelude.{◌<◌, ◌≤◌, length, IfOk};
ghost use Rattle.lab_sched.specs.Held.{process_view, IsHeld};
ghost use Rattle.lab_sched.specs.Private.Moved.{Advances, Moves};
ghost use Rattle.lab_sched.specs.Stepping.{StopsBy};

use super::{begin_wait, local_steps, retry, step_end};
use crate::Process;
use crate::calling::go_on;
use ipc_kernel::Kernel;
use lc3_machine::{Progress, Want};
use std::alloc::{AllocError, Global};

/// The next step of a process that takes no local step, as `step_on` takes it; whether it had an
/// effect.
#[inline(always)]
fn move_on(
    alloc: Global,
    process: &mut Process,
    progress: Progress,
    kernel: &mut Kernel,
    pid: usize,
) -> Result<bool, AllocError>
    requires process { pid < length kernel.old.processes }
    requires held { IsHeld process.old }
    requires stops { StopsBy (process_view process.old) progress }
    ensures moves { Moves kernel.old pid process.old result kernel.new process.new }
{
    match process {
        Process::Running(running) => match progress {
            Progress::Stopped(Want::Trap(vector)) => match go_on(
                alloc, running, vector, kernel, pid,
            )? {
                None => Ok(true),
                Some(call) => {
                    begin_wait(process, vector, call);
                    Ok(true)
                }
            },
            Progress::Stopped(Want::End(how)) => Ok(step_end(
                process, how, kernel, pid,
            )?.has_moved()),
            Progress::Short | Progress::Moved => Err(AllocError),
        },
        Process::Waiting(_, _) => Ok(retry(process, kernel, pid)?.has_moved()),
        Process::Ended(_) => Ok(false),
    }
}

/// Takes local steps of a process up to its next call, and then the step of that call, or steps
/// without effect, at most `most` in all; with how many were taken.
#[inline(always)]
pub(crate) fn advance(
    alloc: Global,
    process: &mut Process,
    most: u32,
    kernel: &mut Kernel,
    pid: usize,
) -> Result<u32, AllocError>
    requires process { pid < length kernel.old.processes }
    requires held { IsHeld process.old }
    requires some { 1 ≤ most }
    ensures advances { Advances kernel.old pid process.old result kernel.new process.new }
    ensures some { IfOk result (λ taken. 1 ≤ taken) }
    ensures within { IfOk result (λ taken. taken ≤ most) }
{
    let (taken, progress) = local_steps(process, most);
    if taken == most {
        return Ok(taken);
    }
    match move_on(alloc, process, progress, kernel, pid) {
        Ok(true) => Ok(taken + 1),
        // a step without effect stands for all that are left
        Ok(false) => Ok(most),
        Err(e) => { if taken > 0 { Ok(taken) } else { Err(e) } }
    }
}
