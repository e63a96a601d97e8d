//! Runs on threads, and what they report.
ghost use Rattle.std.specs.Prelude.{◌≡◌, ◌≤◌, ◌+◌, List, All, true, IfOk, map, length, sum, ◌++◌, ◌^◌, ◌<◌, IfSome, OnOk, slice_index, replicate};
ghost use Rattle.ipc_kernel.specs.Kernel.{empty_kernel};
ghost use Rattle.ipc_kernel.specs.Limits.{process_max};
ghost use Rattle.lab_sched.specs.Worlds.{HaveOneProfile, run, entries};
ghost use Rattle.lab_sched.specs.Execution.{AreEffective};
ghost use Rattle.lab_sched.specs.Finished.{IsFinished};
ghost use Rattle.lab_sched.specs.Held.{process_view, IsHeld};
ghost use Rattle.lab_sched.specs.History.{IsLegal, replay};
ghost use Rattle.lab_sched.specs.Schedules.{steps_of, total_of, most_steps};
ghost use Rattle.lab_sched.specs.Starts.{initial_world};
ghost use Rattle.lab_sched.specs.Verdicts.{IsVerdict};
ghost use Rattle.lab_sched.specs.declared.process.Process.{Process as ProcessValue};
ghost use Rattle.lab_threads.specs.Limits.{most_steps_each};
ghost use Rattle.lab_threads.specs.Private.WorkerResults.{AreWorkerResults};
ghost use Rattle.lab_threads.specs.Private.Merged.{LeadToResults, IsFound, IsItem, AreCallsMerged, CompletesMerge};
ghost use Rattle.lab_threads.specs.Private.Reported.{IsReportFrom};
ghost use Rattle.lab_threads.specs.declared.reports.RunFault.TheVariants.{NoMemory};

use crate::monitor::Monitor;
use crate::spawning::{WorkerResult, run_workers};
use crate::{Book, Gate};
use ipc_kernel::Kernel;
use lab_sched::{Entry, Fresh, MOST_STEPS, Process, Schedule, TracedCall, Verdict, World};
use std::alloc::{AllocError, Global};
use std::sync::Wait;
use std::thread::Threads;
use thiserror::Error;

/// One interleaving of the steps of all processes, the history of its calls, the world that it
/// leads to, and how that world stands.
pub struct Report {
    pub world: World,
    pub schedule: Schedule,
    pub history: Vec<Entry>,
    pub verdict: Verdict,
}

impl Drop for Report {
    fn drop(self) {
        let Report {
            world: _,
            schedule: _,
            history: _,
            verdict: _,
        } = self;
    }
}

fn ends(alloc: Global, workers: Vec<WorkerResult>) -> Result<Vec<Process>, AllocError>
    ensures processes { IfOk result (λ v. v.items ≡ map (λ k. k.process) workers.items) }
{
    workers
        .into_iter()
        .map(|worker| worker.process)
        .collect(alloc)
}

fn has_room(schedule: &Schedule, left: &[u32]) -> bool
    ensures room { result ≡ true → total_of schedule.now + sum left.now ≤ most_steps }
{
    let mut room = MOST_STEPS - schedule.total();
    for steps in left {
        if *steps > room {
            return false;
        }
        room -= *steps;
    }
    true
}

fn merge_workers(
    alloc: Global,
    workers: &[WorkerResult],
    history: &[Entry],
) -> Result<(Schedule, Vec<u32>), RunFault>
    requires few { length workers.now ≤ process_max }
    ensures merged { IfOk result (λ r. LeadToResults workers.now history.now (steps_of r.0)) }
    ensures left { IfOk result (λ r. r.1.items ≡ map (λ k. k.left) workers.now) }
    ensures room { IfOk result (λ r. total_of r.0 + sum r.1.items ≤ most_steps) }
{
    if !workers.iter().all(|worker| worker.fits) {
        return Err(RunFault::Unvouched);
    }
    let left: Vec<u32> = workers.iter().map(|worker| worker.left).collect(alloc)?;
    let (merged, next) = merge_calls(alloc, workers, history)?;
    let schedule = merge_ends(workers, merged, &next)?;
    if !has_room(&schedule, &left) {
        return Err(RunFault::Unvouched);
    }
    Ok((schedule, left))
}

/// The report of a run whose workers brought back these results, once all has gone on that has
/// steps left.
fn report_of_workers(
    alloc: Global,
    workers: Vec<WorkerResult>,
    kernel: Kernel,
    mut history: Vec<Entry>,
    limit: u32,
) -> Result<Report, RunFault>
    requires legal { IsLegal (empty_kernel (length kernel.processes)) history.items }
    requires kernel { kernel ≡ replay (empty_kernel (length kernel.processes)) history.items }
    requires held { All IsHeld (map (λ k. k.process) workers.items) }
    requires profile { HaveOneProfile (map process_view (map (λ k. k.process) workers.items)) }
    requires some { 1 ≤ length workers.items }
    requires few { length workers.items ≤ process_max }
    ensures execution { IfOk result (λ r. (starts : List ProcessValue)
        → AreWorkerResults limit starts workers.items
        → IsReportFrom (initial_world starts) r) }
    ensures finished { IfOk result (λ r. (starts : List ProcessValue)
        → AreWorkerResults limit starts workers.items
        → IsFinished r.world (steps_of r.schedule) limit) }
    ensures verdict { IfOk result (λ r. IsVerdict r.world r.verdict) }
{
    if kernel.count() != workers.len() {
        return Err(RunFault::Unvouched);
    }
    let (mut schedule, mut left) = merge_workers(alloc, &workers, &history)?;
    let mut world = World::join(ends(alloc, workers)?, kernel);
    if world.settle(&mut left, &mut schedule, &mut history) != 0 {
        return Err(RunFault::NoMemory);
    }
    let verdict = world.verdict();
    Ok(Report {
        world,
        schedule,
        history,
        verdict,
    })
}

/// Runs each process of a laboratory on a thread of its own, for at most `limit` steps, over one
/// kernel under a lock, and reports one interleaving that leads to its end: each step of the
/// schedule is effective, they lead from the laboratory's start to the world with the history's
/// entries, and no process could go on but those that have taken `limit` steps.
pub fn run_threads<R: Threads + Wait + Sync, G: Gate>(
    rt: &R,
    alloc: Global,
    fresh: Fresh,
    limit: u32,
    gate: &G,
) -> Result<Report, RunFault>
    requires at_least { 1 ≤ limit }
    requires at_most { limit ≤ most_steps_each }
    ensures effective { IfOk result (λ r. AreEffective fresh (steps_of r.schedule)) }
    ensures world { IfOk result (λ r. run fresh (steps_of r.schedule) ≡ r.world) }
    ensures history { IfOk result (λ r. entries fresh (steps_of r.schedule) ≡ r.history.items) }
    ensures legal { IfOk result
        (λ r. IsLegal (empty_kernel (length fresh.processes)) r.history.items) }
    ensures kernel { IfOk result
        (λ r. r.world.kernel ≡ replay (empty_kernel (length fresh.processes)) r.history.items) }
    ensures finished { IfOk result (λ r. IsFinished r.world (steps_of r.schedule) limit) }
    ensures verdict { IfOk result (λ r. IsVerdict r.world r.verdict) }
{
    let starts = fresh.processes();
    let monitor = Monitor::new(alloc, Book::new(alloc, starts.len())?)?;
    let workers = run_workers(rt, alloc, &monitor, gate, starts, limit)?;
    let (kernel, history) = monitor.into_book().into_parts();
    report_of_workers(alloc, workers, kernel, history, limit)
}

/// The number of local steps before the call that stands there, if it is the entry's.
fn find(calls: &[TracedCall], at: usize, entry: &Entry) -> Option<u32>
    ensures found { IfSome result (λ n. IsFound calls.now at entry.now n) }
    ensures within { IfSome result (λ n. at < length calls.now) }
    ensures few { IfSome result (λ n. n + 1 < 2 ^ 32) }
{
    let told = calls.get(at)?;
    if told.before < u32::MAX && told.call == entry.call && told.answer == entry.answer {
        Some(told.before)
    } else {
        None
    }
}

/// The number of local steps before the next call of the entry's process, if that call is the
/// entry's.
fn item(workers: &[WorkerResult], next: &[usize], entry: &Entry) -> Option<u32>
    requires len { length next.now ≡ length workers.now }
    ensures item { IfSome result (λ n. IsItem workers.now next.now entry.now n) }
    ensures few { IfSome result (λ n. n + 1 < 2 ^ 32) }
    ensures within { IfSome result (λ n. entry.now.pid < length next.now) }
    ensures fits { IfSome result (λ n. slice_index next.now entry.now.pid + 1 < 2 ^ 64) }
{
    if entry.pid >= workers.len() {
        return None;
    }
    let calls = workers[entry.pid].trace.calls.as_slice();
    find(calls, next[entry.pid], entry)
}

/// Adds steps of a process to a schedule that has room for them.
fn add(schedule: &mut Schedule, pid: usize, n: u32) -> Result<(), RunFault>
    requires process { pid < process_max }
    ensures steps { OnOk result (steps_of schedule.new ≡ steps_of schedule.old ++ replicate n pid) }
{
    if n == 0 {
        return Ok(());
    }
    if n > MOST_STEPS - schedule.total() {
        return Err(RunFault::Unvouched);
    }
    Ok(schedule.push(pid, n)?)
}

/// The calls of a history with the local steps before each, and how many each process has. There is no such merge where they
/// aren't the traces', or where the steps are too many for a schedule.
fn merge_calls(
    alloc: Global,
    workers: &[WorkerResult],
    history: &[Entry],
) -> Result<(Schedule, Vec<usize>), RunFault>
    requires few { length workers.now ≤ process_max }
    ensures merged { IfOk result
        (λ b. AreCallsMerged workers.now history.now b.1.items (steps_of b.0)) }
    ensures len { IfOk result (λ b. length b.1.items ≡ length workers.now) }
{
    let mut schedule = Schedule::new(alloc);
    let mut next: Vec<usize> = vec![in alloc; 0; workers.len()]?;
    for entry in history {
        let Some(before) = item(workers, &next, entry) else {
            return Err(RunFault::Unvouched);
        };
        add(&mut schedule, entry.pid, before + 1)?;
        next[entry.pid] += 1;
    }
    Ok((schedule, next))
}

/// Adds the local steps after the last call of each trace, where no trace has a call left.
fn merge_ends(
    workers: &[WorkerResult],
    mut schedule: Schedule,
    next: &[usize],
) -> Result<Schedule, RunFault>
    requires few { length workers.now ≤ process_max }
    requires len { length next.now ≡ length workers.now }
    ensures merged { IfOk result (λ s.
        CompletesMerge workers.now next.now (steps_of schedule) (steps_of s)) }
{
    for pid in 0..workers.len() {
        let trace = &workers[pid].trace;
        if next[pid] != trace.calls.len() {
            return Err(RunFault::Unvouched);
        }
        add(&mut schedule, pid, trace.after)?;
    }
    Ok(schedule)
}

/// Why a run on threads has no report.
#[derive(Clone, Copy, Debug, PartialEq, Eq, Error)]
pub enum RunFault {
    /// Memory was refused.
    #[error("out of memory")]
    NoMemory,
    /// A worker met a book that its call doesn't fit, or what the workers did doesn't agree with
    /// the history.
    #[error("Unvouched")]
    Unvouched,
    /// A thread couldn't be started.
    #[error("Spawn")]
    Spawn,
}

impl From<AllocError> for RunFault {
    ghost from_gives = { λ _ e. e ≡ NoMemory };

    fn from(_refused: AllocError) -> RunFault {
        RunFault::NoMemory
    }
}
