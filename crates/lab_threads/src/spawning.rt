//! How the workers are started, each on a thread of its own, and joined.
ghost use Rattle.std.specs.Prelude.{IfOk, ◌≡◌, ◌≤◌, ◌<◌, ◌+◌, ◌^◌, vec_len, vec_capacity};
ghost use Rattle.lab_threads.specs.Private.CallOutcome.{IsCallOutcome};
ghost use Rattle.lab_threads.specs.Private.Promised.{ArePromised};
ghost use Rattle.lab_threads.specs.Private.WorkerResults.{AreWorkerResults, IsWorkerResult};
ghost use Rattle.lc3_machine.specs.declared.want.Want.TheVariants.{Trap};
ghost use Rattle.lab_sched.specs.Held.{process_view, IsHeld};
ghost use Rattle.lab_sched.specs.LocalRun.{AreLocal, TakesAnswer};
ghost use Rattle.lab_sched.specs.Worlds.{Process as Seen};
ghost use Rattle.lab_sched.specs.Stepping.{MayWait, StandsBefore};
ghost use Rattle.lab_sched.specs.Verdicts.{IsRunning};
ghost use Rattle.lab_threads.specs.declared.spawning.Continuation.TheVariants.{GoesOn};
ghost use Rattle.lab_threads.specs.Private.WorkerLogs.{LeadsOn, allowance};

use crate::book::clone_of;
use crate::monitor::{CallOutcome, Monitor};
use crate::{Gate, RunFault};
use ipc_kernel::{Answer, Call};
use ipc_traps::Asked;
use lab_sched::{Process, Trace, answer_call, ask_call, begin_wait, end_process, local_steps};
use lc3_machine::{Progress, Want};
use std::alloc::Global;
use std::snapshot::Snapshot;
use std::sync::Wait;
use std::thread;
use std::thread::{Promise, PromisedHandle, Scope, Threads};

/// Starts a worker for each process. Where one can't be started, those that were not started count
/// as there, and as stopped.
fn spawn_all<'s, E, R: Threads + Wait + Sync, G: Gate>(
    scope: &Scope<'s, E>,
    rt: &'s R,
    alloc: Global,
    monitor: &'s Monitor,
    gate: &'s G,
    mut starts: Vec<Process>,
    limit: u32,
) -> Result<Vec<PromisedHandle<WorkerResult, WorkerPromise>>, RunFault>
    ensures promised { IfOk result (λ hs. ArePromised limit starts.items hs.items) }
{
    let count = starts.len();
    let mut handles = Vec::with_capacity(alloc, count)?;
    let mut pid = 0;
    while !starts.is_empty() {
        let start = starts.remove(0);
        let promise = WorkerPromise {
            start: Snapshot::of(&start),
            limit,
        };
        let worker = move || {
            let context = WorkerContext {
                rt,
                alloc,
                monitor,
                gate,
                pid,
            };
            work(context, start, limit)
        };
        let Ok(handle) = scope.spawn_with(promise, worker) else {
            for _ in pid..count {
                monitor.stop_missing(rt);
            }
            return Err(RunFault::Spawn);
        };
        handles.push_reserved(handle);
        pid += 1;
    }
    Ok(handles)
}

pub(crate) fn run_workers<R: Threads + Wait + Sync, G: Gate>(
    rt: &R,
    alloc: Global,
    monitor: &Monitor,
    gate: &G,
    starts: Vec<Process>,
    limit: u32,
) -> Result<Vec<WorkerResult>, RunFault>
    ensures results { IfOk result (λ ws. AreWorkerResults limit starts.items ws.items) }
{
    thread::scope(
        thread::scope_env(),
        rt,
        |scope| -> Result<Vec<WorkerResult>, RunFault>
            ensures results { IfOk result (λ ws. AreWorkerResults limit starts.items ws.items) }
        {
            let handles = spawn_all(scope, rt, alloc, monitor, gate, starts, limit)?;
            match thread::join_promised(rt, handles) {
                Ok(workers) => Ok(workers),
                Err(_) => Err(RunFault::NoMemory),
            }
        },
    )
}

/// What a worker has at hand.
#[derive(Drop)]
struct WorkerContext<'s, R, G> {
    rt: &'s R,
    alloc: Global,
    monitor: &'s Monitor,
    gate: &'s G,
    pid: usize,
}

impl<R: Wait, G: Gate> WorkerContext<'_, R, G> {
    /// Makes the next call of the process, once it has passed the gate. `nth` counts the calls.
    fn call(&self, call: &Call, may_wait: bool, nth: &mut u32) -> CallOutcome
        ensures outcome { IsCallOutcome call.now may_wait result }
    {
        *nth = nth.saturating_add(1);
        self.gate.arrive(self.pid, *nth);
        self.monitor.call(self.rt, self.pid, call, may_wait)
    }
}

#[derive(Clone, Copy, PartialEq, Eq)]
enum Continuation {
    /// It does, as far as its process can.
    GoesOn,
    /// It stops: memory was refused.
    Stops,
    /// It stops: the book doesn't fit its call.
    Misfits,
}

/// Writes down local steps of a process. The gate is passed after the first one since a call.
fn write_local<R, G: Gate>(context: &WorkerContext<'_, R, G>, log: &mut WorkerLog, count: u32)
    requires left { count ≤ log.old.left }
    requires few { allowance log.old < 2 ^ 32 }
    ensures alone { (x y : Seen) → AreLocal count x y → LeadsOn log.old x log.new y }
    ensures allowed { allowance log.new ≡ allowance log.old }
{
    if log.is_at_call() {
        context.gate.arrive(context.pid, 0);
    }
    log.trace.add_local(count);
    log.left -= count;
}

/// Takes local steps of a running process, one where it comes from a call, or else all up to its
/// next call; or makes its next call, or ends it.
fn advance<R: Wait, G: Gate>(
    context: &WorkerContext<'_, R, G>,
    process: &mut Process,
    log: &mut WorkerLog,
) -> Continuation
    requires runs { IsRunning (process_view process.old) }
    requires some { 0 < log.old.left }
    requires few { allowance log.old < 2 ^ 32 }
    ensures alone { LeadsOn log.old (process_view process.old) log.new (process_view process.new) }
    ensures held { IsHeld process.new }
    ensures allowed { allowance log.new ≡ allowance log.old }
{
    let most = if log.is_at_call() { 1 } else { log.left };
    let (taken, progress) = local_steps(process, most);
    if taken > 0 {
        write_local(context, log, taken);
        return Continuation::GoesOn;
    }
    if log.trace.reserve().is_err() {
        return Continuation::Stops;
    }
    match progress {
        Progress::Stopped(Want::Trap(vector)) => match ask_call(context.alloc, process, vector) {
            Ok(Asked::Kernel(call)) => make_call(context, process, vector, call, log),
            Ok(Asked::Refused(_)) => {
                write_local(context, log, 1);
                Continuation::GoesOn
            }
            Err(_) => Continuation::Stops,
        },
        Progress::Stopped(Want::End(how)) => match context.call(
            &Call::Exit,
            false,
            &mut log.calls,
        ) {
            CallOutcome::Answered(reply) => {
                end_process(process, how);
                log.add_call(Call::Exit, Answer::Done(reply));
                Continuation::GoesOn
            }
            CallOutcome::NoMemory => Continuation::Stops,
            _ => Continuation::Misfits,
        },
        Progress::Short | Progress::Moved => Continuation::Stops,
    }
}

/// Makes the call of a process that stands before its trap, gives it the reply or lets it wait, and
/// writes down what came of it. Where the call isn't made nothing changes.
fn make_call<R: Wait, G: Gate>(
    context: &WorkerContext<'_, R, G>,
    process: &mut Process,
    vector: u8,
    call: Call,
    log: &mut WorkerLog,
) -> Continuation
    requires stands { StandsBefore (process_view process.old) (Trap vector) }
    requires may { MayWait process.old call }
    requires held { IsHeld process.old }
    requires some { 0 < log.old.left }
    requires room { vec_len log.old.trace.calls + 2 ≤ vec_capacity log.old.trace.calls }
    ensures alone { LeadsOn log.old (process_view process.old) log.new (process_view process.new) }
    ensures held { IsHeld process.new }
    ensures step { result ≡ GoesOn → log.new.left < log.old.left }
    ensures allowed { allowance log.new ≡ allowance log.old }
{
    let Ok(copy) = clone_of(&call) else {
        return Continuation::Stops;
    };
    let may_wait = log.left > 1;
    match context.call(&call, may_wait, &mut log.calls) {
        CallOutcome::NoMemory => Continuation::Stops,
        CallOutcome::Rejected => Continuation::Misfits,
        CallOutcome::Blocked { fits } => {
            begin_wait(process, vector, call);
            log.add_call(copy, Answer::Wait);
            if fits {
                Continuation::GoesOn
            } else {
                Continuation::Misfits
            }
        }
        CallOutcome::Answered(reply) => {
            answer_call(process, vector, &reply);
            log.add_call(call, Answer::Done(reply));
            Continuation::GoesOn
        }
        CallOutcome::AnsweredAfterWait(reply) => {
            answer_call(process, vector, &reply);
            log.add_call(copy, Answer::Wait);
            log.add_call(call, Answer::Done(reply));
            Continuation::GoesOn
        }
    }
}

/// The work of a thread: when all workers are there it steps its process until this has ended, waits
/// for good, has taken `limit` steps or was refused memory, or its call doesn't fit the book, and then
/// tells the others that it has stopped.
fn work<R: Wait, G: Gate>(
    context: WorkerContext<'_, R, G>,
    start: Process,
    limit: u32,
) -> WorkerResult
    ensures result { IsWorkerResult limit start result }
{
    let mut process = start;
    let mut log = WorkerLog {
        trace: Trace::new(context.alloc),
        left: limit,
        calls: 0,
    };
    context.monitor.meet(context.rt);
    let mut went = Continuation::GoesOn;
    for _ in context.rt.forever() {
        if log.left == 0 || went != Continuation::GoesOn {
            break;
        }
        went = match process {
            Process::Running(_) => advance(&context, &mut process, &mut log),
            Process::Waiting(..) | Process::Ended(_) => break,
        };
    }
    context.monitor.stop(context.rt);
    let WorkerLog { trace, left, .. } = log;
    WorkerResult {
        process,
        trace,
        left,
        fits: went != Continuation::Misfits,
    }
}

/// The trace of a worker's process, how many steps it may still take, and how many calls it has
/// come to.
#[derive(Drop)]
struct WorkerLog {
    pub trace: Trace,
    pub left: u32,
    pub calls: u32,
}

impl WorkerLog {
    /// Whether the next local step is the first since the last call.
    pub(crate) fn is_at_call(&self) -> bool {
        self.trace.after == 0
    }

    pub(crate) fn add_call(&mut self, call: Call, answer: Answer)
        requires left { 0 < self.old.left }
        requires room { vec_len self.old.trace.calls < vec_capacity self.old.trace.calls }
        ensures alone { (x y : Seen) → TakesAnswer x call answer y
            → LeadsOn self.old x self.new y }
        ensures allowed { allowance self.new ≡ allowance self.old }
        ensures left { self.new.left + 1 ≡ self.old.left }
        ensures len { vec_len self.new.trace.calls ≡ vec_len self.old.trace.calls + 1 }
        ensures room { vec_capacity self.new.trace.calls ≡ vec_capacity self.old.trace.calls }
    {
        self.trace.add_call(call, answer);
        self.left -= 1;
    }
}

/// A process where its worker stopped, what it did, and how many steps it has left. `fits` is false
/// where the worker met a book that its call doesn't fit.
#[derive(Drop)]
pub(crate) struct WorkerResult {
    pub process: Process,
    pub trace: Trace,
    pub left: u32,
    pub fits: bool,
}

/// The promise of a worker: where its process began, and how many steps it may take.
#[derive(Drop)]
struct WorkerPromise {
    pub start: Snapshot<Process>,
    pub limit: u32,
}

impl Promise<WorkerResult> for WorkerPromise {
    ghost kept_by = { λ p w. IsWorkerResult p.limit p.start.value w };
}
