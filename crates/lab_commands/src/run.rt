//! The command `run`.
ghost use Rattle.std.specs.Prelude.{◌≡◌, ◌≤◌, ℕ, List, false, IfOk, OnOk, ◌++◌, string_bytes};
ghost use Rattle.std.specs.Io.KnownBytes.{Appends};
ghost use Rattle.lab_sched.specs.Worlds.{run};
ghost use Rattle.lab_sched.specs.Schedules.{steps_of};
ghost use Rattle.lab_commands.specs.Runs.{run_bytes, IsToldRun};
ghost use Rattle.lab_threads.specs.Limits.{most_steps_each};
ghost use Rattle.lab_commands.specs.Plain.{name_line, plain_part, plain_output};

use crate::complaint::{At, Complaint};
use crate::files::write_bytes;
use crate::job::{CallCount, Job, Progress};
use crate::programs::{Programs, laboratory};
use lab_arguments::{MOST_STEPS_EACH, Manner};
use lab_io::Output;
use lab_places::{Numbered, placed};
use lab_sched::{Fresh, World};
use lab_texts::report_text;
use lab_threads::{Gate, NoGate, PausingGate, Report, RunFault, run_threads};
use lc3_table::Profile;
use std::alloc::{AllocError, Global};
use std::io::Write;
use std::sync::Wait;
use std::thread::Threads;
use std::time::Clock;

/// Runs programs that were given on threads, and writes the report and the schedule of an interleaving that leads to it, with where
/// processes stand in their sources; gives both.
pub fn run_given<T: Threads + Wait + Clock + Sync, W: Write, P: Progress>(
    job: &Job<'_, T, P>,
    given: &Programs,
    profile: Profile,
    manner: Manner<'_>,
    output: &mut Output<W>,
) -> Result<Report, Complaint<'static>>
    requires output_healthy { output.old.failed ≡ false }
    ensures told { OnOk result ((bytes : List ℕ)
        × IsToldRun profile manner.entry.plain bytes
        × Appends (W.contents output.old.device) (W.contents output.new.device) bytes) }
{
    let fresh = laboratory(job.alloc, given.programs.as_slice(), profile)?;
    let report = run_fresh(job, fresh, manner)?;
    let sources = given.numbered(job.alloc)?;
    write_bytes(
        &bytes_of(job.alloc, &sources, &report, manner.plain)?,
        output,
    )?;
    Ok(report)
}

/// Runs the programs of a laboratory on threads, each for [`MOST_STEPS_EACH`] steps at most. With a seed, workers pause before
/// calls.
fn run_fresh<T: Threads + Wait + Clock + Sync, P: Progress>(
    job: &Job<'_, T, P>,
    fresh: Fresh,
    manner: Manner<'_>,
) -> Result<Report, Complaint<'static>>
    ensures world { IfOk result (λ r. run fresh (steps_of r.schedule) ≡ r.world) }
{
    let limit = manner.limit.clamp(1, MOST_STEPS_EACH);
    let outcome = match manner.mix {
        None => report_of(job, fresh, limit, &NoGate),
        Some(seed) => report_of(job, fresh, limit, &PausingGate::new(job.rt, seed)),
    };
    outcome.at(job.alloc, "run")
}

/// The report on a run, with where processes stand in these sources, and a line with its schedule; and, where that is `plain`,
/// behind these what the processes have written, as it is.
fn bytes_of(
    alloc: Global,
    sources: &[Option<Numbered<'_>>],
    report: &Report,
    plain: bool,
) -> Result<Vec<u8>, AllocError>
    ensures bytes { IfOk result (λ bytes. bytes.items
        ≡ run_bytes sources.now plain report.now.world report.now.schedule) }
{
    let mut text = report_text(alloc, &report.world)?;
    let schedule = report.schedule.text(alloc)?;
    text.push_str("schedule")?;
    if !schedule.is_empty() {
        text.push(' ')?;
        text.push_str(&schedule)?;
    }
    text.push_str("\n")?;
    let mut bytes = placed(alloc, sources, text.as_bytes())?;
    if plain {
        bytes.extend_from_slice(&plain_output(alloc, &report.world)?)?;
    }
    Ok(bytes)
}

/// The report on a run through this gate, which shows meanwhile how many calls were made.
fn report_of<T: Threads + Wait + Sync, G: Gate, P: Progress>(
    job: &Job<'_, T, P>,
    fresh: Fresh,
    limit: u32,
    gate: &G,
) -> Result<Report, RunFault>
    requires at_least { 1 ≤ limit }
    requires at_most { limit ≤ most_steps_each }
    ensures world { IfOk result (λ r. run fresh (steps_of r.schedule) ≡ r.world) }
{
    let count = CallCount::new(job.alloc, job.progress, gate);
    let outcome = run_threads(job.rt, job.alloc, fresh, limit, &count);
    count.clear();
    outcome
}

fn name_line(alloc: Global, count: usize, pid: usize) -> Result<String, AllocError>
    ensures text { IfOk result (λ s. string_bytes s ≡ name_line count pid) }
{
    if count > 1 {
        format!(in alloc; "process {pid}\n")
    } else {
        Ok(String::new(alloc))
    }
}

fn push_process(
    alloc: Global,
    bytes: &mut Vec<u8>,
    world: &World,
    pid: usize,
) -> Result<(), AllocError>
    ensures bytes { OnOk result (bytes.new.items ≡ bytes.old.items ++ plain_part pid world.now) }
{
    bytes.extend_from_slice(name_line(alloc, world.count(), pid)?.as_bytes())?;
    let Some(process) = world.process(pid) else {
        return Ok(());
    };
    let output = process.machine().output();
    bytes.extend_from_slice(output)?;
    match output.last() {
        Some(b'\n') | None => Ok(()),
        Some(_) => bytes.extend_from_slice(b"\n"),
    }
}

/// What each process has written, as it is, and a line feed where that doesn't end with one; before it, where there is more
/// than one process, a line `process P`.
pub fn plain_output(alloc: Global, world: &World) -> Result<Vec<u8>, AllocError>
    ensures bytes { IfOk result (λ bytes. bytes.items ≡ plain_output world.now) }
{
    let mut bytes = Vec::new(alloc);
    for pid in 0..world.count() {
        push_process(alloc, &mut bytes, world, pid)?;
    }
    Ok(bytes)
}
