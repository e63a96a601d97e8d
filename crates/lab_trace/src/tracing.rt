//! A whole trace.
ghost use Rattle.std.specs.Prelude.{◌≡◌, ℕ, Some, Err, IfNone, IsTrue, IfOk, IfErr, OnOk, OnErr, [], refl, string_bytes, ◌++◌};
ghost use Rattle.std.specs.Io.KnownBytes.{Appends, Keeps};
ghost use Rattle.lab_io.specs.Device.{AppendsPrefix};
ghost use Rattle.lab_sched.specs.Worlds.{run};
ghost use Rattle.lab_sched.specs.Schedules.{steps_of};
ghost use Rattle.lab_told.specs.Tellings.{AreThere};
ghost use Rattle.lab_trace.specs.Lines.{line, wait_note, notes, act_text, columns, step_line};
ghost use Rattle.lab_trace.specs.Traces.{ending, trace_text, missing_after, Explains};
ghost use Rattle.lab_trace.specs.Private.Faults.{IsFault};
ghost use Rattle.lab_trace.specs.Private.Written.{WritesLine, BreaksLine};
ghost use Rattle.lab_trace.specs.declared.tracing.TraceFault.TheVariants.{NoProcess, Write, NoMemory};
ghost use Rattle.lab_trace.specs.Bytes.{bytes_text};

use crate::ends::{push_call, push_level, push_outcome, stands};
use crate::form::{Form, Stand, separator};
use lab_io::Output;
use lab_places::{Numbered, placed};
use lab_sched::{Schedule, World};
use lab_texts::{Escape, how_name, report_text};
use lab_told::{Act, Called, Event, Origin, Taken, Tally, Telling, Told, is_quotable, tell_run};
use lc3_table::WordText;
use std::alloc::{AllocError, Global};
use std::fmt;
use std::io::Write;
use thiserror::Error;

/// How many steps come before the first of a process that isn't there, if there is one.
pub fn missing_after(world: &World, schedule: &Schedule) -> Option<u64>
    ensures missing { result ≡ missing_after world.now (steps_of schedule.now) }
    ensures there { IfNone result (AreThere world.now schedule.now) }
{
    let mut done = 0;
    for block in schedule.blocks() {
        if block.pid >= world.count() {
            return Some(done);
        }
        done += u64::from(block.count);
    }
    None
}

fn write_text<W: Write>(text: &[u8], output: &mut Output<W>) -> Result<(), TraceFault>
    ensures written { OnOk result
        (Appends (W.contents output.old.device) (W.contents output.new.device) text.now) }
    ensures prefix { OnErr result
        (AppendsPrefix (W.contents output.old.device) (W.contents output.new.device) text.now) }
    ensures failed { OnErr result (IsTrue output.new.failed) }
    ensures fault { IfErr result (λ e. e ≡ Write) }
{
    output.write_all(text).map_err(|_| TraceFault::Write)
}

impl<'a, 's, W: Write> Telling<Output<W>> for Form<'a, 's> {
    type Fault = TraceFault;

    ghost use Rattle.std.proofs.Common.{subst, sym};
    ghost use Rattle.std.proofs.KnownBytes.{Appends-nil};

    ghost tells = { WritesLine W.contents };

    ghost fails = { BreaksLine W.contents };

    ghost refused = { λ v s p o e refused. (
      record { sent = []; unsent = line v s p; whole = refl; appended = Appends-nil _ },
      subst (λ x. IsFault x o.failed) (sym refused) tt,
    ) };

    fn tell_step(
        &self,
        alloc: Global,
        output: &mut Output<W>,
        taken: &Taken<'_>,
    ) -> Result<(), TraceFault> {
        let line = step_line(alloc, self, taken.number, taken.pid, taken.told)?;
        write_text(line.as_bytes(), output)
    }
}

/// Where the processes stand that haven't ended, and the report, with where they stand in their sources.
pub fn ending(
    alloc: Global,
    world: &World,
    tally: &Tally,
    form: &Form<'_, '_>,
) -> Result<Vec<u8>, AllocError>
    ensures text { IfOk result (λ v. v.items ≡ ending form.now world.now tally.now) }
{
    let mut bytes = stands(alloc, world, tally, form)?.into_bytes();
    let report = report_text(alloc, world)?;
    bytes.extend_from_slice(&placed(alloc, form.sources(), report.as_bytes())?)?;
    Ok(bytes)
}

/// Takes the steps of a schedule and writes what happened: the line of each step as it is taken, then where each process
/// stands that hasn't ended, then the report. Lines of a process with a source end with the nearest label of their address, and
/// its status line with where it stands there; `sources` has one for each process that was given as a source, and may be empty.
/// A schedule that names a process that isn't there takes no step and writes
/// nothing.
pub fn trace<W: Write>(
    alloc: Global,
    world: &mut World,
    sources: &[Option<Numbered<'_>>],
    schedule: &Schedule,
    output: &mut Output<W>,
) -> Result<(), TraceFault>
    ensures written { OnOk result
        (Appends (W.contents output.old.device) (W.contents output.new.device)
        (trace_text world.old sources.now (steps_of schedule.now))) }
    ensures world { OnOk result (world.new ≡ run world.old (steps_of schedule.now)) }
    ensures prefix { OnErr result
        (AppendsPrefix (W.contents output.old.device) (W.contents output.new.device)
        (trace_text world.old sources.now (steps_of schedule.now))) }
    ensures fault { IfErr result
        (λ e. Explains e world.old (steps_of schedule.now) output.new.failed) }
    ensures no_process { (done : ℕ)
        → missing_after world.old (steps_of schedule.now) ≡ Some done
        → result ≡ Err (NoProcess done) }
    ensures nothing { (done : ℕ) → result ≡ Err (NoProcess done)
        → Keeps (W.contents output.old.device) (W.contents output.new.device) }
{
    if let Some(done) = missing_after(world, schedule) {
        return Err(TraceFault::NoProcess { done });
    }
    let form = Form::new(alloc, schedule.total(), world.count(), sources)?;
    let mut tally = Tally::new(alloc, world.count())?;
    tell_run(&form, output, world, &mut tally, schedule.blocks())?;
    let text = ending(alloc, world, &tally, &form)?;
    write_text(&text, output)
}

fn push_wait_note(text: &mut String, begun: bool, since: Option<u32>) -> Result<(), AllocError>
    ensures text { OnOk result (string_bytes text.new ≡ string_bytes text.old
        ++ wait_note begun since) }
{
    if let Some(since) = since {
        let separator = separator(begun);
        write!(text, "{separator}waited since {since}")?;
    }
    Ok(())
}

fn push_notes(text: &mut String, call: &Called) -> Result<(), AllocError>
    ensures text { OnOk result (string_bytes text.new ≡ string_bytes text.old
        ++ notes call.now) }
{
    let begun = call.level.is_some();
    if let Some(level) = call.level {
        text.push_str(separator(false))?;
        push_level(text, level)?;
    }
    if let Some(Origin { pid, step, .. }) = call.origin {
        let separator = separator(begun);
        write!(text, "{separator}from P{pid} at {step}")?;
    }
    push_wait_note(text, begun, call.since)
}

/// Adds what a step did by the instruction with this word.
#[tactic(auto, unfolding(crate::specs::Lines::called_text, crate::specs::Lines::output_text))]
fn push_act(text: &mut String, word: u16, act: &Act) -> Result<(), AllocError>
    ensures text { OnOk result (string_bytes text.new ≡ string_bytes text.old
        ++ act_text word act.now) }
{
    match act {
        Act::Calls(call) => {
            push_call(text, call.service, &call.arguments)?;
            text.push_str(" ")?;
            push_outcome(text, &call.outcome)?;
            push_notes(text, call)
        }
        Act::Writes(bytes) => {
            let instruction = WordText(word);
            let bytes = QuotedBytes(bytes.as_slice());
            write!(text, "{instruction} {bytes}")
        }
        Act::Ends(how) => {
            let how = how_name(*how);
            write!(text, "ends {how}")
        }
    }
}

/// The columns before what happened in step `number`, of process `pid`.
pub fn columns_text(
    alloc: Global,
    form: &Form<'_, '_>,
    number: u32,
    pid: usize,
    event: &Event,
) -> Result<String, AllocError>
    ensures text { IfOk result (λ s. string_bytes s
        ≡ columns form.now number pid event.now) }
{
    let mut text = String::new(alloc);
    let number = format!(in alloc; "{number}")?;
    form.push_head(&mut text, &number, Stand::before(pid, event), event.local)?;
    Ok(text)
}

/// What happened in a step.
pub fn event_text(alloc: Global, event: &Event) -> Result<String, AllocError>
    ensures text { IfOk result (λ s. string_bytes s ≡ act_text event.now.word event.now.act) }
{
    let mut text = String::new(alloc);
    push_act(&mut text, event.word, &event.act)?;
    Ok(text)
}

/// The line of step `number`, of process `pid`, or no text where nothing is shown of it.
pub fn step_line(
    alloc: Global,
    form: &Form<'_, '_>,
    number: u32,
    pid: usize,
    told: &Told,
) -> Result<String, AllocError>
    ensures line { IfOk result (λ s. string_bytes s ≡ step_line form.now number pid told.now) }
{
    let Told::Shown(event) = told else {
        return Ok(String::new(alloc));
    };
    let mut line = columns_text(alloc, form, number, pid, event)?;
    push_act(&mut line, event.word, &event.act)?;
    let noted = matches!(&event.act, Act::Calls(call)
        if call.level.is_some() || call.origin.is_some() || call.since.is_some());
    form.push_line_end(&mut line, noted, Stand::before(pid, event))?;
    Ok(line)
}

/// Bytes between quotation marks.
#[derive(Clone, Copy)]
pub struct QuotedBytes<'a>(pub &'a [u8]);

impl fmt::Display for QuotedBytes<'_> {
    ghost output = { λ b. Some (bytes_text b.0.now) };

    #[tactic(auto, unfolding(crate::specs::Bytes::bytes_text, crate::specs::Bytes::byte_text))]
    fn fmt<W: fmt::Write>(&self, f: &mut fmt::Formatter<W>) -> fmt::Result {
        write!(f, "\"")?;
        for byte in self.0 {
            if is_quotable(u16::from(*byte)) {
                let character = char::from(*byte);
                write!(f, "{character}")?;
                continue;
            }
            let escape = Escape(*byte);
            write!(f, "{escape}")?;
        }
        write!(f, "\"")
    }
}

/// Why a trace broke off.
#[derive(Clone, Copy, Debug, PartialEq, Eq, Error)]
pub enum TraceFault {
    /// After so many steps the schedule names a process that isn't there. Nothing was written.
    #[error("after {done} steps: NoProcess")]
    NoProcess { done: u64 },
    /// The output failed. A beginning of the text was written.
    #[error("cannot write")]
    Write,
    /// Memory was refused. A beginning of the text was written.
    #[error("out of memory")]
    NoMemory,
}

impl From<AllocError> for TraceFault {
    ghost from_gives = { λ _ e. e ≡ NoMemory };

    fn from(_refused: AllocError) -> TraceFault {
        TraceFault::NoMemory
    }
}
