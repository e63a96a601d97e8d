//! The commands `step`, `trace`, `run` and `debug`, with their pages and notes. A page can't be a file that is read.
ghost use Rattle.std.specs.Prelude.{◌≡◌, ℕ, List, false, OnOk};
ghost use Rattle.std.specs.Io.KnownBytes.{Appends};
ghost use Rattle.lab_commands.specs.Runs.{IsReport, IsToldRun};
ghost use Rattle.lab_sched.specs.Schedules.{steps_of};
ghost use Rattle.lab_trace.specs.Traces.{trace_text};
ghost use Rattle.lab_shell.specs.Private.Explored.{IsTrace};
ghost use Rattle.lab_commands.specs.Sources.{numbered};
ghost use Rattle.lab_shell.specs.Private.Runs.{start_of};

use crate::given::{Given, page_files};
use lab_arguments::{Manner, Page, Setup, program_of};
use lab_commands::{
    At, Complaint, Debugged, Job, Progress, debug_given, messages_if, process_advice,
    read_schedule, report_given, run_given, standing_at, write_bytes,
};
use lab_io::{Input, Output, Prompt};
use lab_notes::{
    Notes as Noted, Opened, Refusal, Remark, Waiting, noted, push_more, push_note, push_remark,
    push_twins, push_wait, twin_after,
};
use lab_sched::{Schedule, Verdict, World};
use lab_sources::Source;
use lab_trace::{missing_after, trace};
use std::alloc::{AllocError, Global};
use std::io::{Read, Write};
use std::rt::Files;
use std::sync::Wait;
use std::thread::Threads;
use std::time::Clock;

/// Runs programs by a schedule from the input and writes the report, and then notes, where these are told.
pub fn step_programs<'j, 'a, T: Files, R: Read, W: Write, P: Progress>(
    job: &'j Job<'j, T, P>,
    setup: &'j Setup<'a>,
    input: &mut Input<R>,
    output: &mut Output<W>,
) -> Result<(), Complaint<'a>>
    requires input_healthy { input.old.failed ≡ false }
    requires output_healthy { output.old.failed ≡ false }
    ensures report { OnOk result ((text : List ℕ) × IsReport setup.now.profile text
        × Appends (W.contents output.old.device) (W.contents output.new.device) text) }
{
    let given = Given::read(job, setup, Vec::new(job.alloc), input)?;
    let schedule = read_schedule(job, input)?;
    let report = report_given(job, &given.programs, setup.profile, &schedule)?;
    write_bytes(&report, output)?;
    given.tell_notes(&[&schedule]);
    Ok(())
}

/// Reads the files of the programs, then a schedule from the input, and writes what happens as the laboratory of these programs
/// runs by that schedule, before it the page, where one is asked for, and behind it notes, where these are told.
pub fn trace_programs<'j, 'a, T: Files, R: Read, W: Write, P: Progress>(
    job: &'j Job<'j, T, P>,
    setup: &'j Setup<'a>,
    page: Option<&Page<'a>>,
    input: &mut Input<R>,
    output: &mut Output<W>,
) -> Result<(), Complaint<'a>>
    requires input_healthy { input.old.failed ≡ false }
    requires output_healthy { output.old.failed ≡ false }
    ensures trace { OnOk result ((text : List ℕ) × IsTrace setup.now.profile text
        × Appends (W.contents output.old.device) (W.contents output.new.device) text) }
{
    let files = match page {
        Some(page) => page_files(job, setup, Some(page.file), page.sources.as_slice())?,
        None => Vec::new(job.alloc),
    };
    let given = Given::read(job, setup, files, input)?;
    let schedule = read_schedule(job, input)?;
    match given.write_trace_with(page, &schedule, output) {
        Ok(()) => {
            given.tell_notes(&[&schedule]);
            Ok(())
        }
        Err(complaint) => {
            let count = given.programs.programs.len();
            Err(complaint.followed(process_advice(job, &schedule, count)))
        }
    }
}

/// Runs programs on threads, writes the report and the schedule of an interleaving that leads to it, tells its notes, where these
/// are told, and then writes the page of that interleaving, where one is asked for.
pub fn run_programs<
    'j,
    'a,
    T: Files + Threads + Wait + Clock + Sync,
    R: Read,
    W: Write,
    P: Progress,
>(
    job: &'j Job<'j, T, P>,
    setup: &'j Setup<'a>,
    manner: Manner<'a>,
    input: &mut Input<R>,
    output: &mut Output<W>,
) -> Result<(), Complaint<'a>>
    requires input_healthy { input.old.failed ≡ false }
    requires output_healthy { output.old.failed ≡ false }
    ensures told { OnOk result ((bytes : List ℕ)
        × IsToldRun setup.now.profile manner.entry.plain bytes
        × Appends (W.contents output.old.device) (W.contents output.new.device) bytes) }
{
    let files = page_files(job, setup, manner.page, &[])?;
    let given = Given::read(job, setup, files, input)?;
    let report = run_given(job, &given.programs, setup.profile, manner, output)?;
    given.tell_notes(&[&report.schedule]);
    match manner.page {
        Some(page) => given.write_page(page, &report.schedule).map(|_| ()),
        None => Ok(()),
    }
}

/// Carries out the commands that come from the input on programs, and then tells notes of the steps that were taken, where
/// these are told.
pub fn debug_programs<'j, 'a, T: Files, R: Read, W: Write, P: Progress>(
    job: &'j Job<'j, T, P>,
    setup: &'j Setup<'a>,
    input: &mut Input<R>,
    output: &mut Output<W>,
) -> Result<(), Complaint<'a>>
    requires input_healthy { input.old.failed ≡ false }
    requires output_healthy { output.old.failed ≡ false }
{
    let given = Given::read(job, setup, Vec::new(job.alloc), input)?;
    let start = job.tells_notes().then(|| given.world()).transpose()?;
    let debugged = debug_given(job, given.programs, setup.profile, input, output)?;
    if let Some(start) = start {
        // the session is over: where memory is refused now, there are fewer notes
        let _ = tell_debugged(job, start, &debugged);
    }
    Ok(())
}

/// Tells the notes of the steps of a session that began with this world.
fn tell_debugged<T, P: Progress>(
    job: &Job<'_, T, P>,
    start: World,
    debugged: &Debugged,
) -> Result<(), AllocError> {
    let sources = (0..start.count()).map(|process| debugged.source(process));
    let mut notes = Notes::new(job, sources.collect(job.alloc)?, Vec::new(job.alloc));
    if let Some(schedule) = debugged.schedule(job.alloc)? {
        notes.tell(start, &schedule)?;
    }
    Ok(())
}

impl<'a, T: Files, P> Given<'_, 'a, T, P> {
    /// Writes the page of a run by a schedule, where one is asked for, and then what happens in that run.
    fn write_trace_with<W: Write>(
        &self,
        page: Option<&Page<'a>>,
        schedule: &Schedule,
        output: &mut Output<W>,
    ) -> Result<(), Complaint<'a>>
        ensures trace { OnOk result (Appends (W.contents output.old.device)
            (W.contents output.new.device) (trace_text (start_of self.now)
            (numbered self.now.programs) (steps_of schedule.now))) }
    {
        match page {
            Some(page) => write_bytes(&self.write_page(page.file, schedule)?, output),
            None => self.write_trace(schedule, output),
        }
    }
}

impl<'j, 'a, T, P> Given<'j, 'a, T, P> {
    /// Writes what happens as the laboratory of the programs runs by a schedule, with the labels of those that were given as
    /// sources.
    pub fn write_trace<W: Write>(
        &self,
        schedule: &Schedule,
        output: &mut Output<W>,
    ) -> Result<(), Complaint<'a>>
        ensures trace { OnOk result (Appends (W.contents output.old.device)
            (W.contents output.new.device) (trace_text (start_of self.now)
            (numbered self.now.programs) (steps_of schedule.now))) }
    {
        let mut world = self.world()?;
        let sources = self.programs.numbered(self.job.alloc)?;
        trace(self.job.alloc, &mut world, &sources, schedule, output).at(self.job.alloc, "run")
    }
}

/// Behind longer runs there are no notes: it would take their time twice.
const MOST_NOTED: u32 = 1_000_000;

/// Each run counts as so many steps at least, for the world that it begins with.
const LEAST_COUNTED: u32 = 1_000;

impl<T, P: Progress> Given<'_, '_, T, P> {
    /// Tells the warnings of the sources that programs are given as, of each file once, where notes are told.
    pub fn tell_warnings(&self) {
        let (job, profile) = (self.job, self.setup.profile);
        if !job.tells_notes() {
            return;
        }
        let words = self.setup.programs.as_slice();
        for (process, word) in words.iter().enumerate() {
            let (file, _) = program_of(word);
            let mut before = words.iter().take(process);
            if !before.any(|other| program_of(other).0 == file)
                && let Some(Some(source)) = self.programs.sources.get(process)
                && let Some(report) = messages_if(job, file, source.text.as_bytes(), profile, true)
                && !report.text.is_empty()
            {
                job.progress.tell(&report.text);
            }
        }
    }

    /// Tells the notes of runs of the programs, where notes are told. Where memory is refused, there are fewer.
    pub fn tell_notes(&self, schedules: &[&Schedule]) {
        if !self.job.tells_notes() {
            return;
        }
        let sources = self.programs.sources.iter().map(|source| source.as_ref());
        let (Ok(sources), Ok(names)) = (sources.collect(self.job.alloc), self.names()) else {
            return;
        };
        let mut notes = Notes::new(self.job, sources, names);
        for schedule in schedules {
            let Ok(world) = self.world() else {
                return;
            };
            let Ok(true) = notes.tell(world, schedule) else {
                return;
            };
        }
    }
}

/// Of more processes that are stuck a note says only how many they are.
const MOST_WAITS: usize = 6;

/// What the first of some processes wait for, which are called so.
fn stuck_note(alloc: Global, waits: &[Waiting], names: &[String]) -> Result<String, AllocError> {
    let mut note = String::from_str(alloc, "lc3lab: note: stuck: ")?;
    for (index, wait) in waits.iter().take(MOST_WAITS).enumerate() {
        if index > 0 {
            note.push_str("; ")?;
        }
        match names.get(wait.pid) {
            Some(name) => push_wait(&mut note, wait, name)?,
            None => push_wait(&mut note, wait, "")?,
        }
    }
    Ok(note)
}

/// The notes of runs of some programs, each of which is told once.
#[derive(Drop)]
pub struct Notes<'a, T, P> {
    job: &'a Job<'a, T, P>,
    /// Of each process its source, where it was given as one.
    sources: Vec<Option<&'a Source>>,
    /// How the processes are called, or nothing.
    names: Vec<String>,
    /// What was told.
    told: Vec<String>,
    /// How many steps are looked at, at most.
    left: u32,
}

impl<'a, T, P: Progress> Notes<'a, T, P> {
    pub fn new(
        job: &'a Job<'a, T, P>,
        sources: Vec<Option<&'a Source>>,
        names: Vec<String>,
    ) -> Notes<'a, T, P> {
        Notes {
            job,
            sources,
            names,
            told: Vec::new(job.alloc),
            left: MOST_NOTED,
        }
    }

    /// Tells the notes of a run that weren't told of another one: of each process its first refused call, what is remarked of
    /// objects, and the names that differ by the case of letters alone; with whether the run wasn't too long for it.
    pub fn tell(&mut self, mut world: World, schedule: &Schedule) -> Result<bool, AllocError> {
        if !self.has_room_for(schedule) {
            return Ok(false);
        }
        if missing_after(&mut world, schedule).is_some() {
            return Ok(true);
        }
        let (notes, waits) = noted(self.job.alloc, &mut world, schedule)?;
        self.tell_noted(&notes)?;
        if matches!(world.verdict(), Verdict::Stuck) {
            self.tell_waits(&waits)?;
        }
        Ok(true)
    }

    /// Whether a run isn't too long; its steps are then no longer left.
    fn has_room_for(&mut self, schedule: &Schedule) -> bool {
        match self.left.checked_sub(schedule.total().max(LEAST_COUNTED)) {
            Some(left) => {
                self.left = left;
                true
            }
            None => false,
        }
    }

    /// Tells what is noted of a run.
    fn tell_noted(&mut self, notes: &Noted) -> Result<(), AllocError> {
        for (pid, row) in notes.rows().iter().enumerate() {
            if let Some(first) = &row.first {
                self.tell_first(pid, first, row.more)?;
            }
        }
        for remark in notes.remarks() {
            self.tell_remark(remark)?;
        }
        self.tell_twins(notes.opened())
    }

    /// Tells the first refused call of a process and how many more there were.
    fn tell_first(&mut self, pid: usize, first: &Refusal, more: u32) -> Result<(), AllocError> {
        let alloc = self.job.alloc;
        let source = self.sources.get(pid).copied().flatten();
        let standing = standing_at(alloc, source, first.pc, first.word)?;
        let mut note = String::new(alloc);
        push_note(&mut note, pid, first, &format!(in alloc; "{standing}")?)?;
        self.tell_once(note, more)
    }

    /// Tells what is remarked of an object.
    fn tell_remark(&mut self, remark: &Remark) -> Result<(), AllocError> {
        let alloc = self.job.alloc;
        let source = self.sources.get(remark.pid).copied().flatten();
        let standing = standing_at(alloc, source, remark.pc, remark.word)?;
        let mut note = String::new(alloc);
        push_remark(&mut note, remark, &format!(in alloc; "{standing}")?)?;
        self.tell_once(note, 0)
    }

    /// Tells of names that differ by the case of letters alone.
    fn tell_twins(&mut self, opened: &[Opened]) -> Result<(), AllocError> {
        for (index, one) in opened.iter().enumerate() {
            if let Some(other) = twin_after(opened, index) {
                let mut note = String::new(self.job.alloc);
                push_twins(&mut note, one, other)?;
                self.tell_once(note, 0)?;
            }
        }
        Ok(())
    }

    /// Tells what the processes wait for that are stuck: of the first of them, and how many more there are.
    fn tell_waits(&mut self, waits: &[Waiting]) -> Result<(), AllocError> {
        let note = stuck_note(self.job.alloc, waits, self.names.as_slice())?;
        let more = waits.len().saturating_sub(MOST_WAITS);
        self.tell_once(note, u32::try_from(more).unwrap_or(u32::MAX))
    }

    /// Tells a note, and how many more there are of its kind, unless it was told before.
    fn tell_once(&mut self, note: String, more: u32) -> Result<(), AllocError> {
        if self.told.iter().any(|told| told.as_str() == note.as_str()) {
            return Ok(());
        }
        let mut line = String::from_str(self.job.alloc, &note)?;
        push_more(&mut line, more)?;
        line.push_str("\n")?;
        self.job.progress.tell(&line);
        Ok(self.told.push(note)?)
    }
}

/// What the program says, for these words of the command line, where its standard input is a terminal: what it waits for,
/// or the debugger's prompt for each line.
pub fn prompt_of(words: &[String]) -> Prompt {
    let Some(word) = words.first() else {
        return Prompt::Once(
            "lc3lab: waiting for hexadecimal words; Ctrl-D ends them (lc3lab --help shows the commands)\n",
        );
    };
    match word.as_str() {
        "step" | "trace" => Prompt::Once("lc3lab: waiting for a schedule; Ctrl-D ends it\n"),
        "run" | "explore" => { Prompt::Once("lc3lab: waiting for console input; Ctrl-D ends it\n") }
        "debug" => Prompt::Always("> "),
        _ => Prompt::Never,
    }
}

/// What the program says there before its first prompt: of the debugger how its commands are found.
pub fn hint_of(words: &[String]) -> Prompt {
    match words.first() {
        Some(word) if word.as_str() == "debug" => {
            Prompt::Once("lc3lab: help lists the commands\n")
        }
        _ => Prompt::Never,
    }
}
