//! A whole page.
ghost use Rattle.std.specs.Prelude.{◌≡◌, ◌≤◌, ℕ, Some, Err, IfOk, IfErr, OnOk, length, map, string_bytes};
ghost use Rattle.lab_sched.specs.Schedules.{steps_of};
ghost use Rattle.lab_sched.specs.Worlds.{run};
ghost use Rattle.lab_trace.specs.Traces.{missing_after, trace_text};
ghost use Rattle.lab_template.specs.Pages.{around, page_text, safe, HasNoTag};
ghost use Rattle.lab_page.specs.Paged.{found_json, paged_json};
ghost use Rattle.lab_page.specs.Faults.{Explains, IsFault};
ghost use Rattle.lab_template.specs.Limits.{most_bytes};
ghost use Rattle.lab_page.specs.Private.Json.{page_json};
ghost use Rattle.lab_page.specs.Sources.{programs, sources_shown};
ghost use Rattle.lab_page.specs.declared.paging.PageFault.TheVariants.{NoProcess, NoMemory};

use crate::ends::{Found, ends_json};
use crate::moments::{push_behind, push_parts};
use crate::run::{WrittenRun, written_run};
use crate::source::{Source, programs};
use lab_moments::list_value;
use lab_places::Numbered;
use lab_sched::{Schedule, World};
use lab_template::{MOST_BYTES, Template, page_with};
use std::alloc::{AllocError, Global};
use thiserror::Error;

/// The page with these data as JSON, where they aren't too large.
fn page_of(alloc: Global, template: &Template<'_>, json: &[u8]) -> Result<Vec<u8>, PageFault>
    ensures page { IfOk result (λ v. v.items ≡ page_text (around template.now) json.now) }
    ensures closed { OnOk result (HasNoTag (safe json.now)) }
    ensures fits { OnOk result (length json.now ≤ most_bytes) }
    ensures fault { IfErr result (λ e. IsFault e json.now) }
{
    if json.len() > MOST_BYTES {
        return Err(PageFault::TooLarge);
    }
    Ok(page_with(alloc, template, json)?)
}

/// How the processes of a page are called, and their sources, each where there is one.
#[derive(Clone, Copy)]
pub struct Roster<'a> {
    pub names: &'a [String],
    pub sources: &'a [Option<Source>],
}

#[tactic(auto, using(crate::proofs::SourceLemmas::programs_plain, crate::proofs::StoreLemmas::stores_plain), unfolding(crate::specs::Private::Json::page_json))]
fn page_json(
    alloc: Global,
    count: usize,
    roster: &Roster<'_>,
    run: &WrittenRun,
) -> Result<Vec<u8>, AllocError>
    ensures json { IfOk result (λ v. v.items ≡ page_json
        (programs count (map string_bytes roster.now.names.now)
        (sources_shown roster.now.sources.now)) run.now.json.items run.now.stores.items) }
{
    let mut json = Vec::new(alloc);
    push_behind(
        &mut json,
        "{\"format\":\"lc3lab-page-3\",\"processes\":",
        &programs(alloc, count, roster.names, roster.sources)?,
    )?;
    push_parts(&mut json, &[b",\"run\":", &run.json])?;
    push_behind(&mut json, ",\"stores\":", &list_value(alloc, &run.stores)?)?;
    json.extend_from_slice(b"}")?;
    Ok(json)
}

/// A run that a page shows.
#[derive(Clone, Copy)]
pub struct PagedRun<'a, 's> {
    pub schedule: &'a Schedule,
    /// The processes that were given as sources, whose labels the lines of its trace have.
    pub given: &'a [Option<Numbered<'s>>],
}

/// The page of a run, and its trace.
#[derive(Drop)]
pub struct Shown {
    pub page: Vec<u8>,
    pub trace: Vec<u8>,
}

/// The page of the run of a world by a schedule, HTML around the run as JSON, in which no `<` stands; and the trace of that
/// run. The world takes the schedule's steps; where it names a process that isn't there, none.
///
/// # Errors
///
/// `NoProcess` tells after how many steps the schedule names a process that isn't there, and then no step was taken;
/// `TooLarge` that the data have more than [`MOST_BYTES`] bytes. After it, and after `NoMemory`, nothing is
/// said of the world.
#[tactic(auto, using(crate::proofs::JsonLemmas::page_json_of, crate::proofs::FaultLemmas::fault_explains))]
pub fn run_page(
    alloc: Global,
    template: &Template<'_>,
    world: &mut World,
    roster: &Roster<'_>,
    paged: &PagedRun<'_, '_>,
) -> Result<Shown, PageFault>
    ensures trace { IfOk result (λ s. s.trace.items
        ≡ trace_text world.old paged.now.given.now (steps_of paged.now.schedule.now)) }
    ensures page { IfOk result (λ s. s.page.items
        ≡ page_text (around template.now) (paged_json world.old paged.now roster.now)) }
    ensures closed { OnOk result (HasNoTag (safe (paged_json world.old paged.now roster.now))) }
    ensures fits { OnOk result (length (paged_json world.old paged.now roster.now) ≤ most_bytes) }
    ensures world { OnOk result (world.new ≡ run world.old (steps_of paged.now.schedule.now)) }
    ensures no_process { (done : ℕ)
        → missing_after world.old (steps_of paged.now.schedule.now) ≡ Some done
        → result ≡ Err (NoProcess done) }
    ensures fault { IfErr result (λ e. Explains e world.old paged.now.schedule.now
        (paged_json world.old paged.now roster.now)) }
    ensures untouched { (done : ℕ) → result ≡ Err (NoProcess done) → world.new ≡ world.old }
{
    let count = world.count();
    let run = written_run(alloc, world, paged.schedule, paged.given, roster.sources)?;
    let page = page_of(alloc, template, &page_json(alloc, count, roster, &run)?)?;
    Ok(Shown {
        page,
        trace: run.trace,
    })
}

/// The page of ends: HTML around them as JSON, in which no `<` stands.
///
/// # Errors
///
/// `TooLarge` tells that the data have more than [`MOST_BYTES`] bytes.
#[tactic(auto, using(crate::proofs::SourceLemmas::programs_plain))]
pub fn ends_page(
    alloc: Global,
    template: &Template<'_>,
    count: usize,
    roster: &Roster<'_>,
    found: &Found<'_>,
) -> Result<Vec<u8>, PageFault>
    ensures page { IfOk result (λ v. v.items
        ≡ page_text (around template.now) (found_json count roster.now found.now)) }
    ensures closed { OnOk result (HasNoTag (safe (found_json count roster.now found.now))) }
    ensures fault { IfErr result (λ e. IsFault e (found_json count roster.now found.now)) }
{
    let processes = programs(alloc, count, roster.names, roster.sources)?;
    page_of(alloc, template, &ends_json(alloc, &processes, found)?)
}

/// Why there is no page of a trace.
#[derive(Clone, Copy, Debug, PartialEq, Eq, Error)]
pub enum PageFault {
    /// After so many steps the schedule names a process that isn't there. No step was taken.
    #[error("after {done} steps: NoProcess")]
    NoProcess { done: u64 },
    /// The data are longer than a page may hold.
    #[error("too large")]
    TooLarge,
    /// Memory was refused.
    #[error("out of memory")]
    NoMemory,
}

impl From<AllocError> for PageFault {
    ghost from_gives = { λ _ e. e ≡ NoMemory };

    fn from(_refused: AllocError) -> PageFault {
        PageFault::NoMemory
    }
}
