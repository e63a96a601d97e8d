//! A run by a schedule, as a page holds it.
ghost use Rattle.std.specs.Prelude.{◌≡◌, ℕ, Some, Err, [], OnOk, IfOk, IfErr, if◌then◌else◌, length, ◌++◌};
ghost use Rattle.serde_json.specs.Written.{compact_text};
ghost use Rattle.lab_sched.specs.Schedules.{steps_of};
ghost use Rattle.lab_sched.specs.Worlds.{run};
ghost use Rattle.lab_told.specs.Scenes.{scene_at};
ghost use Rattle.lab_trace.specs.Forms.{form_for};
ghost use Rattle.lab_trace.specs.Traces.{missing_after, trace_text, trace_with};
ghost use Rattle.lab_told.specs.Tellings.{AreThere};
ghost use Rattle.lab_page.specs.Faults.{Explains, IsFault};
ghost use Rattle.lab_page.specs.Private.Written.{TellsStep, BreaksStep};
ghost use Rattle.lab_page.specs.Runs.{is_whole, run_data, run_from};
ghost use Rattle.lab_page.specs.Stores.{stores_from, stores_of, changed_words, held_at, origin_at};
ghost use Rattle.lab_page.specs.declared.paging.PageFault.TheVariants.{NoProcess};
ghost use Rattle.lab_page.specs.Private.Stores.{no_stores, stores_after};

use crate::moments::Moments;
use crate::paging::PageFault;
use crate::source::{Source, source_in};
use lab_moments::{AsData, words_from};
use lab_places::Numbered;
use lab_sched::{Schedule, World};
use lab_template::MOST_WHOLE;
use lab_told::{Taken, Tally, Telling, tell_run};
use lab_trace::{Form, missing_after};
use serde_json::{Value, json};
use std::alloc::{AllocError, Global};
use std::marker::Model;

/// How a run is written. The lines on a page are without labels, for it shows the sources themselves; the trace has those of
/// the processes that were given as sources.
#[derive(Drop)]
pub struct Look<'a, 's> {
    /// The lines on the page.
    pub page: Form<'a, 's>,
    /// The lines of the trace.
    pub trace: Form<'a, 's>,
    /// Whether counted steps have moments too.
    pub whole: bool,
    /// The sources where it is told what the steps store.
    pub sources: &'a [Option<Source>],
}

impl<'a, 's> Look<'a, 's> {
    /// How the run of a world by a schedule is written.
    pub fn new(
        alloc: Global,
        world: &World,
        schedule: &Schedule,
        given: &'a [Option<Numbered<'s>>],
        sources: &'a [Option<Source>],
    ) -> Result<Look<'a, 's>, AllocError>
        ensures page { IfOk result (λ l. l.page
            ≡ form_for (length (steps_of schedule.now)) (length world.now.processes) []) }
        ensures trace { IfOk result (λ l. l.trace
            ≡ form_for (length (steps_of schedule.now)) (length world.now.processes) given.now) }
        ensures whole { IfOk result (λ l. l.whole ≡ is_whole schedule.now) }
        ensures sources { IfOk result (λ l. l.sources.now
            ≡ (if is_whole schedule.now then sources.now else [])) }
    {
        let whole = schedule.total() <= MOST_WHOLE;
        Ok(Look {
            page: Form::new(alloc, schedule.total(), world.count(), &given[..0])?,
            trace: Form::new(alloc, schedule.total(), world.count(), given)?,
            whole,
            sources: if whole { sources } else { &[] },
        })
    }
}

impl<'a> Telling<(Moments, Stores<'a>)> for Look<'_, '_> {
    type Fault = PageFault;

    ghost use Rattle.std.proofs.Common.{subst, sym};

    ghost tells = { TellsStep };

    ghost fails = { BreaksStep };

    ghost refused = { λ v s p m e refused. subst (λ x. BreaksStep v s p m m x) (sym refused) tt };

    fn tell_step(
        &self,
        _alloc: Global,
        told: &mut (Moments, Stores<'a>),
        taken: &Taken<'_>,
    ) -> Result<(), PageFault> {
        told.0.keep_step(self, taken)?;
        Ok(told.1.keep(taken)?)
    }
}

/// What was written of a run.
#[derive(Drop)]
pub(crate) struct WrittenRun {
    /// The run as JSON.
    pub json: Vec<u8>,
    /// Its trace.
    pub trace: Vec<u8>,
    /// What its steps store.
    pub stores: Vec<Stored>,
}

/// Takes the steps of a schedule, whose processes are all there, and writes the run and its trace.
fn take_steps(
    alloc: Global,
    world: &mut World,
    tally: &mut Tally,
    look: &Look<'_, '_>,
    schedule: &Schedule,
) -> Result<WrittenRun, PageFault>
    requires there { AreThere world.old schedule.now }
    ensures json { IfOk result (λ r. r.json.items ≡ compact_text (run_from look.now.page
        look.now.whole (scene_at 1 world.old tally.old) schedule.now)) }
    ensures trace { IfOk result (λ r. r.trace.items
        ≡ trace_with look.now.trace (scene_at 1 world.old tally.old) (steps_of schedule.now)) }
    ensures stores { IfOk result (λ r. r.stores.items
        ≡ stores_from look.now.sources.now 1 world.old (steps_of schedule.now)) }
    ensures world { OnOk result (world.new ≡ run world.old (steps_of schedule.now)) }
    ensures fault { IfErr result (λ e. IsFault e (compact_text (run_from look.now.page
        look.now.whole (scene_at 1 world.old tally.old) schedule.now))) }
{
    let moments = Moments::new(alloc, world)?;
    let stores = Stores::new(alloc, world, look.sources)?;
    let mut told = (moments, stores);
    tell_run(look, &mut told, world, tally, schedule.blocks())?;
    let (mut moments, stores) = told;
    moments.finish(world, tally, look, schedule)?;
    let (json, trace) = moments.into_parts();
    Ok(WrittenRun {
        json,
        trace,
        stores: stores.into_stored(),
    })
}

/// The run of a world by a schedule, as JSON and as a trace, and what its steps store. The world takes the schedule's steps; where
/// it names a process that isn't there, none.
///
/// # Errors
///
/// `NoProcess` tells after how many steps the schedule names a process that isn't there, and then no step was taken;
/// `TooLarge` that the JSON has more than [`MOST_BYTES`](lab_template::MOST_BYTES) bytes. After it, and after `NoMemory`, nothing is
/// said of the world.
pub(crate) fn written_run(
    alloc: Global,
    world: &mut World,
    schedule: &Schedule,
    given: &[Option<Numbered<'_>>],
    sources: &[Option<Source>],
) -> Result<WrittenRun, PageFault>
    ensures json { IfOk result (λ t. t.json.items
        ≡ compact_text (run_data world.old schedule.now)) }
    ensures trace { IfOk result (λ t. t.trace.items
        ≡ trace_text world.old given.now (steps_of schedule.now)) }
    ensures stores { IfOk result (λ t. t.stores.items
        ≡ stores_of world.old schedule.now sources.now) }
    ensures world { OnOk result (world.new ≡ run world.old (steps_of schedule.now)) }
    ensures no_process { (done : ℕ) → missing_after world.old (steps_of schedule.now) ≡ Some done
        → result ≡ Err (NoProcess done) }
    ensures fault { IfErr result (λ e. Explains e world.old schedule.now
        (compact_text (run_data world.old schedule.now))) }
    ensures untouched { (done : ℕ) → result ≡ Err (NoProcess done) → world.new ≡ world.old }
{
    if let Some(done) = missing_after(world, schedule) {
        return Err(PageFault::NoProcess { done });
    }
    let look = Look::new(alloc, world, schedule, given, sources)?;
    let mut tally = Tally::new(alloc, world.count())?;
    take_steps(alloc, world, &mut tally, &look, schedule)
}

/// A word that a step stores where the source of its process has words.
#[derive(Clone, Copy, Debug, PartialEq, Eq)]
pub struct Stored {
    /// The number of the step.
    pub step: u32,
    /// The process whose step it is.
    pub process: usize,
    pub address: usize,
    /// The word behind the step.
    pub word: u16,
}

impl AsData for Stored {
    ghost use Rattle.lab_page.specs.Stores.{stored_data};

    ghost form = { stored_data };

    fn value(&self, alloc: Global) -> Result<Value, AllocError> {
        json!(in alloc; [self.step, self.process, self.address, self.word])
    }
}

/// The words that the steps of a run store where the sources of its processes have words, as far as its steps are told.
#[derive(Drop)]
pub struct Stores<'a> {
    sources: &'a [Option<Source>],
    /// Of each process what its memory holds there.
    held: Vec<Vec<u16>>,
    stored: Vec<Stored>,
}

impl<'a> Model for Stores<'a> {
    ghost use Rattle.std.specs.Prelude.{map};
    ghost use Rattle.lab_page.specs.Private.Stores.{Stores as Kept};

    ghost Value = { Kept };

    ghost view = { λ s. record {
      sources = s.sources.now;
      held = map (λ v. v.items) s.held.items;
      stored = s.stored.items;
    } };
}

/// What the memory of process `pid` holds where its source has words.
fn held_words(
    alloc: Global,
    world: &World,
    pid: usize,
    sources: &[Option<Source>],
) -> Result<Vec<u16>, AllocError>
    ensures words { IfOk result (λ v. v.items ≡ held_at sources.now world.now pid) }
{
    match (source_in(sources, pid), world.process(pid)) {
        (Some(source), Some(process)) => {
            words_from(alloc, process, source.origin, source.words.len())
        }
        _ => Ok(Vec::new(alloc)),
    }
}

fn origin_at(sources: &[Option<Source>], pid: usize) -> u16
    ensures origin { result ≡ origin_at sources.now pid }
{
    match source_in(sources, pid) {
        Some(source) => source.origin,
        None => 0,
    }
}

/// Adds the words behind a step, from an address on, that aren't those before it.
#[tactic(auto, using(lab_moments::proofs::ValueLemmas::below), unfolding(crate::specs::Stores::changed_words))]
fn push_words(
    stores: &mut Vec<Stored>,
    taken: &Taken<'_>,
    first: u16,
    before: &[u16],
    after: &[u16],
) -> Result<(), AllocError>
    ensures added { OnOk result (stores.new.items ≡ stores.old.items
        ++ changed_words taken.now.number taken.now.pid first before.now after.now) }
{
    for at in 0..after.len().min(before.len()) {
        let (address, word) = (usize::from(first) + at, after[at]);
        if word != before[at] {
            stores.push(Stored {
                step: taken.number,
                process: taken.pid,
                address,
                word,
            })?;
        }
    }
    Ok(())
}

impl<'a> Stores<'a> {
    /// None before the first step of a world.
    #[tactic(auto, using(lab_moments::proofs::ValueLemmas::below))]
    pub fn new(
        alloc: Global,
        world: &World,
        sources: &'a [Option<Source>],
    ) -> Result<Stores<'a>, AllocError>
        ensures none { IfOk result (λ s. s ≡ no_stores sources.now world.now) }
    {
        let mut held = Vec::new(alloc);
        for pid in 0..world.count() {
            held.push(held_words(alloc, world, pid, sources)?)?;
        }
        Ok(Stores {
            sources,
            held,
            stored: Vec::new(alloc),
        })
    }

    /// The words that were stored, in order of their steps.
    pub fn into_stored(self) -> Vec<Stored>
        ensures stored { result.items ≡ self.entry.stored }
    {
        self.stored
    }

    /// Adds the words that a step stored.
    pub fn keep(&mut self, taken: &Taken<'_>) -> Result<(), AllocError>
        ensures kept { OnOk result (self.new
            ≡ stores_after taken.now.number taken.now.pid taken.now.world.now self.old) }
    {
        let alloc = *self.stored.allocator();
        let after = held_words(alloc, taken.world, taken.pid, self.sources)?;
        let first = origin_at(self.sources, taken.pid);
        let Some(held) = self.held.get_mut(taken.pid) else {
            return Ok(());
        };
        push_words(&mut self.stored, taken, first, held, &after)?;
        *held = after;
        Ok(())
    }
}
