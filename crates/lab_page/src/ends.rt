//! The ends of an exploration, as a page holds them.
ghost use Rattle.std.specs.Prelude.{◌≡◌, ◌≢◌, ◌<◌, ◌≤◌, false, [], Err, OnOk, IfOk, IfErr, length, string_bytes};
ghost use Rattle.std.specs.Option.{option_map};
ghost use Rattle.serde_json.specs.View.{view};
ghost use Rattle.serde_json.specs.Written.{compact_text, has_float};
ghost use Rattle.lab_page.specs.Ends.{end_data, endless_shown, extent_data, ends_json, with_end};
ghost use Rattle.lab_page.specs.Faults.{Explains};
ghost use Rattle.lab_template.specs.Limits.{most_ends};
ghost use Rattle.lab_page.specs.Private.Json.{end_json};
ghost use Rattle.lab_page.specs.Runs.{run_data};
ghost use Rattle.lab_page.specs.Stores.{stores_of};
ghost use Rattle.lab_moments.specs.Values.{or_null};
ghost use Rattle.lab_page.specs.declared.paging.PageFault.TheVariants.{TooLarge};
ghost use Rattle.lab_page.specs.Asked.{answer_text, asked_data, asked_list};

use crate::moments::{push_behind, push_parts, schedule_value};
use crate::paging::PageFault;
use crate::run::{WrittenRun, written_run};
use crate::source::Source;
use crate::worlds::{Worlds, push_worlds};
use lab_moments::{AsData, list_value};
use lab_sched::{Schedule, World};
use lab_template::{MOST_END_BYTES, MOST_ENDS};
use serde_json::{Value, json};
use std::alloc::{AllocError, Global};
use std::marker::Model;

/// An interleaving that never ends.
#[derive(Drop)]
pub struct Endless<'a> {
    /// What leads to a world.
    pub schedule: &'a Schedule,
    /// What leads from that world to itself, or to one alike.
    pub lasso: &'a Schedule,
    /// The number of the run by both among the other runs of the page, if it is there.
    pub run: Option<usize>,
}

/// How far an exploration went.
#[derive(Clone, Copy, Debug, PartialEq, Eq)]
pub struct Extent {
    /// Whether there is no other end.
    pub complete: bool,
    /// How many worlds were visited.
    pub worlds: u32,
    /// How many ends are told.
    pub ends: usize,
    /// The most worlds to visit.
    pub most_worlds: u32,
    /// The most local steps of a process in a row.
    pub most_steps: u32,
    /// The most bytes of memory to take.
    pub most_memory: usize,
    /// Whether memory was refused on the way.
    pub refused: bool,
    /// Whether it was to end with the first thing that isn't as it was asked.
    pub first: bool,
}

/// Runs of an exploration, as those to its first ends.
#[derive(Drop)]
pub struct EndList {
    /// The runs as JSON, with commas between them.
    json: Vec<u8>,
    count: usize,
    /// Whether there is no room for another.
    full: bool,
}

impl Model for EndList {
    ghost use Rattle.std.specs.Prelude.{◌≤◌, length};
    ghost use Rattle.lab_template.specs.Limits.{most_ends, most_end_bytes};
    ghost use Rattle.lab_page.specs.Ends.{EndList as Listed};

    ghost Value = { Listed };

    ghost view = { λ l. record { json = l.json.items; count = l.count; full = l.full } };

    ghost invariant = { λ l. (length l.json.items ≤ most_end_bytes) × (l.count ≤ most_ends) };
}

#[tactic(auto, using(crate::proofs::StoreLemmas::stores_plain), unfolding(crate::specs::Private::Json::end_json))]
fn end_json(alloc: Global, number: u32, run: &WrittenRun) -> Result<Vec<u8>, AllocError>
    ensures json { IfOk result (λ v. v.items
        ≡ end_json number run.now.json.items run.now.stores.items) }
{
    let mut json = format!(in alloc; "[{number},")?.into_bytes();
    let stores = list_value(alloc, &run.stores)?.to_vec(alloc)?;
    push_parts(&mut json, &[&run.json, b",", &stores, b"]"])?;
    Ok(json)
}

impl EndList {
    /// No runs.
    pub fn new(alloc: Global) -> EndList
        ensures none { result ≡ record { json = []; count = 0; full = false } }
    {
        EndList {
            json: Vec::new(alloc),
            count: 0,
            full: false,
        }
    }

    /// How many runs it has.
    pub fn count(&self) -> usize
        ensures count { result ≡ self.now.count }
    {
        self.count
    }

    /// Whether there was no room for one.
    pub fn is_full(&self) -> bool
        ensures full { result ≡ self.now.full }
    {
        self.full
    }

    /// Adds the JSON of an end behind fewer than the most that there can be, where there is room for it.
    fn push(&mut self, end: &[u8]) -> Result<(), AllocError>
        requires some { self.old.full ≡ false }
        requires few { self.old.count < most_ends }
        ensures list { OnOk result (self.new ≡ with_end self.old end.now) }
    {
        let comma: &[u8] = if self.count > 0 { b"," } else { b"" };
        if comma.len().saturating_add(end.len()) > MOST_END_BYTES - self.json.len() {
            self.full = true;
            return Ok(());
        }
        self.json.extend_from_slice(comma)?;
        self.json.extend_from_slice(end)?;
        self.count += 1;
        Ok(())
    }

    /// Adds the run of a world by a schedule, with a number and what its steps store where sources have words, where fewer than
    /// [`MOST_ENDS`] are there and their JSON has no more than [`MOST_END_BYTES`] bytes with it. Once there was no room for one,
    /// none is added.
    ///
    /// # Errors
    ///
    /// `NoProcess` tells after how many steps the schedule names a process that isn't there. After a fault nothing is said
    /// of the list.
    #[tactic(auto, using(crate::proofs::JsonLemmas::end_json_of))]
    pub fn add(
        &mut self,
        world: &mut World,
        schedule: &Schedule,
        number: u32,
        sources: &[Option<Source>],
    ) -> Result<(), PageFault>
        ensures list { OnOk result (self.new ≡ with_end self.old
            (compact_text (end_data number (run_data world.old schedule.now)
            (stores_of world.old schedule.now sources.now)))) }
        ensures fault { IfErr result (λ e. Explains e world.old schedule.now
            (compact_text (run_data world.old schedule.now))) }
        ensures fits { result ≢ Err TooLarge }
    {
        if self.full || self.count >= MOST_ENDS {
            self.full = true;
            return Ok(());
        }
        let alloc = *self.json.allocator();
        match written_run(alloc, world, schedule, &[], sources) {
            Ok(run) => {
                let end = end_json(alloc, number, &run)?;
                Ok(self.push(&end)?)
            }
            Err(PageFault::TooLarge) => {
                self.full = true;
                Ok(())
            }
            Err(fault) => Err(fault),
        }
    }
}

fn endless_value(alloc: Global, endless: &Option<Endless<'_>>) -> Result<Value, AllocError>
    ensures value { IfOk result (λ v. view v ≡ or_null (option_map endless_shown endless.now)) }
{
    let Some(endless) = endless else {
        return Ok(Value::Null);
    };
    json!(in alloc; [
        schedule_value(alloc, endless.schedule)?,
        schedule_value(alloc, endless.lasso)?,
        endless.run
    ])
}

fn extent_value(alloc: Global, extent: Extent) -> Result<Value, AllocError>
    ensures value { IfOk result (λ v. view v ≡ extent_data extent) }
{
    let (complete, worlds, ends) = (extent.complete, extent.worlds, extent.ends);
    let (most_worlds, most_steps) = (extent.most_worlds, extent.most_steps);
    let (most_memory, refused, first) = (extent.most_memory, extent.refused, extent.first);
    json!(in alloc; [complete, worlds, ends, most_worlds, most_steps, most_memory, refused, first])
}

/// What an exploration found, as a page shows it.
#[derive(Drop)]
pub struct Found<'a> {
    /// The runs to its ends.
    pub ends: &'a EndList,
    /// The other runs of the page.
    pub others: &'a EndList,
    /// What was asked of it.
    pub asked: &'a [Asked],
    pub endless: Option<Endless<'a>>,
    pub extent: Extent,
    /// Its worlds, where they are drawn.
    pub worlds: &'a Option<Worlds>,
}

/// What a page holds of ends as JSON.
#[tactic(auto, using(crate::proofs::RunLemmas::endless_plain))]
pub fn ends_json(alloc: Global, processes: &Value, found: &Found<'_>) -> Result<Vec<u8>, AllocError>
    requires plain { has_float (view processes.now) ≡ false }
    ensures json { IfOk result (λ v. v.items
        ≡ ends_json (view processes.now) found.now.ends.now found.now.others.now
        found.now.asked.now (option_map endless_shown found.now.endless) found.now.extent
        found.now.worlds.now) }
{
    let mut json = Vec::new(alloc);
    let (list, others) = (found.ends, found.others);
    push_behind(&mut json, "{\"asked\":", &asked_value(alloc, found.asked)?)?;
    push_behind(
        &mut json,
        ",\"endless\":",
        &endless_value(alloc, &found.endless)?,
    )?;
    json.extend_from_slice(b",\"ends\":[")?;
    json.extend_from_slice(&list.json)?;
    push_behind(
        &mut json,
        "],\"extent\":",
        &extent_value(alloc, found.extent)?,
    )?;
    push_behind(
        &mut json,
        ",\"format\":\"lc3lab-ends-3\",\"processes\":",
        processes,
    )?;
    json.extend_from_slice(b",\"runs\":[")?;
    json.extend_from_slice(&others.json)?;
    json.extend_from_slice(b"],\"worlds\":")?;
    push_worlds(&mut json, found.worlds)?;
    json.extend_from_slice(b"}")?;
    Ok(json)
}

/// A run on a page of ends, by its number, counted from 0.
#[derive(Clone, Copy, Debug, PartialEq, Eq)]
pub enum ShownRun {
    /// The run to an end.
    End(usize),
    /// A run beside those.
    Other(usize),
}

/// How something that was asked is answered.
#[derive(Drop)]
pub enum Answered {
    /// All is as it was asked.
    Met,
    /// Something isn't.
    NotMet,
    /// Nothing was found that isn't, and a search met a limit.
    Unknown,
    /// Nothing was asked, for this reason.
    Empty(String),
}

impl Answered {
    fn text(&self, alloc: Global) -> Result<String, AllocError>
        ensures text { IfOk result (λ text. string_bytes text ≡ answer_text self.now) }
    {
        match self {
            Answered::Met => String::from_str(alloc, "met"),
            Answered::NotMet => String::from_str(alloc, "not met"),
            Answered::Unknown => String::from_str(alloc, "not known"),
            Answered::Empty(why) => format!(in alloc; "empty: {why}"),
        }
    }
}

/// Something that was asked, and its answer.
#[derive(Drop)]
pub struct Asked {
    /// The words that ask it.
    pub text: String,
    pub answer: Answered,
    /// The runs on the page that show that.
    pub runs: Vec<ShownRun>,
}

impl AsData for ShownRun {
    ghost use Rattle.lab_page.specs.Asked.{shown_data};

    ghost form = { shown_data };

    fn value(&self, alloc: Global) -> Result<Value, AllocError> {
        match *self {
            ShownRun::End(number) => json!(in alloc; ["end", number]),
            ShownRun::Other(number) => json!(in alloc; ["run", number]),
        }
    }
}

#[tactic(auto, unfolding(crate::specs::Asked::asked_data))]
fn one_value(alloc: Global, asked: &Asked) -> Result<Value, AllocError>
    ensures value { IfOk result (λ v. view v ≡ asked_data asked.now) }
{
    let answer = asked.answer.text(alloc)?;
    json!(in alloc; [&asked.text, &answer, list_value(alloc, &asked.runs)?])
}

/// What was asked of an exploration, with the answers.
pub fn asked_value(alloc: Global, asked: &[Asked]) -> Result<Value, AllocError>
    ensures value { IfOk result (λ v. view v ≡ asked_list asked.now) }
{
    let mut values = Vec::new(alloc);
    for one in asked {
        values.push(one_value(alloc, one)?)?;
    }
    Ok(Value::Array(values))
}
