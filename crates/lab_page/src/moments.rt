//! The moments of a run, and its end.
ghost use Rattle.std.specs.Prelude.{◌≡◌, ◌<◌, ◌++◌, [], ℕ, false, OnOk, IfOk, IfErr, IfSome, length, codes, map, slice_get, flat_map};
ghost use Rattle.std.specs.Option.{option_map, option_to_list};
ghost use Rattle.serde_json.specs.View.{view};
ghost use Rattle.serde_json.specs.Written.{compact_text, has_float};
ghost use Rattle.lab_told.specs.Scenes.{scene_at};
ghost use Rattle.lab_trace.specs.Lines.{step_line};
ghost use Rattle.lab_trace.specs.Traces.{ending};
ghost use Rattle.lab_page.specs.Faults.{IsFault};
ghost use Rattle.lab_moments.specs.Moments.{moment_by};
ghost use Rattle.lab_moments.specs.Pasts.{first_past, past_after};
ghost use Rattle.lab_moments.specs.States.{states};
ghost use Rattle.lab_page.specs.Private.Json.{more_json, run_end};
ghost use Rattle.lab_page.specs.Runs.{outcome_at, schedule_data, output_of, outputs, ended, left};
ghost use Rattle.lab_page.specs.Worlds.{listed};

use crate::paging::PageFault;
use crate::run::Look;
use lab_moments::{Past, between_value, circles_value, list_value, moment_by, states, waits_value};
use lab_sched::{Schedule, World};
use lab_template::MOST_BYTES;
use lab_texts::report_text;
use lab_told::{Taken, Tally};
use lab_trace::{Form, ending, stands, step_line};
use serde_json::Value;
use std::alloc::{AllocError, Global};
use std::marker::Model;

/// The moments so far as JSON, from the beginning of the run on, the lines of their trace, and what is kept of their steps.
/// The moments of a long run are refused before they take memory.
#[derive(Drop)]
pub struct Moments {
    json: Vec<u8>,
    lines: Vec<u8>,
    past: Past,
}

impl Model for Moments {
    ghost use Rattle.lab_page.specs.Private.Written.{Written};

    ghost Value = { Written };

    ghost view = { λ m. record {
      json = m.json.items;
      lines = m.lines.items;
      past = m.past;
    } };
}

impl Moments {
    /// The moment before the first step alone.
    #[tactic(auto, using(lab_moments::proofs::StateLemmas::states_plain))]
    pub fn new(alloc: Global, world: &World) -> Result<Moments, AllocError>
        ensures first { IfOk result (λ m. m ≡ record {
          json = codes "{\"moments\":[" ++ compact_text (states world.now);
          lines = [];
          past = first_past world.now;
        }) }
    {
        let mut json = Vec::new(alloc);
        push_behind(&mut json, "{\"moments\":[", &states(alloc, world)?)?;
        Ok(Moments {
            past: Past::new(alloc, world)?,
            json,
            lines: Vec::new(alloc),
        })
    }

    /// The JSON and the lines.
    pub fn into_parts(self) -> (Vec<u8>, Vec<u8>)
        ensures json { result.0.items ≡ self.json }
        ensures lines { result.1.items ≡ self.lines }
    {
        (self.json, self.lines)
    }

    /// Adds a moment, where there is one, and the JSON has no more bytes with it than a page may have.
    fn push(&mut self, moment: Option<Value>) -> Result<(), PageFault>
        requires plain { IfSome moment (λ m. has_float (view m) ≡ false) }
        ensures added { OnOk result (self.new.json
            ≡ self.old.json ++ more_json (option_to_list (option_map view moment))) }
        ensures lines { self.new.lines ≡ self.old.lines }
        ensures past { self.new.past ≡ self.old.past }
        ensures fault { IfErr result
            (λ e. IsFault e (self.old.json ++ more_json (option_to_list (option_map view moment)))) }
    {
        let Some(moment) = moment else {
            return Ok(());
        };
        push_behind(&mut self.json, ",", &moment)?;
        if self.json.len() > MOST_BYTES {
            return Err(PageFault::TooLarge);
        }
        Ok(())
    }

    /// Adds the moment after a step, where it has one, and its line, and keeps the steps that it stands for.
    pub fn keep_step(&mut self, look: &Look<'_, '_>, taken: &Taken<'_>) -> Result<(), PageFault>
        requires process { taken.now.pid < length taken.now.world.now.processes }
        ensures moment { OnOk result (self.new.json ≡ self.old.json
            ++ more_json (moment_by look.now.page look.now.whole taken.now.number taken.now.pid
            taken.now.told.now taken.now.world.now taken.now.tally.now self.old.past)) }
        ensures line { OnOk result (self.new.lines ≡ self.old.lines
            ++ step_line look.now.trace taken.now.number taken.now.pid taken.now.told.now) }
        ensures past { OnOk result (self.new.past ≡ past_after taken.now.count
            taken.now.number taken.now.pid taken.now.waited taken.now.told.now
            taken.now.world.now taken.now.tally.now self.old.past) }
        ensures fault { IfErr result (λ e. IsFault e (self.old.json
            ++ more_json (moment_by look.now.page look.now.whole taken.now.number taken.now.pid
            taken.now.told.now taken.now.world.now taken.now.tally.now self.old.past))) }
    {
        let alloc = *self.json.allocator();
        let moment = moment_by(alloc, taken, &self.past, &look.page, look.whole)?;
        self.push(moment)?;
        let line = step_line(alloc, &look.trace, taken.number, taken.pid, taken.told)?;
        self.lines.extend_from_slice(line.as_bytes())?;
        Ok(self.past.keep(taken)?)
    }

    /// Adds what stands behind the moments, and the end of the trace, once the schedule's steps are taken.
    pub fn finish(
        &mut self,
        world: &World,
        tally: &Tally,
        look: &Look<'_, '_>,
        schedule: &Schedule,
    ) -> Result<(), AllocError>
        ensures json { (number : ℕ) → OnOk result (self.new.json ≡ self.old.json
            ++ run_end (outcome_at look.now.page (scene_at number world.now tally.now)
            self.old.past) (schedule_data schedule.now) look.now.whole) }
        ensures lines { OnOk result (self.new.lines ≡ self.old.lines
            ++ ending look.now.trace world.now tally.now) }
    {
        let alloc = *self.json.allocator();
        let outcome = outcome_value(alloc, world, tally, &self.past, &look.page)?;
        push_run_end(&mut self.json, &outcome, schedule, look.whole)?;
        let ending = ending(alloc, world, tally, &look.trace)?;
        self.lines.extend_from_slice(&ending)
    }
}

/// The blocks of a schedule.
pub fn schedule_value(alloc: Global, schedule: &Schedule) -> Result<Value, AllocError>
    ensures value { IfOk result (λ v. view v ≡ schedule_data schedule.now) }
{
    list_value(alloc, schedule.blocks())
}

fn output_value(alloc: Global, world: &World, pid: usize) -> Result<Value, AllocError>
    ensures value { IfOk result (λ v. view v ≡ output_of (slice_get world.now.processes pid)) }
{
    match world.process(pid) {
        Some(process) => list_value(alloc, process.machine().output()),
        None => Ok(Value::Null),
    }
}

#[tactic(auto, using(lab_moments::proofs::ValueLemmas::below))]
pub(crate) fn outputs(alloc: Global, world: &World) -> Result<Value, AllocError>
    ensures value { IfOk result (λ v. view v ≡ outputs world.now) }
{
    let mut outputs = Vec::new(alloc);
    for pid in 0..world.count() {
        outputs.push(output_value(alloc, world, pid)?)?;
    }
    Ok(Value::Array(outputs))
}

/// How a run ended: the verdict, where the processes stand, the report, and what each has written.
fn ended(
    alloc: Global,
    world: &World,
    tally: &Tally,
    form: &Form<'_, '_>,
) -> Result<Vec<Value>, AllocError>
    ensures values { IfOk result (λ v. map view v.items ≡ ended form.now world.now tally.now) }
{
    let mut values = Vec::new(alloc);
    values.push(Value::try_from_str(alloc, world.verdict().word())?)?;
    values.push(Value::String(stands(alloc, world, tally, form)?))?;
    values.push(Value::String(report_text(alloc, world)?))?;
    values.push(outputs(alloc, world)?)?;
    Ok(values)
}

/// What a run left, by what was kept of its steps.
fn left(alloc: Global, world: &World, tally: &Tally, past: &Past) -> Result<Vec<Value>, AllocError>
    ensures values { IfOk result (λ v. map view v.items ≡ left world.now tally.now past.now) }
{
    let mut values = Vec::new(alloc);
    values.push(between_value(alloc, &past.between)?)?;
    values.push(list_value(alloc, &past.holds)?)?;
    values.push(list_value(alloc, &past.unreceived)?)?;
    values.push(waits_value(alloc, world, tally, &past.objects)?)?;
    values.push(circles_value(alloc, world, &past.holds)?)?;
    values.push(past.words.value(alloc)?)?;
    Ok(values)
}

#[tactic(auto, unfolding(crate::specs::Runs::outcome_at))]
fn outcome_value(
    alloc: Global,
    world: &World,
    tally: &Tally,
    past: &Past,
    form: &Form<'_, '_>,
) -> Result<Value, AllocError>
    ensures value { (number : ℕ) → IfOk result (λ v. view v
        ≡ outcome_at form.now (scene_at number world.now tally.now) past.now) }
{
    let mut values = ended(alloc, world, tally, form)?;
    values.append(&mut left(alloc, world, tally, past)?)?;
    Ok(Value::Array(values))
}

/// Adds what stands behind the moments of a run: its end and its schedule.
#[tactic(auto, using(crate::proofs::RunLemmas::schedule_plain), unfolding(crate::specs::Private::Json::run_end))]
fn push_run_end(
    json: &mut Vec<u8>,
    outcome: &Value,
    schedule: &Schedule,
    whole: bool,
) -> Result<(), AllocError>
    requires plain { has_float (view outcome.now) ≡ false }
    ensures added { OnOk result (json.new.items ≡ json.old.items
        ++ run_end (view outcome.now) (schedule_data schedule.now) whole) }
{
    let alloc = *json.allocator();
    push_behind(json, "],\"outcome\":", outcome)?;
    push_behind(json, ",\"schedule\":", &schedule_value(alloc, schedule)?)?;
    push_behind(json, ",\"whole\":", &Value::Bool(whole))?;
    Ok(json.push(b'}')?)
}

/// Adds a text and the JSON of a value.
pub fn push_behind(json: &mut Vec<u8>, text: &str, value: &Value) -> Result<(), AllocError>
    requires plain { has_float (view value.now) ≡ false }
    ensures added { OnOk result (json.new.items
        ≡ json.old.items ++ (text.now ++ compact_text (view value.now))) }
{
    let value = value.to_vec(*json.allocator())?;
    json.extend_from_slice(text.as_bytes())?;
    json.extend_from_slice(&value)
}

/// Adds the JSON of a value to that of a list, with a comma between them.
pub fn push_listed(list: &mut Vec<u8>, value: &Value) -> Result<(), AllocError>
    requires plain { has_float (view value.now) ≡ false }
    ensures added { OnOk result (list.new.items ≡ listed list.old.items (view value.now)) }
{
    let comma = if list.is_empty() { "" } else { "," };
    push_behind(list, comma, value)
}

/// Adds parts of JSON.
pub fn push_parts(json: &mut Vec<u8>, parts: &[&[u8]]) -> Result<(), AllocError>
    ensures added { OnOk result (json.new.items
        ≡ json.old.items ++ flat_map (λ part. part.now) parts.now) }
{
    for part in parts {
        json.extend_from_slice(part)?;
    }
    Ok(())
}
