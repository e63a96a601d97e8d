//! Worlds that an exploration visited, as a page holds them.
ghost use Rattle.std.specs.Prelude.{◌≡◌, ◌<◌, ◌≤◌, ◌++◌, [], IfOk, OnOk, length, map, string_bytes, ⊤, replicate};
ghost use Rattle.std.specs.Option.{option_map, option_to_list};
ghost use Rattle.serde_json.specs.View.{view};
ghost use Rattle.serde_json.specs.Data.{string};
ghost use Rattle.ipc_kernel.specs.Places.{is_empty, place_at};
ghost use Rattle.lab_sched.specs.Held.{process_view};
ghost use Rattle.lab_sched.specs.Verdicts.{verdict_word};
ghost use Rattle.lab_sched.specs.Schedules.{most_steps};
ghost use Rattle.lab_moments.specs.Values.{list, or_null};
ghost use Rattle.lab_page.specs.Worlds.{node_data, objects, place_before, stand_text, standing_at, standing_data, standings, with_leg, with_node, worlds_json};
ghost use Rattle.lab_told.specs.Scenes.{first_scene, told};
ghost use Rattle.lab_page.specs.Legs.{leg_data, leg_events, told_data};

use crate::moments::{outputs, push_listed, push_parts};
use ipc_kernel::{Kernel, OBJECT_PLACES};
use lab_moments::{AsData, act_value, list_value, object_value, push_some};
use lab_sched::{Block, Process, Verdict, World};
use lab_texts::{Standing, how_name};
use lab_told::{Taken, Tally, Telling, Told, arguments_of, held_place, service_at, tell_run};
use lab_trace::{event_text, push_call};
use lc3_word::Reg;
use serde_json::{Value, json};
use std::alloc::{AllocError, Global};
use std::marker::Model;

/// A call of a process, which leads from the world with one number to that with another. Numbers count from 0.
#[derive(Clone, Copy, Debug, PartialEq, Eq)]
pub struct WorldEdge {
    pub from: u32,
    pub to: u32,
    pub process: u32,
}

impl AsData for WorldEdge {
    ghost use Rattle.lab_page.specs.Worlds.{edge_data};

    ghost form = { edge_data };

    fn value(&self, alloc: Global) -> Result<Value, AllocError> {
        json!(in alloc; [self.from, self.to, self.process])
    }
}

/// Worlds in which each process stands before a call, or has ended, the edges between them, and what the steps of each edge tell.
#[derive(Drop)]
pub struct Worlds {
    /// The worlds as JSON, with commas between them.
    json: Vec<u8>,
    edges: Vec<WorldEdge>,
    /// What steps of processes tell, as JSON, with commas between them.
    legs: Vec<u8>,
}

impl Model for Worlds {
    ghost use Rattle.lab_page.specs.Worlds.{Worlds as Listed};

    ghost Value = { Listed };

    ghost view = { λ w. record {
      json = w.json.items;
      edges = w.edges.items;
      legs = w.legs.items;
    } };
}

/// What process `pid` of a world stands before: its call, else its instruction; or how it ended.
fn stand_text(
    alloc: Global,
    world: &World,
    pid: usize,
    process: &Process,
) -> Result<String, AllocError>
    requires process { pid < length world.now.processes }
    ensures text { IfOk result (λ s. string_bytes s
        ≡ stand_text world.now.kernel pid (process_view process.now)) }
{
    let mut text = String::new(alloc);
    match process {
        Process::Ended(ended) => text.push_str(how_name(ended.how()))?,
        Process::Running(_) | Process::Waiting(_, _) => match service_at(process) {
            Some(service) => {
                let arguments = arguments_of(alloc, world.kernel(), pid, process, service)?;
                push_call(&mut text, service, &arguments)?;
            }
            None => write!(text, "{}", Standing(process.machine()))?,
        },
    }
    Ok(text)
}

/// The place of the object that the call is on before which process `pid` stands, where it is on one.
fn place_before(world: &World, pid: usize, process: &Process) -> Option<u8>
    requires process { pid < length world.now.processes }
    ensures place { result ≡ place_before world.now.kernel pid (process_view process.now) }
{
    let service = service_at(process)?;
    let number = process.machine().reg(Reg::of_low_bits(0));
    held_place(world.kernel(), pid, service, number)
}

#[tactic(auto, unfolding(crate::specs::Worlds::standing_data))]
fn standing_value(
    alloc: Global,
    world: &World,
    pid: usize,
    process: &Process,
) -> Result<Value, AllocError>
    requires process { pid < length world.now.processes }
    ensures value { IfOk result (λ v. view v
        ≡ standing_data world.now.kernel pid (process_view process.now)) }
{
    let text = stand_text(alloc, world, pid, process)?;
    let (pc, place) = (process.machine().pc(), place_before(world, pid, process));
    let ended = matches!(process, Process::Ended(_));
    json!(in alloc; [pc, process.machine().word(pc), ended, text, place])
}

fn standing_at(alloc: Global, world: &World, pid: usize) -> Result<Option<Value>, AllocError>
    requires process { pid < length world.now.processes }
    ensures standing { IfOk result (λ v. option_to_list (option_map view v)
        ≡ standing_at world.now pid) }
{
    match world.process(pid) {
        Some(process) => Ok(Some(standing_value(alloc, world, pid, process)?)),
        None => Ok(None),
    }
}

#[tactic(auto, using(lab_moments::proofs::ValueLemmas::below))]
fn standings(alloc: Global, world: &World) -> Result<Vec<Value>, AllocError>
    ensures standings { IfOk result (λ v. map view v.items ≡ standings world.now) }
{
    let mut standings = Vec::new(alloc);
    for pid in 0..world.count() {
        push_some(&mut standings, standing_at(alloc, world, pid)?)?;
    }
    Ok(standings)
}

fn is_empty(kernel: &Kernel, place: u8) -> bool
    ensures empty { result ≡ is_empty (place_at kernel.now.places place) }
{
    kernel.queue_at(place).is_none() && kernel.semaphore_at(place).is_none()
}

/// The objects of a world in order of place, without what only the steps to it tell of them.
#[tactic(auto, using(lab_moments::proofs::ValueLemmas::below))]
fn objects_value(alloc: Global, world: &World) -> Result<Value, AllocError>
    ensures value { IfOk result (λ v. view v ≡ list (objects world.now)) }
{
    let tally = Tally::new(alloc, world.count())?;
    let mut objects = Vec::new(alloc);
    for place in 0..OBJECT_PLACES as u8 {
        if is_empty(world.kernel(), place) {
            continue;
        }
        objects.push(object_value(alloc, world, &tally, 0, place)?)?;
    }
    Ok(Value::Array(objects))
}

fn verdict_value(alloc: Global, verdict: Option<Verdict>) -> Result<Value, AllocError>
    ensures value { IfOk result (λ v. view v
        ≡ or_null (option_map (λ x. string (verdict_word x)) verdict)) }
{
    match verdict {
        Some(verdict) => Value::try_from_str(alloc, verdict.word()),
        None => Ok(Value::Null),
    }
}

/// A world to which so many calls lead, with its end.
#[tactic(auto, unfolding(crate::specs::Worlds::node_data))]
fn node_value(
    alloc: Global,
    world: &World,
    calls: u32,
    verdict: Option<Verdict>,
    end: Option<usize>,
) -> Result<Value, AllocError>
    ensures node { IfOk result (λ v. view v ≡ node_data world.now calls verdict end) }
{
    json!(in alloc; [
        calls,
        standings(alloc, world)?,
        verdict_value(alloc, verdict)?,
        end,
        outputs(alloc, world)?,
        objects_value(alloc, world)?
    ])
}

impl Worlds {
    /// No world, where there will be these edges.
    pub fn new(alloc: Global, edges: Vec<WorldEdge>) -> Worlds
        ensures none { result ≡ record {
          json = [];
          edges = edges.items;
          legs = [];
        } }
    {
        Worlds {
            json: Vec::new(alloc),
            edges,
            legs: Vec::new(alloc),
        }
    }

    /// How many bytes the worlds and what is told of steps take.
    pub fn size(&self) -> usize {
        self.json.len().saturating_add(self.legs.len())
    }

    /// Adds the next world, to which so many calls lead. Where no process goes on, its end has a verdict, and a number among
    /// those that are told, from 0, if it is one of them.
    #[tactic(auto, using(crate::proofs::WorldLemmas::node_plain))]
    pub fn add(
        &mut self,
        world: &World,
        calls: u32,
        verdict: Option<Verdict>,
        end: Option<usize>,
    ) -> Result<(), AllocError>
        ensures added { OnOk result (self.new ≡ with_node self.old world.now calls verdict end) }
    {
        let node = node_value(*self.json.allocator(), world, calls, verdict, end)?;
        push_listed(&mut self.json, &node)
    }

    /// Takes so many steps of a process, and adds what they tell: of each process first those from the start to the first
    /// world, then, for each edge in order, those of its process.
    #[tactic(auto, using(crate::proofs::LegLemmas::leg_plain))]
    pub fn add_leg(&mut self, world: &mut World, pid: usize, steps: u32) -> Result<(), AllocError>
        requires process { pid < length world.old.processes }
        requires room { steps ≤ most_steps }
        ensures added { OnOk result (self.new ≡ with_leg self.old world.old pid steps) }
    {
        let leg = leg_value(*self.legs.allocator(), world, pid, steps)?;
        push_listed(&mut self.legs, &leg)
    }
}

/// Adds the JSON of worlds, where they are drawn.
#[tactic(auto, using(crate::proofs::WorldLemmas::edges_plain))]
pub fn push_worlds(json: &mut Vec<u8>, worlds: &Option<Worlds>) -> Result<(), AllocError>
    ensures added { OnOk result (json.new.items ≡ json.old.items ++ worlds_json worlds.now) }
{
    let Some(worlds) = worlds else {
        return json.extend_from_slice(b"null");
    };
    let edges = list_value(*json.allocator(), &worlds.edges)?.to_vec(*json.allocator())?;
    let (nodes, legs) = (worlds.json.as_slice(), worlds.legs.as_slice());
    push_parts(json, &[b"[[", nodes, b"],", &edges, b",[", legs, b"]]"])
}

/// Adds what happened in step `number` of a leg, where it has a line in a trace.
#[tactic(auto, unfolding(crate::specs::Legs::event_data))]
fn push_told(events: &mut Vec<Value>, number: u32, told: &Told) -> Result<(), AllocError>
    ensures added { OnOk result (map view events.new.items ≡ map view events.old.items
        ++ told_data number told.now) }
{
    let Told::Shown(event) = told else {
        return Ok(());
    };
    let alloc = *events.allocator();
    let text = event_text(alloc, event)?;
    let act = act_value(alloc, &event.act)?;
    Ok(events.push(json!(in alloc; [number, event.pc, text, act])?)?)
}

/// How a leg is told.
struct ToldLeg;

impl Telling<Vec<Value>> for ToldLeg {
    type Fault = AllocError;

    ghost tells = { λ _ s p old new. map view new.items
        ≡ map view old.items ++ told_data s.number (told s p) };

    ghost fails = { λ _ _ _ _ _ _. ⊤ };

    ghost refused = { λ _ _ _ _ _ _. tt };

    fn tell_step(
        &self,
        _alloc: Global,
        events: &mut Vec<Value>,
        taken: &Taken<'_>,
    ) -> Result<(), AllocError> {
        push_told(events, taken.number, taken.told)
    }
}

/// Takes so many steps of a process, and tells what happened in them, as if no step had been before.
fn leg_events(
    alloc: Global,
    world: &mut World,
    pid: usize,
    steps: u32,
) -> Result<Vec<Value>, AllocError>
    requires process { pid < length world.old.processes }
    requires room { steps ≤ most_steps }
    ensures events { IfOk result (λ v. map view v.items
        ≡ leg_events (first_scene world.old) (replicate steps pid)) }
{
    let mut tally = Tally::new(alloc, world.count())?;
    let mut events = Vec::new(alloc);
    let block = Block { pid, count: steps };
    tell_run(&ToldLeg, &mut events, world, &mut tally, &[block])?;
    Ok(events)
}

/// Takes so many steps of a process: how many these are, and what happened in them.
#[tactic(auto, unfolding(crate::specs::Legs::leg_data))]
pub fn leg_value(
    alloc: Global,
    world: &mut World,
    pid: usize,
    steps: u32,
) -> Result<Value, AllocError>
    requires process { pid < length world.old.processes }
    requires room { steps ≤ most_steps }
    ensures value { IfOk result (λ v. view v ≡ leg_data world.old pid steps) }
{
    json!(in alloc; [steps, leg_events(alloc, world, pid, steps)?])
}
