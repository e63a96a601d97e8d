//! What a page keeps of the steps so far, beside the world and the tally.
ghost use Rattle.std.specs.Prelude.{◌≡◌, IfOk, OnOk, option_to_list, slice_set};
ghost use Rattle.lab_moments.specs.Pasts.{first_past, past_after, received_by, unreceived_without};
ghost use Rattle.std.specs.Option.{option_map};
ghost use Rattle.serde_json.specs.View.{view};
ghost use Rattle.lab_moments.specs.Between.{count_of, with_steps, between_after, count_data, between_data};

use crate::holds::{Hold, Known, keep_holds, known_after};
use crate::state::SeenWords;
use crate::values::made_below;
use ipc_kernel::OBJECT_PLACES;
use ipc_traps::Service;
use lab_sched::World;
use lab_told::{Act, Taken, Told};
use serde_json::{Value, json};
use std::alloc::{AllocError, Global};
use std::marker::Model;

/// What is kept of the steps so far.
#[derive(Drop)]
pub struct Past {
    /// Of each process the steps since the last line, of whichever process.
    pub between: Vec<StepCount>,
    /// What was last told of the object in each place.
    pub objects: Vec<Option<Known>>,
    /// The units of semaphores that are taken, the last one first.
    pub holds: Vec<Hold>,
    /// The steps that sent the messages which nobody has received.
    pub unreceived: Vec<u32>,
    /// The words around the program counters at the start, and after each step with an effect.
    pub words: SeenWords,
}

impl Model for Past {
    ghost use Rattle.lab_moments.specs.Pasts.{Past as Kept};

    ghost Value = { Kept };

    ghost view = { λ h. record {
      between = h.between.items;
      objects = h.objects.items;
      holds = h.holds.items;
      unreceived = h.unreceived.items;
      words = h.words;
    } };
}

/// Lets go of the message that was received by what a process did.
fn receive(unreceived: &mut Vec<u32>, act: &Act)
    ensures left { unreceived.new.items
        ≡ unreceived_without (received_by act.now) unreceived.old.items }
{
    let Act::Calls(call) = act else {
        return;
    };
    if let Some(origin) = call.origin {
        unreceived.retain(|step| *step != origin.step);
    }
}

impl Past {
    /// Before the first step of a world.
    pub fn new(alloc: Global, world: &World) -> Result<Past, AllocError>
        ensures first { IfOk result (λ h. h ≡ first_past world.now) }
    {
        Ok(Past {
            between: vec![in alloc; NO_STEPS; world.count()]?,
            objects: Vec::from_array(alloc, [None; OBJECT_PLACES])?,
            holds: Vec::new(alloc),
            unreceived: Vec::new(alloc),
            words: SeenWords::new(alloc, world)?,
        })
    }

    /// Keeps steps that were taken.
    pub fn keep(&mut self, taken: &Taken<'_>) -> Result<(), AllocError>
        ensures kept { OnOk result (self.new ≡ past_after taken.now.count taken.now.number
            taken.now.pid taken.now.waited taken.now.told.now taken.now.world.now
            taken.now.tally.now self.old) }
    {
        keep_between(&mut self.between, taken)?;
        match taken.told {
            Told::Shown(event) => {
                keep_holds(&mut self.holds, taken, &self.objects, &event.act)?;
                let alloc = *self.objects.allocator();
                let objects = known_after(alloc, &self.objects, taken.world.kernel())?;
                self.objects = objects;
                self.words.keep(taken.world, taken.pid)?;
                receive(&mut self.unreceived, &event.act);
                if let Some((Service::MqSend, _)) = event.act.done() {
                    self.unreceived.push(taken.number)?;
                }
                Ok(())
            }
            Told::Counted => self.words.keep(taken.world, taken.pid),
            Told::Nothing => Ok(()),
        }
    }
}

/// How many steps of a process have no line.
#[derive(Clone, Copy, Debug, PartialEq, Eq)]
pub struct StepCount {
    /// Those that are counted.
    pub local: u32,
    /// Those without an effect while the process waits.
    pub idle: u32,
}

/// No step.
pub const NO_STEPS: StepCount = StepCount { local: 0, idle: 0 };

fn count_of(between: &[StepCount], pid: usize) -> StepCount
    ensures count { result ≡ count_of between.now pid }
{
    between.get(pid).copied().unwrap_or(NO_STEPS)
}

/// The steps of process `pid`, where there are any.
fn count_at(alloc: Global, between: &[StepCount], pid: usize) -> Result<Option<Value>, AllocError>
    ensures value { IfOk result (λ v. option_to_list (option_map view v)
        ≡ count_data pid (count_of between.now pid)) }
{
    let StepCount { local, idle } = count_of(between, pid);
    if local == 0 && idle == 0 {
        return Ok(None);
    }
    Ok(Some(json!(in alloc; [pid, local, idle])?))
}

/// Adds so many counted steps of process `pid`, and so many without an effect.
fn add_steps(
    between: &mut Vec<StepCount>,
    pid: usize,
    local: u32,
    idle: u32,
) -> Result<(), AllocError>
    ensures added { OnOk result (between.new.items ≡ slice_set between.old.items pid
        (with_steps local idle (count_of between.old.items pid))) }
{
    let was = count_of(between, pid);
    let local = was.local.checked_add(local).ok_or(AllocError)?;
    let idle = was.idle.checked_add(idle).ok_or(AllocError)?;
    if let Some(kept) = between.get_mut(pid) {
        *kept = StepCount { local, idle };
    }
    Ok(())
}

/// Keeps steps that were taken: of each process those since the last line, of whichever process.
pub fn keep_between(between: &mut Vec<StepCount>, taken: &Taken<'_>) -> Result<(), AllocError>
    ensures kept { OnOk result (between.new.items ≡ between_after taken.now.count taken.now.pid
        taken.now.waited taken.now.told.now between.old.items) }
{
    let (pid, count) = (taken.pid, taken.count);
    match taken.told {
        Told::Nothing => add_steps(between, pid, 0, if taken.waited { count } else { 0 }),
        Told::Counted => add_steps(between, pid, count, 0),
        Told::Shown(_) => {
            between.fill(NO_STEPS);
            Ok(())
        }
    }
}

/// The steps of each process that took some, one by one.
#[tactic(auto, unfolding(crate::specs::Between::between_data))]
pub fn between_value(alloc: Global, between: &[StepCount]) -> Result<Value, AllocError>
    ensures value { IfOk result (λ v. view v ≡ between_data between.now) }
{
    let counts = made_below(alloc, between.len(), |pid| count_at(alloc, between, pid))?;
    Ok(Value::Array(counts))
}
