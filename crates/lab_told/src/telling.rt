//! A run that is told step by step.
ghost use Rattle.std.specs.Prelude.{◌≡◌, ◌<◌, ◌≤◌, ◌+◌, ℕ, alloc_error, IfOk, IfErr, OnOk, length, replicate};
ghost use Rattle.lab_sched.specs.Schedules.{steps_of, total_of, most_steps};
ghost use Rattle.lab_told.specs.Scenes.{Scene, scene_at, scene_after, told, next_tally};
ghost use Rattle.lab_told.specs.Tellings.{AreThere, IsNext, TellsAll, BreaksOff};
ghost use Rattle.lab_sched.specs.Worlds.{step};
ghost use Rattle.lab_told.specs.declared.told.Told.TheVariants.{Nothing};

use crate::asking::observe;
use crate::tally::Tally;
use crate::told::{Told, told_by};
use lab_sched::{Block, World};
use std::alloc::{AllocError, Global};

/// A step that was taken, with the world and the tally after it.
#[derive(Clone, Copy)]
pub struct Taken<'a> {
    pub world: &'a World,
    pub tally: &'a Tally,
    pub number: u32,
    /// Its process.
    pub pid: usize,
    /// Whether the process waited before it.
    pub waited: bool,
    /// What it did.
    pub told: &'a Told,
    /// How many steps of the process in a row it stands for: one without effect for several.
    pub count: u32,
}

/// How a run is told in an output.
pub trait Telling<O> {
    /// Why it breaks off.
    type Fault: From<AllocError>;

    /// From the first to the second output the next step of a scene is told.
    ghost tells: { Self → Scene → ℕ → O → O → Type 0 };

    /// From the first to the second output its telling fails.
    ghost fails: { Self → Scene → ℕ → O → O → Self.Fault → Type 0 };

    /// Tells a step and those that it stands for.
    fn tell_step(&self, alloc: Global, output: &mut O, taken: &Taken<'_>) -> Result<(), Self::Fault>
        requires process { taken.now.pid < length taken.now.world.now.processes }
        ensures told { (s : Scene) → IsNext s taken.now → OnOk result (TellsAll (tells self.now) s
            (replicate taken.now.count taken.now.pid) output.old output.new) }
        ensures fault { (s : Scene) → IsNext s taken.now → IfErr result
            (λ e. fails self.now s taken.now.pid output.old output.new e) };

    /// Where memory is refused before, the output is left as it was.
    ghost refused: { (t : Self) (s : Scene) (p : ℕ) (o : O) (e : Self.Fault)
        → Self.Fault.from_gives alloc_error e → fails t s p o o e };
}

/// Steps of one process in a row.
#[derive(Clone, Copy)]
struct Steps {
    /// The number of the first.
    first: u32,
    pid: usize,
    count: u32,
}

/// Takes the first of some steps, and tells it and those that it stands for. The answer is how many these are.
fn tell_first<O, T: Telling<O>>(
    telling: &T,
    output: &mut O,
    world: &mut World,
    tally: &mut Tally,
    steps: Steps,
) -> Result<u32, T::Fault>
    requires process { steps.pid < length world.old.processes }
    requires some { 1 ≤ steps.count }
    ensures scene { IfOk result (λ done. scene_at (steps.first + done) world.new tally.new
        ≡ scene_after (scene_at steps.first world.old tally.old) (replicate done steps.pid)) }
    ensures told { IfOk result (λ done. TellsAll (T.tells telling.now)
        (scene_at steps.first world.old tally.old) (replicate done steps.pid)
        output.old output.new) }
    ensures some { IfOk result (λ done. 1 ≤ done) }
    ensures within { IfOk result (λ done. done ≤ steps.count) }
    ensures fault { IfErr result (λ e. T.fails telling.now
        (scene_at steps.first world.old tally.old) steps.pid output.old output.new e) }
{
    let Steps { first, pid, count } = steps;
    let alloc = tally.allocator();
    let waited = tally.account(pid).since.is_some();
    let told = trace_step(alloc, world, tally, first, pid)?;
    let count = steps_told(&told, count);
    let taken = Taken {
        world,
        tally,
        number: first,
        pid,
        waited,
        told: &told,
        count,
    };
    telling.tell_step(alloc, output, &taken)?;
    Ok(count)
}

/// Takes steps of one process in a row and tells them.
fn tell_block<O, T: Telling<O>>(
    telling: &T,
    output: &mut O,
    world: &mut World,
    tally: &mut Tally,
    steps: Steps,
) -> Result<(), T::Fault>
    requires process { steps.pid < length world.old.processes }
    requires room { steps.first + steps.count ≤ most_steps + 1 }
    ensures scene { OnOk result (scene_at (steps.first + steps.count) world.new tally.new
        ≡ scene_after (scene_at steps.first world.old tally.old)
        (replicate steps.count steps.pid)) }
    ensures told { OnOk result (TellsAll (T.tells telling.now)
        (scene_at steps.first world.old tally.old) (replicate steps.count steps.pid)
        output.old output.new) }
    ensures fault { IfErr result (BreaksOff (T.tells telling.now) (T.fails telling.now)
        (scene_at steps.first world.old tally.old) (replicate steps.count steps.pid)
        output.old output.new) }
{
    let mut done = 0;
    while done < steps.count {
        let left = Steps {
            first: steps.first + done,
            count: steps.count - done,
            ..steps
        };
        let taken = tell_first(telling, output, world, tally, left)?;
        done += taken;
    }
    Ok(())
}

/// Takes the steps of blocks, of which the first has number 1, and tells them.
pub fn tell_run<O, T: Telling<O>>(
    telling: &T,
    output: &mut O,
    world: &mut World,
    tally: &mut Tally,
    blocks: &[Block],
) -> Result<(), T::Fault>
    requires room { total_of blocks.now ≤ most_steps }
    requires there { AreThere world.old blocks.now }
    ensures scene { OnOk result (scene_at (1 + total_of blocks.now) world.new tally.new
        ≡ scene_after (scene_at 1 world.old tally.old) (steps_of blocks.now)) }
    ensures told { OnOk result (TellsAll (T.tells telling.now) (scene_at 1 world.old tally.old)
        (steps_of blocks.now) output.old output.new) }
    ensures fault { IfErr result (BreaksOff (T.tells telling.now) (T.fails telling.now)
        (scene_at 1 world.old tally.old) (steps_of blocks.now) output.old output.new) }
{
    let mut first = 1;
    for block in blocks {
        let Block { pid, count } = *block;
        tell_block(telling, output, world, tally, Steps { first, pid, count })?;
        first += count;
    }
    Ok(())
}

/// Takes step number `number`, of process `pid`, and tells what it did; the tally keeps it.
#[tactic(auto, unfolding(crate::specs::Scenes::told))]
pub fn trace_step(
    alloc: Global,
    world: &mut World,
    tally: &mut Tally,
    number: u32,
    pid: usize,
) -> Result<Told, AllocError>
    requires process { pid < length world.old.processes }
    ensures told { IfOk result (λ t. t ≡ told (scene_at number world.old tally.old) pid) }
    ensures world { OnOk result (world.new ≡ step world.old pid) }
    ensures tally { OnOk result (tally.new
        ≡ next_tally (scene_at number world.old tally.old) pid) }
{
    let before = observe(alloc, world, pid)?;
    let Ok(stepped) = world.step(pid) else {
        return Err(AllocError);
    };
    let told = told_by(world, tally, pid, before, stepped)?;
    tally.keep(world.kernel(), number, pid, &told)?;
    Ok(told)
}

/// How many of a block's steps a step stands for: one without effect for the rest of them.
pub fn steps_told(told: &Told, most: u32) -> u32
    requires some { 1 ≤ most }
    ensures other { (told.now ≡ Nothing → ⊥) → result ≡ 1 }
    ensures some { 1 ≤ result }
    ensures within { result ≤ most }
{
    match told {
        Told::Nothing => most,
        Told::Counted | Told::Shown(_) => 1,
    }
}
