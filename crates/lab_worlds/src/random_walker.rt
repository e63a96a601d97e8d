//! One walk: from world at calls to world at calls, by processes that random numbers choose.
ghost use Rattle.std.specs.Prelude.{◌≡◌, All, IfOk, OnOk, Option, IsTrue, false};
ghost use Rattle.lab_sched.specs.Held.{IsHeld, process_view, stepped_of};
ghost use Rattle.lab_sched.specs.Starts.{AreStarts};
ghost use Rattle.ipc_traps.specs.Asked.{Request};
ghost use Rattle.lab_sched.specs.Worlds.{StepEffect};
ghost use Rattle.lab_worlds.specs.Unwaiting.{GoesOn};
ghost use Rattle.lab_worlds.specs.Stepped.{IsStepped};

use crate::ahead::{Ahead, advance, run_on};
use crate::errors::Errors;
use crate::exploration::ExploreFault;
use crate::walking::copies;
use ipc_kernel::{Kernel, PROCESS_MAX};
use ipc_store::is_alike;
use lab_sched::{MOST_STEPS, Process, Schedule, Stepped, World, take_step};
use std::alloc::{AllocError, Global};

/// The world to which a walk came, and the steps to it. The local steps that a process has taken
/// after its last call aren't among these yet.
#[derive(Drop)]
pub struct RandomWalker {
    kernel: Kernel,
    processes: Vec<Process>,
    local: Vec<u32>,
    pub schedule: Schedule,
}

/// Takes the local steps of a process that runs, up to its next call; with how many, if it may take
/// so many.
fn come_to_call(
    alloc: Global,
    process: &mut Process,
    most: u32,
) -> Result<Option<u32>, ExploreFault>
    requires held { IsHeld process.old }
    ensures held { IsHeld process.new }
{
    if !matches!(process, Process::Running(_)) {
        return Ok(Some(0));
    }
    let ran = run_on(alloc, process, most)?;
    Ok(ran.at_call.then_some(ran.taken))
}

impl RandomWalker {
    /// The walk that begins with processes over a kernel in which nothing is open.
    pub fn new(alloc: Global, processes: &[Process]) -> Result<RandomWalker, ExploreFault>
        requires starts { AreStarts processes.now }
        requires held { All IsHeld processes.now }
        ensures held { IfOk result (λ w. All IsHeld w.processes.items) }
    {
        Ok(RandomWalker {
            kernel: Kernel::new(alloc, processes.len())?,
            processes: copies(alloc, processes)?,
            local: Vec::new(alloc),
            schedule: Schedule::new(alloc),
        })
    }

    /// Takes the local steps of each process up to its first call; with whether each may take so many.
    pub fn begin(&mut self, alloc: Global, most: u32) -> Result<bool, ExploreFault>
        requires held { All IsHeld self.old.processes.items }
        ensures held { OnOk result (All IsHeld self.new.processes.items) }
    {
        for pid in 0..self.processes.len() {
            let Some(taken) = come_to_call(alloc, &mut self.processes[pid], most)? else {
                return Ok(false);
            };
            self.local.push(taken)?;
        }
        Ok(true)
    }

    fn movable(&self, alloc: Global) -> Result<Vec<usize>, AllocError> {
        let mut movable = Vec::new(alloc);
        for (pid, process) in self.processes.iter().enumerate() {
            let has_step = match process {
                Process::Running(_) => true,
                Process::Waiting(_, call) => {
                    pid < self.kernel.count() && self.kernel.can_go(pid, call)
                }
                Process::Ended(_) => false,
            };
            if has_step {
                movable.push(pid)?;
            }
        }
        Ok(movable)
    }

    fn note(&mut self, pid: usize, count: u32) -> Result<(), ExploreFault>
        ensures processes { self.new.processes ≡ self.old.processes }
        ensures kernel { self.new.kernel ≡ self.old.kernel }
        ensures local { self.new.local ≡ self.old.local }
    {
        if pid >= PROCESS_MAX || count > MOST_STEPS - self.schedule.total() {
            return Err(ExploreFault::Unvouched);
        }
        if count > 0 {
            self.schedule.push(pid, count)?;
        }
        Ok(())
    }

    /// Takes the step of a process at its call, and its local steps after it, if it may take so many;
    /// with whether it may.
    fn go(&mut self, alloc: Global, pid: usize, most: u32) -> Result<bool, ExploreFault>
        requires held { All IsHeld self.old.processes.items }
        ensures held { OnOk result (All IsHeld self.new.processes.items) }
    {
        if pid >= self.processes.len() || pid >= self.local.len() || pid >= self.kernel.count() {
            return Err(ExploreFault::Unvouched);
        }
        let before = self.local[pid];
        self.note(pid, before)?;
        self.note(pid, 1)?;
        take_step(alloc, &mut self.processes[pid], &mut self.kernel, pid)?;
        let Some(taken) = come_to_call(alloc, &mut self.processes[pid], most)? else {
            return Ok(false);
        };
        self.local[pid] = taken;
        Ok(true)
    }

    /// Goes from world to world until none of the processes has a step, through at most so many
    /// worlds, the first among them; with whether none has.
    pub(crate) fn walk_at_random(
        &mut self,
        alloc: Global,
        generator: &mut Generator,
        worlds: u32,
        most: u32,
    ) -> Result<bool, ExploreFault>
        requires held { All IsHeld self.old.processes.items }
        ensures held { OnOk result (All IsHeld self.new.processes.items) }
    {
        for _ in 1..worlds {
            let movable = self.movable(alloc)?;
            let Some(pid) = generator.choose(&movable) else {
                return Ok(true);
            };
            if !self.go(alloc, pid, most)? {
                return Ok(false);
            }
        }
        Ok(self.movable(alloc)?.is_empty())
    }

    /// Adds the local steps that are left of each process.
    pub fn finish(&mut self) -> Result<(), ExploreFault> {
        for pid in 0..self.local.len() {
            if let Some(count) = self.local.get(pid).copied() {
                self.note(pid, count)?;
            }
        }
        Ok(())
    }

    /// Whether a world is that of the walk, but for the numbers of places in the kernel.
    pub(crate) fn is_at(&self, world: &World) -> bool {
        if !is_alike(&self.kernel, world.kernel()) || world.count() != self.processes.len() {
            return false;
        }
        self.processes.iter().enumerate().all(|(pid, process)| {
            world
                .process(pid)
                .is_some_and(|other| process.is_same(other))
        })
    }

    /// A number that depends on the world alone.
    pub fn digest(&self) -> u64 {
        let mut hash = self.kernel.digest();
        for process in &self.processes {
            hash = (hash ^ process.digest()).wrapping_mul(0x0000_0100_0000_01B3);
            hash ^= hash >> 29;
        }
        hash
    }
}

/// A kernel and a process after a step of it, and so many local steps, with the errors of those of
/// all these that are refused.
#[derive(Drop)]
pub struct Made {
    pub kernel: Kernel,
    pub process: Process,
    pub taken: u32,
    pub errors: Errors,
}

/// What came of a step.
#[derive(Drop)]
pub enum Attempt {
    /// Nothing: the process has ended, or its call must wait.
    Still,
    /// More local steps than the process may take.
    Runs,
    /// The process at its next call.
    Came(Made),
}

/// Lets a value go. A function that calls it at each of its ends is proved faster than one whose
/// ends let go of large values.
pub fn discard<T: Drop>(_value: T) {}

fn goes_on(stepped: Stepped) -> bool
    ensures yes { IsTrue result → (q : Option Request) (t : StepEffect)
        → stepped ≡ stepped_of q t → GoesOn t }
    ensures no { result ≡ false → (q : Option Request) (t : StepEffect)
        → stepped ≡ stepped_of q t → GoesOn t → ⊥ }
{
    matches!(
        stepped,
        Stepped::Moved | Stepped::Refused(_) | Stepped::Called(_)
    )
}

/// Takes a step of a process, and its local steps after it, over a kernel.
pub fn try_step(
    alloc: Global,
    mut kernel: Kernel,
    mut process: Process,
    pid: usize,
    most: u32,
) -> Result<Attempt, ExploreFault>
    requires held { IsHeld process }
    ensures stepped { IfOk result (λ attempt. IsStepped kernel pid (process_view process) attempt) }
{
    if pid >= kernel.count() {
        return Err(ExploreFault::Unvouched);
    }
    let stepped = take_step(alloc, &mut process, &mut kernel, pid)?;
    let errors = Errors::of(&stepped);
    if !goes_on(stepped) {
        return Ok(Attempt::Still);
    }
    let ahead = advance(alloc, process, most)?;
    if !ahead.at_call {
        return Ok(Attempt::Runs);
    }
    Ok(Attempt::Came(Made {
        kernel,
        process: ahead.process,
        taken: ahead.taken,
        errors: errors.and(ahead.errors),
    }))
}

/// What each number is multiplied by, after Knuth's MMIX, *The Art of Computer Programming*, 3.3.4.
const MULTIPLIER: u64 = 6_364_136_223_846_793_005;

/// What is added then.
const INCREMENT: u64 = 1_442_695_040_888_963_407;

/// The upper bits of a number, from this one on, are what chooses.
const LOWEST: u32 = 33;

/// Random numbers: a linear congruential sequence modulo 2^64, which begins with a seed.
#[derive(Clone, Copy, Debug)]
pub struct Generator {
    number: u64,
}

impl Generator {
    /// The numbers of a seed.
    pub fn new(seed: u32) -> Generator {
        Generator {
            number: seed as u64,
        }
    }

    /// The next number chooses one of these, if there is one.
    pub(crate) fn choose(&mut self, among: &[usize]) -> Option<usize> {
        if among.is_empty() {
            return None;
        }
        self.number = self.number.wrapping_mul(MULTIPLIER).wrapping_add(INCREMENT);
        let place = (self.number >> LOWEST) % among.len() as u64;
        among.get(place as usize).copied()
    }
}
