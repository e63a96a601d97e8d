//! Processes of a laboratory.
ghost use Rattle.std.specs.Prelude.{◌≡◌, ◌↔◌, IfOk, IsTrue, length, map, All, Err};
ghost use Rattle.lab_sched.specs.Worlds.{machine_of, profile_of};
ghost use Rattle.lab_sched.specs.Starts.{start_of, fresh, IsCount, Runs, AreStarts, initial_world};
ghost use Rattle.lab_sched.specs.Held.{process_view};
ghost use Rattle.lab_sched.specs.declared.process.FreshFault.TheVariants.{Count, NoMemory};

use crate::World;
use ipc_kernel::{Call, Kernel, PROCESS_MAX};
use lc3_machine::{Ended, Machine, Running, Waiting};
use lc3_table::Profile;
use lc3_word::Image;
use std::alloc::{AllocError, AllocFailed, Global};
use std::marker::Model;
use thiserror::Error;

/// A process by its status. A waiting one is kept with the call that it asks for.
#[derive(Drop)]
pub enum Process {
    Running(Running),
    Waiting(Waiting, Call),
    Ended(Ended),
}

impl Process {
    ghost use Rattle.lab_sched.specs.Held.{process_view};
    ghost use Rattle.lab_sched.specs.Outputs.{kept_with_output, with_output};

    /// The machine of the process, whatever its status.
    #[inline]
    pub fn machine(&self) -> &Machine
        ensures process { result.now.process ≡ machine_of (process_view self.now) }
    {
        match self {
            Process::Running(running) => running.machine(),
            Process::Waiting(waiting, _) => waiting.machine(),
            Process::Ended(ended) => ended.machine(),
        }
    }

    /// The profile of the machine.
    pub fn profile(&self) -> Profile
        ensures value { result ≡ profile_of (process_view self.now) }
    {
        self.machine().profile()
    }

    /// An equal process, of which the same can be written without taking memory.
    pub fn copy(&self, alloc: Global) -> Result<Process, AllocError>
        ensures equal { IfOk result (λ copy. copy ≡ self.now) }
    {
        match self {
            Process::Running(running) => Ok(Process::Running(running.copy(alloc)?)),
            Process::Waiting(waiting, call) => {
                let waiting = waiting.copy(alloc)?;
                let call = call.clone()?;
                Ok(Process::Waiting(waiting, call))
            }
            Process::Ended(ended) => Ok(Process::Ended(ended.copy(alloc)?)),
        }
    }

    /// Puts this output in the place of the process's own.
    pub fn set_output(&mut self, output: Vec<u8>)
        ensures output { self.new ≡ kept_with_output self.old output.items }
        ensures seen { process_view self.new ≡ with_output (process_view self.old) output.items }
    {
        match self {
            Process::Running(running) => running.set_output(output),
            Process::Waiting(waiting, _) => waiting.set_output(output),
            Process::Ended(ended) => ended.set_output(output),
        }
    }

    /// Whether two processes are the same, whatever of them can be written without taking memory.
    pub fn is_same(&self, other: &Process) -> bool
        ensures same { IsTrue result ↔ (process_view self.now ≡ process_view other.now) }
    {
        match (self, other) {
            (Process::Running(running), Process::Running(other)) => running.is_same(other),
            (Process::Waiting(waiting, call), Process::Waiting(other, other_call)) => {
                waiting.is_same(other) && call == other_call
            }
            (Process::Ended(ended), Process::Ended(other)) => ended.is_same(other),
            _ => false,
        }
    }

    /// A number that is the same for equal processes of a world and, as a rule, another for others.
    /// A process that waits asks for its call, so that the call adds nothing.
    pub fn digest(&self) -> u64 {
        match self {
            Process::Running(running) => running.digest(),
            Process::Waiting(waiting, _) => !waiting.digest(),
            Process::Ended(ended) => ended.digest(),
        }
    }
}

/// What a process starts with: an image in memory and its console input.
#[derive(Drop)]
pub struct Program {
    pub image: Image,
    pub input: Vec<u8>,
}

/// Why there is no laboratory of some programs.
#[derive(Clone, Copy, Debug, PartialEq, Eq, Error)]
pub enum FreshFault {
    /// There are none, or more than 64.
    #[error("Count")]
    Count,
    /// Memory was refused.
    #[error("out of memory")]
    NoMemory,
}

impl From<AllocError> for FreshFault {
    ghost from_gives = { λ _ e. e ≡ NoMemory };

    fn from(_refused: AllocError) -> FreshFault {
        FreshFault::NoMemory
    }
}

impl<T: Drop> From<AllocFailed<T>> for FreshFault {
    ghost from_gives = { λ _ e. e ≡ NoMemory };

    fn from(_refused: AllocFailed<T>) -> FreshFault {
        FreshFault::NoMemory
    }
}

/// A laboratory before its first step: processes that run, each at the start of its program, over
/// the empty kernel.
pub struct Fresh {
    processes: Vec<Process>,
    kernel: Kernel,
}

impl Drop for Fresh {
    fn drop(self) {
        let Fresh {
            processes: _,
            kernel: _,
        } = self;
    }
}

impl Model for Fresh {
    ghost use Rattle.std.specs.Prelude.{map};
    ghost use Rattle.lab_sched.specs.Worlds.{WorldState};
    ghost use Rattle.lab_sched.specs.Held.{process_view};
    ghost use Rattle.lab_sched.specs.Private.Fresh.{IsFresh};

    ghost Value = { WorldState };

    ghost view = { λ f. record { processes = map process_view f.processes.items; kernel = f.kernel } };

    ghost invariant = { λ f. IsFresh f.processes.items f.kernel };
}

/// The processes of programs, each at its start and of this profile.
fn starts_of(
    alloc: Global,
    programs: &[Program],
    profile: Profile,
) -> Result<Vec<Process>, AllocError>
    ensures starts { IfOk result
        (λ v. map process_view v.items ≡ map (start_of profile) programs.now) }
    ensures running { IfOk result (λ v. All Runs v.items) }
{
    let mut processes = Vec::with_capacity(alloc, programs.len())?;
    for program in programs {
        let running = Running::load(alloc, &program.image, program.input.as_slice(), profile)?;
        processes.push(Process::Running(running))?;
    }
    Ok(processes)
}

impl Fresh {
    /// The laboratory of 1 to 64 programs, process 0 with the first of them, on machines of this
    /// profile.
    pub fn new(alloc: Global, programs: &[Program], profile: Profile) -> Result<Fresh, FreshFault>
        ensures count { (result ≡ Err Count) ↔ (¬ IsCount (length programs.now)) }
        ensures start { IfOk result (λ f. f ≡ fresh profile programs.now) }
    {
        if !matches!(programs.len(), 1..=PROCESS_MAX) {
            return Err(FreshFault::Count);
        }
        let processes = starts_of(alloc, programs, profile)?;
        let kernel = Kernel::new(alloc, programs.len())?;
        Ok(Fresh { processes, kernel })
    }

    /// The processes at their starts, 1 to 64, each running, all of one profile. The kernel that
    /// they were to share is empty.
    pub fn processes(self) -> Vec<Process>
        ensures starts { AreStarts result.items }
        ensures world { initial_world result.items ≡ self }
    {
        let Fresh {
            processes: starts,
            kernel: _,
        } = self;
        starts
    }

    #[tactic(auto, using(crate::proofs::WorldLemmas::fresh_world))]
    fn into_world(self) -> World
        ensures world { result ≡ self }
    {
        let Fresh { processes, kernel } = self;
        World::join(processes, kernel)
    }
}

impl From<Fresh> for World {
    ghost from_gives = { λ f w. w ≡ f };

    fn from(fresh: Fresh) -> World {
        fresh.into_world()
    }
}
