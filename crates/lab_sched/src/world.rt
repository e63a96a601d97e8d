//! Worlds of processes over one kernel.
ghost use Rattle.std.specs.Prelude.{◌≡◌, ◌<◌, ◌≤◌, ◌↔◌, map, length, slice_get, All, Err, true, false, IfOk, OnOk, OnErr, replicate, take, slice_index, IfErr};
ghost use Rattle.ipc_kernel.specs.Limits.{process_max};
ghost use Rattle.std.specs.Option.{option_map, option_copied};
ghost use Rattle.lab_sched.specs.Worlds.{HasNoProcess, HasProfile, first_profile, step_effect_in, step, nothing, IsEffective, run};
ghost use Rattle.lab_sched.specs.Verdicts.{HasEndedIn, HasNotEndedIn};
ghost use Rattle.lab_sched.specs.Held.{process_view, told_in, IsWorld};
ghost use Rattle.lab_sched.specs.declared.world.StepFault.TheVariants.{NoProcess};
ghost use Rattle.lab_sched.specs.Schedules.{steps_of};

mod settle;

use crate::stepping::{advance, take_step};
use crate::{Process, Schedule, Stepped};
use ipc_kernel::Kernel;
use lc3_table::Profile;
use std::fmt;
use std::marker::Model;

/// Why a step wasn't taken.
#[derive(Clone, Copy, PartialEq, Eq, Debug)]
pub enum StepFault {
    /// The world has no such process.
    NoProcess,
    /// Memory was refused.
    NoMemory,
}

/// A world: 1 to 64 processes of one profile over one kernel.
pub struct World {
    processes: Vec<Process>,
    kernel: Kernel,
}

impl Drop for World {
    fn drop(self) {
        let World {
            processes: _,
            kernel: _,
        } = self;
    }
}

impl Model for World {
    ghost use Rattle.std.specs.Prelude.{map};
    ghost use Rattle.lab_sched.specs.Worlds.{WorldState};
    ghost use Rattle.lab_sched.specs.Held.{process_view, IsWorld};

    ghost Value = { WorldState };

    ghost view = { λ w. record { processes = map process_view w.processes.items; kernel = w.kernel } };

    ghost invariant = { λ w. IsWorld w.processes.items w.kernel };
}

impl World {
    /// The world of these processes, which have one profile, over this kernel. Each waiting process
    /// asks for the call that it is kept with, and the words of the reply are ready.
    pub fn join(processes: Vec<Process>, kernel: Kernel) -> World
        requires world { IsWorld processes.items kernel }
        ensures processes { result.processes ≡ map process_view processes.items }
        ensures kernel { result.kernel ≡ kernel }
    {
        World { processes, kernel }
    }

    /// The number of processes, 1 to 64.
    pub fn count(&self) -> usize
        ensures count { result ≡ length self.now.processes }
        ensures some { 1 ≤ result }
        ensures few { result ≤ process_max }
    {
        self.processes.len()
    }

    /// The profile of the machine that each process is.
    pub fn profile(&self) -> Profile
        ensures profile { result ≡ first_profile self.now.processes }
        ensures all { All (HasProfile result) self.now.processes }
    {
        self.processes[0].profile()
    }

    /// A process, if it is there.
    pub fn process(&self, pid: usize) -> Option<&Process>
        ensures process { option_map process_view (option_copied result)
            ≡ slice_get self.now.processes pid }
    {
        self.processes.get(pid)
    }

    /// The kernel.
    pub fn kernel(&self) -> &Kernel
        ensures kernel { result.now ≡ self.now.kernel }
        ensures count { length self.now.processes ≡ length self.now.kernel.processes }
    {
        &self.kernel
    }

    pub(crate) fn has_ended(&self, pid: usize) -> bool
        requires process { pid < length self.now.processes }
        ensures yes { result ≡ true → HasEndedIn self.now pid }
        ensures no { result ≡ false → HasNotEndedIn self.now pid }
    {
        matches!(self.processes[pid], Process::Ended(_))
    }

    #[tactic(auto, using(crate::proofs::VerdictLemmas::running_moves, crate::proofs::VerdictLemmas::retry_moves, crate::proofs::VerdictLemmas::retry_rests))]
    pub(crate) fn can_step(&self, pid: usize) -> bool
        requires process { pid < length self.now.processes }
        ensures yes { result ≡ true → IsEffective (step_effect_in self.now pid) }
        ensures no { result ≡ false → step_effect_in self.now pid ≡ nothing }
    {
        match &self.processes[pid] {
            Process::Running(_) => true,
            Process::Waiting(_, call) => self.kernel.can_go(pid, call),
            Process::Ended(_) => false,
        }
    }

    /// Takes one step of a process. After a fault nothing has changed.
    pub fn step(&mut self, pid: usize) -> Result<Stepped, StepFault>
        ensures no_process { (result ≡ Err NoProcess) ↔ HasNoProcess self.old pid }
        ensures world { OnOk result (self.new ≡ step self.old pid) }
        ensures told { IfOk result (λ stepped. stepped ≡ told_in self.old pid) }
        ensures err { OnErr result (self.new ≡ self.old) }
    {
        if pid >= self.processes.len() {
            return Err(StepFault::NoProcess);
        }
        let alloc = *self.processes.allocator();
        let process = &mut self.processes[pid];
        let Ok(stepped) = take_step(alloc, process, &mut self.kernel, pid) else {
            return Err(StepFault::NoMemory);
        };
        Ok(stepped)
    }
}

/// How many steps of a process in a row are taken before who looks on is told of them.
const STEPS_AT_ONCE: u32 = 10_000_000;

/// Who looks on while steps are taken.
pub trait Watch {
    /// So many further steps were taken, those without effect too.
    fn see(&mut self, steps: u32);
}

/// Nobody looks on.
#[derive(Clone, Copy, Debug, PartialEq, Eq)]
pub struct Unwatched;

impl Watch for Unwatched {
    fn see(&mut self, steps: u32) {
        let _ = steps;
    }
}

/// Where a run stopped: the number of steps that were taken, those without effect too, and why the
/// next one wasn't.
#[derive(Clone, Copy, Debug, PartialEq, Eq)]
pub struct RunStop {
    pub done: u64,
    pub fault: StepFault,
}

impl fmt::Display for RunStop {
    fn fmt<W: fmt::Write>(&self, f: &mut fmt::Formatter<W>) -> fmt::Result {
        match self.fault {
            StepFault::NoProcess => write!(f, "after {} steps: NoProcess", self.done),
            StepFault::NoMemory => f.write_str("out of memory"),
        }
    }
}

impl World {
    /// Takes local steps of a process up to its next call, and then the step of that call, or steps
    /// without effect, at most `most` in all; with how many were taken.
    fn advance(&mut self, pid: usize, most: u32) -> Result<u32, StepFault>
        requires some { 1 ≤ most }
        ensures world { IfOk result (λ taken. self.new ≡ run self.old (replicate taken pid)) }
        ensures some { IfOk result (λ taken. 1 ≤ taken) }
        ensures within { IfOk result (λ taken. taken ≤ most) }
        ensures err { OnErr result (self.new ≡ self.old) }
        ensures no_process { IfErr result
            (λ fault. (fault ≡ NoProcess) ↔ HasNoProcess self.old pid) }
    {
        if pid >= self.processes.len() {
            return Err(StepFault::NoProcess);
        }
        let alloc = *self.processes.allocator();
        let process = &mut self.processes[pid];
        let Ok(taken) = advance(alloc, process, most, &mut self.kernel, pid) else {
            return Err(StepFault::NoMemory);
        };
        Ok(taken)
    }

    fn run_steps(&mut self, pid: usize, count: u32) -> Result<(), RunStop>
        ensures world { OnOk result (self.new ≡ run self.old (replicate count pid)) }
        ensures stop { IfErr result (λ stop. self.new ≡ run self.old (replicate stop.done pid)) }
        ensures within { IfErr result (λ stop. stop.done < count) }
        ensures no_process { IfErr result
            (λ stop. (stop.fault ≡ NoProcess) ↔ HasNoProcess self.old pid) }
    {
        let mut left = count;
        while left > 0 {
            match self.advance(pid, left) {
                Ok(taken) => left -= taken,
                Err(fault) => {
                    return Err(RunStop {
                        done: u64::from(count - left),
                        fault,
                    });
                }
            }
        }
        Ok(())
    }

    /// Takes so many steps of a process, of which it tells who looks on.
    fn run_block<W: Watch>(&mut self, pid: usize, count: u32, watch: &mut W) -> Result<(), RunStop>
        ensures world { OnOk result (self.new ≡ run self.old (replicate count pid)) }
        ensures stop { IfErr result (λ stop. self.new ≡ run self.old (replicate stop.done pid)) }
        ensures within { IfErr result (λ stop. stop.done < count) }
        ensures no_process { IfErr result
            (λ stop. (stop.fault ≡ NoProcess) ↔ HasNoProcess self.old pid) }
    {
        let mut left = count;
        while left > 0 {
            let most = left.min(STEPS_AT_ONCE);
            if let Err(stop) = self.run_steps(pid, most) {
                watch.see(stop.done as u32);
                return Err(RunStop {
                    done: u64::from(count - left) + stop.done,
                    fault: stop.fault,
                });
            }
            left -= most;
            watch.see(most);
        }
        Ok(())
    }

    /// Takes the steps of a schedule, one after another.
    pub fn run(&mut self, schedule: &Schedule) -> Result<(), RunStop>
        ensures world { OnOk result (self.new ≡ run self.old (steps_of schedule.now)) }
        ensures stop { IfErr result
            (λ stop. self.new ≡ run self.old (take stop.done (steps_of schedule.now))) }
        ensures within { IfErr result (λ stop. stop.done < length (steps_of schedule.now)) }
        ensures no_process { IfErr result (λ stop. (stop.fault ≡ NoProcess)
            ↔ HasNoProcess self.old (slice_index (steps_of schedule.now) stop.done)) }
    {
        self.run_watched(schedule, &mut Unwatched)
    }

    /// Takes the steps of a schedule, one after another, of which it tells who looks on.
    pub fn run_watched<W: Watch>(
        &mut self,
        schedule: &Schedule,
        watch: &mut W,
    ) -> Result<(), RunStop>
        ensures world { OnOk result (self.new ≡ run self.old (steps_of schedule.now)) }
        ensures stop { IfErr result
            (λ stop. self.new ≡ run self.old (take stop.done (steps_of schedule.now))) }
        ensures within { IfErr result (λ stop. stop.done < length (steps_of schedule.now)) }
        ensures no_process { IfErr result (λ stop. (stop.fault ≡ NoProcess)
            ↔ HasNoProcess self.old (slice_index (steps_of schedule.now) stop.done)) }
    {
        let blocks = schedule.blocks();
        let mut done: u64 = 0;
        for block in blocks {
            if let Err(stop) = self.run_block(block.pid, block.count, watch) {
                return Err(RunStop {
                    done: done + stop.done,
                    fault: stop.fault,
                });
            }
            done += u64::from(block.count);
        }
        Ok(())
    }
}
