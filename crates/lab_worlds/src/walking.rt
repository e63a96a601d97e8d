//! Walks: effective steps from a world, one by one.
ghost use Rattle.std.specs.Prelude.{◌≡◌, ◌≤◌, ◌+◌, ◌++◌, ◌∷◌, [], ℕ, Option, IsTrue, false, IfOk, OnOk, length, count_by, take};
ghost use Rattle.ipc_traps.specs.Asked.{Request};
ghost use Rattle.lab_sched.specs.Worlds.{StepEffect, IsEffective, entry_of, step_effect_in, step};
ghost use Rattle.lab_sched.specs.Schedules.{steps_of};
ghost use Rattle.lab_sched.specs.Held.{IsHeld, stepped_of, told_in, process_view};
ghost use Rattle.lab_sched.specs.Starts.{AreStarts, initial_world};
ghost use Rattle.lab_sched.specs.declared.stepped.Stepped.TheVariants.{Same};
ghost use Rattle.lab_conditions.specs.Losses.{receives, Loses};
ghost use Rattle.lab_conditions.specs.Refusals.{Refuses};
ghost use Rattle.lab_worlds.specs.Reached.{Breaks};
ghost use Rattle.lab_worlds.specs.Met.{IsLongRun};
ghost use Rattle.lab_worlds.specs.Walked.{waiting, IsWalk, KeepsStart};
ghost use Rattle.lab_sched.specs.Verdicts.{is_waiting};
ghost use Rattle.lab_worlds.specs.Unwaiting.{unwaiting};

use crate::ahead::advance;
use crate::exploration::{ExploreFault, LongRun};
use crate::random_walker::discard;
use ipc_kernel::{Kernel, PROCESS_MAX};
use lab_conditions::{Never, Refusal, is_receiving, messages_in};
use lab_sched::{MOST_STEPS, Process, Schedule, Stepped, World};
use std::alloc::{AllocError, Global};

/// A world, the steps that led to it, and how many of them were calls.
#[derive(Drop)]
pub struct Walk {
    pub world: World,
    pub schedule: Schedule,
    pub calls: u32,
}

pub(crate) fn copies(alloc: Global, processes: &[Process]) -> Result<Vec<Process>, AllocError>
    ensures copies { IfOk result (λ v. v.items ≡ processes.now) }
{
    let mut copies = Vec::with_capacity(alloc, processes.len())?;
    for process in processes {
        let copy = process.copy(alloc)?;
        copies.push(copy)?;
    }
    Ok(copies)
}

fn calls_of(stepped: &Stepped) -> u32
    ensures count { (p : ℕ) (q : Option Request) (t : StepEffect) → stepped.now ≡ stepped_of q t
        → result ≡ length (entry_of p t) }
{
    match stepped {
        Stepped::Called(_) | Stepped::Waits => 1,
        Stepped::Moved | Stepped::Refused(_) | Stepped::Same => 0,
    }
}

impl Walk {
    /// The walk that stays at a world.
    pub fn at(alloc: Global, world: World) -> Walk
        ensures world { result.world ≡ world }
        ensures walk { IsWalk world result }
    {
        Walk {
            world,
            schedule: Schedule::new(alloc),
            calls: 0,
        }
    }

    /// The walk that stays at the world of processes before their first steps.
    pub fn start(alloc: Global, processes: &[Process]) -> Result<Walk, ExploreFault>
        requires starts { AreStarts processes.now }
        ensures walk { IfOk result (λ w. IsWalk (initial_world processes.now) w) }
    {
        let kernel = Kernel::new(alloc, processes.len())?;
        let copies = copies(alloc, processes)?;
        Ok(Walk::at(alloc, World::join(copies, kernel)))
    }

    /// Takes a step, which must be effective; with what is told of it.
    fn go_told(&mut self, pid: usize) -> Result<Stepped, ExploreFault>
        ensures walk { OnOk result (KeepsStart self.old self.new) }
        ensures world { OnOk result (self.new.world ≡ step self.old.world pid) }
        ensures told { IfOk result (λ stepped. stepped ≡ told_in self.old.world pid) }
        ensures steps { OnOk result (steps_of self.new.schedule
            ≡ steps_of self.old.schedule ++ pid ∷ []) }
    {
        if pid >= PROCESS_MAX || self.schedule.total() >= MOST_STEPS {
            return Err(ExploreFault::Unvouched);
        }
        let Ok(stepped) = self.world.step(pid) else {
            return Err(ExploreFault::NoMemory);
        };
        let Some(calls) = self.calls.checked_add(calls_of(&stepped)) else {
            return Err(ExploreFault::Unvouched);
        };
        if let Stepped::Same = stepped {
            return Err(ExploreFault::Unvouched);
        }
        self.calls = calls;
        self.schedule.push(pid, 1)?;
        Ok(stepped)
    }

    /// Takes a step, which must be effective.
    pub fn go(&mut self, pid: usize) -> Result<(), ExploreFault>
        ensures walk { OnOk result (KeepsStart self.old self.new) }
        ensures world { OnOk result (self.new.world ≡ step self.old.world pid) }
        ensures steps { OnOk result (steps_of self.new.schedule
            ≡ steps_of self.old.schedule ++ pid ∷ []) }
    {
        let _stepped = self.go_told(pid)?;
        Ok(())
    }

    fn is_receiving(&self, alloc: Global, pid: usize) -> Result<bool, AllocError>
        ensures no { IfOk result (λ receiving. receiving ≡ false
            → receives (step_effect_in self.now.world pid) ≡ false) }
    {
        match self.world.process(pid) {
            Some(process) => is_receiving(alloc, process),
            None => Ok(false),
        }
    }

    /// Takes a step, which must be effective and lose a message.
    fn lose(&mut self, alloc: Global, pid: usize) -> Result<(), ExploreFault>
        ensures walk { OnOk result (KeepsStart self.old self.new) }
        ensures loses { OnOk result (Loses self.old.world pid) }
        ensures steps { OnOk result (steps_of self.new.schedule
            ≡ steps_of self.old.schedule ++ pid ∷ []) }
    {
        let before = messages_in(self.world.kernel());
        if self.is_receiving(alloc, pid)? {
            return Err(ExploreFault::Unvouched);
        }
        self.go(pid)?;
        if messages_in(self.world.kernel()) >= before {
            return Err(ExploreFault::Unvouched);
        }
        Ok(())
    }

    /// Takes a step, which must be effective and what never must happen.
    pub fn go_against(
        &mut self,
        alloc: Global,
        never: &Never,
        pid: usize,
    ) -> Result<(), ExploreFault>
        ensures walk { OnOk result (KeepsStart self.old self.new) }
        ensures breaks { OnOk result (Breaks never.now self.old.world pid) }
        ensures steps { OnOk result (steps_of self.new.schedule
            ≡ steps_of self.old.schedule ++ pid ∷ []) }
    {
        match never {
            Never::Holds(_) => Err(ExploreFault::Unvouched),
            Never::Lost => self.lose(alloc, pid),
            Never::Refused(refusal) => {
                let stepped = self.go_told(pid)?;
                if !refusal.is_process(pid) || !refusal.is_refused(&stepped) {
                    return Err(ExploreFault::Unvouched);
                }
                Ok(())
            }
        }
    }

    /// Stays where a process must have no effective step.
    pub(crate) fn pause(&mut self, pid: usize) -> Result<(), ExploreFault>
        ensures world { OnOk result (self.new.world ≡ self.old.world) }
        ensures schedule { OnOk result (self.new.schedule ≡ self.old.schedule) }
        ensures calls { OnOk result (self.new.calls ≡ self.old.calls) }
        ensures none { OnOk result (IsEffective (step_effect_in self.old.world pid) → ⊥) }
    {
        match self.world.step(pid) {
            Ok(Stepped::Same) => Ok(()),
            Ok(_) => Err(ExploreFault::Unvouched),
            Err(_) => Err(ExploreFault::NoMemory),
        }
    }

    /// Takes so many steps, each of which must be effective.
    pub fn go_on(&mut self, pid: usize, count: u32) -> Result<(), ExploreFault>
        ensures walk { OnOk result (KeepsStart self.old self.new) }
    {
        for _ in 0..count {
            self.go(pid)?;
        }
        Ok(())
    }

    /// Makes a call, behind the steps that are left of its process, or puts it off behind these, with the
    /// local steps after it.
    pub fn go_call(&mut self, local: &mut Vec<u32>, call: WayCall) -> Result<(), ExploreFault>
        ensures walk { OnOk result (KeepsStart self.old self.new) }
    {
        if call.pid >= local.len() {
            return Err(ExploreFault::Unvouched);
        }
        let before = local[call.pid];
        if call.late {
            local[call.pid] = before.saturating_add(call.taken.saturating_add(1));
            return Ok(());
        }
        local[call.pid] = call.taken;
        self.go_on(call.pid, before)?;
        self.go(call.pid)
    }

    /// Takes the steps that are left of each process.
    pub fn go_local(&mut self, local: &[u32]) -> Result<(), ExploreFault>
        ensures walk { OnOk result (KeepsStart self.old self.new) }
    {
        for (pid, count) in local.iter().enumerate() {
            self.go_on(pid, *count)?;
        }
        Ok(())
    }

    /// Takes the steps that are left of each process, and behind them the one by which it begins to wait,
    /// if it hasn't ended.
    pub fn go_to_rest(&mut self, local: &[u32]) -> Result<(), ExploreFault>
        ensures walk { OnOk result (KeepsStart self.old self.new) }
    {
        for (pid, count) in local.iter().enumerate() {
            self.go_on(pid, *count)?;
            if !matches!(self.world.process(pid), Some(Process::Ended(_))) {
                self.go(pid)?;
            }
        }
        Ok(())
    }

    /// Where process `pid` stands after so many local steps from its world on, which it must have.
    pub fn long_run(&self, alloc: Global, pid: usize, most: u32) -> Result<LongRun, ExploreFault>
        ensures long { IfOk result (IsLongRun self.now.world most) }
        ensures pid { IfOk result (λ r. r.pid ≡ pid) }
    {
        let Some(process) = self.world.process(pid) else {
            return Err(ExploreFault::Unvouched);
        };
        if waits(process) {
            return Err(ExploreFault::Unvouched);
        }
        let ahead = advance(alloc, process.copy(alloc)?, most)?;
        let machine = ahead.process.machine();
        let pc = machine.pc();
        let word = machine.word(pc);
        let at_call = ahead.at_call;
        discard(ahead);
        if at_call {
            return Err(ExploreFault::Unvouched);
        }
        Ok(LongRun { pid, pc, word })
    }

    /// Whether it has at most so many calls, and one more for each process that waits.
    pub fn is_within(&self, depth: u32) -> bool
        ensures yes { IsTrue result → self.now.calls ≤ depth + waiting self.now.world }
    {
        self.calls as u64 <= depth as u64 + count_waiting(&self.world) as u64
    }

    /// Whether so many of its steps are calls.
    pub fn has_calls(&self, count: u32) -> bool
        ensures yes { IsTrue result → self.now.calls ≡ count }
    {
        self.calls == count
    }
}

/// A call on the way to a row: its process, how many local steps that takes after it, and whether it may
/// come just before the next call of the process.
#[derive(Clone, Copy, Drop)]
pub struct WayCall {
    pub pid: usize,
    pub taken: u32,
    pub late: bool,
}

/// Whether a process waits.
pub fn waits(process: &Process) -> bool
    ensures value { result ≡ is_waiting (process_view process.now) }
    ensures held { result ≡ false → IsHeld process.now }
{
    matches!(process, Process::Waiting(_, _))
}

/// Whether no process of a world waits.
pub fn none_waits(world: &World) -> bool
    ensures none { IsTrue result → unwaiting world.now ≡ world.now }
{
    for pid in 0..world.count() {
        let Some(process) = world.process(pid) else {
            return false;
        };
        if waits(process) {
            return false;
        }
    }
    true
}

fn waiting_at(world: &World, pid: usize) -> u32
    ensures few { result ≤ 1 }
    ensures next { count_by is_waiting (take (pid + 1) world.now.processes)
        ≡ count_by is_waiting (take pid world.now.processes) + result }
{
    let Some(process) = world.process(pid) else {
        return 0;
    };
    if waits(process) { 1 } else { 0 }
}

fn count_waiting(world: &World) -> u32
    ensures count { result ≡ waiting world.now }
{
    let mut count = 0;
    for pid in 0..world.count() {
        count += waiting_at(world, pid);
    }
    count
}
