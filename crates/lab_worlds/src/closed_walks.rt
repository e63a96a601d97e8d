//! Closed walks: walks part by part, from a state back to it.
ghost use Rattle.std.specs.Prelude.{OnOk, ◌≡◌, ◌<◌, All, true, IsTrue, IfOk, length, slice_set};
ghost use Rattle.lab_worlds.specs.Walked.{KeepsStart};
ghost use Rattle.lab_sched.specs.Worlds.{WorldState};
ghost use Rattle.lab_sched.specs.Schedules.{steps_of};
ghost use Rattle.lab_worlds.specs.Fairness.{IsFairSegment};
ghost use Rattle.lab_worlds.specs.Segments.{IsSegmentSoFar, KeepsSegment};

use crate::exploration::ExploreFault;
use crate::walking::Walk;
use lab_sched::{Process, World};
use std::alloc::{AllocError, Global};

/// A part of a closed walk.
#[derive(Clone, Copy, Drop)]
pub enum WalkPart {
    /// A step of a process, and then so many local steps.
    Step { pid: u8, taken: u32 },
    /// The process doesn't go on from here: it waits, or has ended.
    Rest(u32),
}

/// A closed walk through a set, from a row back to it. Along its first part processes begin to wait that take
/// no step inside the set.
#[derive(Drop)]
pub struct ClosedWalk {
    pub at: usize,
    pub first: Vec<WalkPart>,
    pub second: Vec<WalkPart>,
}

impl Walk {
    /// Goes along a part of a closed walk to where a process waits that doesn't go on from there.
    fn go_walk_part(&mut self, walk_part: WalkPart) -> Result<(), ExploreFault>
        ensures walk { OnOk result (KeepsStart self.old self.new) }
    {
        match walk_part {
            WalkPart::Step { pid, taken } => {
                self.go(pid as usize)?;
                self.go_on(pid as usize, taken)
            }
            WalkPart::Rest(pid) => {
                if matches!(self.world.process(pid as usize), Some(Process::Running(_))) {
                    self.go(pid as usize)?;
                }
                Ok(())
            }
        }
    }

    /// Goes along parts of a closed walk.
    pub fn go_walk_parts(&mut self, walk_parts: &[WalkPart]) -> Result<(), ExploreFault>
        ensures walk { OnOk result (KeepsStart self.old self.new) }
    {
        for walk_part in walk_parts {
            self.go_walk_part(*walk_part)?;
        }
        Ok(())
    }
}

/// A walk, and for each process whether it is treated fairly along it.
#[derive(Drop)]
pub struct FairSegment {
    pub walk: Walk,
    pub fair_to: Vec<bool>,
}

fn mark(fair_to: &mut Vec<bool>, pid: usize) -> Result<(), ExploreFault>
    ensures within { OnOk result (pid < length fair_to.old.items) }
    ensures fair_to { OnOk result (fair_to.new.items ≡ slice_set fair_to.old.items pid true) }
{
    if pid >= fair_to.len() {
        return Err(ExploreFault::Unvouched);
    }
    fair_to[pid] = true;
    Ok(())
}

fn is_fair_to_all(fair_to: &[bool]) -> bool
    ensures yes { IsTrue result → All (λ b. b ≡ true) fair_to.now }
{
    fair_to.iter().all(|process| *process)
}

impl FairSegment {
    /// The walk that stays at a world.
    pub fn at(alloc: Global, world: World) -> Result<FairSegment, AllocError>
        ensures segments { IfOk result (λ segment. IsSegmentSoFar world segment) }
    {
        Ok(FairSegment {
            fair_to: vec![in alloc; false; world.count()]?,
            walk: Walk::at(alloc, world),
        })
    }

    /// Takes a step, which must be effective.
    fn take(&mut self, pid: usize) -> Result<(), ExploreFault>
        ensures segments { OnOk result (KeepsSegment self.old self.new) }
    {
        self.walk.go(pid)?;
        mark(&mut self.fair_to, pid)?;
        Ok(())
    }

    fn go_walk_part(&mut self, walk_part: WalkPart) -> Result<(), ExploreFault>
        ensures segments { OnOk result (KeepsSegment self.old self.new) }
    {
        match walk_part {
            WalkPart::Step { pid, taken } => {
                for _ in 0..=taken {
                    self.take(pid as usize)?;
                }
                Ok(())
            }
            WalkPart::Rest(pid) => {
                self.walk.pause(pid as usize)?;
                mark(&mut self.fair_to, pid as usize)?;
                Ok(())
            }
        }
    }

    fn go_walk_parts(&mut self, walk_parts: &[WalkPart]) -> Result<(), ExploreFault>
        ensures segments { OnOk result (KeepsSegment self.old self.new) }
    {
        for walk_part in walk_parts {
            self.go_walk_part(*walk_part)?;
        }
        Ok(())
    }

    /// Goes along a closed walk from behind its first part to there again.
    pub fn go_lasso(&mut self, closed_walk: &ClosedWalk) -> Result<(), ExploreFault>
        ensures segments { OnOk result (KeepsSegment self.old self.new) }
    {
        self.go_walk_parts(closed_walk.second.as_slice())?;
        self.go_walk_parts(closed_walk.first.as_slice())
    }

    /// Whether it has a step, and each process is treated fairly.
    pub fn is_whole(&self) -> bool
        ensures yes { IsTrue result → (start : WorldState) → IsSegmentSoFar start self.now
            → IsFairSegment start (steps_of self.now.walk.schedule) }
    {
        self.walk.schedule.total() > 0 && is_fair_to_all(self.fair_to.as_slice())
    }
}
