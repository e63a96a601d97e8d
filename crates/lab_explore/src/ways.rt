//! Ways to the rows of a search, which are walked again.
ghost use Rattle.std.specs.Prelude.{IfOk, OnOk};
ghost use Rattle.lab_worlds.specs.Walked.{IsWalk, KeepsStart};
ghost use Rattle.lab_search.specs.Stored.{IsLike};
ghost use Rattle.lab_explore.specs.Visits.{start_of, IsVisited};

use crate::reached::Visited;
use lab_worlds::{ExploreFault, Walk, WayCall};
use std::alloc::Global;

impl Visited {
    /// How many local steps process `pid` takes after its step from the world of a row. The move must
    /// have been made.
    pub(crate) fn steps_after(&self, at: u32, pid: u8) -> Result<u32, ExploreFault> {
        let known = self.store.known_steps(at as usize, pid as u32);
        known
            .map(|steps| steps.taken)
            .ok_or(ExploreFault::Unvouched)
    }

    /// The calls on the way to a row, the last first.
    fn way(&self, alloc: Global, at: usize) -> Result<Vec<WayCall>, ExploreFault> {
        let mut way = Vec::new(alloc);
        let mut now = at;
        for _ in 0..self.store.rows.len() {
            if now == 0 {
                break;
            }
            let Some(parent) = self.store.parents.get(now) else {
                break;
            };
            let taken = self.steps_after(parent.row, parent.pid)?;
            let row = parent.row as usize;
            way.push(WayCall {
                pid: parent.pid as usize,
                taken,
                late: self.reduced && self.store.opens_own(row, parent.pid as u32),
            })?;
            now = row;
        }
        Ok(way)
    }

    /// The walk that stays at the start.
    pub fn stay(&self, alloc: Global) -> Result<Walk, ExploreFault>
        requires visited { IsVisited self.now }
        ensures walk { IfOk result (λ w. IsWalk (start_of self.now) w) }
    {
        Walk::start(alloc, self.processes.as_slice())
    }

    /// Goes the way to a row, up to its last call: the local steps of a process are taken just before
    /// its next call, and so are its opens of what is there, where worlds are left out. With the steps
    /// that are left of each process.
    pub(crate) fn go_calls(
        &self,
        alloc: Global,
        at: usize,
        walk: &mut Walk,
    ) -> Result<Vec<u32>, ExploreFault>
        ensures walk { OnOk result (KeepsStart walk.old walk.new) }
    {
        let way = self.way(alloc, at)?;
        let mut local = Vec::from_slice(alloc, self.firsts.as_slice())?;
        for call in way.iter().rev() {
            walk.go_call(&mut local, *call)?;
        }
        Ok(local)
    }

    /// The walk to a row, to whose world it must lead.
    pub fn walk_to(&self, alloc: Global, at: usize) -> Result<Walk, ExploreFault>
        requires visited { IsVisited self.now }
        ensures walk { IfOk result (λ w. IsWalk (start_of self.now) w) }
        ensures row { IfOk result (λ w. IsLike self.now.store at w.world) }
    {
        let mut walk = self.stay(alloc)?;
        let local = self.go_calls(alloc, at, &mut walk)?;
        walk.go_local(local.as_slice())?;
        if !self.store.is_row(alloc, at, &walk.world)? {
            return Err(ExploreFault::Unvouched);
        }
        Ok(walk)
    }
}
