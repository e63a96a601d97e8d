//! What kept a search from visiting every world, which is looked at again.
ghost use Rattle.std.specs.Prelude.{IfOk};
ghost use Rattle.lab_worlds.specs.Met.{CanRunLong, IsMet};
ghost use Rattle.lab_worlds.specs.Walked.{IsWalk};
ghost use Rattle.lab_explore.specs.Visits.{start_of, IsVisited};

use crate::reached::Visited;
use lab_search::Stop;
use lab_worlds::{End, Exploration, ExploreFault, Limits, LongRun, Met, Walk};
use std::alloc::Global;

/// About how many bytes ends take.
fn size_of_ends(ends: &[End]) -> usize {
    let mut size = 0_usize;
    for end in ends {
        size = size.saturating_add(end.size());
    }
    size
}

impl Visited {
    /// The walk to the world from which process `pid` goes on without a call: behind its step from that of
    /// a row, or the start.
    fn walk_past(&self, alloc: Global, row: Option<usize>, pid: u32) -> Result<Walk, ExploreFault>
        requires visited { IsVisited self.now }
        ensures walk { IfOk result (λ w. IsWalk (start_of self.now) w) }
    {
        let Some(row) = row else {
            return self.stay(alloc);
        };
        let mut walk = self.walk_to(alloc, row)?;
        walk.go(pid as usize)?;
        Ok(walk)
    }

    /// Where process `pid` stands after so many local steps from there on, which it must have.
    fn long_run(
        &self,
        alloc: Global,
        row: Option<usize>,
        pid: u32,
        most: u32,
    ) -> Result<LongRun, ExploreFault>
        requires visited { IsVisited self.now }
        ensures long { IfOk result (CanRunLong (start_of self.now) most) }
    {
        let walk = self.walk_past(alloc, row, pid)?;
        let run = walk.long_run(alloc, pid as usize, most)?;
        Ok(run)
    }

    /// What kept the search from visiting every world, or what was found from having every end. It must be
    /// so.
    pub(crate) fn met(
        &self,
        alloc: Global,
        limits: Limits,
        found: &Exploration,
    ) -> Result<Met, ExploreFault>
        requires visited { IsVisited self.now }
        ensures met { IfOk result (IsMet (start_of self.now) limits found.now.worlds) }
    {
        if let Some(Stop::Refused) = self.store.stop {
            return Ok(Met::Refused);
        }
        if found.worlds >= limits.worlds {
            return Ok(Met::Worlds);
        }
        if let Some(Stop::Steps { row, pid }) = self.store.stop {
            let run = self.long_run(alloc, row, pid, limits.steps)?;
            return Ok(Met::Steps(run));
        }
        let bytes = match self.store.stop {
            Some(Stop::Memory(bytes)) => bytes,
            _ => self.store.size().saturating_add(size_of_ends(&found.ends)),
        };
        if bytes <= limits.memory {
            return Err(ExploreFault::Unvouched);
        }
        Ok(Met::Memory(bytes))
    }
}
