//! Explorations by a reduced search, and by a whole one if what must never be so is found.
ghost use Rattle.std.specs.Prelude.{◌≡◌, All, false, IfOk, IsTrue};
ghost use Rattle.lab_sched.specs.Starts.{AreStarts, initial_world};
ghost use Rattle.lab_sched.specs.Worlds.{WorldState};
ghost use Rattle.lab_worlds.specs.Met.{IsCutShort};
ghost use Rattle.lab_explore.specs.Visits.{start_of, IsVisited};
ghost use Rattle.lab_explore.specs.Private.Explored.{IsExplored};
ghost use Rattle.lab_explore.specs.Private.Keeping.{KeepsReduction};

use crate::reached::{Visited, visit_from};
use lab_conditions::Never;
use lab_sched::Process;
use lab_worlds::{Exploration, ExploreFault, Limits, Observer, Workers, discard};
use std::alloc::Global;
use std::mem::replace;
use std::thread::Threads;

/// What a search, which was reduced or wasn't, shows, and the processes at their starts, from which
/// another can begin.
#[derive(Drop)]
pub(crate) struct Report {
    pub exploration: Exploration,
    pub processes: Vec<Process>,
    pub reduced: bool,
}

impl Visited {
    /// The processes at their starts. All else is let go of.
    fn into_processes(mut self, alloc: Global) -> Vec<Process>
        ensures same { result ≡ self.processes }
    {
        let processes = replace(&mut self.processes, Vec::new(alloc));
        discard(self);
        processes
    }

    /// What was found. The worlds are let go of.
    pub(crate) fn into_report<R: Threads + Sync>(
        self,
        alloc: Global,
        limits: Limits,
        nevers: &[Never],
        fair: bool,
        workers: &Workers<'_, R>,
    ) -> Result<Report, ExploreFault>
        requires visited { IsVisited self }
        requires asked { IsTrue self.reduced → All KeepsReduction nevers.now }
        requires fair { IsTrue self.reduced → fair ≡ false }
        ensures explored { IfOk result (λ found.
            IsExplored (start_of self) nevers.now fair found.exploration) }
        ensures met { IfOk result (λ found. found.exploration.complete ≡ false
            → IsCutShort (start_of self) limits found.exploration) }
        ensures processes { IfOk result (λ found.
            found.processes.items ≡ self.processes.items) }
    {
        let reduced = self.reduced;
        let report = self.report_whole(alloc, limits, nevers, fair, workers);
        let processes = self.into_processes(alloc);
        match report {
            Ok(exploration) => Ok(Report {
                exploration,
                processes,
                reduced,
            }),
            Err(fault) => {
                discard(processes);
                Err(fault)
            }
        }
    }
}

/// What a whole search from processes at their starts shows.
fn explore_whole<O: Observer, R: Threads + Sync>(
    alloc: Global,
    processes: Vec<Process>,
    limits: Limits,
    nevers: &[Never],
    fair: bool,
    observer: &mut O,
    workers: &Workers<'_, R>,
) -> Result<Exploration, ExploreFault>
    requires starts { AreStarts processes.items }
    ensures explored { IfOk result
        (IsExplored (initial_world processes.items) nevers.now fair) }
{
    let visited = visit_from(alloc, processes, limits, observer, false)?;
    let report = visited.report_whole(alloc, limits, nevers, fair, workers);
    discard(visited);
    Ok(report?)
}

impl Report {
    /// Whether another search could find steps by fewer calls to what must never be so: a reduced one
    /// found some.
    fn has_others(&self) -> bool {
        let reached = &self.exploration.reached;
        self.reduced && self.exploration.complete && reached.iter().any(|steps| steps.is_some())
    }

    /// What was found, or, if a reduced search found steps to what must never be so, what a whole one
    /// finds, if it is complete, too: then no other steps lead there by fewer calls.
    pub(crate) fn by_fewest_calls<O: Observer, R: Threads + Sync>(
        self,
        alloc: Global,
        limits: Limits,
        nevers: &[Never],
        fair: bool,
        observer: &mut O,
        workers: &Workers<'_, R>,
    ) -> Result<Exploration, ExploreFault>
        requires starts { AreStarts self.processes.items }
        requires explored { IsExplored (initial_world self.processes.items) nevers.now fair
            self.exploration }
        requires met { self.exploration.complete ≡ false
            → IsCutShort (initial_world self.processes.items) limits self.exploration }
        ensures explored { IfOk result
            (IsExplored (initial_world self.processes.items) nevers.now fair) }
        ensures met { IfOk result (λ found. found.complete ≡ false
            → IsCutShort (initial_world self.processes.items) limits found) }
    {
        let others = self.has_others();
        let Report {
            exploration,
            processes,
            reduced: _,
        } = self;
        if !others {
            discard(processes);
            return Ok(exploration);
        }
        match explore_whole(alloc, processes, limits, nevers, fair, observer, workers) {
            Ok(whole) if whole.complete => {
                discard(exploration);
                Ok(whole)
            }
            Ok(whole) => {
                discard(whole);
                Ok(exploration)
            }
            Err(fault) => {
                discard(exploration);
                Err(fault)
            }
        }
    }
}
