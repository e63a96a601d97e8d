//! Fair lassos, and what shows that there is none.
ghost use Rattle.std.specs.Prelude.{◌≡◌, None, false, IsTrue, IfOk, IfSome};
ghost use Rattle.lab_sched.specs.Worlds.{run};
ghost use Rattle.lab_sched.specs.Schedules.{steps_of};
ghost use Rattle.lab_worlds.specs.Calls.{AreAlike};
ghost use Rattle.lab_worlds.specs.Fairness.{IsFairSegment, IsFairLasso};
ghost use Rattle.lab_worlds.specs.Lassos.{IsLasso};
ghost use Rattle.lab_worlds.specs.Walked.{IsWalk};
ghost use Rattle.lab_states.specs.Rising.{AreRising};
ghost use Rattle.lab_explore.specs.Visits.{start_of, IsVisited};
ghost use Rattle.lab_explore.specs.Private.Ranked.{HaveRanks, AreRanked};
ghost use Rattle.lab_search.specs.Stored.{IsStore};

use crate::reached::Visited;
use lab_sched::{Schedule, World};
use lab_states::{
    Edge, Edges, Sets, are_falling, going_from, only, place_of, rank_at, shortest_path, starved_at,
};
use lab_worlds::{ClosedWalk, ExploreFault, FairSegment, Lasso, Walk, WalkPart, are_alike};
use std::alloc::Global;
use std::mem::replace;

/// A lasso, if there is one, and whether it is shown that there is none if it isn't told, as it must be
/// if the search is complete.
#[derive(Drop)]
pub(crate) struct Lassos {
    pub lasso: Option<Lasso>,
    pub shown: bool,
}

/// The steps along a closed walk from a world, which must serve each process, and lead to a world that another
/// is alike.
fn segment_from(
    alloc: Global,
    initial: World,
    closed_walk: &ClosedWalk,
    world: &World,
) -> Result<Schedule, ExploreFault>
    ensures segment { IfOk result (λ s. IsFairSegment initial (steps_of s)) }
    ensures returns { IfOk result (λ s. AreAlike world.now (run initial (steps_of s))) }
{
    let mut segment = FairSegment::at(alloc, initial)?;
    segment.go_lasso(closed_walk)?;
    if !segment.is_whole() || !are_alike(world, &segment.walk.world) {
        return Err(ExploreFault::Unvouched);
    }
    Ok(segment.walk.schedule)
}

impl Visited {
    /// The walk to the row of a closed walk, and along its first part.
    fn lead(&self, alloc: Global, closed_walk: &ClosedWalk) -> Result<Walk, ExploreFault>
        requires visited { IsVisited self.now }
        ensures walk { IfOk result (λ w. IsWalk (start_of self.now) w) }
    {
        let mut walk = self.walk_to(alloc, closed_walk.at)?;
        walk.go_walk_parts(closed_walk.first.as_slice())?;
        Ok(walk)
    }

    /// The lasso along a closed walk. The walk along its first part is taken twice: from its end the segment goes
    /// on, which must come to a world alike.
    fn lasso_along(&self, alloc: Global, closed_walk: &ClosedWalk) -> Result<Lasso, ExploreFault>
        requires visited { IsVisited self.now }
        ensures lasso { IfOk result (λ r. IsFairLasso (start_of self.now) r) }
    {
        let other = self.lead(alloc, closed_walk)?;
        let walk = self.lead(alloc, closed_walk)?;
        if !are_alike(&other.world, &walk.world) {
            return Err(ExploreFault::Unvouched);
        }
        let schedule = walk.schedule;
        let steps = segment_from(alloc, walk.world, closed_walk, &other.world)?;
        Ok(Lasso { schedule, steps })
    }

    /// The fair lasso in the set of a row, if it can be taken.
    fn fair_lasso(
        &self,
        alloc: Global,
        sets: &Sets,
        at: usize,
    ) -> Result<Option<Lasso>, ExploreFault>
        requires visited { IsVisited self.now }
        ensures lasso { IfOk result (λ lasso.
            IfSome lasso (λ r. IsFairLasso (start_of self.now) r)) }
    {
        let count = place_of(self.processes.len())?;
        let Some(closed_walk) = closed_walk(sets, alloc, self, at, count)? else {
            return Ok(None);
        };
        match self.lasso_along(alloc, &closed_walk) {
            Ok(lasso) => Ok(Some(lasso)),
            Err(ExploreFault::Unvouched) => Ok(None),
            Err(fault) => Err(fault),
        }
    }

    /// A lasso among the worlds that were visited, if there is one; one that is fair, if that is asked.
    pub(crate) fn lassos(&self, alloc: Global, fair: bool) -> Result<Lassos, ExploreFault>
        requires visited { IsVisited self.now }
        ensures lasso { IfOk result (λ found.
            IfSome found.lasso (λ r. IsLasso (start_of self.now) r)) }
        ensures none { IfOk result (λ found.
            fair ≡ false → found.lasso ≡ None → AreRising self.now.store.edges) }
        ensures fair_lasso { IfOk result (λ found. IsTrue fair
            → IfSome found.lasso (λ r. IsFairLasso (start_of self.now) r)) }
        ensures no_fair_lasso { IfOk result (λ found. IsTrue fair → IsTrue found.shown
            → found.lasso ≡ None → HaveRanks self.now.store) }
    {
        if !fair {
            let lasso = self.lasso(alloc)?;
            return Ok(Lassos { lasso, shown: true });
        }
        let sets = Sets::new(alloc, &self.store.edges, self.store.rows.len())?;
        if let Some(at) = sets.first_fair() {
            let lasso = self.fair_lasso(alloc, &sets, at)?;
            let shown = lasso.is_some();
            self.vouch(shown)?;
            return Ok(Lassos { lasso, shown });
        }
        if !self.complete {
            return Ok(Lassos {
                lasso: None,
                shown: false,
            });
        }
        let starved_processes = sets.starved_processes(alloc)?;
        let shown = self.are_ranked(sets.of_rows.as_slice(), starved_processes.as_slice());
        self.vouch(shown)?;
        Ok(Lassos { lasso: None, shown })
    }

    /// What isn't shown of a search that is complete is an error.
    fn vouch(&self, shown: bool) -> Result<(), ExploreFault> {
        if self.complete && !shown {
            return Err(ExploreFault::Unvouched);
        }
        Ok(())
    }
}

/// What is looked for on a way.
#[derive(Clone, Copy)]
enum Goal {
    /// A row from which the process doesn't go on.
    Rest(u32),
    /// An edge of the process.
    Step(u32),
    /// The row.
    Row(usize),
}

/// Whether a row is what is looked for.
fn is_there(edges: &Edges, row: usize, goal: Goal) -> bool {
    match goal {
        Goal::Rest(pid) => going_from(edges, row) & only(pid) == 0,
        Goal::Step(_) => false,
        Goal::Row(other) => row == other,
    }
}

/// A way inside a set, and the row to which it leads.
#[derive(Drop)]
struct Way<'a> {
    sets: &'a Sets,
    visited: &'a Visited,
    row: usize,
    walk_parts: Vec<WalkPart>,
    /// The processes that take steps along it, as the bits of a number.
    moved: u64,
}

impl<'a> Way<'a> {
    /// Goes along edges, the last of which comes first.
    fn go(&mut self, path: &[Edge]) -> Result<(), ExploreFault> {
        for edge in path.iter().rev() {
            let pid = edge.pid;
            let taken = self.visited.steps_after(edge.from, pid)?;
            self.walk_parts.push(WalkPart::Step { pid, taken })?;
            self.moved |= only(pid as u32);
            self.row = edge.to as usize;
        }
        Ok(())
    }

    /// Goes on to what is looked for; with whether it is there.
    fn go_on(&mut self, goal: Goal) -> Result<bool, ExploreFault> {
        let edges = &self.visited.store.edges;
        if is_there(edges, self.row, goal) {
            return Ok(true);
        }
        let sets = self.sets;
        let alloc = *self.walk_parts.allocator();
        let set = sets.set_of(self.row);
        let path = shortest_path(alloc, edges, sets.of_rows.len(), self.row, |edge| {
            (sets.set_of(edge.to as usize) == set).then(|| match goal {
                Goal::Step(pid) => edge.pid as u32 == pid,
                _ => is_there(edges, edge.to as usize, goal),
            })
        })?;
        let Some(path) = path else {
            return Ok(false);
        };
        self.go(path.as_slice())?;
        Ok(true)
    }
}

/// A closed walk from a row through its set that treats each of so many processes fairly, if the set does.
fn closed_walk<'a>(
    sets: &'a Sets,
    alloc: Global,
    visited: &'a Visited,
    at: usize,
    count: u32,
) -> Result<Option<ClosedWalk>, ExploreFault> {
    let mut way = Way {
        sets,
        visited,
        row: at,
        walk_parts: Vec::new(alloc),
        moved: 0,
    };
    // to a row from which it doesn't go on, for each process that has no edge inside the set
    for pid in 0..count {
        if !sets.moves(way.row, pid) {
            if !way.go_on(Goal::Rest(pid))? {
                return Ok(None);
            }
            way.walk_parts.push(WalkPart::Rest(pid))?;
        }
    }
    let first = replace(&mut way.walk_parts, Vec::new(alloc));
    // along an edge of it, for each process that has one inside and took no step so far
    for pid in 0..count {
        let missing = sets.moves(way.row, pid) && way.moved & only(pid) == 0;
        if missing && !way.go_on(Goal::Step(pid))? {
            return Ok(None);
        }
    }
    if !way.go_on(Goal::Row(at))? {
        return Ok(None);
    }
    Ok(Some(ClosedWalk {
        at,
        first,
        second: way.walk_parts,
    }))
}

impl Visited {
    /// Whether ranks are such that no edge raises them, and the process of each goes on from each row of
    /// it and has no edge between two of these.
    pub(crate) fn are_ranked(&self, ranks: &[u32], starved_processes: &[Option<u8>]) -> bool
        requires store { IsStore self.now.store }
        ensures yes { IsTrue result → AreRanked self.now.store ranks.now starved_processes.now }
    {
        if !are_falling(ranks, starved_processes, &self.store.edges) {
            return false;
        }
        for at in 0..self.store.rows.len() {
            let Some(pid) = starved_at(starved_processes, rank_at(ranks, at)) else {
                continue;
            };
            let Some(goes) = self.store.goes_on(at, pid as u32) else {
                return false;
            };
            if !goes {
                return false;
            }
        }
        true
    }
}
