//! Explorations.
ghost use Rattle.std.specs.Prelude.{◌≡◌, All, IsTrue, false, None, IfOk, IfSome, length, ◌≤◌, ◌+◌, OnOk};
ghost use Rattle.std.specs.List.Sorted.{IsNonDecreasingBy};
ghost use Rattle.lab_worlds.specs.Ends.{AreEnds, HaveAllEnds, HaveFewestCalls, NoneStuck, NeverStuck, IsEnd};
ghost use Rattle.lab_worlds.specs.Met.{IsCutShort};
ghost use Rattle.lab_worlds.specs.Reached.{AreReached, AreKept};
ghost use Rattle.lab_worlds.specs.Lassos.{IsLasso, CanBeRepeated, AreEndless, AreBounded};
ghost use Rattle.lab_worlds.specs.Fairness.{IsFairLasso, AreFairlyEndless, AreFairlyBounded};
ghost use Rattle.lab_explore.specs.Visits.{start_of, IsVisited};
ghost use Rattle.lab_explore.specs.Private.Explored.{IsExplored};
ghost use Rattle.lab_explore.specs.Private.Keeping.{KeepsReduction};
ghost use Rattle.lab_sched.specs.Worlds.{WorldState};
ghost use Rattle.lab_worlds.specs.Unwaiting.{unwaiting, NoneGoesOn};
ghost use Rattle.lab_worlds.specs.Walked.{waiting, KeepsStart};
ghost use Rattle.lab_search.specs.Stored.{IsAt, IsStore, IsLike};
ghost use Rattle.lab_explore.specs.Private.RowEnds.{HaveRowEnds};
ghost use Rattle.lab_sched.specs.Schedules.{steps_of};
ghost use Rattle.lab_states.specs.Rising.{AreRising};

use crate::fair::Lassos;
use crate::keeping::keep_reduction;
use crate::reached::{Visited, visit};
use crate::refusals::depths_of;
use lab_conditions::Never;
use lab_sched::Fresh;
use lab_search::both;
use lab_states::{Cycle, cycle_of, depth_of, is_order, is_order_by_number, order_of};
use lab_worlds::{
    End, Exploration, ExploreFault, Lasso, Limits, Observer, Walk, Workers, discard, end_of,
};
use std::alloc::Global;
use std::thread::Threads;

/// Visits every world at calls that a laboratory can come to, as far as the limits and the memory
/// allow, those with fewer calls first; where nothing is asked that another world could show, no
/// process takes a name away, and one stands at a call that no other's depends on, it goes on alone.
/// What must never be so of one process is asked so first, and of each world if it is found.
/// Each end has a schedule of effective steps that leads to it;
/// ends with fewer calls come first. Where the exploration is complete, there is no other end,
/// whatever steps are taken, in any order, but for the numbers of places in the kernel, and none is
/// reached by fewer calls; and if then no end is stuck, no such steps lead to a world that is. For each
/// thing that must never be so, in order, there is a schedule of effective steps that leads to it (to
/// a world of which the condition holds; the last step loses a message or is a call that is refused),
/// or none; where the
/// exploration is complete and there is none, it never is so, whatever steps are taken, in any order.
/// A lasso can be repeated as often as one likes, so some effective steps never end; where the
/// exploration is complete and has no lasso, each list of effective steps ends, after no more than
/// some number of them. If only fair lassos are asked for, each process takes a step in a lasso or has
/// no effective one at some world along it; where the exploration is complete and has none, no more
/// than some number of such segments can follow each other. An exploration that isn't complete met the
/// limit of worlds, of steps, with the process that goes on so long, or of memory, or memory was
/// refused: a check that fails is an error. The observer is told of the worlds as they
/// are visited; workers judge conditions side by side, and what is found doesn't depend on them.
pub fn explore<O: Observer, R: Threads + Sync>(
    alloc: Global,
    fresh: Fresh,
    limits: Limits,
    nevers: &[Never],
    fair: bool,
    observer: &mut O,
    workers: &Workers<'_, R>,
) -> Result<Exploration, ExploreFault>
    ensures sound { IfOk result (λ found. AreEnds fresh found.ends.items) }
    ensures ordered { IfOk result (λ found. IsNonDecreasingBy (λ e. e.calls) found.ends.items) }
    ensures complete { IfOk result (λ found.
        IsTrue found.complete → HaveAllEnds fresh found.ends.items) }
    ensures fewest { IfOk result (λ found.
        IsTrue found.complete → HaveFewestCalls fresh found.ends.items) }
    ensures free { IfOk result (λ found.
        IsTrue found.complete → NoneStuck found.ends.items → NeverStuck fresh) }
    ensures reached { IfOk result (λ found. AreReached fresh nevers.now found.reached.items) }
    ensures unreached { IfOk result (λ found. IsTrue found.complete
        → AreKept fresh nevers.now found.reached.items) }
    ensures lasso { IfOk result (λ found. IfSome found.lasso (λ r. IsLasso fresh r)) }
    ensures repeats { IfOk result (λ found. IfSome found.lasso (λ r. CanBeRepeated fresh r)) }
    ensures endless { IfOk result (λ found. IfSome found.lasso (λ r. AreEndless fresh)) }
    ensures bounded { IfOk result (λ found. fair ≡ false → IsTrue found.complete
        → found.lasso ≡ None → AreBounded fresh) }
    ensures fair { IfOk result (λ found. found.fair ≡ fair) }
    ensures fair_lasso { IfOk result (λ found. IsTrue fair
        → IfSome found.lasso (λ r. IsFairLasso fresh r)) }
    ensures fairly_endless { IfOk result (λ found. IsTrue fair
        → IfSome found.lasso (λ r. AreFairlyEndless fresh)) }
    ensures fairly_bounded { IfOk result (λ found. IsTrue fair → IsTrue found.complete
        → found.lasso ≡ None → AreFairlyBounded fresh) }
    ensures met { IfOk result (λ found.
        found.complete ≡ false → IsCutShort fresh limits found) }
{
    // worlds that no end needs may be left out where nothing is asked of each world
    let reduced = both(keep_reduction(nevers), !fair);
    let visited = visit(alloc, fresh, limits, observer, reduced)?;
    let first = visited.into_report(alloc, limits, nevers, fair, workers)?;
    let found = first.by_fewest_calls(alloc, limits, nevers, fair, observer, workers)?;
    Ok(found)
}

impl Visited {
    /// What was found, with what the search met, if it doesn't show all.
    pub(crate) fn report_whole<R: Threads + Sync>(
        &self,
        alloc: Global,
        limits: Limits,
        nevers: &[Never],
        fair: bool,
        workers: &Workers<'_, R>,
    ) -> Result<Exploration, ExploreFault>
        requires visited { IsVisited self.now }
        requires asked { IsTrue self.now.reduced → All KeepsReduction nevers.now }
        requires fair { IsTrue self.now.reduced → fair ≡ false }
        ensures explored { IfOk result (IsExplored (start_of self.now) nevers.now fair) }
        ensures met { IfOk result (λ found.
            found.complete ≡ false → IsCutShort (start_of self.now) limits found) }
    {
        let mut found = self.report(alloc, limits, nevers, fair, workers)?;
        if found.complete {
            return Ok(found);
        }
        let met = self.met(alloc, limits, &found)?;
        found.met = Some(met);
        Ok(found)
    }

    /// What was found, with the ends, as far as the memory allows, steps to what must never be so, and a
    /// lasso, if there is one.
    fn report<R: Threads + Sync>(
        &self,
        alloc: Global,
        limits: Limits,
        nevers: &[Never],
        fair: bool,
        workers: &Workers<'_, R>,
    ) -> Result<Exploration, ExploreFault>
        requires visited { IsVisited self.now }
        requires asked { IsTrue self.now.reduced → All KeepsReduction nevers.now }
        requires fair { IsTrue self.now.reduced → fair ≡ false }
        ensures explored { IfOk result (IsExplored (start_of self.now) nevers.now fair) }
    {
        // for ends there is what is left, and where that is little a sixteenth of the limit beyond it
        let left = limits.memory.saturating_sub(self.store.size());
        let room = left.max(limits.memory / 16);
        let Collected { ends, whole } = self.ends(alloc, room)?;
        let reached = self.reached(alloc, nevers, workers)?;
        let Lassos { lasso, shown } = self.lassos(alloc, fair)?;
        Ok(Exploration {
            ends,
            reached,
            lasso,
            fair,
            worlds: u32::try_from(self.store.rows.len()).unwrap_or(u32::MAX),
            complete: both(self.complete, both(whole, shown)),
            met: None,
        })
    }
}

/// Ends, and whether these are the ends of all rows.
#[derive(Drop)]
struct Collected {
    pub ends: Vec<End>,
    pub whole: bool,
}

impl Visited {
    /// Whether it may be that no process goes on from the world of a row: no edge leads from it.
    pub fn may_rest(&self, at: usize) -> bool
        requires store { IsStore self.now.store }
        ensures no { result ≡ false → (w : WorldState)
            → IsAt self.now.store at w → NoneGoesOn w → ⊥ }
    {
        !self.store.edges.lead_from(at)
    }

    /// Whether the world of a row may be an end. In a search that isn't complete each move from it must
    /// have been made, and be none.
    fn may_be_end(&self, at: usize) -> bool
        requires visited { IsVisited self.now }
        ensures no { IsTrue self.now.complete → result ≡ false
            → (w : WorldState) → IsAt self.now.store at w → NoneGoesOn w → ⊥ }
    {
        if self.complete {
            return self.may_rest(at);
        }
        self.store.is_still(at)
    }

    /// The end of a row of this depth, reached again: where no process goes on, each begins to wait that
    /// hasn't ended. It must be the world of the row but for who waits, after no more calls than the depth
    /// and one for each process that waits. It is compiled by itself, so that the room for an end isn't
    /// cleared for each row.
    #[inline(never)]
    pub fn row_end(&self, alloc: Global, at: usize, depth: u32) -> Result<End, ExploreFault>
        requires visited { IsVisited self.now }
        ensures end { IfOk result (λ e. IsEnd (start_of self.now) e) }
        ensures row { IfOk result (λ e. IsLike self.now.store at (unwaiting e.world)) }
        ensures few { IfOk result (λ e. e.calls ≤ depth + waiting e.world) }
    {
        let mut walk = self.stay(alloc)?;
        let local = self.go_calls(alloc, at, &mut walk)?;
        walk.go_to_rest(local.as_slice())?;
        if !walk.is_within(depth) || !self.store.is_unwaiting_row(alloc, at, &walk.world)? {
            return Err(ExploreFault::Unvouched);
        }
        let end = end_of(walk)?;
        Ok(end)
    }

    /// The ends, each reached again, as long as they take about so many bytes; with whether these are
    /// all.
    fn collect(&self, alloc: Global, room: usize) -> Result<Collected, ExploreFault>
        requires visited { IsVisited self.now }
        ensures ends { IfOk result (λ c. AreEnds (start_of self.now) c.ends.items) }
        ensures all { IfOk result (λ c. IsTrue c.whole → IsTrue self.now.complete
            → HaveRowEnds self.now.store c.ends.items) }
    {
        let depths = depths_of(&self.store, alloc)?;
        let mut ends = Vec::new(alloc);
        let mut size = 0_usize;
        for at in 0..self.store.rows.len() {
            if size > room {
                return Ok(Collected { ends, whole: false });
            }
            if !self.may_be_end(at) {
                continue;
            }
            let depth = depth_of(depths.as_slice(), at);
            let end = self.row_end(alloc, at, depth)?;
            size = size.saturating_add(end.size());
            ends.push(end)?;
        }
        Ok(Collected { ends, whole: true })
    }

    /// The same ends, those with fewer calls first.
    fn ends(&self, alloc: Global, room: usize) -> Result<Collected, ExploreFault>
        requires visited { IsVisited self.now }
        ensures ends { IfOk result (λ c. AreEnds (start_of self.now) c.ends.items) }
        ensures all { IfOk result (λ c. IsTrue c.whole → IsTrue self.now.complete
            → HaveRowEnds self.now.store c.ends.items) }
        ensures ordered { IfOk result (λ c. IsNonDecreasingBy (λ e. e.calls) c.ends.items) }
    {
        let mut collected = self.collect(alloc, room)?;
        collected.ends.sort_by_key(|end| end.calls)?;
        Ok(collected)
    }
}

impl Visited {
    /// Takes the steps of the edges of a cycle, at least one. They must lead to the world of its row.
    fn go_lasso(&self, alloc: Global, cycle: &Cycle, walk: &mut Walk) -> Result<(), ExploreFault>
        ensures walk { OnOk result (KeepsStart walk.old walk.new) }
        ensures some { OnOk result (1 ≤ length (steps_of walk.new.schedule)) }
        ensures row { OnOk result (IsLike self.now.store cycle.now.at walk.new.world) }
    {
        for edge in cycle.edges.iter().rev() {
            let taken = self.steps_after(edge.from, edge.pid)?;
            walk.go(edge.pid as usize)?;
            walk.go_on(edge.pid as usize, taken)?;
        }
        if walk.schedule.total() == 0 || !self.store.is_row(alloc, cycle.at, &walk.world)? {
            return Err(ExploreFault::Unvouched);
        }
        Ok(())
    }

    /// The lasso by a cycle of edges, run from the start: to the world of its row, and along its edges.
    fn lasso_of(&self, alloc: Global, cycle: &Cycle) -> Result<Lasso, ExploreFault>
        requires visited { IsVisited self.now }
        ensures lasso { IfOk result (λ r. IsLasso (start_of self.now) r) }
    {
        let walk = self.walk_to(alloc, cycle.at)?;
        let schedule = walk.schedule;
        let mut round = Walk::at(alloc, walk.world);
        self.go_lasso(alloc, cycle, &mut round)?;
        let steps = round.schedule;
        Ok(Lasso { schedule, steps })
    }

    /// A lasso among the worlds that were visited, if there is one.
    pub(crate) fn lasso(&self, alloc: Global) -> Result<Option<Lasso>, ExploreFault>
        requires visited { IsVisited self.now }
        ensures lasso { IfOk result (λ lasso. IfSome lasso (λ r. IsLasso (start_of self.now) r)) }
        ensures none { IfOk result (λ lasso. lasso ≡ None → AreRising self.now.store.edges) }
    {
        let edges = &self.store.edges;
        if is_order_by_number(edges, self.store.rows.len()) {
            return Ok(None);
        }
        let order = order_of(alloc, edges, self.store.rows.len())?;
        if is_order(order.as_slice(), edges) {
            return Ok(None);
        }
        let cycle = cycle_of(alloc, edges, order)?.ok_or(ExploreFault::Unvouched)?;
        let lasso = self.lasso_of(alloc, &cycle)?;
        Ok(Some(lasso))
    }
}
