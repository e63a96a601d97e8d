//! Ways on which what is asked isn't so: the steps along edges are taken again.
ghost use Rattle.std.specs.Prelude.{IfOk, OnOk, ◌≡◌, ◌++◌, [], ◌∷◌, IsTrue};
ghost use Rattle.lab_explore.specs.Visits.{start_of, IsVisited};
ghost use Rattle.lab_ways.specs.declared.wanted.Wanted.{Wanted as Asked};
ghost use Rattle.lab_ways.specs.Ways.{IsWayWithout};
ghost use Rattle.lab_ways.specs.Private.Marked.{KeepsWatched, IsWatched, ComesToEnd};
ghost use Rattle.lab_sched.specs.Schedules.{steps_of};
ghost use Rattle.lab_ways.specs.Wanted.{next_in};

use crate::wanted::Wanted;
use lab_conditions::call_of;
use lab_explore::Visited;
use lab_sched::{Process, Schedule, Verdict};
use lab_states::{Edge, number_at, put};
use lab_worlds::{ExploreFault, Walk};
use std::alloc::Global;

/// Takes the local steps that are left of the process of an edge; behind its step it has others.
fn go_to_edge(
    visited: &Visited,
    edge: &Edge,
    local: &mut Vec<u32>,
    walk: &mut WatchedWalk,
) -> Result<(), ExploreFault>
    ensures watched { OnOk result ((x : Asked) → KeepsWatched x walk.old walk.new) }
{
    let pid = edge.pid as usize;
    walk.go_on(pid, number_at(local, pid))?;
    let known = visited
        .store
        .known_steps(edge.from as usize, edge.pid as u32);
    let steps = known.ok_or(ExploreFault::Unvouched)?;
    put(local, pid, steps.taken);
    Ok(())
}

/// Goes along edges, the last of which comes first.
fn go_along(
    visited: &Visited,
    wanted: &Wanted,
    path: &[Edge],
    local: &mut Vec<u32>,
    walk: &mut WatchedWalk,
) -> Result<(), ExploreFault>
    ensures watched { OnOk result (KeepsWatched wanted.now walk.old walk.new) }
{
    let alloc = *local.allocator();
    for edge in path.iter().rev() {
        go_to_edge(visited, edge, local, walk)?;
        walk.go(alloc, wanted, edge.pid as usize)?;
    }
    Ok(())
}

/// Takes the local steps that are left of each process, and behind them the one by which it begins to
/// wait, if it hasn't ended.
fn settle(
    alloc: Global,
    wanted: &Wanted,
    local: &[u32],
    walk: &mut WatchedWalk,
) -> Result<(), ExploreFault>
    ensures watched { OnOk result (KeepsWatched wanted.now walk.old walk.new) }
{
    for (pid, count) in local.iter().enumerate() {
        walk.go_on(pid, *count)?;
        if !matches!(walk.walk.world.process(pid), Some(Process::Ended(_))) {
            walk.go(alloc, wanted, pid)?;
        }
    }
    Ok(())
}

/// The way along edges, the last step of which must lead to a state that isn't allowed, if such a one is
/// to come, or else to rest, where what is asked must not be so.
pub(crate) fn way_along(
    visited: &Visited,
    wanted: &Wanted,
    path: &[Edge],
    breaks: bool,
) -> Result<Schedule, ExploreFault>
    requires visited { IsVisited visited.now }
    ensures way { IfOk result (λ s. IsWayWithout wanted.now (start_of visited.now) s) }
{
    let mut walk = WatchedWalk::start(visited)?;
    let mut local = visited.firsts.clone()?;
    let alloc = *local.allocator();
    if breaks {
        let (last, before) = path.split_first().ok_or(ExploreFault::Unvouched)?;
        go_along(visited, wanted, before, &mut local, &mut walk)?;
        go_to_edge(visited, last, &mut local, &mut walk)?;
        walk.break_off(alloc, wanted, last.pid as usize)?;
        return Ok(walk.walk.schedule);
    }
    go_along(visited, wanted, path, &mut local, &mut walk)?;
    settle(alloc, wanted, local.as_slice(), &mut walk)?;
    if !walk.rests_unaccepted(wanted) {
        return Err(ExploreFault::Unvouched);
    }
    Ok(walk.walk.schedule)
}

/// A walk, and the state after its steps.
#[derive(Drop)]
struct WatchedWalk {
    pub walk: Walk,
    pub state: u32,
}

impl WatchedWalk {
    /// The walk that stays at the start.
    pub fn start(visited: &Visited) -> Result<WatchedWalk, ExploreFault>
        requires visited { IsVisited visited.now }
        ensures walk { IfOk result (λ w. (x : Asked) → IsWatched x (start_of visited.now) w) }
    {
        let walk = visited.stay(*visited.firsts.allocator())?;
        if !walk.has_calls(0) {
            return Err(ExploreFault::Unvouched);
        }
        Ok(WatchedWalk { walk, state: 0 })
    }

    /// The state after the next step of process `pid`.
    fn next(&self, alloc: Global, wanted: &Wanted, pid: usize) -> Result<u32, ExploreFault>
        ensures state { IfOk result (λ s. next_in wanted.now self.now.state self.now.walk.world pid
            ≡ s) }
    {
        let Some(process) = self.walk.world.process(pid) else {
            return Ok(self.state);
        };
        let Some(call) = call_of(alloc, process)? else {
            return Ok(self.state);
        };
        let state = wanted.next(self.state, self.walk.world.kernel(), pid, &call)?;
        Ok(state)
    }

    /// Takes a step, which must be effective.
    pub fn go(&mut self, alloc: Global, wanted: &Wanted, pid: usize) -> Result<(), ExploreFault>
        ensures watched { OnOk result (KeepsWatched wanted.now self.old self.new) }
        ensures steps { OnOk result (steps_of self.new.walk.schedule
            ≡ steps_of self.old.walk.schedule ++ pid ∷ []) }
    {
        let state = self.next(alloc, wanted, pid)?;
        self.walk.go(pid)?;
        self.state = state;
        Ok(())
    }

    /// Takes so many local steps.
    pub fn go_on(&mut self, pid: usize, count: u32) -> Result<(), ExploreFault>
        ensures watched { OnOk result ((x : Asked) → KeepsWatched x self.old self.new) }
    {
        for _ in 0..count {
            let before = self.walk.calls;
            self.walk.go(pid)?;
            if self.walk.calls != before {
                return Err(ExploreFault::Unvouched);
            }
        }
        Ok(())
    }

    /// Takes a step, which must lead from a state that is allowed to one that isn't.
    pub fn break_off(
        &mut self,
        alloc: Global,
        wanted: &Wanted,
        pid: usize,
    ) -> Result<(), ExploreFault>
        ensures against { OnOk result (ComesToEnd wanted.now self.old self.new) }
    {
        if !wanted.pattern.allows(self.state) {
            return Err(ExploreFault::Unvouched);
        }
        self.go(alloc, wanted, pid)?;
        if wanted.pattern.allows(self.state) {
            return Err(ExploreFault::Unvouched);
        }
        Ok(())
    }

    /// Whether the walk has come to rest, and its state isn't accepted.
    pub fn rests_unaccepted(&self, wanted: &Wanted) -> bool
        ensures against { IsTrue result → ComesToEnd wanted.now self.now self.now }
    {
        if let Verdict::Open = self.walk.world.verdict() {
            return false;
        }
        !wanted.pattern.accepts(self.state)
    }
}
