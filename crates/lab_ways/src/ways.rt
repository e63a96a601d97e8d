//! Whether what is asked of calls is so on every way.
ghost use Rattle.std.specs.Prelude.{IfOk, ℕ, ◌<◌, IsTrue, ◌≡◌};
ghost use Rattle.lab_explore.specs.Visits.{start_of, IsWhole, IsVisited};
ghost use Rattle.lab_ways.specs.Ways.{AreWays};
ghost use Rattle.lab_search.specs.Stored.{IsStore, IsAt};
ghost use Rattle.lab_ways.specs.Private.Marked.{IsMarked, KeepsMarks, KeepsMarksAt, IsRight, AreRightAt, AreShown};
ghost use Rattle.lab_sched.specs.Worlds.{WorldState};
ghost use Rattle.lab_ways.specs.Wanted.{next_in};

use crate::marking::{Marks, mark};
use crate::walking::way_along;
use crate::wanted::Wanted;
use lab_explore::Visited;
use lab_sched::Schedule;
use lab_search::Store;
use lab_states::{Edge, place_of};
use lab_worlds::ExploreFault;
use std::alloc::Global;

/// Whether what is asked is so on every way.
#[derive(Drop)]
pub enum Ways {
    /// It is.
    Always,
    /// On this one it isn't.
    Without(Schedule),
    /// Not every way was gone.
    Unknown,
}

/// What a search of every world at calls shows of what is asked. Where it is so, it is whatever steps are
/// taken, in any order. A way on which it isn't has effective steps: they lead to rest, or the last is the
/// call that must not be. Only a call that is answered with a reply that is no error is read. The object
/// behind its descriptor or slot counts by the name that it has then, and by none once it is unlinked.
/// An error is want of memory, or that more than `MOST_STATES` states are needed.
pub fn ways_of(visited: &Visited, alloc: Global, wanted: &Wanted) -> Result<Ways, ExploreFault>
    requires whole { IsWhole visited.now }
    ensures found { IfOk result (AreWays (start_of visited.now) wanted.now) }
{
    let marks = mark(&visited.store, alloc, wanted)?;
    if are_shown(visited, wanted, &marks)? {
        return Ok(Ways::Always);
    }
    let against = marks.reached.iter().position(|pair| {
        !wanted.pattern.allows(pair.state)
            || (!wanted.pattern.accepts(pair.state) && visited.store.is_still(pair.row as usize))
    });
    let Some(place) = against else {
        return Ok(Ways::Unknown);
    };
    let Some(pair) = marks.reached.get(place) else {
        return Ok(Ways::Unknown);
    };
    let breaks = !wanted.pattern.allows(pair.state);
    let path = marks.path_to(alloc, &visited.store.edges, place)?;
    let schedule = way_along(visited, wanted, path.as_slice(), breaks)?;
    Ok(Ways::Without(schedule))
}

fn is_marked(marks: &Marks, row: usize, state: u32) -> bool
    ensures yes { IsTrue result → IsMarked marks.now row state }
{
    marks.get(row, state).is_some_and(|mark| mark >= 1)
}

fn is_unmarked(marks: &Marks, row: usize, state: u32) -> bool
    ensures yes { IsTrue result → IsMarked marks.now row state → ⊥ }
{
    marks.get(row, state) == Some(0)
}

fn keeps_marks(
    store: &Store,
    wanted: &Wanted,
    marks: &Marks,
    edge: &Edge,
) -> Result<bool, ExploreFault>
    ensures yes { IfOk result (λ is. IsTrue is
        → KeepsMarks wanted.now store.now marks.now edge.now) }
{
    let alloc = *marks.reached.allocator();
    for state in 0..place_of(marks.states)? {
        if is_unmarked(marks, edge.from as usize, state) {
            continue;
        }
        let next = state_along(store, alloc, wanted, edge, state)?;
        if next as usize >= marks.states || !is_marked(marks, edge.to as usize, next) {
            return Ok(false);
        }
    }
    Ok(true)
}

/// Whether each edge leads from marked pairs to marked ones.
fn keep_marks(store: &Store, wanted: &Wanted, marks: &Marks) -> Result<bool, ExploreFault>
    ensures yes { IfOk result (λ is. IsTrue is
        → (k : ℕ) → KeepsMarksAt wanted.now store.now marks.now k) }
{
    let mut row = 0;
    for at in 0..store.edges.len() {
        let Some(edge) = store.edges.get_after(at, row) else {
            return Ok(false);
        };
        if !keeps_marks(store, wanted, marks, &edge)? {
            return Ok(false);
        }
        row = edge.from as usize;
    }
    Ok(true)
}

/// Whether a pair, if it is marked, is allowed, and accepted where no process goes on.
fn is_right(visited: &Visited, wanted: &Wanted, marks: &Marks, row: usize, state: u32) -> bool
    requires store { IsStore visited.now.store }
    ensures yes { IsTrue result → IsRight wanted.now visited.now.store marks.now row state }
{
    if is_unmarked(marks, row, state) {
        return true;
    }
    wanted.pattern.allows(state) && (wanted.pattern.accepts(state) || !visited.may_rest(row))
}

fn are_right_at(
    visited: &Visited,
    wanted: &Wanted,
    marks: &Marks,
    row: usize,
) -> Result<bool, ExploreFault>
    requires store { IsStore visited.now.store }
    ensures yes { IfOk result (λ is. IsTrue is
        → AreRightAt wanted.now visited.now.store marks.now row) }
{
    for state in 0..place_of(marks.states)? {
        if !is_right(visited, wanted, marks, row, state) {
            return Ok(false);
        }
    }
    Ok(true)
}

fn are_right(visited: &Visited, wanted: &Wanted, marks: &Marks) -> Result<bool, ExploreFault>
    requires store { IsStore visited.now.store }
    ensures yes { IfOk result (λ is. IsTrue is
        → (i : ℕ) → AreRightAt wanted.now visited.now.store marks.now i) }
{
    for row in 0..visited.store.rows.len() {
        if !are_right_at(visited, wanted, marks, row)? {
            return Ok(false);
        }
    }
    Ok(true)
}

/// Whether the search is complete, and the marks show that what is asked is so on every way.
fn are_shown(visited: &Visited, wanted: &Wanted, marks: &Marks) -> Result<bool, ExploreFault>
    requires visited { IsVisited visited.now }
    ensures complete { IfOk result (λ is. IsTrue is → IsTrue visited.now.complete) }
    ensures shown { IfOk result (λ is. IsTrue is
        → AreShown wanted.now visited.now.store marks.now) }
{
    if !visited.complete || marks.states == 0 || !is_marked(marks, 0, 0) {
        return Ok(false);
    }
    if !are_right(visited, wanted, marks)? {
        return Ok(false);
    }
    let kept = keep_marks(&visited.store, wanted, marks)?;
    Ok(kept)
}

/// The state after the step of an edge. Its process must stand at a call.
pub(crate) fn state_along(
    store: &Store,
    alloc: Global,
    wanted: &Wanted,
    edge: &Edge,
    before: u32,
) -> Result<u32, ExploreFault>
    ensures state { IfOk result (λ s. (w : WorldState) → IsAt store.now edge.now.from w
        → next_in wanted.now before w edge.now.pid ≡ s) }
{
    let pid = edge.pid;
    let Some((kernel, state)) = store.places(edge.from as usize, pid as u32) else {
        return Err(ExploreFault::Unvouched);
    };
    let Some(call) = store.states.call(state) else {
        return Err(ExploreFault::Unvouched);
    };
    if !wanted.reads(pid as usize, call) {
        return Ok(before);
    }
    let Some(kernel) = store.kernels.get(alloc, kernel)? else {
        return Err(ExploreFault::Unvouched);
    };
    let state = wanted.next(before, &kernel, pid as usize, call)?;
    Ok(state)
}
