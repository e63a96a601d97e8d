//! Counterexamples of safety: what must never be so and is found by a search, each with steps from the start.
ghost use Rattle.std.specs.Prelude.{◌≡◌, All, None, IfOk, IfSome, IsTrue, false, map};
ghost use Rattle.lab_worlds.specs.Walked.{IsWalk};
ghost use Rattle.lab_worlds.specs.Reached.{LeadsToStep, Violates, IsKept, AreReached, AreKept};
ghost use Rattle.lab_explore.specs.Visits.{start_of, IsVisited, IsWhole};
ghost use Rattle.lab_sched.specs.Worlds.{WorldState};
ghost use Rattle.lab_sched.specs.Held.{process_view};
ghost use Rattle.lab_conditions.specs.Losses.{messages, is_receiving};
ghost use Rattle.lab_search.specs.Stored.{IsAt};
ghost use Rattle.lab_explore.specs.Private.Judged.{IsLoss, NoEdgeLoses};
ghost use Rattle.lab_explore.specs.Private.Keeping.{KeepsReduction};
ghost use Rattle.lab_sched.specs.Starts.{AreStarts, initial_world};
ghost use Rattle.lab_search.specs.Shown.{ShowsProcesses};

use crate::judging::first_where;
use ipc_kernel::Kernel;
use lab_conditions::{Never, is_receiving, messages_in};
use lab_sched::{Fresh, Process, Schedule};
use lab_search::{Store, search_all};
use lab_states::{Edge, place_of};
use lab_worlds::{ExploreFault, Limits, Observer, Walk, Workers};
use std::alloc::Global;
use std::thread::Threads;

/// A step of a process, behind so many others of its own, from the world of a row or from the start.
#[derive(Clone, Copy, Drop)]
pub(crate) struct Turn {
    pub row: Option<usize>,
    pub pid: usize,
    pub before: u32,
}

impl Visited {
    /// The walk to a row, or the one that stays at the start.
    fn walk_to_some(&self, alloc: Global, row: Option<usize>) -> Result<Walk, ExploreFault>
        requires visited { IsVisited self.now }
        ensures walk { IfOk result (λ w. IsWalk (start_of self.now) w) }
    {
        match row {
            Some(row) => self.walk_to(alloc, row),
            None => self.stay(alloc),
        }
    }

    /// The steps that lead from the start to the one that was found, if one was, which must be what
    /// never must happen.
    fn schedule_against(
        &self,
        alloc: Global,
        never: &Never,
        turn: Option<Turn>,
    ) -> Result<Option<Schedule>, ExploreFault>
        requires visited { IsVisited self.now }
        ensures breaks { IfOk result (λ found. IfSome found (λ s.
            LeadsToStep (start_of self.now) never.now s)) }
        ensures none { IfOk result (λ found. found ≡ None → turn ≡ None) }
    {
        let Some(turn) = turn else {
            return Ok(None);
        };
        let mut walk = self.walk_to_some(alloc, turn.row)?;
        walk.go_on(turn.pid, turn.before)?;
        walk.go_against(alloc, never, turn.pid)?;
        Ok(Some(walk.schedule))
    }

    /// The steps that lead from the start to what must never be so, where it was found first, if it
    /// was.
    fn reach<R: Threads + Sync>(
        &self,
        alloc: Global,
        never: &Never,
        workers: &Workers<'_, R>,
    ) -> Result<Option<Schedule>, ExploreFault>
        requires visited { IsVisited self.now }
        requires asked { IsTrue self.now.reduced → KeepsReduction never.now }
        ensures reached { IfOk result (λ found. IfSome found (λ s.
            Violates (start_of self.now) never.now s)) }
        ensures none { IfOk result (λ found. found ≡ None → IsTrue self.now.complete
            → IsKept (start_of self.now) never.now) }
    {
        match never {
            Never::Holds(condition) => {
                let Some(at) = first_where(&self.store, alloc, condition, workers)? else {
                    return Ok(None);
                };
                let walk = self.walk_to(alloc, at)?;
                Ok(Some(walk.schedule))
            }
            Never::Lost => {
                let turn = first_loss(&self.store, alloc)?;
                self.schedule_against(alloc, never, turn)
            }
            Never::Refused(refusal) => {
                let turn = self.first_refusal(alloc, refusal)?;
                self.schedule_against(alloc, never, turn)
            }
        }
    }

    /// For each thing that must never be so, in order, the steps that lead to it from the start, where
    /// it was found first, if it was.
    pub(crate) fn reached<R: Threads + Sync>(
        &self,
        alloc: Global,
        nevers: &[Never],
        workers: &Workers<'_, R>,
    ) -> Result<Vec<Option<Schedule>>, ExploreFault>
        requires visited { IsVisited self.now }
        requires asked { IsTrue self.now.reduced → All KeepsReduction nevers.now }
        ensures reached { IfOk result (λ found.
            AreReached (start_of self.now) nevers.now found.items) }
        ensures none { IfOk result (λ found. IsTrue self.now.complete
            → AreKept (start_of self.now) nevers.now found.items) }
    {
        let mut found = Vec::with_capacity(alloc, nevers.len())?;
        for never in nevers {
            let schedule = self.reach(alloc, never, workers)?;
            found.push(schedule)?;
        }
        Ok(found)
    }
}

/// How many messages are in the queues of each kernel.
fn messages(store: &Store, alloc: Global) -> Result<Vec<usize>, ExploreFault>
    ensures counts { IfOk result (λ counts.
        counts.items ≡ map messages store.now.kernels.kernels) }
{
    let mut counts = Vec::new(alloc);
    for number in 0..store.kernels.len() {
        let found = store.kernels.get(alloc, place_of(number)?)?;
        let Some(kernel) = found else {
            return Err(ExploreFault::Unvouched);
        };
        counts.push(messages_in(&kernel))?;
    }
    Ok(counts)
}

/// Whether the process of each state is about to receive a message.
fn receiving(store: &Store, alloc: Global) -> Result<Vec<bool>, ExploreFault>
    ensures receiving { IfOk result (λ receiving. receiving.items
        ≡ map (λ s. is_receiving (process_view s)) store.now.states.processes) }
{
    let mut receiving = Vec::with_capacity(alloc, store.states.len())?;
    for number in 0..store.states.len() {
        let Some(process) = store.states.collapsed(number) else {
            return Err(ExploreFault::Unvouched);
        };
        receiving.push(is_receiving(alloc, process)?)?;
    }
    Ok(receiving)
}

/// How many messages are in the queues of the world of a row.
#[tactic(auto, using(crate::proofs::LossesOfRows::counted_at))]
fn messages_at(store: &Store, counts: &[usize], at: u32) -> Result<usize, ExploreFault>
    requires counts { counts.now ≡ map messages store.now.kernels.kernels }
    ensures count { IfOk result (λ count. (w : WorldState) → IsAt store.now at w
        → count ≡ messages w.kernel) }
{
    let Some((kernel, _)) = store.rows.get(at as usize) else {
        return Err(ExploreFault::Unvouched);
    };
    let Some(count) = counts.get(kernel as usize) else {
        return Err(ExploreFault::Unvouched);
    };
    Ok(*count)
}

fn is_loss(
    store: &Store,
    counts: &[usize],
    receiving: &[bool],
    edge: &Edge,
) -> Result<bool, ExploreFault>
    requires counts { counts.now ≡ map messages store.now.kernels.kernels }
    requires receiving { receiving.now
        ≡ map (λ s. is_receiving (process_view s)) store.now.states.processes }
    ensures no { IfOk result (λ loses. loses ≡ false → IsLoss store.now edge.now → ⊥) }
{
    let before = messages_at(store, counts, edge.from)?;
    let after = messages_at(store, counts, edge.to)?;
    if after >= before {
        return Ok(false);
    }
    let Some((_, state)) = store.places(edge.from as usize, edge.pid as u32) else {
        return Err(ExploreFault::Unvouched);
    };
    let Some(receives) = receiving.get(state as usize) else {
        return Err(ExploreFault::Unvouched);
    };
    Ok(!*receives)
}

fn first_loss(store: &Store, alloc: Global) -> Result<Option<Turn>, ExploreFault>
    ensures none { IfOk result (λ first. first ≡ None → NoEdgeLoses store.now) }
{
    let counts = messages(store, alloc)?;
    let receiving = receiving(store, alloc)?;
    let mut row = 0;
    for at in 0..store.edges.len() {
        let Some(edge) = store.edges.get_after(at, row) else {
            return Err(ExploreFault::Unvouched);
        };
        if is_loss(store, counts.as_slice(), receiving.as_slice(), &edge)? {
            return Ok(Some(Turn {
                row: Some(edge.from as usize),
                pid: edge.pid as usize,
                before: 0,
            }));
        }
        row = edge.from as usize;
    }
    Ok(None)
}

/// What a search from the start of a laboratory found, of which is told what it shows: the processes
/// at their starts, the worlds and the moves between them, the local steps of each process before
/// them, and whether these are all, or in a reduced search as many as show every end.
#[derive(Drop)]
pub struct Visited {
    pub processes: Vec<Process>,
    pub store: Store,
    pub firsts: Vec<u32>,
    pub reduced: bool,
    pub complete: bool,
}

/// What a search from processes at their starts visits, as far as the limits allow: every world that
/// they can come to, or, if that may be and none of them takes a name away, as many as show every end,
/// and of each process what it can come to.
pub(crate) fn visit_from<O: Observer>(
    alloc: Global,
    processes: Vec<Process>,
    limits: Limits,
    observer: &mut O,
    reduced: bool,
) -> Result<Visited, ExploreFault>
    requires starts { AreStarts processes.items }
    ensures start { IfOk result (λ s. start_of s ≡ initial_world processes.items) }
    ensures reduced { IfOk result (λ s. reduced ≡ false → s.reduced ≡ false) }
    ensures visited { IfOk result (λ s. IsVisited s) }
{
    let kernel = Kernel::new(alloc, processes.len())?;
    let search = search_all(
        alloc,
        processes.as_slice(),
        &kernel,
        limits,
        observer,
        reduced,
    )?;
    Ok(Visited {
        processes,
        store: search.store,
        firsts: search.firsts,
        reduced: search.reduced,
        complete: search.complete,
    })
}

/// What a search of the worlds that a laboratory can come to visits, as far as the limits allow: every
/// one of them, or, if that may be and none of them takes a name away, as many as show every end, and
/// of each process each call with its answers.
pub fn visit<O: Observer>(
    alloc: Global,
    fresh: Fresh,
    limits: Limits,
    observer: &mut O,
    reduced: bool,
) -> Result<Visited, ExploreFault>
    ensures start { IfOk result (λ s. start_of s ≡ fresh) }
    ensures reduced { IfOk result (λ s. reduced ≡ false → s.reduced ≡ false) }
    ensures visited { IfOk result (λ s. IsVisited s) }
    ensures whole { IfOk result (λ s. reduced ≡ false → IsWhole s) }
    ensures shown { IfOk result (λ s. IsTrue s.complete → ShowsProcesses (start_of s) s.store) }
{
    let processes = fresh.processes();
    let visited = visit_from(alloc, processes, limits, observer, reduced)?;
    Ok(visited)
}
