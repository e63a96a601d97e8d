//! What each process does next.
ghost use Rattle.std.specs.Prelude.{◌≡◌, ◌<◌, IsTrue, IfOk, IfSome, OnOk, Some, length, slice_get, slice_set};
ghost use Rattle.lab_sched.specs.Worlds.{WorldState};
ghost use Rattle.lab_search.specs.declared.store.Next.TheVariants.{Limit};
ghost use Rattle.lab_search.specs.Stored.{IsStore, AreKnown, LeadsTo, HasEdge, IsNextAt, AreErrorsAt, IsAt, HasEdgeIfEnabled, IsExpanded, IsRow};
ghost use Rattle.lab_search.specs.Private.Stored.{IsLater, IsAfter, IsStep};
ghost use Rattle.lab_states.specs.Rows.{Row, row_of};

use crate::store::{KnownSteps, Mover, Next, Stop, Store};
use ipc_store::are_with;
use lab_states::{Edge, Parent, digest_after, digest_of, place_of};
use lab_worlds::{ExploreFault, Limits};
use std::alloc::AllocError;

/// `first && second`, which is a branch that what stands behind it would be proved twice for.
pub fn both(first: bool, second: bool) -> bool
    ensures first { IsTrue result → IsTrue first }
    ensures second { IsTrue result → IsTrue second }
{
    first && second
}

/// The edge between two rows of these numbers, if they are small enough.
fn edge_of(from: usize, to: usize, pid: u32) -> Option<Edge>
    ensures from { IfSome result (λ e. e.from ≡ from) }
    ensures to { IfSome result (λ e. e.to ≡ to) }
    ensures pid { IfSome result (λ e. e.pid ≡ pid) }
{
    let from = u32::try_from(from).ok()?;
    let to = u32::try_from(to).ok()?;
    let pid = u8::try_from(pid).ok()?;
    Some(Edge { from, to, pid })
}

/// What stops a search where a process goes on without a call after its step from the world of a row.
fn stop_of(next: Next, at: usize, pid: u32) -> Option<Stop> {
    match next {
        Next::Limit => Some(Stop::Steps { row: Some(at), pid }),
        Next::Nothing | Next::To { .. } => None,
    }
}

impl Store {
    /// Whether process `pid` goes on from the world of a row, if it is known.
    pub fn goes_on(&self, at: usize, pid: u32) -> Option<bool>
        ensures yes { AreKnown self.now → IfSome result (λ goes. IsTrue goes
            → IsNextAt self.now at pid Limit) }
    {
        let (kernel, state) = self.places(at, pid)?;
        let mover = Mover { kernel, pid, state };
        if let Some(footprint) = self.footprint_at(mover) {
            if let Some(effect) = self.moves.footprints.find(footprint) {
                return Some(!effect.is_nothing());
            }
        }
        let next = self.made_next(mover)?;
        Some(!next.is_nothing())
    }

    /// Whether each move from the world of a row was made, and is none.
    pub fn is_still(&self, at: usize) -> bool {
        self.width(at).is_some_and(|count| (0..count).all(|pid| self.goes_on(at, pid)
            == Some(false)))
    }

    /// The local steps that process `pid` takes after its step from the world of a row, up to its next
    /// call, as far as these are known.
    pub fn known_steps(&self, at: usize, pid: u32) -> Option<KnownSteps>
        ensures steps { AreKnown self.now → IfSome result (λ steps.
            AreErrorsAt self.now at pid steps.taken steps.errors) }
    {
        let (kernel, state) = self.places(at, pid)?;
        let mover = Mover { kernel, pid, state };
        if let Some(footprint) = self.footprint_at(mover) {
            if let Some(effect) = self.moves.footprints.find(footprint) {
                return effect.steps();
            }
        }
        let next = self.made_next(mover)?;
        next.steps()
    }

    pub(crate) fn next(&mut self, at: usize, pid: u32, most: u32) -> Result<Next, ExploreFault>
        requires store { IsStore self.old }
        ensures later { OnOk result (IsLater self.old self.new) }
        ensures next { IfOk result (λ next. IsNextAt self.new at pid next) }
    {
        let Some((kernel, state)) = self.places(at, pid) else {
            return Err(ExploreFault::Unvouched);
        };
        let mover = Mover { kernel, pid, state };
        if let Some(next) = self.made_next(mover) {
            return Ok(next);
        }
        let next = self.make_move(mover, most)?;
        self.stop_by(stop_of(next, at, pid));
        Ok(next)
    }

    /// Keeps the edge to a row by a step of process `pid` from the world of another; with whether it
    /// is kept now.
    pub(crate) fn add_edge(&mut self, at: usize, pid: u32, to: usize) -> Result<bool, AllocError>
        requires store { IsStore self.old }
        requires leads { LeadsTo self.old at pid to }
        ensures later { OnOk result (IsLater self.old self.new) }
        ensures edge { IfOk result (λ kept. IsTrue kept → (w : WorldState)
            → IsAt self.old at w → (x : HasEdge self.new at w pid) × (x.1.to ≡ to)) }
    {
        let Some(edge) = edge_of(at, to, pid) else {
            return Ok(false);
        };
        let pushed = self.edges.push(edge)?;
        Ok(pushed)
    }

    /// Tries process `pid` from the world of a row, and keeps the world where it comes, and the edge to
    /// it, `onward` only where that is a later row; with whether that could be done.
    pub(crate) fn try_process(
        &mut self,
        at: usize,
        pid: u32,
        limits: Limits,
        onward: bool,
    ) -> Result<bool, ExploreFault>
        requires store { IsStore self.old }
        ensures later { OnOk result (IsLater self.old self.new) }
        ensures expanded_in { IfOk result (λ whole. IsTrue whole → (w : WorldState)
            → IsAt self.old at w → HasEdgeIfEnabled self.new at w pid) }
        ensures onward { IfOk result (λ whole. IsTrue whole → IsTrue onward → (w : WorldState)
            → IsAt self.old at w → (x : HasEdge self.new at w pid) × (at < x.1.to)) }
    {
        let next = self.next(at, pid, limits.steps)?;
        let Next::To { kernel, state, .. } = next else {
            return Ok(!onward && next.is_nothing());
        };
        let change = Change {
            at,
            pid,
            kernel,
            state,
        };
        let Some(to) = self.keep_after(change, limits.worlds)? else {
            return Ok(false);
        };
        if onward && to <= at {
            return Ok(false);
        }
        let kept = self.add_edge(at, pid, to)?;
        Ok(kept)
    }

    /// Tries each process from the world of a row; with whether that could be done.
    pub(crate) fn expand(&mut self, at: usize, limits: Limits) -> Result<bool, ExploreFault>
        requires store { IsStore self.old }
        ensures later { OnOk result (IsLater self.old self.new) }
        ensures expanded { IfOk result (λ whole. IsTrue whole → IsExpanded self.new at) }
    {
        let Some(count) = self.width(at) else {
            return Err(ExploreFault::Unvouched);
        };
        let mut whole = true;
        for pid in 0..count {
            let expanded_in = self.try_process(at, pid, limits, false)?;
            whole = both(whole, expanded_in);
        }
        Ok(whole)
    }
}

/// Another kernel, and another state of process `pid`, for the row at a place.
#[derive(Clone, Copy, Drop)]
pub struct Change {
    pub at: usize,
    pub pid: u32,
    pub kernel: u32,
    pub state: u32,
}

impl Store {
    /// Whether the row with a number is the one with these states after a change.
    fn is_after(&self, number: usize, states: &[u32], change: Change) -> bool
        ensures same { IsTrue result → slice_get self.now.rows number ≡ Some (record {
          kernel = change.kernel;
          states = slice_set states.now change.pid change.state;
        }) }
    {
        match self.rows.get(number) {
            Some((kernel, others)) => {
                kernel == change.kernel
                    && are_with(others, states, change.pid as usize, change.state)
            }
            None => false,
        }
    }

    /// The number of the row after a change, if it is kept.
    pub(crate) fn find_after(&self, change: Change) -> Option<usize>
        ensures found { IfSome result (IsAfter self.now change) }
    {
        let (_, states) = self.rows.get(change.at)?;
        let hash = digest_after(change.kernel, states, change.pid as usize, change.state);
        let mut number = self.row_index.newest(hash);
        while number > 0 {
            let row = number - 1;
            if self.is_after(row, states, change) {
                return Some(row);
            }
            number = self.row_index.older(number);
        }
        None
    }

    /// Keeps the first world, by the numbers of its row, if there is room for one; with whether it is kept.
    pub(crate) fn keep_first_row(&mut self, row: &[u32], most: u32) -> Result<bool, AllocError>
        requires store { IsStore self.old }
        requires row { (w : WorldState) × IsRow self.old (row_of row.now) w }
        ensures later { OnOk result (IsLater self.old self.new) }
        ensures kept { IfOk result (λ kept. IsTrue kept → (w : WorldState)
            → IsRow self.old (row_of row.now) w → IsAt self.new 0 w) }
    {
        if self.rows.len() > 0 || most == 0 {
            return Ok(false);
        }
        self.row_index.add(digest_of(row))?;
        self.parents.push(Parent { row: 0, pid: 0 })?;
        let pushed = self.rows.push(row)?;
        Ok(pushed)
    }

    /// Keeps the world to which a process goes on from that of a row, if there are fewer than `most`;
    /// with the number of its row, if it is kept now.
    pub(crate) fn keep_after(
        &mut self,
        change: Change,
        most: u32,
    ) -> Result<Option<usize>, AllocError>
        requires store { IsStore self.old }
        requires step { IsStep self.old change }
        ensures later { OnOk result (IsLater self.old self.new) }
        ensures row { IfOk result (λ kept. IfSome kept (LeadsTo self.new change.at change.pid)) }
    {
        if let Some(to) = self.find_after(change) {
            return Ok(Some(to));
        }
        let number = self.rows.len();
        if number >= most as usize {
            return Ok(None);
        }
        let Change {
            at,
            pid,
            kernel,
            state,
        } = change;
        let (Some(parent), Some((_, states))) = (Parent::of(at, pid), self.rows.get(at)) else {
            return Ok(None);
        };
        let hash = digest_after(kernel, states, pid as usize, state);
        self.row_index.add(hash)?;
        self.parents.push(parent)?;
        let pushed = self.rows.push_after(at, kernel, pid as usize, state)?;
        if !pushed {
            return Ok(None);
        }
        Ok(Some(number))
    }

    /// The places of the kernel and of the state of process `pid` in a row.
    pub fn places(&self, at: usize, pid: u32) -> Option<(u32, u32)>
        ensures places { IfSome result (λ x. (r : Row)
            × (slice_get self.now.rows at ≡ Some r) × (r.kernel ≡ x.0)
            × (slice_get r.states pid ≡ Some x.1)) }
    {
        let (kernel, states) = self.rows.get(at)?;
        let state = states.get(pid as usize)?;
        Some((kernel, *state))
    }

    /// The number of processes of a row.
    pub fn width(&self, at: usize) -> Option<u32>
        ensures width { IfSome result (λ n. (r : Row)
            × (slice_get self.now.rows at ≡ Some r) × (n ≡ length r.states)) }
    {
        let (_, states) = self.rows.get(at)?;
        place_of(states.len()).ok()
    }
}
