//! Pairs of a row and a state that ways reach. They are marked as they are reached.
ghost use Rattle.std.specs.Prelude.{◌≡◌, ◌+◌, ◌*◌, IfSome, Some, slice_get};

use crate::wanted::{MOST_STATES, Wanted};
use crate::ways::state_along;
use lab_search::Store;
use lab_states::{Edge, Edges, place_of, put};
use lab_worlds::ExploreFault;
use std::alloc::{AllocError, Global};

/// A pair that was reached: by which edge, and from which pair.
#[derive(Clone, Copy, Drop)]
pub(crate) struct Reached {
    pub row: u32,
    pub state: u32,
    edge: u32,
    before: u32,
}

/// For each row and each state 1 where the pair was reached, and else 0; and the pairs in the order in
/// which they were reached.
#[derive(Drop)]
pub(crate) struct Marks {
    pub states: usize,
    marks: Vec<u32>,
    pub reached: Vec<Reached>,
}

impl Marks {
    fn place(&self, row: usize, state: u32) -> Option<usize>
        ensures place { IfSome result (λ place. place ≡ row * self.now.states + state) }
    {
        row.checked_mul(self.states)?.checked_add(state as usize)
    }

    pub fn get(&self, row: usize, state: u32) -> Option<u32>
        ensures mark { IfSome result (λ mark.
            slice_get self.now.marks.items (row * self.now.states + state) ≡ Some mark) }
    {
        let place = self.place(row, state)?;
        self.marks.get(place).copied()
    }

    /// Marks and adds a pair, if it isn't marked.
    fn add(&mut self, pair: Reached) -> Result<(), AllocError> {
        let row = pair.row as usize;
        if self.get(row, pair.state) == Some(0) {
            self.reached.push(pair)?;
            if let Some(place) = self.place(row, pair.state) {
                put(&mut self.marks, place, 1);
            }
        }
        Ok(())
    }

    /// Adds the pairs to which the edges from a pair lead.
    fn follow(
        &mut self,
        store: &Store,
        wanted: &Wanted,
        from: Reached,
        before: u32,
    ) -> Result<(), ExploreFault> {
        let alloc = *self.reached.allocator();
        let row = from.row as usize;
        for at in store.edges.places_from(row) {
            if let Some(edge) = store.edges.get_after(at, row) {
                let state = state_along(store, alloc, wanted, &edge, from.state)?;
                self.add(Reached {
                    row: edge.to,
                    state,
                    edge: place_of(at)?,
                    before,
                })?;
            }
        }
        Ok(())
    }

    /// The edges by which a pair was reached, the last of which comes first.
    pub fn path_to(
        &self,
        alloc: Global,
        edges: &Edges,
        place: usize,
    ) -> Result<Vec<Edge>, AllocError> {
        let mut path = Vec::new(alloc);
        let mut place = place;
        for _ in 0..place {
            let Some(pair) = self.reached.get(place) else {
                return Ok(path);
            };
            if place == 0 {
                return Ok(path);
            }
            if let Some(edge) = edges.get(pair.edge as usize) {
                path.push(edge)?;
            }
            place = pair.before as usize;
        }
        Ok(path)
    }
}

/// Marks the pairs that are reached from the first row and state 0, those by fewer edges first, up to one
/// with a state that isn't allowed. An error is want of memory, or too many states.
pub(crate) fn mark(store: &Store, alloc: Global, wanted: &Wanted) -> Result<Marks, ExploreFault> {
    let states = wanted.pattern.states();
    if states > MOST_STATES {
        return Err(ExploreFault::NoMemory);
    }
    let count = store.rows.len().checked_mul(states).ok_or(AllocError)?;
    let mut marks = Marks {
        states,
        marks: vec![in alloc; 0; count]?,
        reached: Vec::new(alloc),
    };
    marks.add(Reached {
        row: 0,
        state: 0,
        edge: 0,
        before: 0,
    })?;
    for place in 0..count {
        let Some(pair) = marks.reached.get(place).copied() else {
            return Ok(marks);
        };
        if !wanted.pattern.allows(pair.state) {
            return Ok(marks);
        }
        marks.follow(store, wanted, pair, place_of(place)?)?;
    }
    Ok(marks)
}
