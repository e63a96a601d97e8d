//! Weak fairness of strongly connected components: which processes go on, and which take steps, in the
//! sets of the rows of a search.
//! Nothing that is proved rests on what stands here: what is made of it is checked (`ranks`, `fair`).

use crate::edges::Edges;
use crate::graph::{number_at, put};
use crate::row::place_of;
use std::alloc::{AllocError, Global};

/// Processes, as the bits of a number.
pub type Processes = u64;

/// The strongly connected sets of rows, and processes in them.
#[derive(Drop)]
pub struct Sets {
    /// For each row the number of its set, from 1, or 0.
    pub of_rows: Vec<u32>,
    /// For each number of a set the processes that have an edge inside.
    moving: Vec<Processes>,
    /// For each number of a set the processes that go on from each of its rows.
    always: Vec<Processes>,
}

/// The process alone.
pub fn only(pid: u32) -> u64 {
    1 << (pid % u64::BITS)
}

/// The processes at a place, or none.
fn some_at(numbers: &[Processes], at: usize) -> Processes {
    numbers.get(at).copied().unwrap_or(0)
}

/// The processes that have an edge from a row.
pub fn going_from(edges: &Edges, row: usize) -> Processes {
    let mut going = 0;
    for at in edges.places_from(row) {
        if let Some(edge) = edges.get_after(at, row) {
            going |= only(edge.pid as u32);
        }
    }
    going
}

/// The first of some processes, if there is one.
fn first_of(processes: Processes) -> Option<u8> {
    if processes == 0 {
        return None;
    }
    u8::try_from(processes.trailing_zeros()).ok()
}

impl Sets {
    /// The sets of so many rows.
    pub fn new(alloc: Global, edges: &Edges, count: usize) -> Result<Sets, AllocError> {
        let of_rows = sets_of(alloc, edges, count)?;
        let sets = (number_at(&of_rows, 0) as usize).saturating_add(1);
        let mut moving = vec![in alloc; 0; sets]?;
        let mut row = 0;
        for at in 0..edges.len() {
            if let Some(edge) = edges.get_after(at, row) {
                row = edge.from as usize;
                let set = number_at(&of_rows, row);
                if set == number_at(&of_rows, edge.to as usize) {
                    if let Some(processes) = moving.get_mut(set as usize) {
                        *processes |= only(edge.pid as u32);
                    }
                }
            }
        }
        let mut always = vec![in alloc; u64::MAX; sets]?;
        for (row, set) in of_rows.iter().enumerate() {
            if let Some(processes) = always.get_mut(*set as usize) {
                *processes &= going_from(edges, row);
            }
        }
        Ok(Sets {
            of_rows,
            moving,
            always,
        })
    }

    /// The number of the set of a row.
    pub fn set_of(&self, row: usize) -> u32 {
        number_at(&self.of_rows, row)
    }

    /// Whether a process has an edge inside the set of a row.
    pub fn moves(&self, row: usize, pid: u32) -> bool {
        some_at(&self.moving, self.set_of(row) as usize) & only(pid) != 0
    }

    /// The processes that go on from each row of a set and have no edge inside.
    fn kept(&self, set: usize) -> Processes {
        some_at(&self.always, set) & !some_at(&self.moving, set)
    }

    /// For each number of a set a process that goes on from each of its rows and has no edge inside, if
    /// there is one.
    pub fn starved_processes(&self, alloc: Global) -> Result<Vec<Option<u8>>, AllocError> {
        (0..self.moving.len())
            .map(|set| first_of(self.kept(set)))
            .collect(alloc)
    }

    /// The first row whose set has an edge inside, and serves each process: by an edge of it, or by a
    /// row from which it doesn't go on.
    pub fn first_fair(&self) -> Option<usize> {
        (0..self.of_rows.len()).find(|row| {
            let set = self.set_of(*row) as usize;
            some_at(&self.moving, set) != 0 && self.kept(set) == 0
        })
    }
}

/// A descent along edges: each row is entered once, and left when all edges from it were followed.
#[derive(Drop)]
struct Descent {
    /// For each row the number with which it was entered, from 1, or 0.
    entered: Vec<u32>,
    /// For each row the number of its set, from 1, or 0.
    sets: Vec<u32>,
    /// The rows that were entered and have no set yet.
    open: Vec<u32>,
    /// The open rows with which the sets may begin that the path goes through.
    roots: Vec<u32>,
    /// The rows from the first up to this one, each with the place of the next edge from it.
    path: Vec<(u32, u32)>,
    /// How many rows were entered.
    count: u32,
    /// How many sets are known.
    known: u32,
}

impl Descent {
    /// Enters a row.
    fn enter(&mut self, edges: &Edges, row: u32) -> Result<(), AllocError> {
        self.count = self.count.saturating_add(1);
        put(&mut self.entered, row as usize, self.count);
        self.open.push(row)?;
        self.roots.push(row)?;
        self.path
            .push((row, place_of(edges.first_of(row as usize))?))?;
        Ok(())
    }

    /// Leaves a row. If a set begins with it, the rows that were entered since are those of the set.
    fn leave(&mut self, row: u32) {
        if self.roots.last().copied() != Some(row) {
            return;
        }
        self.roots.pop();
        self.known = self.known.saturating_add(1);
        for _ in 0..self.open.len() {
            let Some(member) = self.open.pop() else {
                return;
            };
            put(&mut self.sets, member as usize, self.known);
            if member == row {
                return;
            }
        }
    }

    /// Follows an edge to a row. What was entered after an open row to which it leads is in its set.
    fn follow(&mut self, edges: &Edges, row: u32) -> Result<(), AllocError> {
        let number = number_at(&self.entered, row as usize);
        if number == 0 {
            return self.enter(edges, row);
        }
        if number_at(&self.sets, row as usize) == 0 {
            let entered = self.entered.as_slice();
            let kept = self
                .roots
                .partition_point(|root| number_at(entered, *root as usize) <= number);
            self.roots.truncate(kept);
        }
        Ok(())
    }
}

/// For each row that the first leads to the number of its strongly connected set, from 1: edges lead to
/// sets with the same or a lesser number.
fn sets_of(alloc: Global, edges: &Edges, count: usize) -> Result<Vec<u32>, AllocError> {
    let mut descent = Descent {
        entered: vec![in alloc; 0; count]?,
        sets: vec![in alloc; 0; count]?,
        open: Vec::new(alloc),
        roots: Vec::new(alloc),
        path: Vec::new(alloc),
        count: 0,
        known: 0,
    };
    descent.enter(edges, 0)?;
    for _ in 0..edges.len().saturating_add(count) {
        let Some((row, next)) = descent.path.pop() else {
            break;
        };
        if next as usize >= edges.end_of(row as usize) {
            descent.leave(row);
            continue;
        }
        descent.path.push((row, next.saturating_add(1)))?;
        if let Some(edge) = edges.get_after(next as usize, row as usize) {
            descent.follow(edges, edge.to)?;
        }
    }
    Ok(descent.sets)
}
