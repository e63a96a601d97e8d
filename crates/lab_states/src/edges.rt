//! The edges between the worlds that a search keeps.
ghost use Rattle.std.specs.Prelude.{◌≡◌, All, false, true, Some, IsTrue, IfOk, IfSome, slice_get, ◌≤◌, ℕ, [], ◌∷◌, ◌++◌, OnErr, length};
ghost use Rattle.lab_states.specs.declared.edges.Edge.{Edge};
ghost use Rattle.lab_states.specs.Edges.{from_of};
ghost use Rattle.lab_states.specs.Private.Edges.{AreBetween, ArePast};

use crate::row::place_of;
use std::alloc::{AllocError, Global};
use std::marker::Model;
use std::mem::size_of;
use std::ops::Range;

/// A step of process `pid` from the world of a row, and then all its local steps, to the world of a
/// row.
#[derive(Clone, Copy, Drop)]
pub struct Edge {
    pub from: u32,
    pub to: u32,
    pub pid: u8,
}

/// Edges in the order of the rows that they lead from, each kept as the row that it leads to and its
/// process.
#[derive(Drop)]
pub struct Edges {
    /// For each row before that of the last edge the place behind the edges from it.
    ends: Vec<u32>,
    tos: Vec<u32>,
    pids: Vec<u8>,
}

impl Model for Edges {
    ghost use Rattle.std.specs.Prelude.{List};
    ghost use Rattle.lab_states.specs.declared.edges.Edge.{Edge as One};
    ghost use Rattle.lab_states.specs.Edges.{edges_of};
    ghost use Rattle.lab_states.specs.Private.Edges.{AreParts};

    ghost Value = { List One };

    ghost view = { λ a. edges_of a.ends.items 0 a.tos.items a.pids.items };

    ghost invariant = { λ a. AreParts a.ends.items a.tos.items a.pids.items };
}

/// The row, if the edges from all rows before it end at a place or before it, and else the first.
fn passed(ends: &[u32], row: usize, at: usize) -> usize
    ensures within { result ≤ length ends.now }
    ensures past { (high : ℕ) → AreBetween 0 ends.now high → ArePast ends.now result at }
{
    if row == 0 {
        return 0;
    }
    match ends.get(row - 1) {
        Some(end) if *end as usize <= at => row,
        _ => 0,
    }
}

/// The row from which the edge at a place leads, by the places where the edges from rows end. It is
/// looked for from a row on.
fn row_of(ends: &[u32], at: usize, near: usize) -> usize
    requires ordered { (high : ℕ) × AreBetween 0 ends.now high }
    ensures row { result ≡ from_of ends.now at }
{
    let first = passed(ends, near, at);
    for row in first..ends.len() {
        if at < ends[row] as usize {
            return row;
        }
    }
    ends.len()
}

impl Edges {
    /// No edge.
    pub fn new(alloc: Global) -> Edges
        ensures none { result ≡ [] }
    {
        Edges {
            ends: Vec::new(alloc),
            tos: Vec::new(alloc),
            pids: Vec::new(alloc),
        }
    }

    /// How many there are.
    pub fn len(&self) -> usize
        ensures count { result ≡ length self.now }
    {
        self.tos.len()
    }

    /// The edge at a place, whose row is looked for from a row on.
    pub fn get_after(&self, at: usize, near: usize) -> Option<Edge>
        ensures edge { IfSome result (λ e. slice_get self.now at ≡ Some e) }
    {
        let to = self.tos.get(at)?;
        let pid = self.pids.get(at)?;
        let Ok(from) = place_of(row_of(self.ends.as_slice(), at, near)) else {
            return None;
        };
        Some(Edge {
            from,
            to: *to,
            pid: *pid,
        })
    }

    /// Whether each of them passes.
    pub fn all<F: Fn(Edge) -> bool>(&self, passes: F) -> bool
        requires { F.IsAlwaysCallable passes }
        ensures yes { IsTrue result → All (λ e. F.post passes e true) self.now }
    {
        let mut row = 0;
        for at in 0..self.len() {
            let Some(edge) = self.get_after(at, row) else {
                return false;
            };
            if !passes(edge) {
                return false;
            }
            row = edge.from as usize;
        }
        true
    }

    /// The edge at a place.
    pub fn get(&self, at: usize) -> Option<Edge>
        ensures edge { IfSome result (λ e. slice_get self.now at ≡ Some e) }
    {
        let near = self.ends.partition_point(|end| *end as usize <= at);
        self.get_after(at, near)
    }

    /// The edges from rows before one end here.
    fn leave(&mut self, row: usize) -> Result<(), AllocError>
        ensures same { self.new ≡ self.old }
    {
        if row > self.ends.len() {
            let end = place_of(self.tos.len())?;
            self.ends.resize(row, end)?;
        }
        Ok(())
    }

    /// Adds an edge, if it leads from the row of the last one or from one behind; with whether it does.
    pub fn push(&mut self, edge: Edge) -> Result<bool, AllocError>
        ensures pushed { IfOk result (λ done. IsTrue done → self.new ≡ self.old ++ edge ∷ []) }
        ensures same { IfOk result (λ done. done ≡ false → self.new ≡ self.old) }
        ensures err { OnErr result (self.new ≡ self.old) }
    {
        self.leave(edge.from as usize)?;
        if edge.from as usize != self.ends.len() {
            return Ok(false);
        }
        self.tos.reserve(1)?;
        self.pids.push(edge.pid)?;
        self.tos.push_reserved(edge.to);
        Ok(true)
    }

    /// The rows to which they lead.
    pub(crate) fn tos(&self) -> &[u32] {
        self.tos.as_slice()
    }

    /// The place of the first edge from a row.
    pub(crate) fn first_of(&self, row: usize) -> usize {
        row.checked_sub(1).map_or(0, |before| self.end_of(before))
    }

    /// The place behind the edges from a row.
    pub(crate) fn end_of(&self, row: usize) -> usize {
        self.ends
            .get(row)
            .map_or(self.tos.len(), |end| *end as usize)
    }

    /// Whether an edge leads from a row.
    pub fn lead_from(&self, row: usize) -> bool
        ensures yes { IsTrue result → (i : ℕ) × (e : Edge)
            × (slice_get self.now i ≡ Some e) × (e.from ≡ row) }
    {
        self.get_after(self.first_of(row), row)
            .is_some_and(|edge| edge.from as usize == row)
    }

    /// The places of the edges from a row.
    pub fn places_from(&self, row: usize) -> Range<usize> {
        self.first_of(row)..self.end_of(row)
    }

    /// About how many bytes they take.
    pub fn size(&self) -> usize {
        let edge = size_of::<u32>() + size_of::<u8>();
        edge.saturating_mul(self.tos.len())
            .saturating_add(size_of::<u32>().saturating_mul(self.ends.len()))
    }
}
