//! Topological order and cycles: the order of worlds along the edges between them, and cycles. That an order is one is checked; a
//! cycle is run again (`lassos`).
ghost use Rattle.std.specs.Prelude.{IsTrue, ◌≡◌, All};
ghost use Rattle.lab_states.specs.Rising.{IsRising, Rises, AreRising};
ghost use Rattle.lab_states.specs.Falling.{rank_of, starved_of, IsFalling};
ghost use Rattle.lab_states.specs.Depths.{depth_of, IsNear};

use crate::edges::{Edge, Edges};
use crate::row::place_of;
use std::alloc::{AllocError, Global};

/// A cycle: a row that lies on it, and the edges from there to it again, the last of which comes
/// first.
#[derive(Drop)]
pub struct Cycle {
    pub at: usize,
    pub edges: Vec<Edge>,
}

/// The number at a place, or 0.
pub fn number_at(numbers: &[u32], at: usize) -> u32 {
    numbers.get(at).copied().unwrap_or(0)
}

/// Puts a number in its place, if there is such a place.
pub fn put(numbers: &mut Vec<u32>, at: usize, number: u32) {
    if at < numbers.len() {
        numbers[at] = number;
    }
}

/// The rows to which no cycle leads, each behind those that lead to it.
fn rows_in_order(alloc: Global, edges: &Edges, count: usize) -> Result<Vec<u32>, AllocError> {
    let mut numbers = vec![in alloc; 0; count]?;
    for to in edges.tos() {
        let number = number_at(&numbers, *to as usize);
        put(&mut numbers, *to as usize, number.saturating_add(1));
    }
    let mut rows = Vec::with_capacity(alloc, count)?;
    for (row, number) in numbers.iter().enumerate() {
        if *number == 0 {
            rows.push(place_of(row)?)?;
        }
    }
    for place in 0..count {
        let Some(row) = rows.get(place).copied() else {
            return Ok(rows);
        };
        for to in edges
            .tos()
            .get(edges.places_from(row as usize))
            .unwrap_or(&[])
        {
            let number = number_at(&numbers, *to as usize);
            put(&mut numbers, *to as usize, number.saturating_sub(1));
            if number == 1 {
                rows.push(*to)?;
            }
        }
    }
    Ok(rows)
}

/// A number for each row, from 1, with which those that lead to it have less; 0 for a row to which
/// a cycle leads.
pub fn order_of(alloc: Global, edges: &Edges, count: usize) -> Result<Vec<u32>, AllocError> {
    let rows = rows_in_order(alloc, edges, count)?;
    let mut order = vec![in alloc; 0; count]?;
    for (place, row) in rows.iter().enumerate() {
        put(
            &mut order,
            *row as usize,
            place_of(place)?.saturating_add(1),
        );
    }
    Ok(order)
}

/// Whether an edge leads to a row with a greater number, which isn't above the count of rows.
fn is_rising(edge: Edge, order: &[u32]) -> bool
    ensures yes { IsTrue result → IsRising order.now edge }
{
    let (Some(from), Some(to)) = (order.get(edge.from as usize), order.get(edge.to as usize)) else {
        return false;
    };
    *from < *to && *to as usize <= order.len()
}

/// Whether each edge does.
pub fn is_order(order: &[u32], edges: &Edges) -> bool
    ensures yes { IsTrue result → Rises order.now edges.now }
{
    edges.all(|edge| is_rising(edge, order))
}

/// Whether the rows, of which there are so many, are in order by their own numbers.
pub fn is_order_by_number(edges: &Edges, count: usize) -> bool
    ensures yes { IsTrue result → AreRising edges.now }
{
    edges.all(|edge| edge.from < edge.to && (edge.to as usize) < count)
}

/// For each row without a number the first of those that lead to it, plus 1.
fn rows_before(alloc: Global, edges: &Edges, order: &[u32]) -> Result<Vec<u32>, AllocError> {
    let mut before = vec![in alloc; 0; order.len()]?;
    let mut row = 0;
    for at in 0..edges.len() {
        if let Some(edge) = edges.get_after(at, row) {
            row = edge.from as usize;
            let to = edge.to as usize;
            if number_at(order, row) == 0 && number_at(&before, to) == 0 {
                put(&mut before, to, edge.from.saturating_add(1));
            }
        }
    }
    Ok(before)
}

/// The row before a row.
fn row_before(before: &[u32], row: usize) -> usize {
    number_at(before, row).saturating_sub(1) as usize
}

/// The edges from a row up to this edge, the last of which comes first.
fn path_of(
    alloc: Global,
    edges: &Edges,
    reached: &[u32],
    goal: usize,
    last: usize,
) -> Result<Vec<Edge>, AllocError> {
    let mut path = Vec::new(alloc);
    let mut at = last;
    for _ in 0..reached.len() {
        let Some(edge) = edges.get(at) else {
            return Ok(path);
        };
        path.push(edge)?;
        let from = edge.from as usize;
        if from == goal {
            return Ok(path);
        }
        at = number_at(reached, from).saturating_sub(1) as usize;
    }
    Ok(path)
}

/// Follows the edges from a row that a way may take: those to rows that weren't reached are written down,
/// with the place of the edge plus 1; with the place of one that ends the way, if there is one.
fn follow<F: Fn(Edge) -> Option<bool>>(
    edges: &Edges,
    row: usize,
    ends: &F,
    reached: &mut Vec<u32>,
    rows: &mut Vec<u32>,
) -> Result<Option<usize>, AllocError>
    requires { F.IsAlwaysCallable ends.now }
{
    for at in edges.places_from(row) {
        if let Some(edge) = edges.get_after(at, row) {
            let to = edge.to as usize;
            match ends(edge) {
                Some(true) => return Ok(Some(at)),
                Some(false) if number_at(reached, to) == 0 => {
                    put(reached, to, place_of(at)?.saturating_add(1));
                    rows.push(edge.to)?;
                }
                _ => {}
            }
        }
    }
    Ok(None)
}

/// The edges of a shortest way from a row, of so many, the last of which comes first. Which edges it takes
/// is told of each: none for one that it doesn't follow, and else whether it ends with it.
pub fn shortest_path<F: Fn(Edge) -> Option<bool>>(
    alloc: Global,
    edges: &Edges,
    count: usize,
    start: usize,
    ends: F,
) -> Result<Option<Vec<Edge>>, AllocError>
    requires { F.IsAlwaysCallable ends }
{
    let mut reached = vec![in alloc; 0; count]?;
    let mut rows = vec![in alloc; place_of(start)?]?;
    for place in 0..count {
        let Some(row) = rows.get(place).copied() else {
            return Ok(None);
        };
        if let Some(last) = follow(edges, row as usize, &ends, &mut reached, &mut rows)? {
            let path = path_of(alloc, edges, reached.as_slice(), start, last)?;
            return Ok(Some(path));
        }
    }
    Ok(None)
}

/// A cycle among the rows to which the order gives no number: the shortest through its least row.
pub fn cycle_of(
    alloc: Global,
    edges: &Edges,
    order: Vec<u32>,
) -> Result<Option<Cycle>, AllocError> {
    let count = order.len();
    let before = rows_before(alloc, edges, order.as_slice())?;
    // Each row that has one before it has such a one before it, so that the way back comes to a cycle.
    let mut row = before.iter().position(|number| *number > 0).unwrap_or(0);
    for _ in 0..count {
        row = row_before(before.as_slice(), row);
    }
    let mut at = row;
    for _ in 0..count {
        row = row_before(before.as_slice(), row);
        at = at.min(row);
    }
    let path = shortest_path(alloc, edges, count, at, |edge| Some(edge.to as usize == at))?;
    Ok(path.map(|edges| Cycle { at, edges }))
}

/// The rank of a row, and 0 where there is none.
pub fn rank_at(ranks: &[u32], at: usize) -> u32
    ensures rank { result ≡ rank_of ranks.now at }
{
    ranks.get(at).copied().unwrap_or(0)
}

/// The process of a rank, if it has one.
pub fn starved_at(starved_processes: &[Option<u8>], rank: u32) -> Option<u8>
    ensures starved { result ≡ starved_of starved_processes.now rank }
{
    starved_processes
        .get(rank as usize)
        .copied()
        .unwrap_or(None)
}

/// Whether an edge leads to a lesser rank, or from one that has a process to the same by a step of
/// another.
fn is_falling(ranks: &[u32], starved_processes: &[Option<u8>], edge: Edge) -> bool
    ensures yes { IsTrue result → IsFalling ranks.now starved_processes.now edge }
{
    let from = rank_at(ranks, edge.from as usize);
    let to = rank_at(ranks, edge.to as usize);
    if to < from {
        return true;
    }
    match starved_at(starved_processes, from) {
        Some(pid) => to == from && edge.pid != pid,
        None => false,
    }
}

/// Whether each edge does.
pub fn are_falling(ranks: &[u32], starved_processes: &[Option<u8>], edges: &Edges) -> bool
    ensures yes { IsTrue result → All (IsFalling ranks.now starved_processes.now) edges.now }
{
    edges.all(|edge| is_falling(ranks, starved_processes, edge))
}

/// The depth of a row, and 0 where there is none.
pub fn depth_of(depths: &[u32], at: usize) -> u32
    ensures depth { result ≡ depth_of depths.now at }
{
    depths.get(at).copied().unwrap_or(0)
}

/// Whether each edge leads to a row that is at most one deeper.
pub fn are_near(depths: &[u32], edges: &Edges) -> bool
    ensures yes { IsTrue result → All (IsNear depths.now) edges.now }
{
    edges.all(|edge| {
        let from = depth_of(depths, edge.from as usize);
        let to = depth_of(depths, edge.to as usize);
        to as u64 <= from as u64 + 1
    })
}
