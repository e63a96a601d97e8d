//! Invariants: conditions that are judged of the worlds that a search keeps.
ghost use Rattle.std.specs.Prelude.{◌≡◌, ◌↔◌, ◌<◌, ◌≤◌, ℕ, None, Contains, IsTrue, IfOk, IfSome, OnOk};
ghost use Rattle.lab_sched.specs.Worlds.{WorldState};
ghost use Rattle.lab_sched.specs.Held.{process_view};
ghost use Rattle.lab_conditions.specs.Conditions.{Holds};
ghost use Rattle.lab_worlds.specs.Calls.{Alongside};
ghost use Rattle.lab_search.specs.Stored.{IsExactly, IsAt};
ghost use Rattle.lab_explore.specs.Private.Judged.{IsSilently, RowHolds, NoRowHolds, JudgesFor, FailsBefore, IsFirst};

use ipc_kernel::Kernel;
use lab_conditions::Condition;
use lab_sched::Process;
use lab_search::Store;
use lab_worlds::{ExploreFault, Workers};
use std::alloc::{AllocError, Global};
use std::thread::{Threads, map_chunks};

/// How many rows are judged before it is looked whether a condition holds of one of them. Then it is
/// looked each time as many are judged as were before.
const TOGETHER: usize = 1 << 16;

/// The fewest rows that are worth the work of making threads.
const FEWEST: usize = 1 << 10;

/// A kernel that was put together, with its number.
#[derive(Drop)]
struct Whole {
    number: u32,
    kernel: Kernel,
}

/// The processes in states that are kept, in order, but for their outputs, of which no condition
/// speaks.
fn processes_in<'a>(
    store: &'a Store,
    alloc: Global,
    states: &[u32],
) -> Result<Vec<&'a Process>, ExploreFault>
    ensures processes { IfOk result (λ processes.
        Alongside (λ i s. IsSilently store.now i (process_view s.now)) states.now processes.items) }
{
    let mut processes = Vec::new(alloc);
    for state in states {
        let Some(process) = store.states.collapsed(*state as usize) else {
            return Err(ExploreFault::Unvouched);
        };
        processes.push(process)?;
    }
    Ok(processes)
}

/// The kernel with a number, put together of its parts.
fn whole_kernel(store: &Store, alloc: Global, number: u32) -> Result<Whole, ExploreFault>
    ensures exactly { IfOk result (λ whole. IsExactly store.now whole.number whole.kernel) }
    ensures number { IfOk result (λ whole. whole.number ≡ number) }
{
    let kernel = store
        .kernels
        .get(alloc, number)?
        .ok_or(ExploreFault::Unvouched)?;
    Ok(Whole { number, kernel })
}

/// Puts the kernel with a number together, if a condition can't be judged without it and it isn't the
/// one that was put together last.
fn put_for(
    store: &Store,
    alloc: Global,
    last: &mut Whole,
    number: u32,
    condition: &Condition,
) -> Result<(), ExploreFault>
    requires last { IsExactly store.now last.old.number last.old.kernel }
    ensures last { OnOk result (IsExactly store.now last.new.number last.new.kernel) }
    ensures judges { OnOk result (JudgesFor store.now condition.now number last.new.kernel) }
{
    if !condition.needs_kernel() {
        return Ok(());
    }
    if last.number != number {
        *last = whole_kernel(store, alloc, number)?;
    }
    Ok(())
}

/// Whether a condition holds of the world of a row, by the kernel that was put together last where
/// that is the row's or the condition needs none.
fn row_holds(
    store: &Store,
    alloc: Global,
    last: &mut Whole,
    at: usize,
    condition: &Condition,
) -> Result<bool, ExploreFault>
    requires last { IsExactly store.now last.old.number last.old.kernel }
    ensures last { OnOk result (IsExactly store.now last.new.number last.new.kernel) }
    ensures holds { IfOk result (λ holds. (w : WorldState) → IsAt store.now at w
        → IsTrue holds ↔ Holds condition.now w) }
{
    let Some((number, states)) = store.rows.get(at) else {
        return Err(ExploreFault::Unvouched);
    };
    put_for(store, alloc, last, number, condition)?;
    let processes = processes_in(store, alloc, states)?;
    Ok(condition.holds_in(alloc, &last.kernel, processes.as_slice())?)
}

/// The number of the kernel of a row, or 0.
fn kernel_of(store: &Store, at: usize) -> u32 {
    store.rows.get(at).map_or(0, |row| row.0)
}

/// The numbers of the rows from one up to another, of which those over the same kernel stand beside
/// one another where a condition needs kernels.
fn rows_to_judge(
    store: &Store,
    alloc: Global,
    condition: &Condition,
    start: usize,
    end: usize,
) -> Result<Vec<usize>, AllocError>
    ensures all { IfOk result (λ rows. (i : ℕ) → start ≤ i → i < end
        → Contains rows.items i) }
{
    let mut rows = Vec::new(alloc);
    for at in start..end {
        rows.push(at)?;
    }
    if !condition.needs_kernel() {
        return Ok(rows);
    }
    rows.sort_by_key(|at| kernel_of(store, *at))?;
    Ok(rows)
}

/// The first row of whose world a condition holds, of some rows before an end; the end where it holds
/// of the world of none. Each kernel is put together once where the rows over it stand beside one
/// another.
fn first_of(
    store: &Store,
    alloc: Global,
    condition: &Condition,
    rows: &[usize],
    end: usize,
) -> Result<usize, ExploreFault>
    ensures first { IfOk result (IsFirst store.now condition.now end rows.now) }
{
    let Some(one) = rows.first() else {
        return Ok(end);
    };
    let mut last = whole_kernel(store, alloc, kernel_of(store, *one))?;
    let mut first = end;
    for at in rows {
        if *at >= first {
            continue;
        }
        let holds = row_holds(store, alloc, &mut last, *at, condition)?;
        if holds {
            first = *at;
        }
    }
    Ok(first)
}

/// The same, where each thread judges a part of the rows, if they are many.
fn first_by_parts<R: Threads + Sync>(
    store: &Store,
    alloc: Global,
    condition: &Condition,
    rows: &[usize],
    end: usize,
    workers: &Workers<'_, R>,
) -> Result<usize, ExploreFault>
    ensures first { IfOk result (IsFirst store.now condition.now end rows.now) }
{
    if workers.count < 2 || rows.len() < FEWEST {
        return first_of(store, alloc, condition, rows, end);
    }
    let judge = |_: usize, part: &[usize]| -> Result<usize, ExploreFault>
        ensures { IfOk result (IsFirst store.entry.now condition.entry.now end part.now) }
    { first_of(store, alloc, condition, part, end) };
    let size = rows.len() / workers.count + 1;
    let parts = map_chunks(workers.rt, alloc, rows, size, &judge)?;
    let mut first = end;
    for part in parts.as_slice() {
        let found = (*part)?;
        first = first.min(found);
    }
    Ok(first)
}

/// The first row of whose world a condition holds.
pub(crate) fn first_where<R: Threads + Sync>(
    store: &Store,
    alloc: Global,
    condition: &Condition,
    workers: &Workers<'_, R>,
) -> Result<Option<usize>, ExploreFault>
    ensures some { IfOk result (λ first. IfSome first (RowHolds store.now condition.now)) }
    ensures first { IfOk result (λ first. IfSome first (λ at. (i : ℕ)
        → FailsBefore store.now condition.now at i)) }
    ensures none { IfOk result (λ first. first ≡ None → NoRowHolds store.now condition.now) }
{
    let count = store.rows.len();
    let mut start = 0;
    while start < count {
        let end = start.saturating_add(start.max(TOGETHER)).min(count);
        let rows = rows_to_judge(store, alloc, condition, start, end)?;
        let first = first_by_parts(store, alloc, condition, rows.as_slice(), end, workers)?;
        if first < end {
            return Ok(Some(first));
        }
        start = end;
    }
    Ok(None)
}
