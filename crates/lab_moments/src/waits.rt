//! Who lets a process wait at the end of a run, and circles of processes, of which each waits for what the next has taken.
ghost use Rattle.std.specs.Prelude.{◌≡◌, ◌==◌, ◌<◌, IfOk, IfSome, map, length, position, nat_lt};
ghost use Rattle.std.specs.List.{find, list_any};
ghost use Rattle.std.specs.Option.{option_map, option_to_list};
ghost use Rattle.serde_json.specs.View.{view};
ghost use Rattle.lab_moments.specs.Objects.{awaited_at};
ghost use Rattle.lab_moments.specs.Waits.{blocker, blocker_in, blockers, circle_from, circles_data, followed, is_blocking, others, wait_in, waits_data};

use crate::holds::{Hold, Known, made_with};
use crate::objects::{awaited_at, takers};
use crate::values::{list_value, made_below};
use ipc_traps::Service;
use lab_sched::{Process, World};
use lab_told::{Tally, has_open};
use serde_json::{Value, json};
use std::alloc::{AllocError, Global};

#[tactic(auto, using(crate::proofs::ValueLemmas::below), unfolding(crate::specs::Waits::other_at))]
fn others(
    alloc: Global,
    world: &World,
    pid: usize,
    place: u8,
    service: Service,
) -> Result<Vec<Value>, AllocError>
    ensures others { IfOk result (λ v. map view v.items ≡ others world.now pid place service) }
{
    let mut others = Vec::new(alloc);
    for other in 0..world.count() {
        if other != pid && has_open(world.kernel(), place, service, other) {
            others.push(Value::from(other))?;
        }
    }
    Ok(others)
}

/// Process `pid`, where it waits, who has taken what it waits for, and the others that could serve its call.
fn wait_at(
    alloc: Global,
    world: &World,
    tally: &Tally,
    objects: &[Option<Known>],
    pid: usize,
) -> Result<Option<Value>, AllocError>
    requires process { pid < length world.now.processes }
    ensures wait { IfOk result (λ v. option_to_list (option_map view v)
        ≡ wait_in world.now tally.now objects.now pid (awaited_at world.now pid)) }
{
    let Some((service, place)) = awaited_at(world, pid) else {
        return Ok(None);
    };
    let taken = if made_with(objects, place) > 0 {
        Value::Array(takers(alloc, world, tally, place)?)
    } else {
        Value::Null
    };
    Ok(Some(json!(in alloc; [pid, taken, others(alloc, world, pid, place, service)?])?))
}

/// The processes that wait, each with who could let it go on.
#[tactic(auto, unfolding(crate::specs::Waits::waits_data))]
pub fn waits_value(
    alloc: Global,
    world: &World,
    tally: &Tally,
    objects: &[Option<Known>],
) -> Result<Value, AllocError>
    ensures value { IfOk result (λ v. view v
        ≡ waits_data world.now tally.now objects.now) }
{
    let waits = made_below(alloc, world.count(), |pid| {
        wait_at(alloc, world, tally, objects, pid)
    })?;
    Ok(Value::Array(waits))
}

/// Whether a unit is of the semaphore in a place, and its process waits.
fn is_blocking(world: &World, place: u8, hold: &Hold) -> bool
    ensures value { result ≡ is_blocking world.now place hold.now }
{
    hold.place == place && matches!(world.process(hold.pid), Some(Process::Waiting(_, _)))
}

/// The last unit of the semaphore in a place whose process waits.
fn last_blocking(world: &World, holds: &[Hold], place: u8) -> Option<Hold>
    ensures hold { result ≡ find (is_blocking world.now place) holds.now }
{
    holds
        .iter()
        .copied()
        .find(|hold| is_blocking(world, place, hold))
}

/// The process that waits, and was the last such to take a unit of the semaphore for which process `pid` waits.
fn blocker_of(world: &World, holds: &[Hold], pid: usize) -> Option<usize>
    requires process { pid < length world.now.processes }
    ensures blocker { result ≡ blocker_in world.now holds.now (awaited_at world.now pid) }
{
    let (_, place) = awaited_at(world, pid)?;
    Some(last_blocking(world, holds, place)?.pid)
}

/// Of each process the one that waits and has taken what it waits for.
#[tactic(auto, using(crate::proofs::ValueLemmas::below), unfolding(crate::specs::Waits::blockers))]
fn blockers(alloc: Global, world: &World, holds: &[Hold]) -> Result<Vec<Option<usize>>, AllocError>
    ensures blockers { IfOk result (λ v. v.items ≡ blockers world.now holds.now) }
{
    let mut blockers = Vec::new(alloc);
    for pid in 0..world.count() {
        blockers.push(blocker_of(world, holds, pid))?;
    }
    Ok(blockers)
}

fn blocker(blockers: &[Option<usize>], pid: usize) -> Option<usize>
    ensures blocker { result ≡ blocker blockers.now pid }
{
    *blockers.get(pid)?
}

/// The processes behind process `pid`, of which each waits for what the next has taken, as many as there are processes at most.
#[tactic(auto, using(crate::proofs::WaitLemmas::following))]
fn followed(alloc: Global, blockers: &[Option<usize>], pid: usize) -> Result<Vec<usize>, AllocError>
    ensures followed { IfOk result (λ v. v.items
        ≡ followed blockers.now (length blockers.now) (blocker blockers.now pid)) }
{
    let mut followed = Vec::new(alloc);
    let mut next = blocker(blockers, pid);
    for _ in 0..blockers.len() {
        if let Some(pid) = next {
            followed.push(pid)?;
            next = blocker(blockers, pid);
        }
    }
    Ok(followed)
}

fn position_of(processes: &[usize], pid: usize) -> Option<usize>
    ensures position { result ≡ position (λ q. q == pid) processes.now }
    ensures within { IfSome result (λ i. i < length processes.now) }
{
    processes.iter().position(|process| *process == pid)
}

fn any_below(processes: &[usize], pid: usize) -> bool
    ensures value { result ≡ list_any (λ q. nat_lt q pid) processes.now }
{
    processes.iter().any(|process| *process < pid)
}

/// The circle of process `pid` and those behind it, where it comes again and none before that has a lesser number.
fn circle_from(alloc: Global, pid: usize, behind: &[usize]) -> Result<Option<Value>, AllocError>
    ensures circle { IfOk result (λ v. option_to_list (option_map view v)
        ≡ circle_from pid behind.now) }
{
    let Some(end) = position_of(behind, pid) else {
        return Ok(None);
    };
    let others = &behind[..end];
    if any_below(others, pid) {
        return Ok(None);
    }
    let mut circle = Vec::new(alloc);
    circle.push(pid)?;
    circle.extend_from_slice(others)?;
    Ok(Some(list_value(alloc, &circle)?))
}

/// The circles of processes in a world, each by its least one, by the units that are taken.
#[tactic(auto, unfolding(crate::specs::Waits::circles_data))]
pub fn circles_value(alloc: Global, world: &World, holds: &[Hold]) -> Result<Value, AllocError>
    ensures value { IfOk result (λ v. view v ≡ circles_data world.now holds.now) }
{
    let blockers = blockers(alloc, world, holds)?;
    let circles = made_below(alloc, blockers.len(), |pid| {
        circle_from(alloc, pid, &followed(alloc, &blockers, pid)?)
    })?;
    Ok(Value::Array(circles))
}
