//! What the processes wait for that wait at the end of a run.
ghost use Rattle.std.specs.Prelude.{◌≡◌, ◌<◌, IfOk, length, slice_get};
ghost use Rattle.ipc_kernel.specs.Places.{place_at};
ghost use Rattle.lab_told.specs.Objects.{object_text};
ghost use Rattle.lab_notes.specs.Waiting.{taker_of, wait_of, waits_of};

use ipc_kernel::Kernel;
use ipc_traps::Service;
use lab_sched::{Process, World};
use lab_told::{Tally, Text, held_place, service_at};
use lc3_word::Reg;
use std::alloc::{AllocError, Global};

/// A process that waits.
#[derive(Drop)]
pub struct Waiting {
    pub pid: usize,
    /// The call in which it waits.
    pub service: Service,
    /// The object, by its name, or by its place once it is unlinked.
    pub object: Text,
    /// The first process that took more units of a semaphore than it gave.
    pub taker: Option<usize>,
}

/// The object in a place, by its name, or by its place once it is unlinked.
fn name_of(alloc: Global, kernel: &Kernel, place: u8) -> Result<Text, AllocError>
    ensures name { IfOk result (λ t. t ≡ object_text place (place_at kernel.now.places place)) }
{
    let name = match (kernel.queue_at(place), kernel.semaphore_at(place)) {
        (Some((name, _)), _) | (None, Some((name, _))) => name,
        (None, None) => return Ok(Text::new(String::new(alloc))),
    };
    Ok(Text::new(match name {
        Some(name) => String::from_str(alloc, name.text())?,
        None => format!(in alloc; "#{place}")?,
    }))
}

/// The first process that took more units of the semaphore in a place than it gave.
#[tactic(auto, using(crate::proofs::BelowLemmas::first_below_none, crate::proofs::BelowLemmas::first_below_more))]
fn taker_of(world: &World, tally: &Tally, place: u8) -> Option<usize>
    ensures value { result ≡ taker_of world.now tally.now place }
{
    let mut found = None;
    for pid in 0..world.count() {
        if found.is_none() && tally.balance(place, pid) > 0 {
            found = Some(pid);
        }
    }
    found
}

/// What a process waits for, if it waits.
fn wait_of(
    alloc: Global,
    world: &World,
    tally: &Tally,
    pid: usize,
) -> Result<Option<Waiting>, AllocError>
    requires process { pid < length world.now.processes }
    ensures wait { IfOk result (λ w. w ≡ wait_of world.now tally.now pid (slice_get world.now.processes pid)) }
{
    let Some(process) = world.process(pid) else {
        return Ok(None);
    };
    if !matches!(process, Process::Waiting(_, _)) {
        return Ok(None);
    }
    let Some(service) = service_at(process) else {
        return Ok(None);
    };
    let number = process.machine().reg(Reg::of_low_bits(0));
    let Some(place) = held_place(world.kernel(), pid, service, number) else {
        return Ok(None);
    };
    Ok(Some(Waiting {
        pid,
        service,
        object: name_of(alloc, world.kernel(), place)?,
        taker: taker_of(world, tally, place),
    }))
}

/// What the processes wait for that wait, in their order.
#[tactic(auto, using(crate::proofs::BelowLemmas::waits_below_none, crate::proofs::BelowLemmas::waits_below_more))]
pub(crate) fn waits_of(
    alloc: Global,
    world: &World,
    tally: &Tally,
) -> Result<Vec<Waiting>, AllocError>
    ensures waits { IfOk result (λ ws. ws.items ≡ waits_of world.now tally.now) }
{
    let mut waits = Vec::new(alloc);
    for pid in 0..world.count() {
        if let Some(wait) = wait_of(alloc, world, tally, pid)? {
            waits.push(wait)?;
        }
    }
    Ok(waits)
}
