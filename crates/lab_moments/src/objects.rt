//! Message queues and semaphores at a moment, and who waits for them.
ghost use Rattle.std.specs.Prelude.{◌≡◌, ◌<◌, Some, IfOk, map, length, filter};
ghost use Rattle.std.specs.Option.{option_map, option_copied, option_to_list};
ghost use Rattle.serde_json.specs.View.{view};
ghost use Rattle.ipc_kernel.specs.Places.{place_at};
ghost use Rattle.lab_sched.specs.Held.{process_view};
ghost use Rattle.lab_told.specs.Origins.{is_in};
ghost use Rattle.lab_moments.specs.Values.{or_null};
ghost use Rattle.lab_moments.specs.Objects.{name_data, awaited, awaited_at, waiters, taker_at, takers, semaphore_data, origin_data, message_data, message_at, messages, queue_data, object_data};

use crate::values::{list_value, made_below};
use ipc_kernel::Kernel;
use ipc_names::Name;
use ipc_objects::Queue;
use ipc_traps::Service;
use lab_sched::{Process, World};
use lab_told::{Origin, Tally, held_place, service_at};
use lc3_word::Reg;
use serde_json::{Value, json};
use std::alloc::{AllocError, Global};

/// The name of an object, none once it is unlinked.
fn name_value(alloc: Global, name: Option<&Name>) -> Result<Value, AllocError>
    ensures value { IfOk result (λ v. view v ≡ name_data (option_copied name.entry)) }
{
    match name {
        Some(name) => Value::try_from_str(alloc, name.text()),
        None => Ok(Value::Null),
    }
}

/// The call in which process `pid` waits, and the place of its object.
fn awaited(kernel: &Kernel, pid: usize, process: &Process) -> Option<(Service, u8)>
    requires process { pid < length kernel.now.processes }
    ensures call { result ≡ awaited kernel.now pid (Some (process_view process.now)) }
{
    let Process::Waiting(_, _) = process else {
        return None;
    };
    let service = service_at(process)?;
    let number = process.machine().reg(Reg::of_low_bits(0));
    let place = held_place(kernel, pid, service, number)?;
    Some((service, place))
}

/// That of process `pid` of a world.
pub fn awaited_at(world: &World, pid: usize) -> Option<(Service, u8)>
    requires process { pid < length world.now.processes }
    ensures call { result ≡ awaited_at world.now pid }
{
    awaited(world.kernel(), pid, world.process(pid)?)
}

fn waiters(alloc: Global, world: &World, place: u8) -> Result<Vec<Value>, AllocError>
    ensures waiters { IfOk result (λ v. map view v.items ≡ waiters world.now place) }
{
    made_below(alloc, world.count(), |pid| match awaited_at(world, pid) {
        Some((_, awaited)) if awaited == place => Ok(Some(Value::from(pid))),
        _ => Ok(None),
    })
}

/// Process `pid`, where it took more units of the semaphore in a place than it gave, with how many more, and whether it has ended.
fn taker_at(
    alloc: Global,
    world: &World,
    tally: &Tally,
    place: u8,
    pid: usize,
) -> Result<Option<Value>, AllocError>
    ensures taker { IfOk result (λ v. option_to_list (option_map view v)
        ≡ taker_at world.now tally.now place pid) }
{
    let count = tally.balance(place, pid);
    if count == 0 {
        return Ok(None);
    }
    let ended = matches!(world.process(pid), Some(Process::Ended(_)));
    Ok(Some(json!(in alloc; [pid, count, ended])?))
}

/// The processes that took more units of the semaphore in a place than they gave.
pub fn takers(
    alloc: Global,
    world: &World,
    tally: &Tally,
    place: u8,
) -> Result<Vec<Value>, AllocError>
    ensures takers { IfOk result (λ v. map view v.items ≡ takers world.now tally.now place) }
{
    made_below(alloc, world.count(), |pid| {
        taker_at(alloc, world, tally, place, pid)
    })
}

/// The place of an object in a world, with the tally of the steps to that.
#[derive(Clone, Copy)]
struct ObjectPlace<'a> {
    world: &'a World,
    tally: &'a Tally,
    place: u8,
}

/// The semaphore in a place, which was made with some value.
#[tactic(auto, unfolding(crate::specs::Objects::semaphore_data))]
fn semaphore_value(
    alloc: Global,
    at: &ObjectPlace<'_>,
    made: u16,
    name: Option<&Name>,
    value: u16,
) -> Result<Value, AllocError>
    ensures value { IfOk result (λ v. view v ≡ semaphore_data at.now.world.now at.now.tally.now
        made at.now.place (option_copied name.entry, value)) }
{
    json!(in alloc; [
        "sem",
        at.place,
        name_value(alloc, name)?,
        waiters(alloc, at.world, at.place)?,
        value,
        made,
        takers(alloc, at.world, at.tally, at.place)?
    ])
}

fn origins_in(alloc: Global, tally: &Tally, place: u8) -> Result<Vec<Origin>, AllocError>
    ensures origins { IfOk result (λ v. v.items ≡ filter (is_in place) tally.now.origins) }
{
    tally
        .origins()
        .iter()
        .copied()
        .filter(|origin| origin.place == place)
        .collect(alloc)
}

fn origin_value(alloc: Global, origin: Option<&Origin>) -> Result<Value, AllocError>
    ensures value { IfOk result (λ v. view v
        ≡ or_null (option_map origin_data (option_copied origin.entry))) }
{
    match origin {
        Some(origin) => json!(in alloc; [origin.pid, origin.step]),
        None => Ok(Value::Null),
    }
}

#[tactic(auto, unfolding(crate::specs::Objects::message_data))]
fn message_value(
    alloc: Global,
    priority: u16,
    words: &[u16],
    origin: Option<&Origin>,
) -> Result<Value, AllocError>
    ensures value { IfOk result (λ v. view v
        ≡ message_data (record { priority = priority; words = words.now })
        (option_copied origin.entry)) }
{
    json!(in alloc; [priority, list_value(alloc, words)?, origin_value(alloc, origin)?])
}

fn message_at(
    alloc: Global,
    queue: &Queue,
    origins: &[Origin],
    index: usize,
) -> Result<Option<Value>, AllocError>
    ensures message { IfOk result (λ v. option_to_list (option_map view v)
        ≡ message_at origins.now queue.now index) }
{
    match queue.entry(index) {
        Some((priority, words)) => {
            let message = message_value(alloc, priority, words, origins.get(index))?;
            Ok(Some(message))
        }
        None => Ok(None),
    }
}

/// The messages of a queue in the order of receive.
fn messages(alloc: Global, queue: &Queue, origins: &[Origin]) -> Result<Vec<Value>, AllocError>
    ensures messages { IfOk result (λ v. map view v.items ≡ messages origins.now queue.now) }
{
    let (_, _, count) = queue.attr();
    made_below(alloc, count as usize, |index| {
        message_at(alloc, queue, origins, index)
    })
}

#[tactic(auto, unfolding(crate::specs::Objects::queue_data))]
fn queue_value(
    alloc: Global,
    at: &ObjectPlace<'_>,
    name: Option<&Name>,
    queue: &Queue,
) -> Result<Value, AllocError>
    ensures value { IfOk result (λ v. view v ≡ queue_data at.now.world.now at.now.tally.now
        at.now.place (option_copied name.entry, queue.now)) }
{
    let (most, size, _) = queue.attr();
    json!(in alloc; [
        "mq",
        at.place,
        name_value(alloc, name)?,
        waiters(alloc, at.world, at.place)?,
        most,
        size,
        messages(alloc, queue, &origins_in(alloc, at.tally, at.place)?)?
    ])
}

/// The object in a place, which was made with some level; else that it is gone.
pub fn object_value(
    alloc: Global,
    world: &World,
    tally: &Tally,
    made: u16,
    place: u8,
) -> Result<Value, AllocError>
    ensures value { IfOk result (λ v. view v
        ≡ object_data world.now tally.now made place (place_at world.now.kernel.places place)) }
{
    let kernel = world.kernel();
    let at = ObjectPlace {
        world,
        tally,
        place,
    };
    if let Some((name, queue)) = kernel.queue_at(place) {
        return queue_value(alloc, &at, name, queue);
    }
    match kernel.semaphore_at(place) {
        Some((name, value)) => semaphore_value(alloc, &at, made, name, value),
        None => json!(in alloc; ["gone", place]),
    }
}
