//! The semaphores and queues of a run, by who made them.
ghost use Rattle.std.specs.Prelude.{◌≡◌, ◌<◌, OnOk, length, filter};
ghost use Rattle.std.specs.List.{find};
ghost use Rattle.std.specs.Option.{option_map};
ghost use Rattle.lab_notes.specs.Objects.{is_in, is_namesake, value_in, made_with, is_there, has_object_open, holder_of};

use ipc_kernel::Kernel;
use ipc_traps::Service;
use lab_told::{Called, Level, Text, has_open};
use std::alloc::{AllocError, Global};

/// A semaphore or a queue that is there, as it was made.
#[derive(Drop)]
pub struct Made {
    pub place: u8,
    pub is_queue: bool,
    /// The name that it was made with.
    pub name: Text,
    /// The process that made it.
    pub pid: usize,
    /// The value that a semaphore was made with; 0 of a queue.
    pub value: u16,
}

/// What was made in a place.
pub(crate) fn made_in(made: &[Made], place: u8) -> Option<&Made>
    ensures value { option_map (λ m. m.now) result ≡ find (is_in place) made.now }
{
    made.iter().find(|made| made.place == place)
}

/// What was made by the name that a call names, and is there.
pub(crate) fn namesake<'a>(made: &'a [Made], call: &Called) -> Option<&'a Made>
    ensures value { option_map (λ m. m.now) result ≡ find (is_namesake call.now) made.now }
{
    let is_queue = call.service.is_on_queues();
    made.iter().find(|made| {
        made.is_queue == is_queue && made.name.as_str() == call.object.as_str()
    })
}

/// The value that an open leaves a semaphore with.
fn value_in(level: Option<Level>) -> u16
    ensures value { result ≡ value_in level }
{
    match level {
        Some(Level::Value(value)) => value,
        _ => 0,
    }
}

/// Keeps what an open of process `pid` made in a place, unless something stood there.
pub(crate) fn keep_made(
    made: &mut Vec<Made>,
    alloc: Global,
    pid: usize,
    call: &Called,
    place: u8,
) -> Result<(), AllocError>
    ensures kept { OnOk result (made.new.items ≡ made_with pid call.now place made.old.items) }
{
    if made_in(made, place).is_some() {
        return Ok(());
    }
    made.push(Made {
        place,
        is_queue: call.service.is_on_queues(),
        name: Text::new(String::from_str(alloc, call.object.as_str())?),
        pid,
        value: value_in(call.level),
    })?;
    Ok(())
}

/// Whether what was made is there.
fn is_there(kernel: &Kernel, made: &Made) -> bool
    ensures value { result ≡ is_there kernel.now made.now }
{
    if made.is_queue {
        kernel.queue_at(made.place).is_some()
    } else {
        kernel.semaphore_at(made.place).is_some()
    }
}

/// Lets go of what is no more.
pub(crate) fn keep_present(made: &mut Vec<Made>, kernel: &Kernel)
    ensures kept { made.new.items ≡ filter (is_there kernel.now) made.old.items }
{
    made.retain(|made| is_there(kernel, made));
}

/// Whether process `pid` has something open that was made.
fn has_object_open(kernel: &Kernel, made: &Made, pid: usize) -> bool
    requires process { pid < length kernel.now.processes }
    ensures value { result ≡ has_object_open kernel.now made.now pid }
{
    let place = made.place;
    if made.is_queue {
        has_open(kernel, place, Service::MqReceive, pid)
            || has_open(kernel, place, Service::MqSend, pid)
    } else {
        has_open(kernel, place, Service::SemWait, pid)
    }
}

/// The first process that has something open that was made.
#[tactic(auto, using(crate::proofs::BelowLemmas::first_below_none, crate::proofs::BelowLemmas::first_below_more))]
pub(crate) fn holder_of(kernel: &Kernel, made: &Made) -> Option<usize>
    ensures value { result ≡ holder_of kernel.now made.now }
{
    let mut found = None;
    for pid in 0..kernel.count() {
        if found.is_none() && has_object_open(kernel, made, pid) {
            found = Some(pid);
        }
    }
    found
}
