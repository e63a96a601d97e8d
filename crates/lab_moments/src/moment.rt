//! The moment after a step, and what happened in it.
ghost use Rattle.std.specs.Prelude.{◌≡◌, ◌<◌, IfOk, length, option_to_list, string_bytes, ◌++◌, map};
ghost use Rattle.std.specs.Option.{option_map};
ghost use Rattle.serde_json.specs.View.{view};
ghost use Rattle.lab_moments.specs.Moments.{moment_by};
ghost use Rattle.lab_trace.specs.Outcomes.{outcome_text};
ghost use Rattle.lab_moments.specs.Values.{natural, naturals, or_null};
ghost use Rattle.lab_moments.specs.Events.{outcome_data, words_of, called_data, act_data, open_told, event_data};
ghost use Rattle.lab_moments.specs.Objects.{descriptor_data, slot_data, open_data};

use crate::holds::{objects_told, over_value};
use crate::past::{Past, between_value};
use crate::state::state_in;
use crate::values::{list_value, push_some};
use ipc_errors::error_name;
use ipc_kernel::{Descriptor, OPEN_MAX, Reply, Slot};
use ipc_traps::Service;
use lab_sched::World;
use lab_texts::{access_name, how_name};
use lab_told::{Act, Called, Event, Origin, Outcome, Taken, Told, result_in};
use lab_trace::{Form, columns_text, event_text, push_outcome};
use serde_json::{Value, json};
use std::alloc::{AllocError, Global};

/// The moment after a step, where it has one; `past` is what was kept of the steps before it.
#[tactic(auto, unfolding(crate::specs::Moments::counted_moment, crate::specs::Moments::shown_moment))]
pub fn moment_by(
    alloc: Global,
    taken: &Taken<'_>,
    past: &Past,
    form: &Form<'_, '_>,
    whole: bool,
) -> Result<Option<Value>, AllocError>
    requires process { taken.now.pid < length taken.now.world.now.processes }
    ensures moment { IfOk result (λ m. option_to_list (option_map view m)
        ≡ moment_by form.now whole taken.now.number taken.now.pid taken.now.told.now
        taken.now.world.now taken.now.tally.now past.now) }
{
    match taken.told {
        Told::Counted if whole => Ok(Some(json!(in alloc; [
            taken.number,
            taken.pid,
            state_in(alloc, taken.world, taken.pid)?
        ])?)),
        Told::Shown(event) => Ok(Some(json!(in alloc; [
            taken.number,
            taken.pid,
            state_in(alloc, taken.world, taken.pid)?,
            event_value(alloc, taken, past, form, event)?,
            between_value(alloc, &past.between)?
        ])?)),
        Told::Nothing | Told::Counted => Ok(None),
    }
}

fn outcome_value(alloc: Global, outcome: &Outcome) -> Result<Value, AllocError>
    ensures value { IfOk result (λ v. view v ≡ outcome_data outcome.now) }
{
    match outcome {
        Outcome::Waits => Ok(Value::Null),
        Outcome::Refused(error) => Value::try_from_str(alloc, error_name(*error)),
        Outcome::Replied(reply) => Ok(Value::from(result_in(reply))),
    }
}

/// The words of the message that a call received, else of that which it sends.
fn message_words(alloc: Global, call: &Called) -> Result<Value, AllocError>
    ensures value { IfOk result (λ v. view v
        ≡ or_null (option_map naturals (words_of call.now.outcome call.now.sent))) }
{
    if let Outcome::Replied(Reply::Message { words, .. }) = &call.outcome {
        return list_value(alloc, words.as_slice());
    }
    match &call.sent {
        Some(words) => list_value(alloc, words.as_slice()),
        None => Ok(Value::Null),
    }
}

fn answer_text(alloc: Global, outcome: &Outcome) -> Result<String, AllocError>
    ensures text { IfOk result (λ s. string_bytes s ≡ outcome_text outcome.now) }
{
    let mut answer = String::new(alloc);
    push_outcome(&mut answer, outcome)?;
    Ok(answer)
}

fn place_value(place: Option<u8>) -> Value
    ensures value { view result ≡ or_null (option_map natural place) }
{
    Value::from(place)
}

fn step_value(step: Option<u32>) -> Value
    ensures value { view result ≡ or_null (option_map natural step) }
{
    Value::from(step)
}

/// The step that sent a message, where one was received.
fn sender(origin: Option<Origin>) -> Option<u32>
    ensures step { result ≡ option_map (λ o. o.step) origin }
{
    Some(origin?.step)
}

#[tactic(auto, unfolding(crate::specs::Events::called_data))]
fn called_value(alloc: Global, call: &Called) -> Result<Value, AllocError>
    ensures value { IfOk result (λ v. view v ≡ called_data call.now) }
{
    let (name, object) = (call.service.name(), call.object.as_str());
    json!(in alloc; [
        "call",
        name,
        place_value(call.place),
        object,
        answer_text(alloc, &call.outcome)?,
        outcome_value(alloc, &call.outcome)?,
        message_words(alloc, call)?,
        step_value(sender(call.origin)),
        step_value(call.giver)
    ])
}

/// What a process did.
pub fn act_value(alloc: Global, act: &Act) -> Result<Value, AllocError>
    ensures value { IfOk result (λ v. view v ≡ act_data act.now) }
{
    match act {
        Act::Calls(call) => called_value(alloc, call),
        Act::Writes(bytes) => { json!(in alloc; ["output", list_value(alloc, bytes.as_slice())?]) }
        Act::Ends(how) => {
            let how = how_name(*how);
            json!(in alloc; ["ends", how])
        }
    }
}

/// What process `pid` has open, where it is told behind what it did.
#[tactic(auto, unfolding(crate::specs::Events::open_told))]
fn open_told(alloc: Global, world: &World, pid: usize, act: &Act) -> Result<Value, AllocError>
    requires process { pid < length world.now.processes }
    ensures value { IfOk result (λ v. view v ≡ open_told world.now pid act.now) }
{
    match act {
        Act::Calls(call)
            if call.service.is_on_level()
                || matches!(call.service, Service::MqGetattr | Service::SemGetvalue) => {
            Ok(Value::Null)
        }
        Act::Writes(_) => Ok(Value::Null),
        Act::Calls(_) | Act::Ends(_) => open_value(alloc, world, pid),
    }
}

/// The event of a step, by what was kept of the steps before it.
#[tactic(auto, unfolding(crate::specs::Events::event_data))]
pub fn event_value(
    alloc: Global,
    taken: &Taken<'_>,
    past: &Past,
    form: &Form<'_, '_>,
    event: &Event,
) -> Result<Value, AllocError>
    requires process { taken.now.pid < length taken.now.world.now.processes }
    ensures value { IfOk result (λ v. view v ≡ event_data form.now taken.now.number taken.now.pid
        event.now taken.now.world.now taken.now.tally.now past.now) }
{
    json!(in alloc; [
        event.pc,
        columns_text(alloc, form, taken.number, taken.pid, event)?,
        event_text(alloc, event)?,
        act_value(alloc, &event.act)?,
        objects_told(alloc, &past.objects, taken, &event.act)?,
        open_told(alloc, taken.world, taken.pid, &event.act)?,
        over_value(alloc, taken.world.kernel(), taken.pid, &event.act, &past.holds)?
    ])
}

fn descriptor_value(
    alloc: Global,
    number: u16,
    held: Option<Descriptor>,
) -> Result<Option<Value>, AllocError>
    ensures value { IfOk result (λ v. option_map view v
        ≡ option_map (descriptor_data number) held) }
{
    let Some(held) = held else {
        return Ok(None);
    };
    let access = access_name(held.access);
    let (place, nonblock) = (held.place, held.nonblock);
    Ok(Some(json!(in alloc; ["mq", number, place, access, nonblock])?))
}

fn slot_value(alloc: Global, number: u16, held: Option<Slot>) -> Result<Option<Value>, AllocError>
    ensures value { IfOk result (λ v. option_map view v ≡ option_map (slot_data number) held) }
{
    let Some(held) = held else {
        return Ok(None);
    };
    let (place, opens) = (held.place, held.opens);
    Ok(Some(json!(in alloc; ["sem", number, place, opens])?))
}

/// What process `pid` has open: descriptors, then slots.
#[tactic(auto, using(crate::proofs::ValueLemmas::below), unfolding(crate::specs::Objects::open_data))]
pub fn open_value(alloc: Global, world: &World, pid: usize) -> Result<Value, AllocError>
    requires process { pid < length world.now.processes }
    ensures value { IfOk result (λ v. view v ≡ open_data world.now pid) }
{
    let mut values = Vec::new(alloc);
    let kernel = world.kernel();
    'descriptors: for number in 0..OPEN_MAX as u16 {
        let held = kernel.mqd(pid, number);
        push_some(&mut values, descriptor_value(alloc, number, held)?)?;
    }
    'slots: for number in 0..OPEN_MAX as u16 {
        let held = kernel.slot(pid, number);
        push_some(&mut values, slot_value(alloc, number, held)?)?;
    }
    Ok(Value::Array(values))
}
