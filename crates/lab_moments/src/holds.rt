//! The units of semaphores that processes have taken and not given back.
ghost use Rattle.std.specs.Prelude.{◌≡◌, IfOk, OnOk, map};
ghost use Rattle.std.specs.List.{find, filter};
ghost use Rattle.std.specs.Option.{option_to_list, option_map};
ghost use Rattle.serde_json.specs.View.{view};
ghost use Rattle.lab_told.specs.Answers.{act_done};
ghost use Rattle.lab_moments.specs.Holds.{given_by, holds_after, holds_data, holds_over, is_hold_of, is_kept, taken_by};
ghost use Rattle.ipc_kernel.specs.Places.{place_at};
ghost use Rattle.lab_moments.specs.Changes.{known_at, known_with, known_of, known_after, made_with, is_same, is_about, object_told, objects_told};

use crate::objects::object_value;
use crate::values::{AsData, list_value, made_below};
use ipc_kernel::{Kernel, OBJECT_PLACES};
use ipc_traps::Service;
use lab_told::{Act, Taken, Tally};
use serde_json::{Value, json};
use std::alloc::{AllocError, Global};

/// A unit of a semaphore that a process has taken.
#[derive(Clone, Copy, Debug, PartialEq, Eq)]
pub struct Hold {
    /// The process.
    pub pid: usize,
    /// The place of the semaphore.
    pub place: u8,
    /// The step in which the process took it.
    pub step: u32,
}

impl AsData for Hold {
    ghost use Rattle.lab_moments.specs.Holds.{hold_data};

    ghost form = { hold_data };

    fn value(&self, alloc: Global) -> Result<Value, AllocError> {
        json!(in alloc; [self.pid, self.step])
    }
}

fn is_hold_of(hold: &Hold, place: u8, pid: usize) -> bool
    ensures value { result ≡ is_hold_of place pid hold.now }
{
    hold.place == place && hold.pid == pid
}

fn last_hold(holds: &[Hold], place: u8, pid: usize) -> Option<Hold>
    ensures hold { result ≡ find (is_hold_of place pid) holds.now }
{
    holds
        .iter()
        .copied()
        .find(|hold| is_hold_of(hold, place, pid))
}

/// The unit that process `pid` gives back by what it does.
fn given_by(holds: &[Hold], pid: usize, act: &Act) -> Option<Hold>
    ensures hold { result ≡ given_by pid (act_done act.now) holds.now }
{
    match act.done() {
        Some((Service::SemPost, place)) => last_hold(holds, place, pid),
        _ => None,
    }
}

/// The unit that process `pid` took by what it did in step `step`, by the tally after it.
fn taken_by(
    tally: &Tally,
    objects: &[Option<Known>],
    step: u32,
    pid: usize,
    act: &Act,
) -> Option<Hold>
    ensures hold { option_to_list result
        ≡ taken_by step pid (act_done act.now) tally.now objects.now }
{
    match act.done() {
        Some((Service::SemWait | Service::SemTrywait, place))
            if made_with(objects, place) > 0 && tally.balance(place, pid) > 0 => {
            Some(Hold { pid, place, step })
        }
        _ => None,
    }
}

/// Whether a unit stays taken: it isn't given back, and its semaphore is there.
fn is_kept(kernel: &Kernel, given: Option<Hold>, hold: Hold) -> bool
    ensures value { result ≡ is_kept kernel.now given hold }
{
    let is_given = matches!(given, Some(given) if given.step == hold.step);
    !is_given && kernel.semaphore_at(hold.place).is_some()
}

fn drop_over(holds: &mut Vec<Hold>, kernel: &Kernel, given: Option<Hold>)
    ensures kept { holds.new.items ≡ filter (is_kept kernel.now given) holds.old.items }
{
    holds.retain(|hold| is_kept(kernel, given, *hold));
}

/// Keeps what a process did in a step among the units that are taken, the last one first.
pub fn keep_holds(
    holds: &mut Vec<Hold>,
    taken: &Taken<'_>,
    objects: &[Option<Known>],
    act: &Act,
) -> Result<(), AllocError>
    ensures kept { OnOk result (holds.new.items
        ≡ holds_after taken.now.world.now.kernel taken.now.tally.now taken.now.number
        taken.now.pid act.now objects.now holds.old.items) }
{
    let given = given_by(holds, taken.pid, act);
    drop_over(holds, taken.world.kernel(), given);
    if let Some(hold) = taken_by(taken.tally, objects, taken.number, taken.pid, act) {
        holds.insert(0, hold)?;
    }
    Ok(())
}

/// The units that don't stay taken after what process `pid` did, by the kernel after it.
pub fn over_value(
    alloc: Global,
    kernel: &Kernel,
    pid: usize,
    act: &Act,
    holds: &[Hold],
) -> Result<Value, AllocError>
    ensures value { IfOk result (λ v. view v
        ≡ holds_data (holds_over kernel.now pid act.now holds.now)) }
{
    let given = given_by(holds, pid, act);
    let over: Vec<Hold> = holds
        .iter()
        .copied()
        .filter(|hold| !is_kept(kernel, given, *hold))
        .collect(alloc)?;
    list_value(alloc, &over)
}

/// What was last told of an object.
#[derive(Clone, Copy, Debug, PartialEq, Eq)]
pub struct Known {
    /// Whether it has a name.
    pub named: bool,
    /// The value of a semaphore, or how many messages a queue has.
    pub level: u16,
    /// The level with which it was made.
    pub made: u16,
}

/// An object that has a name or not and this level, by what was known of it.
fn known_with(was: Option<Known>, named: bool, level: u16) -> Known
    ensures known { result ≡ known_with was named level }
{
    Known {
        named,
        level,
        made: was.map_or(level, |was| was.made),
    }
}

fn known_of(was: Option<Known>, kernel: &Kernel, place: u8) -> Option<Known>
    ensures known { result ≡ known_of was (place_at kernel.now.places place) }
{
    if let Some((name, queue)) = kernel.queue_at(place) {
        let (_, _, count) = queue.attr();
        return Some(known_with(was, name.is_some(), count));
    }
    let (name, value) = kernel.semaphore_at(place)?;
    Some(known_with(was, name.is_some(), value))
}

fn level_made(known: Option<Known>) -> u16
    ensures level { result ≡ made_with known }
{
    known.map_or(0, |known| known.made)
}

/// Whether an object is as it was: gone, or with a name or not and the level as before.
fn is_same(was: Option<Known>, now: Option<Known>) -> bool
    ensures same { result ≡ is_same was now }
{
    match (was, now) {
        (Some(was), Some(now)) => was.named == now.named && was.level == now.level,
        (None, None) => true,
        _ => false,
    }
}

/// Whether what process `pid` did is about the object in a place, by the tally after it.
fn is_about(pid: usize, act: &Act, tally: &Tally, place: u8) -> bool
    ensures value { result ≡ is_about pid act.now tally.now place }
{
    match act {
        Act::Calls(call) => {
            call.service.is_on_level() && matches!(call.place, Some(of) if of == place)
        }
        Act::Writes(_) => false,
        Act::Ends(_) => tally.balance(place, pid) > 0,
    }
}

fn known_at(objects: &[Option<Known>], place: u8) -> Option<Known>
    ensures known { result ≡ known_at objects.now place }
{
    *objects.get(place as usize)?
}

/// The level with which the object in a place was made.
pub fn made_with(objects: &[Option<Known>], place: u8) -> u16
    ensures level { result ≡ made_with (known_at objects.now place) }
{
    level_made(known_at(objects, place))
}

/// What is known of the object in each place after a step, by the kernel after it.
#[tactic(auto, using(crate::proofs::ValueLemmas::below), unfolding(crate::specs::Changes::known_after))]
pub fn known_after(
    alloc: Global,
    objects: &[Option<Known>],
    kernel: &Kernel,
) -> Result<Vec<Option<Known>>, AllocError>
    ensures known { IfOk result (λ v. v.items ≡ known_after objects.now kernel.now.places) }
{
    let mut list = Vec::new(alloc);
    for place in 0..OBJECT_PLACES as u8 {
        list.push(known_of(known_at(objects, place), kernel, place))?;
    }
    Ok(list)
}

/// Whether the object in a place isn't as it was last told, and the object, where it is told after a step.
fn object_told(
    alloc: Global,
    objects: &[Option<Known>],
    taken: &Taken<'_>,
    act: &Act,
    place: u8,
) -> Result<Option<Value>, AllocError>
    ensures object { IfOk result (λ v. option_to_list (option_map view v)
        ≡ object_told taken.now.world.now taken.now.tally.now taken.now.pid act.now
        objects.now place) }
{
    let was = known_at(objects, place);
    let now = known_of(was, taken.world.kernel(), place);
    let changed = !is_same(was, now);
    if changed || is_about(taken.pid, act, taken.tally, place) {
        let object = json!(in alloc; [
            changed,
            object_value(alloc, taken.world, taken.tally, level_made(now), place)?
        ])?;
        return Ok(Some(object));
    }
    Ok(None)
}

/// The objects that are told after a step, in order of place.
#[tactic(auto, unfolding(crate::specs::Changes::objects_told))]
pub fn objects_told(
    alloc: Global,
    objects: &[Option<Known>],
    taken: &Taken<'_>,
    act: &Act,
) -> Result<Vec<Value>, AllocError>
    ensures objects { IfOk result (λ v. map view v.items ≡ objects_told taken.now.world.now
        taken.now.tally.now taken.now.pid act.now objects.now) }
{
    made_below(alloc, OBJECT_PLACES, |place| {
        object_told(alloc, objects, taken, act, place as u8)
    })
}
