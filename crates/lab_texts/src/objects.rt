//! Message queues with their messages, semaphores, and what processes have open.
ghost use Rattle.std.specs.Prelude.{◌≡◌, ◌++◌, Some, OnOk, IfOk, string_bytes, flat_map};
ghost use Rattle.std.specs.Option.{option_copied};
ghost use Rattle.lab_texts.specs.Objects.{name_text, message_line, queue_text, mqs_text, semaphore_text, sems_text, access_text, descriptor_line, slot_line, fds_text};

use ipc_kernel::{Descriptor, OBJECT_PLACES, OPEN_MAX, Slot};
use ipc_names::Name;
use ipc_objects::Queue;
use lab_sched::World;
use lc3_word::Hex;
use std::alloc::{AllocError, Global};
use std::fmt;

/// The name of an object, or a dash once it is unlinked.
#[derive(Drop)]
pub struct NameText<'a>(pub Option<&'a Name>);

impl fmt::Display for NameText<'_> {
    ghost output = { λ n. Some (name_text (option_copied n.0)) };

    fn fmt<W: fmt::Write>(&self, f: &mut fmt::Formatter<W>) -> fmt::Result {
        match self.0 {
            Some(name) => {
                let name = name.text();
                write!(f, "{name}")
            }
            None => write!(f, "-"),
        }
    }
}

/// Adds the priority and the words of a message, and a line feed.
#[tactic(auto, unfolding(crate::specs::Objects::message_line))]
pub fn push_message(text: &mut String, priority: u16, words: &[u16]) -> Result<(), AllocError>
    ensures text { OnOk result (string_bytes text.new ≡ string_bytes text.old
        ++ message_line (record { priority = priority; words = words.now })) }
{
    write!(text, " {priority}")?;
    for word in words {
        let word = Hex(*word);
        write!(text, " {word}")?;
    }
    text.push_str("\n")
}

/// Adds the messages of a queue, in the order in which they would be received.
fn push_messages(text: &mut String, queue: &Queue) -> Result<(), AllocError>
    ensures text { OnOk result (string_bytes text.new ≡ string_bytes text.old
        ++ flat_map message_line queue.now.messages) }
{
    let (_, _, count) = queue.attr();
    for i in 0..usize::from(count) {
        let Some((priority, words)) = queue.entry(i) else {
            return Ok(());
        };
        push_message(text, priority, words)?;
    }
    Ok(())
}

/// Adds the queue in a place, with its messages.
#[tactic(auto, unfolding(crate::specs::Objects::queue_line))]
fn push_queue(text: &mut String, world: &World, place: u8) -> Result<(), AllocError>
    ensures text { OnOk result (string_bytes text.new ≡ string_bytes text.old
        ++ queue_text place world.now) }
{
    let Some((name, queue)) = world.kernel().queue_at(place) else {
        return Ok(());
    };
    let name = NameText(name);
    let (most, size, count) = queue.attr();
    write!(text, "{place} {name} {most} {size} {count}\n")?;
    push_messages(text, queue)
}

/// The queues in order of place, each with its messages in the order in which they would be
/// received.
#[tactic(auto, using(crate::proofs::RowLemmas::texts_below_none, crate::proofs::RowLemmas::texts_below_next))]
pub fn mqs_text(alloc: Global, world: &World) -> Result<String, AllocError>
    ensures text { IfOk result (λ s. string_bytes s ≡ mqs_text world.now) }
{
    let mut text = String::new(alloc);
    for place in 0..OBJECT_PLACES as u8 {
        push_queue(&mut text, world, place)?;
    }
    Ok(text)
}

/// Adds the semaphore in a place.
fn push_semaphore(text: &mut String, world: &World, place: u8) -> Result<(), AllocError>
    ensures text { OnOk result (string_bytes text.new ≡ string_bytes text.old
        ++ semaphore_text place world.now) }
{
    let Some((name, value)) = world.kernel().semaphore_at(place) else {
        return Ok(());
    };
    let name = NameText(name);
    write!(text, "{place} {name} {value}\n")
}

/// The semaphores in order of place.
#[tactic(auto, using(crate::proofs::RowLemmas::texts_below_none, crate::proofs::RowLemmas::texts_below_next))]
pub fn sems_text(alloc: Global, world: &World) -> Result<String, AllocError>
    ensures text { IfOk result (λ s. string_bytes s ≡ sems_text world.now) }
{
    let mut text = String::new(alloc);
    for place in 0..OBJECT_PLACES as u8 {
        push_semaphore(&mut text, world, place)?;
    }
    Ok(text)
}

/// What a descriptor is open for, as `rw`: 0 to receive, 1 to send, else both.
pub fn access_name(access: u8) -> &'static str
    ensures text { result.now ≡ access_text access }
{
    match access {
        0 => "r",
        1 => "w",
        _ => "rw",
    }
}

#[tactic(auto, unfolding(crate::specs::Objects::descriptor_line))]
fn push_descriptor(text: &mut String, mqd: u16, held: Option<Descriptor>) -> Result<(), AllocError>
    ensures text { OnOk result (string_bytes text.new ≡ string_bytes text.old
        ++ descriptor_line mqd held) }
{
    let Some(held) = held else {
        return Ok(());
    };
    let place = held.place;
    let access = access_name(held.access);
    let mode = if held.nonblock { "nonblock" } else { "block" };
    write!(text, "mq {mqd} {place} {access} {mode}\n")
}

#[tactic(auto, unfolding(crate::specs::Objects::slot_line))]
fn push_slot(text: &mut String, slot: u16, held: Option<Slot>) -> Result<(), AllocError>
    ensures text { OnOk result (string_bytes text.new ≡ string_bytes text.old
        ++ slot_line slot held) }
{
    if let Some(Slot { place, opens }) = held {
        write!(text, "sem {slot} {place} {opens}\n")?;
    }
    Ok(())
}

/// The open descriptors of process `pid`, and then its open slots.
#[tactic(auto, using(crate::proofs::RowLemmas::texts_below_none, crate::proofs::RowLemmas::texts_below_next))]
pub fn fds_text(alloc: Global, world: &World, pid: usize) -> Result<String, AllocError>
    ensures text { IfOk result (λ s. string_bytes s ≡ fds_text pid world.now) }
{
    let mut text = String::new(alloc);
    if pid >= world.count() {
        return Ok(text);
    }
    for mqd in 0..OPEN_MAX as u16 {
        push_descriptor(&mut text, mqd, world.kernel().mqd(pid, mqd))?;
    }
    for slot in 0..OPEN_MAX as u16 {
        push_slot(&mut text, slot, world.kernel().slot(pid, slot))?;
    }
    Ok(text)
}
