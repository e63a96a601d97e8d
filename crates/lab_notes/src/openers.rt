//! The names by which the processes of a run open objects.
ghost use Rattle.std.specs.Prelude.{◌≡◌, ◌<◌, IfSome, OnOk, length, position};
ghost use Rattle.std.specs.List.{find};
ghost use Rattle.std.specs.Option.{option_map};
ghost use Rattle.lab_notes.specs.Openers.{is_named, opened_with, are_twins, twin_after};

use lab_told::{Called, Text};
use std::alloc::{AllocError, Global};

/// A name by which processes opened semaphores, or queues.
#[derive(Drop)]
pub struct Opened {
    pub is_queue: bool,
    pub name: Text,
    /// The first process that did.
    pub pid: usize,
    /// Whether another one did, too.
    pub is_shared: bool,
}

fn index_of(opened: &[Opened], call: &Called) -> Option<usize>
    ensures value { result ≡ position (is_named call.now) opened.now }
    ensures within { IfSome result (λ i. i < length opened.now) }
{
    let is_queue = call.service.is_on_queues();
    opened.iter().position(|opened| {
        opened.is_queue == is_queue && opened.name.as_str() == call.object.as_str()
    })
}

/// Keeps that process `pid` opened what a call names.
pub(crate) fn keep_opened(
    opened: &mut Vec<Opened>,
    alloc: Global,
    pid: usize,
    call: &Called,
) -> Result<(), AllocError>
    ensures kept { OnOk result (opened.new.items ≡ opened_with pid call.now opened.old.items) }
{
    let Some(index) = index_of(opened, call) else {
        opened.push(Opened {
            is_queue: call.service.is_on_queues(),
            name: Text::new(String::from_str(alloc, call.object.as_str())?),
            pid,
            is_shared: false,
        })?;
        return Ok(());
    };
    let is_shared = opened[index].is_shared || opened[index].pid != pid;
    opened[index].is_shared = is_shared;
    Ok(())
}

/// Whether two names, each opened by one process alone, and not by the same, differ by the case of letters alone.
fn are_twins(one: &Opened, other: &Opened) -> bool
    ensures value { result ≡ are_twins one.now other.now }
{
    one.is_queue == other.is_queue
        && one.pid != other.pid
        && !one.is_shared
        && !other.is_shared
        && one
            .name
            .as_str()
            .as_bytes()
            .eq_ignore_ascii_case(other.name.as_str().as_bytes())
}

/// The first of some names that differs from another by the case of letters alone.
fn find_twin<'a>(opened: &'a [Opened], one: &Opened) -> Option<&'a Opened>
    ensures value { option_map (λ o. o.now) result ≡ find (are_twins one.now) opened.now }
{
    opened.iter().find(|other| are_twins(one, other))
}

/// The first name behind the one at an index that differs from it by the case of letters alone, each of which one process alone
/// opened, and not the same.
pub fn twin_after(opened: &[Opened], index: usize) -> Option<&Opened>
    ensures value { option_map (λ o. o.now) result ≡ twin_after opened.now index }
{
    match opened.get(index) {
        Some(one) => find_twin(&opened[index + 1..], one),
        None => None,
    }
}
