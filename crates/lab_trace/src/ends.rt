//! Where the processes stand that haven't ended.
ghost use Rattle.std.specs.Prelude.{Some, ◌≡◌, ◌<◌, ◌++◌, OnOk, IfOk, length, string_bytes, slice_get};
ghost use Rattle.lab_sched.specs.Held.{process_view};
ghost use Rattle.lab_sched.specs.Worlds.{machine_of};
ghost use Rattle.lab_told.specs.Services.{service_at};
ghost use Rattle.lab_trace.specs.Ends.{object_part, wait_text, stand_line, end_lines, taker_of, takers_part, or_nobody, others_text, others_title};
ghost use Rattle.std.specs.Option.{option_map, option_copied};
ghost use Rattle.lab_trace.specs.Outcomes.{call_text, outcome_text, level_text};

use crate::form::{Form, Stand};
use ipc_errors::error_name;
use ipc_kernel::Reply;
use ipc_traps::Service;
use lab_sched::{Process, World};
use lab_told::{
    Level, Outcome, Tally, Text, arguments_of, has_open, held_place, level_at, push_attributes,
    push_message, result_in, service_at,
};
use lc3_word::Reg;
use std::alloc::{AllocError, Global};

/// Adds the object in a place, who took its units, and who could serve a call on it.
fn push_object(
    text: &mut String,
    world: &World,
    tally: &Tally,
    pid: usize,
    service: Service,
    place: u8,
) -> Result<(), AllocError>
    ensures text { OnOk result (string_bytes text.new ≡ string_bytes text.old
        ++ object_part world.now tally.now.units pid service (Some place)) }
{
    if let Some(level) = level_at(world.kernel(), place) {
        push_level(text, level)?;
    }
    push_takers(text, world, tally, place, service)?;
    text.push_str(others_title(service))?;
    push_others(text, world, pid, service, place)
}

fn push_wait(
    text: &mut String,
    world: &World,
    tally: &Tally,
    pid: usize,
    process: &Process,
) -> Result<(), AllocError>
    requires process { pid < length world.now.processes }
    ensures text { OnOk result (string_bytes text.new ≡ string_bytes text.old
        ++ wait_text world.now tally.now pid (machine_of (process_view process.now))
        (service_at (machine_of (process_view process.now)))) }
{
    let Some(service) = service_at(process) else {
        return Ok(());
    };
    let kernel = world.kernel();
    text.push_str("waits")?;
    if let Some(since) = tally.account(pid).since {
        write!(text, " since {since}")?;
    }
    text.push_str(" in ")?;
    let arguments = arguments_of(*text.allocator(), kernel, pid, process, service)?;
    push_call(text, service, &arguments)?;
    text.push_str(": ")?;
    let number = process.machine().reg(Reg::of_low_bits(0));
    match held_place(kernel, pid, service, number) {
        Some(place) => push_object(text, world, tally, pid, service, place),
        None => Ok(()),
    }
}

/// Adds where process `pid` stands, if it hasn't ended.
fn push_stand(
    text: &mut String,
    world: &World,
    form: &Form<'_, '_>,
    tally: &Tally,
    pid: usize,
) -> Result<(), AllocError>
    requires process { pid < length world.now.processes }
    ensures text { OnOk result (string_bytes text.new ≡ string_bytes text.old
        ++ stand_line form.now world.now tally.now pid (slice_get world.now.processes pid)) }
{
    let Some(process) = world.process(pid) else {
        return Ok(());
    };
    let address = process.machine().pc();
    let stand = Stand {
        pid,
        address,
        word: process.machine().word(address),
    };
    let local = tally.account(pid).local;
    match process {
        Process::Running(_) => {
            form.push_head(text, "end", stand, local)?;
            text.push_str("runs")?;
            form.push_line_end(text, false, stand)
        }
        Process::Waiting(_, _) => {
            form.push_head(text, "end", stand, local)?;
            push_wait(text, world, tally, pid, process)?;
            form.push_line_end(text, false, stand)
        }
        Process::Ended(_) => Ok(()),
    }
}

/// Where the processes stand that haven't ended.
#[tactic(auto, unfolding(crate::specs::Ends::end_lines, lab_texts::specs::Rows::texts_below))]
pub fn stands(
    alloc: Global,
    world: &World,
    tally: &Tally,
    form: &Form<'_, '_>,
) -> Result<String, AllocError>
    ensures text { IfOk result (λ s. string_bytes s ≡ end_lines form.now world.now tally.now) }
{
    let mut text = String::new(alloc);
    for pid in 0..world.count() {
        push_stand(&mut text, world, form, tally, pid)?;
    }
    Ok(text)
}

/// Adds process `pid`, where it took more units than it gave, by how many.
#[tactic(auto, unfolding(crate::specs::Ends::taker_of, crate::specs::Ends::times_text))]
fn push_taker(
    text: &mut String,
    pid: usize,
    count: u32,
    process: Option<&Process>,
) -> Result<(), AllocError>
    ensures text { OnOk result (string_bytes text.new ≡ string_bytes text.old
        ++ taker_of pid count (option_map process_view (option_copied process.entry))) }
{
    if count == 0 {
        return Ok(());
    }
    write!(text, " P{pid}")?;
    if count > 1 {
        write!(text, "*{count}")?;
    }
    match process {
        Some(Process::Ended(_)) => text.push_str("(ended)"),
        _ => Ok(()),
    }
}

/// Adds who took units of the semaphore in a place that a call waits for and didn't give them back.
#[tactic(auto, unfolding(crate::specs::Ends::takers_text, lab_texts::specs::Rows::texts_below))]
pub fn push_takers(
    text: &mut String,
    world: &World,
    tally: &Tally,
    place: u8,
    service: Service,
) -> Result<(), AllocError>
    ensures text { OnOk result (string_bytes text.new ≡ string_bytes text.old
        ++ takers_part world.now tally.now.units place service) }
{
    match service {
        Service::MqReceive | Service::MqSend => Ok(()),
        _ => {
            text.push_str(", taken by")?;
            let mut found = String::new(*text.allocator());
            for pid in 0..world.count() {
                let count = tally.balance(place, pid);
                push_taker(&mut found, pid, count, world.process(pid))?;
            }
            push_or_nobody(text, &found)
        }
    }
}

/// Adds processes that were found, or that there is nobody.
pub fn push_or_nobody(text: &mut String, found: &str) -> Result<(), AllocError>
    ensures text { OnOk result (string_bytes text.new ≡ string_bytes text.old
        ++ or_nobody found.now) }
{
    if found.is_empty() {
        text.push_str(" nobody")
    } else {
        text.push_str(found)
    }
}

/// Adds the other processes that could serve a call.
#[tactic(auto, using(lab_texts::proofs::RowLemmas::texts_below_next), unfolding(crate::specs::Ends::others_text, crate::specs::Ends::other_text, lab_texts::specs::Rows::texts_below))]
pub fn push_others(
    text: &mut String,
    world: &World,
    pid: usize,
    service: Service,
    place: u8,
) -> Result<(), AllocError>
    ensures text { OnOk result (string_bytes text.new ≡ string_bytes text.old
        ++ others_text world.now pid place service) }
{
    let mut found = String::new(*text.allocator());
    for other in 0..world.count() {
        if other != pid && has_open(world.kernel(), place, service, other) {
            write!(found, " P{other}")?;
        }
    }
    push_or_nobody(text, &found)
}

/// What stands before those who could serve a call.
fn others_title(service: Service) -> &'static str
    ensures text { result.now ≡ others_title service }
{
    match service {
        Service::MqReceive => ", senders",
        Service::MqSend => ", receivers",
        _ => ", open in",
    }
}

/// Adds a call with its arguments.
#[tactic(auto, unfolding(crate::specs::Outcomes::call_text))]
pub fn push_call(text: &mut String, service: Service, arguments: &Text) -> Result<(), AllocError>
    ensures text { OnOk result (string_bytes text.new ≡ string_bytes text.old
        ++ call_text service arguments.now) }
{
    let (name, arguments) = (service.name(), arguments.as_str());
    write!(text, "{name}({arguments})")
}

/// Adds what became of a call.
#[tactic(auto, unfolding(crate::specs::Outcomes::outcome_text, crate::specs::Outcomes::given_text))]
pub fn push_outcome(text: &mut String, outcome: &Outcome) -> Result<(), AllocError>
    ensures text { OnOk result (string_bytes text.new ≡ string_bytes text.old
        ++ outcome_text outcome.now) }
{
    match outcome {
        Outcome::Waits => text.push_str("waits"),
        Outcome::Refused(error) => {
            text.push_str("= ")?;
            text.push_str(error_name(*error))
        }
        Outcome::Replied(reply) => {
            let result = result_in(reply);
            write!(text, "= {result}")?;
            match reply {
                Reply::Plain(_) => Ok(()),
                Reply::Message { words, prio } => {
                    text.push_str(" ")?;
                    push_message(text, words.as_slice())?;
                    write!(text, " prio {prio}")
                }
                Reply::Attr(words) => push_attributes(text, words[0], words[1], words[2], words[3]),
                Reply::Value(value) => write!(text, " value {value}"),
            }
        }
    }
}

/// Adds a level.
pub fn push_level(text: &mut String, level: Level) -> Result<(), AllocError>
    ensures text { OnOk result (string_bytes text.new ≡ string_bytes text.old
        ++ level_text level) }
{
    match level {
        Level::Messages { count, most } => write!(text, "{count} of {most}"),
        Level::Value(value) => write!(text, "value {value}"),
    }
}
