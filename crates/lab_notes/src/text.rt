//! A note in words.
ghost use Rattle.std.specs.Prelude.{◌≡◌, ◌++◌, OnOk, string_bytes};
ghost use Rattle.lab_notes.specs.Texts.{anew_text, call_text, change_text, exceeded_text, more_text, object_text, opener_text, process_text, remark_text, twins_text};
ghost use Rattle.ipc_names.specs.declared.errno.Errno.TheVariants.{Invalid};
ghost use Rattle.lab_notes.specs.Private.Why.{range_text, long_name_text, has_attributes, fault_text, no_create_text, size_fault, why_text};

use crate::openers::Opened;
use crate::remarks::{Change, Remark};
use crate::rows::{Refusal, Registers};
use crate::waiting::Waiting;
use ipc_errors::error_name;
use ipc_names::{Errno, Flags, O_CREAT};
use ipc_objects::{MQ_PRIO_MAX, SEM_VALUE_MAX};
use ipc_traps::{Service, is_in_memory};
use lc3_word::Hex;
use std::alloc::AllocError;

/// Adds how many more were refused, where there are more.
#[tactic(auto, unfolding(crate::specs::Texts::more_text))]
pub fn push_more(text: &mut String, more: u32) -> Result<(), AllocError>
    ensures text { OnOk result (string_bytes text.new ≡ string_bytes text.old ++ more_text more) }
{
    if more > 0 {
        write!(text, ", and {more} more")?;
    }
    Ok(())
}

/// Adds a note of process `pid`, without its end: its first refused call, where that stands, and why it was refused.
pub fn push_note(
    text: &mut String,
    pid: usize,
    refusal: &Refusal,
    place: &str,
) -> Result<(), AllocError> {
    let (name, error) = (refusal.service.name(), error_name(refusal.error));
    write!(
        text,
        "lc3lab: note: process {pid}: {name} = {error}, at {place} ("
    )?;
    push_why(text, refusal)?;
    text.push_str(")")
}

/// Adds what a semaphore was made with, and what it comes to.
fn push_exceeded(text: &mut String, first: u16, maker: usize, value: u16) -> Result<(), AllocError>
    ensures text { OnOk result (string_bytes text.new ≡ string_bytes text.old
        ++ exceeded_text first maker value) }
{
    write!(
        text,
        ", made with {first} by process {maker}, comes to {value}"
    )
}

/// Adds that an object is made anew.
fn push_anew(text: &mut String, holder: usize) -> Result<(), AllocError>
    ensures text { OnOk result (string_bytes text.new ≡ string_bytes text.old ++ anew_text holder) }
{
    write!(
        text,
        " is made anew, while process {holder} has the one that was unlinked"
    )
}

/// Adds what became of an object.
fn push_change(text: &mut String, change: Change) -> Result<(), AllocError>
    ensures text { OnOk result (string_bytes text.new ≡ string_bytes text.old ++ change_text change) }
{
    match change {
        Change::Exceeded {
            first,
            maker,
            value,
        } => push_exceeded(text, first, maker, value),
        Change::MadeAnew { holder } => push_anew(text, holder),
    }
}

/// Adds the call of a remark, which stands at a place.
fn push_call(text: &mut String, remark: &Remark, place: &str) -> Result<(), AllocError>
    ensures text { OnOk result (string_bytes text.new ≡ string_bytes text.old
        ++ call_text remark.now place.now) }
{
    let (call, pid) = (remark.service.name(), remark.pid);
    write!(text, "process {pid}: {call}, at {place}")
}

/// Adds what is remarked of an object, by a call that stands at a place.
#[tactic(auto, unfolding(crate::specs::Texts::remark_text))]
pub fn push_remark(text: &mut String, remark: &Remark, place: &str) -> Result<(), AllocError>
    ensures text { OnOk result (string_bytes text.new ≡ string_bytes text.old
        ++ remark_text remark.now place.now) }
{
    text.push_str("lc3lab: note: ")?;
    text.push_str(remark.name.as_str())?;
    push_change(text, remark.change)?;
    text.push_str(" (")?;
    push_call(text, remark, place)?;
    text.push_str(")")?;
    Ok(())
}

/// Adds that a process opens a name.
fn push_opener(text: &mut String, opened: &Opened) -> Result<(), AllocError>
    ensures text { OnOk result (string_bytes text.new ≡ string_bytes text.old
        ++ opener_text opened.now) }
{
    let (name, pid) = (opened.name.as_str(), opened.pid);
    write!(text, "process {pid} opens {name}")
}

/// Adds that two processes open names that differ by the case of letters alone.
#[tactic(auto, unfolding(crate::specs::Texts::twins_text))]
pub fn push_twins(text: &mut String, one: &Opened, other: &Opened) -> Result<(), AllocError>
    ensures text { OnOk result (string_bytes text.new ≡ string_bytes text.old
        ++ twins_text one.now other.now) }
{
    text.push_str("lc3lab: note: only ")?;
    push_opener(text, one)?;
    text.push_str(", only ")?;
    push_opener(text, other)?;
    text.push_str(": is one name meant?")?;
    Ok(())
}

/// Adds a process, with its program, unless that has no name.
fn push_process(text: &mut String, pid: usize, program: &str) -> Result<(), AllocError>
    ensures text { OnOk result (string_bytes text.new ≡ string_bytes text.old
        ++ process_text pid program.now) }
{
    if program.is_empty() {
        write!(text, "P{pid}")
    } else {
        write!(text, "P{pid} ({program})")
    }
}

/// Adds what a process waits for.
fn push_object(text: &mut String, wait: &Waiting) -> Result<(), AllocError>
    ensures text { OnOk result (string_bytes text.new ≡ string_bytes text.old ++ object_text wait.now) }
{
    let object = wait.object.as_str();
    match (wait.service, wait.taker) {
        (Service::MqReceive, _) => write!(text, " waits for a message in {object}"),
        (Service::MqSend, _) => write!(text, " waits for room in {object}"),
        (_, Some(taker)) => write!(text, " waits for {object}, which P{taker} has"),
        (_, None) => write!(text, " waits for a post to {object}"),
    }
}

/// Adds what a process waits for, whose program has this name, or none.
pub fn push_wait(text: &mut String, wait: &Waiting, program: &str) -> Result<(), AllocError>
    ensures text { OnOk result (string_bytes text.new ≡ string_bytes text.old
        ++ (process_text wait.now.pid program.now ++ object_text wait.now)) }
{
    push_process(text, wait.pid, program)?;
    push_object(text, wait)?;
    Ok(())
}

const GREATEST_PRIORITY: u16 = MQ_PRIO_MAX - 1;

/// How many words attributes are.
const ATTRIBUTES: u16 = 4;

/// Adds why a call was refused.
pub fn push_why(text: &mut String, refusal: &Refusal) -> Result<(), AllocError>
    ensures text { (refusal.now.error ≡ Invalid → ⊥) → OnOk result
        (string_bytes text.new ≡ string_bytes text.old ++ why_text refusal.now) }
{
    let object = refusal.object.as_str();
    let is_on_queues = refusal.service.is_on_queues();
    let kind = if is_on_queues { "queue" } else { "semaphore" };
    match refusal.error {
        Errno::NoEntry => {
            write!(text, "no {kind} is called {object}")?;
            push_no_create(text, refusal.service, refusal.registers.r1)
        }
        Errno::BadDescriptor => {
            let fault = match refusal.service {
                Service::MqSend if refusal.is_open => "is not open to send",
                Service::MqReceive if refusal.is_open => "is not open to receive",
                _ => "is no descriptor",
            };
            write!(text, "{object} {fault}")
        }
        Errno::Again => text.push_str("it would have to wait"),
        Errno::Fault => push_fault(text, refusal.service, refusal.registers, object),
        Errno::Exists => write!(text, "a {kind} is called {object}"),
        Errno::Invalid => push_invalid(text, refusal),
        Errno::TooManyOpen if is_on_queues => text.push_str("no descriptor is free"),
        Errno::TooManyOpen => text.push_str("no slot, or no open of it, is free"),
        Errno::NoSpace => text.push_str("no place for objects is free"),
        Errno::NameTooLong => write!(text, "the name at {object} has more than 255 characters"),
        Errno::Overflow => write!(text, "{object} has its greatest value"),
        Errno::MessageSize => {
            let (length, fault) = (refusal.registers.r2, size_fault(refusal.service));
            write!(text, "length {length}: {fault}")
        }
    }
}

/// Adds that the flags of an open have no O_CREAT, with which it makes what isn't there.
fn push_no_create(text: &mut String, service: Service, flags: u16) -> Result<(), AllocError>
    ensures text { OnOk result (string_bytes text.new ≡ string_bytes text.old
        ++ no_create_text service flags) }
{
    let flags = Hex(flags);
    match service {
        Service::MqOpen | Service::SemOpen => {
            write!(text, ", and the flags {flags} have no O_CREAT, x40")
        }
        _ => Ok(()),
    }
}

/// What is wrong with a length.
fn size_fault(service: Service) -> &'static str
    ensures text { result.now ≡ size_fault service }
{
    match service {
        Service::MqReceive => "the buffer is too short",
        _ => "the message is too long",
    }
}

/// Adds a range of memory that reaches the devices; a word is none of memory.
fn push_range(text: &mut String, at: u16, count: u16) -> Result<(), AllocError>
    ensures text { OnOk result (string_bytes text.new ≡ string_bytes text.old
        ++ range_text at count) }
{
    let at = Hex(at);
    if count == 1 {
        write!(text, "{at} is no address of memory")
    } else {
        write!(text, "{count} words from {at} on reach xFE00")
    }
}

/// Adds that a name, which is shown so, reaches the devices.
fn push_long_name(text: &mut String, object: &str) -> Result<(), AllocError>
    ensures text { OnOk result (string_bytes text.new ≡ string_bytes text.old
        ++ long_name_text object.now) }
{
    write!(text, "the name at {object} reaches xFE00")
}

/// Whether mq_open is given attributes.
fn has_attributes(registers: Registers) -> bool
    ensures value { result ≡ has_attributes registers }
{
    registers.r1 & O_CREAT != 0 && registers.r2 != 0
}

/// Adds which range of memory reaches the devices.
fn push_fault(
    text: &mut String,
    service: Service,
    registers: Registers,
    object: &str,
) -> Result<(), AllocError>
    ensures text { OnOk result (string_bytes text.new ≡ string_bytes text.old
        ++ fault_text service registers object.now) }
{
    let Registers { r1, r2, r3 } = registers;
    match service {
        Service::MqOpen if has_attributes(registers) && !is_in_memory(r2, ATTRIBUTES) => {
            push_range(text, r2, ATTRIBUTES)
        }
        Service::MqSend => push_range(text, r1, r2),
        Service::MqReceive if is_in_memory(r1, r2) => push_range(text, r3, 1),
        Service::MqReceive => push_range(text, r1, r2),
        Service::MqGetattr => push_range(text, r1, ATTRIBUTES),
        Service::MqSetattr if is_in_memory(r1, ATTRIBUTES) => push_range(text, r2, ATTRIBUTES),
        Service::MqSetattr => push_range(text, r1, ATTRIBUTES),
        Service::SemGetvalue => push_range(text, r1, 1),
        _ => push_long_name(text, object),
    }
}

/// Adds which argument is none that the call takes.
fn push_invalid(text: &mut String, refusal: &Refusal) -> Result<(), AllocError> {
    let object = refusal.object.as_str();
    let Registers { r1, r2, r3 } = refusal.registers;
    match refusal.service {
        Service::MqOpen => push_invalid_open(text, refusal),
        Service::SemOpen if r1 & O_CREAT != 0 && r2 > SEM_VALUE_MAX => {
            write!(text, "the value {r2} is above {SEM_VALUE_MAX}")
        }
        Service::SemOpen | Service::MqUnlink | Service::SemUnlink => push_no_name(text, object),
        Service::MqSend => write!(text, "the priority {r3} is above {GREATEST_PRIORITY}"),
        Service::MqSetattr => {
            let at = Hex(r1);
            write!(text, "the flags at {at}")
        }
        _ => write!(text, "{object} is no slot"),
    }
}

/// Adds which argument of mq_open is none that it takes.
fn push_invalid_open(text: &mut String, refusal: &Refusal) -> Result<(), AllocError> {
    let object = refusal.object.as_str();
    let Registers { r1, r2, .. } = refusal.registers;
    if Flags::read(r1).is_err() {
        let flags = Hex(r1);
        return write!(text, "{flags} are no flags");
    }
    // a name that is shown has its slash and no other one, and no blank
    let rest = object.strip_prefix('/').unwrap_or("");
    let may_be_name = !rest.is_empty() && !rest.contains('/') && !rest.contains(' ');
    if !has_attributes(refusal.registers) || !may_be_name {
        return push_no_name(text, object);
    }
    let at = Hex(r2);
    if object.contains('\\') {
        write!(text, "the form of the name, or an attribute at {at}")
    } else {
        write!(text, "an attribute at {at}")
    }
}

fn push_no_name(text: &mut String, shown: &str) -> Result<(), AllocError> {
    write!(text, "\"{shown}\" is no name")
}
