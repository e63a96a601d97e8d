//! What is remarked of the objects of a run.
ghost use Rattle.std.specs.Prelude.{◌≡◌, IfOk, OnOk};
ghost use Rattle.std.specs.List.{find};
ghost use Rattle.std.specs.Option.{option_map};
ghost use Rattle.lab_notes.specs.Remarks.{are_alike, is_like, remarks_with, opened_change, posted_change, remark_of};

use crate::objects::{Made, holder_of, made_in, namesake};
use ipc_kernel::Kernel;
use ipc_traps::Service;
use lab_told::{Called, Event, Level, Text};
use std::alloc::{AllocError, Global};

/// What became of an object.
#[derive(Clone, Copy, Debug, PartialEq, Eq)]
pub enum Change {
    /// A semaphore came to a greater value than the one, above 0, that it was made with.
    Exceeded {
        first: u16,
        maker: usize,
        value: u16,
    },
    /// It was made while a process had another one open, which had its name and is unlinked.
    MadeAnew {
        holder: usize,
    },
}

/// What is remarked of an object, and the call of a process that brought it about.
#[derive(Drop)]
pub struct Remark {
    pub change: Change,
    /// The name that the object was made with.
    pub name: Text,
    pub service: Service,
    pub pid: usize,
    /// The program counter at the call.
    pub pc: u16,
    /// The word there.
    pub word: u16,
}

/// Whether two changes are of one kind.
fn are_alike(one: Change, other: Change) -> bool
    ensures value { result ≡ are_alike one other }
{
    match one {
        Change::Exceeded { .. } => matches!(other, Change::Exceeded { .. }),
        Change::MadeAnew { .. } => matches!(other, Change::MadeAnew { .. }),
    }
}

/// Whether another remark says the same of that name.
fn is_like(one: &Remark, other: &Remark) -> bool
    ensures value { result ≡ is_like one.now other.now }
{
    are_alike(one.change, other.change)
        && one.service.is_on_queues() == other.service.is_on_queues()
        && one.name.as_str() == other.name.as_str()
}

/// The remark that says the same of that name.
fn find_like<'a>(remarks: &'a [Remark], remark: &Remark) -> Option<&'a Remark>
    ensures value { option_map (λ r. r.now) result ≡ find (is_like remark.now) remarks.now }
{
    remarks.iter().find(|other| is_like(remark, other))
}

/// Keeps a remark, unless another one says the same of that name.
pub(crate) fn keep_remark(
    remarks: &mut Vec<Remark>,
    remark: Option<Remark>,
) -> Result<(), AllocError>
    ensures kept { OnOk result (remarks.new.items ≡ remarks_with remark remarks.old.items) }
{
    let Some(remark) = remark else {
        return Ok(());
    };
    if find_like(remarks, &remark).is_some() {
        return Ok(());
    }
    remarks.push(remark)?;
    Ok(())
}

/// What is remarked where an open made an object in a place.
fn opened_change(kernel: &Kernel, call: &Called, place: u8, made: &[Made]) -> Option<Change>
    ensures value { result ≡ opened_change kernel.now call.now place made.now }
{
    if made_in(made, place).is_some() {
        return None;
    }
    let holder = holder_of(kernel, namesake(made, call)?)?;
    Some(Change::MadeAnew { holder })
}

/// What is remarked where a post raised a semaphore to a level.
fn posted_change(level: Option<Level>, made: &Made) -> Option<Change>
    ensures value { result ≡ posted_change level made.now }
{
    match level {
        Some(Level::Value(value)) if made.value > 0 && value > made.value => {
            Some(Change::Exceeded {
                first: made.value,
                maker: made.pid,
                value,
            })
        }
        _ => None,
    }
}

/// What is remarked of a call of process `pid` on the object in a place, by what was made before it and the kernel after it.
pub(crate) fn remark_of(
    alloc: Global,
    kernel: &Kernel,
    pid: usize,
    event: &Event,
    call: &Called,
    place: u8,
    made: &[Made],
) -> Result<Option<Remark>, AllocError>
    ensures remark { IfOk result (λ r. r ≡ remark_of kernel.now pid event.now call.now place made.now) }
{
    let (change, name) = match call.service {
        Service::MqOpen | Service::SemOpen => {
            (
                opened_change(kernel, call, place, made),
                call.object.as_str(),
            )
        }
        Service::SemPost => match made_in(made, place) {
            Some(made) => (posted_change(call.level, made), made.name.as_str()),
            None => return Ok(None),
        },
        _ => return Ok(None),
    };
    let Some(change) = change else {
        return Ok(None);
    };
    Ok(Some(Remark {
        change,
        name: Text::new(String::from_str(alloc, name)?),
        service: call.service,
        pid,
        pc: event.pc,
        word: event.word,
    }))
}
