//! What is noted of the steps of a run.
ghost use Rattle.std.specs.Prelude.{◌≡◌, IfOk, OnOk, slice_get};
ghost use Rattle.lab_notes.specs.Notes.{registers_of, rows_by, new_rows};

use ipc_names::Errno;
use ipc_traps::Service;
use lab_sched::World;
use lab_told::{Act, Outcome, Text, Told};
use lc3_word::Reg;
use std::alloc::{AllocError, Global};

/// What R1, R2 and R3 hold, in which a call finds its arguments behind the first.
#[derive(Clone, Copy, Debug, PartialEq, Eq)]
pub struct Registers {
    pub r1: u16,
    pub r2: u16,
    pub r3: u16,
}

/// A call that was refused.
#[derive(Drop)]
pub struct Refusal {
    pub service: Service,
    pub error: Errno,
    /// The program counter at the call.
    pub pc: u16,
    /// The word there.
    pub word: u16,
    /// What it is on, as its name or its number.
    pub object: Text,
    /// Whether a descriptor or a slot that is open stands for its object.
    pub is_open: bool,
    pub registers: Registers,
}

/// What is noted of a process.
#[derive(Drop)]
pub struct Noted {
    /// Its first refused call.
    pub first: Option<Refusal>,
    /// How many more were refused; so many or more, where it is the greatest number.
    pub more: u32,
}

/// What the registers of process `pid` hold.
pub fn registers_of(world: &World, pid: usize) -> Registers
    ensures registers { result ≡ registers_of (slice_get world.now.processes pid) }
{
    match world.process(pid) {
        Some(process) => {
            let machine = process.machine();
            Registers {
                r1: machine.reg(Reg::of_low_bits(1)),
                r2: machine.reg(Reg::of_low_bits(2)),
                r3: machine.reg(Reg::of_low_bits(3)),
            }
        }
        None => Registers {
            r1: 0,
            r2: 0,
            r3: 0,
        },
    }
}

/// What is noted of so many processes, before the first step.
pub fn new_rows(alloc: Global, count: usize) -> Result<Vec<Noted>, AllocError>
    ensures rows { IfOk result (λ r. r.items ≡ new_rows count) }
{
    let mut rows = Vec::with_capacity(alloc, count)?;
    for _ in 0..count {
        rows.push(Noted {
            first: None,
            more: 0,
        })?;
    }
    Ok(rows)
}

/// Keeps what is told of a step of process `pid`, by what its registers hold behind it. EAGAIN counts
/// as no refusal.
pub fn keep(
    rows: &mut Vec<Noted>,
    alloc: Global,
    pid: usize,
    told: &Told,
    registers: Registers,
) -> Result<(), AllocError>
    ensures kept { OnOk result (rows.new.items
        ≡ rows_by pid registers told.now rows.old.items) }
{
    let Told::Shown(event) = told else {
        return Ok(());
    };
    let Act::Calls(called) = &event.act else {
        return Ok(());
    };
    let error = match called.outcome {
        Outcome::Refused(error) if error != Errno::Again => error,
        _ => return Ok(()),
    };
    let Some(row) = rows.get_mut(pid) else {
        return Ok(());
    };
    if row.first.is_some() {
        row.more = row.more.saturating_add(1);
    } else {
        row.first = Some(Refusal {
            service: called.service,
            error,
            pc: event.pc,
            word: event.word,
            object: Text::new(String::from_str(alloc, called.object.as_str())?),
            is_open: called.place.is_some(),
            registers,
        });
    }
    Ok(())
}
