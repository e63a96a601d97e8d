//! Status lines.
ghost use Rattle.std.specs.Prelude.{◌≡◌, Some, IfOk, string_bytes};
ghost use Rattle.lab_sched.specs.Held.{process_view};
ghost use Rattle.lab_texts.specs.Texts.{how_text, place_text, state_text, status_text, procs_text};

use lab_sched::{Process, World};
use lc3_machine::{How, Machine};
use lc3_table::WordText;
use lc3_word::{FIRST_DEVICE, Hex};
use std::alloc::{AllocError, Global};
use std::fmt;

/// The instruction at the program counter of a machine, or a dash in the device register page.
#[derive(Clone, Copy)]
pub struct Standing<'a>(pub &'a Machine);

impl fmt::Display for Standing<'_> {
    ghost output = { λ s. Some (place_text s.0.now.process) };

    #[tactic(auto, unfolding(crate::specs::Texts::place_text))]
    fn fmt<W: fmt::Write>(&self, f: &mut fmt::Formatter<W>) -> fmt::Result {
        let pc = self.0.pc();
        if pc < FIRST_DEVICE {
            let word = WordText(self.0.word(pc));
            write!(f, "{word}")
        } else {
            write!(f, "-")
        }
    }
}

/// How a process ended, in a word.
pub fn how_name(how: How) -> &'static str
    ensures text { result.now ≡ how_text how }
{
    match how {
        How::Halt => "halt",
        How::Illegal => "illegal",
        How::Device => "device",
        How::BadTrap => "badtrap",
        How::NoInput => "noinput",
    }
}

#[derive(Clone, Copy)]
struct State<'a>(&'a Process);

impl fmt::Display for State<'_> {
    ghost output = { λ s. Some (state_text (process_view s.0.now)) };

    fn fmt<W: fmt::Write>(&self, f: &mut fmt::Formatter<W>) -> fmt::Result {
        let pc = Hex(self.0.machine().pc());
        let place = Standing(self.0.machine());
        match self.0 {
            Process::Running(_) => write!(f, "running {pc} {place}"),
            Process::Waiting(_, _) => write!(f, "waiting {pc} {place}"),
            Process::Ended(ended) => {
                let how = how_name(ended.how());
                write!(f, "ended {pc} {how}")
            }
        }
    }
}

/// The status line of process `pid`, where the process is there.
#[derive(Clone, Copy)]
pub(crate) struct StatusLine<'a>(pub &'a World, pub usize);

impl fmt::Display for StatusLine<'_> {
    ghost output = { λ s. Some (status_text s.1 s.0.now) };

    #[tactic(auto, unfolding(crate::specs::Texts::status_line))]
    fn fmt<W: fmt::Write>(&self, f: &mut fmt::Formatter<W>) -> fmt::Result {
        let StatusLine(world, pid) = *self;
        match world.process(pid) {
            Some(process) => {
                let state = State(process);
                write!(f, "{pid} {state}\n")
            }
            None => Ok(()),
        }
    }
}

/// The status line of process `pid`, as `0 running x3000 NOP`. A process that isn't there has no
/// line.
pub fn status_text(alloc: Global, world: &World, pid: usize) -> Result<String, AllocError>
    ensures text { IfOk result (λ s. string_bytes s ≡ status_text pid world.now) }
{
    let line = StatusLine(world, pid);
    format!(in alloc; "{line}")
}

/// The status line of each process.
#[tactic(auto, using(crate::proofs::RowLemmas::texts_below_none, crate::proofs::RowLemmas::texts_below_next))]
pub fn procs_text(alloc: Global, world: &World) -> Result<String, AllocError>
    ensures text { IfOk result (λ s. string_bytes s ≡ procs_text world.now) }
{
    let mut text = String::new(alloc);
    for pid in 0..world.count() {
        let line = StatusLine(world, pid);
        write!(text, "{line}")?;
    }
    Ok(text)
}
