//! What is required of what processes have written, and the ends that are judged by it.
ghost use Rattle.std.specs.Prelude.{◌↔◌, All, IsTrue, ◌≡◌, slice_get};
ghost use Rattle.lab_questions.specs.Outputs.{IsWithin, HasOutput, HasWritten};
ghost use Rattle.lab_questions.specs.Requirements.{outputs, HasSettled, HaveSettled};
ghost use Rattle.std.specs.Option.{option_map};
ghost use Rattle.lab_sched.specs.Held.{process_view};

use crate::Waiter;
use lab_sched::{Process, World};
use lc3_machine::How;

/// How bytes stand to what a process has written.
#[derive(Clone, Copy, Debug, PartialEq, Eq)]
pub enum OutputRelation {
    /// They are all of it.
    Equals,
    /// They stand in it, one behind the other.
    Contains,
}

/// What one process must have written.
#[derive(Drop)]
pub struct OutputPart {
    pub process: usize,
    pub relation: OutputRelation,
    pub bytes: Vec<u8>,
}

/// What processes must have written together.
#[derive(Drop)]
pub struct Alternative {
    pub parts: Vec<OutputPart>,
}

/// What processes must have written at each end: all parts of one of the alternatives.
#[derive(Drop)]
pub struct OutputNeed {
    /// As it was written.
    pub text: String,
    pub alternatives: Vec<Alternative>,
}

fn are_within(bytes: &[u8], output: &[u8]) -> bool
    ensures within { IsTrue result ↔ IsWithin bytes.now output.now }
{
    for place in 0..output.len() + 1 {
        if output[place..].starts_with(bytes) {
            return true;
        }
    }
    false
}

fn has_output(part: &OutputPart, world: &World) -> bool
    ensures written { IsTrue result ↔ HasOutput part.now (outputs world.now) }
{
    let Some(output) = output_of(world, part.process) else {
        return false;
    };
    match part.relation {
        OutputRelation::Equals => output == part.bytes.as_slice(),
        OutputRelation::Contains => are_within(&part.bytes, output),
    }
}

fn have_outputs(alternative: &Alternative, world: &World) -> bool
    ensures written { IsTrue result
        ↔ All (λ part. HasOutput part (outputs world.now)) alternative.now.parts.items }
{
    alternative.parts.iter().all(|part| has_output(part, world))
}

/// Whether the processes of a world have written what is needed.
pub(crate) fn has_written(need: &OutputNeed, world: &World) -> bool
    ensures written { IsTrue result ↔ HasWritten need.now world.now }
{
    need.alternatives
        .iter()
        .any(|alternative| have_outputs(alternative, world))
}

fn has_settled(by_halt: bool, waiters: &[Waiter], pid: usize, process: &Process) -> bool
    ensures settled { IsTrue result
        ↔ HasSettled by_halt waiters.now pid (process_view process.now) }
{
    match process {
        Process::Running(_) => false,
        Process::Waiting(waiting, _) => {
            let pc = waiting.machine().pc();
            waiters.iter().any(|waiter| waiter.process == pid
                && waiter.first <= pc
                && pc <= waiter.last)
        }
        Process::Ended(ended) => !by_halt || matches!(ended.how(), How::Halt),
    }
}

/// Whether each process has ended, by HALT if that is asked, or waits where it may.
pub(crate) fn have_settled(by_halt: bool, waiters: &[Waiter], world: &World) -> bool
    ensures settled { IsTrue result ↔ HaveSettled by_halt waiters.now world.now }
{
    for pid in 0..world.count() {
        if let Some(process) = world.process(pid) {
            if !has_settled(by_halt, waiters, pid, process) {
                return false;
            }
        }
    }
    true
}

/// What process `pid` of a world has written, if it is there.
fn output_of(world: &World, pid: usize) -> Option<&[u8]>
    ensures output { option_map (λ bytes. bytes.now) result ≡ slice_get (outputs world.now) pid }
{
    Some(world.process(pid)?.machine().output())
}

pub(crate) fn have_same_outputs(world: &World, other: &World) -> bool
    ensures same { IsTrue result ↔ (outputs world.now ≡ outputs other.now) }
{
    if world.count() != other.count() {
        return false;
    }
    for pid in 0..world.count() {
        if output_of(world, pid) != output_of(other, pid) {
            return false;
        }
    }
    true
}
