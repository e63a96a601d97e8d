//! Steps of a world, up to a stop, and which of them have an effect.
ghost use Rattle.std.specs.Prelude.{◌≡◌, ◌||◌, ◌++◌, IfOk, OnOk, length, replicate, take, string_bytes};
ghost use Rattle.std.specs.List.{list_any};
ghost use Rattle.lab_sched.specs.Worlds.{run};
ghost use Rattle.lab_sched.specs.Schedules.{steps_of};
ghost use Rattle.lab_session.specs.Marks.{is_at_break};
ghost use Rattle.lab_session.specs.Watches.{has_changed, word_at, watched_at, watched_words};
ghost use Rattle.lab_session.specs.Stops.{steps_to_stop, stopped_process};
ghost use Rattle.lab_session.specs.Private.Stops.{only_if};
ghost use Rattle.lab_session.specs.Sessions.{effective};
ghost use Rattle.lab_session.specs.Taken.{taken_text};
ghost use Rattle.lab_session.specs.Private.Runs.{run_text};
ghost use Rattle.lab_session.specs.Played.{play_text};

use crate::marks::{Mark, MarkKind, is_at_break, of_kind};
use lab_sched::{Block, Stepped, World};
use lab_texts::{status_text, verdict_text};
use std::alloc::{AllocError, Global};
use std::fmt::Write;

/// Whether process `pid` is at a break, or another word is at a watched address now.
fn is_stopped(world: &World, marks: &[Mark], watched: &[Watched], pid: usize) -> bool
    ensures value { result ≡ (is_at_break marks.now pid world.now
        || list_any (has_changed world.now) watched.now) }
{
    is_at_break(world, marks, pid) || is_any_changed(world, watched)
}

/// Takes at most so many steps of a process, up to a stop and only those that have an effect. It
/// tells how many, and whether the last one was a stop.
fn step_to_stop(
    alloc: Global,
    world: &mut World,
    marks: &[Mark],
    pid: usize,
    count: u32,
) -> Result<(u32, bool), AllocError>
    ensures steps { IfOk result (λ taken. replicate taken.0 pid
        ≡ effective world.old (steps_to_stop marks.now world.old (replicate count pid))) }
    ensures stop { IfOk result (λ taken. only_if taken.1 pid
        ≡ stopped_process marks.now world.old (replicate count pid)) }
    ensures world { OnOk result
        (world.new ≡ run world.old (steps_to_stop marks.now world.old (replicate count pid))) }
{
    let watched = watched_words(alloc, world, marks)?;
    for i in 0..count {
        let Ok(stepped) = world.step(pid) else {
            return Err(AllocError);
        };
        if let Stepped::Same = stepped {
            return Ok((i, false));
        }
        if is_stopped(world, marks, &watched, pid) {
            return Ok((i + 1, true));
        }
    }
    Ok((count, false))
}

/// Adds steps of a process at the end, if there are any.
fn push_steps(blocks: &mut Vec<Block>, pid: usize, count: u32) -> Result<(), AllocError>
    ensures steps { OnOk result
        (steps_of blocks.new.items ≡ steps_of blocks.old.items ++ replicate count pid) }
{
    if count > 0 {
        blocks.push(Block { pid, count })?;
    }
    Ok(())
}

/// What steps up to a stop came to.
#[derive(Drop)]
pub struct Advanced {
    /// The steps that were taken, those without effect too.
    pub steps: Vec<Block>,
    /// Those of them that had an effect.
    pub effective: Vec<Block>,
    /// The process whose step was a stop, if one was.
    pub stopped: Option<usize>,
}

/// Takes the steps of blocks, up to one with an effect that leads its process to a break or changes
/// a watched word.
pub fn advance(
    alloc: Global,
    world: &mut World,
    marks: &[Mark],
    blocks: &[Block],
) -> Result<Advanced, AllocError>
    ensures steps { IfOk result (λ taken. steps_of taken.steps.items
        ≡ steps_to_stop marks.now world.old (steps_of blocks.now)) }
    ensures effective { IfOk result (λ taken. steps_of taken.effective.items
        ≡ effective world.old (steps_to_stop marks.now world.old (steps_of blocks.now))) }
    ensures stopped { IfOk result
        (λ taken. taken.stopped ≡ stopped_process marks.now world.old (steps_of blocks.now)) }
    ensures world { OnOk result
        (world.new ≡ run world.old (steps_to_stop marks.now world.old (steps_of blocks.now))) }
{
    let mut steps = Vec::new(alloc);
    let mut effective = Vec::new(alloc);
    for block in blocks {
        let Block { pid, count } = *block;
        let (acted, stops) = step_to_stop(alloc, world, marks, pid, count)?;
        push_steps(&mut effective, pid, acted)?;
        if stops {
            push_steps(&mut steps, pid, acted)?;
            return Ok(Advanced {
                steps,
                effective,
                stopped: Some(pid),
            });
        }
        push_steps(&mut steps, pid, count)?;
    }
    Ok(Advanced {
        steps,
        effective,
        stopped: None,
    })
}

/// How many steps blocks have.
pub fn step_count(blocks: &[Block]) -> Result<u64, AllocError>
    ensures count { IfOk result (λ count. count ≡ length (steps_of blocks.now)) }
{
    let mut count: u64 = 0;
    for block in blocks {
        let Some(sum) = count.checked_add(u64::from(block.count)) else {
            return Err(AllocError);
        };
        count = sum;
    }
    Ok(count)
}

/// The first `most` steps of blocks, or all where there are fewer.
pub fn first_steps(alloc: Global, blocks: &[Block], most: u64) -> Result<Vec<Block>, AllocError>
    ensures steps { IfOk result
        (λ first. steps_of first.items ≡ take most (steps_of blocks.now)) }
{
    let mut first = Vec::new(alloc);
    let mut left = most;
    for block in blocks {
        let count = u64::from(block.count).min(left) as u32;
        push_steps(&mut first, block.pid, count)?;
        left -= u64::from(count);
    }
    Ok(first)
}

/// A watched address, and the word that was seen there.
#[derive(Clone, Copy)]
pub struct Watched {
    pub mark: Mark,
    pub word: u16,
}

/// The word at a marked address; where its process isn't there, x0000.
pub fn word_at(world: &World, mark: Mark) -> u16
    ensures value { result ≡ word_at world.now mark }
{
    match world.process(mark.pid) {
        Some(process) => process.machine().word(mark.address),
        None => 0,
    }
}

/// A mark with the word there.
pub fn watched_at(world: &World, mark: Mark) -> Watched
    ensures value { result ≡ watched_at world.now mark }
{
    let word = word_at(world, mark);
    Watched { mark, word }
}

/// The watches among some marks, with the words there.
pub fn watched_words(
    alloc: Global,
    world: &World,
    marks: &[Mark],
) -> Result<Vec<Watched>, AllocError>
    ensures words { IfOk result (λ found. found.items ≡ watched_words marks.now world.now) }
{
    of_kind(alloc, marks, MarkKind::Watch)?
        .iter()
        .map(|mark| watched_at(world, *mark))
        .collect(alloc)
}

/// Whether another word is at a watched address now.
pub fn has_changed(world: &World, watched: Watched) -> bool
    ensures value { result ≡ has_changed world.now watched }
{
    word_at(world, watched.mark) != watched.word
}

/// Whether another word is at one of the watched addresses now.
pub fn is_any_changed(world: &World, watched: &[Watched]) -> bool
    ensures value { result ≡ list_any (has_changed world.now) watched.now }
{
    watched.iter().any(|it| has_changed(world, *it))
}

/// Adds steps of one process, if there are any.
#[tactic(auto, unfolding(lab_sched::specs::ScheduleTexts::block_text))]
fn push_run(text: &mut String, pid: usize, count: u64) -> Result<(), AllocError>
    ensures text { OnOk result
        (string_bytes text.new ≡ string_bytes text.old ++ run_text pid count) }
{
    if count > 0 {
        write!(text, " {pid}*{count}")?;
    }
    Ok(())
}

/// The schedule of the steps of blocks, as `schedule 0*6 1*6`; those of one process in a row are
/// one block.
pub fn taken_text(alloc: Global, blocks: &[Block]) -> Result<String, AllocError>
    ensures text { IfOk result (λ s. string_bytes s ≡ taken_text (steps_of blocks.now)) }
{
    let mut text = String::from_str(alloc, "schedule")?;
    let mut pid = 0;
    let mut count: u64 = 0;
    for block in blocks {
        if block.pid == pid {
            let Some(sum) = count.checked_add(u64::from(block.count)) else {
                return Err(AllocError);
            };
            count = sum;
        } else if block.count > 0 {
            push_run(&mut text, pid, count)?;
            pid = block.pid;
            count = u64::from(block.count);
        }
    }
    push_run(&mut text, pid, count)?;
    text.push('\n')?;
    Ok(text)
}

/// Where a schedule of so many steps stopped, and the status line of the process that stopped it;
/// else the verdict line.
#[tactic(auto, unfolding(crate::specs::Played::stop_text))]
pub fn play_text(
    alloc: Global,
    world: &World,
    taken: u64,
    all: u32,
    stopped: Option<usize>,
) -> Result<String, AllocError>
    ensures text { IfOk result (λ s. string_bytes s ≡ play_text taken all stopped world.now) }
{
    let Some(pid) = stopped else {
        return verdict_text(alloc, world);
    };
    let mut text = format!(in alloc; "stopped after {taken} of {all}\n")?;
    let status = status_text(alloc, world, pid)?;
    text.push_str(status.as_str())?;
    Ok(text)
}
