//! What a line of a script does, and what it shows.
ghost use Rattle.std.specs.Prelude.{◌≡◌, IfOk, ◌++◌, false, None, true, IfSome, string_bytes};
ghost use Rattle.lab_session.specs.Sessions.{state_of};
ghost use Rattle.lab_debug.specs.Effects.{accepted_effect, line_effect, set_effect, unset_effect, go_effect, play_effect, steps_text, shown_effect};
ghost use Rattle.lab_debug.specs.Private.Ranges.{IsCommand};
ghost use Rattle.lab_debug.specs.Private.Replies.{effect_of};
ghost use Rattle.lab_sched.specs.Schedules.{steps_of};
ghost use Rattle.lab_session.specs.MarkTexts.{changes_text};
ghost use Rattle.lab_places.specs.Placed.{listed, placed};
ghost use Rattle.lab_texts.specs.Texts.{status_text};
ghost use Rattle.lab_debug.specs.Outputs.{raw_output};
ghost use Rattle.lab_debug.specs.Private.Changes.{changes};

use crate::accepting::{Reply, command_in, refuse, said, written};
use crate::command::{Command, Refusal};
use crate::reading::BLANKS;
use lab_places::placed_by;
use lab_sched::{Block, Schedule, World};
use lab_session::{
    Mark, Session, Watched, code_text, has_mark, labels_text, marks_text, off_text, play_text,
    push_changes, set_text, step_count, taken_text, where_text,
};
use lab_texts::{
    dis_text, fds_text, mem_text, mqs_text, out_text, procs_text, profile_text, regs_text,
    sems_text, status_text, verdict_text,
};
use lc3_word::words_between;
use std::alloc::{AllocError, Global};

#[tactic(auto, unfolding(lab_sched::specs::Schedules::steps_of))]
fn carry_out(alloc: Global, session: &mut Session, command: Command) -> Result<Reply, AllocError>
    requires ranges { IsCommand command }
    ensures effect { IfOk result (λ r. effect_of r (state_of session.new)
        ≡ accepted_effect (state_of session.old) command) }
{
    if let Some(text) = shown(alloc, session, &command)? {
        return Ok(written(text));
    }
    match command {
        Command::Step { pid, count } => {
            let mut steps = Schedule::new(alloc);
            steps.push(pid, count)?;
            session.run(&steps)?;
            Ok(written(standing(alloc, session, pid)?))
        }
        Command::Run(schedule) => {
            session.run(&schedule)?;
            Ok(said(verdict_text(alloc, session.world())?))
        }
        Command::Play(schedule) => play(alloc, session, &schedule),
        Command::Until {
            pid,
            address,
            count,
        } => {
            session.step_until(alloc, pid, address, count)?;
            Ok(written(standing(alloc, session, pid)?))
        }
        Command::Back(count) => Ok(said(steps_text(alloc, session.back(alloc, count)?)?)),
        Command::Go { pid, count } => go(alloc, session, pid, count),
        Command::Set(mark) => set(alloc, session, mark),
        Command::Unset(mark) => unset(alloc, session, mark),
        Command::Quit => Ok(Reply {
            text: Vec::new(alloc),
            ends: true,
        }),
        _ => unreachable!(),
    }
}

/// Carries out a line.
#[tactic(auto, unfolding(crate::specs::Effects::line_effect))]
pub fn perform(alloc: Global, session: &mut Session, line: &[u8]) -> Result<Reply, AllocError>
    ensures effect { IfOk result (λ r. effect_of r (state_of session.new)
        ≡ line_effect (state_of session.old) line.now) }
{
    let words = words_between(alloc, BLANKS, line)?;
    let Some((name, operands)) = words.as_slice().split_first() else {
        return Ok(said(String::new(alloc)));
    };
    match command_in(alloc, session, name, operands)? {
        Ok(command) => carry_out(alloc, session, command),
        Err(refusal) => refuse(alloc, refusal),
    }
}

/// Sets a mark, which may be there already.
pub fn set(alloc: Global, session: &mut Session, mark: Mark) -> Result<Reply, AllocError>
    ensures effect { IfOk result (λ r. effect_of r (state_of session.new)
        ≡ set_effect (state_of session.old) mark) }
{
    session.set_mark(alloc, mark)?;
    Ok(said(set_text(alloc, session.listings(), session.world(), mark)?))
}

/// Takes a mark off, or refuses it where there is none.
pub fn unset(alloc: Global, session: &mut Session, mark: Mark) -> Result<Reply, AllocError>
    ensures effect { IfOk result (λ r. effect_of r (state_of session.new)
        ≡ unset_effect (state_of session.old) mark) }
{
    if has_mark(session.marks(), mark) {
        session.clear_mark(alloc, mark)?;
        Ok(said(off_text(alloc, session.listings(), mark)?))
    } else {
        refuse(alloc, Refusal::NoMark(mark.kind))
    }
}

/// The reply of a line that writes bytes, and behind them the lines of watched words that have changed.
fn with_changes(
    alloc: Global,
    session: &Session,
    mut text: Vec<u8>,
    watched: &[Watched],
) -> Result<Reply, AllocError>
    ensures text { IfOk result (λ r. r.text.items ≡ text.items ++ changes_text
        (state_of session.now).listings (state_of session.now).world watched.now) }
    ensures ends { IfOk result (λ r. r.ends ≡ false) }
{
    let mut changes = String::new(alloc);
    push_changes(&mut changes, session.listings(), session.world(), watched)?;
    text.extend_from_slice(changes.as_bytes())?;
    Ok(written(text))
}

/// Takes at most so many steps of a process, up to a stop.
#[tactic(auto, using(lab_session::proofs::BlockLemmas::one_block))]
pub fn go(alloc: Global, session: &mut Session, pid: usize, count: u32) -> Result<Reply, AllocError>
    ensures effect { IfOk result (λ r. effect_of r (state_of session.new)
        ≡ go_effect (state_of session.old) pid count) }
{
    let watched = session.watched_words(alloc)?;
    session.play(alloc, &[Block { pid, count }])?;
    let text = standing(alloc, session, pid)?;
    with_changes(alloc, session, text, &watched)
}

/// Takes the steps of a schedule up to a stop.
pub fn play(alloc: Global, session: &mut Session, schedule: &Schedule) -> Result<Reply, AllocError>
    ensures effect { IfOk result (λ r. effect_of r (state_of session.new)
        ≡ play_effect (state_of session.old) (steps_of schedule.now)) }
{
    let watched = session.watched_words(alloc)?;
    let (taken, stopped) = session.play(alloc, schedule.blocks())?;
    let report = play_text(alloc, session.world(), taken, schedule.total(), stopped)?;
    let text = placed_by(alloc, session.listings(), &report)?;
    with_changes(alloc, session, text, &watched)
}

/// The text of how many steps are left.
pub fn steps_text(alloc: Global, count: u64) -> Result<String, AllocError>
    ensures text { IfOk result (λ s. string_bytes s ≡ steps_text count) }
{
    format!(in alloc; "steps {count}\n")
}

/// The bytes that a process has written, and a line feed where a line is left open.
fn raw_output(alloc: Global, world: &World, pid: usize) -> Result<Vec<u8>, AllocError>
    ensures bytes { IfOk result (λ all. all.items ≡ raw_output pid world.now) }
{
    let Some(process) = world.process(pid) else {
        return Ok(Vec::new(alloc));
    };
    let mut all = process.machine().output().to_vec(alloc)?;
    if all.last().is_some_and(|last| *last != b'\n') {
        all.push(b'\n')?;
    }
    Ok(all)
}

/// The status line of a process, with where it stands in its source.
pub fn standing(alloc: Global, session: &Session, pid: usize) -> Result<Vec<u8>, AllocError>
    ensures text { IfOk result (λ text. text.items ≡ placed
        (listed (state_of session.now).listings) (status_text pid (state_of session.now).world)) }
{
    let text = status_text(alloc, session.world(), pid)?;
    placed_by(alloc, session.listings(), &text)
}

/// What a command writes that changes nothing, whose processes are there.
pub fn shown(
    alloc: Global,
    session: &Session,
    command: &Command,
) -> Result<Option<Vec<u8>>, AllocError>
    requires ranges { IsCommand command.now }
    ensures shown { IfOk result (λ found. IfSome found (λ text.
        accepted_effect (state_of session.now) command.now
        ≡ shown_effect text.items (state_of session.now))) }
    ensures none { IfOk result (λ found. found ≡ None → changes command.now ≡ true) }
{
    let world = session.world();
    let text = match command {
        Command::Marks(kind) => {
            let marks = session.marks_of(alloc, *kind)?;
            marks_text(alloc, session.listings(), world, &marks)
        }
        Command::Steps => steps_text(alloc, step_count(&session.effective(alloc)?)?),
        Command::Taken => taken_text(alloc, &session.effective(alloc)?),
        Command::Regs(pid) => regs_text(alloc, world, *pid),
        Command::Mem(range) => mem_text(alloc, world, range.pid, range.address, range.count),
        Command::Dis(range) => dis_text(alloc, world, range.pid, range.address, range.count),
        Command::Procs => {
            let text = procs_text(alloc, world)?;
            return Ok(Some(placed_by(alloc, session.listings(), &text)?));
        }
        Command::Mqs => mqs_text(alloc, world),
        Command::Sems => sems_text(alloc, world),
        Command::Fds(pid) => fds_text(alloc, world, *pid),
        Command::Out(pid) => out_text(alloc, world, *pid),
        Command::Raw(pid) => return Ok(Some(raw_output(alloc, world, *pid)?)),
        Command::Where(pid) => where_text(alloc, world, *pid, session.listing(*pid)),
        Command::Code(range) => code_text(alloc, world, session.listing(range.pid), *range),
        Command::Labels(pid) => labels_text(alloc, session.listing(*pid)),
        Command::Profile => profile_text(alloc, world),
        Command::Help => String::from_str(alloc, session.help()),
        _ => return Ok(None),
    };
    Ok(Some(text?.into_bytes()))
}
