//! Why not all is shown to be as it has to be.
ghost use Rattle.std.specs.Prelude.{◌≡◌, ◌+◌, ◌≤◌, ◌++◌, IfOk, OnOk};
ghost use Rattle.std.specs.List.{AllByRecursion, list_all, list_any};
ghost use Rattle.lab_sched.specs.Schedules.{IsBlock, most_steps, steps_of, total_of};
ghost use Rattle.lab_questions.specs.Answered.{is_known, IsThrough};
ghost use Rattle.lab_questions.specs.Asked.{asks_rest};
ghost use Rattle.lab_questions.specs.Failures.{failure_of, first_failing};

use crate::{Answer, Basis};
use lab_sched::{Block, MOST_STEPS, Schedule};
use lab_worlds::{Exploration, Lasso};
use std::alloc::{AllocError, Global};

/// Why an exploration doesn't show that all is as it has to be.
#[derive(Clone, Copy, Debug, PartialEq, Eq)]
pub enum Failure {
    /// The question with this number, from 0, isn't so.
    Unmet(usize),
    /// Some interleaving never ends, and each has to.
    Endless,
    /// Some condition asks nothing.
    Empty,
    /// Not everything was visited.
    Incomplete,
}

/// The number of the first answer, from 0, that its question isn't so; of those of calls too, or of no such.
fn first_failing(answers: &[Answer], with_calls: bool) -> Option<usize>
    ensures first { result ≡ first_failing with_calls answers.now }
{
    answers.iter().position(|answer| answer.found.fails()
        && (with_calls || !answer.question.is_of_calls()))
}

fn ask_rest(answers: &[Answer]) -> bool
    ensures rest { result ≡ list_any (λ a. asks_rest a.question) answers.now }
{
    answers.iter().any(|answer| answer.question.asks_rest())
}

fn are_known(answers: &[Answer]) -> bool
    ensures known { result ≡ list_all (λ a. is_known a.found) answers.now }
{
    answers.iter().all(|answer| answer.found.is_known())
}

/// Why not all is shown to be so, if it isn't: what was found of ends, worlds and steps; else a round, where each run has to come
/// to rest; else a way; else that a condition asks nothing, by what such rest on; else what isn't known.
pub(crate) fn failure_of(
    found: &Exploration,
    answers: &[Answer],
    empty: &[Basis],
) -> Option<Failure>
    ensures failure { result ≡ failure_of found.now answers.now empty.now }
{
    if let Some(number) = first_failing(answers, false) {
        return Some(Failure::Unmet(number));
    }
    if found.lasso.is_some() && ask_rest(answers) {
        return Some(Failure::Endless);
    }
    if let Some(number) = first_failing(answers, true) {
        return Some(Failure::Unmet(number));
    }
    if !empty.is_empty() {
        return Some(Failure::Empty);
    }
    if found.complete && are_known(answers) {
        return None;
    }
    Some(Failure::Incomplete)
}

/// Adds the steps of blocks at the end of a schedule.
fn push_blocks(schedule: &mut Schedule, blocks: &[Block]) -> Result<(), AllocError>
    requires valid { AllByRecursion IsBlock blocks.now }
    requires room { total_of schedule.old + total_of blocks.now ≤ most_steps }
    ensures steps { OnOk result
        (steps_of schedule.new ≡ steps_of schedule.old ++ steps_of blocks.now) }
    ensures total { OnOk result
        (total_of schedule.new ≡ total_of schedule.old + total_of blocks.now) }
{
    for block in blocks {
        schedule.push(block.pid, block.count)?;
    }
    Ok(())
}

/// The schedule of a lasso with its steps behind it, as one schedule, if there is one, unless they are too many for a schedule.
pub(crate) fn through(alloc: Global, lasso: &Option<Lasso>) -> Result<Option<Schedule>, AllocError>
    ensures through { IfOk result (λ whole. IsThrough lasso.now whole) }
{
    let Some(lasso) = lasso else {
        return Ok(None);
    };
    if lasso.schedule.total() + lasso.steps.total() > MOST_STEPS {
        return Ok(None);
    }
    let mut whole = Schedule::new(alloc);
    push_blocks(&mut whole, lasso.schedule.blocks())?;
    push_blocks(&mut whole, lasso.steps.blocks())?;
    Ok(Some(whole))
}
