//! Explorations, and the answers on what is asked.
ghost use Rattle.std.specs.Prelude.{◌≡◌, ◌++◌, ◌≤◌, None, false, [], map, string_bytes, All, IfOk, IsTrue, List, OnOk, drop, length, take, flat_map};
ghost use Rattle.lab_conditions.specs.declared.never.Never.{Never as Asking};
ghost use Rattle.lab_explore.specs.Visits.{start_of, IsWhole};
ghost use Rattle.lab_sched.specs.Starts.{fresh};
ghost use Rattle.lab_worlds.specs.Calls.{Alongside};
ghost use Rattle.lab_worlds.specs.Met.{IsCutShort};
ghost use Rattle.lab_questions.specs.Answered.{IsAnswer, IsThrough};
ghost use Rattle.lab_questions.specs.Asked.{questions};
ghost use Rattle.lab_questions.specs.EndTexts.{text_of, told_ends, AreTold};
ghost use Rattle.lab_questions.specs.Failures.{failure_of, Passes};
ghost use Rattle.lab_questions.specs.Bases.{TellsEmpty};
ghost use Rattle.lab_questions.specs.Programs.{TellEveryEnd};
ghost use Rattle.lab_questions.specs.Searches.{HasEnds, HasRound, IsTrueText};
ghost use Rattle.lab_questions.specs.Texts.{answers_text};
ghost use Rattle.lab_questions.specs.declared.asked.Question.TheVariants.{Never as Condemn, Calls};
ghost use Rattle.lab_questions.specs.Private.Founds.{IsCallAnswer, IsConditionAnswer, IsFoundOnWays};
ghost use Rattle.lab_questions.specs.Private.Presences.{AreNamed, AsksFor, unseen};

use crate::answers::{all_answers, condition_answers, said_of};
use crate::watching::{empty_in, watch};
use crate::{Answer, Answers, Asked, Basis, CallWord, Found, Question};
use lab_conditions::Never;
use lab_explore::{Visited, explore, visit};
use lab_sched::{Fresh, FreshFault, Program};
use lab_ways::{Wanted, Ways, ways_of};
use lab_worlds::{Exploration, ExploreFault, Limits, Observer, Workers, discard};
use lc3_table::Profile;
use std::alloc::{AllocError, Global};
use std::mem::replace;
use std::thread::Threads;
use thiserror::Error;

/// Explores the programs of a laboratory, as far as the limits allow, and answers each question: it is so, whatever steps are
/// taken, in any order; or the steps of a schedule show that it isn't; or that isn't known, since not everything was visited.
/// Where the last line of the text says that the search is complete, no steps lead to rest where something is told that the text
/// doesn't, or by fewer calls than its schedule has. Where it is complete, exactly those of the semaphores and queues that
/// conditions name are unopened which no steps lead to. They are told once, in the order in which the conditions name them first.
/// If only fair lassos are asked for, a lasso that is told is fair; where the exploration is complete and has none, no more than
/// some number of passes that serve each process can follow each other. Workers judge conditions side by side. What is asked of
/// calls is looked for by another search. An exploration that isn't complete says what it met: the limit of worlds, of steps, with
/// the process that goes on so long, or of memory, or that memory was refused. A fault is that there is no laboratory of so many
/// programs, want of memory, or a check that fails.
pub fn ask<O: Observer, R: Threads + Sync>(
    alloc: Global,
    programs: &[Program],
    profile: Profile,
    limits: Limits,
    asked: Asked,
    observer: &mut O,
    workers: &Workers<'_, R>,
) -> Result<Answers, AskFault>
    ensures asked { IfOk result (λ a. map (λ x. x.question) a.answers.items ≡ questions asked) }
    ensures shows { IfOk result (λ a. a.show ≡ asked.show) }
    ensures waiters { IfOk result (λ a. a.waiters ≡ asked.waiters) }
    ensures fairness { IfOk result (λ a. a.fair ≡ asked.fair) }
    ensures fair { IfOk result (λ a. a.exploration.fair ≡ asked.fair) }
    ensures answers { IfOk result (λ a. All (IsAnswer (fresh profile programs.now)
        a.waiters.items a.exploration) a.answers.items) }
    ensures text { IfOk result (λ a. string_bytes a.text
        ≡ answers_text false a.show a.exploration a.answers.items) }
    ensures numbers { IfOk result (λ a.
        AreTold a.show a.exploration.ends.items a.told.items) }
    ensures texts { IfOk result (λ a. map string_bytes a.texts.items
        ≡ map (text_of a.show) (told_ends a.show a.exploration.ends.items)) }
    ensures ends { IfOk result (λ a. HasEnds (fresh profile programs.now) a.exploration) }
    ensures told { IfOk result (λ a. IsTrue a.exploration.complete → TellEveryEnd a.show
        (fresh profile programs.now) (told_ends a.show a.exploration.ends.items)) }
    ensures round { IfOk result (λ a. HasRound (fresh profile programs.now) a.exploration) }
    ensures says { IfOk result (λ a. IsTrueText (fresh profile programs.now) a.exploration.fair
        a.show (string_bytes a.text)) }
    ensures empty { IfOk result (λ a. TellsEmpty (fresh profile programs.now)
        asked.never.items a.exploration.complete a.empty.items) }
    ensures through { IfOk result (λ a. IsThrough a.exploration.lasso a.through) }
    ensures failure { IfOk result (λ a.
        a.failure ≡ failure_of a.exploration a.answers.items a.empty.items) }
    ensures passes { IfOk result (λ a.
        a.failure ≡ None → Passes a.exploration a.answers.items a.empty.items) }
    ensures met { IfOk result (λ a. a.exploration.complete ≡ false
        → IsCutShort (fresh profile programs.now) limits a.exploration) }
{
    let Asked {
        words,
        never,
        calls,
        waiters,
        fair,
        show,
    } = asked;
    let called = call_answers(alloc, programs, profile, limits, calls, observer)?;
    let fresh = Fresh::new(alloc, programs, profile)?;
    let Searched {
        exploration,
        conditions,
        empty,
    } = search(alloc, fresh, limits, never, fair, observer, workers)?;
    let answers = all_answers(alloc, words, &waiters, &exploration, conditions, called)?;
    let said = said_of(alloc, show, &exploration, &answers, &empty, false)?;
    Ok(Answers {
        waiters,
        fair,
        show,
        exploration,
        answers,
        empty,
        through: said.through,
        text: said.text,
        told: said.told,
        texts: said.texts,
        failure: said.failure,
    })
}

/// Why there are no answers.
#[derive(Clone, Copy, Debug, PartialEq, Eq, Error)]
pub enum AskFault {
    /// There is no laboratory of the programs.
    #[error(transparent)]
    Start(FreshFault),
    /// There is no exploration of it.
    #[error(transparent)]
    Search(ExploreFault),
}

impl From<FreshFault> for AskFault {
    fn from(fault: FreshFault) -> AskFault {
        AskFault::Start(fault)
    }
}

impl From<ExploreFault> for AskFault {
    fn from(fault: ExploreFault) -> AskFault {
        AskFault::Search(fault)
    }
}

impl From<AllocError> for AskFault {
    fn from(_refused: AllocError) -> AskFault {
        AskFault::Search(ExploreFault::NoMemory)
    }
}

/// The answers on what is asked of calls, by a search of its own, if anything is.
fn call_answers<O: Observer>(
    alloc: Global,
    programs: &[Program],
    profile: Profile,
    limits: Limits,
    calls: Vec<CallWord>,
    observer: &mut O,
) -> Result<Vec<Answer>, AskFault>
    ensures asked { IfOk result (λ answers.
        map (λ a. a.question) answers.items ≡ map Calls calls.items) }
    ensures each { IfOk result (λ answers.
        All (IsCallAnswer (fresh profile programs.now)) answers.items) }
{
    if calls.is_empty() {
        return Ok(Vec::new(alloc));
    }
    let fresh = Fresh::new(alloc, programs, profile)?;
    let visited = visit(alloc, fresh, limits, observer, false)?;
    let answers = called_of(&visited, alloc, calls);
    discard(visited);
    Ok(answers?)
}

/// What a search shows of one thing that is asked of calls.
fn found_on_ways(visited: &Visited, alloc: Global, wanted: &Wanted) -> Result<Found, ExploreFault>
    requires whole { IsWhole visited.now }
    ensures found { IfOk result (IsFoundOnWays (start_of visited.now) wanted.now) }
{
    match ways_of(visited, alloc, wanted)? {
        Ways::Always => Ok(Found::Holds),
        Ways::Without(schedule) => Ok(Found::Fails(schedule)),
        Ways::Unknown => Ok(Found::Unknown),
    }
}

/// What a search shows of all that is asked of calls.
fn called_of(
    visited: &Visited,
    alloc: Global,
    calls: Vec<CallWord>,
) -> Result<Vec<Answer>, ExploreFault>
    requires whole { IsWhole visited.now }
    ensures asked { IfOk result (λ answers.
        map (λ a. a.question) answers.items ≡ map Calls calls.items) }
    ensures each { IfOk result (λ answers.
        All (IsCallAnswer (start_of visited.now)) answers.items) }
{
    let mut answers = Vec::new(alloc);
    for word in calls {
        let found = found_on_ways(visited, alloc, &word.wanted)?;
        let question = Question::Calls(word);
        answers.push(Answer { question, found })?;
    }
    Ok(answers)
}

/// What a search found, the answers on what must never be so, and what of all that they rest on is never there.
#[derive(Drop)]
struct Searched {
    exploration: Exploration,
    conditions: Vec<Answer>,
    empty: Vec<Basis>,
}

/// Explores the programs of a laboratory, and looks for what must never be so and for what it rests on.
fn search<O: Observer, R: Threads + Sync>(
    alloc: Global,
    fresh: Fresh,
    limits: Limits,
    mut never: Vec<Never>,
    fair: bool,
    observer: &mut O,
    workers: &Workers<'_, R>,
) -> Result<Searched, ExploreFault>
    ensures ends { IfOk result (λ s. HasEnds fresh s.exploration) }
    ensures fair { IfOk result (λ s. s.exploration.fair ≡ fair) }
    ensures round { IfOk result (λ s. HasRound fresh s.exploration) }
    ensures asked { IfOk result (λ s.
        map (λ a. a.question) s.conditions.items ≡ map Condemn never.items) }
    ensures each { IfOk result (λ s.
        All (IsConditionAnswer fresh s.exploration.complete) s.conditions.items) }
    ensures empty { IfOk result (λ s.
        TellsEmpty fresh never.items s.exploration.complete s.empty.items) }
    ensures met { IfOk result (λ s.
        s.exploration.complete ≡ false → IsCutShort fresh limits s.exploration) }
{
    let count = never.len();
    let bases = watch(alloc, &mut never)?;
    let mut exploration = explore(alloc, fresh, limits, &never, fair, observer, workers)?;
    never.truncate(count);
    let complete = exploration.complete;
    let empty = empty_in(alloc, complete, bases, &mut exploration.reached, count)?;
    let reached = replace(&mut exploration.reached, Vec::new(alloc));
    let conditions = condition_answers(alloc, never, reached, complete)?;
    Ok(Searched {
        exploration,
        conditions,
        empty,
    })
}
