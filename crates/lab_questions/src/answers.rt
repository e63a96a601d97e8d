//! Answers on what was found.
ghost use Rattle.std.specs.Prelude.{◌≡◌, ◌↔◌, ◌++◌, [], IsTrue, None, true, false, map, position, string_bytes, bytes_eq, All, IfOk};
ghost use Rattle.std.specs.Option.{option_copied};
ghost use Rattle.lab_sched.specs.Worlds.{WorldState};
ghost use Rattle.lab_worlds.specs.Ends.{AreEnds};
ghost use Rattle.lab_questions.specs.Answered.{IsFound, IsAnswer, fails, is_known, shown_by, bad_schedule, IsThrough};
ghost use Rattle.lab_questions.specs.Asked.{questions};
ghost use Rattle.lab_questions.specs.EndTexts.{text_of, told_ends, AreTold, told_end};
ghost use Rattle.lab_questions.specs.Failures.{failure_of, judges};
ghost use Rattle.lab_questions.specs.Judgments.{Meets};
ghost use Rattle.lab_questions.specs.Private.Judged.{IsFaultIn};
ghost use Rattle.lab_questions.specs.Shown.{shown_text};
ghost use Rattle.lab_questions.specs.Texts.{answers_text};
ghost use Rattle.lab_questions.specs.declared.asked.Question.TheVariants.{Require, Never as Condemn, Calls};
ghost use Rattle.lab_questions.specs.Private.Founds.{AreEndsOf, AreShown, IsCallAnswer, IsConditionAnswer, IsConditionFound};
ghost use Rattle.lab_questions.specs.Private.Says.{Says};

use crate::failure::{failure_of, through};
use crate::output::{has_written, have_same_outputs, have_settled};
use crate::texts::{shown_text, tell};
use crate::{Asked, Basis, CallWord, Failure, Question, Show, Waiter, Word};
use lab_conditions::{Never, messages_in};
use lab_sched::{Fresh, Schedule, Verdict, World};
use lab_worlds::{End, Exploration, ExploreFault, Limits, Observer, Walks, walk_randomly};
use std::alloc::{AllocError, Global};

/// What was found of a question.
#[derive(Drop)]
pub enum Found {
    /// It is so, whatever steps are taken.
    Holds,
    /// Nothing shows that it isn't so, and not everything was visited.
    Unknown,
    /// The end with this number, counted from 0, is the first that isn't as it is required.
    FailsAt(usize),
    /// The steps of a schedule show that it isn't so.
    Fails(Schedule),
}

impl Found {
    /// Whether it isn't so.
    pub fn fails(&self) -> bool
        ensures fails { result ≡ fails self.now }
    {
        matches!(self, Found::FailsAt(_) | Found::Fails(_))
    }

    pub(crate) fn is_known(&self) -> bool
        ensures known { result ≡ is_known self.now }
    {
        !matches!(self, Found::Unknown)
    }

    /// The schedule that shows that it isn't so, where these ends were found.
    pub fn shown<'a>(&'a self, ends: &'a [End]) -> Option<&'a Schedule>
        ensures schedule { option_copied result ≡ shown_by ends.now self.now }
    {
        match self {
            Found::Holds | Found::Unknown => None,
            Found::FailsAt(number) => Some(&ends.get(*number)?.schedule),
            Found::Fails(schedule) => Some(schedule),
        }
    }
}

/// A question, and what was found of it.
#[derive(Drop)]
pub struct Answer {
    pub question: Question,
    pub found: Found,
}

/// What was found of the programs of a laboratory, the answer on each question, the text that tells both, and why not all is
/// shown to be as it has to be, if it isn't.
#[derive(Drop)]
pub struct Answers {
    /// The processes that may wait.
    pub waiters: Vec<Waiter>,
    /// Whether only lassos that are fair are asked for.
    pub fair: bool,
    /// What is told of each end.
    pub show: Show,
    /// What was found, but what must never be so, which stands in the answers.
    pub exploration: Exploration,
    /// The answer on each question, in order.
    pub answers: Vec<Answer>,
    /// What conditions rest on and is never there: those conditions ask nothing. Where not everything was visited that isn't
    /// known, and there is none here.
    pub empty: Vec<Basis>,
    /// The schedule of the lasso with its steps behind it, if there is one, unless they are too many for a schedule.
    pub through: Option<Schedule>,
    pub text: String,
    /// The numbers of the ends that are told, counted from 0, in the order in which they are.
    pub told: Vec<usize>,
    /// What is told of each of these.
    pub texts: Vec<String>,
    pub failure: Option<Failure>,
}

/// What is said of what was found: the members of the answers.
#[derive(Drop)]
pub(crate) struct Said {
    pub through: Option<Schedule>,
    pub text: String,
    pub told: Vec<usize>,
    pub texts: Vec<String>,
    pub failure: Option<Failure>,
}

impl Answers {
    /// The end that is told behind so many others.
    pub fn end(&self, before: usize) -> Option<&End>
        ensures end { option_copied result ≡ told_end self.now.exploration.ends.items
            self.now.told.items before }
    {
        self.exploration.ends.get(*self.told.get(before)?)
    }

    /// The number of the end that a world at rest is told as, counted from 0, if it is: two ends of which the same is told are
    /// told as one.
    pub fn number_of(&self, alloc: Global, world: &World) -> Result<Option<usize>, AllocError>
        ensures number { IfOk result (λ number. number
            ≡ position (λ told. bytes_eq (string_bytes told)
            (shown_text self.now.show world.now)) self.now.texts.items) }
    {
        let text = shown_text(alloc, world, self.show)?;
        Ok(
            self.texts
                .iter()
                .position(|told| told.as_str() == text.as_str()),
        )
    }

    /// Whether something has to be so.
    pub fn judges(&self) -> bool
        ensures judges { result ≡ judges self.now.answers.items }
    {
        !self.answers.is_empty()
    }

    /// The schedule that shows the failure, if it has one: that of the end, the world, the step or the way that shows that
    /// something isn't so, or that of a lasso with its steps behind it.
    pub fn bad_schedule(&self) -> Option<&Schedule>
        ensures schedule { option_copied result ≡ bad_schedule self.now }
    {
        match self.failure {
            Some(Failure::Unmet(number)) => {
                let answer = self.answers.get(number)?;
                answer.found.shown(&self.exploration.ends)
            }
            Some(Failure::Endless) => self.through.as_ref(),
            Some(Failure::Empty | Failure::Incomplete) | None => None,
        }
    }
}

fn is_met(word: &Word, waiters: &[Waiter], other: &World, world: &World) -> bool
    ensures met { IsTrue result ↔ Meets word.now waiters.now other.now world.now }
{
    match word {
        Word::Ended => have_settled(false, waiters, world),
        Word::Stuck => matches!(world.verdict(), Verdict::Stuck),
        Word::Halted => have_settled(true, waiters, world),
        Word::Empty => messages_in(world.kernel()) == 0,
        Word::Same => have_same_outputs(world, other),
        Word::Output(need) => has_written(need, world),
    }
}

/// The number of the first end, counted from 0, that isn't as a word requires, if there is one.
pub(crate) fn fault_in(word: &Word, waiters: &[Waiter], ends: &[End]) -> Option<usize>
    ensures fault { IsFaultIn word.now waiters.now ends.now result }
{
    for number in 0..ends.len() {
        if !is_met(word, waiters, &ends[0].world, &ends[number].world) {
            return Some(number);
        }
    }
    None
}

/// What the ends that were found show of a word.
fn found_of(word: &Word, waiters: &[Waiter], found: &Exploration) -> Found
    ensures found { (start : WorldState) → AreEndsOf start found.now
        → IsFound start waiters.now found.now (Require word.now) result }
{
    match fault_in(word, waiters, &found.ends) {
        Some(number) => Found::FailsAt(number),
        None if found.complete => Found::Holds,
        None => Found::Unknown,
    }
}

/// The answers on words, by the ends that were found.
fn word_answers(
    alloc: Global,
    words: Vec<Word>,
    waiters: &[Waiter],
    found: &Exploration,
) -> Result<Vec<Answer>, AllocError>
    ensures asked { IfOk result (λ answers.
        map (λ a. a.question) answers.items ≡ map Require words.items) }
    ensures each { IfOk result (λ answers. (start : WorldState) → AreEndsOf start found.now
        → All (IsAnswer start waiters.now found.now) answers.items) }
{
    let mut answers = Vec::new(alloc);
    for word in words {
        let shown = found_of(&word, waiters, found);
        answers.push(Answer {
            question: Question::Require(word),
            found: shown,
        })?;
    }
    Ok(answers)
}

/// What a search shows of one thing that must never be so, with the schedule that leads to it, if it has one.
fn condition_found(shown: Option<Option<Schedule>>, complete: bool) -> Result<Found, ExploreFault>
    ensures found { IfOk result (IsConditionFound shown complete) }
{
    match shown {
        Some(Some(schedule)) => Ok(Found::Fails(schedule)),
        _ if !complete => Ok(Found::Unknown),
        Some(None) => Ok(Found::Holds),
        None => Err(ExploreFault::Unvouched),
    }
}

/// The answers on what must never be so, by the schedules that lead to it, as far as there are any.
pub(crate) fn condition_answers(
    alloc: Global,
    never: Vec<Never>,
    reached: Vec<Option<Schedule>>,
    complete: bool,
) -> Result<Vec<Answer>, ExploreFault>
    ensures asked { IfOk result (λ answers.
        map (λ a. a.question) answers.items ≡ map Condemn never.items) }
    ensures each { IfOk result (λ answers. (start : WorldState)
        → AreShown start complete never.items reached.items
        → All (IsConditionAnswer start complete) answers.items) }
{
    let mut answers = Vec::new(alloc);
    let mut reached = reached.into_iter();
    for condition in never {
        let found = condition_found(reached.next(), complete)?;
        let question = Question::Never(condition);
        answers.push(Answer { question, found })?;
    }
    Ok(answers)
}

/// The answers on words, by the ends that were found, and then other answers.
pub(crate) fn all_answers(
    alloc: Global,
    words: Vec<Word>,
    waiters: &[Waiter],
    found: &Exploration,
    mut conditions: Vec<Answer>,
    mut called: Vec<Answer>,
) -> Result<Vec<Answer>, AllocError>
    ensures asked { IfOk result (λ answers. map (λ a. a.question) answers.items
        ≡ map Require words.items ++ map (λ a. a.question) conditions.items
        ++ map (λ a. a.question) called.items) }
    ensures each { IfOk result (λ answers. (start : WorldState) → AreEndsOf start found.now
        → All (IsAnswer start waiters.now found.now) conditions.items
        → All (IsAnswer start waiters.now found.now) called.items
        → All (IsAnswer start waiters.now found.now) answers.items) }
{
    let mut answers = word_answers(alloc, words, waiters, found)?;
    answers.append(&mut conditions)?;
    answers.append(&mut called)?;
    Ok(answers)
}

/// The text that tells what was found, by walks or by a search, and what else is said of it.
pub(crate) fn said_of(
    alloc: Global,
    show: Show,
    found: &Exploration,
    answers: &[Answer],
    empty: &[Basis],
    walks: bool,
) -> Result<Said, AllocError>
    ensures says { IfOk result (λ s. walks ≡ false → Says show found.now (string_bytes s.text)) }
    ensures text { IfOk result (λ s. string_bytes s.text
        ≡ answers_text walks show found.now answers.now) }
    ensures told { IfOk result (λ s. AreTold show found.now.ends.items s.told.items) }
    ensures texts { IfOk result (λ s. map string_bytes s.texts.items
        ≡ map (text_of show) (told_ends show found.now.ends.items)) }
    ensures failure { IfOk result (λ s. s.failure ≡ failure_of found.now answers.now empty.now) }
    ensures through { IfOk result (λ s. IsThrough found.now.lasso s.through) }
{
    let told = tell(alloc, show, found, answers, walks)?;
    let through = through(alloc, &found.lasso)?;
    Ok(Said {
        through,
        text: told.text,
        told: told.numbers,
        texts: told.texts,
        failure: failure_of(found, answers, empty),
    })
}

/// Takes walks through the interleavings of the programs of a laboratory, and judges each end to which
/// one comes by each word. Where one isn't so, the schedules that are told with it lead to ends which
/// show that. Walks never show that there is no other end, meet no condition, and answer nothing of calls.
pub fn ask_walks<O: Observer>(
    alloc: Global,
    fresh: Fresh,
    limits: Limits,
    walks: Walks,
    asked: Asked,
    observer: &mut O,
) -> Result<Answers, ExploreFault>
    ensures asked { IfOk result (λ a. map (λ x. x.question) a.answers.items ≡ questions asked) }
    ensures shows { IfOk result (λ a. a.show ≡ asked.show) }
    ensures waiters { IfOk result (λ a. a.waiters ≡ asked.waiters) }
    ensures fairness { IfOk result (λ a. a.fair ≡ asked.fair) }
    ensures answers { IfOk result (λ a.
        All (IsAnswer fresh a.waiters.items a.exploration) a.answers.items) }
    ensures text { IfOk result (λ a. string_bytes a.text
        ≡ answers_text true a.show a.exploration a.answers.items) }
    ensures numbers { IfOk result (λ a.
        AreTold a.show a.exploration.ends.items a.told.items) }
    ensures texts { IfOk result (λ a. map string_bytes a.texts.items
        ≡ map (text_of a.show) (told_ends a.show a.exploration.ends.items)) }
    ensures sound { IfOk result (λ a. AreEnds fresh a.exploration.ends.items) }
    ensures empty { IfOk result (λ a. a.empty.items ≡ []) }
    ensures open { IfOk result (λ a. a.exploration.complete ≡ false) }
    ensures lasso { IfOk result (λ a. a.exploration.lasso ≡ None) }
    ensures failure { IfOk result (λ a.
        a.failure ≡ failure_of a.exploration a.answers.items a.empty.items) }
    ensures fails { IfOk result (λ a. a.failure ≡ None → ⊥) }
{
    let Asked {
        words,
        never,
        calls,
        waiters,
        fair,
        show,
    } = asked;
    let called = unknown_calls(alloc, calls)?;
    let reached = Vec::new(alloc);
    let conditions = condition_answers(alloc, never, reached, false)?;
    let exploration = walk_randomly(alloc, fresh, limits, walks, observer)?;
    let answers = all_answers(alloc, words, &waiters, &exploration, conditions, called)?;
    let empty = Vec::new(alloc);
    let said = said_of(alloc, show, &exploration, &answers, &empty, true)?;
    Ok(Answers {
        waiters,
        fair,
        show,
        exploration,
        answers,
        empty,
        through: said.through,
        text: said.text,
        told: said.told,
        texts: said.texts,
        failure: said.failure,
    })
}

/// The answers on what is asked of calls, where nothing shows them.
fn unknown_calls(alloc: Global, calls: Vec<CallWord>) -> Result<Vec<Answer>, AllocError>
    ensures asked { IfOk result (λ answers.
        map (λ a. a.question) answers.items ≡ map Calls calls.items) }
    ensures each { IfOk result (λ answers.
        (start : WorldState) → All (IsCallAnswer start) answers.items) }
{
    let mut answers = Vec::new(alloc);
    for word in calls {
        let question = Question::Calls(word);
        let found = Found::Unknown;
        answers.push(Answer { question, found })?;
    }
    Ok(answers)
}
