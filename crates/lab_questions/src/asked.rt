//! What is asked of the programs of a laboratory.
ghost use Rattle.std.specs.Prelude.{◌≡◌};
ghost use Rattle.lab_questions.specs.Asked.{asks_rest, head_of, is_never, is_of_calls, question_text, word_text};
ghost use Rattle.lab_questions.specs.CallWords.{forbids};
ghost use Rattle.lab_questions.specs.Private.Rows.{is_in};

use crate::OutputNeed;
use lab_conditions::Never;
use lab_ways::{Pattern, Wanted};
use lab_worlds::{Limits, Walks};

/// What can be required of each end.
#[derive(Drop)]
pub enum Word {
    /// Each process has ended, or waits where it may.
    Ended,
    /// Some process waits.
    Stuck,
    /// Each process has ended by HALT, or waits where it may.
    Halted,
    /// No queue holds a message.
    Empty,
    /// The processes have written the same as at every other end.
    Same,
    /// The processes have written this.
    Output(OutputNeed),
}

impl Word {
    /// The word as it is written.
    pub fn text(&self) -> &str
        ensures text { result.now ≡ word_text self.now }
    {
        match self {
            Word::Ended => "ended",
            Word::Stuck => "stuck",
            Word::Halted => "halted",
            Word::Empty => "empty",
            Word::Same => "same",
            Word::Output(need) => need.text.as_str(),
        }
    }
}

/// What is asked of calls, on every way.
#[derive(Drop)]
pub struct CallWord {
    /// As it was written.
    pub text: String,
    pub wanted: Wanted,
}

/// One thing that is asked.
#[derive(Drop)]
pub enum Question {
    /// Each end is as the word requires.
    Require(Word),
    /// This is never so.
    Never(Never),
    /// This is so of the calls of every way.
    Calls(CallWord),
}

/// Which questions are told together.
#[derive(Clone, Copy, Debug, PartialEq, Eq)]
pub(crate) enum Part {
    /// What is required.
    Required,
    /// What must never be so.
    Never,
}

/// Whether a pattern says what must never be so, and not what must be.
fn forbids(pattern: &Pattern) -> bool
    ensures forbids { result ≡ forbids pattern.now }
{
    matches!(pattern, Pattern::NoneOf(_) | Pattern::NoneBut(_))
}

impl Question {
    /// What is asked, as it was written.
    pub fn text(&self) -> &str
        ensures text { result.now ≡ question_text self.now }
    {
        match self {
            Question::Require(word) => word.text(),
            Question::Never(never) => never.text(),
            Question::Calls(word) => word.text.as_str(),
        }
    }

    /// Whether it says what must never be so.
    pub fn is_never(&self) -> bool
        ensures never { result ≡ is_never self.now }
    {
        match self {
            Question::Require(_) => false,
            Question::Never(_) => true,
            Question::Calls(word) => forbids(&word.wanted.pattern),
        }
    }

    /// How the line begins that tells that it isn't so.
    pub fn head(&self) -> &'static str
        ensures head { result.now ≡ head_of self.now }
    {
        match self {
            Question::Require(_) => "not",
            Question::Never(_) => "reached",
            Question::Calls(_) if self.is_never() => "reached",
            Question::Calls(_) => "uncalled",
        }
    }

    /// Whether it is asked of the calls of every way.
    pub(crate) fn is_of_calls(&self) -> bool
        ensures calls { result ≡ is_of_calls self.now }
    {
        matches!(self, Question::Calls(_))
    }

    /// Whether it asks that each run comes to rest.
    pub fn asks_rest(&self) -> bool
        ensures rest { result ≡ asks_rest self.now }
    {
        matches!(
            self,
            Question::Require(Word::Ended | Word::Stuck | Word::Halted)
        )
    }

    /// Whether it is one of those that are told together.
    pub(crate) fn is_in(&self, part: Part) -> bool
        ensures value { result ≡ is_in part self.now }
    {
        match part {
            Part::Required => !self.is_never(),
            Part::Never => self.is_never(),
        }
    }
}

/// A process that may wait for ever while its program counter lies from one address to another.
#[derive(Clone, Copy, Debug, PartialEq, Eq)]
pub struct Waiter {
    pub process: usize,
    pub first: u16,
    pub last: u16,
}

/// What is told of an end.
#[derive(Clone, Copy, Debug, PartialEq, Eq)]
pub struct Show {
    /// Whether what the processes have written, and the verdict, stand in place of the report.
    pub out: bool,
    /// Whether the messages that are left in queues are told, too.
    pub left: bool,
}

/// What is asked of the programs of a laboratory: its questions are these words, then what must never be so, and then what is
/// asked of calls.
#[derive(Drop)]
pub struct Asked {
    /// What is required of each end.
    pub words: Vec<Word>,
    /// What must never be so.
    pub never: Vec<Never>,
    /// What is asked of the calls of every way.
    pub calls: Vec<CallWord>,
    /// The processes that may wait.
    pub waiters: Vec<Waiter>,
    /// Whether only lassos that are fair are told.
    pub fair: bool,
    /// What is told of each end.
    pub show: Show,
}

/// How far an exploration was to go.
#[derive(Clone, Copy)]
pub struct Reach {
    pub limits: Limits,
    /// The walks that are taken in place of every interleaving.
    pub walks: Option<Walks>,
    /// Whether it goes further where nothing is found that isn't as it has to be.
    pub is_stage: bool,
}
