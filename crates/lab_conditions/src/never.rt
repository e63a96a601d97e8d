//! What must never be so.
ghost use Rattle.std.specs.Prelude.{◌≡◌, ◌↔◌, None, Err, false, map, IfOk, IsTrue, Some};
ghost use Rattle.lab_conditions.specs.declared.reading.ReadFault.TheVariants.{NoCondition};
ghost use Rattle.lab_conditions.specs.Written.{words, condition_in, are_lost, refusal_in, Writes, never_text, NamesOnlyIn, refused_in};
ghost use Rattle.lab_conditions.specs.Refusals.{error_told, is_error, is_process, is_refused};

use crate::reading::{is_word, process_in, spaced, words_of};
use crate::{Condition, ReadFault};
use ipc_errors::error_named;
use ipc_kernel::Reply;
use ipc_names::Errno;
use lab_sched::Stepped;
use std::alloc::Global;
use std::fmt;

/// What must never be so. It is shown as it was written, with one blank between its words.
#[derive(Drop)]
pub enum Never {
    /// A condition holds of a world.
    Holds(Condition),
    /// A step loses a message.
    Lost,
    /// A step is a call that is refused.
    Refused(Refusal),
}

impl fmt::Display for Never {
    ghost use Rattle.std.specs.Prelude.{Some};
    ghost use Rattle.lab_conditions.specs.Written.{never_text};

    ghost output = { λ n. Some (never_text n) };

    fn fmt<W: fmt::Write>(&self, f: &mut fmt::Formatter<W>) -> fmt::Result {
        write!(f, "{}", self.text())
    }
}

fn are_lost(words: &[&str]) -> bool
    ensures value { result ≡ are_lost (map (λ word. word.now) words.now) }
{
    match words {
        [word] => is_word("lost", word),
        _ => false,
    }
}

impl Never {
    /// What must never be so, as it is written.
    pub fn text(&self) -> &str
        ensures text { result.now ≡ never_text self.now }
    {
        match self {
            Never::Holds(condition) => condition.text.as_str(),
            Never::Lost => "lost",
            Never::Refused(refusal) => refusal.text.as_str(),
        }
    }

    /// Whether it names no process but those of a run of so many.
    pub fn names_only(&self, count: usize) -> bool
        ensures only { IsTrue result ↔ NamesOnlyIn count self.now }
    {
        match self {
            Never::Holds(condition) => condition.names_only(count),
            Never::Lost => true,
            Never::Refused(refusal) => refusal.process.is_none_or(|process| process < count),
        }
    }

    /// What a text writes: `lost`; `refused`, behind which the name of an error may stand, and before it
    /// the number of a process; or a condition.
    pub fn read(alloc: Global, text: &str) -> Result<Never, ReadFault>
        ensures ok { IfOk result (λ n. Writes text.now n) }
        ensures condition { result ≡ Err NoCondition → condition_in text.now ≡ None }
        ensures lost { result ≡ Err NoCondition → are_lost (words text.now) ≡ false }
        ensures refused { result ≡ Err NoCondition → refusal_in (words text.now) ≡ None }
    {
        let words = words_of(alloc, text)?;
        if are_lost(&words) {
            return Ok(Never::Lost);
        }
        if let Some((process, error)) = refusal_in(&words) {
            return Ok(Never::Refused(Refusal {
                text: spaced(alloc, &words)?,
                process,
                error,
            }));
        }
        Ok(Never::Holds(Condition::read(alloc, text)?))
    }
}

/// `refused`, or behind it the name of an error
fn refused_in(words: &[&str]) -> Option<Option<Errno>>
    ensures value { result ≡ refused_in (map (λ word. word.now) words.now) }
{
    match words {
        [word] if is_word("refused", word) => Some(None),
        [word, name] if is_word("refused", word) => Some(Some(error_named(name)?)),
        _ => None,
    }
}

/// The process whose call is refused and the error, where they are named.
#[tactic(auto, unfolding(crate::specs::Written::refusal_in))]
fn refusal_in(words: &[&str]) -> Option<(Option<usize>, Option<Errno>)>
    ensures value { result ≡ refusal_in (map (λ word. word.now) words.now) }
{
    let (word, rest) = words.split_first()?;
    match process_in(word) {
        Some(process) => Some((Some(process), refused_in(rest)?)),
        None => Some((None, refused_in(words)?)),
    }
}

/// A call that is refused: of one process or of any, with one error or with any but EAGAIN, which a
/// call that tries is there for. It is shown as it was written, with one blank between its words.
#[derive(Drop)]
pub struct Refusal {
    pub text: String,
    pub process: Option<usize>,
    pub error: Option<Errno>,
}

/// The number of the error with which a step is refused, by what is told of it.
pub fn error_told(stepped: &Stepped) -> Option<u16>
    ensures number { result ≡ error_told stepped.now }
{
    match stepped {
        Stepped::Refused(error) => Some(error.number()),
        Stepped::Called(Reply::Plain(word)) if *word >= 0x8000 => Some(word.wrapping_neg()),
        Stepped::Called(_) | Stepped::Moved | Stepped::Waits | Stepped::Same => None,
    }
}

impl Refusal {
    /// Whether the calls of process `pid` are meant.
    pub fn is_process(&self, pid: usize) -> bool
        ensures value { result ≡ is_process self.now.process pid }
    {
        self.process.is_none_or(|process| pid == process)
    }

    /// Whether the error with a number is meant.
    pub fn is_error(&self, number: u16) -> bool
        ensures value { result ≡ is_error self.now.error number }
    {
        match self.error {
            Some(error) => number == error.number(),
            None => number != Errno::Again.number(),
        }
    }

    /// Whether a step of which this is told is a call that is refused so.
    pub fn is_refused(&self, stepped: &Stepped) -> bool
        ensures value { result ≡ is_refused self.now stepped.now }
    {
        match error_told(stepped) {
            Some(number) => self.is_error(number),
            None => false,
        }
    }
}
