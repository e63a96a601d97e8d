//! The words of `--require` and of `--show`.
ghost use Rattle.std.specs.Prelude.{◌≡◌, ◌<◌, Bool, None, IfOk, IfSome, map};
ghost use Rattle.lab_arguments.specs.Private.Requirements.{how_often, once_if, words_of, AreRequired, AreShown};

use crate::pieces::required_words;
use std::alloc::{AllocError, Global};

/// What each end of an exploration must be like.
#[derive(Clone, Copy)]
pub struct Requirements {
    /// How its processes must have come to rest.
    pub rest: Option<Rest>,
    /// Whether no queue may hold a message.
    pub empty: bool,
    /// Whether the processes must have written what they have at every other end.
    pub same: bool,
}

/// How processes come to rest.
#[derive(Clone, Copy)]
pub enum Rest {
    /// Each has ended, or may wait.
    Ended,
    /// Some process waits.
    Stuck,
    /// Each has ended by HALT, or may wait.
    Halted,
}

impl Requirements {
    /// Nothing is required.
    pub const NOTHING: Requirements = Requirements {
        rest: None,
        empty: false,
        same: false,
    };

    /// Whether something is required.
    pub fn is_some(self) -> bool {
        self.rest.is_some() || self.empty || self.same
    }

    /// Whether processes may wait that are named for it.
    pub fn lets_wait(self) -> bool {
        matches!(self.rest, Some(Rest::Ended | Rest::Halted))
    }
}

/// The words of a text, between commas.
pub(crate) fn words_of(alloc: Global, text: &str) -> Result<Vec<&str>, AllocError>
    ensures words { IfOk result (λ found. map (λ word. word.now) found.items
        ≡ words_of text.now) }
{
    text.split(',').collect(alloc)
}

/// Whether a word stands among words, if it isn't there more than once.
fn stands(word: &str, words: &[&str]) -> Option<bool>
    ensures some { IfSome result (λ there.
        how_often word.now (map (λ w. w.now) words.now) ≡ once_if there) }
    ensures none { result ≡ None
        → 1 < how_often word.now (map (λ w. w.now) words.now) }
{
    match words.iter().filter(|other| word == **other).count() {
        0 => Some(false),
        1 => Some(true),
        _ => None,
    }
}

/// What words require, each of them once, and one of `ended`, `stuck` and `halted` at most.
pub(crate) fn required_by(words: &[&str]) -> Option<Requirements>
    ensures some { IfSome result (λ r. AreRequired (map (λ w. w.now) words.now) r) }
    ensures none { result ≡ None → (r : Requirements)
        → AreRequired (map (λ w. w.now) words.now) r → ⊥ }
{
    let ended = stands("ended", words)?;
    let stuck = stands("stuck", words)?;
    let halted = stands("halted", words)?;
    let empty = stands("empty", words)?;
    let same = stands("same", words)?;
    let rest = match (ended, stuck, halted) {
        (false, false, false) => None,
        (true, false, false) => Some(Rest::Ended),
        (false, true, false) => Some(Rest::Stuck),
        (false, false, true) => Some(Rest::Halted),
        _ => return None,
    };
    let known = usize::from(ended)
        + usize::from(stuck)
        + usize::from(halted)
        + usize::from(empty)
        + usize::from(same);
    if known != words.len() {
        return None;
    }
    Some(Requirements { rest, empty, same })
}

/// The first value whose words are refused by themselves, or else the last one.
pub(crate) fn refused_in<'a>(alloc: Global, values: &[&'a str]) -> Result<&'a str, AllocError> {
    for value in values {
        if required_by(&required_words(alloc, &[value])?).is_none() {
            return Ok(value);
        }
    }
    Ok(values.last().copied().unwrap_or_default())
}

/// Whether `out` and `left` stand among words, if these are no others, and each is there once.
pub(crate) fn shown_by(words: &[&str]) -> Option<(bool, bool)>
    ensures some { IfSome result (λ shown.
        AreShown (map (λ w. w.now) words.now) shown.0 shown.1) }
    ensures none { result ≡ None → (out left : Bool)
        → AreShown (map (λ w. w.now) words.now) out left → ⊥ }
{
    let out = stands("out", words)?;
    let left = stands("left", words)?;
    if usize::from(out) + usize::from(left) != words.len() {
        return None;
    }
    Some((out, left))
}
