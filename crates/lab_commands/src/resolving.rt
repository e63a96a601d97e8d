//! Conditions with addresses in the place of labels, and conditions that speak of labels of no process, as such that name
//! processes.
ghost use Rattle.std.specs.Prelude.{IfOk};
ghost use Rattle.lab_commands.specs.Asking.{IsNeeded};

use crate::advice::{reached, unknown, words_of};
use crate::complaint::{Complaint, Misuse};
use crate::labels::{Labelled, has_label, is_labelled, span_in};
use crate::places::Place;
use lab_arguments::Shown;
use lab_questions::OutputNeed;
use lab_sources::Source;
use lc3_word::unsigned;
use std::alloc::{AllocError, Global};
use std::fmt::Write;

/// The most conditions that one stands for.
const MOST_CONDITIONS: usize = 1_000;

/// A condition with an address in the place of each word that has labels: what it is where nobody knows yet for which
/// addresses they stand.
pub(crate) fn outlined(alloc: Global, text: &str) -> Result<String, AllocError> {
    let mut words = words_of(alloc, text)?;
    for at in 1..words.len() {
        if words[at - 1] == "at" && is_labelled(words[at]) {
            words[at] = "x0";
        }
    }
    words.join(alloc, " ")
}

impl<'a> Labelled<'_, 'a> {
    /// A condition with addresses in the place of each word that has labels: those of the process that stands before the `at`,
    /// or, where none does, of the first one.
    pub(crate) fn resolved(&self, text: &str) -> Result<String, Complaint<'a>> {
        let words = words_of(self.alloc, text)?;
        let mut resolved = String::new(self.alloc);
        for at in 0..words.len() {
            if at > 0 {
                resolved.push_str(" ")?;
            }
            let word = words[at];
            let pid = match &words[..at] {
                [.., process, "at"] if has_label(word) => {
                    unsigned(10, process.as_bytes()).unwrap_or(0) as usize
                }
                ["at"] if has_label(word) => 0,
                _ => {
                    resolved.push_str(word)?;
                    continue;
                }
            };
            match span_in(self.sources, pid, word) {
                Some(span) => write!(resolved, "{span}")?,
                None => return Err(self.not_in(pid, word)),
            }
        }
        Ok(resolved)
    }

    /// The conditions of which one holds where the word holds. Where a part of it says that more than some number of processes
    /// stand at labels, and these have not the same addresses in each process, there is one for each such group of processes,
    /// each at its own labels. Else it is the condition alone.
    pub(crate) fn spread(&self) -> Result<Vec<String>, Complaint<'a>> {
        let words = words_of(self.alloc, self.word)?;
        let mut texts = vec![in self.alloc; String::new(self.alloc)]?;
        for part in words.split(|word| *word == "and") {
            texts = self.joined(&texts, part)?;
        }
        Ok(texts)
    }

    /// Each of some texts with what a part of a condition says of each group of processes behind it, where it speaks of some
    /// without naming them: the fewest, at labels.
    fn joined(&self, texts: &[String], part: &[&str]) -> Result<Vec<String>, Complaint<'a>> {
        let groups = match part {
            ["at", place] if is_spread(self.sources, place) => self.groups_at(place, 1)?,
            ["at", place, ">", number] if is_spread(self.sources, place) => {
                let most = unsigned(10, number.as_bytes()).unwrap_or(0).min(65_535);
                self.groups_at(place, (most as usize).saturating_add(1))?
            }
            _ => vec![in self.alloc; part.join(self.alloc, " ")?]?,
        };
        let mut joined = Vec::new(self.alloc);
        for text in texts {
            for group in &groups {
                joined.push(with_part(self.alloc, text, group)?)?;
            }
        }
        self.refuse_many(joined.len())?;
        Ok(joined)
    }

    fn refuse_many(&self, count: usize) -> Result<(), Complaint<'a>> {
        if count <= MOST_CONDITIONS {
            return Ok(());
        }
        let why = format_args!(
            "there are more than {MOST_CONDITIONS} groups of processes that it speaks of; name the processes"
        );
        Err(self.because(why, None))
    }

    /// What is said of each group of so many of the processes that have the labels of a place.
    fn groups_at(&self, place: &str, size: usize) -> Result<Vec<String>, Complaint<'a>> {
        let sources = self.sources;
        let holders: Vec<usize> = (0..sources.len())
            .filter(|pid| span_in(sources, *pid, place).is_some())
            .collect(self.alloc)?;
        let count = holders.len();
        if count == 0 {
            return Err(self.without_label(sources, place, "no process has this label"));
        }
        if count < size {
            let place = Shown(place);
            let why = format_args!("{place}: only {count} of the processes can be there");
            return Err(self.because(why, None));
        }
        let none = Group {
            text: String::new(self.alloc),
            last: None,
        };
        let mut groups = vec![in self.alloc; none]?;
        for _ in 0..size {
            groups = larger(self.alloc, &groups, &holders, place)?;
            self.refuse_many(groups.len())?;
        }
        let texts = groups.into_iter().map(|group| group.text);
        Ok(texts.collect(self.alloc)?)
    }
}

fn with_part(alloc: Global, text: &str, part: &str) -> Result<String, AllocError> {
    if text.is_empty() {
        String::from_str(alloc, part)
    } else {
        format!(in alloc; "{text} and {part}")
    }
}

/// Whether a place has labels that don't stand for the same addresses in each process.
fn is_spread(sources: &[Option<Source>], place: &str) -> bool {
    let first = span_in(sources, 0, place);
    has_label(place)
        && (first.is_none() || (0..sources.len()).any(|pid| span_in(sources, pid, place) != first))
}

/// Some processes that stand at a place, in ascending order.
#[derive(Drop)]
struct Group {
    text: String,
    last: Option<usize>,
}

/// Groups with one process more than these, which comes behind their last one.
fn larger(
    alloc: Global,
    groups: &[Group],
    holders: &[usize],
    place: &str,
) -> Result<Vec<Group>, AllocError> {
    let mut larger = Vec::new(alloc);
    for group in groups {
        for pid in holders.iter().filter(|pid| group.last < Some(**pid)) {
            let part = format!(in alloc; "{pid} at {place}")?;
            larger.push(Group {
                text: with_part(alloc, &group.text, &part)?,
                last: Some(*pid),
            })?;
        }
    }
    Ok(larger)
}

/// What a word requires of the outputs of so many processes, where it asks nothing of calls.
pub(crate) fn need_in<'a>(
    alloc: Global,
    word: &'a str,
    count: usize,
) -> Result<OutputNeed, Complaint<'a>>
    ensures need { IfOk result (IsNeeded word.now) }
{
    let Some(need) = OutputNeed::read(alloc, word)? else {
        return Err(Misuse::NoOutput.of(word).followed(advice_on(alloc, word)));
    };
    let alternatives = need.alternatives.iter();
    let mut parts = alternatives.flat_map(|alternative| alternative.parts.iter());
    if parts.any(|part| part.process >= count) {
        return Err(Misuse::NoSuchWriter.of(word));
    }
    Ok(need)
}

/// The line that says why a word requires nothing of an output, where memory allows it.
fn advice_on(alloc: Global, word: &str) -> Option<String> {
    let mut place = Place::Output;
    let mut left = word;
    for _ in 0..=word.len() {
        let (head, string) = match left.split_once('"') {
            Some((head, string)) => (head, Some(string)),
            None => (left, None),
        };
        match (reached(place, head), string) {
            ((None, Place::Text), Some(string)) => {
                let Some(rest) = behind_string(string) else {
                    return unknown(alloc, left.strip_prefix(head), Place::Text.text(), None);
                };
                left = rest;
                place = Place::Joint;
            }
            ((word, place), _) => return unknown(alloc, word, place.text(), None),
        }
    }
    None
}

/// What stands behind a string, where that goes on with `and` or `or`.
fn behind_string(string: &str) -> Option<&str> {
    let (characters, rest) = string.split_once('"')?;
    let joint = rest.split(' ').find(|piece| !piece.is_empty());
    let goes_on = !characters.ends_with('\\') && matches!(joint, Some("and" | "or"));
    goes_on.then_some(rest)
}
