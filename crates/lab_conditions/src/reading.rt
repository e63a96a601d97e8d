//! Reading conditions.
ghost use Rattle.std.specs.Prelude.{◌≡◌, None, Some, Err, IfOk, map, string_bytes, codes, ◌<◌, position, length, IfSome};
ghost use Rattle.lab_conditions.specs.declared.reading.ReadFault.TheVariants.{NoCondition, NoMemory};
ghost use Rattle.std.specs.Option.{option_map, option_and_then};
ghost use Rattle.lab_conditions.specs.Written.{words, parts_in, condition_in, spaced, relation_in, state_in, compared_in, name_of, state_of_some, processes_in, part_in, is_word, number_in, process_in, hexadecimal_in, address_in, is_dash, from_to, range_in};
ghost use Rattle.ipc_names.specs.Name.{name_read};
ghost use Rattle.lab_conditions.specs.declared.condition.Part.TheVariants.{Semaphore, Queue};
ghost use Rattle.std.specs.List.{slice_split};

use crate::{Condition, Part, Relation, State};
use ipc_names::Name;
use lc3_word::unsigned;
use std::alloc::{AllocError, AllocFailed, Global};
use std::fmt::Write;
use thiserror::Error;

/// Why a text is read as no condition.
#[derive(Clone, Copy, Debug, PartialEq, Eq, Error)]
pub enum ReadFault {
    /// It writes none.
    #[error("no condition")]
    NoCondition,
    /// Memory was refused.
    #[error("out of memory")]
    NoMemory,
}

impl From<AllocError> for ReadFault {
    ghost from_gives = { λ _ e. e ≡ NoMemory };

    fn from(_refused: AllocError) -> ReadFault {
        ReadFault::NoMemory
    }
}

impl<T: Drop> From<AllocFailed<T>> for ReadFault {
    ghost from_gives = { λ _ e. e ≡ NoMemory };

    fn from(_refused: AllocFailed<T>) -> ReadFault {
        ReadFault::NoMemory
    }
}

fn read_parts(alloc: Global, pieces: &[&[&str]]) -> Result<Option<Vec<Part>>, AllocError>
    ensures value { IfOk result (λ parts. option_map (λ v. v.items) parts
        ≡ parts_in (map (λ piece. map (λ word. word.now) piece.now) pieces.now)) }
{
    let mut parts = Vec::new(alloc);
    for piece in pieces {
        match read_part(alloc, piece)? {
            Some(part) => parts.push(part)?,
            None => return Ok(None),
        }
    }
    Ok(Some(parts))
}

impl Condition {
    /// The condition that a text writes: parts with `and` between them, each of words with blanks
    /// between them. A part is `sem NAME > N` or `mq NAME > N`, also with `<` or `=`; a process and a
    /// state; or a state, behind which `> N` may stand. A state is `blocked`, `ended`, `crashed`,
    /// `at A` or `at A-B`. N is decimal, at most 65,535, and addresses are `x` and one to four
    /// hexadecimal digits, the first not above the second.
    pub fn read(alloc: Global, text: &str) -> Result<Condition, ReadFault>
        ensures ok { IfOk result (λ c. condition_in text.now ≡ Some c.parts.items) }
        ensures text { IfOk result (λ c. string_bytes c.text ≡ spaced (words text.now)) }
        ensures none { result ≡ Err NoCondition → condition_in text.now ≡ None }
    {
        let words = words_of(alloc, text)?;
        let pieces = and_apart(alloc, &words)?;
        let Some(parts) = read_parts(alloc, &pieces)? else {
            return Err(ReadFault::NoCondition);
        };
        let text = spaced(alloc, &words)?;
        Ok(Condition { text, parts })
    }
}

/// `>`, `<` or `=`
#[tactic(auto, unfolding(crate::specs::Written::relation_in))]
fn relation_in(word: &str) -> Option<Relation>
    ensures value { result ≡ relation_in word.now }
{
    if is_word(">", word) {
        Some(Relation::More)
    } else if is_word("<", word) {
        Some(Relation::Less)
    } else {
        is_word("=", word).then_some(Relation::Equal)
    }
}

fn name_in(alloc: Global, word: &str) -> Result<Option<Name>, AllocError>
    ensures name { IfOk result (λ name. name ≡ name_of (name_read word.now)) }
{
    let mut words = Vec::new(alloc);
    for byte in word.as_bytes() {
        words.push(u16::from(*byte))?;
    }
    Ok(Name::read(alloc, &words)?.ok())
}

/// A name, how a number stands to another, and the other.
type Compared = (Name, Relation, u16);

/// `NAME > N`, `NAME < N` or `NAME = N`
fn read_compared(alloc: Global, words: &[&str]) -> Result<Option<Compared>, AllocError>
    ensures value { IfOk result (λ read. read ≡ compared_in (map (λ word. word.now) words.now)) }
{
    let [name, sign, number] = words else {
        return Ok(None);
    };
    let Some(name) = name_in(alloc, name)? else {
        return Ok(None);
    };
    let (Some(relation), Some(value)) = (relation_in(sign), number_in(number)) else {
        return Ok(None);
    };
    Ok(Some((name, relation, value)))
}

/// `blocked`, `ended`, `crashed`, `at A` or `at A-B`, with the words behind it
fn read_state<'a, 'b>(words: &'a [&'b str]) -> Option<(State, &'a [&'b str])>
    ensures value { option_map (λ front. (front.0, map (λ word. word.now) front.1.now)) result
        ≡ state_in (map (λ word. word.now) words.now) }
{
    let (word, rest) = words.split_first()?;
    if is_word("blocked", word) {
        return Some((State::Blocked, rest));
    }
    if is_word("ended", word) {
        return Some((State::Ended, rest));
    }
    if is_word("crashed", word) {
        return Some((State::Crashed, rest));
    }
    if is_word("at", word) {
        let (word, rest) = rest.split_first()?;
        return Some((range_in(word)?, rest));
    }
    None
}

/// A state of some process, or behind it `> N`
fn read_state_of_some(words: &[&str]) -> Option<Part>
    ensures value { result
        ≡ option_and_then state_of_some (state_in (map (λ word. word.now) words.now)) }
{
    let (state, rest) = read_state(words)?;
    match rest {
        [] => Some(Part::MoreThan { state, number: 0 }),
        [sign, number] if is_word(">", sign) => Some(Part::MoreThan {
            state,
            number: number_in(number)?,
        }),
        _ => None,
    }
}

fn read_processes(words: &[&str]) -> Option<Part>
    ensures value { result ≡ processes_in (map (λ word. word.now) words.now) }
{
    let (word, rest) = words.split_first()?;
    match process_in(word) {
        Some(process) => {
            let (state, rest) = read_state(rest)?;
            rest.is_empty().then_some(Part::Of { process, state })
        }
        None => read_state_of_some(words),
    }
}

#[tactic(auto, unfolding(crate::specs::Written::part_in))]
fn read_part(alloc: Global, words: &[&str]) -> Result<Option<Part>, AllocError>
    ensures value { IfOk result (λ part. part ≡ part_in (map (λ word. word.now) words.now)) }
{
    let Some((word, rest)) = words.split_first() else {
        return Ok(None);
    };
    if is_word("sem", word) {
        let read = read_compared(alloc, rest)?;
        return Ok(read.map(|(name, relation, value)| Part::Semaphore {
            name,
            relation,
            value,
        }));
    }
    if is_word("mq", word) {
        let read = read_compared(alloc, rest)?;
        return Ok(read.map(|(name, relation, value)| Part::Queue {
            name,
            relation,
            value,
        }));
    }
    Ok(read_processes(words))
}

pub(crate) fn words_of(alloc: Global, text: &str) -> Result<Vec<&str>, AllocError>
    ensures words { IfOk result (λ found. map (λ word. word.now) found.items ≡ words text.now) }
{
    text.split(' ')
        .filter(|piece| !piece.is_empty())
        .collect(alloc)
}

#[tactic(auto, unfolding(crate::specs::Written::is_word))]
pub(crate) fn is_word(name: &str, word: &str) -> bool
    ensures value { result ≡ is_word name.now word.now }
{
    name == word
}

pub(crate) fn spaced(alloc: Global, words: &[&str]) -> Result<String, AllocError>
    ensures text { IfOk result (λ text.
        string_bytes text ≡ spaced (map (λ word. word.now) words.now)) }
{
    let mut text = String::new(alloc);
    let Some((first, rest)) = words.split_first() else {
        return Ok(text);
    };
    text.push_str(first)?;
    for word in rest {
        write!(text, " {word}")?;
    }
    Ok(text)
}

/// What stands between the words `and`.
fn and_apart<'a, 'b>(alloc: Global, words: &'a [&'b str]) -> Result<Vec<&'a [&'b str]>, AllocError>
    ensures pieces { IfOk result (λ pieces.
        map (λ piece. map (λ word. word.now) piece.now) pieces.items
        ≡ slice_split (is_word (codes "and")) (map (λ word. word.now) words.now)) }
{
    words.split(|word| is_word("and", word)).collect(alloc)
}

/// A number, 0 to 65,535.
#[tactic(auto, unfolding(crate::specs::Written::number_in))]
fn number_in(word: &str) -> Option<u16>
    ensures value { result ≡ number_in word.now }
{
    u16::try_from(unsigned(10, word.as_bytes())?).ok()
}

#[tactic(auto, unfolding(crate::specs::Written::process_in))]
pub(crate) fn process_in(word: &str) -> Option<usize>
    ensures value { result ≡ process_in word.now }
{
    Some(unsigned(10, word.as_bytes())? as usize)
}

/// An address: `x`, and one to four hexadecimal digits.
#[tactic(auto, using(crate::proofs::AddressLemmas::address_small, crate::proofs::AddressLemmas::hexadecimal_here), unfolding(crate::specs::Written::address_in, crate::specs::Written::hexadecimal_in))]
fn address_in(word: &[u8]) -> Option<u16>
    ensures value { result ≡ address_in word.now }
{
    let (first, digits) = word.split_first()?;
    if *first != b'x' || digits.len() > 4 {
        return None;
    }
    Some(unsigned(16, digits)? as u16)
}

fn from_to(first: u16, last: u16) -> Option<State>
    ensures value { result ≡ from_to first last }
{
    (first <= last).then_some(State::At { first, last })
}

fn dash(word: &[u8]) -> Option<usize>
    ensures place { result ≡ position is_dash word.now }
    ensures within { IfSome result (λ i. i < length word.now) }
{
    word.iter().position(|byte| *byte == b'-')
}

/// `A`, or `A-B`
#[tactic(auto, unfolding(crate::specs::Written::range_in))]
fn range_in(word: &str) -> Option<State>
    ensures value { result ≡ range_in word.now }
{
    let word = word.as_bytes();
    let Some(dash) = dash(word) else {
        let address = address_in(word)?;
        return from_to(address, address);
    };
    let first = address_in(&word[..dash])?;
    let last = address_in(&word[dash + 1..])?;
    from_to(first, last)
}
