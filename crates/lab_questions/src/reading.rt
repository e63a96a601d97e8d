//! Reading what is required of outputs.
ghost use Rattle.std.specs.Prelude.{◌≡◌, ◌<◌, ◌++◌, ℕ, List, [], ◌∷◌, Some, None, false, IfNone, IfOk, IfSome, IsTrue, OnOk, bytes_eq, length, map, string_bytes};
ghost use Rattle.std.specs.List.{before_first, after_first};
ghost use Rattle.std.specs.Option.{option_map};
ghost use Rattle.lab_questions.specs.Private.Readings.{ended, left};
ghost use Rattle.lab_questions.specs.Written.{is_quote, before, string_in, relation_in, process_in, subject_in, heading_in, front_in, need_in, part_read, parts_read, need_read};

use crate::{Alternative, OutputNeed, OutputPart, OutputRelation};
use lc3_table::{escape, is_string_byte};
use lc3_word::{unsigned, words_between};
use std::alloc::{AllocError, Global};
use std::mem::replace;

/// The first character of a string that isn't closed there, and what follows it.
fn first_character(text: &[u8]) -> Option<(u8, &[u8])>
    requires more { (rest : List ℕ) → text.now ≡ 34 ∷ rest → ⊥ }
    ensures none { IfNone result (string_in text.now ≡ None) }
    ensures first { IfSome result
        (λ found. string_in text.now ≡ before (Some found.0) (string_in found.1.now)) }
    ensures shorter { IfSome result (λ found. length found.1.now < length text.now) }
{
    match text {
        [b'\\', code, rest @ ..] => Some((escape(*code)?, rest)),
        [byte, rest @ ..] if *byte != b'\\' && is_string_byte(*byte) => Some((*byte, rest)),
        _ => None,
    }
}

/// The characters of a string, from what stands behind the quote that opens it, and what stands behind it.
fn string_in<'a>(alloc: Global, text: &'a [u8]) -> Result<Option<(Vec<u8>, &'a [u8])>, AllocError>
    ensures value { IfOk result (λ read.
        option_map (λ s. (s.0.items, s.1.now)) read ≡ string_in text.now) }
    ensures shorter { IfOk result (λ read. IfSome read (λ s. length s.1.now < length text.now)) }
{
    let mut bytes = Vec::new(alloc);
    let mut rest = text;
    while !matches!(rest, [b'"', ..]) {
        let Some((byte, after)) = first_character(rest) else {
            return Ok(None);
        };
        bytes.push(byte)?;
        rest = after;
    }
    Ok(Some((bytes, &rest[1..])))
}

#[tactic(auto, using(crate::proofs::ReadingLemmas::same_word, crate::proofs::ReadingLemmas::other_word))]
pub(crate) fn is_word(name: &str, word: &[u8]) -> bool
    ensures value { result ≡ bytes_eq name.now word.now }
    ensures same { IsTrue result → word.now ≡ name.now }
    ensures other { result ≡ false → name.now ≡ word.now → ⊥ }
{
    name.as_bytes() == word
}

fn relation_in(word: &[u8]) -> Option<OutputRelation>
    ensures relation { result ≡ relation_in word.now }
{
    if is_word("=", word) {
        Some(OutputRelation::Equals)
    } else if is_word("has", word) {
        Some(OutputRelation::Contains)
    } else {
        None
    }
}

pub(crate) fn process_in(word: &[u8]) -> Option<usize>
    ensures process { result ≡ process_in word.now }
{
    unsigned(10, word).map(|number| number as usize)
}

/// The process and the relation of words that begin with `out`.
fn subject_in(words: &[&[u8]]) -> Option<(usize, OutputRelation)>
    ensures subject { result ≡ subject_in (map (λ word. word.now) words.now) }
{
    match words {
        [name, process, relation] if is_word("out", name) => {
            Some((process_in(process)?, relation_in(relation)?))
        }
        _ => None,
    }
}

/// Whether the words before a string begin an alternative, and the process and the relation in them.
fn heading_in(first: bool, words: &[&[u8]]) -> Option<(bool, usize, OutputRelation)>
    ensures heading { result ≡ heading_in first (map (λ word. word.now) words.now) }
{
    let (begins, subject) = match words {
        _ if first => (true, words),
        [word, rest @ ..] if is_word("or", word) => (true, rest),
        [word, rest @ ..] if is_word("and", word) => (false, rest),
        _ => return None,
    };
    let (process, relation) = subject_in(subject)?;
    Some((begins, process, relation))
}

/// What stands before the first quote of a text, and what behind it.
#[tactic(auto, using(crate::proofs::ReadingLemmas::behind_none, crate::proofs::ReadingLemmas::before_quote, crate::proofs::ReadingLemmas::behind_quote))]
fn cut(text: &[u8]) -> Option<(&[u8], &[u8])>
    ensures none { IfNone result (after_first is_quote text.now ≡ []) }
    ensures head { IfSome result (λ cut. cut.0.now ≡ before_first is_quote text.now) }
    ensures string { IfSome result (λ cut. cut.1.now ≡ after_first is_quote text.now) }
    ensures shorter { IfSome result (λ cut. length cut.1.now < length text.now) }
{
    let place = text.iter().position(|byte| *byte == b'"')?;
    Some((&text[..place], &text[place + 1..]))
}

/// The first part of a text, and what stands behind it.
#[derive(Drop)]
struct Front<'a> {
    /// Whether it begins an alternative.
    begins: bool,
    part: OutputPart,
    rest: &'a [u8],
}

fn front_in<'a>(alloc: Global, first: bool, text: &'a [u8]) -> Result<Option<Front<'a>>, AllocError>
    ensures front { IfOk result (λ found.
        option_map (λ f. (f.begins, part_read f.part, f.rest.now)) found
        ≡ front_in first text.now) }
    ensures shorter { IfOk result (λ found. IfSome found (λ f.
        length f.rest.now < length text.now)) }
{
    let Some((head, string)) = cut(text) else {
        return Ok(None);
    };
    let words = words_between(alloc, b" ", head)?;
    let Some((begins, process, relation)) = heading_in(first, &words) else {
        return Ok(None);
    };
    let Some((bytes, rest)) = string_in(alloc, string)? else {
        return Ok(None);
    };
    let part = OutputPart {
        process,
        relation,
        bytes,
    };
    Ok(Some(Front { begins, part, rest }))
}

/// Adds a part to those of an alternative, or ends that and begins another with it.
fn add(
    alloc: Global,
    alternatives: &mut Vec<Alternative>,
    parts: &mut Vec<OutputPart>,
    begins: bool,
    part: OutputPart,
) -> Result<(), AllocError>
    ensures alternatives { OnOk result (need_read alternatives.new.items
        ≡ ended begins (need_read alternatives.old.items) (parts_read parts.old.items)) }
    ensures parts { OnOk result (parts_read parts.new.items
        ≡ left begins (parts_read parts.old.items) ++ part_read part ∷ []) }
{
    if !begins {
        parts.push(part)?;
        return Ok(());
    }
    let parts = replace(parts, vec![in alloc; part]?);
    alternatives.push(Alternative { parts })?;
    Ok(())
}

impl OutputNeed {
    /// What a text requires of outputs: `out P = "TEXT"`, or `out P has "TEXT"`, with the escapes that a string of a source
    /// has; more of these with `and` between them, and more of those with `or` between them.
    #[tactic(auto, using(crate::proofs::ReadingLemmas::need_init, crate::proofs::ReadingLemmas::need_step, crate::proofs::ReadingLemmas::need_none, crate::proofs::ReadingLemmas::need_end))]
    pub fn read(alloc: Global, text: &str) -> Result<Option<OutputNeed>, AllocError>
        ensures value { IfOk result (λ read.
            option_map (λ need. need_read need.alternatives.items) read ≡ need_in text.now) }
        ensures text { IfOk result (λ read.
            IfSome read (λ need. string_bytes need.text ≡ text.now)) }
    {
        let Some(Front { part, rest, .. }) = front_in(alloc, true, text.as_bytes())? else {
            return Ok(None);
        };
        let mut alternatives = Vec::new(alloc);
        let mut parts = vec![in alloc; part]?;
        let mut rest = rest;
        while !rest.is_empty() {
            let Some(next) = front_in(alloc, false, rest)? else {
                return Ok(None);
            };
            rest = next.rest;
            add(alloc, &mut alternatives, &mut parts, next.begins, next.part)?;
        }
        alternatives.push(Alternative { parts })?;
        let text = String::from_str(alloc, text)?;
        Ok(Some(OutputNeed { text, alternatives }))
    }
}
