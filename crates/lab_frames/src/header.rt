//! The header lines of a frame.
ghost use Rattle.std.specs.Prelude.{◌≡◌, ◌==◌, ◌<◌, ◌≤◌, ◌^◌, IfOk, IfErr, IfSome, IsTrue, length};
ghost use Rattle.std.specs.List.{prefix_len, position_or_len};
ghost use Rattle.std.specs.Io.KnownBytes.{Consumes, Keeps};
ghost use Rattle.lab_frames.specs.Headers.{is_blank, is_text, number_after, as_length, length_of_word, length_begun, length_named, names_length, field_at, field_of};
ghost use Rattle.lab_frames.specs.Frames.{without_return, known_after};
ghost use Rattle.lab_frames.specs.Taking.{Stops};
ghost use Rattle.lab_frames.specs.Private.Parts.{TakesByte, TakesHeader};

use crate::reading::FrameFault;
use lab_io::{Failed, Input};
use std::alloc::Global;
use std::io::Read;

/// The most bytes of the header lines of a frame, with their line feeds and the empty line.
pub const HEADER_LIMIT: usize = 4096;

/// A length is below ten times this.
const LENGTH_LIMIT: u64 = 100_000_000_000_000;

/// What a header line says.
#[derive(Clone, Copy, Debug, PartialEq, Eq)]
pub enum Field {
    /// How many bytes the body has.
    Length(u64),
    /// Something that no reader of frames needs.
    Other,
    /// It is no header line, or its length is none.
    Bad,
}

fn is_blank(byte: u8) -> bool
    ensures value { result ≡ is_blank byte }
{
    byte == b' ' || byte == b'\t'
}

fn blanks_len(text: &[u8]) -> usize
    ensures count { result ≡ prefix_len is_blank text.now }
    ensures within { result ≤ length text.now }
{
    text.iter().take_while(|byte| is_blank(**byte)).count()
}

fn word_len(text: &[u8]) -> usize
    ensures count { result ≡ prefix_len is_text text.now }
    ensures within { result ≤ length text.now }
{
    text.iter().take_while(|byte| !is_blank(**byte)).count()
}

fn name_len(line: &[u8]) -> usize
    ensures count { result ≡ position_or_len (λ b. b == 58) line.now }
    ensures within { result ≤ length line.now }
{
    line.iter().take_while(|byte| **byte != b':').count()
}

/// The number that a word of at most 15 digits writes.
fn number_of(word: &[u8]) -> Option<u64>
    ensures value { result ≡ number_after 0 word.now }
{
    let mut number = 0;
    for digit in word {
        if !digit.is_ascii_digit() {
            return None;
        }
        if number >= LENGTH_LIMIT {
            return None;
        }
        number = number * 10 + u64::from(*digit - b'0');
    }
    Some(number)
}

fn length_of_word(word: &[u8], behind: &[u8]) -> Field
    ensures value { result ≡ length_of_word word.now behind.now }
{
    if word.is_empty() || blanks_len(behind) < behind.len() {
        return Field::Bad;
    }
    match number_of(word) {
        Some(length) => Field::Length(length),
        None => Field::Bad,
    }
}

#[tactic(auto, unfolding(crate::specs::Headers::length_named))]
fn length_named(value: &[u8]) -> Field
    ensures value { result ≡ length_named value.now }
{
    let value = &value[blanks_len(value)..];
    let (word, behind) = value.split_at(word_len(value));
    length_of_word(word, behind)
}

#[tactic(auto, unfolding(crate::specs::Headers::names_length))]
fn names_length(name: &[u8]) -> bool
    ensures value { result ≡ names_length name.now }
{
    name.eq_ignore_ascii_case(b"content-length")
}

/// What a header line says.
#[tactic(auto, unfolding(crate::specs::Headers::field_of))]
fn field_of(line: &[u8]) -> Field
    ensures value { result ≡ field_of line.now }
{
    let end = name_len(line);
    if end == line.len() {
        Field::Bad
    } else if names_length(&line[..end]) {
        length_named(&line[end + 1..])
    } else {
        Field::Other
    }
}

/// A line without the carriage return at its end.
fn without_return(line: &[u8]) -> &[u8]
    ensures value { result.now ≡ without_return line.now }
{
    match line {
        [text @ .., b'\r'] => text,
        _ => line,
    }
}

/// The length that is known behind a line: one line names it.
fn known_after(known: Option<u64>, field: Field) -> Option<Option<u64>>
    ensures value { result ≡ known_after known field }
{
    match (known, field) {
        (known, Field::Other) => Some(known),
        (None, Field::Length(length)) => Some(Some(length)),
        (Some(_), Field::Length(_)) | (_, Field::Bad) => None,
    }
}

/// The next byte, or none at the end.
fn next_byte<R: Read>(input: &mut Input<R>) -> Result<Option<u8>, Failed>
    ensures byte { IfOk result (λ next. TakesByte (R.remaining input.old.device)
        (R.remaining input.new.device) next) }
    ensures err { IfErr result (λ _. IsTrue input.new.failed) }
{
    let mut bytes = [0; 1];
    let count = input.read(&mut bytes)?;
    if count == 0 {
        Ok(None)
    } else {
        Ok(Some(bytes[0]))
    }
}

/// Takes the header lines of a frame, and gives the length that they name; none where no byte comes.
pub(crate) fn take_header<R: Read>(
    alloc: Global,
    input: &mut Input<R>,
) -> Result<Option<u64>, FrameFault>
    ensures header { IfOk result (λ found. TakesHeader (R.remaining input.old.device)
        (R.remaining input.new.device) found) }
    ensures small { IfOk result (λ found. IfSome found (λ n. n < 2 ^ 64)) }
    ensures err { IfErr result (λ e.
        Stops e (R.remaining input.old.device) input.new.failed) }
{
    let mut line = Vec::new(alloc);
    let mut known = None;
    for taken in 0..HEADER_LIMIT {
        let Ok(next) = next_byte(input) else {
            return Err(FrameFault::Read);
        };
        let Some(byte) = next else {
            return if taken == 0 {
                Ok(None)
            } else {
                Err(FrameFault::CutShort)
            };
        };
        if byte != b'\n' {
            line.push(byte)?;
            continue;
        }
        let text = without_return(&line);
        if text.is_empty() {
            return match known {
                Some(length) => Ok(Some(length)),
                None => Err(FrameFault::BadHeader),
            };
        }
        match known_after(known, field_of(text)) {
            Some(length) => known = length,
            None => return Err(FrameFault::BadHeader),
        }
        line.clear();
    }
    Err(FrameFault::BadHeader)
}
