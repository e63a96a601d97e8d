//! The values of `--require`, cut at their commas.
ghost use Rattle.std.specs.Prelude.{◌≡◌, ◌<◌, ◌++◌, [], ◌∷◌, filter, flat_map, map, length, IfNone, IfOk, IfSome, IsTrue, OnOk, position};
ghost use Rattle.lab_arguments.specs.Pieces.{behind, cuts, cut_pieces, is_no_blank, is_no_digit, from, is_of_calls, is_output, words_of, words_in};
ghost use Rattle.lab_arguments.specs.Private.Outputs.{outputs_of};
ghost use Rattle.lab_arguments.specs.Private.Requirements.{outputs_in};

use std::alloc::{AllocError, Global};

/// Where a byte of a value stands.
#[derive(Clone, Copy)]
enum Place {
    Outside,
    /// Between double quotes.
    Between,
    /// There behind a backslash.
    Escaped,
}

impl Place {
    /// Where the byte stands that follows one here.
    fn behind(self, byte: u8) -> Place
        ensures value { result ≡ behind self byte }
    {
        match (self, byte) {
            (Place::Outside, b'"') => Place::Between,
            (Place::Outside, _) => Place::Outside,
            (Place::Between, b'"') => Place::Outside,
            (Place::Between, b'\\') => Place::Escaped,
            (Place::Between, _) | (Place::Escaped, _) => Place::Between,
        }
    }

    /// Whether a byte here is a comma outside of quotes.
    fn cuts(self, byte: u8) -> bool
        ensures value { result ≡ cuts self byte }
        ensures comma { IsTrue result → byte ≡ 44 }
    {
        match self {
            Place::Outside => byte == b',',
            Place::Between | Place::Escaped => false,
        }
    }
}

/// What stands before the first comma outside of quotes, and what behind it, if there is one.
fn cut(text: &str) -> Option<(&str, &str)>
    ensures none { IfNone result (cut_pieces text.now ≡ text.now ∷ []) }
    ensures parts { IfSome result (λ parts.
        cut_pieces text.now ≡ parts.0.now ∷ cut_pieces parts.1.now) }
    ensures shorter { IfSome result (λ parts. length parts.1.now < length text.now) }
{
    let bytes = text.as_bytes();
    let mut place = Place::Outside;
    for at in 0..bytes.len() {
        if place.cuts(bytes[at]) {
            return Some((&text[..at], &text[at + 1..]));
        }
        place = place.behind(bytes[at]);
    }
    None
}

fn no_digit(text: &[u8]) -> Option<usize>
    ensures place { result ≡ position is_no_digit text.now }
    ensures within { IfSome result (λ i. i < length text.now) }
{
    text.iter().position(|byte| !(48 <= *byte && *byte <= 57))
}

/// What follows the decimal digits with which a text begins.
fn behind_digits(text: &[u8]) -> &[u8]
    ensures rest { result.now ≡ from (position is_no_digit text.now) text.now }
{
    match no_digit(text) {
        Some(place) => &text[place..],
        None => &[],
    }
}

fn no_blank(text: &[u8]) -> Option<usize>
    ensures place { result ≡ position is_no_blank text.now }
    ensures within { IfSome result (λ i. i < length text.now) }
{
    text.iter().position(|byte| *byte != 32)
}

/// What follows the blanks with which a text begins.
fn behind_blanks(text: &[u8]) -> &[u8]
    ensures rest { result.now ≡ from (position is_no_blank text.now) text.now }
{
    match no_blank(text) {
        Some(place) => &text[place..],
        None => &[],
    }
}

/// Whether a text says what is asked of calls.
pub fn is_of_calls(text: &str) -> bool
    ensures value { result ≡ is_of_calls text.now }
{
    let words = behind_blanks(behind_digits(behind_blanks(text.as_bytes())));
    words.starts_with(b"calls ") || words.starts_with(b"holds ")
}

/// The pieces of a value between its commas outside of quotes.
fn pieces_of<'a>(alloc: Global, value: &'a str) -> Result<Vec<&'a str>, AllocError>
    ensures pieces { IfOk result (λ found. map (λ p. p.now) found.items ≡ cut_pieces value.now) }
{
    let mut found = Vec::new(alloc);
    let mut rest = value;
    while let Some((piece, after)) = cut(rest) {
        found.push(piece)?;
        rest = after;
    }
    found.push(rest)?;
    Ok(found)
}

/// Whether a piece says what is required of an output.
fn is_output(piece: &str) -> bool
    ensures value { result ≡ is_output piece.now }
{
    piece.as_bytes().starts_with(b"out ")
}

/// The pieces of a value that say what is required of outputs, or the value itself where it asks of calls.
fn outputs_of<'a>(alloc: Global, value: &'a str) -> Result<Vec<&'a str>, AllocError>
    ensures outputs { IfOk result (λ found.
        map (λ p. p.now) found.items ≡ outputs_of value.now) }
{
    if is_of_calls(value) {
        let mut whole = Vec::new(alloc);
        whole.push(value)?;
        return Ok(whole);
    }
    let mut pieces = pieces_of(alloc, value)?;
    pieces.retain(|piece| is_output(piece));
    Ok(pieces)
}

/// The other pieces of a value, unless it asks of calls.
fn words_of<'a>(alloc: Global, value: &'a str) -> Result<Vec<&'a str>, AllocError>
    ensures words { IfOk result (λ found. map (λ p. p.now) found.items ≡ words_of value.now) }
{
    if is_of_calls(value) {
        return Ok(Vec::new(alloc));
    }
    let mut pieces = pieces_of(alloc, value)?;
    pieces.retain(|piece| !is_output(piece));
    Ok(pieces)
}

/// What the values of `--require` say of outputs and calls. What is asked of calls is a whole value.
pub(crate) fn outputs_in<'a>(alloc: Global, values: &[&'a str]) -> Result<Vec<&'a str>, AllocError>
    ensures outputs { IfOk result (λ found. map (λ p. p.now) found.items
        ≡ outputs_in (map (λ v. v.now) values.now)) }
{
    let mut found = Vec::new(alloc);
    for value in values {
        found.append(&mut outputs_of(alloc, value)?)?;
    }
    Ok(found)
}

/// The words of the values of `--require`: what stands between commas and says nothing of outputs, unless a value asks of calls.
pub fn required_words<'a>(alloc: Global, values: &[&'a str]) -> Result<Vec<&'a str>, AllocError>
    ensures words { IfOk result (λ found. map (λ p. p.now) found.items
        ≡ words_in (map (λ v. v.now) values.now)) }
{
    let mut found = Vec::new(alloc);
    for value in values {
        found.append(&mut words_of(alloc, value)?)?;
    }
    Ok(found)
}
