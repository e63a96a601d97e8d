//! Words in the place of a label or of an operation.

use crate::characters::{Excerpt, picture};
use crate::parts::{Part, Remark};
use crate::source::{Place, line_of};
use lc3_asm::{LABEL_LENGTH, Token, is_label, register, token_operation, without_colon};
use lc3_spelling::{OPERATIONS, shown, suggestion};
use lc3_warnings::call_named;
use lc3_word::number_of;
use std::alloc::{AllocError, Global};
use std::fmt;

/// A word without the `:` that may end a label.
pub fn name_of(word: &str) -> &str {
    word.get(..without_colon(word.as_bytes()).len())
        .unwrap_or(word)
}

pub(crate) fn bad_label(place: Place<'_>) -> Result<String, AllocError> {
    let alloc = place.source.alloc;
    let name = name_of(place.part.word);
    let said = match name.as_bytes() {
        [] => return String::from_str(alloc, "write : directly after a label"),
        bytes if is_label(bytes) => return String::from_str(alloc, ".ORIG takes no label"),
        bytes if is_number(bytes) => " is a number, so it can't be a label",
        bytes if is_register(bytes) => " is a register, so it can't be a label",
        bytes if is_operation(bytes) => NO_LABEL_BUT_OPERATION,
        [b'/' | b'#' | b'*', ..] => " isn't a label; a comment begins with ;",
        [b'0'..=b'9', ..] => " isn't a label; a label begins with a letter or _",
        _ => {
            let shown = Excerpt(name);
            let mut characters = name.chars();
            return match characters.find(|it| !it.is_ascii_alphanumeric() && *it != '_') {
                Some(character) => format!(in alloc;
                    "{shown} isn't a label; a label has only letters, digits and _, not {}",
                    picture(character)
                ),
                None => format!(in alloc;
                    "{shown} isn't a label; it has {} characters, and a label has at most {LABEL_LENGTH}",
                    name.len()
                ),
            };
        }
    };
    said_of(alloc, name, said)
}

fn no_operation(alloc: Global, part: Part<'_>, meant: Option<&str>) -> Result<Remark, AllocError> {
    let (word, mean) = (Excerpt(part.word), DidYouMean(meant));
    let text = match vector_named(alloc, part.word)? {
        Some(vector) => format!(in alloc;
            "{word} isn't an operation; the call is TRAP x{vector:02X}"
        ),
        None => format!(in alloc; "{word} is neither an operation nor a directive{mean}"),
    };
    Ok(part.remark(text?))
}

/// The vector of the call of this name, in small or capital letters.
pub(crate) fn vector_named(alloc: Global, word: &str) -> Result<Option<u8>, AllocError> {
    let name = upper(alloc, word.as_bytes())?;
    Ok(call_named(&name))
}

/// What is said of an operand behind the first word of a line, which was meant as this operation.
fn operand_behind(
    place: Place<'_>,
    second: Part<'_>,
    meant: Option<&str>,
) -> Result<Remark, AllocError> {
    let alloc = place.source.alloc;
    let word = place.part.word;
    let as_which = match second.token {
        _ if meant.is_some() => None,
        Token::Word(number) if is_number(number) => Some(", as .FILL before a number"),
        Token::Word(_) => word.ends_with(':').then_some(""),
        Token::Quoted(_) | Token::Unclosed => Some(", as .STRINGZ before a string"),
    };
    let Some(as_which) = as_which else {
        return no_operation(alloc, place.part, meant);
    };
    let text = format!(in alloc;
        "expected an operation or a directive after the label {}{as_which}",
        Excerpt(name_of(word))
    )?;
    Ok(second.remark(text))
}

pub(crate) fn bad_operation(place: Place<'_>) -> Result<Remark, AllocError> {
    let alloc = place.source.alloc;
    let first = place.part;
    let Token::Word(word) = first.token else {
        let text = String::from_str(
            alloc,
            "a string can't begin a statement; expected a label, an operation or a directive",
        )?;
        return Ok(first.remark(text));
    };
    let second = match place.parts.get(1) {
        Some(second) if word.first() != Some(&b'.') => *second,
        _ => return no_operation(alloc, first, operation_meant(alloc, first.word)?),
    };
    let meant = if first.word.ends_with(':') {
        None
    } else {
        operation_meant(alloc, first.word)?
    };
    match second.token {
        Token::Word(word) if !is_number(word) && !is_register(word) => {
            let second_meant = operation_meant(alloc, second.word)?;
            let line = line_of(alloc, &place.source.labels.definitions, second.word)?;
            if meant.is_some() && (line.is_some() || second_meant.is_none()) {
                no_operation(alloc, first, meant)
            } else {
                no_operation(alloc, second, second_meant)
            }
        }
        _ => operand_behind(place, second, meant),
    }
}

pub(crate) fn upper(alloc: Global, word: &[u8]) -> Result<String, AllocError> {
    word.iter()
        .map(|byte| char::from(byte.to_ascii_uppercase()))
        .collect(alloc)
}

pub(crate) fn is_operation(word: &[u8]) -> bool {
    token_operation(Token::Word(word)).is_some()
}

fn is_number(word: &[u8]) -> bool {
    number_of(word).is_some()
}

pub(crate) fn is_register(word: &[u8]) -> bool {
    register(word).is_some()
}

/// The one of these names, in upper case, that a word was meant to be, if it is spelled nearly like one.
pub(crate) fn name_meant<'a>(
    alloc: Global,
    word: &str,
    names: &[&'a str],
) -> Result<Option<&'a str>, AllocError> {
    let place = suggestion(alloc, &upper(alloc, word.as_bytes())?, names)?;
    Ok(place.and_then(|place| names.get(place).copied()))
}

/// The operation or directive that a word was meant to name, if it is spelled nearly like one.
fn operation_meant(alloc: Global, word: &str) -> Result<Option<&'static str>, AllocError> {
    Ok(name_meant(alloc, word, &OPERATIONS)?.map(|name| shown(name)))
}

/// What is said of an operation in the place of a label, behind its name.
pub(crate) const NO_LABEL_BUT_OPERATION: &str = " is an operation, so it can't be a label";

pub(crate) fn said_of(alloc: Global, word: &str, said: &str) -> Result<String, AllocError> {
    format!(in alloc; "{}{said}", Excerpt(word))
}

/// What stands between a text and the name that was meant; a `?` ends both.
pub(crate) const DID_YOU_MEAN: &str = "; did you mean ";

/// The question behind a text whether a name was meant, if one is near.
#[derive(Clone, Copy)]
pub(crate) struct DidYouMean<'a>(pub Option<&'a str>);

impl fmt::Display for DidYouMean<'_> {
    fn fmt<W: fmt::Write>(&self, f: &mut fmt::Formatter<W>) -> fmt::Result {
        match self.0 {
            Some(name) => write!(f, "{DID_YOU_MEAN}{name}?"),
            None => Ok(()),
        }
    }
}

/// The number that a word was meant to be, written as the language has it.
pub(crate) fn number_meant(alloc: Global, word: &str) -> Result<Option<String>, AllocError> {
    match word.as_bytes() {
        [b'\'', character, b'\''] => Ok(Some(format!(in alloc; "x{character:02X}")?)),
        [b'#' | b'+' | b'0', rest @ ..] if is_number(rest) => {
            Ok(Some(String::from_str(alloc, word.get(1..).unwrap_or(""))?))
        }
        [b'-', b'0', b'x' | b'X', ..] => turned(alloc, word, 3),
        [b'-', b'#' | b'x' | b'X' | b'b' | b'B', ..] => turned(alloc, word, 2),
        _ => Ok(None),
    }
}

/// A word with its minus behind the prefix that ends here, where that is a number.
fn turned(alloc: Global, word: &str, end: usize) -> Result<Option<String>, AllocError> {
    let prefix = word.get(1..end).unwrap_or("");
    let digits = word.get(end..).unwrap_or("");
    let signed = format!(in alloc; "{prefix}-{digits}")?;
    let is_number = is_number(signed.as_bytes());
    Ok(if is_number { Some(signed) } else { None })
}
