//! What is advised where words are refused that write a condition, or a process that may wait.
use crate::labels::is_labelled;
use crate::places::Place;
use lab_arguments::Shown;
use lc3_word::unsigned;
use std::alloc::{AllocError, Global};
use std::fmt::Display;

/// The first word of a text that may not stand where it does, if there is one, and the place that is reached: the first word
/// stands at this one.
pub(crate) fn reached(first: Place, text: &str) -> (Option<&str>, Place) {
    let mut place = first;
    for word in text.split(' ').filter(|word| !word.is_empty()) {
        let (front, comma) = comma_apart(first, word);
        let Some(next) = place.behind(front) else {
            return (Some(front), place);
        };
        place = next;
        let Some(comma) = comma else {
            continue;
        };
        let Some(next) = place.behind(comma) else {
            return (Some(comma), place);
        };
        place = next;
    }
    (None, place)
}

/// A word of those that begin at this place, and the comma at its end, if that is a word of its own.
fn comma_apart(first: Place, word: &str) -> (&str, Option<&'static str>) {
    match word.strip_suffix(',') {
        Some(front) if first.asks_of_calls() && !front.is_empty() => (front, Some(",")),
        _ => (word, None),
    }
}

/// The line that says what isn't understood in a text of which the first word stands at this place, and what was meant, if that
/// is known, where memory allows it.
pub(crate) fn line_on(
    alloc: Global,
    first: Place,
    text: &str,
    meant: Option<&str>,
) -> Option<String> {
    let (word, place) = reached(first, text);
    let may_end = matches!(
        place,
        Place::Many | Place::And | Place::Error | Place::Nothing | Place::At
    );
    if word.is_none() && may_end {
        return None;
    }
    if let (Place::HeldAnd, None) = (place, word) {
        return advice_line(alloc, "holds takes up to eight names", None).ok();
    }
    let text = match (place, word) {
        (Place::Start, Some(word)) if OF_ENDS.contains(&word) => {
            "of ends --require is asked, as --require halted"
        }
        _ => place.text(),
    };
    unknown(alloc, word, text, meant)
}

/// Words that people write of ends, where a condition stands.
const OF_ENDS: [&str; 6] = ["stuck", "deadlock", "halted", "empty", "same", "endless"];

/// Says that a word isn't understood, or is missing, what may stand there, and what was meant, if that is known, where memory
/// allows it.
pub(crate) fn unknown(
    alloc: Global,
    word: Option<&str>,
    text: &str,
    meant: Option<&str>,
) -> Option<String> {
    let (word, fault) = match word {
        Some(word) => (word, ": isn't understood"),
        None => ("a word", " is missing at the end"),
    };
    let word = Shown(word);
    advice_line(alloc, format_args!("{word}{fault}; {text}"), meant).ok()
}

/// A line of advice, and in it what was meant, if that is known.
pub fn advice_line<F: Display + Drop>(
    alloc: Global,
    told: F,
    meant: Option<&str>,
) -> Result<String, AllocError> {
    match meant {
        Some(meant) => format!(in alloc; "lc3lab: {told}; did you mean {}?\n", Shown(meant)),
        None => format!(in alloc; "lc3lab: {told}\n"),
    }
}

pub(crate) fn words_of(alloc: Global, text: &str) -> Result<Vec<&str>, AllocError> {
    text.split(' ')
        .filter(|piece| !piece.is_empty())
        .collect(alloc)
}

/// What a text was meant to be that begins at this place, as far as each of its words can be taken for one that may stand where
/// it does.
pub(crate) fn meant_by(
    alloc: Global,
    first: Place,
    text: &str,
) -> Result<Option<String>, AllocError> {
    let spread = spread(alloc, text)?;
    let words = words_of(alloc, &spread)?;
    mended(alloc, first, &words)
}

/// A text with blanks around each run of `>`, `<` and `=`.
fn spread(alloc: Global, text: &str) -> Result<String, AllocError> {
    let mut spread = String::new(alloc);
    let mut in_sign = false;
    for character in text.chars() {
        let is_sign = matches!(character, '>' | '<' | '=');
        if is_sign != in_sign {
            spread.push(' ')?;
        }
        spread.push(character)?;
        in_sign = is_sign;
    }
    Ok(spread)
}

fn mended(alloc: Global, first: Place, words: &[&str]) -> Result<Option<String>, AllocError> {
    let mut text = String::new(alloc);
    let mut place = first;
    let mut before = "";
    for word in words {
        let meant = word_meant(alloc, place, before, word)?;
        if !text.is_empty() {
            text.push_str(" ")?;
        }
        text.push_str(&meant)?;
        let Some(next) = place.behind(&meant) else {
            return Ok(None);
        };
        place = next;
        before = word;
    }
    Ok(Some(text))
}

/// The word that was meant by one at a place. A number is changed as the sign before it asks; no word where no number is so.
fn word_meant(alloc: Global, place: Place, before: &str, word: &str) -> Result<String, AllocError> {
    match place {
        Place::Name => format!(in alloc; "/{}", word.strip_prefix('/').unwrap_or(word)),
        Place::Sign => {
            let sign = word.strip_suffix('=').filter(|sign| !sign.is_empty());
            String::from_str(alloc, sign.unwrap_or(word))
        }
        Place::Number => {
            let number = unsigned(10, word.as_bytes());
            let changed = match before {
                ">=" => number.and_then(|number| number.checked_sub(1)),
                "<=" => number.and_then(|number| number.checked_add(1)),
                _ => return String::from_str(alloc, word),
            };
            match changed {
                Some(number) => format!(in alloc; "{number}"),
                None => Ok(String::new(alloc)),
            }
        }
        Place::Address | Place::Anywhere | Place::WaitsAt => range_meant(alloc, word),
        Place::Error => word.to_ascii_uppercase(alloc),
        _ => word.to_ascii_lowercase(alloc),
    }
}

/// An address, or two, with an `x` before the digits; a word with labels as it is.
fn range_meant(alloc: Global, word: &str) -> Result<String, AllocError> {
    if is_labelled(word) {
        return String::from_str(alloc, word);
    }
    let small = word.to_ascii_lowercase(alloc)?;
    let meant = match small.split_once('-') {
        Some((first, last)) => format!(in alloc; "x{}-x{}", digits_of(first), digits_of(last))?,
        None => format!(in alloc; "x{}", digits_of(&small))?,
    };
    if is_labelled(&meant) {
        return String::from_str(alloc, word);
    }
    Ok(meant)
}

fn digits_of(word: &str) -> &str {
    let word = word.strip_prefix("0x").unwrap_or(word);
    word.strip_prefix('x').unwrap_or(word)
}
