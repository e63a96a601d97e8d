//! Reading what is asked of calls.
ghost use Rattle.std.specs.Prelude.{◌≡◌, ◌++◌, ◌∷◌, [], true, false, IfOk, IfSome, OnOk, codes, map};
ghost use Rattle.lab_questions.specs.CallWords.{call_count, comma_apart, kind_words, name_words, pieces, words_in, Say, SayOf, Asks, forbids};
ghost use Rattle.lab_ways.specs.declared.wanted.Pattern.{Pattern as Calls};

use crate::reading::{is_word, process_in};
use ipc_names::Name;
use ipc_traps::Service;
use lab_ways::{CallKind, Pattern, Wanted};
use lc3_word::{unsigned, words_between};
use std::alloc::{AllocError, Global};

/// The most calls of a kind that can be asked for.
const MOST_CALLS: u32 = 1_000;

/// The most semaphores of which it can be asked whether they are held at one time.
const MOST_NAMES: usize = 8;

fn name_in(alloc: Global, word: &[u8]) -> Result<Option<Name>, AllocError>
    ensures name { IfOk result (λ read. IfSome read (λ name. name ≡ word.now)) }
{
    let mut characters = Vec::with_capacity(alloc, word.len())?;
    for byte in word {
        characters.push(u16::from(*byte))?;
    }
    Ok(Name::read(alloc, &characters)?.ok())
}

/// Calls of one name, or those on one object.
fn kind_in(alloc: Global, words: &[&[u8]]) -> Result<Option<CallKind>, AllocError>
    ensures words { IfOk result (λ read. IfSome read (λ kind.
        map (λ word. word.now) words.now ≡ kind_words kind)) }
{
    match words {
        [call] => Ok(Service::of_name(call).map(|service| CallKind {
            service,
            object: None,
        })),
        [call, name] => {
            let Some(service) = Service::of_name(call) else {
                return Ok(None);
            };
            Ok(name_in(alloc, name)?.map(|name| CallKind {
                service,
                object: Some(name),
            }))
        }
        _ => Ok(None),
    }
}

/// What stands between the words that are this one.
fn pieces<'a, 'b>(
    alloc: Global,
    between: &str,
    words: &'a [&'b [u8]],
) -> Result<Vec<&'a [&'b [u8]]>, AllocError>
    ensures pieces { IfOk result (λ found.
        map (λ piece. map (λ word. word.now) piece.now) found.items
        ≡ pieces between.now (map (λ word. word.now) words.now)) }
{
    words.split(|word| is_word(between, word)).collect(alloc)
}

/// Kinds of calls with one word between each two.
fn kinds_in(
    alloc: Global,
    between: &str,
    words: &[&[u8]],
) -> Result<Option<Vec<CallKind>>, AllocError>
    ensures kinds { IfOk result (λ read. IfSome read (λ kinds.
        pieces between.now (map (λ word. word.now) words.now) ≡ map kind_words kinds.items)) }
{
    let pieces = pieces(alloc, between, words)?;
    let mut kinds = Vec::new(alloc);
    for piece in &pieces {
        match kind_in(alloc, piece)? {
            Some(kind) => kinds.push(kind)?,
            None => return Ok(None),
        }
    }
    Ok(Some(kinds))
}

/// The name that is one word.
fn name_alone(alloc: Global, words: &[&[u8]]) -> Result<Option<Name>, AllocError>
    ensures name { IfOk result (λ read. IfSome read (λ name.
        map (λ word. word.now) words.now ≡ name_words name)) }
{
    match words {
        [word] => name_in(alloc, word),
        _ => Ok(None),
    }
}

/// Names with `and` between each two, if they aren't too many.
fn names_in(alloc: Global, words: &[&[u8]]) -> Result<Option<Vec<Name>>, AllocError>
    ensures names { IfOk result (λ read. IfSome read (λ names.
        pieces (codes "and") (map (λ word. word.now) words.now) ≡ map name_words names.items)) }
{
    let pieces = pieces(alloc, "and", words)?;
    if pieces.len() > MOST_NAMES {
        return Ok(None);
    }
    let mut names = Vec::new(alloc);
    for piece in &pieces {
        match name_alone(alloc, piece)? {
            Some(name) => names.push(name)?,
            None => return Ok(None),
        }
    }
    Ok(Some(names))
}

/// How many calls a word says that there are at least, if that is a number that can be asked for: 1 to 1,000.
pub fn call_count(word: &[u8]) -> Option<u32>
    ensures count { result ≡ call_count word.now }
{
    unsigned(10, word).filter(|count| 1 <= *count && *count <= MOST_CALLS)
}

/// The words before `>= N` at the end of some, and N.
fn count_behind<'a, 'b>(words: &'a [&'b [u8]]) -> Option<(&'a [&'b [u8]], &'b [u8])>
    ensures parts { IfSome result (λ parts. map (λ word. word.now) words.now
        ≡ map (λ word. word.now) parts.0.now ++ codes ">=" ∷ parts.1.now ∷ []) }
{
    match words {
        [_, sign, number] if is_word(">=", sign) => Some((&words[..1], *number)),
        [_, _, sign, number] if is_word(">=", sign) => Some((&words[..2], *number)),
        _ => None,
    }
}

/// What must be so, or what must never be, as what must be so on every way.
fn pattern_in(alloc: Global, words: &[&[u8]], never: bool) -> Result<Option<Pattern>, AllocError>
    ensures pattern { IfOk result (λ read. IfSome read (λ pattern.
        Say (map (λ word. word.now) words.now) pattern)) }
    ensures forbids { IfOk result (λ read. IfSome read (λ pattern. forbids pattern ≡ never)) }
{
    match words {
        [calls, first, second, kinds @ ..]
            if !never
                && is_word("calls", calls)
                && is_word("in", first)
                && is_word("order", second) => {
            Ok(kinds_in(alloc, ",", kinds)?.map(Pattern::InOrder))
        }
        [calls, rest @ ..] if !never && is_word("calls", calls) => {
            let Some((call, number)) = count_behind(rest) else {
                return Ok(kind_in(alloc, rest)?.map(|kind| Pattern::AtLeast(kind, 1)));
            };
            let Some(kind) = kind_in(alloc, call)? else {
                return Ok(None);
            };
            Ok(call_count(number).map(|count| Pattern::AtLeast(kind, count)))
        }
        [holds, names @ ..] if !never && is_word("holds", holds) => {
            Ok(names_in(alloc, names)?.map(Pattern::Together))
        }
        [calls, first, second, kinds @ ..]
            if never
                && is_word("calls", calls)
                && is_word("other", first)
                && is_word("than", second) => {
            Ok(kinds_in(alloc, ",", kinds)?.map(Pattern::NoneBut))
        }
        [calls, kinds @ ..] if never && is_word("calls", calls) => {
            Ok(kinds_in(alloc, "or", kinds)?.map(Pattern::NoneOf))
        }
        _ => Ok(None),
    }
}

/// The process that words name first, and the words behind it.
fn process_of<'a, 'b>(words: &'a [&'b [u8]]) -> (Option<usize>, &'a [&'b [u8]])
    ensures words { (pattern : Calls) → Say (map (λ word. word.now) result.1.now) pattern
        → SayOf result.0 (map (λ word. word.now) words.now) pattern }
{
    if let [number, rest @ ..] = words {
        if let Some(process) = process_in(number) {
            return (Some(process), rest);
        }
    }
    (None, words)
}

/// Adds a word, and the comma at its end, if it has one, as another.
fn push_apart<'a>(words: &mut Vec<&'a [u8]>, word: &'a [u8]) -> Result<(), AllocError>
    ensures added { OnOk result (map (λ w. w.now) words.new.items
        ≡ map (λ w. w.now) words.old.items ++ comma_apart word.now) }
{
    match word {
        [front @ .., b','] if !front.is_empty() => {
            words.push(front)?;
            words.push(b",")?;
        }
        _ => words.push(word)?,
    }
    Ok(())
}

/// The words of a text. A comma at the end of one is a word of its own.
fn words_in(alloc: Global, text: &[u8]) -> Result<Vec<&[u8]>, AllocError>
    ensures words { IfOk result (λ found. map (λ word. word.now) found.items
        ≡ words_in text.now) }
{
    let whole = words_between(alloc, b" ", text)?;
    let mut words = Vec::new(alloc);
    for word in &whole {
        push_apart(&mut words, word)?;
    }
    Ok(words)
}

/// What a text asks of calls: what must be so, or what must never be. `calls CALL`, behind which `>= N` may stand, and
/// `calls in order CALL, CALL` say what must be so, and `holds NAME and NAME`; `calls CALL or CALL` and
/// `calls other than CALL, CALL` what must never be. Each CALL is a name, behind which that of an object may stand; before
/// all may stand a process. Lists have one element or more, with the comma or the word between each two and nowhere else. A name
/// may have a comma, but not at its end.
pub fn read_calls(alloc: Global, text: &str, never: bool) -> Result<Option<Wanted>, AllocError>
    ensures asks { IfOk result (λ read. IfSome read (λ wanted. Asks text.now wanted)) }
    ensures forbids { IfOk result (λ read.
        IfSome read (λ wanted. forbids wanted.pattern ≡ never)) }
{
    let words = words_in(alloc, text.as_bytes())?;
    let (process, rest) = process_of(&words);
    let pattern = pattern_in(alloc, rest, never)?;
    Ok(pattern.map(|pattern| Wanted { process, pattern }))
}
