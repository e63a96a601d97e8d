//! The name that a word is spelled most like.
ghost use Rattle.std.specs.Prelude.{◌≡◌, ◌≤◌, true, false, option_map, IfOk, IfSome, slice_get, length};
ghost use Rattle.lc3_spelling.specs.Edits.{near_edits, IsNearest, allowed};
ghost use Rattle.lc3_spelling.specs.Private.Candidates.{IsNearer};

use std::alloc::{AllocError, Global};
use strsim::osa_distance;

/// A name that is near a word.
#[derive(Clone, Copy)]
struct Candidate {
    /// Its place among the names.
    index: usize,
    /// How many edits lead to it.
    edits: usize,
    /// Whether it has other letters than the word.
    has_other_letters: bool,
    /// Whether it begins with another character than the word.
    begins_otherwise: bool,
}

/// The bytes of a word in their order, without dots.
fn letters(alloc: Global, word: &str) -> Result<Vec<u8>, AllocError> {
    let mut found = Vec::new(alloc);
    for byte in word.as_bytes() {
        if *byte != b'.' {
            found.push(*byte)?;
        }
    }
    found.sort_unstable();
    Ok(found)
}

/// Whether two words have the same letters, in whatever order; dots aren't counted.
fn has_same_letters(alloc: Global, word: &str, name: &str) -> Result<bool, AllocError> {
    let letters_of_word = letters(alloc, word)?;
    let letters_of_name = letters(alloc, name)?;
    Ok(letters_of_word.as_slice() == letters_of_name.as_slice())
}

/// The name at this place as a candidate, where it is near the word.
fn candidate_at(
    alloc: Global,
    word: &str,
    index: usize,
    name: &str,
) -> Result<Option<Candidate>, AllocError>
    ensures near { IfOk result (λ found.
        option_map (λ c. c.edits) found ≡ near_edits word.now name.now) }
    ensures index { IfOk result (λ found. IfSome found (λ c. c.index ≡ index)) }
{
    let Some(edits) = near_edits(alloc, word, name)? else {
        return Ok(None);
    };
    let has_same_letters = has_same_letters(alloc, word, name)?;
    Ok(Some(Candidate {
        index,
        edits,
        has_other_letters: !has_same_letters,
        begins_otherwise: word.as_bytes().first() != name.as_bytes().first(),
    }))
}

/// Whether a candidate is nearer than another: it needs fewer edits, or else it has the letters of
/// the word and the other one hasn't, or else it begins as the word and the other one doesn't.
fn is_nearer(next: Candidate, best: Candidate) -> bool
    ensures fewer { result ≡ true → next.edits ≤ best.edits }
    ensures others { result ≡ false → best.edits ≤ next.edits }
{
    if next.edits != best.edits {
        return next.edits < best.edits;
    }
    if next.has_other_letters != best.has_other_letters {
        return best.has_other_letters;
    }
    best.begins_otherwise && !next.begins_otherwise
}

/// The nearer of two candidates; the first of them where they are as near.
fn nearer(best: Option<Candidate>, next: Option<Candidate>) -> Option<Candidate>
    ensures nearer { IsNearer best next result }
{
    match (best, next) {
        (Some(best), Some(next)) => if is_nearer(next, best) {
            Some(next)
        } else {
            Some(best)
        },
        (Some(best), None) => Some(best),
        (None, next) => next,
    }
}

/// The place of the name that a word is spelled most like, where one is near it: of the names to
/// which the fewest edits lead the first one with the same letters in another order, or else the
/// first one that begins with the same character, or else the first.
pub fn suggestion(alloc: Global, word: &str, names: &[&str]) -> Result<Option<usize>, AllocError>
    ensures nearest { IfOk result (λ found.
        IsNearest (λ name. name.now) word.now names.now found) }
{
    let mut best = None;
    for (i, name) in names.iter().enumerate() {
        let next = candidate_at(alloc, word, i, name)?;
        best = nearer(best, next);
    }
    match best {
        Some(found) => Ok(Some(found.index)),
        None => Ok(None),
    }
}

/// How many edits may lead from a word of this length to a name of that length: two where both have
/// five characters or more, none where one of them has a single character, or where the lengths are
/// more than two apart, and else one.
fn allowed(word: usize, name: usize) -> usize
    ensures value { result ≡ allowed word name }
{
    if word <= 1 || name <= 1 || word.abs_diff(name) > 2 {
        0
    } else if word >= 5 && name >= 5 {
        2
    } else {
        1
    }
}

/// How many edits lead from a word to a name, where they are some and no more than allowed. An edit
/// puts a character in, takes one out, changes one, or exchanges two neighbours; no character is
/// edited twice.
#[tactic(auto, unfolding(crate::specs::Edits::near_edits))]
fn near_edits(alloc: Global, word: &str, name: &str) -> Result<Option<usize>, AllocError>
    ensures value { IfOk result (λ edits. edits ≡ near_edits word.now name.now) }
{
    let most = allowed(word.len(), name.len());
    if most == 0 {
        return Ok(None);
    }
    let edits = osa_distance(alloc, word, name)?;
    if 1 <= edits && edits <= most {
        Ok(Some(edits))
    } else {
        Ok(None)
    }
}

/// The names of the operations and directives, in the order in which the first of several that are
/// as near is suggested.
pub const OPERATIONS: [&str; 36] = [
    "ADD", "AND", "NOT", "BR", "BRN", "BRZ", "BRP", "BRNZ", "BRZP", "BRNP", "BRNZP", "JMP", "JSRR",
    "JSR", "LD", "LDI", "LEA", "ST", "STI", "LDR", "STR", "TRAP", "RET", "RTI", "NOP", "GETC",
    "OUT", "PUTS", "IN", "PUTSP", "HALT", ".ORIG", ".FILL", ".BLKW", ".STRINGZ", ".END",
];

/// Those of operations and directives without operands.
pub const BARE_OPERATIONS: [&str; 10] = [
    "RET", "RTI", "NOP", "GETC", "OUT", "PUTS", "IN", "PUTSP", "HALT", ".END",
];

/// A name as it is shown: the letters of a branch are small.
pub fn shown(name: &str) -> &str {
    match name {
        "BRN" => "BRn",
        "BRZ" => "BRz",
        "BRP" => "BRp",
        "BRNZ" => "BRnz",
        "BRZP" => "BRzp",
        "BRNP" => "BRnp",
        "BRNZP" => "BRnzp",
        _ => name,
    }
}
