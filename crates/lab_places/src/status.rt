//! Status lines: where they say that processes stand.
ghost use Rattle.std.specs.Prelude.{◌≡◌, ◌<◌, length, position, option_map, IfSome};
ghost use Rattle.lab_places.specs.Statuses.{is_blank, first_word, is_word, stands, place_in, standing_in};
ghost use Rattle.lab_places.specs.Private.Standings.{standing_seen};

use crate::labels::in_memory;
use lc3_word::unsigned;

/// A process that stands at an address.
#[derive(Clone, Copy)]
pub(crate) struct Standing<'a> {
    pub pid: usize,
    pub address: u16,
    /// What is shown behind the address: the text of the word there, or how the process ended.
    pub shown: &'a [u8],
}

fn blank(text: &[u8]) -> Option<usize>
    ensures place { result ≡ position is_blank text.now }
    ensures within { IfSome result (λ i. i < length text.now) }
{
    text.iter().position(|byte| *byte == b' ')
}

/// The first word of a text, and what is behind the blank after it.
#[tactic(auto, unfolding(crate::specs::Statuses::first_word))]
fn first_word(text: &[u8]) -> Option<(&[u8], &[u8])>
    ensures value { option_map (λ w. (w.0.now, w.1.now)) result ≡ first_word text.now }
{
    let blank = blank(text)?;
    Some((&text[..blank], &text[blank + 1..]))
}

/// Whether a word is this one.
#[tactic(auto, unfolding(crate::specs::Statuses::is_word))]
pub(crate) fn is_word(name: &[u8], word: &[u8]) -> bool
    ensures value { result ≡ is_word name.now word.now }
{
    name == word
}

/// Whether a process in this state stands at what it does next, or at what it crashed at: one that ended by HALT stands
/// behind that.
fn stands(state: &[u8], shown: &[u8]) -> bool
    ensures value { result ≡ stands state.now shown.now }
{
    is_word(b"running", state)
        || is_word(b"waiting", state)
        || is_word(b"ended", state) && !is_word(b"halt", shown)
}

fn place_in(word: &[u8]) -> Option<u16>
    ensures value { result ≡ place_in word.now }
{
    let (first, digits) = word.split_first()?;
    if *first != b'x' {
        return None;
    }
    in_memory(unsigned(16, digits)?)
}

/// Where a line says that a process stands, if it is a status line and the process didn't end by HALT.
#[tactic(auto, unfolding(crate::specs::Statuses::standing_in))]
pub(crate) fn standing_in(line: &[u8]) -> Option<Standing<'_>>
    ensures value { option_map standing_seen result ≡ standing_in line.now }
{
    let (process, rest) = first_word(line)?;
    let pid = usize::from(in_memory(unsigned(10, process)?)?);
    let (state, rest) = first_word(rest)?;
    let (place, shown) = first_word(rest)?;
    if !stands(state, shown) {
        return None;
    }
    let address = place_in(place)?;
    Some(Standing {
        pid,
        address,
        shown,
    })
}
