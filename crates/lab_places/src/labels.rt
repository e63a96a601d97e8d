//! Words with labels as addresses.
ghost use Rattle.std.specs.Prelude.{◌≡◌, ◌<◌, length, position, option_map, is_some, IfSome};
ghost use Rattle.lab_places.specs.Labels.{is_plus, named, label_in, in_memory, address_in};

use lab_sources::Source;
use lc3_asm::is_label;
use lc3_word::unsigned;

/// A label, and how many words behind it a place is.
#[derive(Clone, Copy)]
struct Mention<'a> {
    name: &'a [u8],
    count: u16,
}

fn plus(word: &[u8]) -> Option<usize>
    ensures place { result ≡ position is_plus word.now }
    ensures within { IfSome result (λ i. i < length word.now) }
{
    word.iter().position(|byte| *byte == b'+')
}

pub(crate) fn in_memory(number: u32) -> Option<u16>
    ensures value { result ≡ in_memory number }
{
    u16::try_from(number).ok()
}

fn named(name: &[u8], count: u16) -> Option<Mention<'_>>
    ensures value { option_map (λ b. (b.name.now, b.count)) result ≡ named name.now count }
{
    is_label(name).then_some(Mention { name, count })
}

/// A label, or a label, `+` and 1 to 5 decimal digits: how many words behind it.
#[tactic(auto, unfolding(crate::specs::Labels::label_in, crate::specs::Labels::count_in))]
fn label_in(word: &[u8]) -> Option<Mention<'_>>
    ensures value { option_map (λ b. (b.name.now, b.count)) result ≡ label_in word.now }
{
    let Some(plus) = plus(word) else {
        return named(word, 0);
    };
    let digits = &word[plus + 1..];
    if digits.len() > 5 {
        return None;
    }
    named(&word[..plus], in_memory(unsigned(10, digits)?)?)
}

/// Whether a word is a label, or a label, `+` and 1 to 5 decimal digits, up to 65,535.
pub fn has_label(word: &[u8]) -> bool
    ensures value { result ≡ is_some (label_in word.now) }
{
    label_in(word).is_some()
}

/// The address that a word with a label stands for in process `pid`, by the labels of its own source: a label, or
/// a label, `+` and a number. None where the process was given as no source, or this one has no such label.
pub fn address_in(sources: &[Option<Source>], pid: usize, word: &[u8]) -> Option<u16>
    ensures address { result ≡ address_in sources.now pid word.now }
{
    let source = sources.get(pid)?.as_ref()?;
    let label = label_in(word)?;
    let address = source.address_of(label.name)?;
    in_memory(u32::from(address) + u32::from(label.count))
}
