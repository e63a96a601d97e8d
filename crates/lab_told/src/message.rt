//! The words of messages.
ghost use Rattle.std.specs.Prelude.{◌≡◌, ◌++◌, Some, OnOk, string_bytes, ◌<◌, true, IfSome, IsTrue};
ghost use Rattle.std.specs.List.{list_any};
ghost use Rattle.lab_sched.specs.Held.{process_view};
ghost use Rattle.lab_sched.specs.Worlds.{machine_of};
ghost use Rattle.lab_told.specs.Words.{words_text, is_printable, glyphs_text, shown_text, message_text, pointer_text, signed_text, is_quotable, character_text, name_end, name_text, bare_name_text};
ghost use Rattle.lab_told.specs.Calls.{buffer_text};
ghost use Rattle.lc3_machine.specs.Process.{reg};
ghost use Rattle.ipc_traps.specs.Names.{is_in_memory};

use ipc_traps::{WINDOW_MAX, is_in_memory, name_length, read_words};
use lab_sched::Process;
use lc3_word::{Hex, Reg};
use std::alloc::AllocError;
use std::fmt;

/// How many words of a message are shown.
const SHOWN: usize = 16;

/// Words with a blank between each two.
#[derive(Clone, Copy)]
struct Words<'a>(&'a [u16]);

impl fmt::Display for Words<'_> {
    ghost output = { λ w. Some (words_text w.0.now) };

    fn fmt<W: fmt::Write>(&self, f: &mut fmt::Formatter<W>) -> fmt::Result {
        let Some((first, rest)) = self.0.split_first() else {
            return Ok(());
        };
        let first = Hex(*first);
        write!(f, "{first}")?;
        for word in rest {
            let word = Hex(*word);
            write!(f, " {word}")?;
        }
        Ok(())
    }
}

#[tactic(auto, unfolding(crate::specs::Words::is_printable))]
fn is_printable(word: u16) -> bool
    ensures value { result ≡ is_printable word }
{
    32 <= word && word <= 126
}

fn any_printable(words: &[u16]) -> bool
    ensures value { result ≡ list_any is_printable words.now }
{
    words.iter().any(|word| is_printable(*word))
}

/// A blank and the characters of words, each that can't be printed as a point, where one of them can.
#[derive(Clone, Copy)]
struct Glyphs<'a>(&'a [u16]);

impl fmt::Display for Glyphs<'_> {
    ghost output = { λ g. Some (glyphs_text g.0.now) };

    #[tactic(auto, unfolding(crate::specs::Words::glyphs_text))]
    fn fmt<W: fmt::Write>(&self, f: &mut fmt::Formatter<W>) -> fmt::Result {
        if !any_printable(self.0) {
            return Ok(());
        }
        write!(f, " \"")?;
        for word in self.0 {
            let glyph = if is_quotable(*word) {
                char::from(*word as u8)
            } else {
                '.'
            };
            write!(f, "{glyph}")?;
        }
        write!(f, "\"")
    }
}

#[tactic(auto, unfolding(crate::specs::Words::shown_text))]
fn push_shown(text: &mut String, shown: &[u16], more: bool) -> Result<(), AllocError>
    ensures text { OnOk result (string_bytes text.new ≡ string_bytes text.old
        ++ shown_text shown.now more) }
{
    let words = Words(shown);
    let more = if more { " ..." } else { "" };
    let glyphs = Glyphs(shown);
    write!(text, "[{words}{more}{glyphs}]")
}

/// Adds the words of a message.
pub fn push_message(text: &mut String, words: &[u16]) -> Result<(), AllocError>
    ensures text { OnOk result (string_bytes text.new ≡ string_bytes text.old
        ++ message_text words.now) }
{
    let count = words.len();
    push_shown(text, &words[..SHOWN.min(count)], SHOWN < count)
}

/// Adds the message in a buffer of a process, or the address of a buffer that reaches the device registers.
#[tactic(auto, unfolding(crate::specs::Calls::buffer_text))]
pub fn push_buffer(
    text: &mut String,
    process: &Process,
    at: u16,
    len: u16,
) -> Result<(), AllocError>
    ensures text { OnOk result (string_bytes text.new ≡ string_bytes text.old
        ++ buffer_text (machine_of (process_view process.now)) at len) }
{
    if !is_in_memory(at, len) {
        let at = Hex(at);
        return write!(text, "{at}");
    }
    let words = read_words(*text.allocator(), process.machine(), at, len)?;
    push_message(text, words.as_slice())
}

/// What a register of a process holds.
pub fn register(process: &Process, number: u16) -> u16
    requires register { number < 8 }
    ensures value { result ≡ reg (machine_of (process_view process.now)) number }
{
    process.machine().reg(Reg::of_low_bits(number))
}

/// An address, of which 0 stands for none.
#[derive(Clone, Copy)]
pub struct Pointer(pub u16);

impl fmt::Display for Pointer {
    ghost output = { λ p. Some (pointer_text p.0) };

    fn fmt<W: fmt::Write>(&self, f: &mut fmt::Formatter<W>) -> fmt::Result {
        let address = Hex(self.0);
        if self.0 == 0 {
            write!(f, "NULL")
        } else {
            write!(f, "{address}")
        }
    }
}

/// A word as a signed number.
#[derive(Clone, Copy)]
pub struct Signed(pub u16);

impl fmt::Display for Signed {
    ghost output = { λ s. Some (signed_text s.0) };

    #[tactic(auto, unfolding(crate::specs::Words::signed_text))]
    fn fmt<W: fmt::Write>(&self, f: &mut fmt::Formatter<W>) -> fmt::Result {
        let word = self.0;
        if word < 0x8000 {
            write!(f, "{word}")
        } else {
            let size = word.wrapping_neg();
            write!(f, "-{size}")
        }
    }
}

/// Whether a character stands for itself between quotation marks.
#[tactic(auto, unfolding(crate::specs::Words::is_quotable, lab_texts::specs::Texts::is_plain))]
pub fn is_quotable(word: u16) -> bool
    ensures value { result ≡ is_quotable word }
    ensures ascii { IsTrue result → word < 128 }
{
    32 <= word && word <= 126 && word != 92 && word != 34
}

/// A word between quotation marks.
#[derive(Clone, Copy)]
struct Character(u16);

impl fmt::Display for Character {
    ghost output = { λ c. Some (character_text c.0) };

    #[tactic(auto, unfolding(crate::specs::Words::character_text))]
    fn fmt<W: fmt::Write>(&self, f: &mut fmt::Formatter<W>) -> fmt::Result {
        if is_quotable(self.0) {
            let character = char::from(self.0 as u8);
            write!(f, "{character}")
        } else {
            let word = Hex(self.0);
            write!(f, "\\{word}")
        }
    }
}

/// How many words of a process stand before the zero word that ends a name, where there is one.
#[tactic(auto, using(crate::proofs::NameLemmas::no_end, crate::proofs::NameLemmas::no_end_within, crate::proofs::NameLemmas::end_behind))]
fn name_end(process: &Process, at: u16) -> Option<u16>
    ensures length { result ≡ name_end (machine_of (process_view process.now)).memory at }
    ensures inside { IfSome result (λ n. is_in_memory at n ≡ true) }
{
    match name_length(process.machine(), at) {
        Some(length) if length < WINDOW_MAX => Some(length),
        _ => None,
    }
}

/// The name at an address of a process without quotation marks, or the address where no zero word ends one.
#[derive(Clone, Copy)]
pub struct BareName<'a>(pub &'a Process, pub u16);

impl fmt::Display for BareName<'_> {
    ghost output = { λ n. Some (bare_name_text (machine_of (process_view n.0.now)).memory n.1) };

    fn fmt<W: fmt::Write>(&self, f: &mut fmt::Formatter<W>) -> fmt::Result {
        let BareName(process, at) = *self;
        let Some(len) = name_end(process, at) else {
            let at = Hex(at);
            return write!(f, "{at}");
        };
        for i in 0..len {
            let character = Character(process.machine().word(at + i));
            write!(f, "{character}")?;
        }
        Ok(())
    }
}

/// The name at an address of a process, or the address where no zero word ends one.
#[derive(Clone, Copy)]
pub struct QuotedName<'a>(pub &'a Process, pub u16);

impl fmt::Display for QuotedName<'_> {
    ghost output = { λ n. Some (name_text (machine_of (process_view n.0.now)).memory n.1) };

    #[tactic(auto, unfolding(crate::specs::Words::string_text))]
    fn fmt<W: fmt::Write>(&self, f: &mut fmt::Formatter<W>) -> fmt::Result {
        let QuotedName(process, at) = *self;
        let name = BareName(process, at);
        match name_end(process, at) {
            Some(_) => write!(f, "\"{name}\""),
            None => write!(f, "{name}"),
        }
    }
}
