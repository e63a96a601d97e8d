//! Words as text.

ghost use Rattle.std.specs.Prelude.{◌≡◌, [], ◌∷◌, ◌++◌, Some, OnOk, IfOk, string_bytes};
ghost use Rattle.lc3_table.specs.Meaning.{HasWords};
ghost use Rattle.lc3_table.specs.Text.{operand_text, branch_text, instruction_text, data_text, word_text, image_lines};

use crate::decoding::decode;
use crate::instr::{Instr, Operand};
use crate::trap::ConsoleTrap;
use lc3_word::{Hex, Image, Off};
use std::alloc::{AllocError, Global};
use std::fmt;

impl fmt::Display for Operand {
    ghost output = { λ o. Some (operand_text o) };

    fn fmt<W: fmt::Write>(&self, f: &mut fmt::Formatter<W>) -> fmt::Result {
        match *self {
            Operand::Register(sr2) => write!(f, "{sr2}"),
            Operand::Number(imm5) => write!(f, "{imm5}"),
        }
    }
}

#[derive(Clone, Copy)]
struct Data(u16);

impl fmt::Display for Data {
    ghost output = { λ d. Some (data_text d.0) };

    fn fmt<W: fmt::Write>(&self, f: &mut fmt::Formatter<W>) -> fmt::Result {
        write!(f, ".FILL {}", Hex(self.0))
    }
}

/// A branch, which on no code is data, and `NOP` as the word 0.
#[derive(Clone, Copy)]
struct Branch {
    n: bool,
    z: bool,
    p: bool,
    offset: Off<9>,
}

impl fmt::Display for Branch {
    ghost output = { λ b. Some (branch_text b.n b.z b.p b.offset) };

    fn fmt<W: fmt::Write>(&self, f: &mut fmt::Formatter<W>) -> fmt::Result {
        let offset = self.offset;
        if self.n || self.z || self.p {
            let n = if self.n { "n" } else { "" };
            let z = if self.z { "z" } else { "" };
            let p = if self.p { "p" } else { "" };
            write!(f, "BR{n}{z}{p} {offset}")
        } else if offset.low_bits() == 0 {
            write!(f, "NOP")
        } else {
            write!(f, "{}", Data(offset.low_bits()))
        }
    }
}

impl fmt::Display for Instr {
    ghost output = { λ i. Some (instruction_text i) };

    #[tactic(auto, using(std::proofs::lemmas::Fmt::hex_byte))]
    fn fmt<W: fmt::Write>(&self, f: &mut fmt::Formatter<W>) -> fmt::Result {
        match *self {
            Instr::Add { dr, sr1, operand } => write!(f, "ADD {dr},{sr1},{operand}"),
            Instr::And { dr, sr1, operand } => write!(f, "AND {dr},{sr1},{operand}"),
            Instr::Not { dr, sr } => write!(f, "NOT {dr},{sr}"),
            Instr::Br { n, z, p, offset } => write!(f, "{}", Branch { n, z, p, offset }),
            Instr::Jmp { base } => {
                if base.number() == 7 {
                    write!(f, "RET")
                } else {
                    write!(f, "JMP {base}")
                }
            }
            Instr::Jsr { offset } => write!(f, "JSR {offset}"),
            Instr::Jsrr { base } => write!(f, "JSRR {base}"),
            Instr::Ld { dr, offset } => write!(f, "LD {dr},{offset}"),
            Instr::Ldi { dr, offset } => write!(f, "LDI {dr},{offset}"),
            Instr::Ldr { dr, base, offset } => write!(f, "LDR {dr},{base},{offset}"),
            Instr::Lea { dr, offset } => write!(f, "LEA {dr},{offset}"),
            Instr::St { sr, offset } => write!(f, "ST {sr},{offset}"),
            Instr::Sti { sr, offset } => write!(f, "STI {sr},{offset}"),
            Instr::Str { sr, base, offset } => write!(f, "STR {sr},{base},{offset}"),
            Instr::Rti => write!(f, "RTI"),
            Instr::Trap { vector } => match ConsoleTrap::of_vector(vector) {
                Some(trap) => write!(f, "{}", trap.name()),
                None => write!(f, "TRAP x{vector:02X}"),
            },
        }
    }
}

/// A word of memory, which is shown as its text: the instruction that it is, or the word as data.
#[derive(Clone, Copy, Debug, PartialEq, Eq)]
pub struct WordText(pub u16);

impl fmt::Display for WordText {
    ghost output = { λ s. Some (word_text s.0) };

    #[tactic(auto, unfolding(crate::specs::Text::word_text))]
    fn fmt<W: fmt::Write>(&self, f: &mut fmt::Formatter<W>) -> fmt::Result {
        let word = self.0;
        match decode(word) {
            Some(instr) => write!(f, "{instr}"),
            None => write!(f, "{}", Data(word)),
        }
    }
}

/// The text of a word: its instruction as the source language writes it, with PC offsets as numbers; a word that is no
/// instruction is `.FILL` with four digits. Read as a source line it is that word alone.
#[tactic(auto, using(crate::proofs::TextLines::read_back))]
pub fn text(alloc: Global, word: u16) -> Result<String, AllocError>
    ensures text { IfOk result (λ s. string_bytes s ≡ word_text word) }
    ensures reads_back { IfOk result (λ s. HasWords (string_bytes s) (word ∷ [])) }
{
    WordText(word).to_string(alloc)
}

/// A line for each word of an image: its address, the word and its text, as `x3000 xE002 LEA R0,#2`.
#[tactic(auto, unfolding(crate::specs::Text::line_text))]
pub fn image_text(alloc: Global, image: &Image) -> Result<String, AllocError>
    ensures text { IfOk result (λ s. string_bytes s ≡ image_lines image.now) }
{
    let mut text = String::new(alloc);
    let origin = image.origin();
    for (i, word) in image.words().iter().enumerate() {
        let address = origin + i as u16;
        write!(
            text,
            "{} {} {}\n",
            Hex(address),
            Hex(*word),
            WordText(*word)
        )?;
    }
    Ok(text)
}
