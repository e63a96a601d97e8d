//! From words to instructions.

ghost use Rattle.std.specs.Prelude.{◌≡◌, ◌≢◌, ◌/◌, ◌%◌, IfSome, IfNone};
ghost use Rattle.lc3_table.specs.declared.instr.Instr.{Instr};
ghost use Rattle.lc3_table.specs.declared.instr.Operand.{Operand};
ghost use Rattle.lc3_table.specs.Decoding.{instruction_at};
ghost use Rattle.lc3_table.specs.Instructions.{word_of, operand_bits, IsInstruction, IsOperand};

use crate::instr::{Instr, Operand};
use lc3_word::{Off, Reg};

/// The instruction with this word, if there is one: a word whose fixed bits differ from its row of the instruction
/// table, one of opcode 1101 among them, is no instruction (Patt and Patel, appendix A.3).
#[inline(always)]
pub fn decode(word: u16) -> Option<Instr>
    ensures found { IfSome result (λ i. word_of i ≡ word) }
    ensures in_range { IfSome result (λ i. IsInstruction i) }
    ensures none { IfNone result ((i : Instr) → IsInstruction i → word_of i ≢ word) }
    ensures exact { result ≡ instruction_at word }
{
    instruction(word)
}

/// The second operand of ADD and AND in the low six bits.
#[inline(always)]
fn operand(word: u16) -> Option<Operand>
    ensures found { IfSome result (λ o. operand_bits o ≡ word % 64) }
    ensures in_range { IfSome result (λ o. IsOperand o) }
    ensures none { IfNone result ((o : Operand) → IsOperand o → operand_bits o ≢ word % 64) }
{
    if word >> 5 & 1 == 1 {
        Some(Operand::Number(Off::of_low_bits(word)))
    } else if word >> 3 & 3 == 0 {
        Some(Operand::Register(Reg::of_low_bits(word)))
    } else {
        None
    }
}

#[inline(always)]
fn add(word: u16) -> Option<Instr>
    requires opcode { word / 4096 ≡ 1 }
    ensures found { IfSome result (λ i. IsInstruction i × (word_of i ≡ word)) }
    ensures none { IfNone result ((i : Instr) → IsInstruction i → word_of i ≢ word) }
{
    let dr = Reg::of_low_bits(word >> 9);
    let sr1 = Reg::of_low_bits(word >> 6);
    let operand = operand(word)?;
    Some(Instr::Add { dr, sr1, operand })
}

#[inline(always)]
fn and(word: u16) -> Option<Instr>
    requires opcode { word / 4096 ≡ 5 }
    ensures found { IfSome result (λ i. IsInstruction i × (word_of i ≡ word)) }
    ensures none { IfNone result ((i : Instr) → IsInstruction i → word_of i ≢ word) }
{
    let dr = Reg::of_low_bits(word >> 9);
    let sr1 = Reg::of_low_bits(word >> 6);
    let operand = operand(word)?;
    Some(Instr::And { dr, sr1, operand })
}

#[inline(always)]
fn load(word: u16) -> Instr
    requires opcode { word / 4096 ≡ 2 }
    ensures found { IsInstruction result × (word_of result ≡ word) }
{
    let dr = Reg::of_low_bits(word >> 9);
    let offset = Off::of_low_bits(word);
    Instr::Ld { dr, offset }
}

#[inline(always)]
fn load_indirect(word: u16) -> Instr
    requires opcode { word / 4096 ≡ 10 }
    ensures found { IsInstruction result × (word_of result ≡ word) }
{
    let dr = Reg::of_low_bits(word >> 9);
    let offset = Off::of_low_bits(word);
    Instr::Ldi { dr, offset }
}

#[inline(always)]
fn load_base_offset(word: u16) -> Instr
    requires opcode { word / 4096 ≡ 6 }
    ensures found { IsInstruction result × (word_of result ≡ word) }
{
    let dr = Reg::of_low_bits(word >> 9);
    let base = Reg::of_low_bits(word >> 6);
    let offset = Off::of_low_bits(word);
    Instr::Ldr { dr, base, offset }
}

#[inline(always)]
fn load_address(word: u16) -> Instr
    requires opcode { word / 4096 ≡ 14 }
    ensures found { IsInstruction result × (word_of result ≡ word) }
{
    let dr = Reg::of_low_bits(word >> 9);
    let offset = Off::of_low_bits(word);
    Instr::Lea { dr, offset }
}

#[inline(always)]
fn store(word: u16) -> Instr
    requires opcode { word / 4096 ≡ 3 }
    ensures found { IsInstruction result × (word_of result ≡ word) }
{
    let sr = Reg::of_low_bits(word >> 9);
    let offset = Off::of_low_bits(word);
    Instr::St { sr, offset }
}

#[inline(always)]
fn store_indirect(word: u16) -> Instr
    requires opcode { word / 4096 ≡ 11 }
    ensures found { IsInstruction result × (word_of result ≡ word) }
{
    let sr = Reg::of_low_bits(word >> 9);
    let offset = Off::of_low_bits(word);
    Instr::Sti { sr, offset }
}

#[inline(always)]
fn store_base_offset(word: u16) -> Instr
    requires opcode { word / 4096 ≡ 7 }
    ensures found { IsInstruction result × (word_of result ≡ word) }
{
    let sr = Reg::of_low_bits(word >> 9);
    let base = Reg::of_low_bits(word >> 6);
    let offset = Off::of_low_bits(word);
    Instr::Str { sr, base, offset }
}

#[inline(always)]
fn branch(word: u16) -> Instr
    requires opcode { word / 4096 ≡ 0 }
    ensures found { IsInstruction result × (word_of result ≡ word) }
{
    Instr::Br {
        n: word >> 11 & 1 == 1,
        z: word >> 10 & 1 == 1,
        p: word >> 9 & 1 == 1,
        offset: Off::of_low_bits(word),
    }
}

#[inline(always)]
fn subroutine(word: u16) -> Option<Instr>
    requires opcode { word / 4096 ≡ 4 }
    ensures found { IfSome result (λ i. IsInstruction i × (word_of i ≡ word)) }
    ensures none { IfNone result ((i : Instr) → IsInstruction i → word_of i ≢ word) }
{
    if word >> 11 & 1 == 1 {
        let offset = Off::of_low_bits(word);
        Some(Instr::Jsr { offset })
    } else if word >> 9 & 3 == 0 && word & 63 == 0 {
        let base = Reg::of_low_bits(word >> 6);
        Some(Instr::Jsrr { base })
    } else {
        None
    }
}

#[inline(always)]
fn return_from_interrupt(word: u16) -> Option<Instr>
    requires opcode { word / 4096 ≡ 8 }
    ensures found { IfSome result (λ i. IsInstruction i × (word_of i ≡ word)) }
    ensures none { IfNone result ((i : Instr) → IsInstruction i → word_of i ≢ word) }
{
    if word & 4095 == 0 {
        Some(Instr::Rti)
    } else {
        None
    }
}

#[inline(always)]
fn complement(word: u16) -> Option<Instr>
    requires opcode { word / 4096 ≡ 9 }
    ensures found { IfSome result (λ i. IsInstruction i × (word_of i ≡ word)) }
    ensures none { IfNone result ((i : Instr) → IsInstruction i → word_of i ≢ word) }
{
    if word & 63 == 63 {
        let dr = Reg::of_low_bits(word >> 9);
        let sr = Reg::of_low_bits(word >> 6);
        Some(Instr::Not { dr, sr })
    } else {
        None
    }
}

#[inline(always)]
fn jump(word: u16) -> Option<Instr>
    requires opcode { word / 4096 ≡ 12 }
    ensures found { IfSome result (λ i. IsInstruction i × (word_of i ≡ word)) }
    ensures none { IfNone result ((i : Instr) → IsInstruction i → word_of i ≢ word) }
{
    if word >> 9 & 7 == 0 && word & 63 == 0 {
        let base = Reg::of_low_bits(word >> 6);
        Some(Instr::Jmp { base })
    } else {
        None
    }
}

#[inline(always)]
fn trap(word: u16) -> Option<Instr>
    requires opcode { word / 4096 ≡ 15 }
    ensures found { IfSome result (λ i. IsInstruction i × (word_of i ≡ word)) }
    ensures none { IfNone result ((i : Instr) → IsInstruction i → word_of i ≢ word) }
{
    if word >> 8 & 15 == 0 {
        let vector = (word & 255) as u8;
        Some(Instr::Trap { vector })
    } else {
        None
    }
}

#[inline(always)]
fn instruction(word: u16) -> Option<Instr>
    ensures found { IfSome result (λ i. IsInstruction i × (word_of i ≡ word)) }
    ensures none { IfNone result ((i : Instr) → IsInstruction i → word_of i ≢ word) }
{
    match word >> 12 {
        0 => Some(branch(word)),
        1 => add(word),
        2 => Some(load(word)),
        3 => Some(store(word)),
        4 => subroutine(word),
        5 => and(word),
        6 => Some(load_base_offset(word)),
        7 => Some(store_base_offset(word)),
        8 => return_from_interrupt(word),
        9 => complement(word),
        10 => Some(load_indirect(word)),
        11 => Some(store_indirect(word)),
        12 => jump(word),
        14 => Some(load_address(word)),
        15 => trap(word),
        _ => None,
    }
}
