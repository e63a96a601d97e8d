//! From instructions to words.

ghost use Rattle.std.specs.Prelude.{◌≡◌, ◌+◌, ◌*◌, ◌^◌, ◌<◌};
ghost use Rattle.lc3_table.specs.Instructions.{bit, word_of, operand_bits, IsOperand, IsInstruction};

use crate::instr::{Instr, Operand};
use lc3_word::Reg;

/// A field placed above the `width` bits of the rest.
fn joined(field: u16, width: u32, rest: u16) -> u16
    requires width { width < 16 }
    requires rest { rest < 2 ^ width }
    requires fits { field * 2 ^ width < 65536 }
    ensures value { result ≡ field * 2 ^ width + rest }
{
    field << width | rest
}

/// An opcode above twelve bits.
fn row(opcode: u16, rest: u16) -> u16
    requires opcode { opcode < 16 }
    requires rest { rest < 4096 }
    ensures value { result ≡ opcode * 4096 + rest }
{
    joined(opcode, 12, rest)
}

/// A register above nine bits.
fn first(reg: Reg, rest: u16) -> u16
    requires rest { rest < 512 }
    ensures value { result ≡ reg * 512 + rest }
    ensures in_range { reg < 8 }
{
    joined(u16::from(reg.number()), 9, rest)
}

/// A register above six bits.
fn second(reg: Reg, rest: u16) -> u16
    requires rest { rest < 64 }
    ensures value { result ≡ reg * 64 + rest }
    ensures in_range { reg < 8 }
{
    joined(u16::from(reg.number()), 6, rest)
}

/// The low six bits of ADD and AND.
fn operand_field(operand: Operand) -> u16
    ensures value { result ≡ operand_bits operand }
    ensures in_range { IsOperand operand }
    ensures six_bits { result < 64 }
{
    match operand {
        Operand::Register(sr2) => u16::from(sr2.number()),
        Operand::Number(imm5) => joined(1, 5, imm5.low_bits()),
    }
}

/// The three flags of a branch above nine bits.
fn branch(n: bool, z: bool, p: bool, rest: u16) -> u16
    requires rest { rest < 512 }
    ensures value { result ≡ bit n * 2048 + bit z * 1024 + bit p * 512 + rest }
{
    let rest = joined(u16::from(p), 9, rest);
    let rest = joined(u16::from(z), 10, rest);
    joined(u16::from(n), 11, rest)
}

/// The word of an instruction: opcode, fixed bits and fields at their places (Patt and Patel, appendix A.3).
pub fn encode(instr: Instr) -> u16
    ensures word { result ≡ word_of instr }
    ensures in_range { IsInstruction instr }
{
    match instr {
        Instr::Add { dr, sr1, operand } => row(1, first(dr, second(sr1, operand_field(operand)))),
        Instr::And { dr, sr1, operand } => row(5, first(dr, second(sr1, operand_field(operand)))),
        Instr::Not { dr, sr } => row(9, first(dr, second(sr, 63))),
        Instr::Br { n, z, p, offset } => row(0, branch(n, z, p, offset.low_bits())),
        Instr::Jmp { base } => row(12, second(base, 0)),
        Instr::Jsr { offset } => row(4, joined(1, 11, offset.low_bits())),
        Instr::Jsrr { base } => row(4, second(base, 0)),
        Instr::Ld { dr, offset } => row(2, first(dr, offset.low_bits())),
        Instr::Ldi { dr, offset } => row(10, first(dr, offset.low_bits())),
        Instr::Ldr { dr, base, offset } => row(6, first(dr, second(base, offset.low_bits()))),
        Instr::Lea { dr, offset } => row(14, first(dr, offset.low_bits())),
        Instr::St { sr, offset } => row(3, first(sr, offset.low_bits())),
        Instr::Sti { sr, offset } => row(11, first(sr, offset.low_bits())),
        Instr::Str { sr, base, offset } => row(7, first(sr, second(base, offset.low_bits()))),
        Instr::Rti => row(8, 0),
        Instr::Trap { vector } => row(15, u16::from(vector)),
    }
}
