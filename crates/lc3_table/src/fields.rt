//! The instruction of an operation with its fields, as the assembler encodes it.

ghost use Rattle.std.specs.Prelude.{◌≡◌, ◌≤◌, [], ◌∷◌};
ghost use Rattle.lc3_word.specs.Words.{low_bits};
ghost use Rattle.lc3_table.specs.Meaning.{Encodes};
ghost use Rattle.lc3_table.specs.Traps.{console_vector};
ghost use Rattle.lc3_table.specs.declared.instr.Instr.TheVariants.{Trap};
ghost use Rattle.lc3_table.specs.declared.fields.Field.TheVariants.{Register, Number};

use crate::instr::{Instr, Operand};
use crate::operation::Operation;
use crate::trap::ConsoleTrap;
use lc3_word::{Off, Reg};

/// What an operand puts into a field of its instruction.
#[derive(Clone, Copy, Debug, PartialEq, Eq)]
pub enum Field {
    Register(Reg),
    /// A number, not yet reduced modulo the size of its field.
    Number(i64),
    /// Characters, which go into no field.
    Nothing,
}

/// The number modulo 65,536.
pub fn low_word(number: i64) -> u16
    ensures value { result ≡ low_bits 16 number }
{
    number.rem_euclid(65_536) as u16
}

/// The number modulo the size of a field.
#[tactic(auto, using(lc3_word::proofs::Signed::low_again))]
fn low<const B: u32>(number: i64) -> Off<B>
    requires some_bits { 1 ≤ B }
    requires word { B ≤ 16 }
    ensures value { low_bits B result ≡ low_bits B number }
{
    Off::of_low_bits(low_word(number))
}

fn console_trap(trap: ConsoleTrap) -> Instr
    ensures trap { result ≡ Trap (console_vector trap) }
{
    let vector = trap.vector();
    Instr::Trap { vector }
}

#[tactic(auto, unfolding(crate::specs::Meaning::instruction))]
fn without_operands(operation: Operation) -> Option<Instr>
    ensures words { Encodes result operation [] }
{
    match operation {
        Operation::Return => Some(Instr::Jmp {
            base: Reg::of_low_bits(7),
        }),
        Operation::ReturnInterrupt => Some(Instr::Rti),
        Operation::Getc => Some(console_trap(ConsoleTrap::Getc)),
        Operation::Out => Some(console_trap(ConsoleTrap::Out)),
        Operation::Puts => Some(console_trap(ConsoleTrap::Puts)),
        Operation::In => Some(console_trap(ConsoleTrap::In)),
        Operation::Putsp => Some(console_trap(ConsoleTrap::Putsp)),
        Operation::Halt => Some(console_trap(ConsoleTrap::Halt)),
        Operation::NoOperation => Some(Instr::Br {
            n: false,
            z: false,
            p: false,
            offset: Off::of_low_bits(0),
        }),
        _ => None,
    }
}

#[tactic(auto, unfolding(crate::specs::Meaning::instruction))]
fn with_number(operation: Operation, number: i64) -> Option<Instr>
    ensures words { Encodes result operation (Number number ∷ []) }
{
    match operation {
        Operation::Branch {
            negative: n,
            zero: z,
            positive: p,
        } => {
            let offset = low(number);
            Some(Instr::Br { n, z, p, offset })
        }
        Operation::JumpSubroutine => {
            let offset = low(number);
            Some(Instr::Jsr { offset })
        }
        Operation::Trap => {
            let vector = (low_word(number) & 255) as u8;
            Some(Instr::Trap { vector })
        }
        _ => None,
    }
}

/// Loads and stores by a PC offset.
#[tactic(auto, unfolding(crate::specs::Meaning::instruction))]
fn with_target(operation: Operation, dr: Reg, number: i64) -> Option<Instr>
    ensures words { Encodes result operation (Register dr ∷ Number number ∷ []) }
{
    let sr = dr;
    let offset = low(number);
    match operation {
        Operation::Load => Some(Instr::Ld { dr, offset }),
        Operation::LoadIndirect => Some(Instr::Ldi { dr, offset }),
        Operation::LoadAddress => Some(Instr::Lea { dr, offset }),
        Operation::Store => Some(Instr::St { sr, offset }),
        Operation::StoreIndirect => Some(Instr::Sti { sr, offset }),
        _ => None,
    }
}

#[tactic(auto, unfolding(crate::specs::Meaning::instruction))]
fn with_registers_and_number(operation: Operation, dr: Reg, base: Reg, number: i64) -> Option<Instr>
    ensures words { Encodes result operation (Register dr ∷ Register base ∷ Number number ∷ []) }
{
    let (sr, sr1) = (dr, base);
    let operand = Operand::Number(low(number));
    let offset = low(number);
    match operation {
        Operation::Add => Some(Instr::Add { dr, sr1, operand }),
        Operation::And => Some(Instr::And { dr, sr1, operand }),
        Operation::LoadBaseOffset => Some(Instr::Ldr { dr, base, offset }),
        Operation::StoreBaseOffset => Some(Instr::Str { sr, base, offset }),
        _ => None,
    }
}

/// The instruction of an operation with these fields, each number modulo the size of its field. There is none for a
/// directive, nor where the fields aren't those that the operation takes.
#[tactic(auto, unfolding(crate::specs::Meaning::instruction))]
pub fn instruction(operation: Operation, fields: &[Field]) -> Option<Instr>
    ensures words { Encodes result operation fields.now }
{
    match *fields {
        [] => without_operands(operation),
        [Field::Register(base)] => match operation {
            Operation::Jump => Some(Instr::Jmp { base }),
            Operation::JumpSubroutineRegister => Some(Instr::Jsrr { base }),
            _ => None,
        },
        [Field::Number(number)] => with_number(operation, number),
        [Field::Register(dr), Field::Register(sr)] => match operation {
            Operation::Not => Some(Instr::Not { dr, sr }),
            _ => None,
        },
        [Field::Register(dr), Field::Number(number)] => with_target(operation, dr, number),
        [
            Field::Register(dr),
            Field::Register(sr1),
            Field::Register(sr2),
        ] => {
            let operand = Operand::Register(sr2);
            match operation {
                Operation::Add => Some(Instr::Add { dr, sr1, operand }),
                Operation::And => Some(Instr::And { dr, sr1, operand }),
                _ => None,
            }
        }
        [
            Field::Register(dr),
            Field::Register(base),
            Field::Number(number),
        ] => { with_registers_and_number(operation, dr, base, number) }
        _ => None,
    }
}
