//! Where execution goes from the lines of a text.

ghost use Rattle.std.specs.Prelude.{◌≡◌, ◌+◌, map, drop, ◌≤◌, length, ◌||◌, reverse, option_map};
ghost use Rattle.lc3_asm.specs.Views.{seen_line, seen_operand};
ghost use Rattle.lc3_warnings.specs.Flows.{is_call, is_known_trap, trap_flow_of, flow_of, first_with_words, prints_string, next_from};

use crate::names::statement_of;
use lc3_asm::{Line, Operand};
use lc3_table::{ConsoleTrap, Operation, is_kernel_vector};

/// What a line with words is to execution.
#[derive(Clone, Copy)]
pub enum Flow {
    /// Words that aren't meant to be executed.
    Data,
    /// An instruction behind which execution can go on.
    GoesOn,
    /// An instruction behind which it never goes on.
    Stops,
}

/// A line with words, by its number, from 1.
#[derive(Clone, Copy)]
pub struct Next {
    pub line: usize,
    pub flow: Flow,
    /// Whether it writes the string at the address in R0.
    pub prints: bool,
}

/// Whether a call of the kernel has this vector.
pub fn is_call(vector: i64) -> bool
    ensures value { result ≡ is_call vector }
{
    u8::try_from(vector).is_ok_and(|vector| is_kernel_vector(vector))
}

pub fn is_known_trap(vector: i64) -> bool
    ensures value { result ≡ is_known_trap vector }
{
    u8::try_from(vector).is_ok_and(|it| ConsoleTrap::of_vector(it).is_some()
        || is_kernel_vector(it))
}

pub fn trap_flow_of(operands: &[Operand]) -> Flow
    ensures value { result ≡ trap_flow_of (map seen_operand operands.now) }
{
    match operands.first() {
        Some(Operand::Number(vector))
            if !is_known_trap(*vector) || *vector == i64::from(ConsoleTrap::Halt.vector()) =>
            Flow::Stops,
        _ => Flow::GoesOn,
    }
}

/// What a line is to execution, if it has words.
pub fn flow_of(line: &Line) -> Option<Flow>
    ensures value { result ≡ flow_of (seen_line line.now) }
{
    let (operation, operands) = statement_of(line)?;
    match operation {
        Operation::Origin | Operation::End => None,
        Operation::Fill | Operation::Block | Operation::Text => Some(Flow::Data),
        Operation::Halt
        | Operation::Return
        | Operation::Jump
        | Operation::ReturnInterrupt
        | Operation::Branch {
            negative: true,
            zero: true,
            positive: true,
        } => Some(Flow::Stops),
        Operation::Trap => Some(trap_flow_of(operands)),
        _ => Some(Flow::GoesOn),
    }
}

/// The last of these lines with words.
pub fn last_with_words(lines: &[Line]) -> Option<&Line>
    ensures value { option_map (λ line. seen_line line.now) result
        ≡ first_with_words (reverse (map seen_line lines.now)) }
{
    let mut rest = lines;
    while let Some((last, others)) = rest.split_last() {
        if flow_of(last).is_some() {
            return Some(last);
        }
        rest = others;
    }
    None
}

fn prints_string(line: &Line) -> bool
    ensures value { result ≡ prints_string (seen_line line.now) }
{
    match statement_of(line) {
        Some((Operation::Puts | Operation::Putsp, _)) => true,
        Some((Operation::Trap, [Operand::Number(vector), ..])) => {
            *vector == i64::from(ConsoleTrap::Puts.vector())
                || *vector == i64::from(ConsoleTrap::Putsp.vector())
        }
        _ => false,
    }
}

/// The first line with words behind this many lines.
pub fn next_from(lines: &[Line], behind: usize) -> Option<Next>
    requires within { behind ≤ length lines.now }
    ensures value { result ≡ next_from behind (map seen_line (drop behind lines.now)) }
{
    for i in behind..lines.len() {
        if let Some(flow) = flow_of(&lines[i]) {
            let (line, prints) = (i + 1, prints_string(&lines[i]));
            return Some(Next { line, flow, prints });
        }
    }
    None
}
