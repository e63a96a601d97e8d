//! Branches that read the condition codes from before a trap.
ghost use Rattle.std.specs.Prelude.{◌≡◌, map, reverse, option_map, ℕ, List, ◌||◌, ◌&&◌, IfOk, OnOk};
ghost use Rattle.lc3_warnings.specs.Private.Names.{is_among};
ghost use Rattle.lc3_asm.specs.Views.{seen_line, seen_operand};
ghost use Rattle.lc3_warnings.specs.Codes.{reads_codes, keeps_codes, where_codes_come_from, trap_takes, sets_codes, sets_codes_beyond, stale_from, stale_codes};
ghost use Rattle.lc3_warnings.specs.Strings.{is_string_from, has_label, strings, are_register_and, has_address, are_base_of, loads_word_of, loaded_string};

use crate::flow::{Flow, flow_of, is_call, last_with_words, trap_flow_of};
use crate::names::{Names, statement_of};
use crate::texts::Kind;
use crate::walk::Around;
use lc3_asm::{Line, Operand};
use lc3_table::Operation;
use std::alloc::{AllocError, Global};

/// Whether a line is a branch behind which execution can go on too.
fn reads_codes(line: &Line) -> bool
    ensures value { result ≡ reads_codes (seen_line line.now) }
{
    matches!(statement_of(line), Some((Operation::Branch { .. }, _)))
        && matches!(flow_of(line), Some(Flow::GoesOn))
}

/// Whether a line leaves the codes as they are and isn't a trap.
fn keeps_codes(line: &Line) -> bool
    ensures value { result ≡ keeps_codes (seen_line line.now) }
{
    match line {
        Line::Operates { operation, .. } => matches!(
            operation,
            Operation::Store
                | Operation::StoreIndirect
                | Operation::StoreBaseOffset
                | Operation::NoOperation
        ),
        _ => true,
    }
}

/// The lines above a line up to the one from which the codes come; none where they may come from elsewhere.
fn where_codes_come_from<'a>(named: &Names, line: &Line, above: &'a [Line]) -> &'a [Line]
    ensures value { reverse (map seen_line result.now) ≡ where_codes_come_from
        (is_among named.now) (seen_line line.now) (reverse (map seen_line above.now)) }
{
    let mut below = line;
    let mut rest = above;
    while let Some((next, others)) = rest.split_last() {
        if named.has_label_of(below) {
            return &[];
        }
        if !keeps_codes(next) {
            return rest;
        }
        below = next;
        rest = others;
    }
    &[]
}

/// How many registers the trap that a line is takes, from R0 on, if execution goes on behind it.
fn trap_takes(line: &Line) -> Option<u8>
    ensures value { result ≡ trap_takes (seen_line line.now) }
{
    let (operation, operands) = statement_of(line)?;
    match operation {
        Operation::Trap => match (trap_flow_of(operands), operands.first()) {
            (Flow::GoesOn, Some(Operand::Number(vector))) => {
                Some(if is_call(*vector) { 4 } else { 1 })
            }
            _ => None,
        },
        Operation::Getc | Operation::Out | Operation::Puts | Operation::In | Operation::Putsp =>
            Some(1),
        _ => None,
    }
}

fn sets_codes(operation: Operation) -> bool
    ensures value { result ≡ sets_codes operation }
{
    matches!(
        operation,
        Operation::Add
            | Operation::And
            | Operation::Not
            | Operation::Load
            | Operation::LoadIndirect
            | Operation::LoadBaseOffset
    )
}

/// Whether a line sets the codes by a register behind the first `count`.
fn sets_codes_beyond(count: u8, line: Option<&Line>) -> bool
    ensures value { result
        ≡ sets_codes_beyond count (option_map (λ line. seen_line line.now) line.entry) }
{
    match line.and_then(|line| statement_of(line)) {
        Some((operation, [Operand::Register(first), ..])) => {
            sets_codes(operation) && count <= first.number()
        }
        _ => false,
    }
}

/// Whether this line, which stands below these, reads the codes from before a trap, and they aren't meant to stay over it.
pub fn stale_codes(named: &Names, line: &Line, above: &[Line]) -> Option<Kind>
    ensures value { result ≡ stale_codes (is_among named.now) (seen_line line.now)
        (reverse (map seen_line above.now)) }
{
    if !reads_codes(line) {
        return None;
    }
    let above = where_codes_come_from(named, line, above);
    let (last, others) = above.split_last()?;
    let count = trap_takes(last)?;
    if sets_codes_beyond(count, last_with_words(others)) {
        None
    } else {
        Some(Kind::StaleCodes { trap: above.len() })
    }
}

/// Whether the first line with words from this one on is a string, where that is so or not behind it.
fn is_string_from(line: &Line, behind: bool) -> bool
    ensures value { result ≡ is_string_from (seen_line line.now) behind }
{
    matches!(statement_of(line), Some((Operation::Text, _))) || (behind && flow_of(line).is_none())
}

/// Adds the label of this line, where a string begins at it.
fn add_label(
    labels: &mut Names,
    alloc: Global,
    line: &Line,
    is_string: bool,
) -> Result<(), AllocError>
    ensures added { OnOk result ((name : List ℕ) → is_among labels.new name
        ≡ (is_among labels.old name || (is_string && has_label name (seen_line line.now)))) }
{
    match line.label() {
        Some(name) if is_string => labels.insert(alloc, name),
        _ => Ok(()),
    }
}

/// The labels at whose address a string begins.
pub fn strings(alloc: Global, lines: &[Line]) -> Result<Names, AllocError>
    ensures all { IfOk result (λ names. is_among names ≡ strings (map seen_line lines.now)) }
{
    let mut labels = Names::new(alloc);
    let mut is_string = false;
    for i in (0..lines.len()).rev() {
        let line = &lines[i];
        is_string = is_string_from(line, is_string);
        add_label(&mut labels, alloc, line, is_string)?;
    }
    Ok(labels)
}

fn are_register_and(labels: &Names, register: u8, operands: &[Operand]) -> bool
    ensures value { result
        ≡ are_register_and (is_among labels.now) register (map seen_operand operands.now) }
{
    match operands {
        [Operand::Register(first), Operand::Label(name)] => {
            first.number() == register && labels.contains(name.as_str())
        }
        _ => false,
    }
}

/// Whether operands are R0 and a register with the address of one of these labels, which the last line above puts there.
fn are_base_of(labels: &Names, operands: &[Operand], above: &[Line]) -> bool
    ensures value { result ≡ are_base_of (is_among labels.now) (map seen_operand operands.now)
        (reverse (map seen_line above.now)) }
{
    match operands {
        [Operand::Register(first), Operand::Register(base), ..] if first.number() == 0 => {
            match last_with_words(above).and_then(|line| statement_of(line)) {
                Some((Operation::LoadAddress, put)) => are_register_and(labels, base.number(), put),
                _ => false,
            }
        }
        _ => false,
    }
}

/// Whether a line below these loads a word into R0 that stands at such a label or is reached by it.
fn loads_word_of(labels: &Names, line: &Line, above: &[Line]) -> bool
    ensures value { result ≡ loads_word_of (is_among labels.now) (seen_line line.now)
        (reverse (map seen_line above.now)) }
{
    match statement_of(line) {
        Some((Operation::Load | Operation::LoadIndirect, operands)) => {
            are_register_and(labels, 0, operands)
        }
        Some((Operation::LoadBaseOffset, operands)) => are_base_of(labels, operands, above),
        _ => false,
    }
}

/// Whether a line below these loads a word of a string where the next line takes the address of one.
pub fn loaded_string(labels: &Names, line: &Line, around: Around, above: &[Line]) -> Option<Kind>
    ensures value { result ≡ loaded_string (is_among labels.now) (seen_line line.now) around
        (reverse (map seen_line above.now)) }
{
    match around.next {
        Some(next) if next.prints && loads_word_of(labels, line, above) => {
            Some(Kind::LoadedString { next: next.line })
        }
        _ => None,
    }
}
