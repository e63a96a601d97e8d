//! Numbers of fields that mean other numbers.

ghost use Rattle.std.specs.Prelude.{◌≡◌, ◌≤◌, map, []};
ghost use Rattle.lc3_table.specs.Tokens.{tokens};
ghost use Rattle.lc3_asm.specs.Views.{seen_line, seen_operand};
ghost use Rattle.lc3_warnings.specs.Numbers.{is_in_digits_of_bits, is_bits_of, wrapped, wrapped_in, number_among, last_word, wraps, unknown_trap, decimal_origin};

use crate::flow::is_known_trap;
use crate::names::statement_of;
use crate::texts::Kind;
use lc3_asm::{Line, Operand, Token, first_token};
use lc3_table::{Form, Operation, low_word};
use lc3_word::Off;

#[tactic(auto, unfolding(crate::specs::Numbers::is_in_digits_of_bits))]
fn is_in_digits_of_bits(word: &[u8]) -> bool
    ensures value { result ≡ is_in_digits_of_bits word.now }
{
    matches!(
        word,
        [b'x' | b'X' | b'b' | b'B', ..] | [b'0', b'x' | b'X', ..]
    )
}

/// Whether a number is the bits of this value in a field of `B` bits, or in a word.
#[tactic(auto, unfolding(crate::specs::Numbers::is_bits_of))]
fn is_bits_of<const B: u32>(held: Off<B>, number: i64) -> bool
    ensures answer { result ≡ is_bits_of B held.entry number }
{
    let is_field = number == i64::from(held.low_bits());
    let is_word = number == i64::from(held.word());
    is_field || is_word
}

/// The value that a field of `B` bits has for a number which this word writes, if it means another number.
#[tactic(auto, unfolding(crate::specs::Numbers::field_value))]
fn wrapped<const B: u32>(word: &[u8], number: i64) -> Option<i16>
    requires some_bits { 1 ≤ B }
    requires word_bits { B ≤ 16 }
    ensures value { result ≡ wrapped B word.now number }
{
    let held = Off::<B>::of_low_bits(low_word(number));
    let is_same = number == i64::from(held.get());
    let is_bits = is_in_digits_of_bits(word) && is_bits_of(held, number);
    if is_same || is_bits {
        None
    } else {
        Some(held.get())
    }
}

fn wrapped_in(form: Form, word: &[u8], number: i64) -> Option<i16>
    ensures value { result ≡ wrapped_in form word.now number }
{
    match form {
        Form::RegisterOrImmediate => wrapped::<5>(word, number),
        Form::Offset => wrapped::<6>(word, number),
        Form::Target => wrapped::<9>(word, number),
        Form::FarTarget => wrapped::<11>(word, number),
        _ => None,
    }
}

fn number_among(operands: &[Operand]) -> Option<i64>
    ensures value { result ≡ number_among (map seen_operand operands.now) }
{
    for i in 0..operands.len() {
        if let Operand::Number(number) = &operands[i] {
            return Some(*number);
        }
    }
    None
}

fn last_word(bytes: &[u8]) -> &[u8]
    ensures value { result.now ≡ last_word [] (tokens bytes.now) }
{
    let mut last: &[u8] = &[];
    let mut rest = bytes;
    while let Some((token, after)) = first_token(rest) {
        if let Token::Word(word) = token {
            last = word;
        }
        rest = after;
    }
    last
}

/// Whether a number of the line means another one.
pub fn wraps(bytes: &[u8], line: &Line) -> Option<Kind>
    ensures value { result ≡ wraps bytes.now (seen_line line.now) }
{
    let (operation, operands) = statement_of(line)?;
    let number = number_among(operands)?;
    let form = operation.forms().last().copied()?;
    let value = wrapped_in(form, last_word(bytes), number)?;
    Some(Kind::Wraps { form, value })
}

pub fn unknown_trap(line: &Line) -> Option<Kind>
    ensures value { result ≡ unknown_trap (seen_line line.now) }
{
    let (Operation::Trap, [Operand::Number(vector), ..]) = statement_of(line)? else {
        return None;
    };
    (!is_known_trap(*vector)).then_some(Kind::UnknownTrap)
}

/// Whether a `.ORIG` has a small decimal number.
pub fn decimal_origin(bytes: &[u8], line: &Line) -> Option<Kind>
    ensures value { result ≡ decimal_origin bytes.now (seen_line line.now) }
{
    let (Operation::Origin, [Operand::Number(number), ..]) = statement_of(line)? else {
        return None;
    };
    let word = last_word(bytes);
    match u16::try_from(*number) {
        Ok(address) if matches!(address, 10..=4095) && !is_in_digits_of_bits(word) => {
            Some(Kind::DecimalOrigin { address })
        }
        _ => None,
    }
}
