//! Operands of a statement.
ghost use Rattle.std.specs.Prelude.{◌≡◌, ◌<◌, ◌≤◌, IfOk, string_bytes, map, IsAscii, is_some, option_map, Option, Some, None, IfSome, IfNone, nat_abs, true, nat_le, ◌&&◌, length, ◌||◌, ◌-ℤ◌, pos, find};
ghost use Rattle.lc3_asm.specs.Views.{token_of, seen_operand};
ghost use Rattle.lc3_asm.specs.Results.{Gives};
ghost use Rattle.lc3_table.specs.Words.{upper, register, operation, operations, same_name, name, is_label, is_label_byte, has_label_form, is_taken};
ghost use Rattle.std.specs.List.{list_all};
ghost use Rattle.lc3_table.specs.Statements.{is_between, characters, onto, fault_in, token_fault, operand_by_register, operand, all_operands, takes_register, takes_label, accepts, forms, token_operation, without_colon};
ghost use Rattle.lc3_word.specs.Numbers.{number};
ghost use Rattle.lc3_table.specs.Tokens.{Word};

use crate::line::Token;
use crate::passes::LineError;
use lc3_table::{Fault, Form, Operation, escape, operations};
use lc3_word::{FIRST_DEVICE, Reg, number_of};
use std::alloc::{AllocError, Global};

/// An operand.
#[derive(Drop)]
pub enum Operand {
    Register(Reg),
    Number(i64),
    /// A label, in upper case.
    Label(String),
    /// What a string writes, its escapes resolved.
    Characters(Vec<u8>),
}

/// The operation or directive that a token names.
pub fn token_operation(token: Token<'_>) -> Option<Operation>
    ensures value { result ≡ token_operation (token_of token.entry) }
{
    match token {
        Token::Word(word) => operation(word),
        _ => None,
    }
}

/// Without the `:` that may end a label where it is defined.
pub fn without_colon(word: &[u8]) -> &[u8]
    ensures value { result.now ≡ without_colon word.now }
{
    match word {
        [name @ .., b':'] => name,
        _ => word,
    }
}

/// The word in upper case.
pub fn upper(alloc: Global, word: &[u8]) -> Result<String, AllocError>
    requires ascii { IsAscii word.now }
    ensures value { IfOk result (λ name. string_bytes name ≡ upper word.now) }
{
    let mut name = String::new(alloc);
    for byte in word {
        name.push(char::from(byte.to_ascii_uppercase()))?;
    }
    Ok(name)
}

/// The first character that a string writes, and what follows it.
pub fn first_character(text: &[u8]) -> Option<(u8, &[u8])>
    requires nonempty { 0 < length text.now }
    ensures none { IfNone result (characters text.now ≡ None) }
    ensures first { IfSome result
        (λ found. characters text.now ≡ onto (Some found.0) (characters found.1.now)) }
    ensures shorter { IfSome result (λ found. length found.1.now < length text.now) }
{
    match text {
        [b'\\', code, rest @ ..] => Some((escape(*code)?, rest)),
        [b'\\', ..] => None,
        [byte @ (b' '..=b'~' | b'\t'), rest @ ..] => Some((*byte, rest)),
        _ => None,
    }
}

fn is_string(text: &[u8]) -> bool
    ensures value { result ≡ is_some (characters text.now) }
{
    let mut rest = text;
    while !rest.is_empty() {
        let Some((_, after)) = first_character(rest) else {
            return false;
        };
        rest = after;
    }
    true
}

fn characters(alloc: Global, text: &[u8]) -> Result<Option<Vec<u8>>, AllocError>
    ensures value { IfOk result (λ read. option_map (λ v. v.items) read ≡ characters text.now) }
{
    let mut found = Vec::new(alloc);
    let mut rest = text;
    while !rest.is_empty() {
        let Some((byte, after)) = first_character(rest) else {
            return Ok(None);
        };
        found.push(byte)?;
        rest = after;
    }
    Ok(Some(found))
}

fn is_printable(word: &[u8]) -> bool
    ensures value { result ≡ list_all (λ c. nat_le 33 c && nat_le c 126) word.now }
{
    word.iter().all(|byte| 33 <= *byte && *byte <= 126)
}

/// The fault of a token that can't stand in a line, whatever it means.
pub fn fault_in(token: Token<'_>) -> Option<Fault>
    ensures value { result ≡ fault_in (token_of token.entry) }
{
    match token {
        Token::Word(word) if is_printable(word) => None,
        Token::Word(_) => Some(Fault::BadToken),
        Token::Quoted(text) if is_string(text) => None,
        Token::Quoted(_) | Token::Unclosed => Some(Fault::BadString),
    }
}

/// The leftmost faulty token's fault.
pub fn token_fault(tokens: &[Token<'_>]) -> Option<Fault>
    ensures value { result ≡ token_fault (map token_of tokens.now) }
{
    for token in tokens {
        if let Some(fault) = fault_in(*token) {
            return Some(fault);
        }
    }
    None
}

pub(crate) fn is_between(low: i64, high: i64, number: i64) -> bool
    ensures value { result ≡ is_between low high number }
{
    low <= number && number <= high
}

/// Whether a number, or the number less 65,536, lies within the bounds of a field.
fn is_in_field(low: i64, high: i64, number: i64) -> bool
    requires small { nat_abs number ≤ 1_000_000_000 }
    ensures value { result
        ≡ (is_between low high number || is_between low high (number -ℤ pos 65536)) }
{
    let is_signed = is_between(low, high, number);
    let is_unsigned = is_between(low, high, number - 65_536);
    is_signed || is_unsigned
}

fn accepts(form: Form, number: i64) -> bool
    requires small { nat_abs number ≤ 1_000_000_000 }
    ensures value { result ≡ accepts form number }
{
    match form {
        Form::RegisterOrImmediate => is_in_field(-16, 31, number),
        Form::Offset => is_in_field(-32, 63, number),
        Form::Target => is_in_field(-256, 511, number),
        Form::FarTarget => is_in_field(-1024, 2047, number),
        Form::Vector => is_between(0, 255, number),
        Form::Address => is_between(0, i64::from(FIRST_DEVICE), number),
        Form::Count => is_between(1, i64::from(FIRST_DEVICE), number),
        Form::Value => is_between(-32_768, 65_535, number),
        Form::Register | Form::Characters => false,
    }
}

fn word_operand(alloc: Global, form: Form, word: &[u8]) -> Result<Operand, LineError>
    ensures exact { Gives seen_operand result
        (operand_by_register form word.now (register word.now)) }
{
    match register(word) {
        Some(register) if form.takes_register() => Ok(Operand::Register(register)),
        Some(_) => Err(LineError::Fault(Fault::BadOperands)),
        None if form == Form::Register => Err(LineError::Fault(Fault::BadOperands)),
        None => match number_of(word) {
            Some(number) if accepts(form, number) => Ok(Operand::Number(number)),
            Some(_) => Err(LineError::Fault(Fault::Range)),
            None if form.takes_label() && is_label(word) => Ok(Operand::Label(upper(alloc, word)?)),
            None => Err(LineError::Fault(Fault::BadNumber)),
        },
    }
}

/// What a token says in the place of an operand of this form, or its fault there.
pub fn token_operand(alloc: Global, form: Form, token: Token<'_>) -> Result<Operand, LineError>
    ensures exact { Gives seen_operand result (operand form (token_of token.entry)) }
{
    match (form, token) {
        (Form::Characters, Token::Quoted(text)) => match characters(alloc, text)? {
            Some(characters) => Ok(Operand::Characters(characters)),
            None => Err(LineError::Fault(Fault::BadString)),
        },
        (Form::Characters, _) => Err(LineError::Fault(Fault::BadOperands)),
        (_, Token::Word(word)) => word_operand(alloc, form, word),
        _ => Err(LineError::Fault(Fault::BadOperands)),
    }
}

/// The operands, of which there are as many as the operation takes; or the leftmost fault among them.
pub fn all_operands(
    alloc: Global,
    forms: &[Form],
    tokens: &[Token<'_>],
) -> Result<Vec<Operand>, LineError>
    ensures exact { Gives (λ v. map seen_operand v.items) result
        (all_operands forms.now (map token_of tokens.now)) }
{
    if forms.len() != tokens.len() {
        return Err(LineError::Fault(Fault::BadOperands));
    }
    let mut found = Vec::new(alloc);
    for (i, token) in tokens.iter().enumerate() {
        found.push(token_operand(alloc, forms[i], *token)?)?;
    }
    Ok(found)
}

/// The register that a word names, in either case.
#[tactic(auto, unfolding(lc3_table::specs::Words::register))]
pub fn register(word: &[u8]) -> Option<Reg>
    ensures value { result ≡ register word.now }
{
    match word {
        [b'R' | b'r', digit @ b'0'..=b'7'] => Reg::new(*digit - b'0'),
        _ => None,
    }
}

#[tactic(auto, unfolding(lc3_table::specs::Words::same_name))]
fn is_name(name: &str, word: &[u8]) -> bool
    ensures value { result ≡ same_name name.now word.now }
{
    name.as_bytes().eq_ignore_ascii_case(word)
}

fn operation_shown(word: &[u8]) -> Option<Operation>
    ensures value { result ≡ find (λ o. same_name (name o) word.now) operations }
{
    operations()
        .iter()
        .copied()
        .find(|operation| is_name(operation.name(), word))
}

/// The operation or directive that a word names, in either case. `BR` alone is `BRnzp`.
#[tactic(auto, unfolding(lc3_table::specs::Words::operation))]
pub fn operation(word: &[u8]) -> Option<Operation>
    ensures value { result ≡ operation word.now }
{
    if is_name("BR", word) {
        return Some(Operation::Branch {
            negative: true,
            zero: true,
            positive: true,
        });
    }
    operation_shown(word)
}

#[tactic(auto, unfolding(lc3_table::specs::Words::is_label_byte))]
fn is_label_byte(byte: u8) -> bool
    ensures value { result ≡ is_label_byte byte }
{
    byte.is_ascii_alphanumeric() || byte == b'_'
}

/// The most characters that a label has.
pub const LABEL_LENGTH: usize = 80;

fn is_label_bytes(word: &[u8]) -> bool
    ensures value { result ≡ list_all is_label_byte word.now }
{
    word.iter().all(|byte| is_label_byte(*byte))
}

#[tactic(auto, unfolding(lc3_table::specs::Words::has_label_form, lc3_table::specs::Words::begins_with_digit))]
fn has_label_form(word: &[u8]) -> bool
    ensures value { result ≡ has_label_form word.now }
{
    let fits = !word.is_empty() && word.len() <= LABEL_LENGTH;
    fits && is_label_bytes(word) && !matches!(word, [b'0'..=b'9', ..])
}

#[tactic(auto, unfolding(lc3_table::specs::Words::is_taken))]
fn is_taken(word: &[u8]) -> bool
    ensures value { result ≡ is_taken word.now }
{
    let is_operand = number_of(word).is_some() || register(word).is_some();
    is_operand || operation(word).is_some()
}

/// Whether a word can be a label.
#[tactic(auto, using(crate::proofs::WordLemmas::label_ascii), unfolding(lc3_table::specs::Words::is_label))]
pub fn is_label(word: &[u8]) -> bool
    ensures test { result ≡ is_label word.now }
    ensures ascii { result ≡ true → IsAscii word.now }
{
    has_label_form(word) && !is_taken(word)
}
