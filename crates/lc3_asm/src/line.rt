//! A line of a source text.
ghost use Rattle.std.specs.Prelude.{◌≡◌, option_map, string_bytes, map, ◌≤◌, ◌^◌, ◌<◌, IsTrue, true, false, slice_index, IfNone, IfSome, IfOk, [], ◌∷◌, length};
ghost use Rattle.lc3_asm.specs.Views.{token_of, seen_line};
ghost use Rattle.lc3_asm.specs.Results.{Gives};
ghost use Rattle.lc3_table.specs.Statements.{label_defined, operation_order, with_operands, unless, Operates, line_of, line};
ghost use Rattle.std.specs.List.{prefix_len};
ghost use Rattle.lc3_table.specs.Tokens.{is_separator, is_word_byte, tokens, tokens_from, Inside};
ghost use Rattle.lc3_asm.specs.Private.Words.{starts_with_word};

use crate::passes::LineError;
use crate::statement::{
    Operand, all_operands, is_label, token_fault, token_operation, upper, without_colon,
};
use lc3_table::{Fault, Operation};
use std::alloc::{AllocError, Global};

/// What a line says.
#[derive(Drop)]
pub enum Line {
    /// Nothing but separators and a comment.
    Blank,
    /// A label, in upper case, and nothing else.
    LabelAlone(String),
    /// An operation or directive with its operands, behind a label in upper case or none.
    Operates {
        label: Option<String>,
        operation: Operation,
        operands: Vec<Operand>,
    },
}

pub fn label_defined(alloc: Global, token: Token<'_>) -> Result<String, LineError>
    ensures exact { Gives string_bytes result (label_defined (token_of token.entry)) }
{
    match token {
        Token::Word([b'.', ..]) => Err(LineError::Fault(Fault::BadOperation)),
        Token::Word(word) if is_label(without_colon(word)) => Ok(upper(
            alloc,
            without_colon(word),
        )?),
        Token::Word(_) => Err(LineError::Fault(Fault::BadLabel)),
        _ => Err(LineError::Fault(Fault::BadOperation)),
    }
}

fn operation_order(started: bool, operation: Operation) -> Option<Fault>
    ensures value { result ≡ operation_order started operation }
{
    match (operation, started) {
        (Operation::Origin, true) => Some(Fault::SecondOrig),
        (Operation::Origin, false) | (_, true) => None,
        (_, false) => Some(Fault::NoOrig),
    }
}

fn operates(
    alloc: Global,
    started: bool,
    label: Option<String>,
    operation: Operation,
    tokens: &[Token<'_>],
) -> Result<Line, LineError>
    ensures exact { Gives seen_line result
        (unless (operation_order started operation) (with_operands
        (Operates (option_map string_bytes label) operation (map token_of tokens.now)))) }
{
    if let Some(fault) = operation_order(started, operation) {
        return Err(LineError::Fault(fault));
    }
    let operands = all_operands(alloc, operation.forms(), tokens)?;
    Ok(Line::Operates {
        label,
        operation,
        operands,
    })
}

/// What the tokens of a line say, where a `.ORIG` stands before the line or not.
fn line_of(alloc: Global, started: bool, tokens: &[Token<'_>]) -> Result<Line, LineError>
    ensures exact { Gives seen_line result (line_of started (map token_of tokens.now)) }
{
    if let Some(fault) = token_fault(tokens) {
        return Err(LineError::Fault(fault));
    }
    let Some((first, rest)) = tokens.split_first() else {
        return Ok(Line::Blank);
    };
    if let Some(operation) = token_operation(*first) {
        return operates(alloc, started, None, operation, rest);
    }
    let label = label_defined(alloc, *first)?;
    let Some((second, rest)) = rest.split_first() else {
        return if started {
            Ok(Line::LabelAlone(label))
        } else {
            Err(LineError::Fault(Fault::NoOrig))
        };
    };
    match token_operation(*second) {
        None => Err(LineError::Fault(Fault::BadOperation)),
        Some(Operation::Origin) => Err(LineError::Fault(Fault::BadLabel)),
        Some(operation) => operates(alloc, started, Some(label), operation, rest),
    }
}

/// What a line says, where a `.ORIG` stands before it or not; or its first fault.
pub fn read_line(alloc: Global, started: bool, bytes: &[u8]) -> Result<Line, LineError>
    ensures exact { Gives seen_line result (line started bytes.now) }
{
    let tokens = tokens(alloc, bytes)?;
    line_of(alloc, started, &tokens)
}

impl Line {
    ghost use Rattle.lc3_table.specs.Meaning.{size};
    ghost use Rattle.lc3_asm.specs.Texts.{label_of, is_end, origin_named};

    /// How many words the line makes.
    pub fn size(&self) -> u64
        ensures words { result ≡ size (seen_line self.now) }
        ensures fits { result ≤ 2 ^ 63 }
    {
        match self {
            Line::Operates {
                operation,
                operands,
                ..
            } => match (operation, operands.first()) {
                (Operation::Origin | Operation::End, _) => 0,
                (Operation::Block, Some(Operand::Number(count))) => count.unsigned_abs(),
                (Operation::Text, Some(Operand::Characters(characters))) => characters.len() as u64
                    + 1,
                _ => 1,
            },
            _ => 0,
        }
    }

    /// The label that the line defines.
    pub fn label(&self) -> Option<&str>
        ensures label { option_map (λ name. name.now) result ≡ label_of (seen_line self.now) }
    {
        match self {
            Line::LabelAlone(name)
            | Line::Operates {
                label: Some(name),
                ..
            } => Some(name.as_str()),
            _ => None,
        }
    }

    /// The number that a `.ORIG` names.
    pub fn origin(&self) -> Option<u64>
        ensures value { result ≡ origin_named (seen_line self.now) }
    {
        match self {
            Line::Operates {
                operation: Operation::Origin,
                operands,
                ..
            } => match operands.first() {
                Some(Operand::Number(address)) => Some(address.unsigned_abs()),
                _ => Some(0),
            },
            _ => None,
        }
    }

    /// Whether the line is `.END`.
    pub fn is_end(&self) -> bool
        ensures value { result ≡ is_end (seen_line self.now) }
    {
        matches!(
            self,
            Line::Operates {
                operation: Operation::End,
                ..
            }
        )
    }
}

/// A token of a line.
#[derive(Clone, Copy)]
pub enum Token<'a> {
    Word(&'a [u8]),
    /// What stands between the quotes.
    Quoted(&'a [u8]),
    /// A string with no quote at its end.
    Unclosed,
}

const SEPARATORS: &[u8] = b" \t,\r";

fn is_separator(byte: u8) -> bool
    ensures value { result ≡ is_separator byte }
{
    SEPARATORS.contains(&byte)
}

/// Whether a word goes on with this byte: no separator, `;` or `"`.
fn is_word_byte(byte: u8) -> bool
    ensures value { result ≡ is_word_byte byte }
{
    !is_separator(byte) && byte != b';' && byte != b'"'
}

/// The string whose opening quote stands before the text, and what follows it.
fn quoted(text: &[u8]) -> (Token<'_>, &[u8])
    ensures first { tokens_from (Inside []) text.now ≡ token_of result.0 ∷ tokens result.1.now }
    ensures shorter { length result.1.now ≤ length text.now }
{
    let mut escaped = false;
    for (i, byte) in text.iter().enumerate() {
        if escaped {
            escaped = false;
        } else if *byte == b'"' {
            return (Token::Quoted(&text[..i]), &text[i + 1..]);
        } else if *byte == b'\\' {
            escaped = true;
        }
    }
    (Token::Unclosed, &[])
}

fn separators_len(line: &[u8]) -> usize
    ensures count { result ≡ prefix_len is_separator line.now }
    ensures within { result ≤ length line.now }
{
    line.iter().take_while(|byte| is_separator(**byte)).count()
}

fn word_len(line: &[u8]) -> usize
    ensures count { result ≡ prefix_len is_word_byte line.now }
    ensures within { result ≤ length line.now }
{
    line.iter().take_while(|byte| is_word_byte(**byte)).count()
}

/// A line from its first token on.
pub fn without_separators(line: &[u8]) -> &[u8]
    ensures same { tokens line.now ≡ tokens result.now }
    ensures shorter { length result.now ≤ length line.now }
    ensures begun { 0 < length result.now → is_separator (slice_index result.now 0) ≡ false }
{
    &line[separators_len(line)..]
}

/// The word at the front, and what follows it.
fn word(line: &[u8]) -> (Token<'_>, &[u8])
    requires begins { IsTrue (starts_with_word line.now) }
    ensures first { tokens line.now ≡ token_of result.0 ∷ tokens result.1.now }
    ensures shorter { length result.1.now < length line.now }
{
    let (word, rest) = line.split_at(word_len(line));
    (Token::Word(word), rest)
}

/// The first token of a line, and what follows it.
pub fn first_token(line: &[u8]) -> Option<(Token<'_>, &[u8])>
    ensures none { IfNone result (tokens line.now ≡ []) }
    ensures first { IfSome result
        (λ found. tokens line.now ≡ token_of found.0 ∷ tokens found.1.now) }
    ensures shorter { IfSome result (λ found. length found.1.now < length line.now) }
{
    let line = without_separators(line);
    let (byte, text) = line.split_first()?;
    match byte {
        b';' => None,
        b'"' => Some(quoted(text)),
        _ => Some(word(line)),
    }
}

/// The tokens of a line, in order.
pub fn tokens(alloc: Global, line: &[u8]) -> Result<Vec<Token<'_>>, AllocError>
    ensures value { IfOk result (λ found. map token_of found.items ≡ tokens line.now) }
{
    let mut found = Vec::new(alloc);
    let mut rest = line;
    while let Some((token, after)) = first_token(rest) {
        found.push(token)?;
        rest = after;
    }
    Ok(found)
}
