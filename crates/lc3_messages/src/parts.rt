//! The tokens of a line with their places, and which of them has the fault of the line.

use lc3_asm::{
    LineError, Operand, Token, fault_in, first_token, token_operand, token_operation,
    without_separators,
};
use lc3_table::{Fault, Form, Operation};
use std::alloc::{AllocError, Global};

/// A part of a line, by the places of its bytes.
#[derive(Clone, Copy)]
pub struct Span {
    /// The place of its first byte in the line, from 0.
    pub start: usize,
    /// The place behind its last byte.
    pub end: usize,
}

/// What is said of a part of a line.
#[derive(Drop)]
pub(crate) struct Remark {
    /// The part that is marked, if it isn't empty.
    pub mark: Span,
    pub text: String,
}

/// A token of a line, where it stands and as what it is written.
#[derive(Clone, Copy)]
pub struct Part<'a> {
    pub token: Token<'a>,
    pub span: Span,
    pub word: &'a str,
}

impl Part<'_> {
    /// Whether it names an operation or a directive.
    pub fn is_operation(&self) -> bool {
        token_operation(self.token).is_some()
    }

    pub(crate) fn is_origin(&self) -> bool {
        matches!(token_operation(self.token), Some(Operation::Origin))
    }

    pub(crate) fn remark(&self, text: String) -> Remark {
        let mark = self.span;
        Remark { mark, text }
    }
}

/// What stands in the place of a token where a line has none.
pub(crate) const NOTHING: Part<'static> = Part {
    token: Token::Unclosed,
    span: Span { start: 0, end: 0 },
    word: "",
};

/// The tokens of a line, in order.
pub fn parts_of(alloc: Global, line: &str) -> Result<Vec<Part<'_>>, AllocError> {
    let mut parts = Vec::new(alloc);
    let mut rest = without_separators(line.as_bytes());
    while let Some((token, after)) = first_token(rest) {
        let start = line.len().saturating_sub(rest.len());
        let end = line.len().saturating_sub(after.len());
        let word = line.get(start..end).unwrap_or("");
        let span = Span { start, end };
        parts.push(Part { token, span, word })?;
        rest = without_separators(after);
    }
    Ok(parts)
}

/// The number of the operation among the tokens of a line, from 0: 1 behind a label, else 0.
pub fn operation_number(parts: &[Part<'_>]) -> usize {
    match parts {
        [first, second, ..] if !first.is_operation() && second.is_operation() => 1,
        _ => 0,
    }
}

/// A token with a fault, by its number in the line, from 0, and what could stand there as operands: of
/// an operand one form, of an operation those of all its operands.
#[derive(Clone, Copy)]
pub(crate) struct Faulty {
    pub number: usize,
    pub forms: &'static [Form],
}

/// The leftmost operand with such a fault, or where there are too few or too many the operation.
fn faulty_operand(alloc: Global, parts: &[Part<'_>], kind: Fault) -> Result<Faulty, AllocError> {
    let at = operation_number(parts);
    let forms = match parts.get(at).and_then(|part| token_operation(part.token)) {
        Some(operation) => operation.forms(),
        None => &[],
    };
    let first = at.saturating_add(1);
    let operands = parts.get(first..).unwrap_or(&[]);
    if forms.len() == operands.len() {
        for (i, part) in operands.iter().enumerate() {
            let has_fault = match token_operand(alloc, forms[i], part.token) {
                Ok(Operand::Label(_)) => matches!(kind, Fault::Undefined | Fault::OffsetRange),
                Ok(_) => false,
                Err(LineError::Fault(found)) => found == kind,
                Err(LineError::Memory) => return Err(AllocError),
            };
            if has_fault {
                return Ok(Faulty {
                    number: first.saturating_add(i),
                    forms: &forms[i..i + 1],
                });
            }
        }
    }
    Ok(Faulty { number: at, forms })
}

/// The token of a line with a fault of this kind, with which the assembler refused its text.
pub(crate) fn faulty_part(
    alloc: Global,
    parts: &[Part<'_>],
    kind: Fault,
) -> Result<Faulty, AllocError> {
    let number = match kind {
        Fault::BadToken | Fault::BadString => parts
            .iter()
            .position(|part| fault_in(part.token) == Some(kind))
            .unwrap_or(0),
        Fault::BadLabel | Fault::BadOperation | Fault::DuplicateLabel => 0,
        Fault::NoOrig | Fault::SecondOrig | Fault::TooLong => operation_number(parts),
        _ => return faulty_operand(alloc, parts, kind),
    };
    Ok(Faulty { number, forms: &[] })
}
