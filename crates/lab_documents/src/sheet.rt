//! A document as it is read: its tokens by place, and what stands there.
use crate::document::{Document, Shows};
use crate::positions::{Position, Range, byte_at};
use lc3_asm::{AsmFault, Assembled, Row, Token, assemble, is_label, token_operation, upper};
use lc3_messages::{Part, Source, line_of, name_of, operation_number, parts_of, source_of};
use lc3_table::{Fault, Form, Operation};
use std::alloc::{AllocError, Global};

/// A document as it is read, whether or not it has faults, and if it has none what it is assembled to.
#[derive(Drop)]
pub(crate) struct Sheet<'a> {
    pub alloc: Global,
    pub uri: &'a str,
    text: &'a str,
    pub shows: Shows,
    pub source: Source<'a>,
    pub assembled: Option<Assembled>,
}

/// A line with its tokens; behind `.END` there are none.
#[derive(Drop)]
pub(crate) struct Line<'a> {
    /// From 0.
    pub number: usize,
    /// Without the carriage return at its end.
    pub text: &'a str,
    pub parts: Vec<Part<'a>>,
}

/// A label where it is defined or used.
#[derive(Clone, Copy)]
pub(crate) struct Mention<'a> {
    /// The number of the line, from 0.
    pub line: usize,
    pub range: Range,
    /// As it is written, without the `:` at its end.
    pub word: &'a str,
    pub is_definition: bool,
}

/// Whether two words are the same label.
fn is_same(word: &str, other: &str) -> bool {
    word.as_bytes().eq_ignore_ascii_case(other.as_bytes())
}

impl<'a> Line<'a> {
    /// The number of the token at a byte, from 0: of two that meet there the one that begins.
    pub fn token_at(&self, byte: usize) -> Option<usize> {
        let parts = &self.parts;
        let begun = parts.iter().filter(|part| part.span.start <= byte).count();
        let number = begun.checked_sub(1)?;
        let part = parts.get(number)?;
        (byte <= part.span.end).then_some(number)
    }

    /// The operation, if there is one, with the number of its token.
    pub fn operation(&self) -> Option<(usize, Operation)> {
        let number = operation_number(&self.parts);
        let operation = token_operation(self.parts.get(number)?.token)?;
        Some((number, operation))
    }

    /// What may stand as the token with this number, if it is the place of an operand.
    pub fn form_at(&self, number: usize) -> Option<Form> {
        let (at, operation) = self.operation()?;
        let place = number.checked_sub(at)?.checked_sub(1)?;
        operation.forms().get(place).copied()
    }

    fn takes_label(&self, number: usize) -> bool {
        match self.form_at(number) {
            Some(form) => form.takes_label(),
            None => false,
        }
    }

    /// A part of the line, by its bytes.
    pub fn range(&self, start: usize, end: usize) -> Range {
        Range::of(self.text, self.number, start, end)
    }

    pub fn whole(&self) -> Range {
        self.range(0, self.text.len())
    }

    /// A token as a label, without its colon.
    fn mention_of(&self, part: Part<'a>, is_definition: bool) -> Mention<'a> {
        let word = name_of(part.word);
        let start = part.span.start;
        Mention {
            line: self.number,
            range: self.range(start, start.saturating_add(word.len())),
            word,
            is_definition,
        }
    }

    /// The label that a token uses, if it is an operand in the place of one.
    fn use_at(&self, number: usize) -> Option<Mention<'a>> {
        let part = *self.parts.get(number)?;
        match part.token {
            Token::Word(word) if is_label(word) && self.takes_label(number) => {
                Some(self.mention_of(part, false))
            }
            _ => None,
        }
    }
}

fn assembled_if(alloc: Global, text: &str) -> Result<Option<Assembled>, AllocError> {
    match assemble(alloc, text) {
        Ok(assembled) => Ok(Some(assembled)),
        Err(AsmFault::NoMemory) => Err(AllocError),
        Err(AsmFault::At { .. }) => Ok(None),
    }
}

impl<'a> Sheet<'a> {
    pub fn new(alloc: Global, document: Document<'a>) -> Result<Sheet<'a>, AllocError> {
        let text = document.text;
        let assembled = assembled_if(alloc, text)?;
        Ok(Sheet {
            alloc,
            uri: document.uri,
            text,
            shows: document.shows,
            source: source_of(alloc, text)?,
            assembled,
        })
    }

    /// How many lines count: those up to `.END`.
    pub fn line_count(&self) -> usize {
        self.source.reader.lines().len()
    }

    /// A line by its number, from 0.
    pub fn line(&self, number: usize) -> Result<Line<'a>, AllocError> {
        let text = self.source.line(number.saturating_add(1));
        let parts = if number < self.line_count() {
            parts_of(self.alloc, text)?
        } else {
            Vec::new(self.alloc)
        };
        Ok(Line {
            number,
            text,
            parts,
        })
    }

    /// The line at a position and the byte there: one beyond a line's end is its end, and one beyond the last line the end of
    /// the text.
    pub fn place(&self, position: Position) -> Result<(Line<'a>, usize), AllocError> {
        let (number, byte) = match self.text.split('\n').nth(position.line) {
            Some(text) => (position.line, byte_at(text, position.character)),
            None => (
                self.source.lines.len().saturating_sub(1),
                self.text.rsplit('\n').next().unwrap_or("").len(),
            ),
        };
        Ok((self.line(number)?, byte))
    }

    fn fault_of(&self, line: usize) -> Option<Fault> {
        let faults = self.source.reader.faults();
        let number = line.saturating_add(1);
        let at = faults.binary_search_by_key(&number, |fault| fault.line);
        Some(faults.get(at.ok()?)?.kind)
    }

    /// The label that a line defines. A line with another fault does if an operation stands behind it.
    pub fn definition_in(&self, line: &Line<'a>) -> Option<Mention<'a>> {
        let first = *line.parts.first()?;
        let is_label = is_label(name_of(first.word).as_bytes());
        let defines = match self.fault_of(line.number) {
            None | Some(Fault::DuplicateLabel) => true,
            Some(_) => {
                let second = line
                    .parts
                    .get(1)
                    .and_then(|part| token_operation(part.token));
                !matches!(second, None | Some(Operation::Origin))
            }
        };
        (is_label && defines).then_some(line.mention_of(first, true))
    }

    /// The label that a token of a line defines or uses.
    pub fn mention(&self, line: &Line<'a>, number: usize) -> Option<Mention<'a>> {
        let definition = if number == 0 {
            self.definition_in(line)
        } else {
            None
        };
        definition.or(line.use_at(number))
    }

    /// The label at a position.
    pub fn mention_at(&self, position: Position) -> Result<Option<Mention<'a>>, AllocError> {
        let (line, byte) = self.place(position)?;
        Ok(match line.token_at(byte) {
            Some(number) => self.mention(&line, number),
            None => None,
        })
    }

    fn push_mentions(
        &self,
        found: &mut Vec<Mention<'a>>,
        line: &Line<'a>,
        name: &str,
    ) -> Result<(), AllocError> {
        for number in 0..line.parts.len() {
            if let Some(mention) = self.mention(line, number)
                && is_same(mention.word, name)
            {
                found.push(mention)?;
            }
        }
        Ok(())
    }

    /// All places of a label, in order.
    pub fn mentions(&self, name: &str) -> Result<Vec<Mention<'a>>, AllocError> {
        let mut found = Vec::new(self.alloc);
        for number in 0..self.line_count() {
            self.push_mentions(&mut found, &self.line(number)?, name)?;
        }
        Ok(found)
    }

    /// The number of the first line that defines a label, from 1.
    pub fn line_of(&self, name: &str) -> Result<Option<usize>, AllocError> {
        line_of(self.alloc, &self.source.labels.definitions, name)
    }

    /// All labels, each where it is defined first, in order.
    pub fn definitions(&self) -> Result<Vec<Mention<'a>>, AllocError> {
        let mut found = Vec::new(self.alloc);
        for number in self.source.labels.definitions.values() {
            let line = self.line(number.saturating_sub(1))?;
            if let Some(mention) = self.definition_in(&line) {
                found.push(mention)?;
            }
        }
        Ok(found)
    }

    /// The address of a label, if the source is accepted.
    pub fn address_of(&self, name: &str) -> Result<Option<u16>, AllocError> {
        let Some(assembled) = &self.assembled else {
            return Ok(None);
        };
        if !is_label(name.as_bytes()) {
            return Ok(None);
        }
        let name = upper(self.alloc, name.as_bytes())?;
        Ok(assembled.symbols().value(&name))
    }

    /// The words of a line, if the source is accepted and it has some.
    pub fn row(&self, line: usize) -> Option<Row> {
        let rows = self.assembled.as_ref()?.rows();
        let number = line.saturating_add(1);
        rows.iter().copied().find(|row| row.line == number)
    }
}
