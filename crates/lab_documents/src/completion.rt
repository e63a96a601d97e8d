//! What may stand at a place.
use crate::messages::edit;
use crate::object::Object;
use crate::positions::{Position, Range};
use crate::sheet::{Line, Mention, Sheet};
use crate::words::{Word, traps, word_of};
use lc3_asm::{Token, without_separators};
use lc3_messages::Part;
use lc3_spelling::{OPERATIONS, shown};
use lc3_table::Form;
use lc3_word::Hex;
use serde_json::Value;
use std::alloc::{AllocError, Global};
use std::fmt::Write;

/// The protocol's numbers of kinds of completions.
const CALL: u8 = 3;

const NAME: u8 = 6;

const KEYWORD: u8 = 14;

const SNIPPET: u8 = 15;

const REGISTERS: [&str; 8] = ["R0", "R1", "R2", "R3", "R4", "R5", "R6", "R7"];

/// Where something may stand in a line: as the token of this number, from 0, in place of these bytes.
#[derive(Clone, Copy)]
struct Gap {
    number: usize,
    start: usize,
    end: usize,
}

/// Whether a place is in the comment of a line, which begins after the last token.
fn is_in_comment(line: &Line<'_>, byte: usize) -> bool {
    let end = line.parts.last().map_or(0, |part| part.span.end);
    let rest = without_separators(line.text.as_bytes().get(end..).unwrap_or(&[]));
    rest.first() == Some(&b';') && line.text.len().saturating_sub(rest.len()) < byte
}

/// Where a place is among the tokens of its line, unless it is inside a string or a comment.
fn gap_at(line: &Line<'_>, byte: usize) -> Option<Gap> {
    if is_in_comment(line, byte) {
        return None;
    }
    let parts = &line.parts;
    let number = parts.iter().filter(|part| part.span.start < byte).count();
    let here = Gap {
        number,
        start: byte,
        end: byte,
    };
    let Some((last, part)) = number
        .checked_sub(1)
        .and_then(|last| Some((last, parts.get(last)?)))
    else {
        return Some(here);
    };
    match part.token {
        Token::Word(_) if byte <= part.span.end => Some(Gap {
            number: last,
            start: part.span.start,
            end: part.span.end,
        }),
        Token::Unclosed => None,
        _ => (part.span.end <= byte).then_some(here),
    }
}

/// What an editor lists: a name of a kind, what is said of it, and what is written in a part of the text.
fn item_of(
    alloc: Global,
    range: Range,
    kind: u8,
    label: &str,
    detail: &str,
    text: &str,
) -> Result<Object, AllocError> {
    Object::new(alloc)
        .with_text("label", label)?
        .with("kind", Value::from(kind))?
        .with_text("detail", detail)?
        .with("textEdit", edit(alloc, range, text)?)
}

fn item(
    alloc: Global,
    range: Range,
    kind: u8,
    label: &str,
    detail: &str,
    text: &str,
) -> Result<Value, AllocError> {
    Ok(item_of(alloc, range, kind, label, detail, text)?.value())
}

fn operation_item(alloc: Global, range: Range, name: &'static str) -> Result<Value, AllocError> {
    let form = word_of(name).map_or("", |word| word.form);
    item(alloc, range, KEYWORD, shown(name), form, shown(name))
}

fn call_item(alloc: Global, range: Range, word: &Word, vector: u8) -> Result<Value, AllocError> {
    let text = format!(in alloc; "TRAP x{vector:02X}")?;
    item(alloc, range, CALL, word.name, word.form, &text)
}

/// The lines that fill the registers of a call and make it.
fn lines_item(alloc: Global, range: Range, word: &Word) -> Result<Value, AllocError> {
    let label = format!(in alloc; "{} with its registers", word.name)?;
    let item = item_of(alloc, range, SNIPPET, &label, word.form, word.lines)?.with(
        "insertTextFormat",
        Value::from(2u8),
    )?;
    Ok(item.with_text("filterText", word.name)?.value())
}

fn vector_item(alloc: Global, range: Range, word: &Word, vector: u8) -> Result<Value, AllocError> {
    let text = format!(in alloc; "x{vector:02X}")?;
    let item = item_of(alloc, range, CALL, word.name, word.form, &text)?;
    Ok(item.with_text("filterText", word.name)?.value())
}

fn label_item(sheet: &Sheet<'_>, range: Range, mention: Mention<'_>) -> Result<Value, AllocError> {
    let alloc = sheet.alloc;
    let (label, number) = (mention.word, mention.line.saturating_add(1));
    let mut about = format!(in alloc; "line {number}")?;
    if let Some(address) = sheet.address_of(label)? {
        write!(about, ", {}", Hex(address))?;
    }
    item(alloc, range, NAME, label, &about, label)
}

fn push_operations(alloc: Global, items: &mut Vec<Value>, range: Range) -> Result<(), AllocError> {
    for name in &OPERATIONS {
        items.push(operation_item(alloc, range, name)?)?;
    }
    Ok(())
}

fn push_calls(alloc: Global, items: &mut Vec<Value>, range: Range) -> Result<(), AllocError> {
    for word in traps() {
        if let Some(vector) = word.call() {
            items.push(call_item(alloc, range, word, vector)?)?;
        }
    }
    Ok(())
}

fn push_lines(alloc: Global, items: &mut Vec<Value>, range: Range) -> Result<(), AllocError> {
    for word in traps() {
        if !word.lines.is_empty() {
            items.push(lines_item(alloc, range, word)?)?;
        }
    }
    Ok(())
}

fn operations(sheet: &Sheet<'_>, range: Range) -> Result<Vec<Value>, AllocError> {
    let alloc = sheet.alloc;
    let mut items = Vec::new(alloc);
    push_operations(alloc, &mut items, range)?;
    push_calls(alloc, &mut items, range)?;
    if sheet.shows.snippets {
        push_lines(alloc, &mut items, range)?;
    }
    Ok(items)
}

fn registers(alloc: Global, range: Range) -> Result<Vec<Value>, AllocError> {
    let mut items = Vec::new(alloc);
    for label in REGISTERS {
        items.push(item(alloc, range, NAME, label, "register", label)?)?;
    }
    Ok(items)
}

fn vectors(alloc: Global, range: Range) -> Result<Vec<Value>, AllocError> {
    let mut items = Vec::new(alloc);
    for word in traps() {
        if let Some(vector) = word.vector {
            items.push(vector_item(alloc, range, word, vector)?)?;
        }
    }
    Ok(items)
}

fn labels(sheet: &Sheet<'_>, range: Range) -> Result<Vec<Value>, AllocError> {
    let mut items = Vec::new(sheet.alloc);
    let mentions = sheet.definitions()?;
    for mention in &mentions {
        items.push(label_item(sheet, range, *mention)?)?;
    }
    Ok(items)
}

/// Whether a token of this number may be the operation of its line.
fn may_be_operation(parts: &[Part<'_>], number: usize) -> bool {
    match (number, parts) {
        (0, _) => true,
        (1, [first, ..]) => !first.is_operation(),
        _ => false,
    }
}

/// All that fits a place of a line.
fn items(sheet: &Sheet<'_>, line: &Line<'_>, gap: Gap) -> Result<Vec<Value>, AllocError> {
    let alloc = sheet.alloc;
    let range = line.range(gap.start, gap.end);
    if may_be_operation(&line.parts, gap.number) {
        return operations(sheet, range);
    }
    match line.form_at(gap.number) {
        Some(form) if form.takes_register() => registers(alloc, range),
        Some(form) if form.takes_label() => labels(sheet, range),
        Some(Form::Vector) => vectors(alloc, range),
        _ => Ok(Vec::new(alloc)),
    }
}

/// What may stand at a position.
pub(crate) fn completion(sheet: &Sheet<'_>, position: Position) -> Result<Value, AllocError> {
    let alloc = sheet.alloc;
    let (line, byte) = sheet.place(position)?;
    let items = match gap_at(&line, byte) {
        Some(gap) if line.number < sheet.line_count() => items(sheet, &line, gap)?,
        _ => Vec::new(alloc),
    };
    let list = Object::new(alloc).with("items", Value::Array(items))?;
    Ok(list.with("isIncomplete", Value::from(false))?.value())
}
