//! The labels of a document as an editor lists them, and the addresses of its lines.
use crate::labels::location;
use crate::object::Object;
use crate::positions::{Position, Range};
use crate::sheet::{Line, Mention, Sheet};
use lc3_asm::{Row, is_label, upper};
use lc3_messages::{LabelLines, line_of};
use lc3_table::Operation;
use lc3_word::Hex;
use serde_json::Value;
use std::alloc::{AllocError, Global};

/// The protocol's numbers of kinds of symbols.
const FUNCTION: u8 = 12;

const VARIABLE: u8 = 13;

const KEY: u8 = 20;

/// Keeps the subroutine that a line jumps to.
fn keep_called(alloc: Global, called: &mut LabelLines, line: &Line<'_>) -> Result<(), AllocError> {
    let Some((at, Operation::JumpSubroutine)) = line.operation() else {
        return Ok(());
    };
    if let Some(part) = line.parts.get(at.saturating_add(1))
        && is_label(part.word.as_bytes())
    {
        let name = upper(alloc, part.word.as_bytes())?;
        called.entry(name)?.or_insert(line.number);
    }
    Ok(())
}

/// The names of the subroutines that lines jump to.
fn called_in(sheet: &Sheet<'_>) -> Result<LabelLines, AllocError> {
    let mut called = LabelLines::new(sheet.alloc);
    for number in 0..sheet.line_count() {
        keep_called(sheet.alloc, &mut called, &sheet.line(number)?)?;
    }
    Ok(called)
}

/// What kind of symbol the label of a line is: of data, of a subroutine, or of another line.
fn kind_of(
    alloc: Global,
    called: &LabelLines,
    line: &Line<'_>,
    name: &str,
) -> Result<u8, AllocError> {
    if let Some((_, Operation::Fill | Operation::Block | Operation::Text)) = line.operation() {
        return Ok(VARIABLE);
    }
    let is_called = line_of(alloc, called, name)?.is_some();
    Ok(if is_called { FUNCTION } else { KEY })
}

/// The address of a label, if the source is accepted.
fn with_address(sheet: &Sheet<'_>, symbol: Object, name: &str) -> Result<Object, AllocError> {
    match sheet.address_of(name)? {
        Some(address) => {
            let address = format!(in sheet.alloc; "{}", Hex(address))?;
            symbol.with_text("detail", &address)
        }
        None => Ok(symbol),
    }
}

/// The ranges of a label: its line, and the label itself.
fn with_ranges(
    alloc: Global,
    symbol: Object,
    whole: Range,
    own: Range,
) -> Result<Object, AllocError> {
    let symbol = symbol.with("range", whole.value(alloc)?)?;
    symbol.with("selectionRange", own.value(alloc)?)
}

/// The kind of a label that is defined, and the range of its line.
fn kind_and_line(
    sheet: &Sheet<'_>,
    called: &LabelLines,
    mention: Mention<'_>,
) -> Result<(u8, Range), AllocError> {
    let line = sheet.line(mention.line)?;
    let kind = kind_of(sheet.alloc, called, &line, mention.word)?;
    Ok((kind, line.whole()))
}

/// A label that is defined; in a tree it has its own ranges.
fn symbol(
    sheet: &Sheet<'_>,
    called: &LabelLines,
    mention: Mention<'_>,
) -> Result<Value, AllocError> {
    let (alloc, name) = (sheet.alloc, mention.word);
    let (kind, whole) = kind_and_line(sheet, called, mention)?;
    let symbol = Object::new(alloc)
        .with_text("name", name)?
        .with("kind", Value::from(kind))?;
    let symbol = if sheet.shows.trees {
        with_address(
            sheet,
            with_ranges(alloc, symbol, whole, mention.range)?,
            name,
        )
    } else {
        symbol.with("location", location(alloc, sheet.uri, whole)?)
    };
    Ok(symbol?.value())
}

fn symbols_of(
    sheet: &Sheet<'_>,
    called: &LabelLines,
    mentions: &[Mention<'_>],
) -> Result<Value, AllocError> {
    let mut values = Vec::new(sheet.alloc);
    for mention in mentions {
        values.push(symbol(sheet, called, *mention)?)?;
    }
    Ok(Value::Array(values))
}

/// The labels that are defined, in order.
pub(crate) fn symbols(sheet: &Sheet<'_>) -> Result<Value, AllocError> {
    let called = called_in(sheet)?;
    let mentions = sheet.definitions()?;
    symbols_of(sheet, &called, &mentions)
}

fn hint(alloc: Global, row: Row) -> Result<Value, AllocError> {
    let position = Position {
        line: row.line.saturating_sub(1),
        character: 0,
    };
    let label = format!(in alloc; "{}", Hex(row.address))?;
    let hint = Object::new(alloc)
        .with_text("label", &label)?
        .with("paddingRight", Value::from(true))?;
    Ok(hint.with("position", position.value(alloc)?)?.value())
}

/// The addresses of the lines with words in a part of a source, if it is accepted.
pub(crate) fn hints(sheet: &Sheet<'_>, range: Range) -> Result<Value, AllocError> {
    let mut values = Vec::new(sheet.alloc);
    if let Some(assembled) = &sheet.assembled {
        for row in assembled.rows() {
            if range.start.line < row.line && row.line <= range.end.line.saturating_add(1) {
                values.push(hint(sheet.alloc, *row)?)?;
            }
        }
    }
    Ok(Value::Array(values))
}
