//! Labels: where one is defined and used, and its new name.
use crate::document::Answer;
use crate::messages::{changes, edit};
use crate::object::Object;
use crate::positions::{Position, Range};
use crate::sheet::{Mention, Sheet};
use lc3_asm::is_label;
use serde_json::Value;
use std::alloc::{AllocError, Global};

/// A part of a document.
pub(crate) fn location(alloc: Global, uri: &str, range: Range) -> Result<Value, AllocError> {
    let location = Object::new(alloc).with_text("uri", uri)?;
    Ok(location.with("range", range.value(alloc)?)?.value())
}

/// Where the label at a position is defined first.
pub(crate) fn definition(sheet: &Sheet<'_>, position: Position) -> Result<Value, AllocError> {
    let Some(mention) = sheet.mention_at(position)? else {
        return Ok(Value::Null);
    };
    let Some(number) = sheet.line_of(mention.word)? else {
        return Ok(Value::Null);
    };
    let line = sheet.line(number.saturating_sub(1))?;
    match sheet.definition_in(&line) {
        Some(found) => location(sheet.alloc, sheet.uri, found.range),
        None => Ok(Value::Null),
    }
}

/// All places of the label at a position.
fn mentions_at<'a>(sheet: &Sheet<'a>, position: Position) -> Result<Vec<Mention<'a>>, AllocError> {
    match sheet.mention_at(position)? {
        Some(mention) => sheet.mentions(mention.word),
        None => Ok(Vec::new(sheet.alloc)),
    }
}

/// All places of the label at a position, with its definition or without it.
pub(crate) fn references(
    sheet: &Sheet<'_>,
    position: Position,
    with_definition: bool,
) -> Result<Value, AllocError> {
    let mut values = Vec::new(sheet.alloc);
    let mentions = mentions_at(sheet, position)?;
    for mention in &mentions {
        if with_definition || !mention.is_definition {
            values.push(location(sheet.alloc, sheet.uri, mention.range)?)?;
        }
    }
    Ok(Value::Array(values))
}

fn highlight(alloc: Global, mention: Mention<'_>) -> Result<Value, AllocError> {
    let kind = if mention.is_definition { 3u8 } else { 2u8 };
    let highlight = Object::new(alloc).with("kind", Value::from(kind))?;
    Ok(
        highlight
            .with("range", mention.range.value(alloc)?)?
            .value(),
    )
}

/// All places of the label at a position, as they are highlighted.
pub(crate) fn highlights(sheet: &Sheet<'_>, position: Position) -> Result<Value, AllocError> {
    let mut values = Vec::new(sheet.alloc);
    let mentions = mentions_at(sheet, position)?;
    for mention in &mentions {
        values.push(highlight(sheet.alloc, *mention)?)?;
    }
    Ok(Value::Array(values))
}

/// The label at a position as it is written there, with its part of the text.
pub(crate) fn prepare_rename(sheet: &Sheet<'_>, position: Position) -> Result<Value, AllocError> {
    let alloc = sheet.alloc;
    match sheet.mention_at(position)? {
        Some(mention) => {
            let label = Object::new(alloc).with_text("placeholder", mention.word)?;
            Ok(label.with("range", mention.range.value(alloc)?)?.value())
        }
        None => Ok(Value::Null),
    }
}

/// Why a label can't have a new name, if it can't.
fn refusal(sheet: &Sheet<'_>, word: &str, name: &str) -> Result<Option<String>, AllocError> {
    let alloc = sheet.alloc;
    if !is_label(name.as_bytes()) {
        return Ok(Some(format!(in alloc; "{name} is no label")?));
    }
    let is_same = word.as_bytes().eq_ignore_ascii_case(name.as_bytes());
    Ok(match sheet.line_of(name)? {
        Some(number) if !is_same => {
            Some(format!(in alloc; "line {number} defines the label {name} already")?)
        }
        _ => None,
    })
}

fn edits(sheet: &Sheet<'_>, word: &str, name: &str) -> Result<Value, AllocError> {
    let mut values = Vec::new(sheet.alloc);
    let mentions = sheet.mentions(word)?;
    for mention in &mentions {
        values.push(edit(sheet.alloc, mention.range, name)?)?;
    }
    Ok(Value::Array(values))
}

/// The edits that give the label at a position a new name, or why it can't have it.
pub(crate) fn rename(
    sheet: &Sheet<'_>,
    position: Position,
    name: &str,
) -> Result<Answer, AllocError> {
    let alloc = sheet.alloc;
    let Some(mention) = sheet.mention_at(position)? else {
        return Ok(Answer::Refused(String::from_str(alloc, "no label stands here")?));
    };
    match refusal(sheet, mention.word, name)? {
        Some(text) => Ok(Answer::Refused(text)),
        None => {
            let edits = edits(sheet, mention.word, name)?;
            Ok(Answer::Value(changes(alloc, sheet.uri, edits)?))
        }
    }
}
