//! Places in a text, as the protocol counts them: lines and UTF-16 units, both from 0.
ghost use Rattle.std.specs.Prelude.{◌≡◌, IfOk};
ghost use Rattle.serde_json.specs.View.{view};
ghost use Rattle.lab_documents.specs.Private.Positions.{position_data, range_data};

use crate::object::Object;
use serde_json::Value;
use std::alloc::{AllocError, Global};

/// A place in a text.
#[derive(Clone, Copy, Debug, PartialEq, Eq)]
pub struct Position {
    pub line: usize,
    /// The UTF-16 units before it in its line.
    pub character: usize,
}

/// A part of a text.
#[derive(Clone, Copy, Debug, PartialEq, Eq)]
pub struct Range {
    pub start: Position,
    pub end: Position,
}

impl Position {
    fn is_up_to(self, other: Position) -> bool {
        self.line < other.line || self.line == other.line && self.character <= other.character
    }

    pub(crate) fn value(self, alloc: Global) -> Result<Value, AllocError>
        ensures value { IfOk result (λ v. view v ≡ position_data self) }
    {
        Ok(
            Object::new(alloc)
                .with("line", Value::from(self.line))?
                .with("character", Value::from(self.character))?
                .value(),
        )
    }
}

impl Range {
    /// A part of one line, by its bytes.
    pub(crate) fn of(text: &str, line: usize, start: usize, end: usize) -> Range
        ensures start { result.start.line ≡ line }
        ensures end { result.end.line ≡ line }
    {
        let before = unit_count(text.get(..start).unwrap_or(""));
        let inside = unit_count(text.get(start..end).unwrap_or(""));
        let at = |character| Position { line, character };
        Range {
            start: at(before),
            end: at(before.saturating_add(inside)),
        }
    }

    pub(crate) fn touches(self, other: Range) -> bool {
        self.start.is_up_to(other.end) && other.start.is_up_to(self.end)
    }

    pub(crate) fn value(self, alloc: Global) -> Result<Value, AllocError>
        ensures value { IfOk result (λ v. view v ≡ range_data self) }
    {
        let object = Object::new(alloc).with("start", self.start.value(alloc)?)?;
        Ok(object.with("end", self.end.value(alloc)?)?.value())
    }
}

/// The UTF-16 units of a character.
fn units(character: char) -> usize {
    if u32::from(character) > 0xFFFF { 2 } else { 1 }
}

/// The UTF-16 units of a text.
pub(crate) fn unit_count(text: &str) -> usize {
    let mut count: usize = 0;
    for character in text.chars() {
        count = count.saturating_add(units(character));
    }
    count
}

/// The byte of a line that has so many UTF-16 units before it, or the end of the line. The second half of a pair counts as the
/// pair's front.
pub(crate) fn byte_at(line: &str, character: usize) -> usize {
    let mut before: usize = 0;
    for (at, next) in line.char_indices() {
        before = before.saturating_add(units(next));
        if before > character {
            return at;
        }
    }
    line.len()
}
