//! What `check` says of a document, and quick fixes: a misspelt word becomes the one that was meant.
ghost use Rattle.std.specs.Prelude.{◌≡◌, ◌-◌, IfOk, map};
ghost use Rattle.serde_json.specs.View.{view, members_view};
ghost use Rattle.lab_documents.specs.Diagnostics.{severity, IsDiagnostic, AreDiagnostics};
ghost use Rattle.lab_documents.specs.Private.Found.{found_members};

use crate::object::Object;
use crate::positions::Range;
use lc3_messages::{Told, What, Wish, messages_on};
use lc3_warnings::Kind;
use serde_json::Value;
use std::alloc::{AllocError, Global};

/// The lines of a text, each without the carriage return at its end.
fn lines_of(alloc: Global, text: &str) -> Result<Vec<&str>, AllocError> {
    text.split('\n')
        .map(|line| line.strip_suffix('\r').unwrap_or(line))
        .collect(alloc)
}

fn line_told<'a>(lines: &[&'a str], told: &Told) -> &'a str {
    let place = told.line.saturating_sub(1);
    lines.get(place).copied().unwrap_or("")
}

/// What is marked of a line: the part that a message is about, or the whole line.
fn range_told(line: &str, told: &Told) -> Range
    ensures start { result.start.line ≡ told.now.line - 1 }
    ensures end { result.end.line ≡ told.now.line - 1 }
{
    let (number, mark) = (told.line.saturating_sub(1), told.mark);
    if mark.start < mark.end {
        Range::of(line, number, mark.start, mark.end)
    } else {
        Range::of(line, number, 0, line.len())
    }
}

/// The name of a fault or of a warning.
fn code_of(alloc: Global, what: What) -> Result<String, AllocError> {
    match what {
        What::Fault(fault) => format!(in alloc; "{fault:?}"),
        What::Warning(kind) => String::from_str(alloc, kind.name()),
    }
}

fn severity_of(what: What) -> u8
    ensures value { result ≡ severity what }
{
    match what {
        What::Fault(_) => 1,
        What::Warning(_) => 2,
    }
}

/// Whether what is found does nothing, so that editors may show it in grey.
fn is_needless(what: What) -> bool {
    matches!(
        what,
        What::Warning(Kind::UnusedLabel | Kind::AfterEnd { .. })
    )
}

fn list_of(alloc: Global, value: Value) -> Result<Value, AllocError> {
    let mut values = Vec::new(alloc);
    values.push(value)?;
    Ok(Value::Array(values))
}

/// What is found, by its name and how bad it is, in its words.
fn found(alloc: Global, told: &Told, name: &str) -> Result<Object, AllocError>
    ensures found { IfOk result (λ o. members_view o.members.entries
        ≡ found_members name.now told.now) }
{
    Object::new(alloc)
        .with_text("code", name)?
        .with("severity", Value::from(severity_of(told.what)))?
        .with_text("message", told.text.as_str())
}

/// A message as the protocol has it.
fn diagnostic(alloc: Global, line: &str, told: &Told) -> Result<Value, AllocError>
    ensures diagnostic { IfOk result (λ v. IsDiagnostic told.now (view v)) }
{
    let found = found(alloc, told, &code_of(alloc, told.what)?)?;
    let found = found
        .with_text("source", "lc3lab")?
        .with("range", range_told(line, told).value(alloc)?)?;
    if is_needless(told.what) {
        let tags = list_of(alloc, Value::from(1u8))?;
        return Ok(found.with("tags", tags)?.value());
    }
    Ok(found.value())
}

/// What is said of a text: the first 100 messages of `check`, by its lines.
pub fn diagnostics(alloc: Global, text: &str, wish: Wish<'_>) -> Result<Value, AllocError>
    ensures told { IfOk result (λ v. AreDiagnostics wish.entry.profile
        (map (λ name. name.now) wish.entry.allowed.now) text.now (view v)) }
{
    let mut values = Vec::new(alloc);
    let lines = lines_of(alloc, text)?;
    let told = messages_on(alloc, text, wish)?;
    for told in &told {
        values.push(diagnostic(alloc, line_told(&lines, told), told)?)?;
    }
    Ok(Value::Array(values))
}

/// The edits of one document.
pub(crate) fn changes(alloc: Global, uri: &str, edits: Value) -> Result<Value, AllocError> {
    let changes = Object::new(alloc).with(uri, edits)?.value();
    Ok(Object::new(alloc).with("changes", changes)?.value())
}

/// A text in place of another.
pub(crate) fn edit(alloc: Global, range: Range, text: &str) -> Result<Value, AllocError> {
    let edit = Object::new(alloc).with_text("newText", text)?;
    Ok(edit.with("range", range.value(alloc)?)?.value())
}

/// What is written in place of a word: what was meant, in small letters if the word has no capital.
fn replacement(alloc: Global, word: &str, meant: &str) -> Result<String, AllocError> {
    let is_small = !word.bytes().any(|byte| byte.is_ascii_uppercase());
    let mut text = String::from_str(alloc, meant)?;
    if is_small {
        text.make_ascii_lowercase();
    }
    Ok(text)
}

/// The change of a word, with its colon, if it has one.
fn changed(
    alloc: Global,
    uri: &str,
    range: Range,
    word: &str,
    meant: &str,
) -> Result<Value, AllocError> {
    let colon = if word.ends_with(':') { ":" } else { "" };
    let text = format!(in alloc; "{meant}{colon}")?;
    changes(alloc, uri, list_of(alloc, edit(alloc, range, &text)?)?)
}

/// A quick fix by what it changes.
fn fix_of(alloc: Global, name: &str, meant: &str, edit: Value) -> Result<Object, AllocError> {
    let fix = Object::new(alloc).with("edit", edit)?;
    let title = format!(in alloc; "Change {name} to {meant}")?;
    fix.with_text("title", &title)?
        .with_text("kind", "quickfix")?
        .with("isPreferred", Value::from(true))
}

/// The quick fix of a message about a line that asks whether this was meant.
fn fix(
    alloc: Global,
    uri: &str,
    line: &str,
    told: &Told,
    meant: &str,
) -> Result<Value, AllocError> {
    let word = line.get(told.mark.start..told.mark.end).unwrap_or("");
    let name = word.strip_suffix(':').unwrap_or(word);
    let meant = replacement(alloc, word, meant)?;
    let edit = changed(alloc, uri, range_told(line, told), word, &meant)?;
    let fix = fix_of(alloc, name, &meant, edit)?;
    let diagnostic = diagnostic(alloc, line, told)?;
    Ok(
        fix.with("diagnostics", list_of(alloc, diagnostic)?)?
            .value(),
    )
}

/// The quick fixes of messages that touch a range.
fn fixes_of(
    alloc: Global,
    uri: &str,
    lines: &[&str],
    told: &[Told],
    range: Range,
) -> Result<Value, AllocError> {
    let mut values = Vec::new(alloc);
    for told in told {
        let line = line_told(lines, told);
        if let Some(meant) = told.meant()
            && range_told(line, told).touches(range)
        {
            values.push(fix(alloc, uri, line, told, meant)?)?;
        }
    }
    Ok(Value::Array(values))
}

/// The quick fixes of what is said of a part of a document.
pub fn fixes(
    alloc: Global,
    uri: &str,
    text: &str,
    wish: Wish<'_>,
    range: Range,
) -> Result<Value, AllocError> {
    let lines = lines_of(alloc, text)?;
    let told = messages_on(alloc, text, wish)?;
    fixes_of(alloc, uri, &lines, &told, range)
}
