//! What an editor shows of the token under the pointer.
use crate::object::Object;
use crate::positions::{Position, Range};
use crate::sheet::{Line, Sheet};
use crate::words::{Word, word_at, word_of};
use lc3_messages::picture;
use lc3_table::{Operation, WordText, low_word};
use lc3_word::{Hex, number_of};
use serde_json::Value;
use std::alloc::{AllocError, Global};
use std::fmt::Write;

/// Lines about a token: of code, and what help says of a word.
#[derive(Drop)]
struct Card {
    code: String,
    word: Option<&'static Word>,
}

/// What help says of a word, with something before it, and between two paragraphs.
fn push_word(
    text: &mut String,
    word: &Word,
    before: &str,
    between: &str,
) -> Result<(), AllocError> {
    write!(text, "{before}{}{between}{}", word.form, word.about)?;
    if !word.errors.is_empty() {
        write!(text, "{between}errors: {}", word.errors)?;
    }
    Ok(())
}

/// The lines of a card, in Markdown with code in fences and a blank line between paragraphs.
fn card_text(alloc: Global, card: &Card, markdown: bool) -> Result<String, AllocError> {
    let between = if markdown { "\n\n" } else { "\n" };
    let code = card.code.as_str();
    let mut text = if code.is_empty() || !markdown {
        String::from_str(alloc, code)?
    } else {
        format!(in alloc; "```lc3lab\n{code}\n```")?
    };
    if let Some(word) = card.word {
        let before = if code.is_empty() { "" } else { between };
        push_word(&mut text, word, before, between)?;
    }
    Ok(text)
}

/// The address, the word and the instruction of a line, if the source is accepted and the line has words.
fn row_text(sheet: &Sheet<'_>, line: usize) -> Result<String, AllocError> {
    let alloc = sheet.alloc;
    let (Some(row), Some(assembled)) = (sheet.row(line), &sheet.assembled) else {
        return Ok(String::new(alloc));
    };
    let image = assembled.image();
    let place = row.address.saturating_sub(image.origin());
    match image.words().get(usize::from(place)) {
        Some(word) => format!(in alloc; "{} {} {}", Hex(row.address), Hex(*word), WordText(*word)),
        None => Ok(String::new(alloc)),
    }
}

/// The trap or call that a TRAP of a known vector is.
fn call_in(line: &Line<'_>) -> Option<&'static Word> {
    match line.operation()? {
        (at, Operation::Trap) => {
            let vector = line.parts.get(at.saturating_add(1))?;
            word_at(number_of(vector.word.as_bytes())?)
        }
        _ => None,
    }
}

/// A number in each way in which it is written, if it is a word.
fn number_text(alloc: Global, number: i64) -> Result<Option<String>, AllocError> {
    if !(-32_768..=65_535).contains(&number) {
        return Ok(None);
    }
    let word = Hex(low_word(number));
    Ok(Some(match u8::try_from(number) {
        Ok(byte @ b' '..=b'~') => { format!(in alloc; "{word} #{number} '{}'", char::from(byte))? }
        _ => format!(in alloc; "{word} #{number}")?,
    }))
}

/// The card of an operand: of the number of a call that call, else a number.
fn operand_card(
    alloc: Global,
    line: &Line<'_>,
    at: usize,
    number: usize,
) -> Result<Option<Card>, AllocError> {
    let Some(value) = line
        .parts
        .get(number)
        .and_then(|part| number_of(part.word.as_bytes()))
    else {
        return Ok(None);
    };
    if number == at.saturating_add(1)
        && let Some(word) = call_in(line)
    {
        let (code, word) = (String::new(alloc), Some(word));
        return Ok(Some(Card { code, word }));
    }
    let code = number_text(alloc, value)?;
    Ok(code.map(|code| Card { code, word: None }))
}

/// A line as the debugger shows it.
fn push_line(text: &mut String, line: &str) -> Result<(), AllocError> {
    let line = line.trim_matches(|end| matches!(end, ' ' | '\t' | ',' | '\r'));
    for character in line.chars() {
        text.push(picture(character))?;
    }
    Ok(())
}

/// A label with its address and the line that defines it, if one does.
fn label_card(sheet: &Sheet<'_>, name: &str) -> Result<Option<Card>, AllocError> {
    let Some(number) = sheet.line_of(name)? else {
        return Ok(None);
    };
    let mut code = String::from_str(sheet.alloc, name)?;
    code.make_ascii_uppercase();
    if let Some(address) = sheet.address_of(name)? {
        write!(code, " = {}", Hex(address))?;
    }
    write!(code, "\nline {number}: ")?;
    push_line(&mut code, sheet.source.line(number))?;
    Ok(Some(Card { code, word: None }))
}

/// The card of a token of a line.
fn card_of(sheet: &Sheet<'_>, line: &Line<'_>, number: usize) -> Result<Option<Card>, AllocError> {
    match line.operation() {
        Some((at, operation)) if at == number => {
            let code = row_text(sheet, line.number)?;
            let word = call_in(line).or(word_of(operation.name()));
            Ok(Some(Card { code, word }))
        }
        Some((at, _)) if at < number => operand_card(sheet.alloc, line, at, number),
        _ => Ok(None),
    }
}

fn contents(alloc: Global, card: &Card, markdown: bool) -> Result<Value, AllocError> {
    let kind = if markdown { "markdown" } else { "plaintext" };
    let text = card_text(alloc, card, markdown)?;
    let contents = Object::new(alloc)
        .with_text("kind", kind)?
        .with_text("value", &text)?;
    Ok(contents.value())
}

fn card_value(sheet: &Sheet<'_>, card: Option<Card>, range: Range) -> Result<Value, AllocError> {
    let alloc = sheet.alloc;
    let Some(card) = card else {
        return Ok(Value::Null);
    };
    let contents = contents(alloc, &card, sheet.shows.markdown)?;
    let shown = Object::new(alloc).with("contents", contents)?;
    Ok(shown.with("range", range.value(alloc)?)?.value())
}

/// What is shown of the token at a position: a label without its colon.
pub(crate) fn hover(sheet: &Sheet<'_>, position: Position) -> Result<Value, AllocError> {
    let (line, byte) = sheet.place(position)?;
    let Some(number) = line.token_at(byte) else {
        return Ok(Value::Null);
    };
    if let Some(mention) = sheet.mention(&line, number) {
        return card_value(sheet, label_card(sheet, mention.word)?, mention.range);
    }
    match line.parts.get(number) {
        Some(part) => {
            let range = line.range(part.span.start, part.span.end);
            card_value(sheet, card_of(sheet, &line, number)?, range)
        }
        None => Ok(Value::Null),
    }
}
