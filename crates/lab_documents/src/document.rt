//! A document that an editor has open, and what is asked about it.
use crate::completion::completion;
use crate::hover::hover;
use crate::labels::{definition, highlights, prepare_rename, references, rename};
use crate::positions::{Position, Range};
use crate::sheet::Sheet;
use crate::symbols::{hints, symbols};
use serde_json::Value;
use std::alloc::{AllocError, Global};

/// What the editor can show.
#[derive(Clone, Copy)]
pub struct Shows {
    /// Markdown, rather than plain text.
    pub markdown: bool,
    /// Symbols as a tree, with their own ranges.
    pub trees: bool,
    /// Completions with places to fill in.
    pub snippets: bool,
}

/// A text by its name, in an editor that can show this.
#[derive(Clone, Copy)]
pub struct Document<'a> {
    pub uri: &'a str,
    pub text: &'a str,
    pub shows: Shows,
}

/// A question about a document.
#[derive(Clone, Copy)]
pub enum Question<'a> {
    Hover(Position),
    Definition(Position),
    /// The places of a label, with its definition or without it.
    References(Position, bool),
    Highlights(Position),
    Symbols,
    PrepareRename(Position),
    Rename(Position, &'a str),
    Completion(Position),
    /// Addresses in front of the lines of a range.
    Hints(Range),
}

/// What a question is answered with.
#[derive(Drop)]
pub enum Answer {
    Value(Value),
    /// It can't be done, as this text says.
    Refused(String),
}

fn answer_by(sheet: &Sheet<'_>, question: Question<'_>) -> Result<Answer, AllocError> {
    let value = match question {
        Question::Hover(position) => hover(sheet, position),
        Question::Definition(position) => definition(sheet, position),
        Question::References(position, with) => references(sheet, position, with),
        Question::Highlights(position) => highlights(sheet, position),
        Question::Symbols => symbols(sheet),
        Question::PrepareRename(position) => prepare_rename(sheet, position),
        Question::Rename(position, name) => return rename(sheet, position, name),
        Question::Completion(position) => completion(sheet, position),
        Question::Hints(range) => hints(sheet, range),
    };
    Ok(Answer::Value(value?))
}

/// The answer to a question about a document.
pub fn answer_to(
    alloc: Global,
    document: Document<'_>,
    question: Question<'_>,
) -> Result<Answer, AllocError> {
    answer_by(&Sheet::new(alloc, document)?, question)
}
