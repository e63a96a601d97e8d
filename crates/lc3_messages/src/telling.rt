//! What is told of a source: its first findings, each in words and with its place.
ghost use Rattle.std.specs.Prelude.{◌≡◌, ◌∷◌, [], ◌++◌, IfOk, map, take};
ghost use Rattle.lc3_asm.specs.Faults.{reading};
ghost use Rattle.lc3_messages.specs.Told.{AreTold, most_told};
ghost use Rattle.lc3_messages.specs.Telling.{finding_told};

use crate::characters::Excerpt;
use crate::operations::{DID_YOU_MEAN, DidYouMean, name_meant, name_of};
use crate::parts::{NOTHING, Part, Remark, Span, operation_number, parts_of};
use crate::report::Wish;
use crate::source::{Finding, Source, What, findings, source_of};
use crate::texts::{ONE_PROCESS, remark};
use lc3_spelling::BARE_OPERATIONS;
use lc3_warnings::{Kind, push_text};
use std::alloc::{AllocError, Global};
use std::fmt::Write;

/// The most messages of a source that are told.
pub const MOST_TOLD: usize = 100;

/// What is told of a line.
#[derive(Drop)]
pub struct Told {
    /// The number of the line, from 1.
    pub line: usize,
    /// What is found there.
    pub what: What,
    /// The part of the line that is marked, if it isn't empty.
    pub mark: Span,
    pub text: String,
}

impl Told {
    /// What the marked part was meant to be, if that is asked at the end of the text.
    pub fn meant(&self) -> Option<&str> {
        let (_, meant) = self.text.as_str().split_once(DID_YOU_MEAN)?;
        meant.strip_suffix('?')
    }
}

/// The findings that are told.
pub(crate) fn first_findings(findings: &[Finding]) -> &[Finding]
    ensures first { result.now ≡ take most_told findings.now }
{
    &findings[..MOST_TOLD.min(findings.len())]
}

fn finding_told(source: &Source<'_>, finding: Finding) -> Result<Told, AllocError>
    ensures finding { IfOk result (λ told. finding_told told ≡ finding) }
{
    let Finding { line, what } = finding;
    let Remark { mark, text } = match what {
        What::Fault(fault) => remark(source, line, fault),
        What::Warning(warning) => warning_remark(source, source.line(line), warning),
    }?;
    Ok(Told {
        line,
        what,
        mark,
        text,
    })
}

/// Findings of a source in words, in their order.
pub(crate) fn tell(source: &Source<'_>, findings: &[Finding]) -> Result<Vec<Told>, AllocError>
    ensures findings { IfOk result (λ told. map finding_told told.items ≡ findings.now) }
{
    let mut told = Vec::new(source.alloc);
    for finding in findings {
        told.push(finding_told(source, *finding)?)?;
    }
    Ok(told)
}

/// The first 100 messages about a text, by its lines: those that [`report_on`](crate::report_on) writes.
pub fn messages_on(alloc: Global, content: &str, wish: Wish<'_>) -> Result<Vec<Told>, AllocError>
    ensures told { IfOk result (λ told. AreTold wish.entry.profile
        (map (λ name. name.now) wish.entry.allowed.now) content.now
        (map finding_told told.items)) }
{
    let source = source_of(alloc, content)?;
    messages_of(&source, content, wish)
}

fn messages_of(source: &Source<'_>, content: &str, wish: Wish<'_>) -> Result<Vec<Told>, AllocError>
    requires read { source.now.reader ≡ reading content.now }
    ensures told { IfOk result (λ told. AreTold wish.entry.profile
        (map (λ name. name.now) wish.entry.allowed.now) content.now
        (map finding_told told.items)) }
{
    let findings = findings(source, content, wish)?;
    tell(source, first_findings(&findings))
}

/// The token of a line that a warning is about: the first, the number at the end, or the operation.
fn part_marked(alloc: Global, line: &str, kind: Kind) -> Result<Part<'_>, AllocError> {
    let parts = parts_of(alloc, line)?;
    let number = match kind {
        Kind::Misspelt
        | Kind::CallName { .. }
        | Kind::UnusedLabel
        | Kind::FallsInto
        | Kind::AfterEnd { .. } => 0,
        Kind::Wraps { .. } | Kind::UnknownTrap | Kind::DecimalOrigin { .. } => {
            parts.len().saturating_sub(1)
        }
        _ => operation_number(&parts),
    };
    Ok(parts.get(number).copied().unwrap_or(NOTHING))
}

/// What is said of a warning of this kind about a line.
fn warning_remark(source: &Source<'_>, line: &str, kind: Kind) -> Result<Remark, AllocError> {
    let alloc = source.alloc;
    let spoken_of = match kind {
        Kind::LostReturn { writer: other } | Kind::StaleCodes { trap: other } => source.line(other),
        _ => line,
    };
    let word = part_marked(alloc, spoken_of, kind)?.word;
    let meant = match kind {
        Kind::Misspelt => name_meant(alloc, word, &BARE_OPERATIONS)?,
        _ => None,
    };
    let shown = format!(in alloc; "{}", Excerpt(name_of(word)))?;
    let mut text = String::new(alloc);
    push_text(&mut text, kind, &shown)?;
    write!(text, "{}", DidYouMean(meant))?;
    let marked = part_marked(alloc, line, kind)?;
    if matches!(kind, Kind::AfterEnd { .. }) && marked.is_origin() {
        write!(text, "; {ONE_PROCESS}")?;
    }
    Ok(marked.remark(text))
}
