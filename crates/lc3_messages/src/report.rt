//! All messages about a source, as they are written.
ghost use Rattle.std.specs.Prelude.{◌≡◌, ◌↔◌, ◌++◌, ◌-◌, Some, codes, length, map, IfOk, IsTrue, IsUtf8, string_bytes};
ghost use Rattle.lc3_warnings.specs.Warnings.{is_accepted};
ghost use Rattle.lc3_messages.specs.Counts.{told_warnings, error_count};
ghost use Rattle.lc3_messages.specs.Telling.{finding_told};
ghost use Rattle.lc3_messages.specs.Written.{message_text, heading_of, count_text, comma, shown_text, count_line, IsMessage, IsMessageOn, AreMessages, AreReport, AreReportOn, AreNoTextReport};

use crate::characters::picture;
use crate::parts::Span;
use crate::source::{Finding, Source, What, error_count, findings, source_of};
use crate::telling::{MOST_TOLD, Told, first_findings, tell};
use lc3_table::Profile;
use std::alloc::{AllocError, Global};
use std::fmt;

/// What is asked about the warnings of a source.
#[derive(Clone, Copy)]
pub struct Wish<'a> {
    /// The machine that the warnings are about.
    pub profile: Profile,
    /// The names of the warnings that are left out.
    pub allowed: &'a [&'a str],
}

/// The lines that tell what is wrong with a source, and how many messages there are.
#[derive(Drop)]
pub struct Report {
    /// The lines, each with its line feed.
    pub text: String,
    pub errors: usize,
    pub warnings: usize,
}

/// How many there are of this name, if there are any.
#[derive(Clone, Copy)]
struct Count<'a> {
    count: usize,
    name: &'a str,
}

impl fmt::Display for Count<'_> {
    ghost output = { λ c. Some (count_text c.count c.name.now) };

    fn fmt<W: fmt::Write>(&self, f: &mut fmt::Formatter<W>) -> fmt::Result {
        let Count { count, name } = *self;
        match count {
            0 => Ok(()),
            1 => write!(f, "1 {name}"),
            _ => write!(f, "{count} {name}s"),
        }
    }
}

/// How many messages are shown of so many, if not all are.
#[derive(Clone, Copy)]
struct Shown(usize);

impl fmt::Display for Shown {
    ghost output = { λ s. Some (shown_text s.0) };

    fn fmt<W: fmt::Write>(&self, f: &mut fmt::Formatter<W>) -> fmt::Result {
        let all = self.0;
        if all > MOST_TOLD {
            write!(f, " ({MOST_TOLD} of {all} are shown)")
        } else {
            Ok(())
        }
    }
}

/// What stands between two counts.
fn comma(errors: usize, warnings: usize) -> &'static str
    ensures text { result.now ≡ comma errors warnings }
{
    if errors == 0 || warnings == 0 {
        ""
    } else {
        ", "
    }
}

/// The line with the numbers of messages, if there are any.
#[derive(Clone, Copy)]
struct CountLine<'a> {
    file: &'a str,
    errors: usize,
    all: usize,
}

impl fmt::Display for CountLine<'_> {
    ghost output = { λ c. Some (count_line c.file.now c.errors c.all) };

    fn fmt<W: fmt::Write>(&self, f: &mut fmt::Formatter<W>) -> fmt::Result {
        let CountLine { file, errors, all } = *self;
        if all == 0 {
            return Ok(());
        }
        let warnings = all.saturating_sub(errors);
        let refused = Count {
            count: errors,
            name: "error",
        };
        let comma = comma(errors, warnings);
        let warned = Count {
            count: warnings,
            name: "warning",
        };
        let shown = Shown(all);
        write!(f, "lc3lab: {file}: {refused}{comma}{warned}{shown}\n")
    }
}

/// The report with these messages, and behind them a line with their numbers, if there are any.
fn counted(mut text: String, file: &str, errors: usize, all: usize) -> Result<Report, AllocError>
    ensures numbers { IfOk result (λ r. (r.errors ≡ errors) × (r.warnings ≡ all - errors)) }
    ensures text { IfOk result (λ r. string_bytes r.text
        ≡ string_bytes text ++ count_line file.now errors all) }
{
    let line = CountLine { file, errors, all };
    write!(text, "{line}")?;
    let warnings = all.saturating_sub(errors);
    Ok(Report {
        text,
        errors,
        warnings,
    })
}

/// The messages about what was found, one behind the other.
fn messages(source: &Source<'_>, file: &str, told: &[Told]) -> Result<String, AllocError>
    ensures messages { IfOk result (λ text.
        AreMessages file.now (map finding_told told.now) (string_bytes text)) }
{
    let mut text = String::new(source.alloc);
    for one in told {
        let line = source.line(one.line);
        text.push_str(&message_on(source.alloc, file, line, one)?)?;
    }
    Ok(text)
}

fn report_of(file: &str, source: &Source<'_>, findings: &[Finding]) -> Result<Report, AllocError>
    ensures errors { IfOk result (λ r. r.errors ≡ error_count findings.now) }
    ensures warnings { IfOk result (λ r.
        r.warnings ≡ length findings.now - error_count findings.now) }
    ensures written { IfOk result (λ r.
        AreReport file.now findings.now (string_bytes r.text)) }
{
    let told = tell(source, first_findings(findings))?;
    let text = messages(source, file, &told)?;
    counted(text, file, error_count(findings), findings.len())
}

/// The report about bytes that are text up to this place, and no text behind it.
fn no_text_report(
    alloc: Global,
    file: &str,
    bytes: &[u8],
    place: usize,
) -> Result<Report, AllocError>
    ensures one { IfOk result (λ r. (r.errors ≡ 1) × (r.warnings ≡ 0)) }
    ensures written { IfOk result (λ r. AreNoTextReport file.now (string_bytes r.text)) }
{
    let (front, rest) = bytes.split_at(place.min(bytes.len()));
    let front = std::str::from_utf8(front).unwrap_or("");
    let last = front.rsplit('\n').next().unwrap_or("");
    let words = match (bytes, rest.first()) {
        ([0xFF, 0xFE, ..] | [0xFE, 0xFF, ..], _) | (_, None) => {
            String::from_str(alloc, "the file is UTF-16; save it as UTF-8")
        }
        (_, Some(byte)) => {
            format!(in alloc; "the byte x{byte:02X} is no UTF-8; save the file as UTF-8")
        }
    }?;
    let message = Message {
        file,
        line: front.split('\n').count(),
        column: last.chars().count().saturating_add(1),
        heading: "error",
        words: words.as_str(),
        name: String::from_str(alloc, "NotUtf8")?,
        below: String::new(alloc),
    };
    counted(format!(in alloc; "{message}")?, file, 1, 1)
}

/// All messages about the bytes of a source, by its lines, and behind them a line with their numbers. `file` is the name of
/// the source as it is shown. At most 100 messages are written; all are counted: no error exactly where the text has no fault,
/// and each of its warnings that isn't left out. What is no UTF-8 has one error.
pub fn report_on(
    alloc: Global,
    file: &str,
    bytes: &[u8],
    wish: Wish<'_>,
) -> Result<Report, AllocError>
    ensures errors { IfOk result (λ r. IsUtf8 bytes.now
        → (r.errors ≡ 0) ↔ IsTrue (is_accepted bytes.now)) }
    ensures warnings { IfOk result (λ r. IsUtf8 bytes.now
        → r.warnings ≡ length (told_warnings wish.entry.profile
        (map (λ name. name.now) wish.entry.allowed.now) bytes.now)) }
    ensures no_text { IfOk result (λ r. ¬ (IsUtf8 bytes.now)
        → (r.errors ≡ 1) × (r.warnings ≡ 0)) }
    ensures text { IfOk result (λ r. r.errors ≡ 0 → IsUtf8 bytes.now) }
    ensures written { IfOk result (λ r. IsUtf8 bytes.now
        → AreReportOn wish.entry.profile (map (λ name. name.now) wish.entry.allowed.now)
        file.now bytes.now (string_bytes r.text)) }
    ensures no_text_written { IfOk result (λ r. ¬ (IsUtf8 bytes.now)
        → AreNoTextReport file.now (string_bytes r.text)) }
{
    match std::str::from_utf8(bytes) {
        Ok(content) => {
            let source = source_of(alloc, content)?;
            let findings = findings(&source, content, wish)?;
            report_of(file, &source, &findings)
        }
        Err(error) => no_text_report(alloc, file, bytes, error.valid_up_to()),
    }
}

/// The most characters of a line that is written below its message.
const LENGTH: usize = 200;

/// A line as it is shown, and below it a `^` for each character of a part; nothing where the line is long, or the part empty.
fn marked(alloc: Global, line: &str, mark: Span) -> Result<String, AllocError> {
    let mut text = String::new(alloc);
    let is_short = line.chars().nth(LENGTH).is_none();
    if !is_short || mark.start >= mark.end || mark.end > line.len() {
        return Ok(text);
    }
    for character in line.chars() {
        text.push(picture(character))?;
    }
    text.push('\n')?;
    for character in line.get(..mark.start).unwrap_or("").chars() {
        text.push(if character == '\t' { '\t' } else { ' ' })?;
    }
    for _ in line.get(mark.start..mark.end).unwrap_or("").chars() {
        text.push('^')?;
    }
    text.push('\n')?;
    Ok(text)
}

/// What a message about it is.
fn heading_of(what: What) -> &'static str
    ensures heading { result.now ≡ heading_of what }
{
    match what {
        What::Fault(_) => "error",
        What::Warning(_) => "warning",
    }
}

/// The name of what was found.
fn found_name(alloc: Global, what: What) -> Result<String, AllocError> {
    match what {
        What::Fault(fault) => format!(in alloc; "{fault:?}"),
        What::Warning(kind) => String::from_str(alloc, kind.name()),
    }
}

/// A message as it is written: its place, what it is, its words and its name, and what stands below it.
#[derive(Drop)]
struct Message<'f, 'w> {
    file: &'f str,
    line: usize,
    column: usize,
    heading: &'static str,
    words: &'w str,
    name: String,
    below: String,
}

impl fmt::Display for Message<'_, '_> {
    ghost output = { λ m. Some (message_text m.file.now m.line m.column m.heading.now m.words.now
        (string_bytes m.name) (string_bytes m.below)) };

    fn fmt<W: fmt::Write>(&self, f: &mut fmt::Formatter<W>) -> fmt::Result {
        let (file, line, column) = (self.file, self.line, self.column);
        let (heading, words) = (self.heading, self.words);
        let (name, below) = (&self.name, &self.below);
        write!(
            f,
            "{file}:{line}:{column}: {heading}: {words} [{name}]\n{below}"
        )
    }
}

/// The message about what was found in a line of a file, and below it that line, if it is shown.
fn message_on(alloc: Global, file: &str, line: &str, told: &Told) -> Result<String, AllocError>
    ensures message { IfOk result (λ text.
        IsMessage file.now (finding_told told.now) (string_bytes text)) }
{
    let before = line.get(..told.mark.start).unwrap_or("").chars().count();
    let name = found_name(alloc, told.what)?;
    let below = marked(alloc, line, told.mark)?;
    let message = Message {
        file,
        line: told.line,
        column: before.saturating_add(1),
        heading: heading_of(told.what),
        words: told.text.as_str(),
        name,
        below,
    };
    format!(in alloc; "{message}")
}
