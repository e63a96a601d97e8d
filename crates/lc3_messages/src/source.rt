//! A text as it was read, its labels, and where a line of it has its fault.
ghost use Rattle.std.specs.Prelude.{◌≡◌, IfOk, ◌++◌, true, [], length, OnOk, map};
ghost use Rattle.lc3_asm.specs.Faults.{reading, faults_of};
ghost use Rattle.lc3_asm.specs.Texts.{lines};
ghost use Rattle.std.specs.List.Sorted.{IsNonDecreasingBy};
ghost use Rattle.lc3_messages.specs.Counts.{is_among, without, told_warnings, error_count};
ghost use Rattle.lc3_messages.specs.Told.{names_a_label, AreFrom, finding_of_warning, Tells};

use crate::operations::{name_of, upper};
use crate::parts::{Faulty, NOTHING, Part, faulty_part, parts_of};
use crate::report::Wish;
use indexmap::IndexMap;
use lc3_asm::{
    LineFault, Reader, Token, faults_of, first_token, is_label, line_count, printable, reading,
    token_operation, without_colon,
};
use lc3_table::{Fault, Form, Operation};
use lc3_warnings::{Kind, Warning, warnings};
use std::alloc::{AllocError, Global};

/// A text with its lines, its labels and what was read of it.
#[derive(Drop)]
pub struct Source<'a> {
    pub alloc: Global,
    /// The lines, each without a carriage return at its end.
    pub lines: Vec<&'a str>,
    pub reader: Reader,
    pub labels: Labels,
}

/// Where a line has its fault.
#[derive(Clone, Copy)]
pub(crate) struct Place<'a> {
    pub source: &'a Source<'a>,
    /// The number of the line, from 1.
    pub number: usize,
    pub parts: &'a [Part<'a>],
    /// The number of the token with the fault, from 0.
    pub at: usize,
    /// The token with the fault.
    pub part: Part<'a>,
    /// What could stand there as operands: of an operand one form, of an operation those of all its operands.
    pub forms: &'static [Form],
}

impl Place<'_> {
    pub fn form(&self) -> Form {
        self.forms.first().copied().unwrap_or(Form::Characters)
    }
}

/// A text as it is read, whether or not it has faults.
pub fn source_of(alloc: Global, content: &str) -> Result<Source<'_>, AllocError>
    ensures read { IfOk result (λ source. source.reader ≡ reading content.now) }
{
    let lines: Vec<&str> = content
        .split('\n')
        .map(|line| line.strip_suffix('\r').unwrap_or(line))
        .collect(alloc)?;
    let reader = reading(alloc, content)?;
    let labels = labels_of(alloc, &lines, &reader)?;
    Ok(Source {
        alloc,
        lines,
        reader,
        labels,
    })
}

impl<'a> Source<'a> {
    /// The line with this number, from 1.
    pub fn line(&self, number: usize) -> &'a str {
        let i = number.saturating_sub(1);
        self.lines.get(i).copied().unwrap_or("")
    }

    /// The token of a line at which it has its fault.
    pub(crate) fn word_at(&self, fault: LineFault) -> Result<&'a str, AllocError> {
        let parts = parts_of(self.alloc, self.line(fault.line))?;
        let Faulty { number, .. } = faulty_part(self.alloc, &parts, fault.kind)?;
        Ok(parts.get(number).unwrap_or(&NOTHING).word)
    }
}

/// What is found in a line.
#[derive(Clone, Copy)]
pub enum What {
    Fault(Fault),
    Warning(Kind),
}

/// What is found in the line with this number, from 1.
#[derive(Clone, Copy)]
pub struct Finding {
    pub line: usize,
    pub what: What,
}

/// Whether a fault may be one only because of an earlier fault: the label that a line names, or defines again, is one that
/// a faulty line may define.
fn may_follow(source: &Source<'_>, fault: LineFault) -> Result<bool, AllocError>
    ensures labels { IfOk result (λ follows. follows ≡ true → names_a_label fault.kind ≡ true) }
{
    let labels = match fault.kind {
        Fault::Undefined => &source.labels.meant,
        Fault::DuplicateLabel => &source.labels.definitions,
        _ => return Ok(false),
    };
    let line = line_of(source.alloc, labels, name_of(source.word_at(fault)?))?;
    Ok(line.is_some_and(|line| fault.kind == Fault::Undefined || line == fault.line))
}

/// The faults that aren't told only because of an earlier one: the first, and all that are about no label.
fn told_faults(source: &Source<'_>, faults: &[LineFault]) -> Result<Vec<Finding>, AllocError>
    ensures told { IfOk result (λ told. AreFrom faults.now told.items) }
    ensures some { IfOk result (λ told. told.items ≡ [] → faults.now ≡ []) }
{
    let mut told = Vec::new(source.alloc);
    for fault in faults {
        if told.is_empty() || !may_follow(source, *fault)? {
            let (line, what) = (fault.line, What::Fault(fault.kind));
            told.push(Finding { line, what })?;
        }
    }
    Ok(told)
}

fn is_among(names: &[&str], name: &str) -> bool
    ensures value { result ≡ is_among (map (λ other. other.now) names.now) name.now }
{
    names.iter().any(|other| name == *other)
}

fn add_warnings(
    found: &mut Vec<Finding>,
    warnings: &[Warning],
    names: &[&str],
) -> Result<(), AllocError>
    ensures added { OnOk result (found.new.items ≡ found.old.items
        ++ map finding_of_warning (without (map (λ name. name.now) names.now) warnings.now)) }
{
    for warning in warnings {
        if !is_among(names, warning.kind.name()) {
            let (line, what) = (warning.line, What::Warning(warning.kind));
            found.push(Finding { line, what })?;
        }
    }
    Ok(())
}

/// How many faults are found.
pub(crate) fn error_count(found: &[Finding]) -> usize
    ensures count { result ≡ error_count found.now }
{
    found
        .iter()
        .filter(|finding| matches!(finding.what, What::Fault(_)))
        .count()
}

/// What is told of a text, by its lines; in one line the fault comes first, and what else is found stays in its order.
pub(crate) fn findings(
    source: &Source<'_>,
    content: &str,
    wish: Wish<'_>,
) -> Result<Vec<Finding>, AllocError>
    requires read { source.now.reader ≡ reading content.now }
    ensures told { IfOk result (λ found. Tells
        (faults_of (length (lines content.now)) (reading content.now))
        (told_warnings wish.entry.profile (map (λ name. name.now) wish.entry.allowed.now)
        content.now)
        found.items) }
    ensures ordered { IfOk result (λ found. IsNonDecreasingBy (λ f. f.line) found.items) }
{
    let alloc = source.alloc;
    let faults = faults_of(alloc, line_count(content.as_bytes()), &source.reader)?;
    let mut found = told_faults(source, &faults)?;
    let warnings = warnings(alloc, content, wish.profile, &source.reader)?;
    add_warnings(&mut found, &warnings, wish.allowed)?;
    found.sort_by_key(|finding| finding.line)?;
    Ok(found)
}

/// Labels in upper case, each with the number of a line, from 1.
pub type LabelLines = IndexMap<String, usize>;

/// The labels of a text.
#[derive(Drop)]
pub struct Labels {
    /// The lines that define them, in their order.
    pub definitions: LabelLines,
    /// Faulty lines that may define them.
    pub meant: LabelLines,
    /// The first lines behind `.END` that begin with them.
    pub behind: LabelLines,
}

/// The line of a label, in small or capital letters.
pub fn line_of(
    alloc: Global,
    labels: &LabelLines,
    name: &str,
) -> Result<Option<usize>, AllocError> {
    let name = upper(alloc, name.as_bytes())?;
    Ok(labels.get(name.as_str()).copied())
}

/// Adds a name, if it is a label and isn't there.
fn define(
    alloc: Global,
    labels: &mut LabelLines,
    name: &[u8],
    line: usize,
) -> Result<(), AllocError> {
    if is_label(name) {
        labels.entry(upper(alloc, name)?)?.or_insert(line);
    }
    Ok(())
}

/// Adds the label with which a line begins that is faulty for another reason.
fn define_faulty(
    alloc: Global,
    labels: &mut Labels,
    bytes: &[u8],
    line: usize,
) -> Result<(), AllocError> {
    let bytes = printable(alloc, bytes)?;
    let Some((Token::Word(first), rest)) = first_token(&bytes) else {
        return Ok(());
    };
    let name = without_colon(first);
    let operation = first_token(rest).and_then(|(token, _)| token_operation(token));
    if is_label(name) && !matches!(operation, None | Some(Operation::Origin)) {
        return define(alloc, &mut labels.definitions, name, line);
    }
    let length = first
        .iter()
        .take_while(|byte| byte.is_ascii_alphanumeric() || **byte == b'_')
        .count();
    let name = first.get(..length).unwrap_or(&[]);
    define(alloc, &mut labels.meant, name, line)
}

fn labels_of(alloc: Global, lines: &[&str], reader: &Reader) -> Result<Labels, AllocError> {
    let mut labels = Labels {
        definitions: IndexMap::new(alloc),
        meant: IndexMap::new(alloc),
        behind: IndexMap::new(alloc),
    };
    let faults = reader.faults();
    for (i, line) in lines.iter().enumerate() {
        let number = i.saturating_add(1);
        let bytes = line.as_bytes();
        let at = faults.binary_search_by_key(&number, |fault| fault.line);
        let fault = at.ok().and_then(|at| faults.get(at));
        let begun = match fault.map(|fault| fault.kind) {
            _ if reader.lines().len() <= i => &mut labels.behind,
            None | Some(Fault::DuplicateLabel) => &mut labels.definitions,
            Some(_) => {
                define_faulty(alloc, &mut labels, bytes, number)?;
                continue;
            }
        };
        if let Some((Token::Word(word), _)) = first_token(bytes) {
            define(alloc, begun, without_colon(word), number)?;
        }
    }
    Ok(labels)
}
