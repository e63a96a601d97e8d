//! The two passes over a source text.
ghost use Rattle.std.specs.Prelude.{◌≡◌, ◌<◌, ◌∷◌, Ok, IfOk, IfErr, IfSome, length, ◌≤◌, ◌==◌, ◌++◌, map, OnOk, ◌+◌, Some, slice_get};
ghost use Rattle.std.specs.List.{position_or_len};
ghost use Rattle.lc3_asm.specs.Texts.{lines, lines_read, program, IsFault, row, words_of_lines, value, labels};
ghost use Rattle.lc3_asm.specs.Views.{lines_if, seen_line};
ghost use Rattle.lc3_asm.specs.Addresses.{addresses};
ghost use Rattle.lc3_asm.specs.Private.Layouts.{Lays};
ghost use Rattle.lc3_table.specs.Meaning.{words};
ghost use Rattle.lc3_asm.specs.Faults.{reading, unless_unknown, fault_of, label_faults, faults_of, faults, refused_for};

use crate::assembled::{Assembled, Row, line_words};
use crate::line::Line;
use crate::reader::{Reader, has_faults, push_numbered};
use crate::symbols::Symbols;
use lc3_table::Fault;
use lc3_word::Image;
use std::alloc::{AllocError, AllocFailed, Global};
use thiserror::Error;

fn line_len(text: &[u8]) -> usize
    ensures count { result ≡ position_or_len (λ c. c == 10) text.now }
    ensures within { result ≤ length text.now }
{
    text.iter().take_while(|byte| **byte != b'\n').count()
}

/// The first line of a text, and what follows its line feed.
pub fn first_line(text: &[u8]) -> (&[u8], Option<&[u8]>)
    ensures cut { lines text.now ≡ result.0.now ∷ lines_if result.1 }
    ensures shorter { IfSome result.1 (λ rest. length rest.now < length text.now) }
{
    let end = line_len(text);
    if end < text.len() {
        (&text[..end], Some(&text[end + 1..]))
    } else {
        (text, None)
    }
}

/// The lines up to `.END`, or the first faulty line.
fn first_pass(alloc: Global, source: &str) -> Result<Reader, AsmFault>
    ensures read { IfOk result (λ reader. lines_read source.now ≡ Ok reader.read) }
    ensures refused { IfErr result (λ fault. IsFault fault (lines_read source.now)) }
{
    let reader = reading(alloc, source)?;
    match reader.faults().first() {
        None => Ok(reader),
        Some(first) => Err(AsmFault::At {
            line: first.line,
            kind: first.kind,
        }),
    }
}

/// How many lines a text has.
#[tactic(auto, using(crate::proofs::TextLemmas::count_lines))]
pub fn line_count(text: &[u8]) -> usize
    ensures count { result ≡ length (lines text.now) }
{
    text.iter().filter(|byte| **byte == b'\n').count() + 1
}

/// Assembles a source text.
///
/// The first pass reads the lines in order up to `.END`. The first line that can't be read, whose label
/// is defined already or that reaches the device registers is the fault, with the first that is wrong with it; a text
/// without a `.ORIG` is `NoOrig` at its last line. The second pass takes the lines in order once more,
/// and the first that names a label which isn't defined, or one too far away, is the fault. Labels are
/// kept in upper case, lines are counted from 1, and want of memory says nothing about the text.
pub fn assemble(alloc: Global, source: &str) -> Result<Assembled, AsmFault>
    ensures accepted { IfOk result (λ assembled. program source.now ≡ Ok assembled) }
    ensures refused { IfErr result (λ fault. IsFault fault (program source.now)) }
{
    let reader = first_pass(alloc, source)?;
    if !reader.started() {
        return Err(AsmFault::At {
            line: line_count(source.as_bytes()),
            kind: Fault::NoOrig,
        });
    }
    let (words, rows) = layout(alloc, reader.symbols(), reader.lines(), reader.places())?;
    match Image::new(reader.origin(), words) {
        Ok(image) => Ok(Assembled::new(image, reader.into_symbols(), rows)),
        Err(_) => unreachable!(),
    }
}

fn push_row(rows: &mut Vec<Row>, line: usize, address: u16, count: usize) -> Result<(), AllocError>
    ensures added { OnOk result (rows.new.items ≡ rows.old.items ++ row line address count) }
{
    if count > 0 {
        rows.push(Row {
            line,
            address,
            count,
        })?;
    }
    Ok(())
}

/// The words of all lines and the rows of those that have some, or the first line with a fault.
pub fn layout(
    alloc: Global,
    symbols: &Symbols,
    lines: &[Line],
    places: &[u16],
) -> Result<(Vec<u16>, Vec<Row>), AsmFault>
    requires places { places.now ≡ addresses (map seen_line lines.now) }
    requires count { length places.now ≡ length lines.now }
    ensures exact { Lays result (words_of_lines symbols.now (map seen_line lines.now)) }
{
    let mut words = Vec::new(alloc);
    let mut rows = Vec::new(alloc);
    for (i, line) in lines.iter().enumerate() {
        match line_words(alloc, symbols, places[i], line) {
            Ok(made) => {
                push_row(&mut rows, i + 1, places[i], made.len())?;
                words.extend_from_slice(&made)?;
            }
            Err(LineError::Memory) => return Err(AsmFault::NoMemory),
            Err(LineError::Fault(kind)) => return Err(AsmFault::At { line: i + 1, kind }),
        }
    }
    Ok((words, rows))
}

/// The lines of a text up to `.END`, with the faults of its reading.
pub fn reading(alloc: Global, source: &str) -> Result<Reader, AllocError>
    ensures read { IfOk result (λ reader. reader ≡ reading source.now) }
{
    let mut reader = Reader::new(alloc);
    let mut rest = Some(source.as_bytes());
    while let Some(text) = rest {
        let (line, after) = first_line(text);
        let (longer, is_end) = reader.with_line(alloc, line)?;
        reader = longer;
        rest = if is_end { None } else { after };
    }
    Ok(reader)
}

/// The fault of a line, unless it is the distance of a label behind a fault of reading.
fn unless_unknown(found: &[LineFault], kind: Fault) -> Option<Fault>
    ensures value { result ≡ unless_unknown found.now (Some kind) }
{
    match kind {
        Fault::OffsetRange if has_faults(found) => None,
        _ => Some(kind),
    }
}

fn label_fault(
    alloc: Global,
    reader: &Reader,
    address: u16,
    line: &Line,
) -> Result<Option<Fault>, AllocError>
    ensures value { IfOk result (λ kind. kind ≡ unless_unknown reader.now.found
        (fault_of (words (value (labels reader.now.read)) address (seen_line line.now)))) }
{
    match line_words(alloc, reader.symbols(), address, line) {
        Ok(_) => Ok(None),
        Err(LineError::Memory) => Err(AllocError),
        Err(LineError::Fault(kind)) => Ok(unless_unknown(reader.faults(), kind)),
    }
}

fn push_label_faults(
    alloc: Global,
    reader: &Reader,
    faults: &mut Vec<LineFault>,
) -> Result<(), AllocError>
    ensures added { OnOk result (faults.new.items ≡ faults.old.items ++ label_faults reader.now) }
{
    let lines = reader.lines();
    let places = reader.places();
    for (i, line) in lines.iter().enumerate() {
        let fault = label_fault(alloc, reader, places[i], line)?;
        push_numbered(faults, i + 1, fault)?;
    }
    Ok(())
}

/// The faults of a text of this many lines that was read so: those of its lines and of the labels that
/// they name; of a text without a statement its one fault.
pub fn faults_of(
    alloc: Global,
    line_count: usize,
    reader: &Reader,
) -> Result<Vec<LineFault>, AllocError>
    ensures all { IfOk result (λ found. found.items ≡ faults_of line_count reader.now) }
{
    let mut found = Vec::new(alloc);
    if !has_faults(reader.faults()) && !reader.started() {
        found.push(LineFault {
            line: line_count,
            kind: Fault::NoOrig,
        })?;
        return Ok(found);
    }
    found.extend_from_slice(reader.faults())?;
    push_label_faults(alloc, reader, &mut found)?;
    Ok(found)
}

/// All the faults of a source text: those of its lines in their order, and then those of the labels that they name.
///
/// There is none exactly where [`assemble`](crate::assemble) accepts the text, and the first is the
/// one with which it refuses it. Behind a faulty line the reading goes on: the line counts as its
/// label and its operation, with one word. What is missing only because of that line isn't told: a
/// `.ORIG`, and the distance of a label. Words that go beyond the first device register are told once.
#[tactic(auto, using(crate::proofs::FaultLemmas::first_of_all))]
pub fn faults(alloc: Global, source: &str) -> Result<Vec<LineFault>, AllocError>
    ensures all { IfOk result (λ found. found.items ≡ faults source.now) }
    ensures first { IfOk result
        (λ found. slice_get found.items 0 ≡ refused_for (program source.now)) }
{
    let reader = reading(alloc, source)?;
    faults_of(alloc, line_count(source.as_bytes()), &reader)
}

/// Why [`assemble`](crate::assemble) gives no program.
#[derive(Clone, Copy, Debug, Error)]
pub enum AsmFault {
    /// Memory ran out. It says nothing about the text.
    #[error("out of memory")]
    NoMemory,
    /// The text's one fault.
    #[error("line {line}: {kind:?}")]
    At {
        /// The line with the fault, from 1.
        line: usize,
        /// What is wrong with it.
        kind: Fault,
    },
}

/// A fault of a text with the number of its line.
#[derive(Clone, Copy)]
pub struct LineFault {
    /// The line with the fault, from 1.
    pub line: usize,
    /// What is wrong with it.
    pub kind: Fault,
}

impl<T: Drop> From<AllocFailed<T>> for AsmFault {
    ghost use Rattle.lc3_asm.specs.declared.passes.AsmFault.TheVariants.{NoMemory};

    ghost from_gives = { λ _ e. e ≡ NoMemory };

    fn from(_: AllocFailed<T>) -> Self {
        AsmFault::NoMemory
    }
}

impl From<AllocError> for AsmFault {
    ghost use Rattle.lc3_asm.specs.declared.passes.AsmFault.TheVariants.{NoMemory};

    ghost from_gives = { λ _ e. e ≡ NoMemory };

    fn from(_: AllocError) -> Self {
        AsmFault::NoMemory
    }
}

/// Why a line is not read, or has no words.
#[derive(Clone, Copy)]
pub enum LineError {
    /// Memory ran out.
    Memory,
    /// The line's first fault.
    Fault(Fault),
}

impl<T: Drop> From<AllocFailed<T>> for LineError {
    ghost use Rattle.lc3_asm.specs.declared.passes.LineError.TheVariants.{Memory};

    ghost from_gives = { λ _ e. e ≡ Memory };

    fn from(_: AllocFailed<T>) -> Self {
        LineError::Memory
    }
}

impl From<AllocError> for LineError {
    ghost use Rattle.lc3_asm.specs.declared.passes.LineError.TheVariants.{Memory};

    ghost from_gives = { λ _ e. e ≡ Memory };

    fn from(_: AllocError) -> Self {
        LineError::Memory
    }
}
