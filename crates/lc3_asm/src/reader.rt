//! The lines of a text with their faults: the reading goes on behind a faulty line.

ghost use Rattle.std.specs.Prelude.{◌≡◌, ◌+◌, ◌≤◌, ◌<◌, sum_by, [], ◌∷◌, ◌++◌, map, None, IfOk, OnOk, IfNone, length, nat_le, true, false, option_map, string_bytes, unwrap_or, ◌||◌};
ghost use Rattle.std.specs.List.{list_any};
ghost use Rattle.lc3_word.specs.Segment.{first_device};
ghost use Rattle.lc3_asm.specs.Texts.{is_origin, is_end, origin, labels, address_after, place_fault, is_duplicate, label_of};
ghost use Rattle.lc3_table.specs.Statements.{Line};
ghost use Rattle.lc3_table.specs.Meaning.{size};
ghost use Rattle.lc3_asm.specs.Results.{Gives};
ghost use Rattle.lc3_asm.specs.Views.{seen_line, token_of};
ghost use Rattle.lc3_asm.specs.Private.Readings.{AreTables};
ghost use Rattle.lc3_asm.specs.Addresses.{addresses};
ghost use Rattle.lc3_asm.specs.Faults.{Reading, has_faults, is_too_long, line_behind, told_once, outcome, printable_or_blank, operation_named, label_begun, bare_line, stand_in, fitted, kept, numbered, reading_with};
ghost use Rattle.lc3_table.specs.Tokens.{tokens};

use crate::line::{Line, Token, label_defined, read_line, tokens};
use crate::passes::{LineError, LineFault};
use crate::statement::token_operation;
use crate::symbols::{Placed, Symbols};
use lc3_table::{Fault, Operation};
use lc3_word::FIRST_DEVICE;
use std::alloc::{AllocError, Global};
use std::marker::Model;

pub fn has_faults(faults: &[LineFault]) -> bool
    ensures value { result ≡ has_faults faults.now }
{
    !faults.is_empty()
}

fn has_too_long(faults: &[LineFault]) -> bool
    ensures value { result ≡ list_any (λ f. is_too_long f.kind) faults.now }
{
    faults
        .iter()
        .any(|found| matches!(found.kind, Fault::TooLong))
}

/// A line where a `.ORIG` stands before it or not, and a fault or none; or its first fault.
fn line_behind(
    alloc: Global,
    is_faulty: bool,
    started: bool,
    bytes: &[u8],
) -> Result<Line, LineError>
    ensures exact { Gives seen_line result (line_behind is_faulty started bytes.now) }
{
    match read_line(alloc, started, bytes) {
        Err(LineError::Fault(Fault::NoOrig)) if is_faulty => read_line(alloc, true, bytes),
        read => read,
    }
}

fn printable_or_blank(byte: u8) -> u8
    ensures value { result ≡ printable_or_blank byte }
{
    if matches!(byte, 33..=126) { byte } else { b' ' }
}

/// The bytes with a blank in the place of each that can't stand in a word.
pub fn printable(alloc: Global, bytes: &[u8]) -> Result<Vec<u8>, AllocError>
    ensures value { IfOk result (λ v. v.items ≡ map printable_or_blank bytes.now) }
{
    bytes
        .iter()
        .map(|byte| printable_or_blank(*byte))
        .collect(alloc)
}

/// The operation or directive that the first token names, or else the second.
fn operation_named(tokens: &[Token<'_>]) -> Option<Operation>
    ensures value { result ≡ operation_named (map token_of tokens.now) }
{
    match tokens {
        [] => None,
        [first] => token_operation(*first),
        [first, second, ..] => token_operation(*first).or(token_operation(*second)),
    }
}

fn bare_line(alloc: Global, label: Option<String>, operation: Option<Operation>) -> Line
    ensures value { seen_line result ≡ bare_line (option_map string_bytes label) operation }
{
    match (label, operation) {
        (label, Some(operation)) => Line::Operates {
            label,
            operation,
            operands: Vec::new(alloc),
        },
        (Some(name), None) => Line::LabelAlone(name),
        (None, None) => Line::Blank,
    }
}

fn label_alone(alloc: Global, line: Line) -> Line
    ensures value { seen_line result ≡ bare_line (label_of (seen_line line)) None }
{
    match line {
        Line::Blank => Line::Blank,
        Line::LabelAlone(name) => Line::LabelAlone(name),
        Line::Operates { label, .. } => bare_line(alloc, label, None),
    }
}

pub fn push_numbered(
    faults: &mut Vec<LineFault>,
    line: usize,
    fault: Option<Fault>,
) -> Result<(), AllocError>
    ensures added { OnOk result (faults.new.items ≡ faults.old.items ++ numbered line fault) }
{
    if let Some(kind) = fault {
        faults.push(LineFault { line, kind })?;
    }
    Ok(())
}

/// The lines of a text that are read so far, those with a fault as what they count as, and the faults.
#[derive(Drop)]
pub struct Reader {
    placed: Placed,
    faults: Vec<LineFault>,
    /// Whether a `.ORIG` was read.
    started: bool,
    /// The address that it names.
    first: u64,
    /// How many words the lines make.
    count: u64,
}

impl Model for Reader {
    ghost Value = { Reading };

    ghost view = { λ r. record { read = map seen_line r.placed.lines.items; found = r.faults.items } };

    ghost invariant = { λ r. AreTables r.placed.symbols r.placed.places.items r.started r.first
        r.count (map seen_line r.placed.lines.items) };
}

impl Reader {
    /// No lines.
    pub fn new(alloc: Global) -> Self
        ensures empty { result ≡ record { read = []; found = [] } }
    {
        Reader {
            placed: Placed::new(alloc),
            faults: Vec::new(alloc),
            started: false,
            first: 0,
            count: 0,
        }
    }

    fn first_with(&self, line: &Line) -> u64
        ensures value { result ≡ origin (self.now.read ++ seen_line line.now ∷ []) }
    {
        if self.started {
            self.first
        } else {
            line.origin().unwrap_or(0)
        }
    }

    fn has_room(&self, line: &Line) -> bool
        ensures value { result
            ≡ nat_le (address_after (self.now.read ++ seen_line line.now ∷ [])) first_device }
    {
        let first = self.first_with(line);
        let count = self.count + line.size();
        first <= u64::from(FIRST_DEVICE) && first + count <= u64::from(FIRST_DEVICE)
    }

    /// What is wrong with the label or the place of a line after these.
    fn place_fault(&self, line: &Line) -> Option<Fault>
        ensures value { result
            ≡ told_once self.now.found (place_fault self.now.read (seen_line line.now)) }
        ensures new { IfNone result
            (is_duplicate self.now.read (label_of (seen_line line.now)) ≡ false) }
    {
        if let Some(label) = line.label() {
            if self.placed.symbols.contains(label) {
                return Some(Fault::DuplicateLabel);
            }
        }
        if self.has_room(line) || has_too_long(&self.faults) {
            return None;
        }
        Some(Fault::TooLong)
    }

    fn outcome(&self, alloc: Global, bytes: &[u8]) -> Result<Line, LineError>
        ensures exact { Gives seen_line result (outcome self.now bytes.now) }
        ensures new { IfOk result
            (λ line. is_duplicate self.now.read (label_of (seen_line line)) ≡ false) }
    {
        let line = line_behind(alloc, has_faults(&self.faults), self.started, bytes)?;
        if let Some(fault) = self.place_fault(&line) {
            return Err(LineError::Fault(fault));
        }
        Ok(line)
    }

    /// The label with which these tokens begin, unless a line defines it.
    fn label_begun(&self, alloc: Global, tokens: &[Token<'_>]) -> Result<Option<String>, AllocError>
        ensures value { IfOk result (λ label. option_map string_bytes label
            ≡ label_begun self.now.read (map token_of tokens.now)) }
        ensures new { IfOk result
            (λ label. is_duplicate self.now.read (option_map string_bytes label) ≡ false) }
    {
        let [first, ..] = tokens else { return Ok(None) };
        match label_defined(alloc, *first) {
            Ok(name) if !self.placed.symbols.contains(&name) => Ok(Some(name)),
            Err(LineError::Memory) => Err(AllocError),
            _ => Ok(None),
        }
    }

    /// What a faulty line with these tokens counts as.
    fn stand_in(&self, alloc: Global, bytes: &[u8]) -> Result<Line, AllocError>
        ensures value { IfOk result (λ line. seen_line line
            ≡ stand_in self.now.read (tokens (map printable_or_blank bytes.now))) }
        ensures new { IfOk result
            (λ line. is_duplicate self.now.read (label_of (seen_line line)) ≡ false) }
    {
        let bytes = printable(alloc, bytes)?;
        let tokens = tokens(alloc, &bytes)?;
        let label = self.label_begun(alloc, &tokens)?;
        Ok(bare_line(alloc, label, operation_named(&tokens)))
    }

    /// The line, or where there is no room for its words its label alone.
    fn fitted(&self, alloc: Global, line: Line) -> Line
        requires new { is_duplicate self.now.read (label_of (seen_line line)) ≡ false }
        ensures value { seen_line result ≡ fitted self.now.read (seen_line line) }
        ensures room { nat_le (address_after (self.now.read ++ seen_line result ∷ [])) first_device
            ≡ true }
        ensures new { is_duplicate self.now.read (label_of (seen_line result)) ≡ false }
    {
        let _ = &self.placed;
        let has_room = self.has_room(&line);
        if has_room {
            line
        } else {
            label_alone(alloc, line)
        }
    }

    /// The lines with this one, which has this fault or none.
    fn with(self, alloc: Global, line: Line, fault: Option<Fault>) -> Result<Self, AllocError>
        requires room { nat_le (address_after (self.read ++ seen_line line ∷ [])) first_device
            ≡ true }
        requires new { is_duplicate self.read (label_of (seen_line line)) ≡ false }
        ensures with { IfOk result (λ reader. reader ≡ record {
          read = self.read ++ seen_line line ∷ [];
          found = self.found ++ numbered (length self.read + 1) fault;
        }) }
    {
        let first = self.first_with(&line);
        let Reader {
            mut placed,
            mut faults,
            started,
            first: before,
            count,
        } = self;
        let started = started || line.origin().is_some();
        let address = (before + count) as u16;
        let count = count + line.size();
        placed.push(alloc, line, address)?;
        push_numbered(&mut faults, placed.lines.len(), fault)?;
        Ok(Reader {
            placed,
            faults,
            started,
            first,
            count,
        })
    }

    /// The lines with the next one, and whether the reading ends with it.
    pub fn with_line(self, alloc: Global, bytes: &[u8]) -> Result<(Self, bool), AllocError>
        ensures with { IfOk result (λ next. next.0 ≡ reading_with self bytes.now) }
        ensures end { IfOk result (λ next. next.1 ≡ is_end (kept self bytes.now)) }
    {
        let (line, fault) = match self.outcome(alloc, bytes) {
            Ok(line) => (line, None),
            Err(LineError::Memory) => return Err(AllocError),
            Err(LineError::Fault(kind)) => (self.stand_in(alloc, bytes)?, Some(kind)),
        };
        let line = self.fitted(alloc, line);
        let is_end = line.is_end();
        let reader = self.with(alloc, line, fault)?;
        Ok((reader, is_end))
    }

    /// The lines.
    pub fn lines(&self) -> &[Line]
        ensures lines { map seen_line result.now ≡ self.now.read }
    {
        self.placed.lines.as_slice()
    }

    /// The address of each line.
    #[tactic(auto, using(crate::proofs::EarlierLemmas::length_addresses))]
    pub fn places(&self) -> &[u16]
        ensures value { result.now ≡ addresses self.now.read }
        ensures count { length result.now ≡ length self.now.read }
    {
        self.placed.places.as_slice()
    }

    /// The labels, with the addresses of their lines.
    pub fn symbols(&self) -> &Symbols
        ensures value { result.now ≡ labels self.now.read }
    {
        &self.placed.symbols
    }

    /// The labels, where the lines are no longer needed.
    pub(crate) fn into_symbols(self) -> Symbols
        ensures value { result ≡ labels self.read }
    {
        let Reader { placed, .. } = self;
        placed.into_symbols()
    }

    /// The address that `.ORIG` names.
    pub(crate) fn origin(&self) -> u16
        ensures value { result ≡ origin self.now.read }
        ensures fits { origin self.now.read + sum_by size self.now.read ≤ first_device }
    {
        self.first as u16
    }

    /// Whether a `.ORIG` was read.
    pub fn started(&self) -> bool
        ensures value { result ≡ list_any is_origin self.now.read }
    {
        self.started
    }

    /// The faults of the lines.
    pub fn faults(&self) -> &[LineFault]
        ensures value { result.now ≡ self.now.found }
    {
        self.faults.as_slice()
    }
}
