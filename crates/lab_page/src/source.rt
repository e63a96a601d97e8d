//! The programs of a page.
ghost use Rattle.std.specs.Prelude.{◌≡◌, IfOk, map, position, string_bytes};
ghost use Rattle.std.specs.Option.{option_map};
ghost use Rattle.serde_json.specs.View.{view};
ghost use Rattle.lab_page.specs.Stores.{source_in};
ghost use Rattle.lab_page.specs.Sources.{source_of, row_words, first_call, row_data, source_data, name_at, has_text, source_told, source_behind, source_at, program_at, programs, source_shown, sources_shown};

use ipc_traps::Service;
use lab_moments::list_value;
use lab_told::service_of_word;
use lc3_asm::{Assembled, Row};
use serde_json::{Value, json};
use std::alloc::{AllocError, Global};

/// The source of a process.
#[derive(Drop)]
pub struct Source {
    /// The whole text.
    pub text: String,
    /// Its lines that have words, in order; they follow each other in memory.
    pub rows: Vec<Row>,
    /// The address of the first of their words.
    pub origin: u16,
    /// Their words, in order.
    pub words: Vec<u16>,
    /// A line for each label, with its name and its address.
    pub labels: String,
}

/// The source with this text, by what it is assembled to.
pub fn source_of(alloc: Global, text: String, assembled: &Assembled) -> Result<Source, AllocError>
    ensures source { IfOk result (λ s. source_shown s
        ≡ source_of (string_bytes text) assembled.now) }
{
    let mut labels = String::new(alloc);
    assembled.symbols().push_lines(&mut labels)?;
    Ok(Source {
        text,
        labels,
        rows: assembled.rows().to_vec(alloc)?,
        origin: assembled.image().origin(),
        words: assembled.image().words().to_vec(alloc)?,
    })
}

fn row_words<'a>(source: &'a Source, row: &Row) -> &'a [u16]
    ensures words { result.now ≡ row_words (source_shown source.now) row.now }
{
    let words = source.words.as_slice();
    let before = row.address.saturating_sub(source.origin) as usize;
    let rest = &words[before.min(words.len())..];
    &rest[..row.count.min(rest.len())]
}

fn first_call(words: &[u16]) -> Option<Service>
    ensures service { result ≡ first_call words.now }
{
    service_of_word(*words.first()?)
}

#[tactic(auto, unfolding(crate::specs::Sources::row_data))]
fn row_value(alloc: Global, source: &Source, row: &Row) -> Result<Value, AllocError>
    ensures value { IfOk result (λ v. view v ≡ row_data (source_shown source.now) row.now) }
{
    let (line, address) = (row.line, row.address);
    let held = row_words(source, row);
    match first_call(held) {
        Some(service) => {
            let name = service.name();
            json!(in alloc; [line, address, list_value(alloc, held)?, name])
        }
        None => json!(in alloc; [line, address, list_value(alloc, held)?]),
    }
}

#[tactic(auto, unfolding(crate::specs::Sources::source_data))]
fn source_value(alloc: Global, source: &Source) -> Result<Value, AllocError>
    ensures value { IfOk result (λ v. view v ≡ source_data (source_shown source.now)) }
{
    let mut rows = Vec::new(alloc);
    for row in &source.rows {
        rows.push(row_value(alloc, source, row)?)?;
    }
    json!(in alloc; [&source.text, rows, &source.labels])
}

#[tactic(auto, using(lab_moments::proofs::ValueLemmas::seen))]
fn name_at(alloc: Global, names: &[String], process: usize) -> Result<Value, AllocError>
    ensures value { IfOk result (λ v. view v ≡ name_at (map string_bytes names.now) process) }
{
    match names.get(process) {
        Some(name) => Value::try_from_str(alloc, name),
        None => Ok(Value::Null),
    }
}

fn has_text(source: &Option<Source>, text: &str) -> bool
    ensures same { result ≡ has_text text.now (option_map source_shown source.now) }
{
    match source {
        Some(source) => source.text.as_str() == text,
        None => false,
    }
}

fn first_with(sources: &[Option<Source>], text: &str) -> Option<usize>
    ensures process { result
        ≡ position (λ s. has_text text.now (option_map source_shown s)) sources.now }
{
    sources.iter().position(|source| has_text(source, text))
}

/// A source of process `process`, or the number of the first process whose source has the same text, if that comes before.
fn source_told(
    alloc: Global,
    process: usize,
    source: &Source,
    first: Option<usize>,
) -> Result<Value, AllocError>
    ensures value { IfOk result (λ v. view v
        ≡ source_told process (source_shown source.now) first) }
{
    match first {
        Some(first) if first < process => Ok(Value::from(first)),
        _ => source_value(alloc, source),
    }
}

/// The source of process `process`, or the number of the first one whose source has the same text, if it comes before.
fn source_behind(
    alloc: Global,
    sources: &[Option<Source>],
    process: usize,
    source: &Source,
) -> Result<Value, AllocError>
    ensures value { IfOk result (λ v. view v
        ≡ source_behind (sources_shown sources.now) process (source_shown source.now)) }
{
    let first = first_with(sources, source.text.as_str());
    source_told(alloc, process, source, first)
}

pub(crate) fn source_in(sources: &[Option<Source>], process: usize) -> Option<&Source>
    ensures source { option_map (λ s. s.now) result ≡ source_in sources.now process }
{
    sources.get(process)?.as_ref()
}

#[tactic(auto, using(crate::proofs::SourceLemmas::source_at_shown))]
fn source_at(alloc: Global, sources: &[Option<Source>], process: usize) -> Result<Value, AllocError>
    ensures value { IfOk result (λ v. view v ≡ source_at (sources_shown sources.now) process) }
{
    match source_in(sources, process) {
        Some(source) => source_behind(alloc, sources, process, source),
        None => Ok(Value::Null),
    }
}

fn program_at(
    alloc: Global,
    names: &[String],
    sources: &[Option<Source>],
    process: usize,
) -> Result<Value, AllocError>
    ensures value { IfOk result (λ v. view v
        ≡ program_at (map string_bytes names.now) (sources_shown sources.now) process) }
{
    json!(in alloc; [name_at(alloc, names, process)?, source_at(alloc, sources, process)?])
}

/// So many processes with these names and sources.
#[tactic(auto, using(lab_moments::proofs::ValueLemmas::below), unfolding(crate::specs::Sources::programs))]
pub fn programs(
    alloc: Global,
    count: usize,
    names: &[String],
    sources: &[Option<Source>],
) -> Result<Value, AllocError>
    ensures value { IfOk result (λ v. view v
        ≡ programs count (map string_bytes names.now) (sources_shown sources.now)) }
{
    let mut programs = Vec::new(alloc);
    for process in 0..count {
        programs.push(program_at(alloc, names, sources, process)?)?;
    }
    Ok(Value::Array(programs))
}
