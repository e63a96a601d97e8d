//! Where processes stand in their sources, behind their status lines.
ghost use Rattle.std.specs.Prelude.{◌≡◌, ◌==◌, ◌++◌, false, is_some, OnOk, IfOk, map, string_bytes};
ghost use Rattle.std.specs.Option.{option_map};
ghost use Rattle.std.specs.List.{list_any, slice_split, join_with_byte};
ghost use Rattle.lab_places.specs.Placed.{numbered_of, listed, placed_line, placed, shown_row, place_text};
ghost use Rattle.lab_places.specs.Private.Standings.{more_lines, standing_seen};

use crate::status::{Standing, is_word, standing_in};
use lab_sources::{Listing, Source, line_at};
use lc3_asm::Row;
use lc3_table::WordText;
use std::alloc::{AllocError, Global};
use std::fmt::Write;
use std::marker::Model;

fn lines_of(alloc: Global, text: &[u8]) -> Result<Vec<&[u8]>, AllocError>
    ensures lines { IfOk result (λ found. map (λ line. line.now) found.items
        ≡ slice_split (λ b. b == 10) text.now) }
{
    text.split(|byte| *byte == b'\n').collect(alloc)
}

fn numbered_of<'s, 'a>(sources: &'s [Option<Numbered<'a>>], pid: usize) -> Option<&'s Numbered<'a>>
    ensures source { option_map (λ s. s.now) result ≡ numbered_of sources.now pid }
{
    sources.get(pid)?.as_ref()
}

/// Adds a line, and behind the status line of a process with a source where it stands.
#[tactic(auto, unfolding(crate::specs::Placed::placed_line))]
fn push_line(
    alloc: Global,
    bytes: &mut Vec<u8>,
    sources: &[Option<Numbered<'_>>],
    line: &[u8],
) -> Result<(), AllocError>
    ensures added { OnOk result (bytes.new.items
        ≡ bytes.old.items ++ placed_line sources.now line.now) }
{
    bytes.extend_from_slice(line)?;
    let Some(standing) = standing_in(line) else {
        return Ok(());
    };
    let Some(source) = numbered_of(sources, standing.pid) else {
        return Ok(());
    };
    let place = place_text(alloc, source, standing)?;
    bytes.extend_from_slice(place.as_bytes())
}

/// Adds further lines, each behind a line feed.
fn push_more(
    alloc: Global,
    bytes: &mut Vec<u8>,
    sources: &[Option<Numbered<'_>>],
    lines: &[&[u8]],
) -> Result<(), AllocError>
    ensures added { OnOk result (bytes.new.items ≡ bytes.old.items
        ++ more_lines sources.now (map (λ line. line.now) lines.now)) }
{
    for line in lines {
        bytes.push(b'\n')?;
        push_line(alloc, bytes, sources, line)?;
    }
    Ok(())
}

/// Adds lines, with a line feed between each two.
fn push_lines(
    alloc: Global,
    bytes: &mut Vec<u8>,
    sources: &[Option<Numbered<'_>>],
    lines: &[&[u8]],
) -> Result<(), AllocError>
    ensures added { OnOk result (bytes.new.items ≡ bytes.old.items
        ++ join_with_byte 10 (map (placed_line sources.now) (map (λ line. line.now) lines.now))) }
{
    let Some((first, more)) = lines.split_first() else {
        return Ok(());
    };
    push_line(alloc, bytes, sources, first)?;
    push_more(alloc, bytes, sources, more)?;
    Ok(())
}

/// A text with the places of its status lines: behind each that is of a process with a source stands where the process
/// stands in it. Where no process has one, the text is as it was.
#[tactic(auto, using(crate::proofs::PlacedLemmas::text_alone), unfolding(crate::specs::Placed::placed))]
pub fn placed(
    alloc: Global,
    sources: &[Option<Numbered<'_>>],
    text: &[u8],
) -> Result<Vec<u8>, AllocError>
    ensures text { IfOk result (λ bytes. bytes.items ≡ placed sources.now text.now) }
    ensures unsourced { list_any is_some sources.now ≡ false
        → IfOk result (λ bytes. bytes.items ≡ text.now) }
{
    let lines = lines_of(alloc, text)?;
    let mut bytes = Vec::new(alloc);
    push_lines(alloc, &mut bytes, sources, &lines)?;
    Ok(bytes)
}

/// The same by listings.
pub fn placed_by(
    alloc: Global,
    listings: &[Option<Listing>],
    text: &str,
) -> Result<Vec<u8>, AllocError>
    ensures text { IfOk result (λ bytes. bytes.items ≡ placed (listed listings.now) text.now) }
{
    let sources = listed(alloc, listings)?;
    placed(alloc, &sources, text.as_bytes())
}

/// A source, and its lines as they are shown.
#[derive(Drop)]
pub struct Numbered<'a> {
    pub source: &'a Source,
    pub lines: &'a [String],
}

impl<'a> Model for Numbered<'a> {
    ghost use Rattle.lab_places.specs.Placed.{SourceSeen};

    ghost Value = { SourceSeen };

    ghost view = { λ n. record { program = n.source.now.assembled; lines = n.lines.now } };
}

fn of_listing<'a>(listing: &'a Option<Listing>) -> Option<Numbered<'a>>
    ensures seen { result ≡ option_map
        (λ l. record { program = l.source.assembled; lines = l.lines.items }) listing.now }
{
    let listing = listing.as_ref()?;
    Some(Numbered {
        source: &listing.source,
        lines: listing.lines.as_slice(),
    })
}

/// The sources of listings with their lines.
pub fn listed<'a>(
    alloc: Global,
    listings: &'a [Option<Listing>],
) -> Result<Vec<Option<Numbered<'a>>>, AllocError>
    ensures sources { IfOk result (λ found. found.items ≡ listed listings.now) }
{
    let mut found = Vec::new(alloc);
    for listing in listings {
        found.push(of_listing(listing))?;
    }
    Ok(found)
}

/// The row whose first word is where a process stands, if the text of that word is shown.
fn shown_row(
    alloc: Global,
    source: &Source,
    standing: Standing<'_>,
) -> Result<Option<Row>, AllocError>
    ensures row { IfOk result (λ row. row
        ≡ shown_row source.now.assembled (standing_seen standing.entry)) }
{
    let Some(word) = source.word(standing.address) else {
        return Ok(None);
    };
    let word = WordText(word);
    let text = format!(in alloc; "{word}")?;
    if is_word(text.as_bytes(), standing.shown) {
        Ok(source.row_at(standing.address))
    } else {
        Ok(None)
    }
}

/// Where a process stands in a source: the nearest label, and the line with its number, as far as there are such.
#[tactic(auto, unfolding(crate::specs::Placed::place_text))]
fn place_text(
    alloc: Global,
    source: &Numbered<'_>,
    standing: Standing<'_>,
) -> Result<String, AllocError>
    ensures text { IfOk result (λ text. string_bytes text
        ≡ place_text source.now (standing_seen standing.entry)) }
{
    let mut place = String::new(alloc);
    if let Some(near) = source.source.nearest(standing.address) {
        write!(place, ", at {near}")?;
    }
    if let Some(row) = shown_row(alloc, source.source, standing)? {
        let number = row.line;
        let line = line_at(source.lines, number);
        write!(place, ", line {number}: {line}")?;
    }
    Ok(place)
}
