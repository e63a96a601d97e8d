//! The texts of where a process stands in its source.
ghost use Rattle.std.specs.Prelude.{◌≡◌, ◌+◌, ◌++◌, ◌≤◌, IfOk, OnOk, option_map, string_bytes};
ghost use Rattle.lab_session.specs.Places.{where_line, where_text, code_line, code_text, labels_text};
ghost use Rattle.lab_sched.specs.Held.{process_view};
ghost use Rattle.lab_sched.specs.Worlds.{machine_of};
ghost use Rattle.lab_texts.specs.Texts.{memory_lines};

use lab_sched::{Process, World};
use lab_sources::{Content, Listing, NearestLabel};
use lc3_word::Hex;
use std::alloc::{AllocError, Global};
use std::fmt::Write;

/// Where process `pid` stands: its program counter, the nearest label, and the line of its source
/// there or the text of the word. A process that isn't there has no line.
#[tactic(auto, unfolding(crate::specs::Places::where_line))]
pub fn where_text(
    alloc: Global,
    world: &World,
    pid: usize,
    listing: Option<&Listing>,
) -> Result<String, AllocError>
    ensures text { IfOk result (λ s. string_bytes s
        ≡ where_text pid (option_map (λ l. l.now) listing.entry) world.now) }
{
    let mut text = String::new(alloc);
    if let Some(process) = world.process(pid) {
        let address = process.machine().pc();
        let word = process.machine().word(address);
        let place = Hex(address);
        let label = NearestLabel { listing, address };
        let content = Content {
            listing,
            address,
            word,
        };
        write!(text, "{pid} {place} {label} {content}\n")?;
    }
    Ok(text)
}

/// Adds a word of memory with its label and its line.
#[tactic(auto, unfolding(crate::specs::Places::code_line))]
fn push_code_line(
    text: &mut String,
    listing: Option<&Listing>,
    address: u16,
    word: u16,
) -> Result<(), AllocError>
    ensures text { OnOk result (string_bytes text.new ≡ string_bytes text.old
        ++ code_line (option_map (λ l. l.now) listing.entry) address word) }
{
    let place = Hex(address);
    let shown = Hex(word);
    let label = NearestLabel { listing, address };
    let content = Content {
        listing,
        address,
        word,
    };
    write!(text, "{place} {shown} {label} {content}\n")?;
    Ok(())
}

/// A range of memory of a process: so many words from an address on.
#[derive(Clone, Copy)]
pub struct Range {
    pub pid: usize,
    pub address: u16,
    pub count: u32,
}

/// Adds the words of a range, each with its label and its line.
#[tactic(auto, using(lab_texts::proofs::RowLemmas::texts_below_none))]
fn push_code(
    text: &mut String,
    listing: Option<&Listing>,
    process: &Process,
    address: u32,
    count: u32,
) -> Result<(), AllocError>
    requires range { address + count ≤ 65536 }
    ensures text { OnOk result (string_bytes text.new ≡ string_bytes text.old ++ memory_lines
        (code_line (option_map (λ l. l.now) listing.entry)) address count
        (machine_of (process_view process.now))) }
{
    for i in 0..count {
        let place = (address + i) as u16;
        push_code_line(text, listing, place, process.machine().word(place))?;
    }
    Ok(())
}

/// The words of a range of memory, each on a line with its address, its nearest label, and the line
/// of its source there or its text. A process that isn't there has none.
pub fn code_text(
    alloc: Global,
    world: &World,
    listing: Option<&Listing>,
    range: Range,
) -> Result<String, AllocError>
    requires range { range.address + range.count ≤ 65536 }
    ensures text { IfOk result (λ s. string_bytes s ≡ code_text range.pid range.address range.count
        (option_map (λ l. l.now) listing.entry) world.now) }
{
    let mut text = String::new(alloc);
    if let Some(process) = world.process(range.pid) {
        push_code(
            &mut text,
            listing,
            process,
            u32::from(range.address),
            range.count,
        )?;
    }
    Ok(text)
}

/// The labels of a source with their addresses, in the order of their definitions.
pub fn labels_text(alloc: Global, listing: Option<&Listing>) -> Result<String, AllocError>
    ensures text { IfOk result (λ s. string_bytes s
        ≡ labels_text (option_map (λ l. l.now) listing.entry)) }
{
    let mut text = String::new(alloc);
    if let Some(listing) = listing {
        listing.source.assembled.symbols().push_lines(&mut text)?;
    }
    Ok(text)
}
