//! Ranges of memory.
ghost use Rattle.std.specs.Prelude.{◌≡◌, ◌≤◌, ◌+◌, IfOk, string_bytes};
ghost use Rattle.lab_texts.specs.Texts.{mem_text, dis_text};

use lab_sched::World;
use lc3_table::WordText;
use lc3_word::Hex;
use std::alloc::{AllocError, Global};

/// The words of a range of memory of process `pid`, each on a line with its address, as
/// `x3000 xE002`.
#[tactic(auto, using(crate::proofs::RowLemmas::texts_below_none, crate::proofs::RowLemmas::texts_below_next), unfolding(crate::specs::Texts::word_line))]
pub fn mem_text(
    alloc: Global,
    world: &World,
    pid: usize,
    address: u16,
    count: u32,
) -> Result<String, AllocError>
    requires range { address + count ≤ 65536 }
    ensures text { IfOk result (λ s. string_bytes s ≡ mem_text pid address count world.now) }
{
    let mut text = String::new(alloc);
    let Some(process) = world.process(pid) else {
        return Ok(text);
    };
    for i in 0..count {
        let at = (u32::from(address) + i) as u16;
        let place = Hex(at);
        let content = Hex(process.machine().word(at));
        write!(text, "{place} {content}\n")?;
    }
    Ok(text)
}

/// The same with the text of each word, as `x3000 xE002 LEA R0,#2`.
#[tactic(auto, using(crate::proofs::RowLemmas::texts_below_none, crate::proofs::RowLemmas::texts_below_next), unfolding(lc3_table::specs::Text::line_text))]
pub fn dis_text(
    alloc: Global,
    world: &World,
    pid: usize,
    address: u16,
    count: u32,
) -> Result<String, AllocError>
    requires range { address + count ≤ 65536 }
    ensures text { IfOk result (λ s. string_bytes s ≡ dis_text pid address count world.now) }
{
    let mut text = String::new(alloc);
    let Some(process) = world.process(pid) else {
        return Ok(text);
    };
    for i in 0..count {
        let at = (u32::from(address) + i) as u16;
        let word = process.machine().word(at);
        let place = Hex(at);
        let content = Hex(word);
        let shown = WordText(word);
        write!(text, "{place} {content} {shown}\n")?;
    }
    Ok(text)
}
