//! The commands of lines, as a session accepts or refuses them, with the labels in them.
ghost use Rattle.std.specs.Prelude.{◌≡◌, IfOk, map, ◌<◌, length, option_map, position, IfSome, false, string_bytes};
ghost use Rattle.lab_session.specs.Sessions.{state_of};
ghost use Rattle.lab_debug.specs.Effects.{is_there, are_there, labelled, command_in, refusal_text};
ghost use Rattle.lab_debug.specs.Labels.{addressed, is_sign, named, label_in, moved, label_address, second_label, with_zero};
ghost use Rattle.lab_debug.specs.Private.LabelViews.{label_seen};
ghost use Rattle.lab_debug.specs.Private.Ranges.{IsCommand};
ghost use Rattle.lab_session.specs.Listings.{listing_of};
ghost use Rattle.std.specs.List.{list_all};

use crate::command::{Command, Refusal};
use crate::reading::read_command;
use lab_sched::{Block, World};
use lab_session::{MarkKind, Session};
use lc3_asm::is_label;
use lc3_word::{number_of, unsigned};
use std::alloc::{AllocError, Global};

fn is_there(world: &World, pid: usize) -> bool
    ensures value { result ≡ is_there world.now pid }
{
    pid < world.count()
}

fn blocks_are_there(world: &World, blocks: &[Block]) -> bool
    ensures value { result ≡ list_all (λ b. is_there world.now b.pid) blocks.now }
{
    blocks.iter().all(|block| is_there(world, block.pid))
}

fn are_there(world: &World, command: &Command) -> bool
    ensures value { result ≡ are_there world.now command.now }
{
    match command {
        Command::Run(schedule) | Command::Play(schedule) => {
            blocks_are_there(world, schedule.blocks())
        }
        _ => command.process().is_none_or(|pid| is_there(world, pid)),
    }
}

/// A command with the address that a label stands for in the place of its own.
fn labelled(session: &Session, command: Command, label: Label<'_>) -> Result<Command, Refusal>
    requires ranges { IsCommand command }
    ensures value { result
        ≡ labelled (state_of session.now) (label_seen label.entry) command (addressed command) }
    ensures ranges { IfOk result (λ command. IsCommand command) }
{
    let pid = command.addressed().ok_or(Refusal::BadOperands)?;
    if !is_there(session.world(), pid) {
        return Err(Refusal::NoProcess);
    }
    let address = address_of(session, pid, label)?;
    command.at(address).ok_or(Refusal::BadOperands)
}

/// The command that a name and its operands write, where each process that it names is there.
pub fn command_in(
    alloc: Global,
    session: &Session,
    name: &[u8],
    operands: &[&[u8]],
) -> Result<Result<Command, Refusal>, AllocError>
    ensures value { IfOk result (λ read. read
        ≡ command_in (state_of session.now) name.now (map (λ word. word.now) operands.now)) }
    ensures ranges { IfOk result (λ read. IfOk read (λ command. IsCommand command)) }
{
    match second_label(operands) {
        Some(label) if session.has_labels() => {
            let operands = with_zero(alloc, operands)?;
            match read_command(alloc, name, operands.as_slice())? {
                Ok(command) => Ok(labelled(session, command, label)),
                Err(refusal) => Ok(Err(refusal)),
            }
        }
        _ => Ok(match read_command(alloc, name, operands)? {
            Ok(command) if !are_there(session.world(), &command) => Err(Refusal::NoProcess),
            read => read,
        }),
    }
}

/// A label of a source, and a number of words before it or behind it.
#[derive(Clone, Copy)]
pub struct Label<'a> {
    /// The name, in either case.
    pub name: &'a [u8],
    /// Whether the words are counted before the label.
    pub is_before: bool,
    /// How many words, up to 99,999.
    pub count: u32,
}

/// Where the first sign of a word stands.
fn sign(word: &[u8]) -> Option<usize>
    ensures place { result ≡ position is_sign word.now }
    ensures within { IfSome result (λ i. i < length word.now) }
{
    word.iter().position(|byte| *byte == b'+' || *byte == b'-')
}

/// The most digits behind a sign.
const MOST_DIGITS: usize = 5;

/// A word that can be a label.
fn named(name: &[u8], is_before: bool, count: u32) -> Option<Label<'_>>
    ensures value { option_map label_seen result ≡ named name.now is_before count }
{
    is_label(name).then_some(Label {
        name,
        is_before,
        count,
    })
}

/// A label, or a label, a sign and 1 to 5 decimal digits. A word that is a number is none.
#[tactic(auto, unfolding(crate::specs::Labels::label_in, crate::specs::Labels::distance_of))]
fn label_in(word: &[u8]) -> Option<Label<'_>>
    ensures value { option_map label_seen result ≡ label_in word.now }
{
    if number_of(word).is_some() {
        return None;
    }
    let Some(sign) = sign(word) else {
        return named(word, false, 0);
    };
    let digits = &word[sign + 1..];
    if digits.len() > MOST_DIGITS {
        return None;
    }
    let count = unsigned(10, digits)?;
    if count > 99_999 {
        return None;
    }
    named(&word[..sign], word[sign] == b'-', count)
}

/// The label that stands as the second operand.
pub fn second_label<'a>(operands: &[&'a [u8]]) -> Option<Label<'a>>
    ensures value { option_map label_seen result
        ≡ second_label (map (λ word. word.now) operands.now) }
{
    match operands {
        [_, address, ..] => label_in(*address),
        _ => None,
    }
}

/// The operands with the address 0 in the place of the second one.
pub fn with_zero<'a>(alloc: Global, operands: &[&'a [u8]]) -> Result<Vec<&'a [u8]>, AllocError>
    ensures words { IfOk result (λ words. map (λ word. word.now) words.items
        ≡ with_zero (map (λ word. word.now) operands.now)) }
{
    let mut words = operands.to_vec(alloc)?;
    if words.len() > 1 {
        words[1] = b"0";
    }
    Ok(words)
}

/// The address that a label of process `pid` stands for. It is refused where the source has no such
/// label, and where the address would be outside memory.
pub fn address_of(session: &Session, pid: usize, label: Label<'_>) -> Result<u16, Refusal>
    ensures address { result ≡ label_address (listing_of (state_of session.now).listings pid)
        (label_seen label.entry) }
{
    let listing = session.listing(pid).ok_or(Refusal::NoLabel)?;
    let address = listing
        .source
        .address_of(label.name)
        .ok_or(Refusal::NoLabel)?;
    let moved = if label.is_before {
        u32::from(address).checked_sub(label.count)
    } else {
        u32::from(address).checked_add(label.count)
    };
    moved
        .and_then(|moved| u16::try_from(moved).ok())
        .ok_or(Refusal::BadOperands)
}

/// What a line answers: the bytes that it writes, and whether it ends the session.
#[derive(Drop)]
pub struct Reply {
    pub text: Vec<u8>,
    pub ends: bool,
}

/// The reply of a line that writes bytes.
pub fn written(text: Vec<u8>) -> Reply
    ensures text { result.text.items ≡ text.items }
    ensures ends { result.ends ≡ false }
{
    Reply { text, ends: false }
}

/// The reply of a line that writes a text.
pub fn said(text: String) -> Reply
    ensures text { result.text.items ≡ string_bytes text }
    ensures ends { result.ends ≡ false }
{
    written(text.into_bytes())
}

/// The text of a refusal.
pub fn refuse(alloc: Global, refusal: Refusal) -> Result<Reply, AllocError>
    ensures text { IfOk result (λ r. r.text.items ≡ refusal_text refusal) }
    ensures ends { IfOk result (λ r. r.ends ≡ false) }
{
    let text = match refusal {
        Refusal::UnknownCommand => String::from_str(alloc, "? unknown command\n")?,
        Refusal::BadOperands => String::from_str(alloc, "? bad operands\n")?,
        Refusal::NoProcess => String::from_str(alloc, "? no such process\n")?,
        Refusal::NoMark(MarkKind::Break) => String::from_str(alloc, "? no such break\n")?,
        Refusal::NoMark(MarkKind::Watch) => String::from_str(alloc, "? no such watch\n")?,
        Refusal::NoLabel => String::from_str(alloc, "? no such label\n")?,
    };
    Ok(said(text))
}
