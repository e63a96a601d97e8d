//! The warnings of a line.
ghost use Rattle.std.specs.Prelude.{◌≡◌, ◌+◌, ◌++◌, map, length, reverse, OnOk, IfOk, is_some};
ghost use Rattle.std.specs.List.{flat_map, list_any};
ghost use Rattle.lc3_warnings.specs.Private.Settings.{seen_setting};
ghost use Rattle.lc3_asm.specs.Views.{seen_line, seen_operand};
ghost use Rattle.lc3_warnings.specs.Warnings.{if_accepted, told, line_kinds};
ghost use Rattle.lc3_warnings.specs.Private.Names.{is_among};
ghost use Rattle.lc3_warnings.specs.Returns.{is_r7, has_r7, line_writes_r7, ends_subroutine, body, lost_in, is_return, lost_return};
ghost use Rattle.lc3_spelling.specs.Edits.{near_edits};
ghost use Rattle.lc3_table.specs.Tokens.{tokens};
ghost use Rattle.lc3_warnings.specs.Labels.{is_near, is_word_alone, call_or_operation, meaning, other_meaning, may_be_for_reader, unused_label};
ghost use Rattle.lc3_warnings.specs.Calls.{call_named};

use crate::codes::{loaded_string, stale_codes};
use crate::flow::{Flow, flow_of};
use crate::names::{Names, statement_of};
use crate::numbers::{decimal_origin, unknown_trap, wraps};
use crate::texts::{Kind, Warning};
use crate::walk::{
    Around, Settings, falls_into, goes_on_here, runs_into_data, runs_past_end, starts_in_data,
};
use lc3_asm::{Line, Operand, Token, first_token};
use lc3_spelling::{BARE_OPERATIONS, suggestion};
use lc3_table::{Operation, Profile};
use std::alloc::{AllocError, Global};

fn if_accepted(accepted: bool, kind: Option<Kind>) -> Option<Kind>
    ensures value { result ≡ if_accepted accepted kind }
{
    if accepted { kind } else { None }
}

fn push_kinds(
    found: &mut Vec<Warning>,
    line: usize,
    kinds: &[Option<Kind>],
) -> Result<(), AllocError>
    ensures told { OnOk result (found.new.items
        ≡ found.old.items ++ flat_map (told line) kinds.now) }
{
    for kind in kinds {
        if let Some(kind) = kind {
            found.push(Warning { line, kind: *kind })?;
        }
    }
    Ok(())
}

/// Adds the warnings of a line that stands behind these.
pub fn push_line(
    found: &mut Vec<Warning>,
    setting: &Settings,
    bytes: &[u8],
    line: &Line,
    before: &[Line],
    around: Around,
) -> Result<(), AllocError>
    ensures told { OnOk result (found.new.items ≡ found.old.items
        ++ flat_map (told (length before.now + 1)) (line_kinds (seen_setting setting.now)
        bytes.now (seen_line line.now) around (reverse (map seen_line before.now)))) }
{
    let alloc = *found.allocator();
    let accepted = setting.accepted;
    let meaning = other_meaning(alloc, &setting.named, &setting.mentioned, bytes, line)?;
    let unused = unused_label(alloc, &setting.named, bytes, line, around)?;
    let lost = lost_return(setting.profile, &setting.called, line, before);
    let loaded = loaded_string(&setting.strings, line, around, before);
    let kinds = [
        wraps(bytes, line),
        unknown_trap(line),
        decimal_origin(bytes, line),
        meaning,
        if_accepted(accepted, unused),
        if_accepted(accepted, starts_in_data(around)),
        if_accepted(accepted, runs_into_data(around)),
        if_accepted(accepted, runs_past_end(around)),
        if_accepted(accepted, falls_into(&setting.called, line, around)),
        if_accepted(accepted, lost),
        if_accepted(accepted, stale_codes(&setting.named, line, before)),
        if_accepted(accepted, loaded),
    ];
    push_kinds(found, before.len() + 1, &kinds)
}

fn is_r7(operand: &Operand) -> bool
    ensures value { result ≡ is_r7 (seen_operand operand.now) }
{
    matches!(operand, Operand::Register(register) if register.number() == 7)
}

fn any_r7(operands: &[Operand]) -> bool
    ensures value { result ≡ list_any is_r7 (map seen_operand operands.now) }
{
    for i in 0..operands.len() {
        if is_r7(&operands[i]) {
            return true;
        }
    }
    false
}

fn has_r7(line: &Line) -> bool
    ensures value { result ≡ has_r7 (seen_line line.now) }
{
    matches!(line, Line::Operates { operands, .. } if any_r7(operands))
}

/// Whether a line puts the address behind it into R7.
fn line_writes_r7(profile: Profile, line: &Line) -> bool
    ensures value { result ≡ line_writes_r7 profile (seen_line line.now) }
{
    let Some((operation, _)) = statement_of(line) else {
        return false;
    };
    match operation {
        Operation::JumpSubroutine | Operation::JumpSubroutineRegister => true,
        Operation::Trap
        | Operation::Getc
        | Operation::Out
        | Operation::Puts
        | Operation::In
        | Operation::Putsp => profile == Profile::A,
        _ => false,
    }
}

fn ends_subroutine(line: &Line) -> bool
    ensures value { result ≡ ends_subroutine (seen_line line.now) }
{
    !matches!(statement_of(line), Some((Operation::Branch { .. }, _)))
        && matches!(flow_of(line), Some(Flow::Data | Flow::Stops))
}

/// The number of the line that has written R7 where a subroutine goes back in this line, which stands below these;
/// none where a line between has the operand R7.
fn lost_in(profile: Profile, entries: &Names, line: &Line, above: &[Line]) -> Option<usize>
    ensures value { result ≡ lost_in profile
        (body (is_among entries.now) (seen_line line.now) (reverse (map seen_line above.now))) }
{
    let mut writer = None;
    let mut below = line;
    let mut rest = above;
    while let Some((next, others)) = rest.split_last() {
        if entries.has_label_of(below) || ends_subroutine(next) {
            return writer;
        }
        if has_r7(next) {
            return None;
        }
        if writer.is_none() && line_writes_r7(profile, next) {
            writer = Some(rest.len());
        }
        below = next;
        rest = others;
    }
    writer
}

/// Whether a subroutine goes back in this line, which stands below these, behind one that has written R7.
pub fn lost_return(profile: Profile, entries: &Names, line: &Line, above: &[Line]) -> Option<Kind>
    ensures value { result ≡ lost_return profile (is_among entries.now) (seen_line line.now)
        (reverse (map seen_line above.now)) }
{
    let is_return = match statement_of(line) {
        Some((Operation::Return, _)) => true,
        Some((Operation::Jump, operands)) => any_r7(operands),
        _ => false,
    };
    if !is_return {
        return None;
    }
    let writer = lost_in(profile, entries, line, above)?;
    Some(Kind::LostReturn { writer })
}

fn is_near_any(alloc: Global, name: &str, others: &[&str]) -> Result<bool, AllocError>
    ensures value { IfOk result (λ near.
        near ≡ list_any (λ other. is_some (near_edits name.now other.now)) others.now) }
{
    let found = suggestion(alloc, name, others)?;
    Ok(found.is_some())
}

/// Whether a name is spelled nearly like an operation without operands.
#[tactic(auto, unfolding(crate::specs::Labels::is_near))]
fn is_near(alloc: Global, name: &str) -> Result<bool, AllocError>
    ensures value { IfOk result (λ near. near ≡ is_near name.now) }
{
    let near = is_near_any(alloc, name, &BARE_OPERATIONS)?;
    Ok(near)
}

/// The vector of the call with this name in capital letters.
pub fn call_named(name: &str) -> Option<u8>
    ensures vector { result ≡ call_named name.now }
{
    match name {
        "MQ_OPEN" => Some(0x40),
        "MQ_CLOSE" => Some(0x41),
        "MQ_UNLINK" => Some(0x42),
        "MQ_SEND" => Some(0x43),
        "MQ_RECEIVE" => Some(0x44),
        "MQ_GETATTR" => Some(0x45),
        "MQ_SETATTR" => Some(0x46),
        "SEM_OPEN" => Some(0x50),
        "SEM_CLOSE" => Some(0x51),
        "SEM_UNLINK" => Some(0x52),
        "SEM_WAIT" => Some(0x53),
        "SEM_TRYWAIT" => Some(0x54),
        "SEM_POST" => Some(0x55),
        "SEM_GETVALUE" => Some(0x56),
        _ => None,
    }
}

/// What a name was rather meant as, a call or an operation that is spelled nearly so.
fn call_or_operation(alloc: Global, name: &str) -> Result<Option<Kind>, AllocError>
    ensures value { IfOk result (λ kind.
        kind ≡ call_or_operation (call_named name.now) name.now) }
{
    match call_named(name) {
        Some(vector) => Ok(Some(Kind::CallName { vector })),
        None => Ok(is_near(alloc, name)?.then_some(Kind::Misspelt)),
    }
}

/// What a line that nothing names was rather meant as.
fn meaning(alloc: Global, bytes: &[u8], line: &Line) -> Result<Option<Kind>, AllocError>
    ensures value { IfOk result (λ kind. kind ≡ meaning bytes.now (seen_line line.now)) }
{
    match (line, first_token(bytes)) {
        (Line::LabelAlone(name), Some((Token::Word(word), after)))
            if first_token(after).is_none() && !matches!(word, [.., b':']) => call_or_operation(
            alloc,
            name.as_str(),
        ),
        _ => Ok(None),
    }
}

/// What the label of this line was rather meant as, if it is neither among the labels that lines name nor among those that
/// are words of faulty lines.
pub fn other_meaning(
    alloc: Global,
    named: &Names,
    mentioned: &Names,
    bytes: &[u8],
    line: &Line,
) -> Result<Option<Kind>, AllocError>
    ensures value { IfOk result (λ kind. kind ≡ other_meaning (is_among named.now)
        (is_among mentioned.now) bytes.now (seen_line line.now)) }
{
    let Some(name) = line.label() else {
        return Ok(None);
    };
    if named.contains(name) || mentioned.contains(name) {
        return Ok(None);
    }
    meaning(alloc, bytes, line)
}

fn may_be_for_reader(around: Around) -> bool
    ensures value { result ≡ may_be_for_reader around }
{
    around.previous.is_none() || goes_on_here(around)
}

/// Whether no line names the label of this line, which stands so.
pub fn unused_label(
    alloc: Global,
    named: &Names,
    bytes: &[u8],
    line: &Line,
    around: Around,
) -> Result<Option<Kind>, AllocError>
    ensures value { IfOk result (λ kind.
        kind ≡ unused_label (is_among named.now) bytes.now (seen_line line.now) around) }
{
    let Some(name) = line.label() else {
        return Ok(None);
    };
    if named.contains(name) || may_be_for_reader(around) {
        return Ok(None);
    }
    Ok(
        meaning(alloc, bytes, line)?
            .is_none()
            .then_some(Kind::UnusedLabel),
    )
}
