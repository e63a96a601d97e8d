//! The warnings of a text.
ghost use Rattle.std.specs.Prelude.{◌≡◌, ◌+◌, ◌++◌, [], map, drop, length, IfOk, OnOk, ◌<◌, ◌^◌, ℕ, List, ◌||◌, ◌-◌};
ghost use Rattle.lc3_warnings.specs.Private.Settings.{seen_setting};
ghost use Rattle.lc3_asm.specs.Texts.{lines};
ghost use Rattle.lc3_asm.specs.Faults.{reading, faults};
ghost use Rattle.lc3_asm.specs.Views.{lines_if, seen_line, token_of};
ghost use Rattle.lc3_warnings.specs.Flows.{flow_of, next_from};
ghost use Rattle.lc3_warnings.specs.Warnings.{lines_told, first_with_token, after_end, is_accepted, warnings, setting_of};
ghost use Rattle.std.specs.List.{list_any};
ghost use Rattle.lc3_table.specs.Tokens.{tokens};
ghost use Rattle.lc3_warnings.specs.Private.Names.{is_among};
ghost use Rattle.lc3_warnings.specs.Labels.{is_mention, faulty_line, mentioned, goes_on_to, flow_from};
ghost use Rattle.lc3_warnings.specs.Around.{starts_in_data, runs_into_data, runs_past_end, falls_into};

use crate::codes::strings;
use crate::flow::{Flow, Next, flow_of, next_from};
use crate::line_kinds::push_line;
use crate::names::{Names, called, named};
use crate::texts::{Kind, Warning};
use lc3_asm::{
    Line, LineFault, Reader, Token, faults_of, first_line, first_token, is_label, line_count,
    printable, upper, without_colon,
};
use lc3_table::Profile;
use std::alloc::{AllocError, Global};

/// The first line with words behind line `i`, from 0, where `first` is the first from it on.
fn next_behind(read: &[Line], i: usize, first: Option<Next>) -> Option<Next>
    requires within { i < length read.now }
    requires first { first ≡ next_from i (map seen_line (drop i read.now)) }
    ensures value { result ≡ next_from (i + 1) (map seen_line (drop (i + 1) read.now)) }
{
    if flow_of(&read[i]).is_some() {
        next_from(read, i + 1)
    } else {
        first
    }
}

/// Adds the warnings of lines, and gives what follows them in their text.
fn push_lines<'a>(
    found: &mut Vec<Warning>,
    setting: &Settings,
    text: &'a [u8],
    read: &[Line],
) -> Result<Option<&'a [u8]>, AllocError>
    ensures told { OnOk result (found.new.items ≡ found.old.items
        ++ lines_told (seen_setting setting.now) [] (lines text.now) (map seen_line read.now)) }
    ensures rest { IfOk result (λ rest. lines_if rest ≡ drop (length read.now) (lines text.now)) }
{
    let mut rest = Some(text);
    let mut previous: Option<Flow> = None;
    let mut first = next_from(read, 0);
    for (i, line) in read.iter().enumerate() {
        let Some(left) = rest else { return Ok(None) };
        let (bytes, after) = first_line(left);
        let here = flow_of(line);
        let next = next_behind(read, i, first);
        let around = Around {
            previous,
            here,
            next,
        };
        push_line(found, setting, bytes, line, &read[..i], around)?;
        previous = here.or(previous);
        first = next;
        rest = after;
    }
    Ok(rest)
}

/// The number of the first line with a token among those that stand behind so many others.
fn first_with_token(behind: usize, rest: Option<&[u8]>) -> Option<usize>
    requires small { behind < 2 ^ 63 }
    ensures value { result ≡ first_with_token behind (lines_if rest.entry) }
{
    let mut number = behind;
    let mut left = rest;
    while let Some(text) = left {
        let (bytes, after) = first_line(text);
        number += 1;
        if first_token(bytes).is_some() {
            return Some(number);
        }
        left = after;
    }
    None
}

fn is_accepted(alloc: Global, text: &str, reader: &Reader) -> Result<bool, AllocError>
    requires read { reader.now ≡ reading text.now }
    ensures value { IfOk result (λ accepted. accepted ≡ is_accepted text.now) }
{
    let faults = faults_of(alloc, line_count(text.as_bytes()), reader)?;
    Ok(faults.is_empty())
}

/// The warnings of a text that was read so, where the warnings of its lines rest on this setting.
fn warnings_under(
    alloc: Global,
    setting: &Settings,
    text: &[u8],
    read: &[Line],
) -> Result<Vec<Warning>, AllocError>
    ensures told { IfOk result (λ found. found.items
        ≡ lines_told (seen_setting setting.now) [] (lines text.now) (map seen_line read.now)
        ++ after_end (length read.now) (drop (length read.now) (lines text.now))) }
{
    let mut found = Vec::new(alloc);
    let rest = push_lines(&mut found, setting, text, read)?;
    let end = read.len();
    if let Some(line) = first_with_token(end, rest) {
        found.push(Warning {
            line,
            kind: Kind::AfterEnd { end },
        })?;
    }
    Ok(found)
}

/// The warnings of a source text that was read so, by line, for programs on this machine.
#[tactic(auto, using(crate::proofs::WalkLemmas::all_told))]
pub fn warnings(
    alloc: Global,
    text: &str,
    profile: Profile,
    reader: &Reader,
) -> Result<Vec<Warning>, AllocError>
    requires read { reader.now ≡ reading text.now }
    ensures told { IfOk result (λ found. found.items ≡ warnings profile text.now) }
{
    let accepted = is_accepted(alloc, text, reader)?;
    let setting = setting_of(alloc, profile, accepted, text.as_bytes(), reader)?;
    warnings_under(alloc, &setting, text.as_bytes(), reader.lines())
}

/// What the warnings of the lines of a text rest on.
pub struct Settings {
    /// The machine that the warnings are about.
    pub profile: Profile,
    /// Whether the text has no fault.
    pub accepted: bool,
    /// The labels that lines name.
    pub named: Names,
    /// The labels that JSRs name.
    pub called: Names,
    /// The labels of strings.
    pub strings: Names,
    /// The labels that are words of faulty lines.
    pub mentioned: Names,
}

impl Drop for Settings {
    fn drop(self) {
        let Settings {
            profile: _,
            accepted: _,
            named: _,
            called: _,
            strings: _,
            mentioned: _,
        } = self;
    }
}

/// The setting of a text that was read so, and is accepted or not.
pub fn setting_of(
    alloc: Global,
    profile: Profile,
    accepted: bool,
    text: &[u8],
    reader: &Reader,
) -> Result<Settings, AllocError>
    ensures value { IfOk result (λ setting.
        seen_setting setting ≡ setting_of profile accepted (lines text.now) reader.now) }
{
    let lines = reader.lines();
    Ok(Settings {
        profile,
        accepted,
        named: named(alloc, lines)?,
        called: called(alloc, lines)?,
        strings: strings(alloc, lines)?,
        mentioned: mentioned(alloc, text, reader.faults())?,
    })
}

fn faulty_line<'a>(lines: &[&'a [u8]], fault: LineFault) -> &'a [u8]
    ensures line { result.now ≡ faulty_line (map (λ line. line.now) lines.now) fault }
{
    lines
        .get(fault.line.saturating_sub(1))
        .copied()
        .unwrap_or(b"")
}

/// Adds the label that a token is, with `:` or without.
fn add_token(names: &mut Names, alloc: Global, token: Token<'_>) -> Result<(), AllocError>
    ensures added { OnOk result ((name : List ℕ) → is_among names.new name
        ≡ (is_among names.old name || is_mention name (token_of token.entry))) }
{
    match token {
        Token::Word(word) if !matches!(word, [b'.', ..]) && is_label(without_colon(word)) => {
            let name = upper(alloc, without_colon(word))?;
            names.insert(alloc, &name)
        }
        _ => Ok(()),
    }
}

fn add_tokens(names: &mut Names, alloc: Global, line: &[u8]) -> Result<(), AllocError>
    ensures added { OnOk result ((name : List ℕ) → is_among names.new name
        ≡ (is_among names.old name || list_any (is_mention name) (tokens line.now))) }
{
    let mut rest = line;
    while let Some((token, after)) = first_token(rest) {
        add_token(names, alloc, token)?;
        rest = after;
    }
    Ok(())
}

/// The labels that are words of the lines with these faults.
pub fn mentioned(alloc: Global, text: &[u8], faults: &[LineFault]) -> Result<Names, AllocError>
    ensures all { IfOk result (λ names. is_among names ≡ mentioned (lines text.now) faults.now) }
{
    let lines: Vec<&[u8]> = text.split(|byte| *byte == b'\n').collect(alloc)?;
    let mut names = Names::new(alloc);
    for fault in faults {
        let line = printable(alloc, faulty_line(&lines, *fault))?;
        add_tokens(&mut names, alloc, &line)?;
    }
    Ok(names)
}

/// A line, by what it is to execution, between the lines with words before it and behind it.
#[derive(Clone, Copy)]
pub struct Around {
    /// The last line with words before it.
    pub previous: Option<Flow>,
    /// The line itself, if it has words.
    pub here: Option<Flow>,
    /// The first line with words behind it.
    pub next: Option<Next>,
}

pub fn starts_in_data(around: Around) -> Option<Kind>
    ensures value { result ≡ starts_in_data around }
{
    matches!((around.previous, around.here), (None, Some(Flow::Data))).then_some(Kind::StartsInData)
}

/// Whether execution goes on behind this line into data.
pub fn runs_into_data(around: Around) -> Option<Kind>
    ensures value { result ≡ runs_into_data around }
{
    match (around.here, around.next) {
        (Some(Flow::GoesOn), Some(next)) if matches!(next.flow, Flow::Data) => {
            Some(Kind::RunsIntoData { next: next.line })
        }
        _ => None,
    }
}

/// Whether execution goes on behind this line, and it is the last one with words.
pub fn runs_past_end(around: Around) -> Option<Kind>
    ensures value { result ≡ runs_past_end around }
{
    matches!((around.here, around.next), (Some(Flow::GoesOn), None)).then_some(Kind::RunsPastEnd)
}

/// Whether execution goes on from an instruction above to the first instruction from this line on.
pub fn goes_on_here(around: Around) -> bool
    ensures value { result ≡ goes_on_to around.previous (flow_from around) }
{
    let behind = around.here.or(around.next.map(|next| next.flow));
    matches!(
        (around.previous, behind),
        (Some(Flow::GoesOn), Some(Flow::GoesOn | Flow::Stops))
    )
}

/// Whether execution goes on from above into the subroutine that begins in this line, where these labels are.
pub fn falls_into(entries: &Names, line: &Line, around: Around) -> Option<Kind>
    ensures value { result ≡ falls_into (is_among entries.now) (seen_line line.now) around }
{
    (entries.has_label_of(line) && goes_on_here(around)).then_some(Kind::FallsInto)
}
