//! How the lines of a trace are written: the columns at their beginning, and the label and the line of the
//! source at their end.
ghost use Rattle.std.specs.Prelude.{◌≡◌, ◌≤◌, ◌<◌, ◌^◌, ◌++◌, OnOk, IfOk, option_map, length, string_bytes};
ghost use Rattle.std.specs.Fmt.{decimal};
ghost use Rattle.lab_places.specs.Placed.{numbered_of};
ghost use Rattle.lab_trace.specs.Forms.{form_for, head, separator, line_end};
ghost use Rattle.lab_trace.specs.Columns.{blanks, at_left, at_right};

use lab_places::Numbered;
use lab_told::Event;
use lc3_word::Hex;
use std::alloc::{AllocError, Global};
use std::marker::Model;

/// The width of the column of counted steps.
const LOCAL_WIDTH: usize = 5;

/// Where a process stands.
#[derive(Clone, Copy)]
pub struct Stand {
    pub pid: usize,
    pub address: u16,
    /// The word there.
    pub word: u16,
}

impl Stand {
    /// Where process `pid` stood before an event of it.
    pub fn before(pid: usize, event: &Event) -> Stand
        ensures stand { result
            ≡ record { pid = pid; address = event.now.pc; word = event.now.word } }
    {
        Stand {
            pid,
            address: event.pc,
            word: event.word,
        }
    }
}

/// How the lines of a trace are written.
#[derive(Drop)]
pub struct Form<'a, 's> {
    /// The width of the number of a step.
    step: usize,
    /// The width of the process.
    process: usize,
    /// Of each process its source, where it was given as one.
    sources: &'a [Option<Numbered<'s>>],
}

impl<'a, 's> Model for Form<'a, 's> {
    ghost use Rattle.lab_trace.specs.Forms.{Form};

    ghost Value = { Form };

    ghost view = { λ f. record { step = f.step; process = f.process; sources = f.sources.now } };
}

/// The number of decimal digits of a number.
fn digits(alloc: Global, number: usize) -> Result<usize, AllocError>
    ensures count { IfOk result (λ n. n ≡ length (decimal number)) }
    ensures small { IfOk result (λ n. n < 2 ^ 63) }
{
    let text = format!(in alloc; "{number}")?;
    Ok(text.len())
}

impl<'a, 's> Form<'a, 's> {
    /// The form for a schedule of so many steps of so many processes. Lines of a process with a
    /// source end with the nearest label of their address and the line there; a process without one
    /// has neither.
    pub fn new(
        alloc: Global,
        total: u32,
        count: usize,
        sources: &'a [Option<Numbered<'s>>],
    ) -> Result<Form<'a, 's>, AllocError>
        requires some { 1 ≤ count }
        ensures form { IfOk result (λ v. v ≡ form_for total count sources.now) }
    {
        let step = digits(alloc, total as usize)?.max(3);
        let process = 1 + digits(alloc, count - 1)?;
        Ok(Form {
            step,
            process,
            sources,
        })
    }

    /// Of each process its source, where it was given as one.
    pub fn sources(&self) -> &'a [Option<Numbered<'s>>]
        ensures sources { result.now ≡ self.now.sources }
    {
        self.sources
    }

    fn source(&self, pid: usize) -> Option<&'a Numbered<'s>>
        ensures source { option_map (λ s. s.now) result ≡ numbered_of self.now.sources pid }
    {
        match self.sources.get(pid) {
            Some(Some(source)) => Some(source),
            _ => None,
        }
    }

    /// Adds the columns before what happened.
    #[tactic(auto, unfolding(crate::specs::Forms::head, crate::specs::Forms::process_column, crate::specs::Forms::local_column))]
    pub fn push_head(
        &self,
        text: &mut String,
        step: &str,
        stand: Stand,
        local: u32,
    ) -> Result<(), AllocError>
        ensures text { OnOk result (string_bytes text.new ≡ string_bytes text.old
            ++ head self.now step.now stand.pid stand.address local) }
    {
        push_at_right(text, self.step, step)?;
        text.push_str(" ")?;
        let (pid, address) = (stand.pid, Hex(stand.address));
        let process = format!(in *text.allocator(); "P{pid}")?;
        push_at_left(text, self.process, &process)?;
        write!(text, " {address} ")?;
        let local = format!(in *text.allocator(); "+{local}")?;
        push_at_right(text, LOCAL_WIDTH, &local)?;
        text.push_str(" ")
    }

    /// Adds the end of the line of where a process stands: the nearest label, and the line of the source there, where there
    /// are such. `begun` says whether a note stands before them.
    #[tactic(auto, unfolding(crate::specs::Forms::line_end))]
    pub fn push_line_end(
        &self,
        text: &mut String,
        begun: bool,
        stand: Stand,
    ) -> Result<(), AllocError>
        ensures text { OnOk result (string_bytes text.new ≡ string_bytes text.old
            ++ line_end self.now begun stand.pid stand.address stand.word) }
    {
        let Stand { pid, address, word } = stand;
        let Some(source) = self.source(pid) else {
            return text.push_str("\n");
        };
        let source = source.source;
        let near = source.nearest(address);
        let noted = begun || near.is_some();
        if let Some(near) = near {
            let separator = separator(begun);
            write!(text, "{separator}at {near}")?;
        }
        if let Some(row) = source.held_row(address, word) {
            let (separator, line) = (separator(noted), row.line);
            write!(text, "{separator}line {line}")?;
        }
        text.push_str("\n")
    }
}

/// What stands before a note.
pub fn separator(begun: bool) -> &'static str
    ensures text { result.now ≡ separator begun }
{
    if begun { ", " } else { " ; " }
}

fn push_blanks(text: &mut String, count: usize) -> Result<(), AllocError>
    ensures text { OnOk result (string_bytes text.new ≡ string_bytes text.old ++ blanks count) }
{
    for _ in 0..count {
        text.push_str(" ")?;
    }
    Ok(())
}

/// Adds a text with blanks before it up to a width.
#[tactic(auto, unfolding(crate::specs::Columns::at_right))]
pub fn push_at_right(text: &mut String, width: usize, part: &str) -> Result<(), AllocError>
    ensures text { OnOk result (string_bytes text.new ≡ string_bytes text.old
        ++ at_right width part.now) }
{
    push_blanks(text, width.saturating_sub(part.len()))?;
    text.push_str(part)
}

/// Adds a text with blanks behind it up to a width.
#[tactic(auto, unfolding(crate::specs::Columns::at_left))]
pub fn push_at_left(text: &mut String, width: usize, part: &str) -> Result<(), AllocError>
    ensures text { OnOk result (string_bytes text.new ≡ string_bytes text.old
        ++ at_left width part.now) }
{
    text.push_str(part)?;
    push_blanks(text, width.saturating_sub(part.len()))
}
