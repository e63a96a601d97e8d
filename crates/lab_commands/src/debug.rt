//! The command `debug`.
ghost use Rattle.std.specs.Prelude.{◌≡◌, false};

use crate::complaint::{At, Complaint, Reason};
use crate::job::{Job, Progress};
use crate::programs::{Programs, fault_of};
use lab_arguments::Shown;
use lab_debug::{Audience, Session, session_over};
use lab_io::{Input, Output};
use lab_sched::Schedule;
use lab_sources::{Listing, Source};
use lc3_spelling::suggestion;
use lc3_table::Profile;
use std::alloc::{AllocError, Global};
use std::io::{Read, Write};

/// A session that is over.
#[derive(Drop)]
pub struct Debugged {
    session: Session,
}

impl Debugged {
    /// The source of a process, where it was given as one.
    pub fn source(&self, process: usize) -> Option<&Source> {
        self.session.listing(process).map(|listing| &listing.source)
    }

    /// The steps that had an effect, if a schedule can have so many.
    pub fn schedule(&self, alloc: Global) -> Result<Option<Schedule>, AllocError> {
        let mut text = String::new(alloc);
        for block in &self.session.effective(alloc)? {
            write!(text, "{}*{} ", block.pid, block.count)?;
        }
        Ok(Schedule::read(alloc, &text).ok())
    }
}

/// Who says at a terminal what was meant by a line that is refused.
#[derive(Drop)]
struct Adviser<'a, P> {
    alloc: Global,
    /// The debugger's help, a line for each command.
    help: &'a str,
    /// Whether somebody looks, who hasn't asked for silence.
    advises: bool,
    progress: &'a P,
}

impl<P: Progress> Audience for Adviser<'_, P> {
    fn hear(&self, line: &[u8], text: &[u8]) {
        if !text.starts_with(b"? ") || !self.advises {
            return;
        }
        let line = str::from_utf8(line).unwrap_or("");
        let word = line.split(is_blank).find(|word| !word.is_empty());
        let Some(word) = word else {
            return;
        };
        if let Ok(Some(advice)) = advice_on(self.alloc, self.help, word, text) {
            self.progress.tell(&advice);
        }
    }
}

/// What is said of a command that was answered with this text.
fn advice_on(
    alloc: Global,
    help: &str,
    command: &str,
    text: &[u8],
) -> Result<Option<String>, AllocError> {
    match text {
        b"? bad operands\n" => use_of(alloc, help, command),
        b"? unknown command\n" => command_meant(alloc, help, command),
        _ => Ok(None),
    }
}

fn is_blank(character: char) -> bool {
    matches!(character, ' ' | '\t' | '\r')
}

/// The lines of help on a command.
fn use_of(alloc: Global, help: &str, command: &str) -> Result<Option<String>, AllocError> {
    let mut lines = String::new(alloc);
    for line in help.split('\n') {
        if line.split(' ').next() == Some(command) {
            let (form, told) = line.split_once("  ").unwrap_or((line, ""));
            write!(lines, "lc3lab: {form}: {}\n", told.trim_start())?;
        }
    }
    Ok((!lines.is_empty()).then_some(lines))
}

/// What other debuggers call a command, and the command.
const OTHER_NAMES: [(&str, &str); 11] = [
    ("b", "break"),
    ("c", "go"),
    ("continue", "go"),
    ("exit", "quit"),
    ("l", "code"),
    ("list", "code"),
    ("n", "step"),
    ("p", "mem"),
    ("print", "mem"),
    ("q", "quit"),
    ("s", "step"),
];

/// The first words of the help's lines.
fn names_in(alloc: Global, help: &str) -> Result<Vec<&str>, AllocError> {
    help.split('\n')
        .map(|line| line.split(' ').next().unwrap_or(""))
        .collect(alloc)
}

/// The number of the help's line on the command that was meant by a word, if that is known.
fn line_meant(alloc: Global, help: &str, word: &str) -> Result<Option<usize>, AllocError> {
    let names = names_in(alloc, help)?;
    let other = OTHER_NAMES.iter().find(|other| other.0 == word);
    match other {
        Some((_, command)) => Ok(names.iter().position(|name| name == command)),
        None => match names.iter().position(|name| *name == word) {
            Some(place) => Ok(Some(place)),
            None => suggestion(alloc, word, &names),
        },
    }
}

/// The line that says which command was meant by a word, if that is known.
fn command_meant(alloc: Global, help: &str, word: &str) -> Result<Option<String>, AllocError> {
    let word = word.to_ascii_lowercase(alloc)?;
    let Some(place) = line_meant(alloc, help, &word)? else {
        return Ok(None);
    };
    let line = help.split('\n').nth(place).unwrap_or("");
    let form = line.split_once("  ").unwrap_or((line, "")).0;
    let word = Shown(&word);
    Ok(Some(format!(in alloc; "lc3lab: {word}: did you mean {form}?\n")?))
}

/// Makes the laboratory of programs, and carries out the commands that come from the input.
pub fn debug_given<T, R: Read, W: Write, P: Progress>(
    job: &Job<'_, T, P>,
    given: Programs,
    profile: Profile,
    input: &mut Input<R>,
    output: &mut Output<W>,
) -> Result<Debugged, Complaint<'static>>
    requires input_healthy { input.old.failed ≡ false }
    requires output_healthy { output.old.failed ≡ false }
{
    let alloc = job.alloc;
    let listings: Result<Vec<Option<Listing>>, AllocError> = given
        .sources
        .into_iter()
        .zip(given.lines)
        .map(|(source, lines)| source.map(|source| Listing { source, lines }))
        .collect(alloc);
    let Ok(listings) = listings else {
        return Err(Reason::NoMemory.at("session"));
    };
    let start = Session::new(alloc, given.programs, listings, job.texts.help, profile);
    let start = start.map_err(|fault| fault_of(alloc, fault))?;
    let adviser = Adviser {
        alloc,
        help: job.texts.help,
        advises: job.advises(),
        progress: job.progress,
    };
    let session = session_over(alloc, start, input, output, &adviser);
    let session = session.at(alloc, "session")?;
    Ok(Debugged { session })
}
