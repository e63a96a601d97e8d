//! What the program says of a fault.
ghost use Rattle.std.specs.Prelude.{◌≡◌, Ok, IfOk};

use lab_arguments::Shown;
use lab_io::Output;
use std::alloc::{AllocError, AllocFailed, Global};
use std::fmt::{self, Display};
use std::io::Write;
use thiserror::Error;

/// What is wrong with the words of the command line, as the files and the programs show that they name.
#[derive(Clone, Copy, Debug, Error)]
pub enum Misuse {
    #[error("OBJECT is the file of SOURCE")]
    SameFile,
    #[error("FILE is a file of the run")]
    OwnFile,
    #[error("a source has such a name, and nothing is written there")]
    SourceName,
    #[error("--source names no process of the run")]
    UnknownProcess,
    #[error("--source names a process twice")]
    TwoSources,
    #[error("--require is no condition on an output")]
    NoOutput,
    #[error("--require is no condition on calls")]
    NoCalls,
    #[error("--require names no process of the run")]
    NoSuchWriter,
    #[error("--may-wait is no process")]
    NoWaiter,
    #[error("--may-wait names no process of the run")]
    NoSuchWaiter,
    #[error("--never is no condition")]
    NoCondition,
    #[error("--never names no process of the run")]
    NoSuchProcess,
    #[error("--may-wait doesn't fit the programs")]
    UnfitWaiter,
    #[error("--never doesn't fit the programs")]
    UnfitCondition,
}

impl Misuse {
    /// The complaint about the word that is misused.
    pub fn of(self, word: &str) -> Complaint<'_> {
        Complaint::saying(word, Text::Misuse(self))
    }
}

/// What the commands themselves find fault with.
#[derive(Clone, Copy, Debug, Error)]
pub enum Reason {
    /// A source isn't assembled to the object of a process.
    #[error("not the source of process {process}")]
    NotItsSource { process: usize },
    #[error("not UTF-8")]
    NotUtf8,
    #[error("NoEnd")]
    NoEnd,
    #[error("cannot write")]
    CannotWrite,
    #[error("out of memory")]
    NoMemory,
}

impl Reason {
    /// The complaint about this at a place.
    pub fn at(self, place: &str) -> Complaint<'_> {
        Complaint::saying(place, Text::Reason(self))
    }
}

/// An outcome whose fault can be told with a place.
pub trait At<T> {
    /// The outcome has this value.
    ghost gives: { Self → T → Type 0 };

    /// The outcome, where a fault becomes the complaint about it at a place.
    fn at(self, alloc: Global, place: &str) -> Result<T, Complaint<'_>>
        ensures value { IfOk result (λ value. gives self value) };
}

impl<T, E: Display + Drop> At<T> for Result<T, E> {
    ghost gives = { λ outcome value. outcome ≡ Ok value };

    fn at(self, alloc: Global, place: &str) -> Result<T, Complaint<'_>> {
        match self {
            Ok(value) => Ok(value),
            Err(fault) => Err(Complaint::new(alloc, place, fault)),
        }
    }
}

#[derive(Debug, Drop, Error)]
enum Text {
    #[error(transparent)]
    Misuse(Misuse),
    #[error(transparent)]
    Reason(Reason),
    #[error("{0}")]
    Made(String),
}

/// A fault and where it was found: a file's name, or a part of the program's work.
#[derive(Drop)]
pub struct Complaint<'a> {
    place: &'a str,
    text: Text,
    /// Further lines about it, each with its line feed.
    explanation: Option<String>,
}

impl<'a> Complaint<'a> {
    /// The complaint about a fault at a place, or about want of memory where none is left for its text.
    pub fn new<F: Display + Drop>(alloc: Global, place: &'a str, fault: F) -> Complaint<'a> {
        match format!(in alloc; "{fault}") {
            Ok(text) => Complaint::saying(place, Text::Made(text)),
            Err(_) => Reason::NoMemory.at("run"),
        }
    }

    fn saying(place: &'a str, text: Text) -> Complaint<'a> {
        Complaint {
            place,
            text,
            explanation: None,
        }
    }

    /// Whether the words of the command line are wrong.
    pub fn is_of_words(&self) -> bool {
        matches!(self.text, Text::Misuse(_))
    }

    /// The complaint with further lines about it, each with its line feed, if there are any, unless it is of memory.
    pub fn followed(self, lines: Option<String>) -> Complaint<'a> {
        if matches!(self.text, Text::Reason(Reason::NoMemory)) {
            return self;
        }
        Complaint {
            explanation: lines,
            ..self
        }
    }

    /// Writes it on one line, and behind that what explains it.
    pub fn write<E: Write>(&self, alloc: Global, errors: &mut Output<E>) {
        let _ = match format!(in alloc; "{self}") {
            Ok(lines) => errors.write_all(lines.as_bytes()),
            Err(_) => errors.write_all(b"lc3lab: run: out of memory\n"),
        };
    }
}

impl<'a> From<AllocError> for Complaint<'a> {
    fn from(_refused: AllocError) -> Complaint<'a> {
        Reason::NoMemory.at("run")
    }
}

impl<'a, T: Drop> From<AllocFailed<T>> for Complaint<'a> {
    fn from(_refused: AllocFailed<T>) -> Complaint<'a> {
        Reason::NoMemory.at("run")
    }
}

/// Whole lines.
impl Display for Complaint<'_> {
    fn fmt<W: fmt::Write>(&self, f: &mut fmt::Formatter<W>) -> fmt::Result {
        let place = Shown(self.place);
        let text = &self.text;
        let lines = self.explanation.as_deref().unwrap_or("");
        if self.is_of_words() {
            return write!(f, "error: {text}: {place}\n{lines}");
        }
        write!(f, "lc3lab: {place}: {text}\n{lines}")
    }
}
