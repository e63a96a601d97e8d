//! A request, or why the words make none.
ghost use Rattle.std.specs.Prelude.{◌≡◌};
ghost use Rattle.lab_arguments.specs.Requests.{notes_of};

use crate::question::Question;
use lc3_table::Profile;
use std::alloc::{AllocError, AllocFailed};

/// What the words of a command line ask for.
#[derive(Drop)]
pub enum Request<'a> {
    Assemble {
        source: &'a str,
        object: &'a str,
        list: bool,
        explain: bool,
        /// The machine that the warnings are about.
        profile: Profile,
    },
    Check {
        sources: Vec<&'a str>,
        /// The machine that the warnings are about.
        profile: Profile,
        /// Whether a warning fails.
        strict: bool,
        /// The names of the warnings that are left out.
        allowed: Vec<&'a str>,
    },
    Disassemble {
        object: &'a str,
    },
    Step {
        setup: Setup<'a>,
    },
    Trace {
        setup: Setup<'a>,
        page: Option<Page<'a>>,
    },
    Run {
        setup: Setup<'a>,
        manner: Manner<'a>,
    },
    Explore {
        setup: Setup<'a>,
        question: Question<'a>,
    },
    Debug {
        setup: Setup<'a>,
    },
    /// To answer an editor's questions about sources.
    Serve,
}

impl Request<'_> {
    /// Where notes on it are told.
    pub fn notes(&self) -> Notes
        ensures notes { result ≡ notes_of self.now }
    {
        match self {
            Request::Assemble { .. }
            | Request::Check { .. }
            | Request::Disassemble { .. }
            | Request::Serve => Notes::AtTerminal,
            Request::Step { setup }
            | Request::Trace { setup, .. }
            | Request::Run { setup, .. }
            | Request::Explore { setup, .. }
            | Request::Debug { setup } => setup.notes,
        }
    }
}

/// What a laboratory is made of.
#[derive(Drop)]
pub struct Setup<'a> {
    /// The words that name programs, process 0's first.
    pub programs: Vec<&'a str>,
    /// The profile of the machines.
    pub profile: Profile,
    pub notes: Notes,
}

/// Where notes are told.
#[derive(Clone, Copy)]
pub enum Notes {
    /// Everywhere.
    Shown,
    /// Nowhere, nor is advice.
    Hidden,
    /// At a terminal.
    AtTerminal,
}

/// How programs are run on threads.
#[derive(Clone, Copy)]
pub struct Manner<'a> {
    /// The most steps of each process.
    pub limit: u32,
    /// The seed of the pauses before calls, where there are pauses.
    pub mix: Option<u32>,
    /// Whether what the processes have written is printed as it is, too.
    pub plain: bool,
    /// The file of the page to write, where one is asked for.
    pub page: Option<&'a str>,
}

/// What a page of a trace is made of.
#[derive(Drop)]
pub struct Page<'a> {
    /// The file to write.
    pub file: &'a str,
    /// The words that name sources, each `P=FILE`.
    pub sources: Vec<&'a str>,
}

/// Why words make no request.
#[derive(Drop)]
pub enum Refusal {
    /// They ask for help, which is this text.
    Help(String),
    /// They ask for the version, which is this line.
    Version(String),
    /// They are wrong, as this text says.
    Usage(String),
    /// They are wrong, as this text says: where a command was meant stands a word that is none.
    NoCommand(String),
    /// There is no memory to read them.
    NoMemory,
}

impl From<AllocError> for Refusal {
    fn from(_refused: AllocError) -> Refusal {
        Refusal::NoMemory
    }
}

impl<T: Drop> From<AllocFailed<T>> for Refusal {
    fn from(_refused: AllocFailed<T>) -> Refusal {
        Refusal::NoMemory
    }
}
