//! Which limit a search met.
use std::fmt;

const MEGABYTE: usize = 1_048_576;

/// Where a process stands: its nearest label, or else its address; and its line, as far as there is one.
#[derive(Drop)]
pub struct Standing {
    pub place: String,
    pub line: Option<usize>,
}

impl fmt::Display for Standing {
    fn fmt<W: fmt::Write>(&self, f: &mut fmt::Formatter<W>) -> fmt::Result {
        let place = self.place.as_str();
        match self.line {
            Some(line) => write!(f, "{place}, line {line}"),
            None => write!(f, "{place}"),
        }
    }
}

/// Which limit a search met. It is shown as a note tells it.
#[derive(Drop)]
pub enum LimitMet {
    /// So many worlds were visited; so many can be next, if more can be.
    Worlds {
        visited: u32,
        more: Option<u32>,
    },
    /// A process took so many steps without a call, and stands there.
    Steps {
        process: usize,
        steps: u32,
        standing: Standing,
    },
    /// The search took so many bytes.
    Memory {
        memory: usize,
    },
}

impl fmt::Display for LimitMet {
    fn fmt<W: fmt::Write>(&self, f: &mut fmt::Formatter<W>) -> fmt::Result {
        match self {
            LimitMet::Worlds { visited, more } => {
                write!(f, "{} worlds were visited", Grouped(*visited))?;
                match more {
                    Some(more) => write!(f, " (--worlds {more} visits more)"),
                    None => Ok(()),
                }
            }
            LimitMet::Steps {
                process,
                steps,
                standing,
            } => {
                let steps = Grouped(*steps);
                write!(
                    f,
                    "process {process} took {steps} steps without a call, at {standing} (--limit)"
                )
            }
            LimitMet::Memory { memory } => {
                let megabytes = *memory / MEGABYTE;
                write!(f, "the search took {megabytes} megabytes (--memory)")
            }
        }
    }
}

/// A number below 1,000,000,000, with commas at the thousands.
#[derive(Clone, Copy)]
struct Grouped(u32);

impl fmt::Display for Grouped {
    fn fmt<W: fmt::Write>(&self, f: &mut fmt::Formatter<W>) -> fmt::Result {
        let millions = self.0 / 1_000_000;
        let thousands = self.0 / 1_000 % 1_000;
        let ones = self.0 % 1_000;
        if millions > 0 {
            write!(f, "{millions},{thousands:03},{ones:03}")
        } else if thousands > 0 {
            write!(f, "{thousands},{ones:03}")
        } else {
            write!(f, "{ones}")
        }
    }
}
