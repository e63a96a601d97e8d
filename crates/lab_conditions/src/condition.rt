//! What can be asked of a world.
ghost use Rattle.std.specs.Prelude.{Some, string_bytes};

use ipc_names::Name;
use std::fmt;

/// How a number stands to another.
#[derive(Clone, Copy, Debug, PartialEq, Eq)]
pub enum Relation {
    /// It is greater.
    More,
    /// It is smaller.
    Less,
    /// It is the same.
    Equal,
}

/// How a process can stand.
#[derive(Clone, Copy, Debug, PartialEq, Eq)]
pub enum State {
    /// It stands at a call that must wait now, whether or not it has tried it.
    Blocked,
    /// It has ended.
    Ended,
    /// It has ended, and not by HALT.
    Crashed,
    /// It stands at a call, and its program counter lies from one address to another.
    At { first: u16, last: u16 },
}

/// One part of a condition.
#[derive(Drop)]
pub enum Part {
    /// There is a semaphore of this name, and its value stands so to a number.
    Semaphore {
        name: Name,
        relation: Relation,
        value: u16,
    },
    /// There is a queue of this name, and the number of its messages stands so to a number.
    Queue {
        name: Name,
        relation: Relation,
        value: u16,
    },
    /// The process, counted from 0, stands so.
    Of {
        process: usize,
        state: State,
    },
    /// More than so many processes stand so.
    MoreThan {
        state: State,
        number: u16,
    },
}

/// A condition on worlds: it holds where each of its parts does. It is shown as it was written, with
/// one blank between its words.
#[derive(Drop)]
pub struct Condition {
    pub text: String,
    pub parts: Vec<Part>,
}

impl fmt::Display for Condition {
    ghost use Rattle.std.specs.Prelude.{Some, string_bytes};

    ghost output = { λ c. Some (string_bytes c.text) };

    fn fmt<W: fmt::Write>(&self, f: &mut fmt::Formatter<W>) -> fmt::Result {
        let text = self.text.as_str();
        write!(f, "{text}")
    }
}
