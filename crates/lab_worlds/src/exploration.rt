//! What an exploration found.
ghost use Rattle.std.specs.Prelude.{◌≡◌};
ghost use Rattle.lab_worlds.specs.Met.{is_refused};
ghost use Rattle.lab_worlds.specs.declared.exploration.ExploreFault.TheVariants.{NoMemory};

use crate::ends::End;
use lab_sched::Schedule;
use std::alloc::{AllocError, AllocFailed};
use std::thread::Threads;
use thiserror::Error;

/// What the programs of a laboratory can come to: their ends, for each thing that must never be so
/// steps to it, if there are any, a lasso, if they can go on for ever, how many worlds were visited,
/// and whether these are all. Where a search doesn't show that they are, it has what it met.
#[derive(Drop)]
pub struct Exploration {
    pub ends: Vec<End>,
    pub reached: Vec<Option<Schedule>>,
    pub lasso: Option<Lasso>,
    /// Whether only lassos that are fair are told.
    pub fair: bool,
    pub worlds: u32,
    pub complete: bool,
    pub met: Option<Met>,
}

impl Exploration {
    /// Whether memory was refused on the way.
    pub fn is_refused(&self) -> bool
        ensures refused { result ≡ is_refused self.now }
    {
        matches!(self.met, Some(Met::Refused))
    }
}

/// What keeps a search from visiting every world.
#[derive(Clone, Copy, Drop)]
pub enum Met {
    /// As many worlds as it may visit.
    Worlds,
    /// A process that goes on without a call for as many steps as it may.
    Steps(LongRun),
    /// About so many bytes, which are more than it may take.
    Memory(usize),
    /// Memory was refused.
    Refused,
}

/// Where a process stands after as many local steps in a row as it may take: the address of its next
/// instruction, and the word there.
#[derive(Clone, Copy, Drop)]
pub struct LongRun {
    pub pid: usize,
    pub pc: u16,
    pub word: u16,
}

/// A schedule that leads to a world, and steps from that world to one alike, at least one. They can
/// be repeated for ever.
#[derive(Drop)]
pub struct Lasso {
    pub schedule: Schedule,
    pub steps: Schedule,
}

/// How far a search goes: so many worlds, so many local steps of a process in a row, and about so
/// many bytes of memory.
#[derive(Clone, Copy, Debug, PartialEq, Eq)]
pub struct Limits {
    pub worlds: u32,
    pub steps: u32,
    pub memory: usize,
}

/// An observer of an exploration.
pub trait Observer {
    /// So many worlds were visited, and so many others wait to be.
    fn see(&mut self, visited: usize, waiting: usize);
}

/// So many threads, which judge conditions side by side. What is found depends neither on how many they
/// are nor on the order in which they work.
#[derive(Clone, Copy, Drop)]
pub struct Workers<'a, R> {
    pub rt: &'a R,
    pub count: usize,
}

impl<'a, R: Threads> Workers<'a, R> {
    /// So many threads; with 1 or none one thread judges all.
    pub fn new(rt: &'a R, count: usize) -> Workers<'a, R>
        ensures count { result.count ≡ count }
    {
        Workers { rt, count }
    }
}

/// Why there is no exploration.
#[derive(Clone, Copy, Debug, PartialEq, Eq, Error)]
pub enum ExploreFault {
    /// Memory was refused.
    #[error("out of memory")]
    NoMemory,
    /// The steps to an end that was found don't lead there.
    #[error("Unvouched")]
    Unvouched,
}

impl From<AllocError> for ExploreFault {
    ghost from_gives = { λ _ e. e ≡ NoMemory };

    fn from(_refused: AllocError) -> ExploreFault {
        ExploreFault::NoMemory
    }
}

impl<T: Drop> From<AllocFailed<T>> for ExploreFault {
    ghost from_gives = { λ _ e. e ≡ NoMemory };

    fn from(_refused: AllocFailed<T>) -> ExploreFault {
        ExploreFault::NoMemory
    }
}
