//! What a command works with, and how far a long one is.
ghost use Rattle.std.specs.Prelude.{◌≡◌, true, false};
ghost use Rattle.lab_arguments.specs.declared.request.Notes.TheVariants.{Shown, Hidden};

use lab_arguments::{Notes, ProgramRow};
use lab_sched::Watch;
use lab_template::Template;
use lab_threads::Gate;
use lab_worlds::Observer;
use std::alloc::Global;
use std::sync::atomic::{AtomicU64, Ordering};

/// The texts of the program that no command makes.
pub struct Texts {
    /// What help says of the commands.
    pub program: ProgramRow,
    /// What the debugger's `help` writes.
    pub help: &'static str,
    /// What stands around the data of a page.
    pub template: Template<'static>,
}

/// Where a command finds its files and threads, what it takes memory from, where it shows how far it is, the texts of the
/// program, and where notes are told.
#[derive(Drop)]
pub struct Job<'a, T, P> {
    pub rt: &'a T,
    pub alloc: Global,
    pub progress: &'a P,
    pub texts: &'a Texts,
    pub notes: Notes,
}

impl<'a, T, P> Job<'a, T, P> {
    /// The same, with notes told there.
    pub fn noting(&self, notes: Notes) -> Job<'a, T, P>
        ensures job { result ≡ record self.now { notes = notes } }
    {
        Job { notes, ..*self }
    }
}

impl<T, P: Progress> Job<'_, T, P> {
    /// Whether notes are told.
    pub fn tells_notes(&self) -> bool
        ensures shown { self.now.notes ≡ Shown → result ≡ true }
        ensures hidden { self.now.notes ≡ Hidden → result ≡ false }
    {
        match self.notes {
            Notes::Shown => true,
            Notes::Hidden => false,
            Notes::AtTerminal => self.progress.is_shown(),
        }
    }

    /// Whether advice is told: somebody looks, who hasn't asked for silence.
    pub(crate) fn advises(&self) -> bool
        ensures hidden { self.now.notes ≡ Hidden → result ≡ false }
    {
        !matches!(self.notes, Notes::Hidden) && self.progress.is_shown()
    }
}

/// How many steps lie between two times that `step` shows how far it is.
const STEPS: u64 = 50_000_000;

/// How many calls lie between two times that `run` shows how far it is.
const CALLS: u64 = 1_000_000;

/// Where a command shows how far it is.
pub trait Progress: Sync {
    /// Whether anybody looks at it.
    fn is_shown(&self) -> bool;

    /// Shows a text in place of the one before.
    fn show(&self, text: &str);

    /// Writes a line that stays.
    fn tell(&self, line: &str);
}

/// Shows how many steps of a schedule are done.
#[derive(Drop)]
pub struct StepCount<'a, P> {
    alloc: Global,
    progress: &'a P,
    total: u32,
    done: u64,
    /// With so many steps done it is shown again.
    next: u64,
}

impl<'a, P: Progress> StepCount<'a, P> {
    pub fn new(alloc: Global, progress: &'a P, total: u32) -> StepCount<'a, P> {
        StepCount {
            alloc,
            progress,
            total,
            done: 0,
            next: if progress.is_shown() { STEPS } else { u64::MAX },
        }
    }

    /// Shows nothing any more.
    pub fn clear(&self) {
        if self.done >= STEPS && self.progress.is_shown() {
            self.progress.show("");
        }
    }
}

impl<P: Progress> Watch for StepCount<'_, P> {
    fn see(&mut self, steps: u32) {
        self.done = self.done.wrapping_add(u64::from(steps));
        if self.done < self.next {
            return;
        }
        self.next = self.done.saturating_add(STEPS);
        if let Ok(text) = format!(in self.alloc; "lc3lab: {} of {} steps", self.done, self.total) {
            self.progress.show(&text);
        }
    }
}

/// What a search counts.
#[derive(Clone, Copy)]
pub struct Counted {
    /// How many lie between two times that `explore` shows how far it is.
    every: usize,
    done: &'static str,
    left: &'static str,
}

pub const WORLDS: Counted = Counted {
    every: 50_000,
    done: "worlds visited",
    left: "waiting",
};

pub const WALKS: Counted = Counted {
    every: 10_000,
    done: "walks taken",
    left: "left",
};

/// Shows how many worlds were visited, or walks taken, and how many are left.
#[derive(Drop)]
pub struct SearchCount<'a, P> {
    alloc: Global,
    progress: &'a P,
    counted: Counted,
    done: usize,
}

impl<'a, P: Progress> SearchCount<'a, P> {
    pub fn new(alloc: Global, progress: &'a P, counted: Counted) -> SearchCount<'a, P> {
        SearchCount {
            alloc,
            progress,
            counted,
            done: 0,
        }
    }

    /// Shows nothing any more.
    pub fn clear(&self) {
        if self.done >= self.counted.every && self.progress.is_shown() {
            self.progress.show("");
        }
    }
}

impl<P: Progress> Observer for SearchCount<'_, P> {
    fn see(&mut self, done: usize, left: usize) {
        self.done = done;
        let counted = self.counted;
        if done == 0 || done.checked_rem(counted.every) != Some(0) || !self.progress.is_shown() {
            return;
        }
        let text = format!(in self.alloc;
            "lc3lab: {done} {}, {left} {}",
            counted.done, counted.left
        );
        if let Ok(text) = text {
            self.progress.show(&text);
        }
    }
}

/// Shows how many calls have come to a gate.
#[derive(Drop)]
pub struct CallCount<'a, P, G> {
    alloc: Global,
    progress: &'a P,
    gate: &'a G,
    calls: AtomicU64,
}

impl<'a, P: Progress, G: Gate> CallCount<'a, P, G> {
    pub fn new(alloc: Global, progress: &'a P, gate: &'a G) -> CallCount<'a, P, G> {
        CallCount {
            alloc,
            progress,
            gate,
            calls: AtomicU64::new(0),
        }
    }

    /// Shows nothing any more.
    pub fn clear(&self) {
        if self.calls.load(Ordering::SeqCst) >= CALLS && self.progress.is_shown() {
            self.progress.show("");
        }
    }
}

impl<P: Progress, G: Gate> Gate for CallCount<'_, P, G> {
    fn arrive(&self, pid: usize, nth: u32) {
        self.gate.arrive(pid, nth);
        if nth == 0 || !self.progress.is_shown() {
            return;
        }
        let calls = self.calls.fetch_add(1, Ordering::SeqCst).wrapping_add(1);
        if calls % CALLS == 0
            && let Ok(text) = format!(in self.alloc; "lc3lab: {calls} calls")
        {
            self.progress.show(&text);
        }
    }
}
