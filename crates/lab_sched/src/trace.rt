//! Traces: what one process did, with the answers that it was given.
ghost use Rattle.std.specs.Prelude.{◌≡◌, ◌+◌, ◌<◌, ◌≤◌, ◌^◌, OnOk, vec_len, vec_capacity};
ghost use Rattle.lab_sched.specs.Worlds.{Process};
ghost use Rattle.lab_sched.specs.LocalRun.{IsLocalRun, AreLocal, TakesAnswer, steps};

use ipc_kernel::{Answer, Call};
use std::alloc::{AllocError, Global};

/// A call with its answer, and how many local steps came before it.
#[derive(Drop)]
pub struct TracedCall {
    pub before: u32,
    pub call: Call,
    pub answer: Answer,
}

/// What a process did: its calls in order, and its local steps after the last one.
#[derive(Drop)]
pub struct Trace {
    pub calls: Vec<TracedCall>,
    pub after: u32,
}

impl Trace {
    /// The trace of a process that has done nothing yet.
    pub fn new(alloc: Global) -> Trace
        ensures alone { (s : Process) → IsLocalRun s result s }
        ensures steps { steps result ≡ 0 }
    {
        Trace {
            calls: Vec::new(alloc),
            after: 0,
        }
    }

    /// Makes room for two more calls.
    pub fn reserve(&mut self) -> Result<(), AllocError>
        ensures room { OnOk result (vec_len self.new.calls + 2 ≤ vec_capacity self.new.calls) }
        ensures alone { (s x : Process) → IsLocalRun s self.old x → IsLocalRun s self.new x }
        ensures steps { steps self.new ≡ steps self.old }
    {
        self.calls.reserve(2)
    }

    /// Adds so many local steps.
    pub fn add_local(&mut self, count: u32)
        requires few { steps self.old + count < 2 ^ 32 }
        ensures alone { (s x y : Process)
            → IsLocalRun s self.old x → AreLocal count x y → IsLocalRun s self.new y }
        ensures steps { steps self.new ≡ steps self.old + count }
        ensures len { vec_len self.new.calls ≡ vec_len self.old.calls }
        ensures room { vec_capacity self.new.calls ≡ vec_capacity self.old.calls }
    {
        self.after += count;
    }

    /// Adds a call with its answer.
    pub fn add_call(&mut self, call: Call, answer: Answer)
        requires room { vec_len self.old.calls < vec_capacity self.old.calls }
        ensures alone { (s x y : Process)
            → IsLocalRun s self.old x → TakesAnswer x call answer y → IsLocalRun s self.new y }
        ensures steps { steps self.new ≡ steps self.old + 1 }
        ensures len { vec_len self.new.calls ≡ vec_len self.old.calls + 1 }
        ensures room { vec_capacity self.new.calls ≡ vec_capacity self.old.calls }
    {
        self.calls.push_reserved(TracedCall {
            before: self.after,
            call,
            answer,
        });
        self.after = 0;
    }
}
