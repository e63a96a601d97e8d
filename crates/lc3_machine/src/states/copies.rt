//! Copies of processes, and whether two processes are the same.

ghost use Rattle.std.specs.Prelude.{◌≡◌, ◌↔◌, IfOk, IsTrue};

use super::{AtCall, Ended, Running, Waiting};
use std::alloc::{AllocError, Global};
use std::hash::{FoldHasher, Hasher};

impl Running {
    /// An equal process, of which the same can be written without taking memory.
    pub fn copy(&self, alloc: Global) -> Result<Running, AllocError>
        ensures equal { IfOk result (λ copy. copy ≡ self.now) }
    {
        let machine = Box::new(alloc, self.machine.copy(alloc)?)?;
        Ok(Running { machine })
    }

    /// Whether two processes are the same, whatever of them can be written without taking memory.
    pub fn is_same(&self, other: &Running) -> bool
        ensures same { IsTrue result ↔ (self.now.process ≡ other.now.process) }
    {
        self.machine.is_same(&other.machine)
    }

    /// A number that is the same for equal processes and, as a rule, another for others.
    pub fn digest(&self) -> u64 {
        self.machine.digest()
    }
}

impl Waiting {
    /// An equal process, of which the same can be written without taking memory.
    pub fn copy(&self, alloc: Global) -> Result<Waiting, AllocError>
        ensures equal { IfOk result (λ copy. copy ≡ self.now) }
    {
        Ok(Waiting {
            call: AtCall {
                running: self.call.running.copy(alloc)?,
                want: self.call.want,
            },
        })
    }

    /// Whether two processes are the same, whatever of them can be written without taking memory.
    pub fn is_same(&self, other: &Waiting) -> bool
        ensures same { IsTrue result ↔ (self.now.process ≡ other.now.process) }
    {
        self.call.running.is_same(&other.call.running)
    }

    /// A number that is the same for equal processes and, as a rule, another for others.
    pub fn digest(&self) -> u64 {
        self.call.running.digest()
    }
}

impl Ended {
    /// An equal process, which has ended in the same way.
    pub fn copy(&self, alloc: Global) -> Result<Ended, AllocError>
        ensures equal { IfOk result (λ copy. copy ≡ self.now) }
    {
        let machine = Box::new(alloc, self.machine.copy(alloc)?)?;
        Ok(Ended {
            machine,
            how: self.how,
        })
    }

    /// Whether two processes are the same and have ended in the same way.
    pub fn is_same(&self, other: &Ended) -> bool
        ensures same { IsTrue result ↔ (self.now ≡ other.now) }
    {
        self.how == other.how && self.machine.is_same(&other.machine)
    }

    /// A number that is the same for equal processes and, as a rule, another for others.
    pub fn digest(&self) -> u64 {
        let mut hasher = FoldHasher::default();
        hasher.write_u8(self.how as u8);
        self.machine.feed(&mut hasher);
        hasher.finish()
    }
}
