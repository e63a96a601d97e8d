//! Copies of a machine, and whether two machines are the same.

ghost use Rattle.std.specs.Prelude.{◌≡◌, ◌↔◌, IfOk, IsTrue};
ghost use Rattle.lc3_machine.specs.Process.{with_whole_output};

use super::Machine;
use crate::input::Input;
use std::alloc::{AllocError, Global};
use std::hash::{FoldHasher, Hasher};
use std::mem::size_of;

impl Machine {
    /// An equal machine, with the same pages ready.
    pub(crate) fn copy(&self, alloc: Global) -> Result<Machine, AllocError>
        ensures equal { IfOk result (λ copy. copy ≡ self.now) }
    {
        Ok(Machine {
            profile: self.profile,
            regs: self.regs.copy(),
            pc: self.pc,
            result: self.result,
            memory: self.memory.copy(alloc)?,
            input: Input::new(alloc, self.input.left())?,
            output: Vec::from_slice(alloc, self.output.as_slice())?,
        })
    }

    /// Puts this output in the place of the machine's own.
    pub(crate) fn set_output(&mut self, output: Vec<u8>)
        ensures output { self.new.process ≡ with_whole_output self.old.process output.items }
        ensures ready { self.new.ready ≡ self.old.ready }
    {
        self.output = output;
    }

    /// Whether two machines are the same process, whatever pages are ready.
    pub(crate) fn is_same(&self, other: &Machine) -> bool
        ensures same { IsTrue result ↔ (self.now.process ≡ other.now.process) }
    {
        self.pc == other.pc
            && self.profile == other.profile
            && self.cc() == other.cc()
            && self.regs.is_same(&other.regs)
            && self.input.left() == other.input.left()
            && self.output.as_slice() == other.output.as_slice()
            && self.memory.has_same_words(&other.memory)
    }

    /// Adds the process to a digest.
    pub(crate) fn feed(&self, hasher: &mut FoldHasher) {
        hasher.write_u16(self.pc);
        hasher.write_u8(self.cc() as u8);
        self.regs.feed(hasher);
        let left = self.input.left();
        hasher.write_usize(left.len());
        hasher.write(left);
        hasher.write_usize(self.output.len());
        hasher.write(self.output.as_slice());
        self.memory.feed(hasher);
    }

    /// About how many bytes a copy of the machine takes: its own, and those of its pages, of the input
    /// that is left and of the output. Nothing that is proved rests on it.
    pub fn size(&self) -> usize {
        size_of::<Machine>()
            .saturating_add(self.memory.size())
            .saturating_add(self.input.left().len())
            .saturating_add(self.output.len())
    }

    /// A number that tells processes apart as a rule. It is the same for equal processes.
    pub(crate) fn digest(&self) -> u64 {
        let mut hasher = FoldHasher::default();
        self.feed(&mut hasher);
        hasher.finish()
    }
}
