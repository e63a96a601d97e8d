//! Processes that are given another output. What they do next doesn't depend on it.

ghost use Rattle.std.specs.Prelude.{◌≡◌};
ghost use Rattle.lc3_machine.specs.Process.{with_whole_output};

use super::{Ended, Running, Waiting};

impl Running {
    /// Puts this output in the place of the process's own.
    pub fn set_output(&mut self, output: Vec<u8>)
        ensures output { self.new.process ≡ with_whole_output self.old.process output.items }
        ensures ready { self.new.ready ≡ self.old.ready }
    {
        self.machine.set_output(output);
    }
}

impl Waiting {
    /// Puts this output in the place of the process's own.
    #[tactic(auto, using(crate::proofs::Outputs::stops_whatever_output))]
    pub fn set_output(&mut self, output: Vec<u8>)
        ensures output { self.new.process ≡ with_whole_output self.old.process output.items }
        ensures ready { self.new.ready ≡ self.old.ready }
    {
        self.call.running.set_output(output);
    }
}

impl Ended {
    /// Puts this output in the place of the process's own.
    pub fn set_output(&mut self, output: Vec<u8>)
        ensures output { self.new.process ≡ with_whole_output self.old.process output.items }
        ensures how { self.new.how ≡ self.old.how }
    {
        self.machine.set_output(output);
    }
}
