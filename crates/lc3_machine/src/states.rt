//! The states of a process, a type each.

mod copies;
mod outputs;
mod readers;
mod run;
mod wait;

use crate::machine::Machine;
use crate::want::{How, Want};
use std::marker::Model;

/// A process that runs.
pub struct Running {
    machine: Box<Machine>,
}

impl Drop for Running {
    fn drop(self) {
        let Running { machine: _ } = self;
    }
}

impl Model for Running {
    ghost use Rattle.lc3_machine.specs.Process.{Held};

    ghost Value = { Held };

    ghost view = { λ r. r.machine.value };
}

/// A process that stands before a trap of the kernel, or its end. Nothing of that instruction is done.
pub struct AtCall {
    running: Running,
    want: Want,
}

impl Drop for AtCall {
    fn drop(self) {
        let AtCall {
            running: _,
            want: _,
        } = self;
    }
}

impl Model for AtCall {
    ghost use Rattle.std.specs.Prelude.{◌≡◌};
    ghost use Rattle.lc3_machine.specs.Process.{Held, Stops};
    ghost use Rattle.lc3_machine.specs.Effects.{next_step};

    ghost Value = { Held };

    ghost view = { λ a. a.running };

    ghost invariant = { λ a. next_step a.running.process ≡ Stops a.want };
}

/// A process that waits for the answer of the trap of the kernel that it stands before. Nothing of that instruction is
/// done.
pub struct Waiting {
    call: AtCall,
}

impl Drop for Waiting {
    fn drop(self) {
        let Waiting { call: _ } = self;
    }
}

impl Model for Waiting {
    ghost use Rattle.lc3_machine.specs.Process.{Held};
    ghost use Rattle.lc3_machine.specs.Steps.{AsksTrap};

    ghost Value = { Held };

    ghost view = { λ w. w.call };

    ghost invariant = { λ w. AsksTrap w.call.process };
}

/// A process that has ended.
pub struct Ended {
    machine: Box<Machine>,
    how: How,
}

impl Drop for Ended {
    fn drop(self) {
        let Ended { machine: _, how: _ } = self;
    }
}

impl Model for Ended {
    ghost use Rattle.lc3_machine.specs.Process.{EndedProcess};

    ghost Value = { EndedProcess };

    ghost view = { λ e. record { process = e.machine.value.process; how = e.how } };
}

/// What local steps of a process lead to.
#[derive(Drop)]
pub enum Local {
    /// All steps are done.
    Running(Running),
    /// The next instruction is a trap of the kernel or an end: it isn't done, and no step is counted for it.
    AtCall(AtCall),
    /// Memory was refused to the next instruction: it isn't done, and may be tried again.
    Short(Running),
}
