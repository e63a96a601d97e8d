//! Each state of a process shows what its machine holds: its readers are those of `Machine`.

ghost use Rattle.std.specs.Prelude.{◌≡◌};

use super::{AtCall, Ended, Running, Waiting};
use crate::machine::Machine;
use std::ops::Deref;

impl Deref for Running {
    type Target = Machine;

    ghost deref_gives = { λ process machine. machine ≡ process };

    fn deref(&self) -> &Machine {
        self.machine()
    }
}

impl Deref for AtCall {
    type Target = Machine;

    ghost deref_gives = { λ process machine. machine ≡ process };

    fn deref(&self) -> &Machine {
        self.machine()
    }
}

impl Deref for Waiting {
    type Target = Machine;

    ghost deref_gives = { λ process machine. machine ≡ process };

    fn deref(&self) -> &Machine {
        self.machine()
    }
}

impl Deref for Ended {
    type Target = Machine;

    ghost deref_gives = { λ process machine. machine.process ≡ process.process };

    fn deref(&self) -> &Machine {
        self.machine()
    }
}
