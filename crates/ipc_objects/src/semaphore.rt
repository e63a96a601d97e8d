//! Semaphores.
ghost use Rattle.std.specs.Prelude.{◌≡◌, ◌+◌, ◌-◌, ◌<◌, ◌≤◌, ◌==◌, not};
ghost use Rattle.ipc_objects.specs.Limits.{sem_value_max};

use std::marker::Model;

/// A semaphore, seen as its value, 0 to `SEM_VALUE_MAX` (POSIX.1-2017, `sem_open`).
#[derive(Clone, PartialEq, Eq, Drop)]
pub struct Semaphore {
    value: u16,
}

impl Model for Semaphore {
    ghost use Rattle.std.specs.Prelude.{ℕ, ◌≤◌};
    ghost use Rattle.ipc_objects.specs.Limits.{sem_value_max};

    ghost Value = { ℕ };

    ghost view = { λ a. a.value };

    ghost inverse = { λ value. record { value = value } };

    ghost invariant = { λ a. a.value ≤ sem_value_max };
}

impl Semaphore {
    /// A semaphore with this value.
    pub fn new(value: u16) -> Semaphore
        requires range { value ≤ sem_value_max }
        ensures value { result ≡ value }
    {
        Semaphore { value }
    }

    /// The value now (`sem_getvalue`).
    pub fn value(&self) -> u16
        ensures value { result ≡ self.now }
        ensures bound { result ≤ sem_value_max }
    {
        self.value
    }

    /// Adds one to a value below the greatest (`sem_post`).
    pub fn post(&mut self)
        requires below { self.old < sem_value_max }
        ensures more { self.new ≡ self.old + 1 }
    {
        self.value += 1;
    }

    /// Takes one from a value above 0. At 0 the answer is false and nothing changes
    /// (`sem_trywait`).
    pub fn try_wait(&mut self) -> bool
        ensures answer { result ≡ not (self.old == 0) }
        ensures after { self.new ≡ self.old - 1 }
    {
        if self.value == 0 {
            return false;
        }
        self.value -= 1;
        true
    }
}
