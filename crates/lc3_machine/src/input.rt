ghost use Rattle.std.specs.Prelude.{◌≡◌, ℕ, ◌<◌, ◌≤◌, drop, vec_len, List, [], ◌∷◌, Option, IfOk, MatchOption};

use std::alloc::{AllocError, Global};
use std::marker::Model;

/// The bytes of input that are left.
#[derive(Drop)]
pub(crate) struct Input {
    bytes: Vec<u8>,
    taken: usize,
}

impl Model for Input {
    ghost use Rattle.std.specs.Prelude.{List, ℕ, drop, ◌≤◌, vec_len};

    ghost Value = { List ℕ };

    ghost view = { λ i. drop i.taken i.bytes.items };

    ghost invariant = { λ i. i.taken ≤ vec_len i.bytes };
}

impl Input {
    /// A copy of the bytes, all of them left.
    pub(crate) fn new(alloc: Global, bytes: &[u8]) -> Result<Input, AllocError>
        ensures bytes { IfOk result (λ i. i ≡ bytes.now) }
    {
        let bytes = Vec::from_slice(alloc, bytes)?;
        Ok(Input { bytes, taken: 0 })
    }

    /// The bytes that are left.
    pub(crate) fn left(&self) -> &[u8]
        ensures left { result.now ≡ self.now }
    {
        &self.bytes[self.taken..]
    }

    /// Takes the next byte, if there is one.
    pub(crate) fn next(&mut self) -> Option<u8>
        ensures first { MatchOption result ((self.old ≡ []) × (self.new ≡ []))
            (λ byte. self.old ≡ byte ∷ self.new) }
    {
        if self.taken == self.bytes.len() {
            return None;
        }
        let byte = self.bytes[self.taken];
        self.taken += 1;
        Some(byte)
    }
}
