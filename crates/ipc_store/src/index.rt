//! A hash table: numbers by digests. Nothing that is proved rests on what stands here.
ghost use Rattle.std.specs.Prelude.{◌<◌, IfSome, true};

use std::alloc::{AllocError, Global};

/// How many chains there are at first.
const CHAINS: usize = 1 << 10;

/// Chains of numbers, from 1 in the order in which they were added: those of one hash are in one
/// chain, the newest first. There are at least as many chains as numbers, and a power of 2.
#[derive(Drop)]
pub struct Index {
    newest: Vec<u32>,
    older: Vec<u32>,
    hashes: Vec<u32>,
}

/// The half of a hash that is kept.
fn half(hash: u64) -> u32 {
    ((hash ^ (hash >> 32)) % 4_294_967_296) as u32
}

impl Index {
    /// About how many bytes each number takes.
    pub const ENTRY: usize = 16;

    /// No number.
    pub fn new(alloc: Global) -> Result<Index, AllocError> {
        Ok(Index {
            newest: vec![in alloc; 0; CHAINS]?,
            older: Vec::new(alloc),
            hashes: Vec::new(alloc),
        })
    }

    /// No number, and no room for any.
    pub fn none(alloc: Global) -> Index {
        Index {
            newest: Vec::new(alloc),
            older: Vec::new(alloc),
            hashes: Vec::new(alloc),
        }
    }

    /// The newest of the numbers of a hash that, less one, passes a test; less one.
    pub(crate) fn find<F: Fn(u32) -> bool>(&self, hash: u64, passes: F) -> Option<u32>
        requires callable { F.IsAlwaysCallable passes }
        ensures found { IfSome result (λ i. F.post passes i true) }
    {
        let mut number = self.newest(hash);
        while number > 0 {
            if let Ok(at) = u32::try_from(number - 1) {
                if passes(at) {
                    return Some(at);
                }
            }
            number = self.older(number);
        }
        None
    }

    /// The newest number of a hash, or 0.
    pub fn newest(&self, hash: u64) -> usize {
        let chain = self.chain(half(hash));
        self.newest.get(chain).map_or(0, |number| *number as usize)
    }

    /// The next older number of the same chain, or 0.
    pub fn older(&self, number: usize) -> usize
        ensures less { 0 < number → result < number }
    {
        if number == 0 {
            return 0;
        }
        match self.older.get(number - 1) {
            Some(older) if (*older as usize) < number => *older as usize,
            _ => 0,
        }
    }

    /// Adds the next number for a hash. Where memory is refused none is added.
    pub fn add(&mut self, hash: u64) -> Result<(), AllocError> {
        self.hashes.reserve(1)?;
        self.older.reserve(1)?;
        let count = self.hashes.len();
        if count >= self.newest.len() {
            let chains = self.newest.len().saturating_mul(2);
            self.newest.resize(chains, 0)?;
            self.newest.fill(0);
            for at in 0..count {
                self.link(at);
            }
        }
        self.hashes.push(half(hash))?;
        self.older.push(0)?;
        self.link(count);
        Ok(())
    }

    fn chain(&self, hash: u32) -> usize {
        hash as usize & self.newest.len().wrapping_sub(1)
    }

    /// Puts the number after `at` at the head of its chain.
    fn link(&mut self, at: usize) {
        if at >= self.hashes.len() || at >= self.older.len() {
            return;
        }
        let Ok(number) = u32::try_from(at + 1) else {
            return;
        };
        let chain = self.chain(self.hashes[at]);
        if chain < self.newest.len() {
            self.older[at] = self.newest[chain];
            self.newest[chain] = number;
        }
    }
}
