//! The parts of kernels, each once.
ghost use Rattle.std.specs.Prelude.{◌≡◌, [], Some, length, map, slice_get, IfOk, IfSome, IsTrue};
ghost use Rattle.std.specs.Option.{option_copied};
ghost use Rattle.ipc_store.specs.Private.KeptRows.{Grows};

use crate::index::Index;
use std::alloc::{AllocError, Global};
use std::marker::Model;

/// A part of a kernel: an object, or the tables of a process.
pub(crate) trait Part: Drop {
    fn digest(&self) -> u64;

    fn is_same(&self, other: &Self) -> bool
        ensures same { IsTrue result → self.now ≡ other.now };

    fn copy(&self, alloc: Global) -> Result<Self, AllocError>
        ensures equal { IfOk result (λ copy. copy ≡ self.now) };

    /// About how many bytes a copy takes.
    fn size(&self) -> usize;
}

/// Parts, each with a number, from 0.
#[derive(Drop)]
pub(crate) struct Parts<P> {
    parts: Vec<P>,
    index: Index,
    /// About how many bytes the parts take.
    held: usize,
}

impl<P> Model for Parts<P> {
    ghost use Rattle.std.specs.Prelude.{List};

    ghost Value = { List P };

    ghost view = { λ a. a.parts.items };
}

impl<P: Part> Parts<P> {
    pub(crate) fn new(alloc: Global) -> Result<Parts<P>, AllocError>
        ensures none { IfOk result (λ parts. parts ≡ []) }
    {
        Ok(Parts {
            parts: Vec::new(alloc),
            index: Index::new(alloc)?,
            held: 0,
        })
    }

    pub(crate) fn get(&self, number: u32) -> Option<&P>
        ensures part { option_copied result ≡ slice_get self.now number }
    {
        self.parts.get(number as usize)
    }

    /// All parts.
    pub(crate) fn all(&self) -> &[P]
        ensures all { result.now ≡ self.now }
    {
        self.parts.as_slice()
    }

    pub(crate) fn len(&self) -> usize
        ensures count { result ≡ length self.now }
    {
        self.parts.len()
    }

    /// Keeps a part; with its number.
    pub(crate) fn keep(&mut self, alloc: Global, part: &P) -> Result<u32, AllocError>
        ensures kept { IfOk result (λ i. slice_get self.new i ≡ Some part.now) }
        ensures grows { Grows self.old self.new }
    {
        let digest = part.digest();
        let kept = self.index.find(digest, |at| match self.get(at) {
            Some(kept) => kept.is_same(part),
            None => false,
        });
        if let Some(number) = kept {
            return Ok(number);
        }
        let number = number_of(self.parts.len())?;
        let copy = part.copy(alloc)?;
        self.parts.reserve(1)?;
        self.index.add(digest)?;
        self.parts.push(copy)?;
        self.held = self.held.saturating_add(part.size());
        Ok(number)
    }

    pub(crate) fn keep_all(&mut self, alloc: Global, parts: &[P]) -> Result<Vec<u32>, AllocError>
        ensures kept { IfOk result (λ numbers.
            map (slice_get self.new) numbers.items ≡ map Some parts.now) }
        ensures grows { Grows self.old self.new }
    {
        let mut numbers = Vec::with_capacity(alloc, parts.len())?;
        for part in parts {
            numbers.push(self.keep(alloc, part)?)?;
        }
        Ok(numbers)
    }

    /// Copies of the parts with these numbers, if there are all, with room for so many.
    pub(crate) fn copies(
        &self,
        alloc: Global,
        numbers: &[u32],
        room: usize,
    ) -> Result<Option<Vec<P>>, AllocError>
        ensures equal { IfOk result (λ found. IfSome found (λ copies.
            map (slice_get self.now) numbers.now ≡ map Some copies.items)) }
    {
        let mut copies = Vec::with_capacity(alloc, room)?;
        for number in numbers {
            let Some(part) = self.get(*number) else {
                return Ok(None);
            };
            copies.push(part.copy(alloc)?)?;
        }
        Ok(Some(copies))
    }

    pub(crate) fn size(&self) -> usize {
        self.held
            .saturating_add(Index::ENTRY.saturating_mul(self.parts.len()))
    }

    /// Lets go of the index.
    pub(crate) fn forget(&mut self, alloc: Global)
        ensures same { self.new ≡ self.old }
    {
        self.index = Index::none(alloc);
    }
}

/// A number, as it is kept, if it is small enough.
pub(crate) fn number_of(at: usize) -> Result<u32, AllocError>
    ensures value { IfOk result (λ number. number ≡ at) }
{
    u32::try_from(at).map_err(|_| AllocError)
}
