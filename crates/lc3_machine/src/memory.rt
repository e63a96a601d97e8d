ghost use Rattle.std.specs.Prelude.{◌≡◌, ℕ, ◌+◌, ◌<◌, ◌≤◌, ◌↔◌, MatchOption, IfSome, IfOk, IsOk, IsTrue, OnErr, OnOk, Option, length, slice_index, slice_set, take};
ghost use Rattle.lc3_word.specs.Segment.{first_device};
ghost use Rattle.lc3_machine.specs.Process.{memory_of};
ghost use Rattle.lc3_machine.specs.Memory.{IsReadyAt, IsWritable, StaysReady, with_words};
ghost use Rattle.lc3_machine.specs.Console.{words_from, string_at};

use crate::pages::{PAGE, PAGES, Pages};
use lc3_word::FIRST_DEVICE;
use std::alloc::{AllocError, Global};
use std::hash::FoldHasher;
use std::marker::Model;

/// The memory of a process: a table of pages, each made by the first write to it or by `reserve`.
#[derive(Drop)]
pub(crate) struct Memory {
    pages: Pages,
}

impl Model for Memory {
    ghost use Rattle.lc3_machine.specs.Private.Pages.{Store, memory_of_pages};

    ghost Value = { Store };

    ghost view = { λ m. memory_of_pages m.pages };
}

impl Memory {
    /// Memory with these words from the origin on, and zeros around them.
    pub(crate) fn load(alloc: Global, origin: u16, words: &[u16]) -> Result<Memory, AllocError>
        requires below_devices { origin + length words.now ≤ first_device }
        ensures words { IfOk result (λ m. m.words ≡ memory_of origin words.now) }
    {
        let pages = Pages::absent(alloc)?;
        let mut memory = Memory { pages };
        for (k, word) in words.iter().enumerate() {
            memory.set(origin + k as u16, *word)?;
        }
        Ok(memory)
    }

    /// The word at an address.
    #[inline(always)]
    pub(crate) fn get(&self, address: u16) -> u16
        ensures word { result ≡ slice_index self.now.words address }
        ensures whole { length self.now.words ≡ 65536 }
    {
        let address = address as usize;
        self.pages.get(address / PAGE, address % PAGE)
    }

    /// Writes the word at an address; where memory is refused nothing has changed.
    #[inline(always)]
    pub(crate) fn set(&mut self, address: u16, word: u16) -> Result<(), AllocError>
        ensures ok { OnOk result (self.new.words ≡ slice_set self.old.words address word) }
        ensures err { OnErr result (self.new.words ≡ self.old.words) }
        ensures ready { StaysReady self.old.ready self.new.ready }
        ensures succeeds { IsReadyAt self.old.ready address → IsOk result }
    {
        let address = address as usize;
        self.pages.set(address / PAGE, address % PAGE, word)
    }

    /// Makes the words of a range writable; where memory is refused some of them may be.
    pub(crate) fn reserve(&mut self, at: u16, len: u16) -> Result<(), AllocError>
        requires below_devices { (k : ℕ) → k < len → at + k < first_device }
        ensures words { self.new.words ≡ self.old.words }
        ensures ready { StaysReady self.old.ready self.new.ready }
        ensures ok { OnOk result (IsWritable self.new.ready at len) }
    {
        if len == 0 {
            return Ok(());
        }
        let first = at as usize / PAGE;
        let last = (at as usize + len as usize - 1) / PAGE;
        for i in first..last + 1 {
            self.pages.make(i)?;
        }
        Ok(())
    }

    /// Whether each word of a range can be written without taking memory.
    pub(crate) fn is_writable(&self, at: u16, len: u16) -> bool
        ensures writable { IsTrue result ↔ IsWritable self.now.ready at len }
    {
        for k in 0..len as u32 {
            let address = at as u32 + k;
            if address >= FIRST_DEVICE as u32 {
                return false;
            }
            if !self.pages.is_made(address as usize / PAGE) {
                return false;
            }
        }
        true
    }

    /// Writes words from an address on.
    pub(crate) fn put(&mut self, at: u16, words: &[u16])
        requires writable { IsWritable self.old.ready at (length words.now) }
        ensures words { self.new.words ≡ with_words self.old.words at words.now }
        ensures ready { StaysReady self.old.ready self.new.ready }
    {
        // A look at memory, whose contract says that there are 65,536 words.
        let _ = self.get(at);
        for (k, word) in words.iter().enumerate() {
            let _ = self.set(at + k as u16, *word);
        }
    }

    /// How many words stand before the first zero word from an address on, if there is one before the device
    /// registers.
    pub(crate) fn string_len(&self, address: u16) -> Option<u16>
        ensures string { MatchOption result (string_at self.now.words address ≡ None)
            (λ n. string_at self.now.words address
            ≡ Some (take n (words_from self.now.words address))) }
        ensures in_memory { IfSome result (λ n. address + n < first_device) }
    {
        for at in address..FIRST_DEVICE {
            if self.get(at) == 0 {
                return Some(at - address);
            }
        }
        None
    }

    /// Equal memory, of which the same is ready.
    pub(crate) fn copy(&self, alloc: Global) -> Result<Memory, AllocError>
        ensures equal { IfOk result (λ copy. copy ≡ self.now) }
    {
        let pages = self.pages.copy(alloc)?;
        Ok(Memory { pages })
    }

    /// Whether two memories have the same words.
    pub(crate) fn has_same_words(&self, other: &Memory) -> bool
        ensures same { IsTrue result ↔ (self.now.words ≡ other.now.words) }
    {
        self.pages.has_same_words(&other.pages)
    }

    /// The bytes of its pages.
    pub(crate) fn size(&self) -> usize {
        self.pages.size()
    }

    /// Adds the words to a digest.
    pub(crate) fn feed(&self, hasher: &mut FoldHasher) {
        for i in 0..PAGES {
            self.pages.feed(i, hasher);
        }
    }
}
