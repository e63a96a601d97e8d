//! The pages of a memory.

ghost use Rattle.std.specs.Prelude.{◌≡◌, ◌↔◌, ◌<◌, true, length, replicate, slice_index, IfOk, IsOk, IsTrue, OnErr, OnOk};
ghost use Rattle.lc3_machine.specs.Private.Pages.{AreWhole, absent_page, memory_of_pages, words_in, is_made_in, with_made, with_written};

use std::alloc::{AllocError, Global};
use std::hash::{FoldHasher, Hasher};
use std::marker::Model;
use std::mem::size_of;

/// How many words a page has.
pub(crate) const PAGE: usize = 256;

/// How many pages a memory has.
pub(crate) const PAGES: usize = 256;

/// The pages of a memory. One that isn't made takes no memory of its own and reads as zeros.
#[derive(Drop)]
pub(crate) struct Pages {
    /// A page of zeros, and behind it the pages that are made, in the order in which they were.
    words: Vec<u16>,
    /// Where each page begins among the words: at 0, with the zeros, if it isn't made.
    starts: [usize; PAGES],
}

impl Model for Pages {
    ghost use Rattle.std.specs.Prelude.{List};
    ghost use Rattle.lc3_machine.specs.Private.Pages.{PageWords, ArePages, pages_at};

    ghost Value = { List PageWords };

    ghost view = { λ p. pages_at p.words.items p.starts };

    ghost invariant = { λ p. ArePages p.words.items p.starts };
}

impl Pages {
    /// Pages that were never written.
    pub(crate) fn absent(alloc: Global) -> Result<Pages, AllocError>
        ensures absent { IfOk result (λ pages. pages ≡ replicate 256 absent_page) }
    {
        let mut words = Vec::new(alloc);
        words.resize(PAGE, 0)?;
        Ok(Pages {
            words,
            starts: [0; PAGES],
        })
    }

    /// The word at a place of a page.
    #[inline(always)]
    pub(crate) fn get(&self, page: usize, place: usize) -> u16
        requires page { page < 256 }
        requires place { place < 256 }
        ensures word { result ≡ slice_index (words_in self.now page) place }
        ensures count { length self.now ≡ 256 }
        ensures whole { AreWhole self.now }
    {
        self.words[self.starts[page] + place]
    }

    /// Whether a page can be written without taking memory.
    #[inline(always)]
    pub(crate) fn is_made(&self, page: usize) -> bool
        requires page { page < 256 }
        ensures made { result ≡ is_made_in self.now page }
        ensures count { length self.now ≡ 256 }
        ensures whole { AreWhole self.now }
    {
        self.starts[page] != 0
    }

    /// Makes a page, so that it can be written; what it holds stays the same. Where memory is refused nothing has changed.
    pub(crate) fn make(&mut self, page: usize) -> Result<(), AllocError>
        requires page { page < 256 }
        ensures ok { OnOk result (self.new ≡ with_made self.old page) }
        ensures err { OnErr result (self.new ≡ self.old) }
        ensures count { length self.old ≡ 256 }
    {
        if self.is_made(page) {
            return Ok(());
        }
        let start = self.words.len();
        self.words.resize(start + PAGE, 0)?;
        self.starts[page] = start;
        Ok(())
    }

    /// Writes the word at a place of a page that is made.
    #[inline(always)]
    fn write(&mut self, page: usize, place: usize, word: u16)
        requires page { page < 256 }
        requires place { place < 256 }
        requires made { is_made_in self.old page ≡ true }
        ensures written { self.new ≡ with_written self.old page place word }
    {
        let start = self.starts[page];
        self.words[start + place] = word;
    }

    /// Writes the word at a place of a page; where memory is refused nothing has changed.
    #[inline(always)]
    pub(crate) fn set(&mut self, page: usize, place: usize, word: u16) -> Result<(), AllocError>
        requires page { page < 256 }
        requires place { place < 256 }
        ensures ok { OnOk result (self.new ≡ with_written self.old page place word) }
        ensures err { OnErr result (self.new ≡ self.old) }
        ensures succeeds { is_made_in self.old page ≡ true → IsOk result }
        ensures count { length self.old ≡ 256 }
        ensures whole { AreWhole self.old }
    {
        if self.is_made(page) {
            self.write(page, place, word);
            return Ok(());
        }
        self.write_first(page, place, word)
    }

    /// Writes the first word of a page that isn't made.
    #[inline(never)]
    fn write_first(&mut self, page: usize, place: usize, word: u16) -> Result<(), AllocError>
        requires page { page < 256 }
        requires place { place < 256 }
        ensures ok { OnOk result (self.new ≡ with_written self.old page place word) }
        ensures err { OnErr result (self.new ≡ self.old) }
    {
        self.make(page)?;
        self.write(page, place, word);
        Ok(())
    }

    fn words_of(&self, page: usize) -> &[u16]
        requires page { page < 256 }
        ensures words { result.now ≡ words_in self.now page }
    {
        let start = self.starts[page];
        &self.words[start..start + PAGE]
    }

    /// Equal pages.
    pub(crate) fn copy(&self, alloc: Global) -> Result<Pages, AllocError>
        ensures equal { IfOk result (λ copy. copy ≡ self.now) }
    {
        let words = Vec::from_slice(alloc, self.words.as_slice())?;
        Ok(Pages {
            words,
            starts: self.starts,
        })
    }

    /// The bytes of the words.
    pub(crate) fn size(&self) -> usize {
        size_of::<u16>().saturating_mul(self.words.len())
    }

    /// Whether a page has the same words here and there.
    fn has_same_page(&self, other: &Pages, page: usize) -> bool
        requires page { page < 256 }
        ensures same { IsTrue result ↔ (words_in self.now page ≡ words_in other.now page) }
    {
        // A proof has the invariant of the pages where one of their fields is named.
        let _ = &self.words;
        let _ = &other.words;
        if !self.is_made(page) && !other.is_made(page) {
            return true;
        }
        self.words_of(page) == other.words_of(page)
    }

    /// Whether all words are the same here and there.
    pub(crate) fn has_same_words(&self, other: &Pages) -> bool
        ensures same { IsTrue result ↔
            ((memory_of_pages self.now).words ≡ (memory_of_pages other.now).words) }
    {
        // A proof has the invariant of the pages where one of their fields is named.
        let _ = &self.words;
        let _ = &other.words;
        for page in 0..PAGES {
            if !self.has_same_page(other, page) {
                return false;
            }
        }
        true
    }

    /// Adds a page to a digest. One of zeros adds nothing, whether it is made or not.
    pub(crate) fn feed(&self, page: usize, hasher: &mut FoldHasher)
        requires page { page < 256 }
    {
        if !self.is_made(page) {
            return;
        }
        let words = self.words_of(page);
        if words.iter().any(|word| *word != 0) {
            hasher.write_usize(page);
            for word in words {
                hasher.write_u16(*word);
            }
        }
    }
}
