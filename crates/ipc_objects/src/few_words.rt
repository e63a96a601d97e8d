//! Short lists of words.
ghost use Rattle.std.specs.Prelude.{◌≡◌, ◌<◌, [], ◌∷◌, ◌++◌, length, ⊤};
ghost use Rattle.ipc_objects.specs.Limits.{few_words};

use std::alloc::AllocError;
use std::marker::Model;

/// The greatest number of words that take no memory of their own.
pub const FEW_WORDS: usize = 8;

/// A list of at most `FEW_WORDS` words, which takes no memory of its own.
#[derive(Drop)]
pub struct FewWords {
    words: [u16; FEW_WORDS],
    count: u16,
}

impl Model for FewWords {
    ghost use Rattle.std.specs.Prelude.{List, ℕ, ◌≤◌, take};
    ghost use Rattle.ipc_objects.specs.Limits.{few_words};

    ghost Value = { List ℕ };

    ghost view = { λ a. take a.count a.words };

    ghost invariant = { λ a. a.count ≤ few_words };
}

impl FewWords {
    /// No words.
    pub fn new() -> FewWords
        ensures none { result ≡ [] }
    {
        FewWords {
            words: [0; FEW_WORDS],
            count: 0,
        }
    }

    /// Adds a word behind the others.
    pub fn push(&mut self, word: u16)
        requires room { length self.old < few_words }
        ensures words { self.new ≡ self.old ++ word ∷ [] }
    {
        self.words[self.count as usize] = word;
        self.count += 1;
    }

    /// The words as a slice.
    pub fn as_slice(&self) -> &[u16]
        ensures words { result.now ≡ self.now }
    {
        &self.words[..self.count as usize]
    }
}

impl Clone for FewWords {
    ghost is_clone = { λ words copy. copy ≡ words };

    ghost is_infallible = { λ _. ⊤ };

    fn clone(&self) -> Result<FewWords, AllocError> {
        Ok(FewWords {
            words: self.words,
            count: self.count,
        })
    }
}
