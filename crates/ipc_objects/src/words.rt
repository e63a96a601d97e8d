//! Lists of words.
ghost use Rattle.std.specs.Prelude.{◌≡◌, ◌==◌, length, IfOk};
ghost use Rattle.std.specs.Cmp.{partial_equiv_from_equiv};
ghost use Rattle.std.specs.Cmp.Lexicographic.{pointwise, nat_list_eq_equiv};
ghost use Rattle.std.specs.Arc.{arc_slice_items};
ghost use Rattle.ipc_objects.specs.Words.{words_of_store};

use crate::FewWords;
use std::alloc::AllocError;
use std::marker::Model;
use std::sync::ArcSlice;

/// Where words are kept.
#[derive(Clone, Drop)]
enum Store {
    Few(FewWords),
    Shared(ArcSlice<u16>),
}

/// A list of words that doesn't change. Copies of a long one share its words.
pub struct Words {
    store: Store,
}

impl Drop for Words {
    fn drop(self) {
        let Words { store: _ } = self;
    }
}

impl Model for Words {
    ghost use Rattle.std.specs.Prelude.{List, ℕ};
    ghost use Rattle.ipc_objects.specs.Words.{words_of_store};

    ghost Value = { List ℕ };

    ghost view = { λ a. words_of_store a.store };
}

impl Words {
    /// These words, in memory that copies share.
    pub fn from_vec(items: Vec<u16>) -> Result<Words, AllocError>
        ensures words { IfOk result (λ words. words ≡ items.items) }
    {
        Ok(Words {
            store: Store::Shared(ArcSlice::from_vec(items)?),
        })
    }

    /// These words, which take no memory of their own.
    pub fn from_few(few: FewWords) -> Words
        ensures words { result ≡ few }
    {
        Words {
            store: Store::Few(few),
        }
    }

    /// The words as a slice.
    pub fn as_slice(&self) -> &[u16]
        ensures words { result.now ≡ self.now }
    {
        match &self.store {
            Store::Few(few) => few.as_slice(),
            Store::Shared(items) => items.as_slice(),
        }
    }

    /// The number of words.
    pub fn len(&self) -> usize
        ensures length { result ≡ length self.now }
    {
        self.as_slice().len()
    }
}

/// Equal words. Takes no memory: an error is that the words are shared 2^63 times.
impl Clone for Words {
    ghost is_clone = { λ words copy. copy ≡ words };

    fn clone(&self) -> Result<Words, AllocError> {
        let store = self.store.clone()?;
        Ok(Words { store })
    }
}

impl PartialEq for Words {
    ghost eq = { pointwise ◌==◌ };

    ghost laws = { partial_equiv_from_equiv nat_list_eq_equiv };

    fn eq(&self, other: &Words) -> bool {
        self.as_slice() == other.as_slice()
    }
}

impl Eq for Words {
    ghost laws = { nat_list_eq_equiv };
}
