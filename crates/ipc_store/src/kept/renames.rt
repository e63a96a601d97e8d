//! What tables of processes are with the places renamed. Nothing that is proved rests on what
//! stands here.

use crate::index::Index;
use std::alloc::{AllocError, Global};
use std::mem::size_of;

/// A place and where it is taken. Where a new object comes among objects that stand in order, this
/// tells where each other place is taken.
#[derive(Clone, Copy, PartialEq, Eq)]
pub(crate) struct Taken {
    pub place: u8,
    pub to: u8,
}

impl Taken {
    /// A number for it and for the tables in which places are renamed.
    fn digest(&self, tables: u32) -> u64 {
        let whole = ((tables as u64) << 16) | ((self.place as u64) << 8) | (self.to as u64);
        let mixed = whole.wrapping_mul(0x9E37_79B9_7F4A_7C15);
        mixed ^ (mixed >> 29)
    }
}

/// Tables, and what they are with the places renamed, by their numbers.
#[derive(Clone, Copy)]
struct Renamed {
    tables: u32,
    taken: Taken,
    renamed: u32,
}

/// What some tables are with the places renamed: hints, which have to be checked.
#[derive(Drop)]
pub(crate) struct Renames {
    hints: Vec<Renamed>,
    index: Index,
}

impl Renames {
    pub(crate) fn new(alloc: Global, index: Index) -> Renames {
        Renames {
            hints: Vec::new(alloc),
            index,
        }
    }

    /// The number that tables may have with the places renamed.
    pub(crate) fn find(&self, tables: u32, taken: Taken) -> Option<u32> {
        let digest = taken.digest(tables);
        let at = self.index.find(digest, |at| {
            self.hints
                .get(at as usize)
                .is_some_and(|hint| hint.tables == tables && hint.taken == taken)
        })?;
        Some(self.hints.get(at as usize)?.renamed)
    }

    /// Adds the number that tables have with the places renamed.
    pub(crate) fn add(
        &mut self,
        tables: u32,
        taken: Taken,
        renamed: u32,
    ) -> Result<(), AllocError> {
        self.hints.reserve(1)?;
        self.index.add(taken.digest(tables))?;
        self.hints.push_reserved(Renamed {
            tables,
            taken,
            renamed,
        });
        Ok(())
    }

    /// About how many bytes the hints take.
    pub(crate) fn size(&self) -> usize {
        let each = size_of::<Renamed>().saturating_add(Index::ENTRY);
        each.saturating_mul(self.hints.len())
    }
}
