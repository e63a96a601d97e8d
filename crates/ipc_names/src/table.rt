//! Tables from names to places.
ghost use Rattle.std.specs.Prelude.{◌≡◌, None, IfOk, OnOk, OnErr};
ghost use Rattle.std.specs.FinMap as fin;

use crate::Name;
use indexmap::IndexMap;
use std::alloc::{AllocError, Global};
use std::marker::Model;

/// A finite map from names to the numbers of places.
#[derive(Drop)]
pub struct NameTable {
    places: IndexMap<String, u8>,
}

impl Model for NameTable {
    ghost use Rattle.std.specs.FinMap as fin;
    ghost use Rattle.std.specs.Coded.{coded_ℕ, coded_list};
    ghost use Rattle.ipc_names.specs.Table.{NameMap, map_of};

    ghost Value = { NameMap };

    ghost coded = { fin.code (coded_list coded_ℕ) coded_ℕ };

    ghost view = { λ a. map_of a.places };
}

impl NameTable {
    /// The table without names.
    pub fn new(alloc: Global) -> NameTable
        ensures empty { result ≡ fin.empty }
    {
        let places = IndexMap::new(alloc);
        NameTable { places }
    }

    /// The place of a name, if the name is there.
    pub fn find(&self, name: &Name) -> Option<u8>
        ensures place { result ≡ fin.get self.now name.now }
    {
        self.places.get(name.text()).copied()
    }

    /// Adds a name that isn't there. Where memory is refused nothing changes.
    pub fn put(&mut self, alloc: Global, name: &Name, place: u8) -> Result<(), AllocError>
        requires absent { fin.get self.old name.now ≡ None }
        ensures ok { OnOk result (self.new ≡ fin.insert self.old name.now place) }
        ensures err { OnErr result (self.new ≡ self.old) }
    {
        let text = String::from_str(alloc, name.text())?;
        match self.places.insert(text, place) {
            Ok(_) => Ok(()),
            Err(_) => Err(AllocError),
        }
    }

    /// Removes a name if it is there, and answers its place. Takes no memory.
    pub fn take(&mut self, name: &Name) -> Option<u8>
        ensures place { result ≡ fin.get self.old name.now }
        ensures removed { self.new ≡ fin.remove self.old name.now }
    {
        self.places.swap_remove(name.text())
    }

    /// An equal table.
    pub fn copy(&self) -> Result<NameTable, AllocError>
        ensures equal { IfOk result (λ copy. copy ≡ self.now) }
    {
        let places = self.places.clone()?;
        Ok(NameTable { places })
    }
}
