//! Breadth-first parents: from where each row was reached first. Nothing that is proved rests on what stands here: the way to a
//! row is walked again (`walking`).
use std::alloc::{AllocError, Global};
use std::mem::size_of;

/// The row from which another was reached first, by a step of process `pid`.
#[derive(Clone, Copy, Drop)]
pub struct Parent {
    pub row: u32,
    pub pid: u8,
}

impl Parent {
    /// The parent that is a row of this number, if it is small enough.
    pub fn of(at: usize, pid: u32) -> Option<Parent> {
        let row = u32::try_from(at).ok()?;
        let pid = u8::try_from(pid).ok()?;
        Some(Parent { row, pid })
    }
}

/// The parents of rows, in their order.
#[derive(Drop)]
pub struct Parents {
    rows: Vec<u32>,
    pids: Vec<u8>,
}

impl Parents {
    /// How many bytes each takes.
    pub const ENTRY: usize = size_of::<u32>() + size_of::<u8>();

    /// None.
    pub fn new(alloc: Global) -> Parents {
        Parents {
            rows: Vec::new(alloc),
            pids: Vec::new(alloc),
        }
    }

    /// The parent of a row.
    pub fn get(&self, at: usize) -> Option<Parent> {
        let row = *self.rows.get(at)?;
        let pid = *self.pids.get(at)?;
        Some(Parent { row, pid })
    }

    /// Adds the parent of the next row. Where memory is refused none is added.
    pub fn push(&mut self, parent: Parent) -> Result<(), AllocError> {
        self.rows.reserve(1)?;
        self.pids.push(parent.pid)?;
        self.rows.push_reserved(parent.row);
        Ok(())
    }

    /// The rows that are parents.
    pub fn rows(&self) -> &[u32] {
        self.rows.as_slice()
    }
}
