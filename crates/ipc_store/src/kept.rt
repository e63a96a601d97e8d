//! Collapse compression: kernels that are kept as their parts: each object, and the tables of each process, once.
ghost use Rattle.std.specs.Prelude.{◌≡◌, [], Some, length, slice_get, IfOk, IfSome, OnOk, false, IsSome};
ghost use Rattle.std.specs.Option.{option_copied};
ghost use Rattle.ipc_kernel.specs.declared.place.Place.{Place};
ghost use Rattle.ipc_kernel.specs.declared.process.OpenTables.{OpenTables};
ghost use Rattle.ipc_kernel.specs.Kernel.{KernelState, IsSettled};
ghost use Rattle.ipc_kernel.specs.Operands.{with_operand, HasOperand};
ghost use Rattle.ipc_kernel.specs.Places.{is_empty};
ghost use Rattle.ipc_store.specs.Kept.{GrowsKept};

mod changes;
mod objects;
mod parts;
mod renames;
mod rows;
mod tables;
mod unnoticed;

use crate::index::Index;
use changes::{Change, number_at, with_number};
use ipc_kernel::{Kernel, OBJECT_PLACES, OpenTables, Place};
pub(crate) use objects::is_name;
use parts::Parts;
use renames::Renames;
use rows::Rows;
use std::alloc::{AllocError, Global};
use std::marker::Model;

/// Kernels, each with a number, from 0. Their objects, and the tables of their processes, have
/// numbers of their own, each equal object or table one.
#[derive(Drop)]
pub struct Kernels {
    objects: Parts<Place>,
    tables: Parts<OpenTables>,
    rows: Rows,
    renames: Renames,
    alloc: Global,
}

impl Model for Kernels {
    ghost use Rattle.ipc_store.specs.Kept.{KeptKernels};
    ghost use Rattle.ipc_store.specs.Rows.{kept_kernels};
    ghost use Rattle.ipc_store.specs.Private.KeptRows.{AreRows};

    ghost Value = { KeptKernels };

    ghost view = { λ a. kept_kernels a.objects a.tables a.rows };

    ghost invariant = { λ a. AreRows a.objects a.tables a.rows };
}

impl Kernels {
    /// No kernel.
    pub fn new(alloc: Global) -> Result<Kernels, AllocError>
        ensures none { IfOk result (λ t. t.kernels ≡ []) }
    {
        let mut objects = Parts::new(alloc)?;
        objects.keep(alloc, &Place::Empty)?;
        Ok(Kernels {
            objects,
            tables: Parts::new(alloc)?,
            rows: Rows::new(alloc)?,
            renames: Renames::new(alloc, Index::new(alloc)?),
            alloc,
        })
    }

    /// The kernel with a number, if there is one.
    pub fn get(&self, alloc: Global, kernel: u32) -> Result<Option<Kernel>, AllocError>
        ensures kept { IfOk result (λ found. IfSome found
            (λ k. slice_get self.now.kernels kernel ≡ Some k)) }
        ensures settled { IfOk result (λ found. IfSome found IsSettled) }
    {
        let Some((objects, tables)) = self.rows.row(kernel) else {
            return Ok(None);
        };
        let Some(objects) = self.objects.copies(alloc, objects, OBJECT_PLACES)? else {
            return Ok(None);
        };
        let Some(tables) = self.tables.copies(alloc, tables, tables.len())? else {
            return Ok(None);
        };
        Kernel::assemble(alloc, objects, tables)
    }

    /// Keeps a kernel; with its number, which an equal kernel has that is kept.
    pub fn keep(&mut self, alloc: Global, kernel: &Kernel) -> Result<u32, AllocError>
        ensures grows { OnOk result (GrowsKept self.old self.new) }
        ensures kept { IfOk result (λ i. slice_get self.new.kernels i ≡ Some kernel.now) }
        ensures settled { IsSettled kernel.now }
    {
        let objects = self.objects.keep_all(alloc, kernel.objects())?;
        let tables = self.tables.keep_all(alloc, kernel.tables())?;
        let number = self.rows.keep(objects.as_slice(), tables.as_slice())?;
        Ok(number)
    }

    /// How many kernels there are.
    pub fn len(&self) -> usize
        ensures count { result ≡ length self.now.kernels }
    {
        self.rows.len()
    }

    /// The number of the kernel that is another one but for the object in a place and the tables of
    /// a process, which are given by their numbers, if it is kept.
    pub fn find_with(
        &self,
        kernel: u32,
        pid: usize,
        place: u8,
        object: u32,
        tables: u32,
    ) -> Option<u32>
        ensures kept { IfSome result (λ i. (k : KernelState) (o : Place) (t : OpenTables)
            → slice_get self.now.kernels kernel ≡ Some k
            → slice_get self.now.objects object ≡ Some o
            → slice_get self.now.tables tables ≡ Some t
            → slice_get self.now.kernels i ≡ Some (with_operand k pid place o t)) }
    {
        let (objects, processes) = self.rows.row(kernel)?;
        let objects = Change {
            numbers: objects,
            at: place as usize,
            number: object,
        };
        let processes = Change {
            numbers: processes,
            at: pid,
            number: tables,
        };
        let number = self.rows.find_changed(kernel, &objects, &processes)?;
        Some(number)
    }

    /// Keeps the kernel that is another one but for the object in a place and the tables of a
    /// process, which are given by their numbers; with its number, if all these are there.
    pub fn keep_with(
        &mut self,
        kernel: u32,
        pid: usize,
        place: u8,
        object: u32,
        tables: u32,
    ) -> Result<Option<u32>, AllocError>
        ensures grows { OnOk result (GrowsKept self.old self.new) }
        ensures kept { IfOk result (λ found. IfSome found (λ i.
            (k : KernelState) (o : Place) (t : OpenTables)
            → slice_get self.old.kernels kernel ≡ Some k
            → slice_get self.old.objects object ≡ Some o
            → slice_get self.old.tables tables ≡ Some t
            → slice_get self.new.kernels i ≡ Some (with_operand k pid place o t))) }
        ensures there { IfOk result (λ found.
            (k : KernelState) (o p : Place) (t u : OpenTables)
            → slice_get self.old.kernels kernel ≡ Some k
            → HasOperand k pid place u p → is_empty p ≡ false
            → slice_get self.old.objects object ≡ Some o
            → slice_get self.old.tables tables ≡ Some t → IsSome found) }
    {
        let Some(_) = self.objects.get(object) else {
            return Ok(None);
        };
        let Some(_) = self.tables.get(tables) else {
            return Ok(None);
        };
        let Some((objects, processes)) = self.rows.row(kernel) else {
            return Ok(None);
        };
        let Some(objects) = with_number(self.alloc, objects, place as usize, object)? else {
            return Ok(None);
        };
        let Some(processes) = with_number(self.alloc, processes, pid, tables)? else {
            return Ok(None);
        };
        let number = self.rows.keep(objects.as_slice(), processes.as_slice())?;
        Ok(Some(number))
    }

    /// The number of what a place of a kernel holds, an object or none, if there is that place.
    pub fn object_at(&self, kernel: u32, place: u8) -> Option<u32>
        ensures object { IfSome result (λ n. (k : KernelState)
            → slice_get self.now.kernels kernel ≡ Some k
            → (o : Place) × (slice_get self.now.objects n ≡ Some o)
            × (slice_get k.places place ≡ Some o)) }
        ensures there { (k : KernelState) (o : Place) → slice_get self.now.kernels kernel ≡ Some k
            → slice_get k.places place ≡ Some o → is_empty o ≡ false → IsSome result }
    {
        let (objects, _) = self.rows.row(kernel)?;
        if let Some(number) = number_at(objects, place as usize) {
            return Some(number);
        }
        if place as usize >= OBJECT_PLACES {
            return None;
        }
        let number = self.objects.empty()?;
        Some(number)
    }

    /// The number of the tables of a process of a kernel, if there is one.
    pub fn tables_at(&self, kernel: u32, pid: usize) -> Option<u32>
        ensures tables { IfSome result (λ n. (k : KernelState)
            → slice_get self.now.kernels kernel ≡ Some k
            → (t : OpenTables) × (slice_get self.now.tables n ≡ Some t)
            × (slice_get k.processes pid ≡ Some t)) }
        ensures there { (k : KernelState) (t : OpenTables)
            → slice_get self.now.kernels kernel ≡ Some k
            → slice_get k.processes pid ≡ Some t → IsSome result }
    {
        let (_, tables) = self.rows.row(kernel)?;
        let number = number_at(tables, pid)?;
        Some(number)
    }

    /// The object with a number, if there is one.
    pub fn object(&self, number: u32) -> Option<&Place>
        ensures object { option_copied result ≡ slice_get self.now.objects number }
    {
        self.objects.get(number)
    }

    /// The tables with a number, if there are any.
    pub fn tables(&self, number: u32) -> Option<&OpenTables>
        ensures tables { option_copied result ≡ slice_get self.now.tables number }
    {
        self.tables.get(number)
    }

    /// About how many bytes it takes. Nothing that is proved rests on it.
    pub fn size(&self) -> usize {
        let parts = self.objects.size().saturating_add(self.tables.size());
        let rows = self.rows.size().saturating_add(self.renames.size());
        parts.saturating_add(rows)
    }

    /// Lets go of what only `keep` and `keep_with` need. What is kept later has numbers of its own.
    pub fn forget(&mut self, alloc: Global)
        ensures same { self.new ≡ self.old }
    {
        self.objects.forget(alloc);
        self.tables.forget(alloc);
        self.rows.forget(alloc);
        self.renames = Renames::new(alloc, Index::none(alloc));
    }
}
