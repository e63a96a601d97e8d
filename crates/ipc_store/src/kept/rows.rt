//! Rows of numbers, each once.
ghost use Rattle.std.specs.Prelude.{◌≡◌, ◌<◌, ◌+◌, ◌≤◌, [], Some, length, slice_get, slice_set, IfOk, IfSome, OnErr, OnOk, None, IfNone};
ghost use Rattle.ipc_store.specs.Private.KeptRows.{AddsRow, row, row_of};

use super::changes::{Change, digest_from};
use super::parts::number_of;
use crate::arranging::{are_same, are_with};
use crate::index::Index;
use ipc_kernel::OBJECT_PLACES;
use std::alloc::{AllocError, Global};
use std::marker::Model;
use std::mem::size_of;

/// Where a row starts among the numbers of all rows, and how many objects and tables it has.
#[derive(Clone, Copy, Drop)]
pub(crate) struct Span {
    pub start: u32,
    pub objects: u8,
    pub tables: u8,
}

/// Rows, each with a number, from 0: the numbers of the objects of a kernel, and those of the
/// tables of its processes. Nothing that is proved rests on their digests.
#[derive(Drop)]
pub(crate) struct Rows {
    numbers: Vec<u32>,
    spans: Vec<Span>,
    digests: Vec<u64>,
    index: Index,
}

impl Model for Rows {
    ghost use Rattle.std.specs.Prelude.{List, map};
    ghost use Rattle.ipc_store.specs.Rows.{KernelRow};
    ghost use Rattle.ipc_store.specs.Private.KeptRows.{row_of, AreWithin};

    ghost Value = { List KernelRow };

    ghost view = { λ a. map (row_of a.numbers.items) a.spans.items };

    ghost invariant = { λ a. AreWithin a.numbers.items a.spans.items };
}

/// The place in a digest of the first number of tables.
const TABLES: usize = OBJECT_PLACES;

/// The parts of a row that stands at a place among numbers.
fn parts_of(numbers: &[u32], span: Span) -> (&[u32], &[u32])
    requires within { span.start + span.objects + span.tables ≤ length numbers.now }
    ensures row { row result.0.now result.1.now ≡ row_of numbers.now span }
{
    let (_, numbers) = numbers.split_at(span.start as usize);
    let (objects, others) = numbers.split_at(span.objects as usize);
    let (tables, _) = others.split_at(span.tables as usize);
    (objects, tables)
}

impl Rows {
    pub(crate) fn new(alloc: Global) -> Result<Rows, AllocError>
        ensures none { IfOk result (λ rows. rows ≡ []) }
    {
        Ok(Rows {
            numbers: Vec::new(alloc),
            spans: Vec::new(alloc),
            digests: Vec::new(alloc),
            index: Index::new(alloc)?,
        })
    }

    /// The objects and the tables of the row with a number, if there is one.
    pub(crate) fn row(&self, number: u32) -> Option<(&[u32], &[u32])>
        ensures row { IfSome result (λ r. slice_get self.now number ≡ Some (row r.0.now r.1.now)) }
        ensures none { IfNone result (slice_get self.now number ≡ None) }
    {
        match self.spans.get(number as usize) {
            Some(span) => Some(parts_of(self.numbers.as_slice(), *span)),
            None => None,
        }
    }

    /// The number of the row that those of a row make, each changed at a place, if it is kept.
    pub(crate) fn find_changed(
        &self,
        number: u32,
        objects: &Change<'_>,
        tables: &Change<'_>,
    ) -> Option<u32>
        ensures found { IfSome result (λ i. slice_get self.now i ≡ Some (row
            (slice_set objects.now.numbers.now objects.now.at objects.now.number)
            (slice_set tables.now.numbers.now tables.now.at tables.now.number))) }
        ensures range { IfSome result (λ i. objects.now.at < length objects.now.numbers.now) }
    {
        let growth = objects.growth(0).wrapping_add(tables.growth(TABLES));
        let digest = self.digests.get(number as usize).copied().unwrap_or(0);
        let digest = digest.wrapping_add(growth);
        self.index.find(digest, |at| match self.row(at) {
            Some(row) => {
                are_with(row.0, objects.numbers, objects.at, objects.number)
                    && are_with(row.1, tables.numbers, tables.at, tables.number)
            }
            None => false,
        })
    }

    pub(crate) fn len(&self) -> usize
        ensures count { result ≡ length self.now }
    {
        self.spans.len()
    }

    /// Keeps a row; with its number.
    pub(crate) fn keep(&mut self, objects: &[u32], tables: &[u32]) -> Result<u32, AllocError>
        ensures kept { IfOk result (λ i. slice_get self.new i ≡ Some (row objects.now tables.now)) }
        ensures adds { OnOk result (AddsRow self.old self.new (row objects.now tables.now)) }
        ensures err { OnErr result (self.new ≡ self.old) }
    {
        let digest = digest_from(0, objects).wrapping_add(digest_from(TABLES, tables));
        let kept = self.index.find(digest, |at| match self.row(at) {
            Some(row) => are_same(row.0, objects) && are_same(row.1, tables),
            None => false,
        });
        match kept {
            Some(number) => Ok(number),
            None => self.add(objects, tables, digest),
        }
    }

    fn add(&mut self, objects: &[u32], tables: &[u32], digest: u64) -> Result<u32, AllocError>
        ensures kept { IfOk result (λ i. slice_get self.new i ≡ Some (row objects.now tables.now)) }
        ensures adds { OnOk result (AddsRow self.old self.new (row objects.now tables.now)) }
        ensures err { OnErr result (self.new ≡ self.old) }
    {
        let number = number_of(self.spans.len())?;
        let span = Span {
            start: number_of(self.numbers.len())?,
            objects: count_of(objects.len())?,
            tables: count_of(tables.len())?,
        };
        // With room for the rest none is added to the index alone.
        let count = objects.len().saturating_add(tables.len());
        self.numbers.reserve(count)?;
        self.spans.reserve(1)?;
        self.digests.reserve(1)?;
        self.index.add(digest)?;
        self.digests.push_reserved(digest);
        self.numbers.extend_from_slice(objects)?;
        self.numbers.extend_from_slice(tables)?;
        self.spans.push_reserved(span);
        Ok(number)
    }

    /// About how many bytes the rows take.
    pub(crate) fn size(&self) -> usize {
        let row = size_of::<Span>() + size_of::<u64>() + Index::ENTRY;
        size_of::<u32>()
            .saturating_mul(self.numbers.len())
            .saturating_add(row.saturating_mul(self.spans.len()))
    }

    /// Lets go of the digests.
    pub(crate) fn forget(&mut self, alloc: Global)
        ensures same { self.new ≡ self.old }
    {
        self.digests = Vec::new(alloc);
        self.index = Index::none(alloc);
    }
}

/// A count of the parts of a row, if it is small enough.
fn count_of(count: usize) -> Result<u8, AllocError>
    ensures value { IfOk result (λ kept. kept ≡ count) }
{
    u8::try_from(count).map_err(|_| AllocError)
}
