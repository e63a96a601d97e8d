//! Tables of processes, each once.
ghost use Rattle.std.specs.Prelude.{◌≡◌, List, Some, map, slice_get, slice_set, IfOk, IfSome, ◌==◌, IsTrue, OnOk, if◌then◌else◌};
ghost use Rattle.ipc_kernel.specs.declared.process.OpenTables.{OpenTables as Opened};
ghost use Rattle.ipc_kernel.specs.Processes.{process_at};
ghost use Rattle.ipc_kernel.specs.Alike.{renamed_process, IsAlike};
ghost use Rattle.ipc_store.specs.Private.KeptRows.{Grows};
ghost use Rattle.ipc_store.specs.Private.Renamings.{renamed_by, IsMoved, Permutes};
ghost use Rattle.ipc_kernel.specs.declared.place.Place.{Place as Object};
ghost use Rattle.ipc_kernel.specs.Kernel.{KernelState, IsSettled};
ghost use Rattle.ipc_store.specs.Kept.{GrowsKept};
ghost use Rattle.ipc_kernel.specs.Operands.{with_operand};

use crate::alike::{Renaming, renamed_by, renamed_process};
use crate::arranging::{Arrangement, Refers};
use crate::kept::Kernels;
use crate::kept::changes::{number_at, with_number};
use crate::kept::parts::{Part, Parts};
use crate::kept::renames::{Renames, Taken};
use ipc_kernel::{OBJECT_PLACES, OpenTables, Place};
use std::alloc::{AllocError, Global};
use std::mem::size_of;

impl Part for OpenTables {
    fn digest(&self) -> u64 {
        self.digest()
    }

    fn is_same(&self, other: &OpenTables) -> bool {
        self.is_same(other)
    }

    fn copy(&self, _alloc: Global) -> Result<OpenTables, AllocError> {
        Ok(*self)
    }

    fn size(&self) -> usize {
        size_of::<OpenTables>()
    }
}

impl Parts<OpenTables> {
    /// Keeps tables, which are given by their number, with each place taken where a list takes it;
    /// with their number, which is noted for the next time.
    fn keep_process_renamed(
        &mut self,
        alloc: Global,
        renames: &mut Renames,
        number: u32,
        to: &[u8],
        taken: Taken,
    ) -> Result<Option<u32>, AllocError>
        ensures grows { Grows self.old self.new }
        ensures renamed { IfOk result (λ found. IfSome found (λ i. slice_get self.new i
            ≡ Some (renamed_process (renamed_by to.now) (process_at self.old number)))) }
    {
        let Some(tables) = self.get(number) else {
            return Ok(None);
        };
        if let Some(noted) = renames.find(number, taken)
            && let Some(other) = self.get(noted)
            && tables.is_renamed(other, to)
        {
            return Ok(Some(noted));
        }
        let renamed = renamed_process(tables, to);
        let kept = self.keep(alloc, &renamed)?;
        renames.add(number, taken, kept)?;
        Ok(Some(kept))
    }

    /// Keeps tables, which are given by their numbers, with each place taken where a list takes it;
    /// with their numbers. The place of a new object, and where that is taken, tell lists apart.
    fn keep_renamed(
        &mut self,
        alloc: Global,
        renames: &mut Renames,
        numbers: &[u32],
        to: &[u8],
        taken: Taken,
    ) -> Result<Option<Vec<u32>>, AllocError>
        ensures grows { Grows self.old self.new }
        ensures renamed { IfOk result (λ found. IfSome found (λ kept. (us : List Opened)
            × (map (slice_get self.new) kept.items ≡ map Some us)
            × (us ≡ map (renamed_process (renamed_by to.now))
            (map (process_at self.old) numbers.now)))) }
    {
        let count = self.len();
        let mut kept = Vec::with_capacity(alloc, numbers.len())?;
        for number in numbers {
            if *number as usize >= count {
                return Ok(None);
            }
            let Some(renamed) = self.keep_process_renamed(alloc, renames, *number, to, taken)?
            else {
                return Ok(None);
            };
            kept.push(renamed)?;
        }
        Ok(Some(kept))
    }

    /// Keeps tables, which are given by their numbers, where another one stands at one place, as
    /// `keep_renamed` does.
    pub(crate) fn keep_changed(
        &mut self,
        alloc: Global,
        renames: &mut Renames,
        numbers: &[u32],
        change: (usize, u32),
        to: &[u8],
        taken: Taken,
    ) -> Result<Option<Vec<u32>>, AllocError>
        ensures grows { Grows self.old self.new }
        ensures renamed { IfOk result (λ found. IfSome found (λ kept. (us : List Opened)
            × (map (slice_get self.new) kept.items ≡ map Some us)
            × (us ≡ map (renamed_process (renamed_by to.now))
            (map (process_at self.old) (slice_set numbers.now change.0 change.1))))) }
    {
        let Some(changed) = with_number(alloc, numbers, change.0, change.1)? else {
            return Ok(None);
        };
        self.keep_renamed(alloc, renames, changed.as_slice(), to, taken)
    }
}

/// The number at a place, where another one stands at one place.
fn number_after(numbers: &[u32], at: usize, number: u32, place: usize) -> Option<u32>
    ensures number { result
        ≡ (if place == at then Some number else slice_get numbers.now place) }
{
    if place == at {
        return Some(number);
    }
    number_at(numbers, place)
}

/// Whether numbers, where another one stands at one place, stand among others where a renaming
/// takes their places, and none stands behind the object places. Only so many places as there are
/// others are compared: the renaming takes these among themselves.
fn are_moved(numbers: &[u32], at: usize, number: u32, moved: &[u32], renaming: &Renaming) -> bool
    requires permutation { Permutes renaming.now }
    ensures moved { IsTrue result → IsMoved numbers.now at number moved.now renaming.now.to }
{
    let count = moved.len();
    if at >= count || numbers.len() > count || count > OBJECT_PLACES {
        return false;
    }
    for place in 0..count as u8 {
        if renamed_by(&renaming.from, place) as usize >= count {
            return false;
        }
        let there = number_at(moved, renamed_by(&renaming.to, place) as usize);
        if there != number_after(numbers, at, number, place as usize) {
            return false;
        }
    }
    true
}

/// The numbers, where another one stands at one place, in the order of an arrangement, if each stands
/// where its place is taken, and none stands behind the object places.
fn moved(
    alloc: Global,
    numbers: &[u32],
    at: usize,
    number: u32,
    arrangement: &Arrangement,
) -> Result<Option<Vec<u32>>, AllocError>
    requires permutation { Permutes arrangement.now.renaming }
    ensures moved { IfOk result (λ found. IfSome found
        (λ moved. IsMoved numbers.now at number moved.items arrangement.now.renaming.to)) }
{
    let mut moved = Vec::with_capacity(alloc, arrangement.count as usize)?;
    for place in 0..arrangement.count {
        let from = renamed_by(&arrangement.renaming.from, place);
        if let Some(number) = number_after(numbers, at, number, from as usize) {
            moved.push(number)?;
        }
    }
    if !are_moved(numbers, at, number, moved.as_slice(), &arrangement.renaming) {
        return Ok(None);
    }
    Ok(Some(moved))
}

impl Parts<Place> {
    /// The order of the places of some objects and of another one that is made in a place: behind
    /// those that stand before it in the order of kinds and names, among those that stand so.
    fn arrangement(&self, numbers: &[u32], place: u8, object: u32) -> Arrangement
        ensures permutation { Permutes result.renaming }
    {
        let first = self.get(object).map_or(0, |object| {
            let is_behind = |number: &u32| {
                self.get(*number)
                    .is_none_or(|other| !other.has_name() || !other.is_before(object))
            };
            let first = numbers.iter().position(is_behind);
            first.unwrap_or(numbers.len())
        });
        let mut arrangement = Arrangement::new();
        for at in 0..numbers.len().min(OBJECT_PLACES) as u8 {
            if at as usize == first {
                arrangement.take(place);
            }
            arrangement.take(at);
        }
        arrangement.take(place);
        arrangement
    }
}

impl Kernels {
    /// Keeps a kernel that is alike another one but for the object that is made in a place and the
    /// tables of a process, which are given by their numbers, with its named objects in the order of
    /// their kinds and names if those of the other one are; with its number, if all these are there.
    pub fn keep_with_new(
        &mut self,
        kernel: u32,
        pid: usize,
        place: u8,
        object: u32,
        tables: u32,
    ) -> Result<Option<u32>, AllocError>
        ensures grows { OnOk result (GrowsKept self.old self.new) }
        ensures alike { IfOk result (λ found. IfSome found (λ i.
            (k : KernelState) (o : Object) (t : Opened)
            → slice_get self.old.kernels kernel ≡ Some k
            → slice_get self.old.objects object ≡ Some o
            → slice_get self.old.tables tables ≡ Some t
            → IsSettled (with_operand k pid place o t)
            → (j : KernelState) × (slice_get self.new.kernels i ≡ Some j)
            × IsAlike (with_operand k pid place o t) j × IsSettled j)) }
    {
        let Some((objects, processes)) = self.rows.row(kernel) else {
            return Ok(None);
        };
        let Some(_) = self.objects.get(object) else {
            return Ok(None);
        };
        let Some(_) = self.tables.get(tables) else {
            return Ok(None);
        };
        let arrangement = self.objects.arrangement(objects, place, object);
        let Some(moved) = moved(self.alloc, objects, place as usize, object, &arrangement)? else {
            return Ok(None);
        };
        let to = &arrangement.renaming.to;
        let taken = Taken {
            place,
            to: renamed_by(to, place),
        };
        let change = (pid, tables);
        let Some(tables) = self.tables.keep_changed(
            self.alloc,
            &mut self.renames,
            processes,
            change,
            to,
            taken,
        )?
        else {
            return Ok(None);
        };
        let number = self.rows.keep(moved.as_slice(), tables.as_slice())?;
        Ok(Some(number))
    }
}
