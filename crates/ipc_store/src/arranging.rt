//! Canonical form: kernels whose places are in an order that doesn't depend on how they were made. Opens and closes of
//! objects with a name leave that order as it was.
ghost use Rattle.std.specs.Prelude.{IfOk, IfSome, ◌≡◌, ◌↔◌, ℕ, Bool, IsTrue, true, map, ◌<◌, length, slice_set};
ghost use Rattle.ipc_kernel.specs.Alike.{IsAlike, IsPermutation, renamed_descriptor, renamed_slot, renamed_process};
ghost use Rattle.ipc_store.specs.Private.Renamings.{Permutes, Follows, renamed_by};
ghost use Rattle.std.specs.List.{list_any};
ghost use Rattle.std.specs.Option.{option_map};
ghost use Rattle.ipc_kernel.specs.Processes.{descriptor_refers, slot_refers, process_refers};

use crate::alike::{Renaming, is_renamed, renamed_by, renamed_process};
use ipc_kernel::{Descriptor, Kernel, OBJECT_PLACES, OpenTables, Place, Slot};
use std::alloc::{AllocError, Global};

/// The kernel with its places renamed, so that its named objects stand first, in the order of
/// their kinds and names, and then the others in the order in which processes have them open;
/// none if its objects stand so already. Kernels that are alike become equal.
pub fn arranged(alloc: Global, kernel: &Kernel) -> Result<Option<Kernel>, AllocError>
    ensures alike { IfOk result (λ found. IfSome found (λ k. IsAlike kernel.now k)) }
{
    let mut arrangement = Arrangement::new();
    arrange_named(kernel.objects(), &mut arrangement);
    arrange_all(kernel.tables(), &mut arrangement);
    let to = &arrangement.renaming.to;
    let mut taken = to.iter().enumerate();
    if taken.all(|(place, to)| place == *to as usize) {
        return Ok(None);
    }
    let objects = renamed_places(alloc, kernel.places(), &arrangement)?;
    let tables = kernel.tables().iter();
    let tables = tables
        .map(|process| renamed_process(process, to))
        .collect(alloc)?;
    match Kernel::assemble(alloc, objects, tables)? {
        Some(other) if is_renamed(kernel, &other, &arrangement.renaming) => Ok(Some(other)),
        _ => Ok(None),
    }
}

/// The first by kind and name of the objects with a name that aren't taken.
fn first_left(places: &[Place], arrangement: &Arrangement) -> Option<u8> {
    let mut first: Option<(u8, &Place)> = None;
    for at in 0..places.len().min(OBJECT_PLACES) as u8 {
        let place = &places[at as usize];
        let is_first = first.is_none_or(|(_, other)| place.is_before(other));
        if is_first && place.has_name() && !arrangement.has(at) {
            first = Some((at, place));
        }
    }
    first.map(|(at, _)| at)
}

/// Takes each object with a name, first the queues and then the semaphores, each in the order of
/// their names.
fn arrange_named(places: &[Place], arrangement: &mut Arrangement)
    requires permutation { Permutes arrangement.old.renaming }
    ensures permutation { Permutes arrangement.new.renaming }
{
    for _ in 0..places.len() {
        let Some(place) = first_left(places, arrangement) else {
            return;
        };
        arrangement.take(place);
    }
}

/// The objects in the order of an arrangement, with room for those of a kernel.
fn renamed_places(
    alloc: Global,
    places: &[Place],
    arrangement: &Arrangement,
) -> Result<Vec<Place>, AllocError> {
    let mut objects = Vec::with_capacity(alloc, OBJECT_PLACES)?;
    for at in 0..arrangement.count {
        let place = renamed_by(&arrangement.renaming.from, at);
        match places.get(place as usize) {
            Some(object) => objects.push(object.copy(alloc)?)?,
            None => objects.push(Place::Empty)?,
        }
    }
    Ok(objects)
}

/// What refers to object places.
pub(crate) trait Refers {
    ghost refers: { ℕ → Self → Bool };

    ghost renamed: { (ℕ → ℕ) → Self → Self };

    /// Whether another one is this one, with each place where a list takes it. They are compared
    /// where they stand: a copy, and `==`, take twice the time.
    fn is_renamed(&self, other: &Self, to: &[u8]) -> bool
        ensures renamed { IsTrue result ↔ (other.now ≡ renamed (renamed_by to.now) self.now) };

    /// Takes its places to those of another one.
    fn take(&self, other: &Self, renaming: &mut Renaming)
        requires permutation { Permutes renaming.old }
        ensures permutation { Permutes renaming.new }
        ensures follows { (f g : ℕ → ℕ) → IsPermutation f g → other.now ≡ renamed f self.now
            → Follows f (λ i. refers i self.now ≡ true) renaming.old renaming.new };

    /// Takes its places in their order.
    fn arrange(&self, arrangement: &mut Arrangement)
        requires permutation { Permutes arrangement.old.renaming }
        ensures permutation { Permutes arrangement.new.renaming };
}

pub(crate) fn are_renamed<T: Refers>(helds: &[T], others: &[T], to: &[u8]) -> bool
    ensures renamed { IsTrue result
        ↔ (others.now ≡ map (T.renamed (renamed_by to.now)) helds.now) }
{
    if helds.len() != others.len() {
        return false;
    }
    for (i, held) in helds.iter().enumerate() {
        if !held.is_renamed(&others[i], to) {
            return false;
        }
    }
    true
}

pub(crate) fn take_all<T: Refers>(helds: &[T], others: &[T], renaming: &mut Renaming)
    requires permutation { Permutes renaming.old }
    ensures permutation { Permutes renaming.new }
    ensures follows { (f g : ℕ → ℕ) → IsPermutation f g → others.now ≡ map (T.renamed f) helds.now
        → Follows f (λ i. list_any (T.refers i) helds.now ≡ true) renaming.old renaming.new }
{
    for (at, held) in helds.iter().enumerate() {
        if let Some(other) = others.get(at) {
            held.take(other, renaming);
        }
    }
}

fn arrange_all<T: Refers>(helds: &[T], arrangement: &mut Arrangement)
    requires permutation { Permutes arrangement.old.renaming }
    ensures permutation { Permutes arrangement.new.renaming }
{
    for held in helds {
        held.arrange(arrangement);
    }
}

impl Refers for Option<Descriptor> {
    ghost refers = { descriptor_refers };

    ghost renamed = { λ f. option_map (renamed_descriptor f) };

    fn is_renamed(&self, other: &Option<Descriptor>, to: &[u8]) -> bool {
        match (self, other) {
            (Some(held), Some(other)) => {
                other.place == renamed_by(to, held.place)
                    && other.access == held.access
                    && other.nonblock == held.nonblock
            }
            (None, None) => true,
            _ => false,
        }
    }

    fn take(&self, other: &Option<Descriptor>, renaming: &mut Renaming) {
        if let (Some(held), Some(other)) = (self, other) {
            renaming.exchange(held.place, other.place);
        }
    }

    fn arrange(&self, arrangement: &mut Arrangement) {
        if let Some(held) = self {
            arrangement.take(held.place);
        }
    }
}

impl Refers for Option<Slot> {
    ghost refers = { slot_refers };

    ghost renamed = { λ f. option_map (renamed_slot f) };

    fn is_renamed(&self, other: &Option<Slot>, to: &[u8]) -> bool {
        match (self, other) {
            (Some(held), Some(other)) => {
                other.place == renamed_by(to, held.place) && other.opens == held.opens
            }
            (None, None) => true,
            _ => false,
        }
    }

    fn take(&self, other: &Option<Slot>, renaming: &mut Renaming) {
        if let (Some(held), Some(other)) = (self, other) {
            renaming.exchange(held.place, other.place);
        }
    }

    fn arrange(&self, arrangement: &mut Arrangement) {
        if let Some(held) = self {
            arrangement.take(held.place);
        }
    }
}

impl Refers for OpenTables {
    ghost refers = { process_refers };

    ghost renamed = { renamed_process };

    fn is_renamed(&self, other: &OpenTables, to: &[u8]) -> bool {
        are_renamed(&self.descriptors, &other.descriptors, to)
            && are_renamed(&self.slots, &other.slots, to)
    }

    fn take(&self, other: &OpenTables, renaming: &mut Renaming) {
        take_all(&self.descriptors, &other.descriptors, renaming);
        take_all(&self.slots, &other.slots, renaming);
    }

    fn arrange(&self, arrangement: &mut Arrangement) {
        arrange_all(&self.descriptors, arrangement);
        arrange_all(&self.slots, arrangement);
    }
}

/// A renaming that takes so many places to the first ones, in the order in which they were taken.
#[derive(Clone, Copy, Drop)]
pub(crate) struct Arrangement {
    pub renaming: Renaming,
    pub count: u8,
}

impl Arrangement {
    pub(crate) fn new() -> Arrangement
        ensures permutation { Permutes result.renaming }
    {
        Arrangement {
            renaming: Renaming::new(),
            count: 0,
        }
    }

    /// Whether a place is taken.
    pub(crate) fn has(&self, place: u8) -> bool {
        let taken = self.renaming.to.get(place as usize);
        taken.is_none_or(|to| *to < self.count)
    }

    /// Takes a place to the next of the first ones, if it isn't taken.
    pub(crate) fn take(&mut self, place: u8)
        requires permutation { Permutes self.old.renaming }
        ensures permutation { Permutes self.new.renaming }
    {
        if (self.count as usize) < OBJECT_PLACES && !self.has(place) {
            self.renaming.exchange(place, self.count);
            self.count += 1;
        }
    }
}

/// Whether these are the same numbers. They are few, so a loop is faster than `==`.
pub(crate) fn are_same(numbers: &[u32], others: &[u32]) -> bool
    ensures same { IsTrue result → numbers.now ≡ others.now }
    ensures other { numbers.now ≡ others.now → IsTrue result }
{
    if numbers.len() != others.len() {
        return false;
    }
    for (at, number) in numbers.iter().enumerate() {
        if *number != others[at] {
            return false;
        }
    }
    true
}

/// Whether these are others with another number at a place, and there is that place.
pub fn are_with(numbers: &[u32], others: &[u32], place: usize, number: u32) -> bool
    ensures changed { IsTrue result → numbers.now ≡ slice_set others.now place number }
    ensures range { IsTrue result → place < length others.now }
    ensures other { numbers.now ≡ slice_set others.now place number → place < length others.now
        → IsTrue result }
{
    if numbers.len() != others.len() || place >= others.len() {
        return false;
    }
    for (at, kept) in numbers.iter().enumerate() {
        let other = if at == place { number } else { others[at] };
        if *kept != other {
            return false;
        }
    }
    true
}
