//! Isomorphism up to renaming: whether two kernels are alike, equal but for the numbers of the places.
ghost use Rattle.std.specs.Prelude.{◌≡◌, ◌↔◌, ◌<◌, ℕ, IsTrue, Some, None, true, false, length};
ghost use Rattle.ipc_kernel.specs.Limits.{object_places};
ghost use Rattle.ipc_kernel.specs.Places.{place_at, has_name};
ghost use Rattle.ipc_kernel.specs.Alike.{IsAlike, IsPermutation, IsRenaming, renamed_descriptor, renamed_slot, renamed_process};
ghost use Rattle.ipc_store.specs.Private.Renamings.{Follows, Permutes, renamed_by};
ghost use Rattle.std.specs.Option.{option_map};

use crate::arranging::{are_renamed, take_all};
use ipc_kernel::{Descriptor, Kernel, OBJECT_PLACES, OPEN_MAX, OpenTables, Place, Slot};

/// Whether a place holds what another holds; one behind the end is empty.
fn is_same_at(places: &[Place], at: u8, others: &[Place], other: u8) -> bool
    ensures same { IsTrue result ↔ (place_at others.now other ≡ place_at places.now at) }
{
    match (places.get(at as usize), others.get(other as usize)) {
        (Some(place), Some(other)) => other.is_same(place),
        (Some(place), None) => place.is_empty(),
        (None, Some(other)) => other.is_empty(),
        (None, None) => true,
    }
}

/// Whether places hold the same where a list takes those of others.
fn are_renamed_places(places: &[Place], others: &[Place], to: &[u8]) -> bool
    ensures renamed { IsTrue result ↔ ((i : ℕ) → i < object_places
        → place_at others.now (renamed_by to.now i) ≡ place_at places.now i) }
{
    for at in 0..OBJECT_PLACES as u8 {
        if !is_same_at(places, at, others, renamed_by(to, at)) {
            return false;
        }
    }
    true
}

/// The place of another kernel with the name that a place has.
fn place_of_name(places: &[Place], at: u8, other: &Kernel) -> Option<u8>
    ensures named { (i : ℕ) → has_name (place_at places.now at) ≡ true
        → place_at other.now.places i ≡ place_at places.now at → result ≡ Some i }
    ensures nameless { has_name (place_at places.now at) ≡ false → result ≡ None }
{
    let place = places.get(at as usize)?;
    if let Some(name) = place.queue_name() {
        return other.queue_named(name);
    }
    other.semaphore_named(place.semaphore_name()?)
}

/// Takes each place with a name to the place of that name.
fn take_names(places: &[Place], other: &Kernel, renaming: &mut Renaming)
    requires count { length places.now ≡ object_places }
    requires permutation { Permutes renaming.old }
    ensures permutation { Permutes renaming.new }
    ensures follows { (f g : ℕ → ℕ) → IsPermutation f g
        → ((i : ℕ) → place_at other.now.places (f i) ≡ place_at places.now i)
        → Follows f (λ i. has_name (place_at places.now i) ≡ true) renaming.old renaming.new }
    ensures range { (i : ℕ) → has_name (place_at places.now i) ≡ true → i < object_places }
{
    for at in 0..places.len() as u8 {
        if let Some(found) = place_of_name(places, at, other) {
            renaming.exchange(at, found);
        }
    }
}

/// The renaming that takes each place with a name to the place of that name, and what a process
/// has open to what it has open in the other kernel.
fn renaming_to(kernel: &Kernel, other: &Kernel) -> Renaming
    ensures permutation { Permutes result }
    ensures alike { IsAlike kernel.now other.now
        → IsRenaming (renamed_by result.to) (renamed_by result.from) kernel.now other.now }
{
    let mut renaming = Renaming::new();
    take_names(kernel.places(), other, &mut renaming);
    take_all(kernel.tables(), other.tables(), &mut renaming);
    renaming
}

/// Whether another kernel is this one with its places renamed so.
pub(crate) fn is_renamed(kernel: &Kernel, other: &Kernel, renaming: &Renaming) -> bool
    requires permutation { Permutes renaming.now }
    ensures renamed { IsTrue result ↔ IsRenaming (renamed_by renaming.now.to)
        (renamed_by renaming.now.from) kernel.now other.now }
{
    are_renamed_places(kernel.places(), other.places(), &renaming.to)
        && are_renamed(kernel.tables(), other.tables(), &renaming.to)
}

/// Whether another kernel is this one, or this one with its places renamed. Then no answer tells
/// them apart (`laws::alike_law`).
#[tactic(auto, using(crate::proofs::Alikes::alike_same))]
pub fn is_alike(kernel: &Kernel, other: &Kernel) -> bool
    ensures alike { IsTrue result ↔ IsAlike kernel.now other.now }
{
    kernel.is_same(other) || is_renamed(kernel, other, &renaming_to(kernel, other))
}

/// Where a list of numbers takes a place; one behind its end stays.
#[inline(always)]
pub(crate) fn renamed_by(to: &[u8], place: u8) -> u8
    ensures renamed { result ≡ renamed_by to.now place }
{
    to.get(place as usize).copied().unwrap_or(place)
}

fn renamed_descriptor(held: Option<Descriptor>, to: &[u8]) -> Option<Descriptor>
    ensures renamed { result ≡ option_map (renamed_descriptor (renamed_by to.now)) held }
{
    let held = held?;
    let place = renamed_by(to, held.place);
    Some(Descriptor { place, ..held })
}

fn renamed_slot(held: Option<Slot>, to: &[u8]) -> Option<Slot>
    ensures renamed { result ≡ option_map (renamed_slot (renamed_by to.now)) held }
{
    let held = held?;
    let place = renamed_by(to, held.place);
    Some(Slot { place, ..held })
}

/// The tables of a process with each place where a list takes it.
pub(crate) fn renamed_process(process: &OpenTables, to: &[u8]) -> OpenTables
    ensures renamed { result ≡ renamed_process (renamed_by to.now) process.now }
{
    let mut renamed = *process;
    for at in 0..OPEN_MAX {
        renamed.descriptors[at] = renamed_descriptor(process.descriptors[at], to);
        renamed.slots[at] = renamed_slot(process.slots[at], to);
    }
    renamed
}

/// A renaming of the object places: where each is taken, and back.
#[derive(Clone, Copy, Drop)]
pub(crate) struct Renaming {
    pub to: [u8; OBJECT_PLACES],
    pub from: [u8; OBJECT_PLACES],
}

impl Renaming {
    /// Each place stays.
    pub(crate) fn new() -> Renaming
        ensures permutation { Permutes result }
    {
        let mut to = [0; OBJECT_PLACES];
        for place in 0..OBJECT_PLACES as u8 {
            to[place as usize] = place;
        }
        Renaming { to, from: to }
    }

    /// Exchanges where two places are taken, so that this place is taken to the other.
    pub(crate) fn exchange(&mut self, place: u8, other: u8)
        requires permutation { Permutes self.old }
        ensures permutation { Permutes self.new }
        ensures follows { (f g : ℕ → ℕ) → IsPermutation f g → f place ≡ other
            → Follows f (λ i. i ≡ place) self.old self.new }
    {
        if (place as usize) < OBJECT_PLACES && (other as usize) < OBJECT_PLACES {
            let there = self.to[place as usize];
            let back = self.from[other as usize];
            self.to[place as usize] = other;
            self.to[back as usize] = there;
            self.from[other as usize] = place;
            self.from[there as usize] = back;
        }
    }
}
