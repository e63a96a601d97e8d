//! Places from objects.
ghost use Rattle.std.specs.Prelude.{◌≡◌, ◌+◌, ◌≤◌, ◌++◌, ◌-◌, ℕ, IsTrue, IfOk, IfSome, length, take};
ghost use Rattle.ipc_kernel.specs.Limits.{object_places};
ghost use Rattle.ipc_kernel.specs.Places.{places_or_empty, padded};
ghost use Rattle.ipc_kernel.specs.Private.Index.{IsIndexOf, name_at, name_by};
ghost use Rattle.ipc_kernel.specs.declared.place.Place.TheVariants.{Empty};

use super::Places;
use crate::limits::OBJECT_PLACES;
use crate::place::{Kind, Place};
use crate::processes::Processes;
use ipc_names::NameTable;
use std::alloc::{AllocError, Global};

/// The names of a kind of objects, with their places, if no two have one name.
fn names_of(alloc: Global, places: &[Place], kind: Kind) -> Result<Option<NameTable>, AllocError>
    requires few { length places.now ≤ object_places }
    ensures index { IfOk result (λ found. IfSome found
        (λ names. IsIndexOf (name_at (name_by kind) places.now) names)) }
{
    let mut names = NameTable::new(alloc);
    for (at, place) in places.iter().enumerate() {
        if let Some(name) = place.name(kind) {
            if names.find(name).is_some() {
                return Ok(None);
            }
            names.put(alloc, name, at as u8)?;
        }
    }
    Ok(Some(names))
}

/// The places with empty ones behind them, 64 in all.
fn padded(places: Vec<Place>) -> Result<Vec<Place>, AllocError>
    requires few { length places.items ≤ object_places }
    ensures padded { IfOk result (λ all. all.items ≡ padded object_places places.items) }
    ensures count { IfOk result (λ all. length all.items ≡ object_places) }
{
    let mut all = places;
    while all.len() < OBJECT_PLACES {
        all.push(Place::Empty)?;
    }
    Ok(all)
}

/// The number of places up to the last that is not empty.
fn used_count(places: &[Place]) -> usize
    ensures within { result ≤ length places.now }
    ensures rest { padded (length places.now) (take result places.now) ≡ places.now }
{
    let mut count = places.len();
    while count > 0 && places[count - 1].is_empty() {
        count -= 1;
    }
    count
}

/// Whether each place is empty that has no name and to which nothing refers.
fn are_used(places: &[Place], processes: &Processes) -> bool
    requires few { length places.now ≤ object_places }
    ensures settled { IsTrue result → places_or_empty processes.now places.now ≡ places.now }
{
    for (at, place) in places.iter().enumerate() {
        if !place.stays(processes.is_referred(at as u8)) {
            return false;
        }
    }
    true
}

impl Places {
    /// The places with these objects, if there are at most 64 and no two have one name.
    pub(crate) fn of(alloc: Global, objects: Vec<Place>) -> Result<Option<Places>, AllocError>
        ensures places { IfOk result (λ found. IfSome found
            (λ ps. ps ≡ padded object_places objects.items)) }
    {
        if objects.len() > OBJECT_PLACES {
            return Ok(None);
        }
        let places = padded(objects)?;
        let Some(queue_names) = names_of(alloc, places.as_slice(), Kind::Queue)? else {
            return Ok(None);
        };
        let Some(semaphore_names) = names_of(alloc, places.as_slice(), Kind::Semaphore)? else {
            return Ok(None);
        };
        Ok(Some(Places {
            places,
            queue_names,
            semaphore_names,
            alloc,
        }))
    }

    /// Whether each place is empty that has no name and to which nothing refers.
    pub(crate) fn are_used(&self, processes: &Processes) -> bool
        ensures settled { IsTrue result → places_or_empty processes.now self.now ≡ self.now }
    {
        are_used(self.places.as_slice(), processes)
    }

    pub(crate) fn all(&self) -> &[Place]
        ensures all { result.now ≡ self.now }
        ensures count { length result.now ≡ object_places }
    {
        self.places.as_slice()
    }

    /// The places up to the last that is not empty.
    pub(crate) fn used(&self) -> &[Place]
        ensures used { padded object_places result.now ≡ self.now }
    {
        let count = used_count(self.places.as_slice());
        &self.places.as_slice()[..count]
    }
}
