//! Copies of the places, and whether they hold the same.
ghost use Rattle.std.specs.Prelude.{◌≡◌, ◌↔◌, IfOk, IsTrue};

use super::Places;
use crate::limits::OBJECT_PLACES;
use crate::place::Place;
use std::alloc::{AllocError, Global};

fn copies_of(alloc: Global, places: &[Place]) -> Result<Vec<Place>, AllocError>
    ensures equal { IfOk result (λ copies. copies.items ≡ places.now) }
{
    let mut copies = Vec::with_capacity(alloc, places.len())?;
    for place in places {
        copies.push(place.copy(alloc)?)?;
    }
    Ok(copies)
}

impl Places {
    pub(crate) fn copy(&self, alloc: Global) -> Result<Places, AllocError>
        ensures equal { IfOk result (λ copy. copy ≡ self.now) }
    {
        let places = copies_of(alloc, self.places.as_slice())?;
        let queue_names = self.queue_names.copy()?;
        let semaphore_names = self.semaphore_names.copy()?;
        Ok(Places {
            places,
            queue_names,
            semaphore_names,
            alloc,
        })
    }

    pub(crate) fn is_same(&self, other: &Places) -> bool
        ensures same { IsTrue result ↔ (self.now ≡ other.now) }
    {
        self.places.as_slice() == other.places.as_slice()
    }

    /// About how many bytes the places take, with what they hold and with the entries of their names.
    pub(crate) fn size(&self) -> usize {
        self.places
            .iter()
            .fold(0_usize, |size, place| size.saturating_add(place.size()))
    }

    /// A number for what each place holds, and 0 for an empty place.
    pub(crate) fn digests(&self) -> [u64; OBJECT_PLACES] {
        let mut digests = [0; OBJECT_PLACES];
        for (at, place) in self.places.iter().enumerate() {
            if at < OBJECT_PLACES {
                digests[at] = place.digest();
            }
        }
        digests
    }
}
