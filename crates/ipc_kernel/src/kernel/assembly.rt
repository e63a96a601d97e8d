//! Kernels from their parts, and their parts.
ghost use Rattle.std.specs.Prelude.{◌≡◌, ◌<◌, ℕ, IfOk, IfSome, Some, length, true};
ghost use Rattle.ipc_kernel.specs.Limits.{object_places};
ghost use Rattle.ipc_kernel.specs.Kernel.{IsSettled};
ghost use Rattle.ipc_kernel.specs.Places.{padded, place_at, queue_name, queue_named, semaphore_name, semaphore_named};
ghost use Rattle.ipc_kernel.specs.Processes.{is_referred};

use super::Kernel;
use crate::place::Place;
use crate::places::Places;
use crate::process::OpenTables;
use crate::processes::Processes;
use ipc_names::Name;
use std::alloc::{AllocError, Global};

impl Kernel {
    /// The kernel with these objects, in this order of the places, and with these tables of its
    /// processes, if there is one.
    pub fn assemble(
        alloc: Global,
        objects: Vec<Place>,
        tables: Vec<OpenTables>,
    ) -> Result<Option<Kernel>, AllocError>
        ensures kernel { IfOk result (λ found. IfSome found (λ k. k ≡ record {
          places = padded object_places objects.items;
          processes = tables.items;
        })) }
        ensures settled { IfOk result (λ found. IfSome found IsSettled) }
    {
        let Some(places) = Places::of(alloc, objects)? else {
            return Ok(None);
        };
        match Processes::of(tables) {
            Some(processes) if places.are_used(&processes) => {
                Ok(Some(Kernel { places, processes }))
            }
            _ => Ok(None),
        }
    }

    /// All 64 places.
    pub fn places(&self) -> &[Place]
        ensures places { result.now ≡ self.now.places }
        ensures count { length self.now.places ≡ object_places }
        ensures settled { IsSettled self.now }
    {
        self.places.all()
    }

    /// The place of the queue with a name.
    pub fn queue_named(&self, name: &Name) -> Option<u8>
        ensures found { result ≡ queue_named self.now.places name.now }
        ensures only { (i : ℕ) → queue_name (place_at self.now.places i) ≡ Some name.now
            → result ≡ Some i }
    {
        self.places.queue_named(name)
    }

    /// The place of the semaphore with a name.
    pub fn semaphore_named(&self, name: &Name) -> Option<u8>
        ensures found { result ≡ semaphore_named self.now.places name.now }
        ensures only { (i : ℕ) → semaphore_name (place_at self.now.places i) ≡ Some name.now
            → result ≡ Some i }
    {
        self.places.semaphore_named(name)
    }

    /// The places, up to the last that is not empty.
    pub fn objects(&self) -> &[Place]
        ensures objects { padded object_places result.now ≡ self.now.places }
        ensures settled { IsSettled self.now }
    {
        self.places.used()
    }

    /// The tables of the processes.
    pub fn tables(&self) -> &[OpenTables]
        ensures tables { result.now ≡ self.now.processes }
        ensures range { (i : ℕ) → is_referred self.now.processes i ≡ true → i < object_places }
    {
        self.processes.tables()
    }
}
