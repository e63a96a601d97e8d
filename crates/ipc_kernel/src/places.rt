//! The object places, with an index of the names of queues and one of the names of semaphores.
ghost use Rattle.std.specs.Prelude.{◌≡◌, ℕ, ◌+◌, ◌-◌, ◌<◌, ◌≤◌, length, position, replicate, slice_get, slice_set, Some, None, IfOk, IfSome, OnOk, OnErr, ◌∷◌, IsSomeAnd, IsTrue, drop};
ghost use Rattle.std.specs.FinMap as fin;
ghost use Rattle.std.specs.Option.{option_copied};
ghost use Rattle.ipc_objects.specs.Queue.{QueueState, empty_queue, with_message, without_first};
ghost use Rattle.ipc_objects.specs.declared.queue.Message.{Message};
ghost use Rattle.ipc_objects.specs.Limits.{sem_value_max, mq_prio_max};
ghost use Rattle.ipc_kernel.specs.Limits.{object_places};
ghost use Rattle.ipc_kernel.specs.Places.{queue_in, are_sizes, is_empty, semaphore_value, with_queue_in, with_value_in, without_name_in, queue_name, semaphore_name, queue_named, semaphore_named, place_at, places_or_empty};
ghost use Rattle.ipc_kernel.specs.Private.Messages.{HasRoomFor, HasMessage};
ghost use Rattle.ipc_kernel.specs.declared.place.Place.TheVariants.{Empty, Mq, Sem};

mod assembly;
mod copies;

use crate::limits::OBJECT_PLACES;
use crate::place::Place;
use crate::processes::Processes;
use ipc_names::{Name, NameTable};
use ipc_objects::{Queue, Semaphore, Words};
use std::alloc::{AllocError, Global};
use std::marker::Model;

fn index_of_empty(places: &[Place]) -> Option<usize>
    ensures first { result ≡ position is_empty places.now }
    ensures range { IfSome result (λ i. i < length places.now) }
{
    places.iter().position(|place| place.is_empty())
}

fn empty_unused_in(places: &mut Vec<Place>, processes: &Processes)
    requires few { length places.old.items ≤ 256 }
    ensures emptied { places.new.items ≡ places_or_empty processes.now places.old.items }
{
    for i in 0..places.len() {
        let referred = processes.is_referred(i as u8);
        places[i].keep_or_empty(referred);
    }
}

/// The object places.
#[derive(Drop)]
pub(crate) struct Places {
    places: Vec<Place>,
    queue_names: NameTable,
    semaphore_names: NameTable,
    alloc: Global,
}

impl Model for Places {
    ghost use Rattle.std.specs.Prelude.{List};
    ghost use Rattle.ipc_kernel.specs.declared.place.Place.{Place};
    ghost use Rattle.ipc_kernel.specs.Private.Index.{IsIndexed};

    ghost Value = { List Place };

    ghost view = { λ a. a.places.items };

    ghost invariant = { λ a. IsIndexed a.places.items a.queue_names a.semaphore_names };
}

impl Places {
    pub(crate) fn new(alloc: Global) -> Result<Places, AllocError>
        ensures empty { IfOk result (λ ps. ps ≡ replicate object_places Empty) }
    {
        let mut places = Vec::with_capacity(alloc, OBJECT_PLACES)?;
        for _ in 0..OBJECT_PLACES {
            places.push(Place::Empty)?;
        }
        let queue_names = NameTable::new(alloc);
        let semaphore_names = NameTable::new(alloc);
        Ok(Places {
            places,
            queue_names,
            semaphore_names,
            alloc,
        })
    }

    pub(crate) fn first_empty(&self) -> Option<u8>
        ensures first { result ≡ position is_empty self.now }
        ensures range { IfSome result (λ i. i < object_places) }
    {
        match index_of_empty(self.places.as_slice()) {
            Some(i) => Some(i as u8),
            None => None,
        }
    }

    #[tactic(auto, using(crate::proofs::IndexLemmas::queue_found))]
    pub(crate) fn queue_named(&self, name: &Name) -> Option<u8>
        ensures found { result ≡ queue_named self.now name.now }
        ensures range { IfSome result (λ i. i < object_places) }
        ensures only { (i : ℕ) → queue_name (place_at self.now i) ≡ Some name.now
            → result ≡ Some i }
    {
        self.queue_names.find(name)
    }

    #[tactic(auto, using(crate::proofs::IndexLemmas::semaphore_found))]
    pub(crate) fn semaphore_named(&self, name: &Name) -> Option<u8>
        ensures found { result ≡ semaphore_named self.now name.now }
        ensures range { IfSome result (λ i. i < object_places) }
        ensures only { (i : ℕ) → semaphore_name (place_at self.now i) ≡ Some name.now
            → result ≡ Some i }
    {
        self.semaphore_names.find(name)
    }

    #[inline(always)]
    pub(crate) fn get(&self, place: u8) -> Option<&Place>
        ensures place { option_copied result ≡ slice_get self.now place }
    {
        self.places.get(place as usize)
    }

    /// Adds a message, whose words are shared, to the queue in a place.
    #[tactic(auto, using(crate::proofs::PlaceLemmas::queue_in_range, crate::proofs::PlaceLemmas::place_at_read))]
    #[inline(always)]
    pub(crate) fn send(&mut self, place: u8, priority: u16, words: &Words) -> Result<(), AllocError>
        requires queue { IsSomeAnd (queue_in (place_at self.old place)) (HasRoomFor words.now) }
        requires priority { priority < mq_prio_max }
        ensures ok { OnOk result ((q : QueueState) → queue_in (place_at self.old place) ≡ Some q
            → self.new ≡ with_queue_in self.old place (with_message priority words.now q)) }
        ensures err { OnErr result (self.new ≡ self.old) }
    {
        let words = words.clone()?;
        self.places[place as usize].send(priority, words)
    }

    #[tactic(auto, using(crate::proofs::PlaceLemmas::queue_in_range, crate::proofs::PlaceLemmas::place_at_read))]
    #[inline(always)]
    pub(crate) fn receive(&mut self, place: u8) -> (u16, Words)
        requires message { IsSomeAnd (queue_in (place_at self.old place)) HasMessage }
        ensures first { (q : QueueState) → queue_in (place_at self.old place) ≡ Some q
            → q.messages ≡ record { priority = result.0; words = result.1 } ∷ drop 1 q.messages }
        ensures rest { (q : QueueState) → queue_in (place_at self.old place) ≡ Some q
            → self.new ≡ with_queue_in self.old place (without_first q) }
    {
        self.places[place as usize].receive()
    }

    #[tactic(auto, using(crate::proofs::PlaceLemmas::semaphore_in_range, crate::proofs::PlaceLemmas::place_at_read))]
    #[inline(always)]
    pub(crate) fn post(&mut self, place: u8, value: u16)
        requires value { semaphore_value (place_at self.old place) ≡ Some value }
        requires room { value < sem_value_max }
        ensures more { self.new ≡ with_value_in self.old place (value + 1) }
    {
        self.places[place as usize].post(value);
    }

    #[tactic(auto, using(crate::proofs::PlaceLemmas::semaphore_in_range, crate::proofs::PlaceLemmas::place_at_read))]
    #[inline(always)]
    pub(crate) fn take(&mut self, place: u8, value: u16)
        requires value { semaphore_value (place_at self.old place) ≡ Some value }
        ensures less { self.new ≡ with_value_in self.old place (value - 1) }
    {
        self.places[place as usize].take(value);
    }

    #[tactic(auto, using(crate::proofs::IndexLemmas::named_in_range, crate::proofs::PlaceLemmas::place_at_read))]
    pub(crate) fn unname_queue(&mut self, place: u8, name: &Name)
        requires named { queue_named self.old name.now ≡ Some place }
        ensures unnamed { self.new ≡ without_name_in self.old place }
    {
        let _ = self.queue_names.take(name);
        self.places[place as usize].unname();
    }

    #[tactic(auto, using(crate::proofs::IndexLemmas::named_in_range, crate::proofs::PlaceLemmas::place_at_read))]
    pub(crate) fn unname_semaphore(&mut self, place: u8, name: &Name)
        requires named { semaphore_named self.old name.now ≡ Some place }
        ensures unnamed { self.new ≡ without_name_in self.old place }
    {
        let _ = self.semaphore_names.take(name);
        self.places[place as usize].unname();
    }

    #[tactic(auto, using(crate::proofs::IndexLemmas::queue_found))]
    pub(crate) fn put_queue(
        &mut self,
        place: u8,
        name: &Name,
        max_messages: u16,
        message_size: u16,
    ) -> Result<(), AllocError>
        requires place { place < object_places }
        requires sizes { IsTrue (are_sizes (max_messages, message_size)) }
        requires empty { place_at self.old place ≡ Empty }
        requires absent { queue_named self.old name.now ≡ None }
        ensures ok { OnOk result (self.new ≡ slice_set self.old place
            (Mq (Some name.now) (empty_queue (max_messages, message_size)))) }
        ensures err { OnErr result (self.new ≡ self.old) }
    {
        let queue = Queue::new(self.alloc, max_messages, message_size)?;
        let kept = name.clone()?;
        self.queue_names.put(self.alloc, name, place)?;
        self.places[place as usize] = Place::Mq {
            name: Some(kept),
            queue,
        };
        Ok(())
    }

    #[tactic(auto, using(crate::proofs::IndexLemmas::semaphore_found))]
    pub(crate) fn put_semaphore(
        &mut self,
        place: u8,
        name: &Name,
        value: u16,
    ) -> Result<(), AllocError>
        requires place { place < object_places }
        requires value { value ≤ sem_value_max }
        requires empty { place_at self.old place ≡ Empty }
        requires absent { semaphore_named self.old name.now ≡ None }
        ensures ok { OnOk result (self.new ≡ slice_set self.old place (Sem (Some name.now) value)) }
        ensures err { OnErr result (self.new ≡ self.old) }
    {
        let kept = name.clone()?;
        self.semaphore_names.put(self.alloc, name, place)?;
        self.places[place as usize] = Place::Sem {
            name: Some(kept),
            semaphore: Semaphore::new(value),
        };
        Ok(())
    }

    /// Empties each place without a name and without a descriptor or slot that refers to it.
    pub(crate) fn empty_unused(&mut self, processes: &Processes)
        ensures emptied { self.new ≡ places_or_empty processes.now self.old }
    {
        empty_unused_in(&mut self.places, processes);
    }
}
