//! Objects, each once.
ghost use Rattle.std.specs.Prelude.{◌≡◌, ◌||◌, Some, length, position, slice_get, unwrap_or, IfSome, false, is_some, option_and_then, IsTrue};
ghost use Rattle.std.specs.List.{list_all};
ghost use Rattle.std.specs.Str.{bytes_eq};
ghost use Rattle.std.specs.Option.{option_copied, option_or};
ghost use Rattle.ipc_kernel.specs.declared.place.Place.TheVariants.{Empty};
ghost use Rattle.ipc_kernel.specs.Places.{place_at, is_empty, has_name, is_name, place_named};
ghost use Rattle.ipc_store.specs.Private.Kinds.{name_of};
ghost use Rattle.ipc_kernel.specs.declared.process.OpenTables.{OpenTables};
ghost use Rattle.ipc_kernel.specs.Kernel.{KernelState};
ghost use Rattle.ipc_kernel.specs.OwnCalls.{is_own};
ghost use Rattle.ipc_kernel.specs.Operands.{place_of, if_named, are_named, operand_in};
ghost use Rattle.ipc_store.specs.Uses.{are_low};

use crate::kept::Kernels;
use crate::kept::parts::{Part, Parts};
use crate::uses::is_low;
use ipc_kernel::{Call, Handle, OBJECT_PLACES, Place};
use ipc_names::Name;
use ipc_objects::{FEW_WORDS, Message};
use std::alloc::{AllocError, Global};
use std::mem::{size_of, size_of_val};

/// Whether texts are equal. Names that differ mostly do so in their lengths or their last
/// characters, which are looked at first.
#[inline(always)]
fn is_text(text: &str, other: &str) -> bool
    ensures same { result ≡ bytes_eq text.now other.now }
{
    let (bytes, others) = (text.as_bytes(), other.as_bytes());
    if bytes.len() != others.len() || bytes.last() != others.last() {
        return false;
    }
    text == other
}

#[inline(always)]
pub(crate) fn is_name(name: &Name, other: Option<&Name>) -> bool
    ensures same { result ≡ is_name name.now (option_copied other.entry) }
{
    match other {
        Some(other) => is_text(name.text(), other.text()),
        None => false,
    }
}

/// About how many bytes a copy of an object takes beside its size: the room for the messages of a queue behind the first grows by
/// doubling, from four, and the words of the message that came last are shared with no object that was kept before.
fn beside(object: &Place) -> usize {
    let Place::Mq { queue, .. } = object else {
        return 0;
    };
    let messages = queue.attr().2 as usize;
    let Some(last) = messages.checked_sub(1) else {
        return 0;
    };
    let room = match last {
        0 => 0,
        _ => last.max(4).checked_next_power_of_two().unwrap_or(last),
    };
    // What counts those that share the words takes as much as five of the greatest numbers.
    let words = match queue.entry(last) {
        Some((_, words)) if words.len() > FEW_WORDS => {
            size_of_val(words).saturating_add(5 * size_of::<u128>())
        }
        _ => 0,
    };
    size_of::<Message>()
        .saturating_mul(room.saturating_sub(last))
        .saturating_add(words)
}

/// What has names of its own.
#[derive(Clone, Copy, Drop)]
pub(super) enum Kind {
    Queue,
    Semaphore,
}

impl Part for Place {
    fn digest(&self) -> u64 {
        self.digest()
    }

    fn is_same(&self, other: &Place) -> bool {
        self.is_same(other)
    }

    fn copy(&self, alloc: Global) -> Result<Place, AllocError> {
        self.copy(alloc)
    }

    fn size(&self) -> usize {
        self.size().saturating_add(beside(self))
    }
}

impl Parts<Place> {
    fn is_named(&self, number: u32, kind: Kind, name: &Name) -> bool
        ensures named { result ≡ is_name name.now (name_of kind (place_at self.now number)) }
    {
        match (self.get(number), kind) {
            (Some(object), Kind::Queue) => is_name(name, object.queue_name()),
            (Some(object), Kind::Semaphore) => is_name(name, object.semaphore_name()),
            (None, _) => false,
        }
    }

    pub(crate) fn has_name(&self, number: u32) -> bool
        ensures named { result ≡ has_name (place_at self.now number) }
    {
        self.get(number).is_some_and(|object| object.has_name())
    }

    fn is_empty(&self, number: u32) -> bool
        ensures empty { result ≡ is_empty (place_at self.now number) }
    {
        self.get(number).is_none_or(|object| object.is_empty())
    }

    /// The place of the one of a kind with a name among objects, which are given by their numbers.
    pub(crate) fn place_named(&self, numbers: &[u32], kind: Kind, name: &Name) -> Option<usize>
        ensures found { result
            ≡ position (λ n. is_name name.now (name_of kind (place_at self.now n))) numbers.now }
    {
        numbers
            .iter()
            .position(|number| self.is_named(*number, kind, name))
    }

    /// The first that is none among objects, which are given by their numbers.
    fn first_empty(&self, numbers: &[u32]) -> Option<usize>
        ensures first { result ≡ position (λ n. is_empty (place_at self.now n)) numbers.now }
    {
        numbers.iter().position(|number| self.is_empty(*number))
    }

    /// The place of the one of a kind with a name among objects, which are given by their numbers;
    /// or else the first that is none, or the one behind them.
    pub(crate) fn opened(&self, numbers: &[u32], kind: Kind, name: &Name) -> usize
        ensures place { result ≡ unwrap_or
            (position (λ n. is_name name.now (name_of kind (place_at self.now n))) numbers.now)
            (unwrap_or (position (λ n. is_empty (place_at self.now n)) numbers.now)
            (length numbers.now)) }
    {
        match self.place_named(numbers, kind, name) {
            Some(place) => place,
            None => self.first_empty(numbers).unwrap_or(numbers.len()),
        }
    }

    /// The number of no object, which an empty place holds, if it was kept first.
    pub(crate) fn empty(&self) -> Option<u32>
        ensures empty { IfSome result (λ i. slice_get self.now i ≡ Some Empty) }
    {
        match self.get(0) {
            Some(Place::Empty) => Some(0),
            _ => None,
        }
    }

    /// Whether each semaphore is low.
    pub(crate) fn are_low(&self) -> bool
        ensures low { result ≡ are_low self.now }
    {
        self.all().iter().all(|object| is_low(object))
    }

    /// Whether each of some objects, which are given by their numbers, has a name.
    pub(crate) fn are_named(&self, numbers: &[u32]) -> bool
        ensures named { result ≡ list_all (λ n. is_empty (place_at self.now n)
            || has_name (place_at self.now n)) numbers.now }
    {
        numbers
            .iter()
            .all(|number| self.is_empty(*number) || self.has_name(*number))
    }
}

impl Kernels {
    /// The place of the object of a kind with a name in a kernel, or else the least empty one.
    fn opened(&self, kernel: u32, kind: Kind, name: &Name) -> Option<u8>
        ensures place { IfSome result (λ i. (k : KernelState)
            → slice_get self.now.kernels kernel ≡ Some k
            → option_or (place_named (name_of kind) k.places name.now) (position is_empty k.places)
            ≡ Some i) }
    {
        let (objects, _) = self.rows.row(kernel)?;
        let place = self.objects.opened(objects, kind, name);
        if place >= OBJECT_PLACES {
            return None;
        }
        Some(place as u8)
    }

    fn are_named(&self, kernel: u32) -> bool
        ensures named { IsTrue result → (k : KernelState)
            → slice_get self.now.kernels kernel ≡ Some k → IsTrue (are_named k.places) }
    {
        match self.rows.row(kernel) {
            Some((objects, _)) => self.objects.are_named(objects),
            None => false,
        }
    }

    /// The place to which a descriptor or slot refers by tables that are kept, if it is open.
    fn place_of(&self, tables: u32, handle: Handle) -> Option<u8>
        ensures place { IfSome result (λ i. (t : OpenTables)
            → slice_get self.now.tables tables ≡ Some t → place_of t handle ≡ Some i) }
    {
        self.tables.get(tables)?.place_of(handle)
    }

    /// The place to which a descriptor or slot refers, if it is open and the object there has a name.
    fn closed(&self, kernel: u32, tables: u32, handle: Handle) -> Option<u8>
        ensures place { IfSome result (λ i. (k : KernelState) (t : OpenTables)
            → slice_get self.now.kernels kernel ≡ Some k
            → slice_get self.now.tables tables ≡ Some t
            → option_and_then (if_named k.places) (place_of t handle) ≡ Some i) }
    {
        let place = self.place_of(tables, handle)?;
        let object = self.object_at(kernel, place)?;
        self.objects.has_name(object).then_some(place)
    }

    /// Whether an object of a kind has a name in a kernel.
    fn has(&self, kernel: u32, kind: Kind, name: &Name) -> bool
        ensures named { (k : KernelState) → slice_get self.now.kernels kernel ≡ Some k
            → result ≡ is_some (place_named (name_of kind) k.places name.now) }
    {
        match self.rows.row(kernel) {
            Some((objects, _)) => self.objects.place_named(objects, kind, name).is_some(),
            None => false,
        }
    }

    /// Whether a call changes the tables of its process alone, over a kernel that is kept, where each
    /// object in it has a name: whether it is the end of a process, a close, or an open of a name that
    /// an object has.
    pub fn is_own(&self, kernel: u32, call: &Call) -> bool
        ensures own { IsTrue result → (k : KernelState)
            → slice_get self.now.kernels kernel ≡ Some k → IsTrue (is_own k.places call.now) }
        ensures other { result ≡ false → (k : KernelState)
            → slice_get self.now.kernels kernel ≡ Some k → is_own k.places call.now ≡ false }
    {
        match call {
            Call::Exit | Call::MqClose { .. } | Call::SemClose { .. } => true,
            Call::MqOpen { name, .. } => self.has(kernel, Kind::Queue, name),
            Call::SemOpen { name, .. } => self.has(kernel, Kind::Semaphore, name),
            _ => false,
        }
    }

    /// The object place, 0 to 63, that a call of a process works on, over a kernel and with tables
    /// that are kept, if it removes no object. For an open of a name that no object has it is the
    /// least empty place, and for the end of a process place 0.
    pub fn operand(&self, kernel: u32, tables: u32, call: &Call) -> Option<u8>
        ensures operand { IfSome result (λ i. (k : KernelState) (t : OpenTables)
            → slice_get self.now.kernels kernel ≡ Some k
            → slice_get self.now.tables tables ≡ Some t
            → operand_in k t call.now ≡ Some i) }
    {
        if let Some(handle) = call.handle() {
            return self.place_of(tables, handle);
        }
        match call {
            Call::MqOpen { name, .. } => self.opened(kernel, Kind::Queue, name),
            Call::SemOpen { name, .. } => self.opened(kernel, Kind::Semaphore, name),
            Call::MqClose { mqd } => self.closed(kernel, tables, Handle::Mqd(*mqd)),
            Call::SemClose { slot } => self.closed(kernel, tables, Handle::Slot(*slot)),
            Call::Exit if self.are_named(kernel) => Some(0),
            _ => None,
        }
    }
}
