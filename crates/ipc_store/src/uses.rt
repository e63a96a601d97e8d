//! What processes do with the objects that they have open, and which calls on them no other process
//! can notice.
ghost use Rattle.std.specs.Prelude.{◌≡◌, ◌↔◌, ◌||◌, IsTrue, None, slice_get, unwrap_or};
ghost use Rattle.std.specs.List.{list_all};
ghost use Rattle.std.specs.Option.{option_copied};
ghost use Rattle.ipc_store.specs.Uses.{object_name, is_nonblock, use_of, is_low, goes_first, goes_last, goes_on_with, is_noticed, is_missed_by, is_among, uses_but, is_unnoticed, IsListed};

use crate::kept::is_name;
use ipc_kernel::{Call, OpenTables, Place};
use ipc_names::Name;
use ipc_objects::{Queue, SEM_VALUE_MAX};

/// What a call does with an open object, as far as other processes can notice it.
#[derive(Clone, Copy, PartialEq, Eq, Drop)]
pub enum Use {
    /// Takes one from a semaphore, or waits.
    Wait,
    /// Tries a semaphore, or asks for its value.
    Look,
    /// Adds one to a semaphore.
    Post,
    /// Sends a message of this priority, or waits.
    Send { prio: u16 },
    /// Sends a message, or is refused where the queue is full.
    SendAtOnce,
    /// Receives a message, or waits.
    Receive,
    /// Receives a message, or is refused where the queue is empty.
    ReceiveAtOnce,
    /// Asks for the attributes of a queue.
    Attributes,
}

/// What a process does with the objects of a name.
#[derive(Drop)]
pub struct ProcessUse {
    pub pid: u32,
    pub name: Name,
    pub made: Use,
}

impl Use {
    fn is_same(self, other: Use) -> bool
        ensures same { IsTrue result ↔ (self ≡ other) }
    {
        self == other
    }
}

/// The name of the object in a place, if it has one.
pub(crate) fn object_name(object: &Place) -> Option<&Name>
    ensures name { option_copied result ≡ object_name object.now }
{
    match object {
        Place::Empty => None,
        Place::Mq { name, .. } | Place::Sem { name, .. } => name.as_ref(),
    }
}

/// Whether a descriptor has O_NONBLOCK.
fn is_nonblock(tables: &OpenTables, mqd: u16) -> bool
    ensures nonblock { result ≡ is_nonblock (unwrap_or (slice_get tables.now.descriptors mqd) None) }
{
    match tables.descriptors.get(mqd as usize) {
        Some(Some(held)) => held.nonblock,
        _ => false,
    }
}

/// What a call does with an open object, by the tables of its process.
pub(crate) fn use_of(tables: &OpenTables, call: &Call) -> Option<Use>
    ensures made { result ≡ use_of tables.now call.now }
{
    match call {
        Call::MqSend { mqd, .. } if is_nonblock(tables, *mqd) => Some(Use::SendAtOnce),
        Call::MqSend { prio, .. } => Some(Use::Send { prio: *prio }),
        Call::MqReceive { mqd, .. } if is_nonblock(tables, *mqd) => Some(Use::ReceiveAtOnce),
        Call::MqReceive { .. } => Some(Use::Receive),
        Call::MqGetattr { .. } | Call::MqSetattr { .. } => Some(Use::Attributes),
        Call::SemWait { .. } => Some(Use::Wait),
        Call::SemTrywait { .. } | Call::SemGetvalue { .. } => Some(Use::Look),
        Call::SemPost { .. } => Some(Use::Post),
        _ => None,
    }
}

/// Whether the value of what is in a place, if it is a semaphore, allows two posts more.
pub(crate) fn is_low(object: &Place) -> bool
    ensures low { result ≡ is_low object.now }
{
    match object {
        Place::Sem { semaphore, .. } => semaphore.value() <= SEM_VALUE_MAX - 2,
        _ => true,
    }
}

/// Whether a message of a priority would be received before the first that a queue has.
fn goes_first(queue: &Queue, prio: u16) -> bool
    ensures first { result ≡ goes_first prio queue.now.messages }
{
    queue.first().is_some_and(|message| message.priority < prio)
}

/// Whether a message of a priority would be received after all that a queue has.
fn goes_last(queue: &Queue, prio: u16) -> bool
    ensures last { result ≡ goes_last prio queue.now.messages }
{
    let (_, _, count) = queue.attr();
    if count == 0 {
        return true;
    }
    match queue.entry(count as usize - 1) {
        Some((priority, _)) => prio <= priority,
        None => false,
    }
}

/// Whether a call on an object is answered, and with what it does there.
fn goes_on_with(object: &Place, call: &Call) -> bool
    ensures goes { result ≡ goes_on_with object.now call.now }
{
    match (object, call) {
        (Place::Sem { semaphore, .. }, Call::SemPost { .. }) => semaphore.value() < SEM_VALUE_MAX,
        (Place::Sem { semaphore, .. }, Call::SemWait { .. }) => {
            semaphore.value() > 0 && is_low(object)
        }
        (Place::Sem { .. }, Call::SemTrywait { .. }) => is_low(object),
        (Place::Sem { .. }, Call::SemGetvalue { .. }) => true,
        (Place::Mq { queue, .. }, Call::MqReceive { .. }) => queue.attr().2 > 0,
        (Place::Mq { queue, .. }, Call::MqSend { .. }) => {
            let (max, _, count) = queue.attr();
            count < max
        }
        _ => false,
    }
}

/// Whether a use can tell whether a call on an object came before it, or the call whether the use did.
fn is_noticed(object: &Place, call: &Call, made: Use) -> bool
    ensures noticed { result ≡ is_noticed object.now call.now made }
{
    match (object, call, made) {
        (_, Call::SemPost { .. }, Use::Wait | Use::Post) => false,
        (Place::Mq { queue, .. }, Call::MqReceive { .. }, Use::Send { prio }) => {
            goes_first(queue, prio)
        }
        (Place::Mq { queue, .. }, Call::MqSend { prio, .. }, Use::Receive) => {
            !goes_last(queue, *prio)
        }
        _ => true,
    }
}

/// Whether a process is among some.
fn is_among(pids: &[u32], pid: u32) -> bool
    ensures among { result ≡ is_among pids.now pid }
{
    pids.iter().any(|it| pid == *it)
}

/// Whether no other process notices a call of a process on an object, as far as the uses tell what they
/// do with it, and but for those that have ended.
fn all_miss(uses: &[ProcessUse], ended: &[u32], pid: u32, object: &Place, call: &Call) -> bool
    ensures all { result ≡ list_all (λ it. is_among ended.now it.pid
        || is_missed_by pid object.now call.now it) uses.now }
{
    uses.iter().all(|it| is_among(ended, it.pid) || it.misses(pid, object, call))
}

/// Whether a call of a process on an object goes on, and no other process notices it, as far as the
/// uses tell what they do with it, and but for those that have ended.
pub(crate) fn is_unnoticed(
    uses: &[ProcessUse],
    ended: &[u32],
    pid: u32,
    object: &Place,
    call: &Call,
) -> bool
    ensures unnoticed { result ≡ is_unnoticed (uses_but ended.now uses.now) pid object.now
        call.now }
{
    goes_on_with(object, call) && all_miss(uses, ended, pid, object, call)
}

impl ProcessUse {
    /// Whether it is the process's own, or of another object, or doesn't notice the call.
    fn misses(&self, pid: u32, object: &Place, call: &Call) -> bool
        ensures missed { result ≡ is_missed_by pid object.now call.now self.now }
    {
        self.pid == pid
            || !is_name(&self.name, object_name(object))
            || !is_noticed(object, call, self.made)
    }

    /// Whether it is this one.
    fn is(&self, pid: u32, name: &Name, made: Use) -> bool
        ensures same { IsTrue result → self.now ≡ record { pid = pid; name = name.now; made = made } }
    {
        self.pid == pid && self.made.is_same(made) && self.name == *name
    }
}

/// Whether a use is among those of a process.
pub(crate) fn is_listed(uses: &[ProcessUse], pid: u32, name: &Name, made: Use) -> bool
    ensures listed { IsTrue result → IsListed uses.now pid name.now made }
{
    for it in uses {
        if it.is(pid, name, made) {
            return true;
        }
    }
    false
}
