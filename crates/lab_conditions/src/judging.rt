//! Whether conditions hold of worlds.
ghost use Rattle.std.specs.Prelude.{◌≡◌, ◌↔◌, ◌<◌, false, All, Some, IfOk, IsTrue, map, slice_get, ℕ, IfSome, ◌^◌};
ghost use Rattle.std.specs.List.{list_any};
ghost use Rattle.lab_sched.specs.Held.{process_view};
ghost use Rattle.lab_sched.specs.Worlds.{Process as Seen, next_action};
ghost use Rattle.lab_conditions.specs.Conditions.{is_so, how_many, PartHolds, Holds, NamesOnly, world_of, part_needs_kernel, HoldsOverAny, Compares, IsSemaphoreIn, IsQueueIn, must_wait, call_next, call_of, StandsAt};
ghost use Rattle.ipc_kernel.specs.Limits.{object_places};
ghost use Rattle.ipc_kernel.specs.Places.{place_at};
ghost use Rattle.lab_conditions.specs.Losses.{messages_at, messages, is_receiving};

use crate::{Condition, Part, Relation, State};
use ipc_kernel::{Call, Kernel, OBJECT_PLACES};
use ipc_names::Name;
use lab_sched::{Next, Process, find_next};
use lc3_machine::{How, Running};
use std::alloc::{AllocError, Global};

fn how_many(
    alloc: Global,
    state: State,
    kernel: &Kernel,
    processes: &[&Process],
) -> Result<usize, AllocError>
    ensures count { IfOk result (λ count. count ≡ how_many state
        (world_of kernel.now (map (λ s. process_view s.now) processes.now))) }
{
    let mut count = 0;
    for (pid, process) in processes.iter().enumerate() {
        if state.is_so(alloc, kernel, pid, process)? {
            count += 1;
        }
    }
    Ok(count)
}

fn is_one_so(
    alloc: Global,
    pid: usize,
    state: State,
    kernel: &Kernel,
    processes: &[&Process],
) -> Result<bool, AllocError>
    ensures so { IfOk result (λ so. IsTrue so ↔ ((s : Seen)
        × (slice_get (map (λ s. process_view s.now) processes.now) pid ≡ Some s)
        × IsTrue (is_so state kernel.now pid s))) }
{
    match processes.get(pid) {
        Some(process) => state.is_so(alloc, kernel, pid, process),
        None => Ok(false),
    }
}

impl Part {
    /// Whether the part holds of the world of some processes over a kernel. An error is want of
    /// memory.
    pub fn holds_in(
        &self,
        alloc: Global,
        kernel: &Kernel,
        processes: &[&Process],
    ) -> Result<bool, AllocError>
        ensures holds { IfOk result (λ holds. IsTrue holds ↔ PartHolds self.now
            (world_of kernel.now (map (λ s. process_view s.now) processes.now))) }
    {
        match self {
            Part::Semaphore {
                name,
                relation,
                value,
            } => Ok(has_semaphore(kernel, name, *relation, *value)),
            Part::Queue {
                name,
                relation,
                value,
            } => Ok(has_queue(kernel, name, *relation, *value)),
            Part::Of { process, state } => is_one_so(alloc, *process, *state, kernel, processes),
            Part::MoreThan { state, number } => {
                Ok(how_many(alloc, *state, kernel, processes)? > usize::from(*number))
            }
        }
    }

    fn names_only(&self, count: usize) -> bool
        ensures only { IsTrue result ↔ NamesOnly count self.now }
    {
        !matches!(self, Part::Of { process, .. } if *process >= count)
    }

    fn needs_kernel(&self) -> bool
        ensures value { result ≡ part_needs_kernel self.now }
    {
        match self {
            Part::Semaphore { .. } | Part::Queue { .. } => true,
            Part::Of { state, .. } | Part::MoreThan { state, .. } => {
                matches!(state, State::Blocked)
            }
        }
    }
}

fn need_kernel(parts: &[Part]) -> bool
    ensures value { result ≡ list_any part_needs_kernel parts.now }
{
    parts.iter().any(|part| part.needs_kernel())
}

impl Condition {
    /// Whether the condition holds of the world of some processes over a kernel. An error is want of
    /// memory.
    pub fn holds_in(
        &self,
        alloc: Global,
        kernel: &Kernel,
        processes: &[&Process],
    ) -> Result<bool, AllocError>
        ensures holds { IfOk result (λ holds. IsTrue holds ↔ Holds self.now
            (world_of kernel.now (map (λ s. process_view s.now) processes.now))) }
    {
        for part in &self.parts {
            if !part.holds_in(alloc, kernel, processes)? {
                return Ok(false);
            }
        }
        Ok(true)
    }

    /// Whether the condition names no process but those of a run of so many.
    pub fn names_only(&self, count: usize) -> bool
        ensures only { IsTrue result ↔ All (NamesOnly count) self.now.parts.items }
    {
        self.parts.iter().all(|part| part.names_only(count))
    }

    /// Whether it depends on the kernel whether the condition holds: whether one of its parts
    /// speaks of a semaphore, of a queue, or of processes that are blocked.
    pub fn needs_kernel(&self) -> bool
        ensures value { result ≡ list_any part_needs_kernel self.now.parts.items }
        ensures no { result ≡ false → HoldsOverAny self.now }
    {
        need_kernel(self.parts.as_slice())
    }
}

impl Relation {
    /// Whether a number stands so to another.
    pub fn compares(self, number: usize, other: usize) -> bool
        ensures compares { IsTrue result ↔ Compares self number other }
    {
        match self {
            Relation::More => number > other,
            Relation::Less => number < other,
            Relation::Equal => number == other,
        }
    }
}

fn is_semaphore_in(kernel: &Kernel, place: u8, name: &Name, relation: Relation, value: u16) -> bool
    requires within { place < object_places }
    ensures is { IsTrue result ↔ IsSemaphoreIn kernel.now place name.now relation value }
{
    matches!(
        kernel.semaphore_at(place),
        Some((Some(other), held))
            if name == other && relation.compares(usize::from(held), usize::from(value))
    )
}

fn is_queue_in(kernel: &Kernel, place: u8, name: &Name, relation: Relation, value: u16) -> bool
    requires within { place < object_places }
    ensures is { IsTrue result ↔ IsQueueIn kernel.now place name.now relation value }
{
    matches!(
        kernel.queue_at(place),
        Some((Some(other), queue))
            if name == other && relation.compares(usize::from(queue.attr().2), usize::from(value))
    )
}

fn has_semaphore(kernel: &Kernel, name: &Name, relation: Relation, value: u16) -> bool
    ensures has { IsTrue result ↔ ((i : ℕ) × IsSemaphoreIn kernel.now i name.now relation value) }
{
    for place in 0..OBJECT_PLACES as u8 {
        if is_semaphore_in(kernel, place, name, relation, value) {
            return true;
        }
    }
    false
}

fn has_queue(kernel: &Kernel, name: &Name, relation: Relation, value: u16) -> bool
    ensures has { IsTrue result ↔ ((i : ℕ) × IsQueueIn kernel.now i name.now relation value) }
{
    for place in 0..OBJECT_PLACES as u8 {
        if is_queue_in(kernel, place, name, relation, value) {
            return true;
        }
    }
    false
}

/// The call that a running process is about to make, if its next step is one.
fn call_next(alloc: Global, running: &Running) -> Result<Option<Call>, AllocError>
    ensures call { IfOk result (λ call. call ≡ call_next (next_action running.now.process)) }
{
    let mut process = Process::Running(running.copy(alloc)?);
    match find_next(alloc, &mut process, 1) {
        Next::Asks(call) => Ok(Some(call)),
        Next::Moved(_) | Next::Ended => Ok(None),
        Next::Short => Err(AllocError),
    }
}

/// The call that a process is about to make, or waits for.
pub fn call_of(alloc: Global, process: &Process) -> Result<Option<Call>, AllocError>
    ensures value { IfOk result (λ found. found ≡ call_of (process_view process.now)) }
    ensures call { IfOk result
        (λ found. IfSome found (λ c. StandsAt (process_view process.now) c)) }
{
    match process {
        Process::Running(running) => call_next(alloc, running),
        Process::Waiting(_, call) => Ok(Some(call.clone()?)),
        Process::Ended(_) => Ok(None),
    }
}

#[tactic(auto, using(crate::proofs::PastProcesses::none_waits))]
fn must_wait(kernel: &Kernel, pid: usize, call: &Call) -> bool
    ensures value { result ≡ must_wait kernel.now pid call.now }
{
    pid < kernel.count() && !kernel.can_go(pid, call)
}

impl State {
    /// Whether process `pid`, over a kernel, stands so. An error is want of memory.
    pub fn is_so(
        self,
        alloc: Global,
        kernel: &Kernel,
        pid: usize,
        process: &Process,
    ) -> Result<bool, AllocError>
        ensures so { IfOk result
            (λ so. so ≡ is_so self kernel.now pid (process_view process.now)) }
    {
        match self {
            State::Blocked => match process {
                Process::Running(running) => {
                    Ok(call_next(alloc, running)?.is_some_and(|call| must_wait(kernel, pid, &call)))
                }
                Process::Waiting(_, call) => Ok(must_wait(kernel, pid, call)),
                Process::Ended(_) => Ok(false),
            },
            State::Ended => Ok(matches!(process, Process::Ended(_))),
            State::Crashed => Ok(
                matches!(process, Process::Ended(ended) if !matches!(ended.how(), How::Halt)),
            ),
            State::At { first, last } => {
                let pc = process.machine().pc();
                Ok(first <= pc && pc <= last && call_of(alloc, process)?.is_some())
            }
        }
    }
}

fn messages_at(kernel: &Kernel, place: u8) -> usize
    ensures count { result ≡ messages_at (place_at kernel.now.places place) }
    ensures few { result < 2 ^ 16 }
{
    match kernel.queue_at(place) {
        Some((_, queue)) => usize::from(queue.attr().2),
        None => 0,
    }
}

/// How many messages are in all queues of a kernel, with and without names.
#[tactic(auto, using(crate::proofs::MessageCounts::messages_more))]
pub fn messages_in(kernel: &Kernel) -> usize
    ensures count { result ≡ messages kernel.now }
{
    let mut count = 0;
    for place in 0..OBJECT_PLACES as u8 {
        count += messages_at(kernel, place);
    }
    count
}

/// Whether a process is about to receive a message, or waits for one. An error is want of memory.
pub fn is_receiving(alloc: Global, process: &Process) -> Result<bool, AllocError>
    ensures value { IfOk result
        (λ receiving. receiving ≡ is_receiving (process_view process.now)) }
{
    match process {
        Process::Running(running) => Ok(matches!(
            call_next(alloc, running)?,
            Some(Call::MqReceive { .. })
        )),
        Process::Waiting(_, call) => Ok(matches!(call, Call::MqReceive { .. })),
        Process::Ended(_) => Ok(false),
    }
}
