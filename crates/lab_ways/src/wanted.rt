//! What is asked of the calls that are answered with success.
ghost use Rattle.std.specs.Prelude.{◌≡◌, ◌+◌, ◌<◌, ◌==◌, ℕ, false, length, IfOk, ◌*◌, ◌||◌};
ghost use Rattle.ipc_kernel.specs.Answer.{answer};
ghost use Rattle.ipc_kernel.specs.Kernel.{KernelState};
ghost use Rattle.ipc_kernel.specs.declared.call.Answer.{Answer as Given};
ghost use Rattle.lab_conditions.specs.Refusals.{is_process};
ghost use Rattle.lab_ways.specs.Calls.{is_success, is_called};
ghost use Rattle.lab_ways.specs.Wanted.{next_turn, next_by, next_answered, is_allowed, is_accepted, next_held, next_units, are_held};
ghost use Rattle.ipc_traps.specs.declared.service.Service.TheVariants.{SemWait, SemTrywait, SemPost};

use crate::calls::{CallKind, are_called, calls_name, is_called, is_of_any, is_success};
use ipc_kernel::{Call, Kernel};
use ipc_names::Name;
use ipc_traps::Service;
use lab_states::place_of;
use lab_worlds::ExploreFault;

/// The most states that what is asked may have. `AtLeast` has one more than it counts, `InOrder` two more
/// than it has kinds, and `Together` for each name twice as many. For more, memory is refused.
pub const MOST_STATES: usize = 1_024;

/// What is asked of calls that are answered with success, on each way.
#[derive(Drop)]
pub enum Pattern {
    /// So many of these are made before an end, at least.
    AtLeast(CallKind, u32),
    /// Of the calls that are of one of these kinds, exactly these are made before an end, in this order.
    InOrder(Vec<CallKind>),
    /// At some moment before an end a unit of each of these semaphores is taken, and not given back since.
    Together(Vec<Name>),
    /// None of these is ever made.
    NoneOf(Vec<CallKind>),
    /// No call is ever made, but the end of a process, that is of none of these kinds.
    NoneBut(Vec<CallKind>),
}

/// What is asked of the calls of one process, or of all processes.
#[derive(Drop)]
pub struct Wanted {
    pub process: Option<usize>,
    pub pattern: Pattern,
}

fn one_more(number: u32) -> Result<u32, ExploreFault>
    ensures value { IfOk result (λ n. n ≡ number + 1) }
{
    number.checked_add(1).ok_or(ExploreFault::NoMemory)
}

fn next_turn(
    kinds: &[CallKind],
    turn: u32,
    kernel: &Kernel,
    pid: usize,
    call: &Call,
) -> Result<u32, ExploreFault>
    requires process { pid < length kernel.now.processes }
    ensures value { IfOk result (λ n. n ≡ next_turn kinds.now turn kernel.now pid call.now) }
{
    if !is_of_any(kinds, kernel, pid, call) {
        return Ok(turn);
    }
    let next = kinds
        .get(turn as usize)
        .is_some_and(|kind| kind.is_of(kernel, pid, call));
    if next {
        return one_more(turn);
    }
    one_more(place_of(kinds.len())?)
}

impl Pattern {
    pub(crate) fn states(&self) -> usize {
        match self {
            Pattern::AtLeast(_, count) => (*count as usize).saturating_add(1),
            Pattern::InOrder(kinds) => kinds.len().saturating_add(2),
            Pattern::Together(names) => {
                names
                    .iter()
                    .fold(1, |count: usize, _| count.saturating_mul(2))
            }
            Pattern::NoneOf(_) | Pattern::NoneBut(_) => 2,
        }
    }

    /// Whether a call may make another state, by its name.
    fn reads(&self, call: &Call) -> bool
        ensures no { result ≡ false → (s : ℕ) (k : KernelState) (p : ℕ)
            → next_by self.now s k p call.now ≡ s }
    {
        match self {
            Pattern::AtLeast(kind, _) => is_called(kind.service, call),
            Pattern::InOrder(kinds) => are_called(kinds, call),
            Pattern::NoneOf(kinds) => are_called(kinds, call),
            Pattern::Together(_) => moves_units(call),
            Pattern::NoneBut(_) => !matches!(call, Call::Exit),
        }
    }

    /// The state after a call of process `pid` that is answered with success.
    fn next(
        &self,
        state: u32,
        kernel: &Kernel,
        pid: usize,
        call: &Call,
    ) -> Result<u32, ExploreFault>
        requires process { pid < length kernel.now.processes }
        ensures value { IfOk result (λ n. n ≡ next_by self.now state kernel.now pid call.now) }
    {
        match self {
            Pattern::AtLeast(kind, _) if !kind.is_of(kernel, pid, call) => Ok(state),
            Pattern::AtLeast(_, most) if state < *most => Ok(state + 1),
            Pattern::AtLeast(_, most) => Ok(*most),
            Pattern::InOrder(kinds) => next_turn(kinds, state, kernel, pid, call),
            Pattern::Together(names) if are_held(names, state) => Ok(state),
            Pattern::Together(names) => next_units(names, state, kernel, pid, call),
            Pattern::NoneOf(kinds) if is_of_any(kinds, kernel, pid, call) => Ok(1),
            Pattern::NoneOf(_) => Ok(state),
            Pattern::NoneBut(_) if matches!(call, Call::Exit) => Ok(state),
            Pattern::NoneBut(kinds) if is_of_any(kinds, kernel, pid, call) => Ok(state),
            Pattern::NoneBut(_) => Ok(1),
        }
    }

    /// Whether a state is one that may be, ever.
    pub(crate) fn allows(&self, state: u32) -> bool
        ensures value { result ≡ is_allowed self.now state }
    {
        match self {
            Pattern::AtLeast(..) | Pattern::InOrder(_) | Pattern::Together(_) => true,
            Pattern::NoneOf(_) | Pattern::NoneBut(_) => state == 0,
        }
    }

    /// Whether it is one that may be where no process goes on.
    pub(crate) fn accepts(&self, state: u32) -> bool
        ensures value { result ≡ is_accepted self.now state }
    {
        match self {
            Pattern::AtLeast(_, count) => *count <= state,
            Pattern::InOrder(kinds) => state as usize == kinds.len(),
            Pattern::Together(names) => are_held(names, state),
            Pattern::NoneOf(_) | Pattern::NoneBut(_) => true,
        }
    }
}

impl Wanted {
    fn is_process(&self, pid: usize) -> bool
        ensures value { result ≡ is_process self.now.process pid }
    {
        self.process.is_none_or(|process| pid == process)
    }

    /// Whether a call of process `pid` may make another state, by its process and name.
    pub(crate) fn reads(&self, pid: usize, call: &Call) -> bool
        ensures no { result ≡ false → (s : ℕ) (k : KernelState) (a : Given)
            → next_answered self.now s k pid call.now a ≡ s }
    {
        if !self.is_process(pid) {
            return false;
        }
        self.pattern.reads(call)
    }

    /// The state after a call of process `pid`, which the kernel must know.
    pub(crate) fn next(
        &self,
        state: u32,
        kernel: &Kernel,
        pid: usize,
        call: &Call,
    ) -> Result<u32, ExploreFault>
        ensures value { IfOk result (λ n. n ≡ next_answered self.now state kernel.now pid call.now
            (answer kernel.now pid call.now).0) }
    {
        if !self.is_process(pid) {
            return Ok(state);
        }
        if pid >= kernel.count() {
            return Err(ExploreFault::Unvouched);
        }
        let answer = kernel.answer(pid, call)?;
        if !is_success(&answer) {
            return Ok(state);
        }
        self.pattern.next(state, kernel, pid, call)
    }
}

/// Whether a call takes a unit of a semaphore, by its name.
fn takes(call: &Call) -> bool
    ensures value { result ≡ (is_called SemWait call.now || is_called SemTrywait call.now) }
{
    is_called(Service::SemWait, call) || is_called(Service::SemTrywait, call)
}

/// Whether it gives one back.
fn gives(call: &Call) -> bool
    ensures value { result ≡ is_called SemPost call.now }
{
    is_called(Service::SemPost, call)
}

fn moves_units(call: &Call) -> bool
    ensures value { result ≡ (is_called SemWait call.now || is_called SemTrywait call.now
        || is_called SemPost call.now) }
{
    takes(call) || gives(call)
}

/// Whether a unit of the semaphore is held after a call, 1 or 0.
fn next_held(name: &Name, held: u32, kernel: &Kernel, pid: usize, call: &Call) -> u32
    requires process { pid < length kernel.now.processes }
    ensures value { result ≡ next_held name.now held kernel.now pid call.now }
{
    if takes(call) && calls_name(kernel, pid, call, name) {
        return 1;
    }
    if gives(call) && calls_name(kernel, pid, call, name) {
        return 0;
    }
    held
}

/// The number behind a lowest digit.
fn behind(digit: u32, rest: u32) -> Result<u32, ExploreFault>
    ensures value { IfOk result (λ n. n ≡ digit + 2 * rest) }
{
    let twice = rest.checked_mul(2).ok_or(ExploreFault::NoMemory)?;
    twice.checked_add(digit).ok_or(ExploreFault::NoMemory)
}

/// What is held after a call.
fn next_units(
    names: &[Name],
    held: u32,
    kernel: &Kernel,
    pid: usize,
    call: &Call,
) -> Result<u32, ExploreFault>
    requires process { pid < length kernel.now.processes }
    ensures value { IfOk result (λ n. n ≡ next_units names.now held kernel.now pid call.now) }
{
    let Some((name, rest)) = names.split_first() else {
        return Ok(held);
    };
    let digit = next_held(name, held % 2, kernel, pid, call);
    let others = next_units(rest, held / 2, kernel, pid, call)?;
    let number = behind(digit, others)?;
    Ok(number)
}

/// Whether units of all are held.
fn are_held(names: &[Name], held: u32) -> bool
    ensures value { result ≡ are_held names.now held }
{
    let Some((_, rest)) = names.split_first() else {
        return true;
    };
    if held % 2 == 1 {
        return are_held(rest, held / 2);
    }
    false
}
