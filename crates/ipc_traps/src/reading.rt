//! The call that a process makes.
ghost use Rattle.std.specs.Prelude.{◌≡◌, IfOk, ◌<◌, true, ℕ, Result, Ok, Err, ◌+◌, ◌≤◌, false, IfSome, MatchOption, take, length, ◌∷◌, []};
ghost use Rattle.lc3_machine.specs.Process.{Stops, reg};
ghost use Rattle.lc3_machine.specs.Effects.{next_step};
ghost use Rattle.lc3_machine.specs.declared.want.Want.TheVariants.{Trap};
ghost use Rattle.ipc_kernel.specs.declared.call.Call.TheVariants.{MqUnlink, SemUnlink};
ghost use Rattle.ipc_traps.specs.Names.{is_in_memory, words_at, name_length, reaches_devices};
ghost use Rattle.ipc_traps.specs.Asked.{request_of, next_request, kernel_request, service_request, request_within, Calls, name_at, request_by_name, has_attributes, mq_open_request, sem_open_request, mq_send_request, mq_receive_request};

use crate::{Asked, Service};
use ipc_kernel::Call;
use ipc_names::{Errno, Name, O_CREAT};
use ipc_objects::{FEW_WORDS, FewWords, Words};
use lc3_machine::{AtCall, Machine, Want};
use lc3_word::{FIRST_DEVICE, Reg};
use std::alloc::{AllocError, Global};

/// What a process asks of the kernel by the trap with this vector, which it stands before, or the refusal. The arguments
/// are as they stand in the registers and in memory, not yet tested. An error is want of memory.
// The calls that are made most are read here, so that little is compiled for each of their vectors.
#[tactic(auto, unfolding(crate::specs::Asked::next_request))]
#[inline(always)]
pub fn read_by_vector(alloc: Global, machine: &Machine, vector: u8) -> Result<Asked, AllocError>
    requires trap { next_step machine.now.process ≡ Stops (Trap vector) }
    ensures asked { IfOk result (λ a. next_request machine.now.process ≡ request_of a) }
{
    let slot = register(machine, 0);
    match Service::of_vector(vector) {
        Some(Service::MqSend) => read_send(alloc, machine),
        Some(Service::MqReceive) => Ok(read_receive(machine)),
        Some(Service::SemWait) => Ok(Asked::Kernel(Call::SemWait { slot })),
        Some(Service::SemPost) => Ok(Asked::Kernel(Call::SemPost { slot })),
        Some(service) => read_service(alloc, machine, service),
        None => Ok(Asked::Kernel(Call::Exit)),
    }
}

/// What a process asks of the kernel by the call that it stands before, or the refusal; its end asks for `Exit`. An error
/// is want of memory.
#[tactic(auto, unfolding(crate::specs::Asked::next_request, crate::specs::Asked::kernel_request))]
pub fn read_call(alloc: Global, call: &AtCall) -> Result<Asked, AllocError>
    ensures asked { IfOk result (λ a. kernel_request call.now.process ≡ request_of a) }
{
    match call.want() {
        Want::Trap(vector) => read_by_vector(alloc, call.machine(), vector),
        Want::End(_) => Ok(Asked::Kernel(Call::Exit)),
    }
}

/// A call whose memory ranges must lie below the device registers.
fn within(inside: bool, call: Call) -> Asked
    ensures request { request_of result ≡ request_within inside (Calls call) }
{
    if inside {
        Asked::Kernel(call)
    } else {
        Asked::Refused(Errno::Fault)
    }
}

#[inline(always)]
fn read_receive(machine: &Machine) -> Asked
    ensures request { request_of result ≡ mq_receive_request machine.now.process }
{
    let (len, prio_at) = (register(machine, 2), register(machine, 3));
    if !is_in_memory(register(machine, 1), len) || (prio_at != 0 && !is_in_memory(prio_at, 1)) {
        return Asked::Refused(Errno::Fault);
    }
    Asked::Kernel(Call::MqReceive {
        mqd: register(machine, 0),
        len,
    })
}

#[inline(never)]
fn read_service(alloc: Global, machine: &Machine, service: Service) -> Result<Asked, AllocError>
    ensures request { IfOk result (λ a. request_of a
        ≡ service_request service machine.now.process) }
{
    let (first, at) = (register(machine, 0), register(machine, 1));
    match service {
        Service::MqOpen => read_open(alloc, machine),
        Service::MqClose => Ok(Asked::Kernel(Call::MqClose { mqd: first })),
        Service::MqUnlink => read_unlink(alloc, machine),
        Service::MqSend => read_send(alloc, machine),
        Service::MqReceive => Ok(read_receive(machine)),
        Service::MqGetattr => Ok(within(is_in_memory(at, 4), Call::MqGetattr { mqd: first })),
        Service::MqSetattr => {
            let old_at = register(machine, 2);
            let inside = is_in_memory(at, 4) && (old_at == 0 || is_in_memory(old_at, 4));
            let flags = machine.word(at);
            Ok(within(inside, Call::MqSetattr { mqd: first, flags }))
        }
        Service::SemOpen => read_sem_open(alloc, machine),
        Service::SemClose => Ok(Asked::Kernel(Call::SemClose { slot: first })),
        Service::SemUnlink => read_sem_unlink(alloc, machine),
        Service::SemWait => Ok(Asked::Kernel(Call::SemWait { slot: first })),
        Service::SemTrywait => Ok(Asked::Kernel(Call::SemTrywait { slot: first })),
        Service::SemPost => Ok(Asked::Kernel(Call::SemPost { slot: first })),
        Service::SemGetvalue => Ok(within(is_in_memory(at, 1), Call::SemGetvalue { slot: first })),
    }
}

/// The name at the address in R0, or why it is refused.
#[tactic(auto, unfolding(crate::specs::Asked::name_at))]
fn read_name(alloc: Global, machine: &Machine) -> Result<Result<Name, Errno>, AllocError>
    ensures name { IfOk result (λ read. read ≡ name_at machine.now.process) }
{
    let at = register(machine, 0);
    let Some(len) = name_length(machine, at) else {
        return Ok(Err(Errno::Fault));
    };
    let words = read_words(alloc, machine, at, len)?;
    Name::read(alloc, &words)
}

/// Whether mq_open is given attributes: O_CREAT is set, and R2 isn't 0.
fn has_attributes(machine: &Machine) -> bool
    ensures given { result ≡ has_attributes machine.now.process }
{
    register(machine, 1) & O_CREAT != 0 && register(machine, 2) != 0
}

fn read_open(alloc: Global, machine: &Machine) -> Result<Asked, AllocError>
    ensures request { IfOk result (λ a. request_of a ≡ mq_open_request machine.now.process) }
{
    if has_attributes(machine) && !is_in_memory(register(machine, 2), 4) {
        return Ok(Asked::Refused(Errno::Fault));
    }
    match read_name(alloc, machine)? {
        Err(e) => Ok(Asked::Refused(e)),
        Ok(name) => Ok(Asked::Kernel(Call::MqOpen {
            name,
            flags: register(machine, 1),
            attr: if has_attributes(machine) {
                Some(read_four(machine, register(machine, 2)))
            } else {
                None
            },
        })),
    }
}

fn read_unlink(alloc: Global, machine: &Machine) -> Result<Asked, AllocError>
    ensures request { IfOk result (λ a. request_of a
        ≡ request_by_name machine.now.process true MqUnlink) }
{
    match read_name(alloc, machine)? {
        Err(e) => Ok(Asked::Refused(e)),
        Ok(name) => Ok(Asked::Kernel(Call::MqUnlink { name })),
    }
}

fn read_sem_open(alloc: Global, machine: &Machine) -> Result<Asked, AllocError>
    ensures request { IfOk result (λ a. request_of a ≡ sem_open_request machine.now.process) }
{
    match read_name(alloc, machine)? {
        Err(e) => Ok(Asked::Refused(e)),
        Ok(name) => Ok(Asked::Kernel(Call::SemOpen {
            name,
            flags: register(machine, 1),
            value: register(machine, 2),
        })),
    }
}

fn read_sem_unlink(alloc: Global, machine: &Machine) -> Result<Asked, AllocError>
    ensures request { IfOk result (λ a. request_of a
        ≡ request_by_name machine.now.process true SemUnlink) }
{
    match read_name(alloc, machine)? {
        Err(e) => Ok(Asked::Refused(e)),
        Ok(name) => Ok(Asked::Kernel(Call::SemUnlink { name })),
    }
}

fn read_message(alloc: Global, machine: &Machine, at: u16, len: u16) -> Result<Words, AllocError>
    requires range { is_in_memory at len ≡ true }
    ensures words { IfOk result (λ words. words ≡ words_at machine.now.process.memory at len) }
{
    if len as usize <= FEW_WORDS {
        return Ok(Words::from_few(read_few(machine, at, len)));
    }
    Words::from_vec(read_words(alloc, machine, at, len)?)
}

fn read_send(alloc: Global, machine: &Machine) -> Result<Asked, AllocError>
    ensures request { IfOk result (λ a. request_of a ≡ mq_send_request machine.now.process) }
{
    let at = register(machine, 1);
    let len = register(machine, 2);
    if !is_in_memory(at, len) {
        return Ok(Asked::Refused(Errno::Fault));
    }
    let words = read_message(alloc, machine, at, len)?;
    Ok(Asked::Kernel(Call::MqSend {
        mqd: register(machine, 0),
        words,
        prio: register(machine, 3),
    }))
}

#[inline(always)]
pub(crate) fn register(machine: &Machine, number: u16) -> u16
    requires number { number < 8 }
    ensures word { result ≡ reg machine.now.process number }
{
    machine.reg(Reg::of_low_bits(number))
}

/// Whether a range lies below the device registers.
pub fn is_in_memory(at: u16, len: u16) -> bool
    ensures inside { result ≡ is_in_memory at len }
{
    len == 0 || at as u32 + len as u32 <= FIRST_DEVICE as u32
}

/// The words of a range.
pub fn read_words(
    alloc: Global,
    machine: &Machine,
    at: u16,
    len: u16,
) -> Result<Vec<u16>, AllocError>
    requires range { is_in_memory at len ≡ true }
    ensures words { IfOk result (λ v. v.items ≡ words_at machine.now.process.memory at len) }
{
    let mut words = Vec::with_capacity(alloc, len as usize)?;
    for k in 0..len {
        words.push(machine.word(at + k))?;
    }
    Ok(words)
}

fn read_few(machine: &Machine, at: u16, len: u16) -> FewWords
    requires range { is_in_memory at len ≡ true }
    requires few { len ≤ FEW_WORDS }
    ensures words { result ≡ words_at machine.now.process.memory at len }
{
    let mut words = FewWords::new();
    for k in 0..len {
        words.push(machine.word(at + k));
    }
    words
}

fn read_four(machine: &Machine, at: u16) -> [u16; 4]
    requires range { is_in_memory at 4 ≡ true }
    ensures words { result ≡ words_at machine.now.process.memory at 4 }
{
    [
        machine.word(at),
        machine.word(at + 1),
        machine.word(at + 2),
        machine.word(at + 3),
    ]
}

/// How many words are looked at for a name, at most: one more than a name has.
pub const WINDOW_MAX: u16 = 256;

/// How many words stand before the x0000 that ends a name, at most `WINDOW_MAX`; none if it reaches the device registers
/// before so many.
pub fn name_length(machine: &Machine, at: u16) -> Option<u16>
    ensures name { MatchOption result (reaches_devices machine.now.process.memory at ≡ true)
        (λ n. (reaches_devices machine.now.process.memory at ≡ false)
        × (name_length machine.now.process.memory at ≡ n)) }
    ensures inside { IfSome result (λ n. is_in_memory at n ≡ true) }
{
    // A look at memory, whose contract says that there are 65,536 words.
    let _ = machine.word(at);
    for k in 0..WINDOW_MAX {
        if at as u32 + k as u32 >= FIRST_DEVICE as u32 {
            return None;
        }
        if machine.word(at + k) == 0 {
            return Some(k);
        }
    }
    Some(WINDOW_MAX)
}
