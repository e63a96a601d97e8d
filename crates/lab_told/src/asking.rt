//! What a trace looks at before a step.
ghost use Rattle.std.specs.Prelude.{◌≡◌, ◌<◌, IfOk, length, slice_get, ◌++◌, Some, OnOk, string_bytes};
ghost use Rattle.lab_told.specs.Questions.{before_in};
ghost use Rattle.lab_sched.specs.Held.{process_view};
ghost use Rattle.lab_sched.specs.Worlds.{machine_of};
ghost use Rattle.lab_told.specs.Calls.{attributes_asked, mq_open_arguments, sem_open_arguments, further_arguments, arguments, object_called, sent_words};
ghost use Rattle.lab_told.specs.Attributes.{sizes_text, attributes_text};

use crate::flags::{AttributeFlags, MqFlags, SemFlags, has_flag};
use crate::handles::{Handle, Object, held_place};
use crate::message::{BareName, Pointer, QuotedName, Signed, push_buffer, register};
use crate::text::Text;
use crate::told::service_at;
use ipc_kernel::Kernel;
use ipc_names::O_CREAT;
use ipc_objects::Words;
use ipc_traps::{Service, is_in_memory, read_words};
use lab_sched::{Process, World};
use lc3_word::Hex;
use std::alloc::{AllocError, Global};
use std::fmt;

/// A call that a process is about to make.
#[derive(Drop)]
pub struct Asking {
    pub service: Service,
    /// Its arguments, as a trace writes them.
    pub arguments: Text,
    /// What it is on, by a name where there is one.
    pub object: Text,
    /// The place of the object that a descriptor or a slot stands for.
    pub place: Option<u8>,
    /// The words of a message that it sends, where they lie in memory.
    pub sent: Option<Words>,
    /// R3, of mq_send the priority.
    pub priority: u16,
    /// Whether it wants the attributes of a queue that it is answered.
    pub wants_attributes: bool,
}

/// A process before its step.
#[derive(Drop)]
pub struct Observed {
    pub pc: u16,
    /// The word at the program counter.
    pub word: u16,
    /// How many bytes the process has written.
    pub written: usize,
    /// The call that it is about to make.
    pub asking: Option<Asking>,
}

/// Process `pid` of a world before its step.
pub fn observe(alloc: Global, world: &World, pid: usize) -> Result<Observed, AllocError>
    requires process { pid < length world.now.processes }
    ensures before { IfOk result (λ o. o
        ≡ before_in world.now.kernel pid (slice_get world.now.processes pid)) }
{
    let Some(process) = world.process(pid) else {
        return Ok(Observed {
            pc: 0,
            word: 0,
            written: 0,
            asking: None,
        });
    };
    let (kernel, machine) = (world.kernel(), process.machine());
    let pc = machine.pc();
    let asking = match service_at(process) {
        Some(service) => {
            let place = if service.is_by_name() {
                None
            } else {
                held_place(kernel, pid, service, register(process, 0))
            };
            Some(Asking {
                service,
                arguments: arguments_of(alloc, kernel, pid, process, service)?,
                object: object_called(alloc, kernel, pid, process, service)?,
                place,
                sent: sent_words(alloc, process, service)?,
                priority: register(process, 3),
                wants_attributes: service != Service::MqSetattr || register(process, 2) != 0,
            })
        }
        None => None,
    };
    Ok(Observed {
        pc,
        word: machine.word(pc),
        written: machine.output().len(),
        asking,
    })
}

/// The attributes for mq_open at an address.
#[derive(Clone, Copy)]
struct SizesAt<'a>(&'a Process, u16);

impl fmt::Display for SizesAt<'_> {
    ghost output = { λ s. Some (attributes_asked (machine_of (process_view s.0.now)) s.1) };

    #[tactic(auto, unfolding(crate::specs::Calls::attributes_asked))]
    fn fmt<W: fmt::Write>(&self, f: &mut fmt::Formatter<W>) -> fmt::Result {
        let SizesAt(process, at) = *self;
        if at == 0 || !is_in_memory(at, 4) {
            let at = Pointer(at);
            return write!(f, "{at}");
        }
        let sizes = Sizes {
            most: process.machine().word(at + 1),
            size: process.machine().word(at + 2),
        };
        write!(f, "{sizes}")
    }
}

#[tactic(auto, unfolding(crate::specs::Calls::mq_open_arguments))]
fn push_mq_open(text: &mut String, process: &Process) -> Result<(), AllocError>
    ensures text { OnOk result (string_bytes text.new ≡ string_bytes text.old
        ++ mq_open_arguments (machine_of (process_view process.now))) }
{
    let name = QuotedName(process, register(process, 0));
    let word = register(process, 1);
    let flags = MqFlags(word);
    write!(text, "{name}, {flags}")?;
    if !has_flag(O_CREAT, word) {
        return Ok(());
    }
    let sizes = SizesAt(process, register(process, 2));
    write!(text, ", {sizes}")
}

#[tactic(auto, unfolding(crate::specs::Calls::sem_open_arguments))]
fn push_sem_open(text: &mut String, process: &Process) -> Result<(), AllocError>
    ensures text { OnOk result (string_bytes text.new ≡ string_bytes text.old
        ++ sem_open_arguments (machine_of (process_view process.now))) }
{
    let name = QuotedName(process, register(process, 0));
    let word = register(process, 1);
    let flags = SemFlags(word);
    write!(text, "{name}, {flags}")?;
    if !has_flag(O_CREAT, word) {
        return Ok(());
    }
    let value = register(process, 2);
    write!(text, ", {value}")
}

/// Adds what stands behind the descriptor or the slot.
#[tactic(auto, unfolding(crate::specs::Calls::further_arguments, crate::specs::Calls::flags_asked, crate::specs::Attributes::flags_field))]
fn push_further(text: &mut String, process: &Process, service: Service) -> Result<(), AllocError>
    ensures text { OnOk result (string_bytes text.new ≡ string_bytes text.old
        ++ further_arguments (machine_of (process_view process.now)) service) }
{
    match service {
        Service::MqSend => {
            let len = register(process, 2);
            let priority = register(process, 3);
            text.push_str(", ")?;
            push_buffer(text, process, register(process, 1), len)?;
            write!(text, ", {len}, {priority}")
        }
        Service::MqReceive => {
            let address = Hex(register(process, 1));
            let len = register(process, 2);
            let priority = Pointer(register(process, 3));
            write!(text, ", {address}, {len}, {priority}")
        }
        Service::MqGetattr | Service::SemGetvalue => {
            let address = Hex(register(process, 1));
            write!(text, ", {address}")
        }
        Service::MqSetattr => {
            let at = register(process, 1);
            let old = Pointer(register(process, 2));
            if is_in_memory(at, 4) {
                let flags = AttributeFlags(process.machine().word(at));
                write!(text, ", {{mq_flags={flags}}}, {old}")
            } else {
                let at = Hex(at);
                write!(text, ", {at}, {old}")
            }
        }
        _ => Ok(()),
    }
}

/// The arguments of a call of process `pid`.
#[tactic(auto, unfolding(crate::specs::Objects::handle_text))]
pub fn arguments_of(
    alloc: Global,
    kernel: &Kernel,
    pid: usize,
    process: &Process,
    service: Service,
) -> Result<Text, AllocError>
    requires process { pid < length kernel.now.processes }
    ensures text { IfOk result (λ t. t
        ≡ arguments kernel.now pid (machine_of (process_view process.now)) service) }
{
    let mut text = String::new(alloc);
    let number = register(process, 0);
    match service {
        Service::MqOpen => push_mq_open(&mut text, process)?,
        Service::SemOpen => push_sem_open(&mut text, process)?,
        Service::MqUnlink | Service::SemUnlink => {
            let name = QuotedName(process, number);
            write!(text, "{name}")?;
        }
        _ => {
            let place = held_place(kernel, pid, service, number);
            let handle = Handle {
                kernel,
                number,
                place,
            };
            write!(text, "{handle}")?;
            push_further(&mut text, process, service)?;
        }
    }
    Ok(Text::new(text))
}

/// What a call of process `pid` is on, by a name where there is one.
pub fn object_called(
    alloc: Global,
    kernel: &Kernel,
    pid: usize,
    process: &Process,
    service: Service,
) -> Result<Text, AllocError>
    requires process { pid < length kernel.now.processes }
    ensures text { IfOk result (λ t. t
        ≡ object_called kernel.now pid (machine_of (process_view process.now)) service) }
{
    let first = register(process, 0);
    let text = if service.is_by_name() {
        let name = BareName(process, first);
        format!(in alloc; "{name}")?
    } else if let Some(place) = held_place(kernel, pid, service, first) {
        let object = Object(kernel, place);
        format!(in alloc; "{object}")?
    } else {
        let number = Signed(first);
        format!(in alloc; "{number}")?
    };
    Ok(Text::new(text))
}

/// The words that a call sends.
pub fn sent_words(
    alloc: Global,
    process: &Process,
    service: Service,
) -> Result<Option<Words>, AllocError>
    ensures words { IfOk result (λ w. w
        ≡ sent_words (machine_of (process_view process.now)) service) }
{
    let at = register(process, 1);
    let len = register(process, 2);
    match service {
        Service::MqSend if is_in_memory(at, len) => {
            let words = read_words(alloc, process.machine(), at, len)?;
            Ok(Some(Words::from_vec(words)?))
        }
        _ => Ok(None),
    }
}

/// The attributes that mq_open asks for.
#[derive(Clone, Copy)]
pub struct Sizes {
    pub most: u16,
    pub size: u16,
}

impl fmt::Display for Sizes {
    ghost output = { λ x. Some (sizes_text x.most x.size) };

    fn fmt<W: fmt::Write>(&self, f: &mut fmt::Formatter<W>) -> fmt::Result {
        let Sizes { most, size } = *self;
        write!(f, "{{mq_maxmsg={most}, mq_msgsize={size}}}")
    }
}

/// Adds all attributes, which a call gives.
pub fn push_attributes(
    text: &mut String,
    flags: u16,
    most: u16,
    size: u16,
    count: u16,
) -> Result<(), AllocError>
    ensures text { OnOk result (string_bytes text.new ≡ string_bytes text.old
        ++ attributes_text flags most size count) }
{
    let shown = AttributeFlags(flags);
    write!(
        text,
        " {{mq_flags={shown}, mq_maxmsg={most}, mq_msgsize={size}, mq_curmsgs={count}}}"
    )?;
    Ok(())
}
