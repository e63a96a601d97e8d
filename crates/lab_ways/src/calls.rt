//! Calls of a kind.
ghost use Rattle.std.specs.Prelude.{◌≡◌, ◌&&◌, ◌<◌, bytes_eq, length};
ghost use Rattle.std.specs.List.{list_any};
ghost use Rattle.std.specs.Option.{option_copied};
ghost use Rattle.ipc_kernel.specs.Places.{place_at, is_name};
ghost use Rattle.lab_ways.specs.Calls.{call_name, object_name, name_called, is_called, is_on, is_of, is_of_any, is_success};

use ipc_kernel::{Answer, Call, Kernel, Reply};
use ipc_names::Name;
use ipc_traps::Service;

/// Calls of one name, on the object of one name or on any.
#[derive(Drop)]
pub struct CallKind {
    pub service: Service,
    pub object: Option<Name>,
}

fn call_name(call: &Call) -> &'static str
    ensures name { result.now ≡ call_name call.now }
{
    match call {
        Call::MqOpen { .. } => "mq_open",
        Call::MqClose { .. } => "mq_close",
        Call::MqUnlink { .. } => "mq_unlink",
        Call::MqSend { .. } => "mq_send",
        Call::MqReceive { .. } => "mq_receive",
        Call::MqGetattr { .. } => "mq_getattr",
        Call::MqSetattr { .. } => "mq_setattr",
        Call::SemOpen { .. } => "sem_open",
        Call::SemClose { .. } => "sem_close",
        Call::SemUnlink { .. } => "sem_unlink",
        Call::SemWait { .. } => "sem_wait",
        Call::SemTrywait { .. } => "sem_trywait",
        Call::SemPost { .. } => "sem_post",
        Call::SemGetvalue { .. } => "sem_getvalue",
        Call::Exit => "_exit",
    }
}

fn is_text(text: &str, other: &str) -> bool
    ensures same { result ≡ bytes_eq text.now other.now }
{
    text == other
}

fn is_name(name: &Name, other: Option<&Name>) -> bool
    ensures same { result ≡ is_name name.now (option_copied other.entry) }
{
    other.is_some_and(|other| is_text(name.text(), other.text()))
}

fn is_named(kernel: &Kernel, place: u8, name: &Name) -> bool
    ensures same { result ≡ is_name name.now (object_name (place_at kernel.now.places place)) }
{
    if let Some((other, _)) = kernel.queue_at(place) {
        return is_name(name, other);
    }
    match kernel.semaphore_at(place) {
        Some((other, _)) => is_name(name, other),
        None => false,
    }
}

pub(crate) fn calls_name(kernel: &Kernel, pid: usize, call: &Call, name: &Name) -> bool
    requires process { pid < length kernel.now.processes }
    ensures same { result ≡ is_name name.now (name_called kernel.now pid call.now) }
{
    match call {
        Call::MqOpen { name: other, .. }
        | Call::MqUnlink { name: other }
        | Call::SemOpen { name: other, .. }
        | Call::SemUnlink { name: other } => is_text(name.text(), other.text()),
        Call::MqClose { mqd }
        | Call::MqSend { mqd, .. }
        | Call::MqReceive { mqd, .. }
        | Call::MqGetattr { mqd }
        | Call::MqSetattr { mqd, .. } => kernel
            .mqd(pid, *mqd)
            .is_some_and(|held| is_named(kernel, held.place, name)),
        Call::SemClose { slot }
        | Call::SemWait { slot }
        | Call::SemTrywait { slot }
        | Call::SemPost { slot }
        | Call::SemGetvalue { slot } => kernel
            .slot(pid, *slot)
            .is_some_and(|held| is_named(kernel, held.place, name)),
        Call::Exit => false,
    }
}

pub(crate) fn is_success(answer: &Answer) -> bool
    ensures value { result ≡ is_success answer.now }
{
    match answer {
        Answer::Done(Reply::Plain(word)) => *word < 0x8000,
        Answer::Done(_) => true,
        Answer::Wait => false,
    }
}

pub(crate) fn is_called(service: Service, call: &Call) -> bool
    ensures value { result ≡ is_called service call.now }
{
    is_text(service.name(), call_name(call))
}

impl CallKind {
    fn is_on(&self, kernel: &Kernel, pid: usize, call: &Call) -> bool
        requires process { pid < length kernel.now.processes }
        ensures value { result ≡ is_on self.now.object kernel.now pid call.now }
    {
        match &self.object {
            Some(name) => calls_name(kernel, pid, call, name),
            None => true,
        }
    }

    pub(crate) fn is_of(&self, kernel: &Kernel, pid: usize, call: &Call) -> bool
        requires process { pid < length kernel.now.processes }
        ensures value { result ≡ is_of self.now kernel.now pid call.now }
    {
        is_called(self.service, call) && self.is_on(kernel, pid, call)
    }
}

/// Whether a call is of one of these kinds by its name.
pub(crate) fn are_called(kinds: &[CallKind], call: &Call) -> bool
    ensures value { result ≡ list_any (λ x. is_called x.service call.now) kinds.now }
{
    kinds.iter().any(|kind| is_called(kind.service, call))
}

pub(crate) fn is_of_any(kinds: &[CallKind], kernel: &Kernel, pid: usize, call: &Call) -> bool
    requires process { pid < length kernel.now.processes }
    ensures value { result ≡ is_of_any kinds.now kernel.now pid call.now }
{
    kinds.iter().any(|kind| kind.is_of(kernel, pid, call))
}
