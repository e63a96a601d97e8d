//! Where the messages in queues come from.
ghost use Rattle.std.specs.Prelude.{◌≡◌, ◌<◌, ◌==◌, OnOk, IfSome, length, position};
ghost use Rattle.ipc_kernel.specs.Outcomes.{queue_at};
ghost use Rattle.lab_told.specs.Origins.{is_in, is_below, origins_after};

use crate::told::Act;
use ipc_kernel::Kernel;
use ipc_traps::Service;
use std::alloc::AllocError;

/// Where a message comes from.
#[derive(Clone, Copy, Debug, PartialEq, Eq)]
pub struct Origin {
    /// The place of its queue.
    pub place: u8,
    /// Its priority.
    pub priority: u16,
    /// The step that sent it.
    pub step: u32,
    /// The process that sent it.
    pub pid: usize,
}

/// The first message of a queue that has a lesser priority.
fn index_below(origins: &[Origin], place: u8, priority: u16) -> Option<usize>
    ensures value { result ≡ position (is_below place priority) origins.now }
    ensures within { IfSome result (λ i. i < length origins.now) }
{
    origins.iter().position(|origin| origin.place == place && origin.priority < priority)
}

/// The first message of a queue.
fn index_in(origins: &[Origin], place: u8) -> Option<usize>
    ensures value { result ≡ position (is_in place) origins.now }
    ensures within { IfSome result (λ i. i < length origins.now) }
{
    origins.iter().position(|origin| origin.place == place)
}

/// Whether the queue in a place has no messages.
fn is_unused(kernel: &Kernel, place: u8) -> bool
    ensures value { result ≡ (length (queue_at kernel.now place).messages == 0) }
{
    match kernel.queue_at(place) {
        Some((_, queue)) => queue.attr().2 == 0,
        None => true,
    }
}

/// Keeps where messages come from, those of one queue in the order of receive, after what process `pid` did in step `number`, by
/// the kernel after it.
pub fn keep_origins(
    origins: &mut Vec<Origin>,
    kernel: &Kernel,
    number: u32,
    pid: usize,
    act: &Act,
) -> Result<(), AllocError>
    ensures kept { OnOk result (origins.new.items
        ≡ origins_after kernel.now number pid act.now origins.old.items) }
{
    let Act::Calls(call) = act else {
        return Ok(());
    };
    match call.done() {
        Some((Service::MqOpen, place)) if is_unused(kernel, place) => {
            origins.retain(|origin| origin.place != place);
        }
        Some((Service::MqSend, place)) => {
            let origin = Origin {
                place,
                priority: call.priority,
                step: number,
                pid,
            };
            match index_below(origins, place, origin.priority) {
                Some(index) => origins.insert(index, origin)?,
                None => origins.push(origin)?,
            }
        }
        Some((Service::MqReceive, place)) => {
            if let Some(index) = index_in(origins, place) {
                let _ = origins.remove(index);
            }
        }
        _ => {}
    }
    Ok(())
}
