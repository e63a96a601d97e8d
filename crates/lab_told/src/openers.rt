//! Who has an object open.
ghost use Rattle.std.specs.Prelude.{◌≡◌, ◌<◌, length};
ghost use Rattle.lab_told.specs.Openers.{can_do, serves_by, has_open};

use ipc_kernel::{Descriptor, Kernel, OPEN_MAX};
use ipc_traps::Service;

/// The access to receive alone.
const RECEIVE: u8 = 0;

/// The access to send alone.
const SEND: u8 = 1;

/// Whether a descriptor refers to a place, and its access isn't this one.
fn can_do(held: Option<Descriptor>, place: u8, other: u8) -> bool
    ensures value { result ≡ can_do place other held }
{
    matches!(held, Some(held) if held.place == place && held.access != other)
}

/// Whether process `pid` could serve a call on the object in a place by what it has open under a number.
fn serves_by(kernel: &Kernel, pid: usize, place: u8, service: Service, number: u16) -> bool
    requires process { pid < length kernel.now.processes }
    ensures value { result ≡ serves_by kernel.now pid place service number }
{
    match service {
        Service::MqReceive => can_do(kernel.mqd(pid, number), place, RECEIVE),
        Service::MqSend => can_do(kernel.mqd(pid, number), place, SEND),
        _ => matches!(kernel.slot(pid, number), Some(held) if held.place == place),
    }
}

/// Whether process `pid` could serve a call on the object in a place.
#[tactic(auto, using(crate::proofs::BelowLemmas::any_below_none, crate::proofs::BelowLemmas::any_below_more))]
pub fn has_open(kernel: &Kernel, place: u8, service: Service, pid: usize) -> bool
    requires process { pid < length kernel.now.processes }
    ensures value { result ≡ has_open kernel.now place service pid }
{
    let mut found = false;
    for number in 0..OPEN_MAX as u16 {
        found = found || serves_by(kernel, pid, place, service, number);
    }
    found
}
