//! Kernels that are alike: equal but for the numbers of their places. These are worked cases; that the digests of kernels
//! that are alike are equal is in no contract.
use crate::support::{Q, copy_of, kernel_of, mq_open, name, sem_open, succeeds};
use ipc_kernel::{Call, Kernel};
use ipc_store::is_alike;
use std::alloc::Global;
use std::process::Abort;

/// Each kernel is the other with its places renamed, and isn't the other as it is; their digests are equal.
fn are_alike(rt: &impl Abort, one: &Kernel, other: &Kernel) {
    assert!(rt; !one.is_same(other), "not the same");
    assert!(rt; is_alike(one, other) && is_alike(other, one), "alike");
    assert!(rt; one.digest() == other.digest(), "the digest");
}

/// Neither of two kernels is the other with its places renamed, and their digests differ.
fn are_apart(rt: &impl Abort, one: &Kernel, other: &Kernel) {
    assert!(rt; !is_alike(one, other) && !is_alike(other, one), "not alike");
    assert!(rt; one.digest() != other.digest(), "the digests");
}

/// A kernel of two processes, of which process 0 has made the queue `/q` first and process 1 then the semaphore `/s`.
fn queue_first(rt: &impl Abort, alloc: Global) -> Kernel {
    let mut kernel = kernel_of(rt, alloc, 2);
    succeeds(rt, alloc, &mut kernel, 0, mq_open(rt, alloc, 0x42));
    succeeds(rt, alloc, &mut kernel, 1, sem_open(rt, alloc));
    kernel
}

/// The same, made in the other order.
fn semaphore_first(rt: &impl Abort, alloc: Global) -> Kernel {
    let mut kernel = kernel_of(rt, alloc, 2);
    succeeds(rt, alloc, &mut kernel, 1, sem_open(rt, alloc));
    succeeds(rt, alloc, &mut kernel, 0, mq_open(rt, alloc, 0x42));
    kernel
}

fn mq_unlink(rt: &impl Abort, alloc: Global) -> Call {
    Call::MqUnlink {
        name: name(rt, alloc, &Q),
    }
}

#[test]
fn kernels_of_another_order_are_alike(rt: HostRuntime) {
    let alloc = rt.alloc();
    let mut one = queue_first(&rt, alloc);
    let mut other = semaphore_first(&rt, alloc);
    are_alike(&rt, &one, &other);
    succeeds(&rt, alloc, &mut one, 1, Call::SemPost { slot: 0 });
    are_apart(&rt, &one, &other);
    succeeds(&rt, alloc, &mut other, 1, Call::SemPost { slot: 0 });
    are_alike(&rt, &one, &other);
}

#[test]
fn an_unlinked_queue_is_found_by_its_descriptor(rt: HostRuntime) {
    let alloc = rt.alloc();
    let mut one = queue_first(&rt, alloc);
    let mut other = semaphore_first(&rt, alloc);
    let named = copy_of(&rt, alloc, &one);
    succeeds(&rt, alloc, &mut one, 1, mq_unlink(&rt, alloc));
    are_apart(&rt, &one, &named);
    succeeds(&rt, alloc, &mut other, 1, mq_unlink(&rt, alloc));
    are_alike(&rt, &one, &other);
}

#[test]
fn who_has_an_object_open_counts(rt: HostRuntime) {
    let alloc = rt.alloc();
    let mut one = queue_first(&rt, alloc);
    let mut other = semaphore_first(&rt, alloc);
    succeeds(&rt, alloc, &mut one, 0, sem_open(&rt, alloc));
    are_apart(&rt, &one, &other);
    succeeds(&rt, alloc, &mut other, 1, sem_open(&rt, alloc));
    are_apart(&rt, &one, &other);
}
