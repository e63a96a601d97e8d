//! Copies of kernels, calls and answers, and pairs of kernels that differ in one part alone.
use crate::support::{
    copy_of, is_message, kernel_of, mq_open, mq_send, receives, sem_open, succeeds, words_of,
};
use ipc_kernel::{Answer, Call, Kernel, Reply};
use std::alloc::Global;
use std::process::Abort;

/// Neither of two kernels is the other, and their digests differ.
fn differ(rt: &impl Abort, one: &Kernel, other: &Kernel) {
    assert!(rt; !one.is_same(other) && !other.is_same(one), "not the same");
    assert!(rt; one.digest() != other.digest(), "the digests");
}

/// A kernel of two processes, of which process 0 has made the queue `/q` and the semaphore `/s`.
fn made(rt: &impl Abort, alloc: Global) -> Kernel {
    let mut kernel = kernel_of(rt, alloc, 2);
    succeeds(rt, alloc, &mut kernel, 0, mq_open(rt, alloc, 0x42));
    succeeds(rt, alloc, &mut kernel, 0, sem_open(rt, alloc));
    kernel
}

/// A copy of a kernel after a call that replies 0, which isn't the kernel before.
fn changed(rt: &impl Abort, alloc: Global, kernel: &Kernel, pid: usize, call: Call) -> Kernel {
    let mut after = copy_of(rt, alloc, kernel);
    succeeds(rt, alloc, &mut after, pid, call);
    differ(rt, kernel, &after);
    after
}

/// The call changes the kernel.
fn changes(rt: &impl Abort, alloc: Global, kernel: &Kernel, pid: usize, call: Call) {
    let _ = changed(rt, alloc, kernel, pid, call);
}

/// Each call changes the kernel, and what they make of it differs.
fn change_apart(
    rt: &impl Abort,
    alloc: Global,
    kernel: &Kernel,
    pid: usize,
    first: Call,
    second: Call,
) {
    let one = changed(rt, alloc, kernel, pid, first);
    let other = changed(rt, alloc, kernel, pid, second);
    differ(rt, &one, &other);
}

/// Two kernels are the same, and still are after a receive from each.
fn receive_alike(rt: &impl Abort, alloc: Global, one: &mut Kernel, other: &mut Kernel) {
    assert!(rt;
        one.is_same(other) && one.digest() == other.digest(),
        "the same"
    );
    receives(rt, alloc, one, &[7, 8]);
    receives(rt, alloc, other, &[7, 8]);
    assert!(rt;
        one.is_same(other) && one.digest() == other.digest(),
        "the same again"
    );
}

#[test]
fn a_copy_answers_alike(rt: HostRuntime) {
    let alloc = rt.alloc();
    let mut kernel = made(&rt, alloc);
    let call = mq_send(&rt, alloc, &[7, 8], 3);
    succeeds(&rt, alloc, &mut kernel, 0, call);
    let mut other = copy_of(&rt, alloc, &kernel);
    receive_alike(&rt, alloc, &mut kernel, &mut other);
}

#[test]
fn what_is_open_differs(rt: HostRuntime) {
    let alloc = rt.alloc();
    let kernel = made(&rt, alloc);
    changes(&rt, alloc, &kernel, 0, Call::Exit);
    changes(&rt, alloc, &kernel, 0, sem_open(&rt, alloc));
}

#[test]
fn messages_differ(rt: HostRuntime) {
    let alloc = rt.alloc();
    let kernel = made(&rt, alloc);
    let first = mq_send(&rt, alloc, &[7], 0);
    let second = mq_send(&rt, alloc, &[8], 0);
    change_apart(&rt, alloc, &kernel, 0, first, second);
}

#[test]
fn access_modes_differ(rt: HostRuntime) {
    let alloc = rt.alloc();
    let kernel = made(&rt, alloc);
    let first = mq_open(&rt, alloc, 0);
    let second = mq_open(&rt, alloc, 2);
    change_apart(&rt, alloc, &kernel, 1, first, second);
}

#[test]
fn numbers_of_processes_differ(rt: HostRuntime) {
    let alloc = rt.alloc();
    let one = kernel_of(&rt, alloc, 1);
    let other = kernel_of(&rt, alloc, 2);
    differ(&rt, &one, &other);
}

fn is_copied(rt: &impl Abort, call: Call) {
    let copy = call.clone().expect(rt, "it takes no memory");
    assert!(rt; copy == call, "the same call");
    assert!(rt; copy != Call::SemClose { slot: 7 }, "another call");
}

#[test]
fn copies_of_calls_and_answers(rt: HostRuntime) {
    let alloc = rt.alloc();
    is_copied(&rt, mq_open(&rt, alloc, 0x42));
    is_copied(&rt, mq_send(&rt, alloc, &[5, 6], 3));
    let words = words_of(&rt, alloc, &[5, 6]);
    let message = Answer::Done(Reply::Message { words, prio: 3 });
    let copy = message.clone().expect(&rt, "it takes no memory");
    assert!(rt; is_message(&copy, &[5, 6], 3), "the same message");
}
