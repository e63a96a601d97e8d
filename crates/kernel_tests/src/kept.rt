//! Kernels that are kept as their parts. That each part is kept once is in no contract, nor that kernels that are alike
//! become equal, nor of which calls `Kernels::operand` tells an object.
use crate::support::{Q, S, kernel_of, mq_open, name, sem_open, succeeds};
use ipc_kernel::{Call, Kernel};
use ipc_store::Kernels;
use std::alloc::Global;
use std::process::Abort;

/// The places of the queue and of the semaphore of `made`.
const QUEUE: u8 = 0;

const SEMAPHORE: u8 = 1;

/// The least empty place of `made`.
const EMPTY: u8 = 2;

/// A kernel of two processes, of which process 0 has made the queue `/q`, and process 1 the semaphore `/s`.
fn made(rt: &impl Abort, alloc: Global) -> Kernel {
    let mut kernel = kernel_of(rt, alloc, 2);
    succeeds(rt, alloc, &mut kernel, 0, mq_open(rt, alloc, 0x42));
    succeeds(rt, alloc, &mut kernel, 1, sem_open(rt, alloc));
    kernel
}

/// The same, after a post by process 1.
fn posted(rt: &impl Abort, alloc: Global) -> Kernel {
    let mut kernel = made(rt, alloc);
    succeeds(rt, alloc, &mut kernel, 1, Call::SemPost { slot: 0 });
    kernel
}

fn no_kernels(rt: &impl Abort, alloc: Global) -> Kernels {
    match Kernels::new(alloc) {
        Ok(kernels) => kernels,
        Err(_) => Kernels::new(alloc).expect(rt, "memory"),
    }
}

/// The number of a kernel that is kept.
fn keep(rt: &impl Abort, alloc: Global, kernels: &mut Kernels, kernel: &Kernel) -> u32 {
    match kernels.keep(alloc, kernel) {
        Ok(number) => number,
        Err(_) => kernels.keep(alloc, kernel).expect(rt, "memory"),
    }
}

fn keep_with(rt: &impl Abort, kernels: &mut Kernels, kernel: u32, after: u32) -> Option<u32> {
    let object = kernels.object_at(after, SEMAPHORE)?;
    let tables = kernels.tables_at(after, 1)?;
    match kernels.keep_with(kernel, 1, SEMAPHORE, object, tables) {
        Ok(number) => number,
        Err(_) => {
            let again = kernels.keep_with(kernel, 1, SEMAPHORE, object, tables);
            again.expect(rt, "memory")
        }
    }
}

fn get(rt: &impl Abort, alloc: Global, kernels: &Kernels, number: u32) -> Kernel {
    let found = match kernels.get(alloc, number) {
        Ok(found) => found,
        Err(_) => kernels.get(alloc, number).expect(rt, "memory"),
    };
    found.expect(rt, "a kernel")
}

fn arranged(rt: &impl Abort, alloc: Global, kernel: &Kernel) -> Option<Kernel> {
    match ipc_store::arranged(alloc, kernel) {
        Ok(arranged) => arranged,
        Err(_) => ipc_store::arranged(alloc, kernel).expect(rt, "memory"),
    }
}

/// Two kernels that differ in one object have the other parts in common.
fn keeps_each_part_once(rt: &impl Abort, alloc: Global) {
    let mut kernels = no_kernels(rt, alloc);
    let before = keep(rt, alloc, &mut kernels, &made(rt, alloc));
    let after = keep(rt, alloc, &mut kernels, &posted(rt, alloc));
    assert!(rt; before != after, "two kernels");
    let queue = kernels.object_at(before, QUEUE);
    assert!(rt;
        queue.is_some() && kernels.object_at(after, QUEUE) == queue,
        "the queue"
    );
    let semaphore = kernels.object_at(before, SEMAPHORE);
    assert!(rt;
        kernels.object_at(after, SEMAPHORE) != semaphore,
        "the semaphores"
    );
    let tables = kernels.tables_at(before, 1);
    assert!(rt;
        tables.is_some() && kernels.tables_at(after, 1) == tables,
        "the tables"
    );
    let again = keep(rt, alloc, &mut kernels, &made(rt, alloc));
    assert!(rt; again == before, "the kernel that is kept");
}

/// The kernel after a call is the one before it with another object.
fn knows_the_kernel_after(rt: &impl Abort, alloc: Global) {
    let mut kernels = no_kernels(rt, alloc);
    let before = keep(rt, alloc, &mut kernels, &made(rt, alloc));
    let after = keep(rt, alloc, &mut kernels, &posted(rt, alloc));
    let made = keep_with(rt, &mut kernels, before, after);
    assert!(rt; made == Some(after), "the kernel after the post");
}

/// The place of the object that a call of process 1 works on.
fn operand(kernels: &Kernels, kernel: u32, call: &Call) -> Option<u8> {
    let tables = kernels.tables_at(kernel, 1)?;
    kernels.operand(kernel, tables, call)
}

/// Calls that remove no object work on one place, and those that may don't.
fn tells_operands(rt: &impl Abort, alloc: Global) {
    let mut kernels = no_kernels(rt, alloc);
    let number = keep(rt, alloc, &mut kernels, &made(rt, alloc));
    let of = |call: Call| operand(&kernels, number, &call);
    assert!(rt; of(Call::SemPost { slot: 0 }) == Some(SEMAPHORE), "a post");
    assert!(rt; of(Call::SemPost { slot: 1 }).is_none(), "no slot");
    assert!(rt; of(mq_open(rt, alloc, 0)) == Some(QUEUE), "an open");
    assert!(rt; of(sem_open(rt, alloc)) == Some(SEMAPHORE), "the same name");
    assert!(rt;
        of(Call::SemClose { slot: 0 }) == Some(SEMAPHORE),
        "a close"
    );
    assert!(rt; of(Call::Exit).is_some(), "the end");
    let unlink = Call::MqUnlink {
        name: name(rt, alloc, &Q),
    };
    assert!(rt; of(unlink).is_none(), "an unlink");
}

/// Where an object has no name, its close and the end of a process may remove it, and an open works
/// on the least empty place.
fn tells_none_of_the_unnamed(rt: &impl Abort, alloc: Global) {
    let mut kernels = no_kernels(rt, alloc);
    let mut kernel = made(rt, alloc);
    let unlink = Call::SemUnlink {
        name: name(rt, alloc, &S),
    };
    succeeds(rt, alloc, &mut kernel, 0, unlink);
    let number = keep(rt, alloc, &mut kernels, &kernel);
    let of = |call: Call| operand(&kernels, number, &call);
    assert!(rt; of(Call::SemPost { slot: 0 }) == Some(SEMAPHORE), "a post");
    assert!(rt; of(Call::SemClose { slot: 0 }).is_none(), "a close");
    assert!(rt; of(sem_open(rt, alloc)) == Some(EMPTY), "an open");
    assert!(rt; of(Call::Exit).is_none(), "the end");
}

/// Where a place before that of an object is empty, it is the least one.
fn tells_the_least_empty_place(rt: &impl Abort, alloc: Global) {
    let mut kernels = no_kernels(rt, alloc);
    let mut kernel = made(rt, alloc);
    let unlink = Call::MqUnlink {
        name: name(rt, alloc, &Q),
    };
    succeeds(rt, alloc, &mut kernel, 0, unlink);
    succeeds(rt, alloc, &mut kernel, 0, Call::MqClose { mqd: 0 });
    let number = keep(rt, alloc, &mut kernels, &kernel);
    let of = |call: Call| operand(&kernels, number, &call);
    assert!(rt; of(mq_open(rt, alloc, 0)) == Some(QUEUE), "an open");
    assert!(rt; of(sem_open(rt, alloc)) == Some(SEMAPHORE), "a name");
}

/// The kernels before and after a call are given back.
fn gives_back(rt: &impl Abort, alloc: Global) {
    let mut kernels = no_kernels(rt, alloc);
    let before = made(rt, alloc);
    let after = posted(rt, alloc);
    let first = keep(rt, alloc, &mut kernels, &before);
    let second = keep(rt, alloc, &mut kernels, &after);
    assert!(rt;
        get(rt, alloc, &kernels, first).is_same(&before),
        "the first kernel"
    );
    assert!(rt;
        get(rt, alloc, &kernels, second).is_same(&after),
        "the second kernel"
    );
}

/// The kernel in an order of its objects, which is the kernel itself if it has that order.
fn in_order<'a>(arranged: &'a Option<Kernel>, kernel: &'a Kernel) -> &'a Kernel {
    match arranged {
        Some(arranged) => arranged,
        None => kernel,
    }
}

/// Both kernels become equal.
fn become_equal(rt: &impl Abort, alloc: Global, one: &Kernel, other: &Kernel) {
    assert!(rt; !one.is_same(other), "not the same");
    let first = arranged(rt, alloc, one);
    let second = arranged(rt, alloc, other);
    assert!(rt;
        in_order(&first, one).is_same(in_order(&second, other)),
        "the same"
    );
}

#[test]
fn each_part_is_kept_once(rt: HostRuntime) {
    keeps_each_part_once(&rt, rt.alloc());
}

#[test]
fn a_call_makes_a_kernel_with_other_parts(rt: HostRuntime) {
    knows_the_kernel_after(&rt, rt.alloc());
}

#[test]
fn calls_work_on_one_object(rt: HostRuntime) {
    tells_operands(&rt, rt.alloc());
}

#[test]
fn opens_work_on_the_least_empty_place(rt: HostRuntime) {
    tells_the_least_empty_place(&rt, rt.alloc());
}

#[test]
fn unnamed_objects_may_be_removed(rt: HostRuntime) {
    tells_none_of_the_unnamed(&rt, rt.alloc());
}

#[test]
fn a_kernel_is_given_back(rt: HostRuntime) {
    gives_back(&rt, rt.alloc());
}

#[test]
fn kernels_that_are_alike_become_equal(rt: HostRuntime) {
    let alloc = rt.alloc();
    let mut one = made(&rt, alloc);
    let mut other = kernel_of(&rt, alloc, 2);
    succeeds(&rt, alloc, &mut other, 1, sem_open(&rt, alloc));
    succeeds(&rt, alloc, &mut other, 0, mq_open(&rt, alloc, 0x42));
    become_equal(&rt, alloc, &one, &other);
    succeeds(&rt, alloc, &mut one, 0, Call::Exit);
    succeeds(&rt, alloc, &mut other, 0, Call::Exit);
    become_equal(&rt, alloc, &one, &other);
    succeeds(&rt, alloc, &mut one, 1, Call::Exit);
    succeeds(&rt, alloc, &mut other, 1, Call::Exit);
    become_equal(&rt, alloc, &one, &other);
}
