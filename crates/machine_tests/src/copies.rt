//! Copies, and pairs of processes that differ in one part alone.

use crate::processes::{loaded, run, stopped};
use lc3_machine::{Ended, Running, Waiting, Want};
use lc3_word::FIRST_DEVICE;
use std::alloc::{AllocError, Global};
use std::process::Abort;
use std::test::Fail;

fn copy(alloc: Global, process: &Running) -> Result<Running, AllocError> {
    Ok(again!(process.copy(alloc)))
}

/// Each of two processes is the other, and their digests are equal.
fn are_same(rt: &impl Abort, one: &Running, other: &Running) {
    assert!(rt; one.is_same(other));
    assert!(rt; other.is_same(one));
    assert_eq!(rt; one.digest(), other.digest());
}

/// Neither of two processes is the other, and their digests differ.
fn differ(rt: &impl Abort, one: &Running, other: &Running) {
    assert!(rt; !one.is_same(other));
    assert!(rt; !other.is_same(one));
    assert!(rt; one.digest() != other.digest());
}

/// The processes after so many steps of a program on two inputs differ.
fn differ_on(
    rt: &impl Abort,
    alloc: Global,
    words: &[u16],
    steps: u32,
    inputs: [&[u8]; 2],
) -> Result<(), AllocError> {
    let one = run(rt, loaded(alloc, 0x3000, words, inputs[0])?, steps);
    let other = run(rt, loaded(alloc, 0x3000, words, inputs[1])?, steps);
    differ(rt, &one, &other);
    Ok(())
}

/// GETC; OUT; GETC.
const ECHO: [u16; 3] = [0xf020, 0xf021, 0xf020];

#[test]
fn a_copy_is_the_same_and_goes_on_alike(rt: HostRuntime) -> Result<(), Fail> {
    let process = run(&rt, loaded(rt.alloc(), 0x30fe, &ECHO, b"ab")?, 2);
    let other = copy(rt.alloc(), &process)?;
    are_same(&rt, &process, &other);
    let other = run(&rt, other, 1);
    differ(&rt, &process, &other);
    are_same(&rt, &run(&rt, process, 1), &other);
    assert_eq!(rt; other.machine().output(), b"a".as_slice());
    Ok(())
}

#[test]
fn each_part_counts(rt: HostRuntime) -> Result<(), Fail> {
    let alloc = rt.alloc();
    // The input that is left.
    differ_on(&rt, alloc, &ECHO, 0, [b"a", b"b"])?;
    differ_on(&rt, alloc, &ECHO, 0, [b"a", b"ab"])?;
    // Register 0: GETC.
    differ_on(&rt, alloc, &ECHO, 1, [b"a", b"b"])?;
    // The output: GETC; OUT; GETC.
    differ_on(&rt, alloc, &ECHO, 3, [b"ac", b"bc"])?;
    // The condition code: GETC; ADD R7,R0,#0; GETC.
    differ_on(
        &rt,
        alloc,
        &[0xf020, 0x1e20, 0xf020],
        3,
        [b"\x00c", b"\x01c"],
    )?;
    // A word of memory: GETC; ST R0,#255; GETC.
    differ_on(
        &rt,
        alloc,
        &[0xf020, 0x30ff, 0xf020],
        3,
        [b"\x00c", b"\x01c"],
    )?;
    // The program counter: a branch that is never taken.
    let process = loaded(alloc, 0x3000, &[0, 0], b"")?;
    let other = run(&rt, copy(alloc, &process)?, 1);
    differ(&rt, &process, &other);
    Ok(())
}

/// Makes the page of an address.
fn make_page(process: &mut Running, at: u16) -> Result<(), AllocError> {
    if at < FIRST_DEVICE {
        again!(process.reserve(at, 1));
    }
    Ok(())
}

#[test]
fn a_page_of_zeros_may_be_made_or_not(rt: HostRuntime) -> Result<(), Fail> {
    let (mut process, want) = stopped(&rt, loaded(rt.alloc(), 0x3000, &[0xf044], b"")?);
    assert!(rt; want == Want::Trap(0x44));
    let unready = copy(rt.alloc(), &process)?;
    make_page(&mut process, 0x4000)?;
    let ready = copy(rt.alloc(), &process)?;
    assert!(rt; ready.ready(0x4000, 256) && !unready.ready(0x4000, 1));
    are_same(&rt, &unready, &ready);
    Ok(())
}

/// The process, which waits for the answer of the trap that it comes to.
fn waiting(rt: &impl Abort, process: Running) -> Waiting {
    let (process, want) = stopped(rt, process);
    match want {
        Want::Trap(vector) => process.wait(vector),
        Want::End(_) => panic!(rt; "it is a trap"),
    }
}

#[test]
fn a_waiting_process_is_copied(rt: HostRuntime) -> Result<(), Fail> {
    let process = loaded(rt.alloc(), 0x3000, &[0xf044], b"a")?;
    let process = waiting(&rt, process);
    let other = loaded(rt.alloc(), 0x3000, &[0xf044], b"b")?;
    let other = waiting(&rt, other);
    let copy = again!(process.copy(rt.alloc()));
    assert!(rt; process.is_same(&copy) && !copy.is_same(&other));
    assert_eq!(rt; process.digest(), copy.digest());
    assert!(rt; copy.digest() != other.digest());
    Ok(())
}

/// The process, which has ended.
fn ended(rt: &impl Abort, process: Running) -> Ended {
    let (process, want) = stopped(rt, process);
    match want {
        Want::End(how) => process.end(how),
        Want::Trap(_) => panic!(rt; "it is an end"),
    }
}

#[test]
fn an_ended_process_is_copied(rt: HostRuntime) -> Result<(), Fail> {
    let process = loaded(rt.alloc(), 0x3000, &[0xf025], b"")?;
    let process = ended(&rt, process);
    let other = loaded(rt.alloc(), 0x3000, &[0xd000], b"")?;
    let other = ended(&rt, other);
    let copy = again!(process.copy(rt.alloc()));
    assert!(rt; copy.how() == process.how());
    assert!(rt; process.is_same(&copy) && !copy.is_same(&other));
    assert_eq!(rt; process.digest(), copy.digest());
    assert!(rt; copy.digest() != other.digest());
    Ok(())
}
