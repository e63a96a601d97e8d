//! Worlds by the calls of the library: what each step is told as, copies of processes, and settling. A step for which
//! memory is refused hasn't happened and is taken once more, so that the tests pass whichever allocation fails.
ghost use Rattle.std.specs.Prelude.{◌≤◌, ◌+◌};
ghost use Rattle.lab_sched.specs.Schedules.{most_steps};

use crate::programs::{FIRST, HALT, SECOND, WAITER, world};
use ipc_kernel::{Call, Reply};
use lab_sched::{FreshFault, Process, Schedule, StepFault, Stepped, Verdict, World};
use std::alloc::Global;
use std::process::Abort;
use std::test::Fail;

fn step(world: &mut World, pid: usize) -> Result<Stepped, StepFault> {
    match world.step(pid) {
        Err(StepFault::NoMemory) => world.step(pid),
        told => told,
    }
}

fn process<'a>(rt: &impl Abort, world: &'a World, pid: usize) -> &'a Process {
    match world.process(pid) {
        Some(process) => process,
        None => panic!(rt; "a process"),
    }
}

fn copy(rt: &impl Abort, alloc: Global, process: &Process) -> Process {
    match process.copy(alloc) {
        Ok(copy) => copy,
        Err(_) => process.copy(alloc).expect(rt, "memory"),
    }
}

/// A copy is the same, and so is its digest.
fn is_copied(rt: &impl Abort, alloc: Global, process: &Process) {
    let copy = copy(rt, alloc, process);
    assert!(rt; process.is_same(&copy));
    assert_eq!(rt; process.digest(), copy.digest());
}

/// A step makes another process, with another digest.
fn is_changed(rt: &impl Abort, alloc: Global, world: &mut World, pid: usize) {
    let before = copy(rt, alloc, process(rt, world, pid));
    is_copied(rt, alloc, &before);
    assert!(rt; step(world, pid).is_ok());
    let after = process(rt, world, pid);
    assert!(rt; !before.is_same(after));
    assert!(rt; before.digest() != after.digest());
    is_copied(rt, alloc, after);
}

#[test]
fn steps_of_a_process_that_waits(rt: HostRuntime) -> Result<(), Fail> {
    let mut world = world(rt.alloc(), &[WAITER, HALT])?;
    assert!(rt; matches!(step(&mut world, 0), Ok(Stepped::Moved)));
    assert!(rt; matches!(step(&mut world, 0), Ok(Stepped::Moved)));
    assert!(rt; matches!(step(&mut world, 0), Ok(Stepped::Moved)));
    assert!(rt; matches!(step(&mut world, 0), Ok(Stepped::Called(Reply::Plain(0)))));
    assert!(rt; matches!(step(&mut world, 0), Ok(Stepped::Waits)));
    assert!(rt; matches!(step(&mut world, 0), Ok(Stepped::Same)));
    assert_eq!(rt; world.verdict(), Verdict::Open);
    assert!(rt; matches!(step(&mut world, 1), Ok(Stepped::Called(Reply::Plain(0)))));
    assert!(rt; matches!(world.step(1), Ok(Stepped::Same)));
    assert!(rt; matches!(world.step(2), Err(StepFault::NoProcess)));
    assert_eq!(rt; world.verdict(), Verdict::Stuck);
    match world.process(0) {
        Some(Process::Waiting(waiting, call)) => {
            assert_eq!(rt; waiting.machine().pc(), 0x3004);
            assert!(rt; matches!(call, Call::SemWait { slot: 0 }));
        }
        _ => panic!(rt; "waiting"),
    }
    Ok(())
}

/// Before its trap and waiting at it the machine of a process is the same, and the processes aren't.
#[test]
fn copies_of_processes(rt: HostRuntime) -> Result<(), Fail> {
    let mut world = world(rt.alloc(), &[WAITER, HALT])?;
    for _ in 0..4 {
        assert!(rt; step(&mut world, 0).is_ok());
    }
    is_changed(&rt, rt.alloc(), &mut world, 0);
    is_changed(&rt, rt.alloc(), &mut world, 1);
    Ok(())
}

/// Settles the two programs from their start, where they have so many steps left: the schedule, the number of entries,
/// what is left, and the verdict.
fn settle_once(alloc: Global, first: u32, second: u32) -> Result<String, FreshFault>
    requires room { first + second ≤ most_steps }
{
    let mut world = world(alloc, &[FIRST, SECOND])?;
    if world.count() != 2 {
        return Err(FreshFault::Count);
    }
    let mut left = [first, second];
    let mut schedule = Schedule::new(alloc);
    let mut entries = Vec::new(alloc);
    if world.settle(left.as_mut_slice(), &mut schedule, &mut entries) != 0 {
        return Err(FreshFault::NoMemory);
    }
    let steps = schedule.text(alloc)?;
    let count = entries.len();
    let verdict = world.verdict();
    Ok(format!(in alloc;
        "{steps}, {count} entries, {} {} left, {verdict:?}",
        left[0], left[1]
    )?)
}

fn settle(alloc: Global, first: u32, second: u32) -> Result<String, FreshFault>
    requires room { first + second ≤ most_steps }
{
    match settle_once(alloc, first, second) {
        Err(FreshFault::NoMemory) => settle_once(alloc, first, second),
        settled => settled,
    }
}

#[test]
fn two_semaphores_settle(rt: HostRuntime) -> Result<(), Fail> {
    let alloc = rt.alloc();
    let settled = settle(alloc, 18, 18)?;
    assert_eq!(rt; settled.as_str(), "0*18 1*18, 14 entries, 0 0 left, Ended");
    let settled = settle(alloc, 12, 13)?;
    assert_eq!(rt; settled.as_str(), "0*12 1*13, 7 entries, 0 0 left, Open");
    let settled = settle(alloc, 13, 18)?;
    assert_eq!(rt; settled.as_str(), "0*13 1*11, 7 entries, 0 7 left, Open");
    Ok(())
}
