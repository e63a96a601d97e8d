//! Runs on threads whose gates show that the threads meet, sleep and wake, and that the report is theirs. They are for
//! ample memory.
ghost use Rattle.std.specs.Prelude.{◌≤◌};

use crate::programs::{CONSUMER, PRODUCER, fresh};
use lab_sched::Verdict;
use lab_threads::{Gate, Report, RunFault, run_threads};
use std::alloc::{AllocError, Global};
use std::process::Abort;
use std::sync::Wait;
use std::sync::atomic::{AtomicU64, Ordering};
use std::thread;
use std::thread::Threads;

/// Whether a flag comes up, within 10,000,000 looks that each give way to other threads.
fn finds(flag: &AtomicU64) -> bool {
    for _ in 0..10_000_000u32 {
        if flag.load(Ordering::SeqCst) == 1 {
            return true;
        }
        thread::yield_now();
    }
    false
}

/// The report of the producer, process 0, and the consumer, process 1.
fn report<R: Threads + Wait + Sync + Abort, G: Gate>(rt: &R, alloc: Global, gate: &G) -> Report {
    let Ok(fresh) = fresh(alloc, &[PRODUCER, CONSUMER]) else {
        panic!(rt; "a laboratory")
    };
    match run_threads(rt, alloc, fresh, 100_000, gate) {
        Ok(report) => report,
        Err(fault) => panic!(rt; "{fault}"),
    }
}

/// Where two processes wait for one another, the first time that each comes there.
#[derive(Drop)]
struct Meeting {
    nth: u32,
    flags: [AtomicU64; 2],
    found: [AtomicU64; 2],
}

impl Gate for Meeting {
    fn arrive(&self, pid: usize, nth: u32) {
        let other = if pid == 0 { 1 } else { 0 };
        if nth != self.nth || pid > 1 || self.flags[pid].load(Ordering::SeqCst) == 1 {
            return;
        }
        self.flags[pid].store(1, Ordering::SeqCst);
        if finds(&self.flags[other]) {
            self.found[pid].store(1, Ordering::SeqCst);
        }
    }
}

/// In their first local segments, and at their first calls.
#[test]
fn both_meet(rt: HostRuntime) {
    for nth in 0..2 {
        let gate = Meeting {
            nth,
            flags: [AtomicU64::new(0), AtomicU64::new(0)],
            found: [AtomicU64::new(0), AtomicU64::new(0)],
        };
        let report = report(&rt, rt.alloc(), &gate);
        assert_eq!(rt; report.verdict, Verdict::Ended);
        assert_eq!(rt; gate.found[0].load(Ordering::SeqCst), 1);
        assert_eq!(rt; gate.found[1].load(Ordering::SeqCst), 1);
    }
}

/// Holds back the first call of one process until the other comes to its second.
#[derive(Drop)]
struct Order {
    late: usize,
    flag: AtomicU64,
    found: AtomicU64,
}

impl Gate for Order {
    fn arrive(&self, pid: usize, nth: u32) {
        if pid == self.late && nth == 1 && finds(&self.flag) {
            self.found.store(1, Ordering::SeqCst);
        }
        if pid != self.late && nth == 2 {
            self.flag.store(1, Ordering::SeqCst);
        }
    }
}

#[test]
fn the_order_is_that_of_the_threads(rt: HostRuntime) {
    for late in 0..2 {
        let gate = Order {
            late,
            flag: AtomicU64::new(0),
            found: AtomicU64::new(0),
        };
        let report = report(&rt, rt.alloc(), &gate);
        assert_eq!(rt; gate.found.load(Ordering::SeqCst), 1);
        match report.history.first() {
            Some(entry) => assert!(rt; entry.pid != late, "the other's call is first"),
            None => panic!(rt; "an entry"),
        }
    }
}

/// The producer makes no call before the consumer comes to its first receive, and no third call before the consumer comes
/// to its second receive: a consumer that waits must be woken while the producer's thread goes on.
#[derive(Drop)]
struct Waking {
    receives: AtomicU64,
    woken: AtomicU64,
    found: AtomicU64,
}

impl Gate for Waking {
    fn arrive(&self, pid: usize, nth: u32) {
        match (pid, nth) {
            (1, 2) => self.receives.store(1, Ordering::SeqCst),
            (1, 3) => self.woken.store(1, Ordering::SeqCst),
            (0, 1) => {
                finds(&self.receives);
            }
            (0, 3) => {
                if finds(&self.woken) {
                    self.found.store(1, Ordering::SeqCst);
                }
            }
            _ => {}
        }
    }
}

/// Of the runs the consumer waits in most.
#[test]
fn one_that_waits_is_woken(rt: HostRuntime) {
    for _ in 0..20 {
        let gate = Waking {
            receives: AtomicU64::new(0),
            woken: AtomicU64::new(0),
            found: AtomicU64::new(0),
        };
        let report = report(&rt, rt.alloc(), &gate);
        assert_eq!(rt; report.verdict, Verdict::Ended);
        assert_eq!(rt; gate.found.load(Ordering::SeqCst), 1);
    }
}

/// Writes down the numbers with which the producer arrives, as hexadecimal digits, and how many they are.
#[derive(Drop)]
struct Numbers {
    digits: AtomicU64,
    count: AtomicU64,
}

impl Gate for Numbers {
    fn arrive(&self, pid: usize, nth: u32) {
        if pid == 0 {
            let digits = self.digits.load(Ordering::SeqCst).wrapping_mul(16);
            self.digits
                .store(digits.wrapping_add(u64::from(nth)), Ordering::SeqCst);
            self.count.fetch_add(1, Ordering::SeqCst);
        }
    }
}

/// Once in the local segment before each of its eight calls, and at each call with its number.
#[test]
fn numbers_of_the_producer(rt: HostRuntime) {
    let gate = Numbers {
        digits: AtomicU64::new(0),
        count: AtomicU64::new(0),
    };
    report(&rt, rt.alloc(), &gate);
    assert_eq!(rt; gate.digits.load(Ordering::SeqCst), 0x0102_0304_0506_0708);
    assert_eq!(rt; gate.count.load(Ordering::SeqCst), 16);
}

#[test]
fn texts_of_faults(rt: HostRuntime) -> Result<(), AllocError> {
    let text = format!(in rt.alloc();
        "{}, {}, {}",
        RunFault::NoMemory,
        RunFault::Unvouched,
        RunFault::Spawn
    )?;
    assert!(rt;
        text.as_str() == "out of memory, Unvouched, Spawn",
        "the texts"
    );
    Ok(())
}
