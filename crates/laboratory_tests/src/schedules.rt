//! Schedules that are read and written again.
use lab_sched::{SchedFault, Schedule};
use std::alloc::Global;
use std::test::Fail;

/// The text of the schedule that a text writes.
fn rewritten_once(alloc: Global, text: &str) -> Result<String, SchedFault> {
    let schedule = Schedule::read(alloc, text)?;
    Ok(schedule.text(alloc)?)
}

/// Tries once more where memory was refused.
fn rewritten(alloc: Global, text: &str) -> Result<String, SchedFault> {
    match rewritten_once(alloc, text) {
        Err(SchedFault::NoMemory) => rewritten_once(alloc, text),
        written => written,
    }
}

#[test]
fn texts_that_are_read(rt: HostRuntime) -> Result<(), Fail> {
    for (text, shown) in [
        ("0*2 0 1*3", "0*3 1*3"),
        (" \t\r\n", ""),
        ("\n0*1\t\r\n0063*0002 ", "0*1 63*2"),
        ("0*999999998 0", "0*999999999"),
    ] {
        match rewritten(rt.alloc(), text) {
            Ok(written) => assert_eq!(rt; written.as_str(), shown),
            Err(fault) => panic!(rt; "{fault}"),
        }
    }
    Ok(())
}
