//! Traces whose output fails. What is refused for memory is tried once more, so that every test passes whichever allocation
//! fails.
use crate::programs::{FIRST, SECOND, world};
use lab_io::{Output, SlowOut};
use lab_sched::{FreshFault, Schedule};
use lab_trace::{TraceFault, trace};
use std::alloc::Global;
use std::test::Fail;

/// Two processes each wait for the semaphore that the other has.
const SCHEDULE: &str = "0*12 1*13 0*1";

/// How many bytes a writer has room for: more than the trace has.
const ROOM: usize = 1024;

/// The trace of that.
const TEXT: &[u8] =
    b"  5 P0 x3004    +4 sem_open(\"/a\", O_CREAT, 1) = 0 ; value 1\n  8 P0 x3007    +2 sem_open(\"/b\", O_CREAT, 1) = 1 ; value 1\n 11 P0 x300A    +2 sem_wait(0</a>) = 0 ; value 0\n 17 P1 x3004    +4 sem_open(\"/b\", O_CREAT, 1) = 0 ; value 1\n 20 P1 x3007    +2 sem_open(\"/a\", O_CREAT, 1) = 1 ; value 0\n 23 P1 x300A    +2 sem_wait(0</b>) = 0 ; value 0\n 25 P1 x300C    +1 sem_wait(1</a>) waits ; value 0\n 26 P0 x300C    +1 sem_wait(1</b>) waits ; value 0\nend P0 x300C    +0 waits since 26 in sem_wait(1</b>): value 0, taken by P1, open in P1\nend P1 x300C    +0 waits since 25 in sem_wait(1</a>): value 0, taken by P0, open in P0\n0 waiting x300C TRAP x53\nout 0\n1 waiting x300C TRAP x53\nout 1\nverdict stuck\n";

/// How a trace ends whose writes fail after so many bytes, one a call.
fn trace_once(
    alloc: Global,
    room: &mut [u8],
    before: usize,
) -> Result<Result<(), TraceFault>, FreshFault> {
    let mut world = world(alloc, &[FIRST, SECOND])?;
    let Ok(schedule) = Schedule::read(alloc, SCHEDULE) else {
        return Err(FreshFault::NoMemory);
    };
    let mut output = Output::new(SlowOut::new(room, 1, before));
    match trace(alloc, &mut world, &[], &schedule, &mut output) {
        Err(TraceFault::NoMemory) => Err(FreshFault::NoMemory),
        end => Ok(end),
    }
}

/// How a trace ends whose writes fail after so many bytes, and whether just those bytes of its text were written.
fn end_after(alloc: Global, before: usize) -> Result<(Result<(), TraceFault>, bool), FreshFault> {
    let mut room = vec![in alloc; 0u8; ROOM]?;
    let end = match trace_once(alloc, &mut room, before) {
        Ok(end) => end,
        Err(_) => {
            room.fill(0);
            trace_once(alloc, &mut room, before)?
        }
    };
    let Some((written, rest)) = room.split_at_checked(before) else {
        return Ok((end, false));
    };
    Ok((end, TEXT.starts_with(written) && rest.first() == Some(&0)))
}

#[test]
fn writing_fails_at_each_byte(rt: HostRuntime) -> Result<(), Fail> {
    for before in 0..TEXT.len() {
        let (end, is_so_far) = end_after(rt.alloc(), before)?;
        assert_eq!(rt; end, Err(TraceFault::Write), "byte {before}");
        assert!(rt; is_so_far, "byte {before}");
    }
    let (end, is_whole) = end_after(rt.alloc(), TEXT.len())?;
    assert_eq!(rt; end, Ok(()));
    assert!(rt; is_whole);
    Ok(())
}
