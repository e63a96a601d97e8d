//! Sessions of the debugger whose input or output fails. What is refused for memory is tried once more, so that every test
//! passes whichever allocation fails.
ghost use Rattle.std.specs.Prelude.{◌≤◌};

use crate::programs::{FIRST, SECOND, start_session};
use lab_debug::{Nobody, SessionFault, session_over};
use lab_io::{Input, Output, SlowIn, SlowOut};
use lab_sched::FreshFault;
use std::alloc::Global;
use std::test::Fail;

/// Two processes each wait for the semaphore that the other has.
const SCRIPT: &[u8] = b"run 0*12 1*13 0*1\nregs 0\nsems\nprocs\nfds 1\nquit\n";

/// What that writes.
const TEXT: &[u8] =
    b"verdict stuck\nR0 x0001 R1 x0040 R2 x0001 R3 x0000 R4 x0000 R5 x0001 R6 x0000 R7 x300B PC x300C CC P\n0 /a 0\n1 /b 0\n0 waiting x300C TRAP x53\n1 waiting x300C TRAP x53\nsem 0 1 1\nsem 1 0 1\n";

/// How many lines are written after so many lines of the script.
fn lines_after(commands: usize) -> usize {
    match commands {
        0 => 0,
        1 => 1,
        2 => 2,
        3 => 4,
        4 => 6,
        _ => 8,
    }
}

/// How many line feeds there are.
fn lines_in(bytes: &[u8]) -> usize {
    bytes.iter().filter(|byte| **byte == b'\n').count()
}

/// Whether a text is just what the lines before `end` of the script write.
fn is_so_far(text: &[u8], end: usize) -> bool {
    let Some(script) = SCRIPT.get(..end) else {
        return false;
    };
    TEXT.starts_with(text)
        && lines_in(text) == lines_after(lines_in(script))
        && (text.is_empty() || text.ends_with(b"\n"))
}

/// What a session writes whose reads fail after so many bytes, one a call.
fn read_once(alloc: Global, before: usize) -> Result<Option<Vec<u8>>, FreshFault> {
    let start = start_session(alloc, &[FIRST, SECOND])?;
    let mut text = Vec::with_capacity(alloc, 1024)?;
    let end = session_over(
        alloc,
        start,
        &mut Input::new(SlowIn::new(SCRIPT, 1, before)),
        &mut Output::new(&mut text),
        &Nobody,
    );
    match end {
        Err(SessionFault::Read) => Ok(Some(text)),
        Err(SessionFault::NoMemory) => Err(FreshFault::NoMemory),
        _ => Ok(None),
    }
}

/// The text of each line is written before the next line is read.
#[test]
fn reading_fails_at_each_place(rt: HostRuntime) -> Result<(), Fail> {
    for before in 0..SCRIPT.len() {
        let text = match read_once(rt.alloc(), before) {
            Ok(text) => text,
            Err(_) => read_once(rt.alloc(), before)?,
        };
        match text {
            Some(text) => assert!(rt; is_so_far(text.as_slice(), before)),
            None => panic!(rt; "a read failed"),
        }
    }
    Ok(())
}

/// Why a session broke off whose writes fail after so many bytes, `most` a call.
fn write_once(
    alloc: Global,
    room: &mut [u8],
    most: usize,
    before: usize,
) -> Result<Option<SessionFault>, FreshFault>
    requires moves { 1 ≤ most }
{
    let start = start_session(alloc, &[FIRST, SECOND])?;
    let end = session_over(
        alloc,
        start,
        &mut Input::new(SCRIPT),
        &mut Output::new(SlowOut::new(room, most, before)),
        &Nobody,
    );
    match end {
        Ok(_) => Ok(None),
        Err(SessionFault::NoMemory) => Err(FreshFault::NoMemory),
        Err(fault) => Ok(Some(fault)),
    }
}

/// Whether a session whose writes fail after so many bytes, `most` a call, tells so and writes just those bytes.
fn fails_after(alloc: Global, most: usize, before: usize) -> Result<bool, FreshFault>
    requires moves { 1 ≤ most }
{
    let mut room = [0u8; 256];
    let fault = match write_once(alloc, &mut room, most, before) {
        Ok(fault) => fault,
        Err(_) => {
            room = [0u8; 256];
            write_once(alloc, &mut room, most, before)?
        }
    };
    let Some((written, rest)) = room.split_at_checked(before) else {
        return Ok(false);
    };
    Ok(fault == Some(SessionFault::Write) && TEXT.starts_with(written) && rest.first() == Some(&0))
}

#[test]
fn writing_fails_at_each_place(rt: HostRuntime) -> Result<(), Fail> {
    for before in 0..TEXT.len() {
        assert!(rt; fails_after(rt.alloc(), 1, before)?, "byte {before}");
    }
    assert!(rt; fails_after(rt.alloc(), 64, 14)?, "many bytes at once");
    Ok(())
}
