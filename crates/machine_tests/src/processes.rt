//! Processes for the other tests: loaded, run, and stopped before a call.

ghost use Rattle.std.specs.Prelude.{◌≡◌};
ghost use Rattle.lc3_machine.specs.Process.{Stops};
ghost use Rattle.lc3_machine.specs.Effects.{next_step};

use lc3_machine::{Progress, Running, Want};
use lc3_table::Profile;
use lc3_word::Image;
use std::alloc::{AllocError, Global};
use std::process::Abort;

/// A copy of the words.
pub fn vec_of(alloc: Global, words: &[u16]) -> Result<Vec<u16>, AllocError> {
    Ok(again!(Vec::from_slice(alloc, words)))
}

/// A process of profile A with these words at the origin.
pub fn loaded(
    alloc: Global,
    origin: u16,
    words: &[u16],
    input: &[u8],
) -> Result<Running, AllocError> {
    match Image::new(origin, vec_of(alloc, words)?) {
        Ok(image) => Ok(again!(Running::load(alloc, &image, input, Profile::A))),
        Err(_) => Err(AllocError),
    }
}

/// The process after this many steps, all of which it has to take.
pub fn run(rt: &impl Abort, mut process: Running, steps: u32) -> Running {
    let (done, progress) = process.advance(steps);
    match progress {
        Progress::Moved => process,
        Progress::Stopped(_) => panic!(rt; "the process goes on"),
        Progress::Short => match process.advance(steps - done).1 {
            Progress::Moved => process,
            _ => panic!(rt; "the process goes on"),
        },
    }
}

/// The process before the call or the end that it stands at, after a few steps; with that call or end.
pub fn stopped(rt: &impl Abort, mut process: Running) -> (Running, Want)
    ensures stands { next_step result.0.process ≡ Stops result.1 }
{
    match process.advance(9).1 {
        Progress::Stopped(want) => (process, want),
        Progress::Short => match process.advance(9).1 {
            Progress::Stopped(want) => (process, want),
            _ => panic!(rt; "the process stops"),
        },
        Progress::Moved => panic!(rt; "the process stops"),
    }
}
