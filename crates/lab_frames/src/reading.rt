//! Frames, taken off a stream of bytes.
ghost use Rattle.std.specs.Prelude.{◌≡◌, ◌≤◌, ℕ, List, IfOk, IfErr, length};
ghost use Rattle.std.specs.Io.KnownBytes.{Consumes};
ghost use Rattle.lab_frames.specs.Taking.{TakesFrame, Stops};
ghost use Rattle.lab_frames.specs.Private.Parts.{BodyStops};
ghost use Rattle.lab_frames.specs.declared.reading.FrameFault.TheVariants.{NoMemory};

use crate::header::take_header;
use lab_io::Input;
use std::alloc::{AllocError, AllocFailed, Global};
use std::io::Read;
use thiserror::Error;

/// The most bytes of a body that is kept.
pub const BODY_LIMIT: u64 = 32_000_000;

/// How many bytes are read at once, at most.
const CHUNK: usize = 4096;

/// What was taken off a stream.
#[derive(Drop)]
pub enum Frame {
    /// Nothing: the stream is over.
    End,
    /// The body of a frame.
    Body(Vec<u8>),
    /// A frame whose body has more bytes than are kept.
    TooLarge,
}

/// Why no frame was taken.
#[derive(Clone, Copy, Debug, PartialEq, Eq, Error)]
pub enum FrameFault {
    /// The input failed.
    #[error("cannot read")]
    Read,
    /// The header lines are none, or name no length or two.
    #[error("BadHeader")]
    BadHeader,
    /// The stream ends inside a frame.
    #[error("CutShort")]
    CutShort,
    /// Memory was refused.
    #[error("out of memory")]
    NoMemory,
}

impl From<AllocError> for FrameFault {
    ghost from_gives = { λ _ e. e ≡ NoMemory };

    fn from(_refused: AllocError) -> FrameFault {
        FrameFault::NoMemory
    }
}

impl<T: Drop> From<AllocFailed<T>> for FrameFault {
    ghost from_gives = { λ _ e. e ≡ NoMemory };

    fn from(_refused: AllocFailed<T>) -> FrameFault {
        FrameFault::NoMemory
    }
}

/// Takes so many bytes.
fn take_body<R: Read>(
    alloc: Global,
    input: &mut Input<R>,
    count: usize,
) -> Result<Vec<u8>, FrameFault>
    ensures bytes { IfOk result (λ body. Consumes (R.remaining input.old.device)
        (R.remaining input.new.device) body.items) }
    ensures count { IfOk result (λ body. length body.items ≡ count) }
    ensures err { IfErr result (λ e.
        BodyStops count e (R.remaining input.old.device) input.new.failed) }
{
    let mut body = Vec::new(alloc);
    let mut bytes = [0; CHUNK];
    while body.len() < count {
        let most = (count - body.len()).min(CHUNK);
        let Ok(taken) = input.read(&mut bytes[..most]) else {
            return Err(FrameFault::Read);
        };
        if taken == 0 {
            return Err(FrameFault::CutShort);
        }
        body.extend_from_slice(&bytes[..taken])?;
    }
    Ok(body)
}

/// Takes so many bytes, and lets them go.
fn pass_over<R: Read>(alloc: Global, input: &mut Input<R>, count: usize) -> Result<(), FrameFault>
    ensures bytes { IfOk result (λ _. (passed : List ℕ) × Consumes (R.remaining input.old.device)
        (R.remaining input.new.device) passed × (length passed ≡ count)) }
    ensures err { IfErr result (λ e.
        BodyStops count e (R.remaining input.old.device) input.new.failed) }
{
    let mut left = count;
    while left > 0 {
        left -= take_body(alloc, input, left.min(CHUNK))?.len();
    }
    Ok(())
}

/// Takes the next frame off a stream. After an error the stream can't be followed any more.
pub fn take_frame<R: Read>(alloc: Global, input: &mut Input<R>) -> Result<Frame, FrameFault>
    ensures frame { IfOk result (λ found. TakesFrame (R.remaining input.old.device)
        (R.remaining input.new.device) found) }
    ensures err { IfErr result (λ e.
        Stops e (R.remaining input.old.device) input.new.failed) }
{
    let Some(count) = take_header(alloc, input)? else {
        return Ok(Frame::End);
    };
    if count > BODY_LIMIT {
        pass_over(alloc, input, count as usize)?;
        return Ok(Frame::TooLarge);
    }
    Ok(Frame::Body(take_body(alloc, input, count as usize)?))
}
