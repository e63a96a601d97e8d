//! Frames, written.
ghost use Rattle.std.specs.Prelude.{◌≡◌, OnOk, IfOk, IfErr, IsTrue, string_bytes};
ghost use Rattle.std.specs.Io.KnownBytes.{Appends};
ghost use Rattle.lab_frames.specs.Written.{frame_text};

use lab_io::Output;
use std::alloc::{AllocError, Global};
use std::fmt::Write as _;
use std::io::Write;

/// Why a frame wasn't written.
#[derive(Clone, Copy, Debug, PartialEq, Eq)]
pub enum WriteFault {
    /// The output failed; a beginning of the frame was written.
    Write,
    /// Memory was refused, and nothing was written.
    NoMemory,
}

#[tactic(auto, unfolding(crate::specs::Written::frame_text))]
fn frame_text(alloc: Global, message: &str) -> Result<String, AllocError>
    ensures text { IfOk result (λ text. string_bytes text ≡ frame_text message.now) }
{
    let count = message.len();
    let mut text = String::from_str(alloc, "Content-Length: ")?;
    write!(text, "{count}")?;
    text.push_str("\r\n\r\n")?;
    text.push_str(message)?;
    Ok(text)
}

/// Writes a message as a frame, at once.
pub fn write_frame<W: Write>(
    alloc: Global,
    output: &mut Output<W>,
    message: &str,
) -> Result<(), WriteFault>
    ensures written { OnOk result (Appends (W.contents output.old.device)
        (W.contents output.new.device) (frame_text message.now)) }
    ensures ok { OnOk result (output.new.failed ≡ output.old.failed) }
    ensures err { IfErr result (λ e. e ≡ WriteFault.Write → IsTrue output.new.failed) }
{
    let Ok(text) = frame_text(alloc, message) else {
        return Err(WriteFault::NoMemory);
    };
    match output.write_all(text.as_bytes()) {
        Ok(()) => Ok(()),
        Err(_) => Err(WriteFault::Write),
    }
}
