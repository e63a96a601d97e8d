//! Messages in, messages out.
ghost use Rattle.std.specs.Prelude.{◌≡◌, ℕ, List, IfOk, IfErr, OnOk, OnErr, IfSome, IsTrue, map, Some, Err, false};
ghost use Rattle.std.specs.Option.{option_map};
ghost use Rattle.std.specs.Io.KnownBytes.{Appends};
ghost use Rattle.serde_json.specs.Data.{null};
ghost use Rattle.serde_json.specs.View.{view};
ghost use Rattle.lab_frames.specs.Taking.{begun_with};
ghost use Rattle.lab_server.specs.Messages.{message_of};
ghost use Rattle.lab_server.specs.Sessions.{first};
ghost use Rattle.lab_server.specs.Replies.{IsError};
ghost use Rattle.lab_server.specs.Turns.{Serves, IsFrameOf, is_written};
ghost use Rattle.lab_server.specs.Private.Replies.{RepliesTo, RepliesToValue, sent_of, goes_on, fault_at};
ghost use Rattle.lab_server.specs.Private.Turned.{TurnsTo, BreaksOff};
ghost use Rattle.lab_server.specs.declared.serving.ServerFault.TheVariants.{NoMemory};
ghost use Rattle.lab_server.specs.Private.Seen.{session_of};

use crate::replies::{NO_JSON, NO_REQUEST, error};
use crate::session::{Session, is_exit, refused_memory};
use crate::settings::Names;
use lab_frames::{Frame, FrameFault, WriteFault, take_frame, write_frame};
use lab_io::{Input, Output};
use serde_json::Value;
use std::alloc::{AllocError, Global};
use std::io::{Read, Write};
use thiserror::Error;

/// The most messages of a session.
const MESSAGE_LIMIT: u64 = 1_000_000_000;

/// Why a session broke off. Messages are counted from 1.
#[derive(Clone, Copy, Debug, PartialEq, Eq, Error)]
pub enum ServerFault {
    #[error("cannot read")]
    Read,
    #[error("cannot write")]
    Write,
    #[error("out of memory")]
    NoMemory,
    /// The header lines of this message are none, or name no length or two.
    #[error("message {0}: BadHeader")]
    BadHeader(u64),
    /// The input ends inside this message.
    #[error("message {0}: CutShort")]
    CutShort(u64),
    #[error("TooManyMessages")]
    TooManyMessages,
}

impl From<AllocError> for ServerFault {
    ghost from_gives = { λ _ e. e ≡ NoMemory };

    fn from(_refused: AllocError) -> ServerFault {
        ServerFault::NoMemory
    }
}

fn fault_at(number: u64, fault: FrameFault) -> ServerFault
    ensures fault { result ≡ fault_at number fault }
{
    match fault {
        FrameFault::Read => ServerFault::Read,
        FrameFault::BadHeader => ServerFault::BadHeader(number),
        FrameFault::CutShort => ServerFault::CutShort(number),
        FrameFault::NoMemory => ServerFault::NoMemory,
    }
}

/// What a message leads to.
#[derive(Drop)]
enum Reply {
    Nothing,
    Message(Value),
    /// The session ends.
    End,
}

impl Reply {
    /// Whether the session goes on.
    fn goes_on(&self) -> bool
        ensures value { result ≡ goes_on self.now }
    {
        !matches!(self, Reply::End)
    }
}

/// The error about a message that is no JSON, or too large.
fn unread(alloc: Global, number: u64, code: i64, fault: &str) -> Result<Value, AllocError>
    ensures error { IfOk result (λ v. IsError null code (view v)) }
{
    let text = format!(in alloc; "message {number}: {fault}")?;
    error(alloc, None, code, &text)
}

/// What a message is answered with, if it is.
fn reply_to(alloc: Global, session: &mut Session, value: &Value) -> Result<Reply, AllocError>
    ensures reply { IfOk result (λ r. RepliesToValue r (view value.now) (session_of session.old)
        (session_of session.new)) }
{
    if is_exit(value) {
        return Ok(Reply::End);
    }
    let reply = match session.take(alloc, value) {
        Ok(reply) => reply,
        Err(AllocError) => refused_memory(alloc, value)?,
    };
    Ok(match reply {
        Some(value) => Reply::Message(value),
        None => Reply::Nothing,
    })
}

/// What a frame leads to, whose message has this number.
#[tactic(auto, using(crate::proofs::ReplyLemmas::of_json, crate::proofs::ReplyLemmas::of_no_json))]
fn reply_to_frame(
    alloc: Global,
    session: &mut Session,
    number: u64,
    frame: &Frame,
) -> Result<Reply, AllocError>
    ensures reply { IfOk result (λ r. (rest : List ℕ) → RepliesTo r (begun_with frame.now rest) rest
        (session_of session.old) (session_of session.new)) }
{
    match frame {
        Frame::End => Ok(Reply::End),
        Frame::TooLarge => Ok(Reply::Message(unread(alloc, number, NO_REQUEST, "TooLarge")?)),
        Frame::Body(body) => match Value::from_slice(alloc, body) {
            Ok(value) => reply_to(alloc, session, &value),
            Err(fault) if fault.is_memory() => Err(AllocError),
            Err(_) => Ok(Reply::Message(unread(alloc, number, NO_JSON, "BadJson")?)),
        },
    }
}

fn write_message<W: Write>(
    alloc: Global,
    output: &mut Output<W>,
    value: &Value,
) -> Result<(), ServerFault>
    ensures written { OnOk result ((front : List ℕ) × IsFrameOf (Some (view value.now)) front
        × Appends (W.contents output.old.device) (W.contents output.new.device) front) }
    ensures read { IfErr result (λ e. e ≡ ServerFault.Read → ⊥) }
    ensures write { IfErr result (λ e. e ≡ ServerFault.Write → IsTrue output.new.failed) }
    ensures other { IfErr result (λ e. is_written (Err e) ≡ false) }
{
    let text = value.to_string(alloc)?;
    match write_frame(alloc, output, &text) {
        Ok(()) => Ok(()),
        Err(WriteFault::Write) => Err(ServerFault::Write),
        Err(WriteFault::NoMemory) => Err(ServerFault::NoMemory),
    }
}

/// Sends what a message leads to.
fn send<W: Write>(alloc: Global, output: &mut Output<W>, reply: &Reply) -> Result<(), ServerFault>
    ensures sent { OnOk result ((front : List ℕ) × IsFrameOf (sent_of reply.now) front
        × Appends (W.contents output.old.device) (W.contents output.new.device) front) }
    ensures read { IfErr result (λ e. e ≡ ServerFault.Read → ⊥) }
    ensures write { IfErr result (λ e. e ≡ ServerFault.Write → IsTrue output.new.failed) }
    ensures other { IfErr result (λ e. is_written (Err e) ≡ false) }
{
    match reply {
        Reply::Message(value) => write_message(alloc, output, value),
        Reply::Nothing | Reply::End => Ok(()),
    }
}

/// Takes the message of this number, sends what it leads to, and says whether the session goes on.
#[tactic(auto, using(crate::proofs::TurnLemmas::breaks_unread, crate::proofs::TurnLemmas::breaks_unwritten))]
fn turn<R: Read, W: Write>(
    alloc: Global,
    session: &mut Session,
    number: u64,
    input: &mut Input<R>,
    output: &mut Output<W>,
) -> Result<bool, ServerFault>
    ensures turn { IfOk result (λ goes_on. TurnsTo goes_on (session_of session.old)
        (R.remaining input.old.device) (R.remaining input.new.device)
        (W.contents output.old.device) (W.contents output.new.device) (session_of session.new)) }
    ensures breaks { IfErr result (λ e. BreaksOff e number (R.remaining input.old.device)
        (W.contents output.old.device) (W.contents output.new.device)) }
    ensures read { IfErr result (λ e. e ≡ ServerFault.Read → IsTrue input.new.failed) }
    ensures write { IfErr result (λ e. e ≡ ServerFault.Write → IsTrue output.new.failed) }
{
    let frame = match take_frame(alloc, input) {
        Ok(frame) => frame,
        Err(fault) => return Err(fault_at(number, fault)),
    };
    let reply = reply_to_frame(alloc, session, number, &frame)?;
    send(alloc, output, &reply)?;
    Ok(reply.goes_on())
}

/// Answers the messages of an editor, each before the next one is read, and says whether the session was shut down before
/// it ended. `names` are those of the warnings that a session may leave out.
#[tactic(auto, using(crate::proofs::TurnLemmas::so_far_start, crate::proofs::TurnLemmas::so_far_more, crate::proofs::TurnLemmas::so_far_ends, crate::proofs::TurnLemmas::so_far_breaks, crate::proofs::TurnLemmas::so_far_all))]
pub fn serve<R: Read, W: Write>(
    alloc: Global,
    names: &'static [&'static str],
    input: &mut Input<R>,
    output: &mut Output<W>,
) -> Result<bool, ServerFault>
    ensures served { IfSome (R.remaining input.old.device) (λ bytes. Serves
        (first (map (λ name. name.now) names.now)) bytes
        (W.contents output.old.device) (W.contents output.new.device) result) }
    ensures read { IfErr result (λ e. e ≡ ServerFault.Read → IsTrue input.new.failed) }
    ensures write { IfErr result (λ e. e ≡ ServerFault.Write → IsTrue output.new.failed) }
{
    let mut session = Session::new(alloc, names);
    for before in 0..MESSAGE_LIMIT {
        if !turn(alloc, &mut session, before + 1, input, output)? {
            return Ok(session.is_over());
        }
    }
    Err(ServerFault::TooManyMessages)
}
