//! A session: lines in, texts out.
ghost use Rattle.std.specs.Prelude.{◌≡◌, Ok, IfOk, IfErr, OnOk, OnErr, IfSome, ℕ, List, ◌≤◌, [], ◌↔◌, None, Some, length, drop, take, IsTrue};
ghost use Rattle.std.specs.Option.{option_map};
ghost use Rattle.std.specs.Io.KnownBytes.{Appends, Keeps, IsAtEnd, prepend_known};
ghost use Rattle.lab_io.specs.Device.{AppendsPrefix};
ghost use Rattle.lab_debug.specs.Effects.{session, world_session};
ghost use Rattle.lab_session.specs.Sessions.{state_of};
ghost use Rattle.lab_debug.specs.Script.{Explains};
ghost use Rattle.lab_debug.specs.declared.script.TheConstants.{CHUNK};
ghost use Rattle.lab_debug.specs.Lines.{line_limit};
ghost use Rattle.lab_debug.specs.Private.Reading.{TakesLine, TakesByte, Stops};
ghost use Rattle.lab_debug.specs.declared.script.SessionFault.TheVariants.{NoMemory};

use crate::effect::perform;
use crate::{LINE_COUNT_LIMIT, LINE_LIMIT};
use lab_io::{Failed, Input, Output};
use lab_sched::World;
use lab_session::Session;
use std::alloc::{AllocError, AllocFailed, Global};
use std::io::{Read, Write};
use std::marker::Model;
use thiserror::Error;

/// Who hears what the lines of a session are answered.
pub trait Audience {
    /// Hears a line, without its line feed, and the text that was written for it.
    fn hear(&self, line: &[u8], text: &[u8]);
}

/// An audience of nobody.
#[derive(Clone, Copy)]
pub struct Nobody;

impl Audience for Nobody {
    fn hear(&self, _line: &[u8], _text: &[u8]) {}
}

fn perform_lines<R: Read, W: Write, A: Audience>(
    alloc: Global,
    state: &mut Session,
    input: &mut Input<R>,
    output: &mut Output<W>,
    audience: &A,
) -> Result<(), SessionFault>
    ensures written { IfSome (R.remaining input.old.device) (λ bytes. OnOk result (Appends
        (W.contents output.old.device) (W.contents output.new.device)
        (session (state_of state.old) bytes).text)) }
    ensures state { IfSome (R.remaining input.old.device) (λ bytes.
        OnOk result ((session (state_of state.old) bytes).end ≡ Ok (state_of state.new))) }
    ensures prefix { IfSome (R.remaining input.old.device) (λ bytes. OnErr result (AppendsPrefix
        (W.contents output.old.device) (W.contents output.new.device)
        (session (state_of state.old) bytes).text)) }
    ensures fault { IfErr result (λ e. Explains e
        (option_map (session (state_of state.old)) (R.remaining input.old.device))
        input.new.failed output.new.failed) }
{
    let mut pending = Pending::new();
    for _ in 0..LINE_COUNT_LIMIT {
        let Some(line) = pending.read_line(alloc, input)? else {
            return Ok(());
        };
        let reply = perform(alloc, state, line.as_slice())?;
        let Ok(()) = output.write_all(reply.text.as_slice()) else {
            return Err(SessionFault::Write);
        };
        audience.hear(&line, &reply.text);
        if reply.ends {
            return Ok(());
        }
    }
    let Ok(is_over) = pending.is_at_end(input) else {
        return Err(SessionFault::Read);
    };
    if is_over {
        Ok(())
    } else {
        Err(SessionFault::TooManyLines)
    }
}

/// Carries out the lines of a script, and writes the text of each before the next is read. The audience hears it then.
pub fn session_over<R: Read, W: Write, A: Audience>(
    alloc: Global,
    state: Session,
    input: &mut Input<R>,
    output: &mut Output<W>,
    audience: &A,
) -> Result<Session, SessionFault>
    ensures written { IfSome (R.remaining input.old.device) (λ bytes. OnOk result (Appends
        (W.contents output.old.device) (W.contents output.new.device)
        (session (state_of state) bytes).text)) }
    ensures state { IfSome (R.remaining input.old.device) (λ bytes.
        IfOk result (λ last. (session (state_of state) bytes).end ≡ Ok (state_of last))) }
    ensures prefix { IfSome (R.remaining input.old.device) (λ bytes. OnErr result (AppendsPrefix
        (W.contents output.old.device) (W.contents output.new.device)
        (session (state_of state) bytes).text)) }
    ensures fault { IfErr result (λ e. Explains e
        (option_map (session (state_of state)) (R.remaining input.old.device))
        input.new.failed output.new.failed) }
{
    let mut state = state;
    perform_lines(alloc, &mut state, input, output, audience)?;
    Ok(state)
}

/// Carries out the lines of a script on a world, as [`session_over`] does on a session of it without
/// sources, in which `help` writes nothing.
#[tactic(auto, using(crate::proofs::WorldSessions::explains_world, crate::proofs::WorldSessions::ends_in_world, crate::proofs::WorldSessions::nothing_sent, crate::proofs::WorldSessions::written_of_world, crate::proofs::WorldSessions::begun_of_world))]
pub fn session<R: Read, W: Write>(
    alloc: Global,
    world: World,
    input: &mut Input<R>,
    output: &mut Output<W>,
) -> Result<World, SessionFault>
    ensures written { IfSome (R.remaining input.old.device) (λ bytes. OnOk result (Appends
        (W.contents output.old.device) (W.contents output.new.device)
        (world_session world bytes).text)) }
    ensures world { IfSome (R.remaining input.old.device) (λ bytes.
        IfOk result (λ last. (world_session world bytes).end ≡ Ok last)) }
    ensures prefix { IfSome (R.remaining input.old.device) (λ bytes. OnErr result (AppendsPrefix
        (W.contents output.old.device) (W.contents output.new.device)
        (world_session world bytes).text)) }
    ensures fault { IfErr result (λ e. Explains e
        (option_map (world_session world) (R.remaining input.old.device))
        input.new.failed output.new.failed) }
{
    let start = Session::of_world(alloc, world, "")?;
    let last = session_over(alloc, start, input, output, &Nobody)?;
    Ok(last.into_world())
}

/// How many bytes are read at once, at most.
const CHUNK: usize = 4096;

/// Bytes that were read and not yet taken.
#[derive(Drop)]
pub struct Pending {
    bytes: [u8; CHUNK],
    start: usize,
    end: usize,
}

impl Model for Pending {
    ghost Value = { List ℕ };

    ghost view = { λ p. drop p.start (take p.end p.bytes) };

    ghost invariant = { λ p. (p.start ≤ p.end) × (p.end ≤ CHUNK) };
}

impl Pending {
    /// No bytes.
    pub fn new() -> Pending
        ensures empty { result ≡ [] }
    {
        Pending {
            bytes: [0; CHUNK],
            start: 0,
            end: 0,
        }
    }

    /// Whether nothing more comes. It reads where nothing is left.
    pub fn is_at_end<R: Read>(&mut self, input: &mut Input<R>) -> Result<bool, Failed>
        ensures same { OnOk result (Keeps
            (prepend_known self.old (R.remaining input.old.device))
            (prepend_known self.new (R.remaining input.new.device))) }
        ensures end { IfOk result (λ end. IsTrue end ↔ (self.new ≡ [])) }
        ensures known { IfOk result (λ end. IsTrue end → IsAtEnd (R.remaining input.new.device)) }
        ensures err { OnErr result (IsTrue input.new.failed) }
    {
        if self.start < self.end {
            return Ok(false);
        }
        self.start = 0;
        self.end = 0;
        self.end = input.read(&mut self.bytes)?;
        Ok(self.end == 0)
    }

    /// The next byte, or none at the end.
    fn next_byte<R: Read>(&mut self, input: &mut Input<R>) -> Result<Option<u8>, Failed>
        ensures byte { IfOk result (λ next. TakesByte
            (prepend_known self.old (R.remaining input.old.device))
            (prepend_known self.new (R.remaining input.new.device)) next) }
        ensures err { OnErr result (IsTrue input.new.failed) }
    {
        if self.is_at_end(input)? {
            return Ok(None);
        }
        let byte = self.bytes[self.start];
        self.start += 1;
        Ok(Some(byte))
    }

    /// The next line without its line feed, or none at the end.
    pub fn read_line<R: Read>(
        &mut self,
        alloc: Global,
        input: &mut Input<R>,
    ) -> Result<Option<Vec<u8>>, SessionFault>
        ensures line { IfOk result (λ found. TakesLine
            (prepend_known self.old (R.remaining input.old.device))
            (prepend_known self.new (R.remaining input.new.device))
            (option_map (λ line. line.items) found)) }
        ensures limit { IfOk result (λ found.
            IfSome found (λ line. length line.items ≤ line_limit)) }
        ensures err { IfErr result (λ e.
            Stops e (prepend_known self.old (R.remaining input.old.device)) input.new.failed) }
    {
        let mut line = Vec::new(alloc);
        loop {
            let Ok(next) = self.next_byte(input) else {
                return Err(SessionFault::Read);
            };
            let Some(byte) = next else {
                if line.is_empty() {
                    return Ok(None);
                }
                return Ok(Some(line));
            };
            if byte == b'\n' {
                return Ok(Some(line));
            }
            if line.len() == LINE_LIMIT {
                return Err(SessionFault::LineTooLong);
            }
            line.push(byte)?;
        }
    }
}

/// Why a session broke off. Its world is given up, and a beginning of its text was written.
#[derive(Clone, Copy, Debug, PartialEq, Eq, Error)]
pub enum SessionFault {
    /// The input failed.
    #[error("cannot read")]
    Read,
    /// The output failed.
    #[error("cannot write")]
    Write,
    /// There is a line past the 1,000,000th.
    #[error("TooManyLines")]
    TooManyLines,
    /// A line has more than 65,536 bytes before its line feed.
    #[error("LineTooLong")]
    LineTooLong,
    /// Memory was refused.
    #[error("out of memory")]
    NoMemory,
}

impl From<AllocError> for SessionFault {
    ghost from_gives = { λ _ e. e ≡ NoMemory };

    fn from(_refused: AllocError) -> SessionFault {
        SessionFault::NoMemory
    }
}

impl<T: Drop> From<AllocFailed<T>> for SessionFault {
    ghost from_gives = { λ _ e. e ≡ NoMemory };

    fn from(_refused: AllocFailed<T>) -> SessionFault {
        SessionFault::NoMemory
    }
}
