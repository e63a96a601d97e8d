//! The commands of a script, as they are written.
ghost use Rattle.std.specs.Prelude.{◌≡◌, ◌≤◌, ◌+◌, IfOk, IfSome, map, ◌<◌};
ghost use Rattle.lab_sched.specs.ScheduleTexts.{reading_of_words};
ghost use Rattle.lab_debug.specs.Private.Ranges.{IsCommand};
ghost use Rattle.lab_debug.specs.Commands.{process_operand, step_of, until_of, go_of, bare_of, out_of, range_of, mark_of, read_schedule, is_named, marking_command, showing_command, plain_command, command_of, number_within, process_of, address_of, count_of, step_count_max};
ghost use Rattle.ipc_kernel.specs.Limits.{process_max};

use crate::command::{Command, Refusal, range_at};
use ipc_kernel::PROCESS_MAX;
use lab_sched::{MOST_STEPS, SchedFault, Schedule};
use lab_session::{Mark, MarkKind, Range};
use lc3_word::number_of;
use std::alloc::{AllocError, Global};

/// `P`
fn read_process(operands: &[&[u8]]) -> Option<usize>
    ensures value { result ≡ process_operand (map (λ word. word.now) operands.now) }
{
    let [pid] = operands else { return None };
    process_in(*pid)
}

/// `P N`
fn read_step(operands: &[&[u8]]) -> Option<Command>
    ensures value { result ≡ step_of (map (λ word. word.now) operands.now) }
    ensures ranges { IfSome result (λ command. IsCommand command) }
{
    let [pid, count] = operands else { return None };
    let pid = process_in(*pid)?;
    let count = count_in(*count)?;
    Some(Command::Step { pid, count })
}

/// `P ADDR N`, up to an address
fn read_until(operands: &[&[u8]]) -> Option<Command>
    ensures value { result ≡ until_of (map (λ word. word.now) operands.now) }
    ensures ranges { IfSome result (λ command. IsCommand command) }
{
    let [pid, address, count] = operands else {
        return None;
    };
    let pid = process_in(*pid)?;
    let address = address_in(*address)?;
    let count = count_in(*count)?;
    Some(Command::Until {
        pid,
        address,
        count,
    })
}

/// `P`, or `P N`, up to a stop
fn read_go(operands: &[&[u8]]) -> Option<Command>
    ensures value { result ≡ go_of (map (λ word. word.now) operands.now) }
    ensures ranges { IfSome result (λ command. IsCommand command) }
{
    let (pid, count) = match operands {
        [pid] => (process_in(*pid)?, STEP_COUNT_MAX),
        [pid, count] => (process_in(*pid)?, count_in(*count)?),
        _ => return None,
    };
    Some(Command::Go { pid, count })
}

/// `P ADDR N`, a range of its memory
fn read_range(operands: &[&[u8]]) -> Option<Range>
    ensures value { result ≡ range_of (map (λ word. word.now) operands.now) }
    ensures range { IfSome result (λ range. range.address + range.count ≤ 65536) }
{
    let [pid, address, count] = operands else {
        return None;
    };
    let pid = process_in(*pid)?;
    let address = address_in(*address)?;
    let count = number_in(1, 256, *count)?;
    range_at(pid, address, count)
}

/// `P ADDR`, a mark of this kind
fn read_mark(kind: MarkKind, operands: &[&[u8]]) -> Option<Mark>
    ensures value { result ≡ mark_of kind (map (λ word. word.now) operands.now) }
{
    let [pid, address] = operands else {
        return None;
    };
    let pid = process_in(*pid)?;
    let address = address_in(*address)?;
    Some(Mark { kind, pid, address })
}

fn read_bare(command: Command, operands: &[&[u8]]) -> Option<Command>
    requires ranges { IsCommand command }
    ensures value { result ≡ bare_of command (map (λ word. word.now) operands.now) }
    ensures ranges { IfSome result (λ c. IsCommand c) }
{
    operands.is_empty().then_some(command)
}

#[tactic(auto, unfolding(crate::specs::Commands::is_named))]
fn is_name(name: &str, word: &[u8]) -> bool
    ensures value { result ≡ is_named name.now word.now }
{
    name.as_bytes() == word
}

/// A command on marks or on the steps of the session, by its name and its operands.
#[tactic(auto, unfolding(crate::specs::Commands::marking_command))]
fn read_marking(name: &[u8], operands: &[&[u8]]) -> Result<Command, Refusal>
    ensures value { result ≡ marking_command name.now (map (λ word. word.now) operands.now) }
    ensures ranges { IfOk result (λ command. IsCommand command) }
{
    let command = match name {
        _ if is_name("break", name) => read_mark(MarkKind::Break, operands).map(Command::Set),
        _ if is_name("clear", name) => read_mark(MarkKind::Break, operands).map(Command::Unset),
        _ if is_name("breaks", name) => read_bare(Command::Marks(MarkKind::Break), operands),
        _ if is_name("watch", name) => read_mark(MarkKind::Watch, operands).map(Command::Set),
        _ if is_name("unwatch", name) => read_mark(MarkKind::Watch, operands).map(Command::Unset),
        _ if is_name("watches", name) => read_bare(Command::Marks(MarkKind::Watch), operands),
        _ if is_name("go", name) => read_go(operands),
        _ if is_name("steps", name) => read_bare(Command::Steps, operands),
        _ if is_name("schedule", name) => read_bare(Command::Taken, operands),
        _ => return Err(Refusal::UnknownCommand),
    };
    command.ok_or(Refusal::BadOperands)
}

/// `P`, of its output, or `--raw P`, of the same as it is
fn read_out(operands: &[&[u8]]) -> Option<Command>
    ensures value { result ≡ out_of (map (λ word. word.now) operands.now) }
    ensures ranges { IfSome result (λ command. IsCommand command) }
{
    match operands {
        [flag, pid] if is_name("--raw", *flag) => process_in(*pid).map(Command::Raw),
        _ => read_process(operands).map(Command::Out),
    }
}

/// A command that only shows something, by its name and its operands.
#[tactic(auto, unfolding(crate::specs::Commands::showing_command))]
fn read_showing(name: &[u8], operands: &[&[u8]]) -> Result<Command, Refusal>
    ensures value { result ≡ showing_command name.now (map (λ word. word.now) operands.now) }
    ensures ranges { IfOk result (λ command. IsCommand command) }
{
    let command = match name {
        _ if is_name("regs", name) => read_process(operands).map(Command::Regs),
        _ if is_name("mem", name) => read_range(operands).map(Command::Mem),
        _ if is_name("dis", name) => read_range(operands).map(Command::Dis),
        _ if is_name("procs", name) => read_bare(Command::Procs, operands),
        _ if is_name("mqs", name) => read_bare(Command::Mqs, operands),
        _ if is_name("sems", name) => read_bare(Command::Sems, operands),
        _ if is_name("fds", name) => read_process(operands).map(Command::Fds),
        _ if is_name("out", name) => read_out(operands),
        _ if is_name("profile", name) => read_bare(Command::Profile, operands),
        _ if is_name("help", name) => read_bare(Command::Help, operands),
        _ => return read_marking(name, operands),
    };
    command.ok_or(Refusal::BadOperands)
}

/// A command without a schedule by its name and its operands.
#[tactic(auto, unfolding(crate::specs::Commands::plain_command))]
fn read_plain(name: &[u8], operands: &[&[u8]]) -> Result<Command, Refusal>
    ensures value { result ≡ plain_command name.now (map (λ word. word.now) operands.now) }
    ensures ranges { IfOk result (λ command. IsCommand command) }
{
    let command = match name {
        _ if is_name("step", name) => read_step(operands),
        _ if is_name("until", name) => read_until(operands),
        _ if is_name("back", name) => match operands {
            [] => Some(Command::Back(1)),
            [count] => number_in(1, MOST_STEPS, *count).map(Command::Back),
            _ => None,
        },
        _ if is_name("quit", name) => read_bare(Command::Quit, operands),
        _ if is_name("where", name) => read_process(operands).map(Command::Where),
        _ if is_name("code", name) => read_range(operands).map(Command::Code),
        _ if is_name("labels", name) => read_process(operands).map(Command::Labels),
        _ => return read_showing(name, operands),
    };
    command.ok_or(Refusal::BadOperands)
}

/// `BLOCKS`, a schedule
fn read_schedule(alloc: Global, operands: &[&[u8]]) -> Result<Option<Schedule>, AllocError>
    ensures value { IfOk result (λ read.
        read ≡ read_schedule (reading_of_words (map (λ word. word.now) operands.now))) }
{
    match Schedule::read_words(alloc, operands) {
        Ok(schedule) => Ok(Some(schedule)),
        Err(SchedFault::NoMemory) => Err(AllocError),
        Err(SchedFault::BadBlock { .. } | SchedFault::TooLong { .. }) => Ok(None),
    }
}

/// A command by its name and its operands.
#[tactic(auto, unfolding(crate::specs::Commands::command_of))]
pub fn read_command(
    alloc: Global,
    name: &[u8],
    operands: &[&[u8]],
) -> Result<Result<Command, Refusal>, AllocError>
    ensures value { IfOk result (λ read.
        read ≡ command_of name.now (map (λ word. word.now) operands.now)) }
    ensures ranges { IfOk result (λ read. IfOk read (λ command. IsCommand command)) }
{
    let command = match name {
        _ if is_name("run", name) => read_schedule(alloc, operands)?.map(Command::Run),
        _ if is_name("play", name) => read_schedule(alloc, operands)?.map(Command::Play),
        _ => return Ok(read_plain(name, operands)),
    };
    Ok(command.ok_or(Refusal::BadOperands))
}

/// Blank, tab, carriage return: what is between the words of a line.
pub const BLANKS: &[u8] = b" \t\r";

/// The number that a word writes, from `low` to `high`.
#[tactic(auto, using(crate::proofs::NumberLemmas::number_within_capped))]
pub fn number_in(low: u32, high: u32, word: &[u8]) -> Option<u32>
    requires small { high < 1_000_000_000 }
    ensures value { result ≡ number_within low high word.now }
    ensures range { IfSome result (λ n. (low ≤ n) × (n ≤ high)) }
{
    let number = number_of(word)?;
    if i64::from(low) <= number && number <= i64::from(high) {
        Some(number as u32)
    } else {
        None
    }
}

/// A process, below [`PROCESS_MAX`].
pub fn process_in(word: &[u8]) -> Option<usize>
    ensures value { result ≡ process_of word.now }
    ensures range { IfSome result (λ pid. pid < process_max) }
{
    Some(number_in(0, PROCESS_MAX as u32 - 1, word)? as usize)
}

/// An address, 0 to 65,535.
pub fn address_in(word: &[u8]) -> Option<u16>
    ensures value { result ≡ address_of word.now }
{
    Some(number_in(0, 65_535, word)? as u16)
}

/// The most steps that a command asks for.
pub const STEP_COUNT_MAX: u32 = 1_000_000;

/// A number of steps, from 1 to [`STEP_COUNT_MAX`].
pub fn count_in(word: &[u8]) -> Option<u32>
    ensures value { result ≡ count_of word.now }
    ensures range { IfSome result (λ n. (1 ≤ n) × (n ≤ step_count_max)) }
{
    number_in(1, STEP_COUNT_MAX, word)
}
