//! The commands of a script, and why a line is refused.
ghost use Rattle.std.specs.Prelude.{◌≡◌, ◌+◌, ◌≤◌, IfSome};
ghost use Rattle.lab_debug.specs.Private.Ranges.{IsCommand};
ghost use Rattle.lab_debug.specs.Commands.{range_from};
ghost use Rattle.lab_debug.specs.Labels.{addressed, named_process, command_at};

use lab_sched::Schedule;
use lab_session::{Mark, MarkKind, Range};

/// What a line asks for.
#[derive(Drop)]
pub enum Command {
    /// So many steps of a process.
    Step {
        pid: usize,
        count: u32,
    },
    /// The steps of a schedule.
    Run(Schedule),
    /// The steps of a schedule, up to a break or a change of a watched word.
    Play(Schedule),
    /// At most so many steps of a process, up to an address.
    Until {
        pid: usize,
        address: u16,
        count: u32,
    },
    /// At most so many steps of a process, up to a break or a change of a watched word.
    Go {
        pid: usize,
        count: u32,
    },
    /// A mark to set.
    Set(Mark),
    /// A mark to take off.
    Unset(Mark),
    /// The marks of a kind.
    Marks(MarkKind),
    /// How many steps had an effect.
    Steps,
    /// The schedule of the steps that had an effect.
    Taken,
    /// The state before the last so many steps that had an effect.
    Back(u32),
    /// The registers of a process.
    Regs(usize),
    /// A range of memory of a process.
    Mem(Range),
    /// The same with the text of each word.
    Dis(Range),
    /// Each status line.
    Procs,
    /// The queues.
    Mqs,
    /// The semaphores.
    Sems,
    /// The descriptors and slots of a process.
    Fds(usize),
    /// The output of a process, so that it can be printed.
    Out(usize),
    /// The output of a process as it is.
    Raw(usize),
    /// Where a process stands in its source.
    Where(usize),
    /// A range of memory of a process with its labels and the lines of its source.
    Code(Range),
    /// The labels of a process.
    Labels(usize),
    /// The profile of the machine.
    Profile,
    /// The commands.
    Help,
    /// The end of the session.
    Quit,
}

/// Why a line is refused, in this order.
#[derive(Clone, Copy)]
pub enum Refusal {
    /// The first word is no command.
    UnknownCommand,
    /// The count, the form or the range of the operands isn't the command's.
    BadOperands,
    /// A process that is named isn't there.
    NoProcess,
    /// A label that is named isn't in the source of its process, or the process has no source.
    NoLabel,
    /// There is no mark of this kind at the address.
    NoMark(MarkKind),
}

/// A range that begins at an address, where it ends within memory.
pub fn range_at(pid: usize, address: u16, count: u32) -> Option<Range>
    requires few { count ≤ 65536 }
    ensures value { result ≡ range_from pid address count }
    ensures range { IfSome result (λ r. r.address + r.count ≤ 65536) }
{
    (u32::from(address) + count <= 65_536).then_some(Range {
        pid,
        address,
        count,
    })
}

impl Command {
    /// The process in whose memory the command has an address.
    pub fn addressed(&self) -> Option<usize>
        ensures value { result ≡ addressed self.now }
    {
        match self {
            Command::Until { pid, .. } => Some(*pid),
            Command::Mem(range) | Command::Dis(range) | Command::Code(range) => Some(range.pid),
            Command::Set(mark) | Command::Unset(mark) => Some(mark.pid),
            _ => None,
        }
    }

    /// The process that the command names, unless it has a schedule.
    pub fn process(&self) -> Option<usize>
        ensures value { result ≡ named_process self.now }
    {
        match self {
            Command::Step { pid, .. }
            | Command::Go { pid, .. }
            | Command::Regs(pid)
            | Command::Fds(pid)
            | Command::Out(pid)
            | Command::Raw(pid)
            | Command::Where(pid)
            | Command::Labels(pid) => Some(*pid),
            _ => self.addressed(),
        }
    }

    /// The command with this address in the place of its own, where its range ends within memory.
    pub fn at(self, address: u16) -> Option<Command>
        requires ranges { IsCommand self }
        ensures value { result ≡ command_at address self }
        ensures ranges { IfSome result (λ command. IsCommand command) }
    {
        match self {
            Command::Until { pid, count, .. } => Some(Command::Until {
                pid,
                address,
                count,
            }),
            Command::Set(mark) => Some(Command::Set(Mark { address, ..mark })),
            Command::Unset(mark) => Some(Command::Unset(Mark { address, ..mark })),
            Command::Mem(range) => range_at(range.pid, address, range.count).map(Command::Mem),
            Command::Dis(range) => range_at(range.pid, address, range.count).map(Command::Dis),
            Command::Code(range) => range_at(range.pid, address, range.count).map(Command::Code),
            _ => None,
        }
    }
}
