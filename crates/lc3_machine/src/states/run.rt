//! A process that runs.
ghost use Rattle.std.specs.Prelude.{◌≡◌, ℕ, ◌+◌, ◌<◌, ◌≤◌, ◌↔◌, IsTrue, IfOk, OnOk};
ghost use Rattle.lc3_word.specs.Segment.{first_device};
ghost use Rattle.lc3_machine.specs.declared.want.Want.TheVariants.{Trap, End};
ghost use Rattle.lc3_machine.specs.Process.{start, Stops};
ghost use Rattle.lc3_machine.specs.Memory.{IsWritable, StaysReady};
ghost use Rattle.lc3_machine.specs.Effects.{next_step};
ghost use Rattle.lc3_machine.specs.Reply.{CanTake, process_after_effect, process_after_end};
ghost use Rattle.lc3_machine.specs.Steps.{AsksTrap, HasRun, AsksEnd, IsStep, IsRun};
ghost use Rattle.lc3_machine.specs.declared.want.Want.TheVariants as wants;

use crate::effect::Effect;
use crate::machine::{Machine, Progress};
use crate::states::{AtCall, Ended, Local, Running, Waiting};
use crate::want::{How, Want};
use lc3_table::Profile;
use lc3_word::Image;
use std::alloc::{AllocError, Global};

impl Running {
    /// A process at its start: a machine of this profile, the image in memory and zeros around it, registers 0, code Z,
    /// the program counter at the image's origin, this console input, and no output. An error is want of memory.
    pub fn load(
        alloc: Global,
        image: &Image,
        input: &[u8],
        profile: Profile,
    ) -> Result<Running, AllocError>
        ensures start { IfOk result
            (λ r. r.process ≡ start profile image.now.origin image.now.words input.now) }
    {
        let machine = Box::new(
            alloc,
            Machine::load(alloc, profile, image.origin(), image.words(), input)?,
        )?;
        Ok(Running { machine })
    }

    /// Does at most this many instructions of the process's own in place; with how many were done, and what kept the
    /// next one from being done, if they are fewer: a call or an end, which isn't counted, or refused memory, after
    /// which the instruction may be tried again.
    #[inline(always)]
    pub fn advance(&mut self, max: u32) -> (u32, Progress)
        ensures run { HasRun self.old.process max result.1 self.new.process result.0 }
    {
        let (left, progress) = self.machine.run(max);
        (max - left, progress)
    }

    /// Makes the words of a range writable; what they hold stays the same. An error is want of memory: part of the
    /// range may be writable then.
    pub fn reserve(&mut self, at: u16, len: u16) -> Result<(), AllocError>
        requires below_devices { (k : ℕ) → k < len → at + k < first_device }
        ensures process { self.new.process ≡ self.old.process }
        ensures ready { StaysReady self.old.ready self.new.ready }
        ensures ok { OnOk result (IsWritable self.new.ready at len) }
    {
        self.machine.reserve(at, len)
    }

    /// Whether each word of a range is below xFE00 and writable, so that `answer` may write it.
    pub fn ready(&self, at: u16, len: u16) -> bool
        ensures writable { IsTrue result ↔ IsWritable self.now.ready at len }
    {
        self.machine.is_writable(at, len)
    }

    /// Answers the trap that the process stands before: it goes on behind it, with what the effect writes. It takes no
    /// memory.
    #[inline(always)]
    pub fn answer(&mut self, effect: Effect<'_>)
        requires trap { AsksTrap self.old.process }
        requires room { CanTake self.old.ready effect }
        ensures answered { self.new.process ≡ process_after_effect self.old.process effect.entry }
    {
        self.machine.answer(effect);
    }

    /// The process begins to wait for the answer of the trap with this vector, which it stands before; nothing else
    /// changes.
    #[inline(always)]
    pub fn wait(self, vector: u8) -> Waiting
        requires trap { next_step self.process ≡ Stops (Trap vector) }
        ensures same { result ≡ self }
    {
        Waiting {
            call: AtCall {
                running: self,
                want: Want::Trap(vector),
            },
        }
    }

    /// Ends the process in this way, as its next instruction does.
    pub fn end(self, how: How) -> Ended
        requires end { next_step self.process ≡ Stops (End how) }
        ensures how { result.how ≡ how }
        ensures process { result.process ≡ process_after_end self.process how }
    {
        let Running { mut machine } = self;
        machine.end(how);
        Ended { machine, how }
    }

    /// The machine of the process, which shows what it holds.
    #[inline(always)]
    pub fn machine(&self) -> &Machine
        ensures same { result.now ≡ self.now }
    {
        &self.machine
    }
}

impl Running {
    /// Does the next instruction, if it is the process's own.
    pub fn step(self) -> Local
        ensures step { IsStep self.process result }
    {
        self.run_local(1).0
    }

    /// Does at most this many instructions, as `step` does each; with how many were done.
    pub fn run_local(self, max: u32) -> (Local, u32)
        ensures run { IsRun self.process max result.0 result.1 }
    {
        let mut running = self;
        let (done, progress) = running.advance(max);
        match progress {
            Progress::Moved => (Local::Running(running), done),
            Progress::Stopped(want) => (Local::AtCall(AtCall { running, want }), done),
            Progress::Short => (Local::Short(running), done),
        }
    }
}

impl AtCall {
    /// The machine of the process, which shows what it holds.
    #[inline(always)]
    pub fn machine(&self) -> &Machine
        ensures same { result.now ≡ self.now }
    {
        self.running.machine()
    }

    /// The trap or the end that the process stands before.
    pub fn want(&self) -> Want
        ensures want { next_step self.now.process ≡ Stops result }
    {
        self.want
    }

    /// Makes the words of a range writable; what they hold stays the same.
    pub fn reserve(&mut self, at: u16, len: u16) -> Result<(), AllocError>
        requires below_devices { (k : ℕ) → k < len → at + k < first_device }
        ensures process { self.new.process ≡ self.old.process }
        ensures ready { StaysReady self.old.ready self.new.ready }
        ensures ok { OnOk result (IsWritable self.new.ready at len) }
    {
        self.running.reserve(at, len)
    }

    /// Whether each word of a range is below xFE00 and writable.
    pub fn ready(&self, at: u16, len: u16) -> bool
        ensures writable { IsTrue result ↔ IsWritable self.now.ready at len }
    {
        self.running.ready(at, len)
    }

    /// The process as it was before its call.
    pub fn back(self) -> Running
        ensures same { result ≡ self }
    {
        let AtCall { running, want: _ } = self;
        running
    }

    /// Answers the trap.
    pub fn finish(self, effect: Effect<'_>) -> Running
        requires trap { AsksTrap self.process }
        requires room { CanTake self.ready effect }
        ensures answered { result.process ≡ process_after_effect self.process effect.entry }
    {
        let AtCall {
            mut running,
            want: _,
        } = self;
        running.answer(effect);
        running
    }

    /// The process begins to wait.
    pub fn wait(self) -> Waiting
        requires trap { AsksTrap self.process }
        ensures same { result ≡ self }
    {
        Waiting { call: self }
    }

    /// Ends the process.
    pub fn end(self) -> Ended
        requires end { AsksEnd self.process }
        ensures how { next_step self.process ≡ Stops (wants.End result.how) }
        ensures process { result.process ≡ process_after_end self.process result.how }
    {
        let AtCall { running, want } = self;
        match want {
            Want::End(how) => running.end(how),
            Want::Trap(_) => unreachable!(),
        }
    }
}
