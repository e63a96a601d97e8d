//! A process that waits.
ghost use Rattle.std.specs.Prelude.{◌≡◌};
ghost use Rattle.lc3_machine.specs.declared.want.Want.TheVariants.{Trap};
ghost use Rattle.lc3_machine.specs.Process.{Stops};
ghost use Rattle.lc3_machine.specs.Effects.{next_step};
ghost use Rattle.lc3_machine.specs.Reply.{CanTake, process_after_effect};
ghost use Rattle.lc3_machine.specs.Steps.{AsksTrap};

use crate::effect::Effect;
use crate::machine::Machine;
use crate::states::{AtCall, Ended, Running, Waiting};
use crate::want::{How, Want};

impl Waiting {
    /// The process as it stands before its trap.
    #[inline(always)]
    pub fn at_call(&self) -> &AtCall
        ensures same { result.now ≡ self.now }
        ensures trap { AsksTrap self.now.process }
    {
        &self.call
    }

    /// Answers the trap.
    pub fn finish(self, effect: Effect<'_>) -> Running
        requires room { CanTake self.ready effect }
        ensures answered { result.process ≡ process_after_effect self.process effect.entry }
    {
        let Waiting { call } = self;
        call.finish(effect)
    }

    /// The vector of the trap that the process stands before.
    #[inline(always)]
    pub fn vector(&self) -> u8
        ensures trap { next_step self.now.process ≡ Stops (Trap result) }
    {
        match self.call.want {
            Want::Trap(vector) => vector,
            Want::End(_) => unreachable!(),
        }
    }

    /// The process as it was before it began to wait.
    #[inline(always)]
    pub fn back(self) -> Running
        ensures same { result ≡ self }
    {
        let Waiting { call } = self;
        call.back()
    }

    /// The machine of the process, which shows what it holds.
    #[inline(always)]
    pub fn machine(&self) -> &Machine
        ensures same { result.now ≡ self.now }
    {
        self.call.machine()
    }
}

impl Ended {
    /// How the process ended.
    pub fn how(&self) -> How
        ensures value { result ≡ self.now.how }
    {
        self.how
    }

    /// The machine of the process, which shows what it holds.
    #[inline(always)]
    pub fn machine(&self) -> &Machine
        ensures process { result.now.process ≡ self.now.process }
    {
        &self.machine
    }
}
