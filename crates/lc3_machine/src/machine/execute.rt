//! The effect of each instruction.

ghost use Rattle.std.specs.Prelude.{◌≡◌, ◌<◌, ◌≤◌, ◌-◌, ℕ, if◌then◌else◌};
ghost use Rattle.lc3_machine.specs.Process.{GoesOn, at_next_instruction, at_address, with_result, at_routine, at_word, outcome_of_load, outcome_of_store};
ghost use Rattle.lc3_machine.specs.Effects.{effect, next_step, is_among, process_after_branch, operand_value, with_address};
ghost use Rattle.lc3_machine.specs.Steps.{HasRun};
ghost use Rattle.lc3_machine.specs.Private.Carried.{CarriedOut};

use super::{Machine, Progress};
use crate::want::{How, Want};
use lc3_table::{Instr, Operand, Profile, decode};
use lc3_word::{FIRST_DEVICE, Reg, add};

impl Machine {
    /// Puts a result into a register, sets the code from it, and goes on at the next instruction.
    #[inline(always)]
    fn give(&mut self, dr: Reg, value: u16) -> Progress
        ensures value { CarriedOut
            (GoesOn (at_next_instruction (with_result self.old.process dr value)))
            self.old.process result self.new.process }
    {
        self.regs.set(dr.number(), value);
        self.result = value;
        self.advance();
        Progress::Moved
    }

    /// Puts an address into a register, and goes on at the next instruction; in profile A it sets the code from it.
    #[inline(always)]
    fn give_address(&mut self, dr: Reg, address: u16) -> Progress
        ensures address { CarriedOut
            (GoesOn (at_next_instruction (with_address self.old.process dr address)))
            self.old.process result self.new.process }
    {
        self.regs.set(dr.number(), address);
        match self.profile {
            Profile::A => self.result = address,
            Profile::B => {}
        }
        self.advance();
        Progress::Moved
    }

    /// Goes on elsewhere.
    #[inline(always)]
    fn jump(&mut self, address: u16) -> Progress
        ensures jump { CarriedOut (GoesOn (at_address self.old.process address))
            self.old.process result self.new.process }
    {
        self.pc = address;
        Progress::Moved
    }

    /// Goes on elsewhere, with the address of the next instruction in R7.
    #[inline(always)]
    fn call(&mut self, routine: u16) -> Progress
        ensures call { CarriedOut (GoesOn (at_routine self.old.process routine))
            self.old.process result self.new.process }
    {
        let link = self.next_pc();
        self.regs.set(7, link);
        self.pc = routine;
        Progress::Moved
    }

    /// Whether the code that is set is among these. It is asked of the last result, which takes fewer comparisons.
    #[tactic(auto, unfolding(lc3_word::specs::Codes::cc_of))]
    #[inline(always)]
    fn is_among(&self, n: bool, z: bool, p: bool) -> bool
        ensures value { result ≡ is_among self.now.process.cc n z p }
    {
        if self.result >> 15 == 1 {
            n
        } else if self.result == 0 {
            z
        } else {
            p
        }
    }

    /// Goes on elsewhere if the code that is set is among these, and else at the next instruction.
    #[inline(always)]
    fn branch(&mut self, n: bool, z: bool, p: bool, address: u16) -> Progress
        ensures branch { CarriedOut (GoesOn (process_after_branch self.old.process n z p address))
            self.old.process result self.new.process }
    {
        self.pc = if self.is_among(n, z, p) {
            address
        } else {
            self.next_pc()
        };
        Progress::Moved
    }

    /// Puts the word at an address into a register.
    #[inline(always)]
    fn load_into(&mut self, dr: Reg, address: u16) -> Progress
        ensures load { CarriedOut (outcome_of_load self.old.process dr address)
            self.old.process result self.new.process }
    {
        if address >= FIRST_DEVICE {
            return Progress::Stopped(Want::End(How::Device));
        }
        let word = self.memory.get(address);
        self.give(dr, word)
    }

    /// Puts the word at the address that stands at an address into a register.
    #[inline(always)]
    fn load_indirect(&mut self, dr: Reg, address: u16) -> Progress
        ensures load { CarriedOut
            (at_word self.old.process address
            (λ pointer. outcome_of_load self.old.process dr pointer))
            self.old.process result self.new.process }
    {
        if address >= FIRST_DEVICE {
            return Progress::Stopped(Want::End(How::Device));
        }
        let pointer = self.memory.get(address);
        self.load_into(dr, pointer)
    }

    /// Stores a word at an address.
    #[inline(always)]
    fn store(&mut self, address: u16, word: u16) -> Progress
        ensures store { CarriedOut (outcome_of_store self.old.process address word)
            self.old.process result self.new.process }
    {
        if address >= FIRST_DEVICE {
            return Progress::Stopped(Want::End(How::Device));
        }
        match self.memory.set(address, word) {
            Ok(()) => {
                self.advance();
                Progress::Moved
            }
            Err(_) => Progress::Short,
        }
    }

    /// Stores a word at the address that stands at an address.
    #[inline(always)]
    fn store_indirect(&mut self, address: u16, word: u16) -> Progress
        ensures store { CarriedOut
            (at_word self.old.process address
            (λ pointer. outcome_of_store self.old.process pointer word))
            self.old.process result self.new.process }
    {
        if address >= FIRST_DEVICE {
            return Progress::Stopped(Want::End(How::Device));
        }
        let pointer = self.memory.get(address);
        self.store(pointer, word)
    }

    /// The word of the second operand of ADD and AND.
    #[inline(always)]
    fn operand(&self, operand: Operand) -> u16
        ensures value { result ≡ operand_value self.now.process operand }
    {
        match operand {
            Operand::Register(sr2) => self.reg(sr2),
            Operand::Number(imm5) => imm5.word(),
        }
    }

    /// Does an instruction, or stands before a call or an end.
    #[tactic(auto, unfolding(crate::specs::Effects::effect))]
    #[inline(always)]
    fn execute(&mut self, instr: Instr) -> Progress
        ensures effect { CarriedOut (effect instr self.old.process)
            self.old.process result self.new.process }
    {
        match instr {
            Instr::Add { dr, sr1, operand } => {
                self.give(dr, add(self.reg(sr1), self.operand(operand)))
            }
            Instr::And { dr, sr1, operand } => self.give(dr, self.reg(sr1) & self.operand(operand)),
            Instr::Not { dr, sr } => self.give(dr, !self.reg(sr)),
            Instr::Br { n, z, p, offset } => self.branch(n, z, p, self.target(offset.word())),
            Instr::Jmp { base } => self.jump(self.reg(base)),
            Instr::Jsr { offset } => self.call(self.target(offset.word())),
            Instr::Jsrr { base } => self.call(self.reg(base)),
            Instr::Ld { dr, offset } => self.load_into(dr, self.target(offset.word())),
            Instr::Ldi { dr, offset } => self.load_indirect(dr, self.target(offset.word())),
            Instr::Ldr { dr, base, offset } => self.load_into(dr, self.at(base, offset.word())),
            Instr::Lea { dr, offset } => self.give_address(dr, self.target(offset.word())),
            Instr::St { sr, offset } => self.store(self.target(offset.word()), self.reg(sr)),
            Instr::Sti { sr, offset } => {
                self.store_indirect(self.target(offset.word()), self.reg(sr))
            }
            Instr::Str { sr, base, offset } => {
                self.store(self.at(base, offset.word()), self.reg(sr))
            }
            Instr::Rti => Progress::Stopped(Want::End(How::Illegal)),
            Instr::Trap { vector } => self.trap(vector),
        }
    }

    /// Does the next step, or stands before a call or an end.
    #[tactic(auto, unfolding(crate::specs::Effects::next_step))]
    #[inline(always)]
    pub(crate) fn step(&mut self) -> Progress
        ensures step { CarriedOut (next_step self.old.process)
            self.old.process result self.new.process }
    {
        if self.pc >= FIRST_DEVICE {
            return Progress::Stopped(Want::End(How::Device));
        }
        let Some(instr) = decode(self.memory.get(self.pc)) else {
            return Progress::Stopped(Want::End(How::Illegal));
        };
        self.execute(instr)
    }

    /// Does at most this many steps; with how many are left, and what kept the next one from being done, if there are
    /// some. Of a loop that counts down each step takes an instruction less.
    #[inline(always)]
    pub(crate) fn run(&mut self, max: u32) -> (u32, Progress)
        ensures run { HasRun self.old.process max result.1 self.new.process (max - result.0) }
        ensures within { result.0 ≤ max }
    {
        let mut left = max;
        while left > 0 {
            match self.step() {
                Progress::Moved => left -= 1,
                Progress::Stopped(want) => return (left, Progress::Stopped(want)),
                Progress::Short => return (left, Progress::Short),
            }
        }
        (0, Progress::Moved)
    }
}
