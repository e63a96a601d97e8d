ghost use Rattle.std.specs.Prelude.{◌≡◌, ◌↔◌, ℕ, ◌+◌, ◌<◌, ◌≤◌, IsTrue, OnOk, IfOk, length, slice_index, replicate, slice_set};
ghost use Rattle.lc3_word.specs.Segment.{first_device};
ghost use Rattle.lc3_machine.specs.Process.{start, reg, next_pc, at_next_instruction};
ghost use Rattle.lc3_word.specs.Words.{word_sum};
ghost use Rattle.lc3_machine.specs.Console.{after_trap};
ghost use Rattle.lc3_machine.specs.Memory.{IsWritable, StaysReady};
ghost use Rattle.lc3_machine.specs.Reply.{CanTake, process_after_effect, process_after_end};

mod console;
mod copies;
mod execute;

use crate::effect::Effect;
use crate::input::Input;
use crate::memory::Memory;
use crate::want::{How, Want};
use lc3_table::Profile;
use lc3_word::{Cc, Reg, add, cc_of};
use std::alloc::{AllocError, Global};
use std::hash::{FoldHasher, Hasher};
use std::marker::Model;

/// The machine of a process, whatever the state of that: the states show it by their `machine`.
#[derive(Drop)]
pub struct Machine {
    profile: Profile,
    regs: Registers,
    pc: u16,
    /// The last result: the condition code is that of this word.
    result: u16,
    memory: Memory,
    input: Input,
    output: Vec<u8>,
}

impl Model for Machine {
    ghost use Rattle.lc3_machine.specs.Process.{Held};

    ghost Value = { Held };

    ghost use Rattle.lc3_machine.specs.Machine.{held_of_parts};

    ghost view = { held_of_parts };
}

/// The result of local steps.
#[derive(Clone, Copy, Debug, PartialEq, Eq)]
pub enum Progress {
    /// All are done.
    Moved,
    /// The next instruction is a trap of the kernel or an end: it isn't done.
    Stopped(Want),
    /// Memory was refused to the next instruction: it isn't done, and may be tried again.
    Short,
}

impl Machine {
    /// A process at its start.
    #[tactic(auto, unfolding(lc3_word::specs::Codes::cc_of))]
    pub(crate) fn load(
        alloc: Global,
        profile: Profile,
        origin: u16,
        words: &[u16],
        input: &[u8],
    ) -> Result<Machine, AllocError>
        requires below_devices { origin + length words.now ≤ first_device }
        ensures start { IfOk result (λ m. m.process ≡ start profile origin words.now input.now) }
    {
        Ok(Machine {
            profile,
            regs: Registers::new(),
            pc: origin,
            result: 0,
            memory: Memory::load(alloc, origin, words)?,
            input: Input::new(alloc, input)?,
            output: Vec::new(alloc),
        })
    }

    /// The profile of the machine.
    pub fn profile(&self) -> Profile
        ensures value { result ≡ self.now.process.profile }
    {
        self.profile
    }

    /// What a register holds, 0 to xFFFF.
    #[inline(always)]
    pub fn reg(&self, r: Reg) -> u16
        ensures value { result ≡ reg self.now.process r }
    {
        self.regs.get(r.number())
    }

    /// The program counter, 0 to xFFFF: the address of the next instruction.
    pub fn pc(&self) -> u16
        ensures value { result ≡ self.now.process.pc }
    {
        self.pc
    }

    /// The condition code that is set, one of the three.
    #[inline(always)]
    #[tactic(auto, unfolding(lc3_word::specs::Codes::cc_of))]
    pub fn cc(&self) -> Cc
        ensures value { result ≡ self.now.process.cc }
    {
        cc_of(self.result)
    }

    /// The word at an address. A word that was never written is 0, and so are the device registers,
    /// xFE00 and above.
    pub fn word(&self, address: u16) -> u16
        ensures word { result ≡ slice_index self.now.process.memory address }
        ensures whole { length self.now.process.memory ≡ 65536 }
    {
        self.memory.get(address)
    }

    /// The bytes of console input that were not read yet.
    pub fn input_left(&self) -> &[u8]
        ensures value { result.now ≡ self.now.process.input }
    {
        self.input.left()
    }

    /// The bytes written to the console so far, the oldest first.
    pub fn output(&self) -> &[u8]
        ensures value { result.now ≡ self.now.process.output }
    {
        self.output.as_slice()
    }

    /// Makes the words of a range writable; where memory is refused some of them may be.
    pub(crate) fn reserve(&mut self, at: u16, len: u16) -> Result<(), AllocError>
        requires below_devices { (k : ℕ) → k < len → at + k < first_device }
        ensures process { self.new.process ≡ self.old.process }
        ensures ready { StaysReady self.old.ready self.new.ready }
        ensures ok { OnOk result (IsWritable self.new.ready at len) }
    {
        self.memory.reserve(at, len)
    }

    /// Whether each word of a range can be written without taking memory.
    pub(crate) fn is_writable(&self, at: u16, len: u16) -> bool
        ensures writable { IsTrue result ↔ IsWritable self.now.ready at len }
    {
        self.memory.is_writable(at, len)
    }

    /// Answers the call that the process stands before.
    #[inline(always)]
    pub(crate) fn answer(&mut self, effect: Effect<'_>)
        requires room { CanTake self.old.ready effect }
        ensures answered { self.new.process ≡ process_after_effect self.old.process effect.entry }
    {
        let result = match effect {
            Effect::Plain(result) => result,
            Effect::Message {
                at,
                words,
                prio_at,
                prio,
            } => {
                let count = words.len() as u16;
                self.memory.put(at, words);
                if let Some(at) = prio_at {
                    self.memory.put(at, &[prio]);
                }
                count
            }
            Effect::Four { at, words } => {
                if let Some(at) = at {
                    self.memory.put(at, &words);
                }
                0
            }
            Effect::One { at, word } => {
                self.memory.put(at, &[word]);
                0
            }
        };
        self.regs.set(0, result);
        self.return_from_trap();
    }

    /// Ends the process.
    pub(crate) fn end(&mut self, how: How)
        ensures ended { self.new.process ≡ process_after_end self.old.process how }
    {
        if how == How::Halt {
            self.return_from_trap();
        }
    }

    /// The incremented program counter.
    #[inline(always)]
    fn next_pc(&self) -> u16
        ensures value { result ≡ next_pc self.now.process }
    {
        add(self.pc, 1)
    }

    /// The address at an offset from the incremented program counter.
    #[inline(always)]
    fn target(&self, offset: u16) -> u16
        ensures value { result ≡ word_sum (next_pc self.now.process) offset }
    {
        add(self.next_pc(), offset)
    }

    /// The address at an offset from the one in a register.
    #[inline(always)]
    fn at(&self, base: Reg, offset: u16) -> u16
        ensures value { result ≡ word_sum (reg self.now.process base) offset }
    {
        add(self.reg(base), offset)
    }

    /// Goes on at the next instruction.
    #[inline(always)]
    fn advance(&mut self)
        ensures advanced { self.new.process ≡ at_next_instruction self.old.process }
    {
        self.pc = self.next_pc();
    }

    /// Goes on after a trap; in profile A the address where it goes on stands in R7.
    #[inline(always)]
    fn return_from_trap(&mut self)
        ensures returned { self.new.process ≡ after_trap self.old.process }
    {
        let next = self.next_pc();
        match self.profile {
            Profile::A => self.regs.set(7, next),
            Profile::B => {}
        }
        self.pc = next;
    }
}

/// The eight registers.
#[derive(Drop)]
struct Registers {
    words: [u16; 8],
}

impl Model for Registers {
    ghost use Rattle.std.specs.Prelude.{List, ℕ};

    ghost Value = { List ℕ };

    ghost view = { λ r. r.words };
}

impl Registers {
    /// All of them zero.
    pub(crate) fn new() -> Registers
        ensures zero { result ≡ replicate 8 0 }
    {
        Registers { words: [0; 8] }
    }

    #[inline(always)]
    pub(crate) fn get(&self, number: u8) -> u16
        requires number { number < 8 }
        ensures word { result ≡ slice_index self.now number }
    {
        self.words[number as usize]
    }

    #[inline(always)]
    pub(crate) fn set(&mut self, number: u8, word: u16)
        requires number { number < 8 }
        ensures word { self.new ≡ slice_set self.old number word }
    {
        self.words[number as usize] = word;
    }

    pub(crate) fn copy(&self) -> Registers
        ensures equal { result ≡ self.now }
    {
        Registers { words: self.words }
    }

    pub(crate) fn is_same(&self, other: &Registers) -> bool
        ensures same { IsTrue result ↔ (self.now ≡ other.now) }
    {
        self.words == other.words
    }

    pub(crate) fn feed(&self, hasher: &mut FoldHasher) {
        for word in &self.words {
            hasher.write_u16(*word);
        }
    }
}
