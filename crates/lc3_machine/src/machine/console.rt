//! The console traps. Each looks at its input or string, then makes room for what it writes, and only then writes.

ghost use Rattle.std.specs.Prelude.{[], ◌∷◌, ◌≡◌, ◌++◌, ◌+◌, ◌*◌, ◌<◌, ◌≤◌, map, take, flat_map, vec_len, vec_capacity, if◌then◌else◌};
ghost use Rattle.lc3_word.specs.Segment.{first_device};
ghost use Rattle.lc3_machine.specs.Console.{words_from, low_byte, packed_bytes, getc, out, puts, outcome_of_in, putsp};
ghost use Rattle.lc3_machine.specs.Effects.{outcome_of_trap};
ghost use Rattle.lc3_machine.specs.Private.Carried.{CarriedOut};

use super::{Machine, Progress};
use crate::memory::Memory;
use crate::want::{How, Want};
use lc3_table::{ConsoleTrap, is_kernel_vector};

/// What IN writes before it reads.
const PROMPT: &[u8] = b"Input a character> ";

impl Machine {
    /// GETC: the next byte of the input into R0.
    #[inline(never)]
    fn getc(&mut self) -> Progress
        ensures getc { CarriedOut (getc self.old.process self.old.process.input)
            self.old.process result self.new.process }
    {
        match self.input.next() {
            None => Progress::Stopped(Want::End(How::NoInput)),
            Some(byte) => {
                self.regs.set(0, byte as u16);
                self.return_from_trap();
                Progress::Moved
            }
        }
    }

    /// OUT: the low byte of R0 to the output.
    #[inline(never)]
    fn out(&mut self) -> Progress
        ensures out { CarriedOut (out self.old.process) self.old.process result self.new.process }
    {
        let byte = (self.regs.get(0) % 256) as u8;
        match self.output.push(byte) {
            Ok(()) => {
                self.return_from_trap();
                Progress::Moved
            }
            Err(_) => Progress::Short,
        }
    }

    /// IN: the next byte of the input into R0, with a prompt before it and its echo.
    #[inline(never)]
    fn ask(&mut self) -> Progress
        ensures ask { CarriedOut (outcome_of_in self.old.process self.old.process.input)
            self.old.process result self.new.process }
    {
        if self.input.left().is_empty() {
            return Progress::Stopped(Want::End(How::NoInput));
        }
        if self.output.try_reserve(PROMPT.len() + 2).is_err() {
            return Progress::Short;
        }
        match self.input.next() {
            None => Progress::Stopped(Want::End(How::NoInput)),
            Some(byte) => {
                self.regs.set(0, byte as u16);
                let _ = self.output.extend_from_slice(PROMPT);
                let _ = self.output.extend_from_slice(&[byte, b'\n']);
                self.return_from_trap();
                Progress::Moved
            }
        }
    }

    /// PUTS or PUTSP: the low bytes, or both bytes, of each word of the string whose address is in R0.
    #[inline(never)]
    fn put_string(&mut self, is_packed: bool) -> Progress
        ensures string { CarriedOut
            (if is_packed then putsp self.old.process else puts self.old.process)
            self.old.process result self.new.process }
    {
        let address = self.regs.get(0);
        let Some(count) = self.memory.string_len(address) else {
            return Progress::Stopped(Want::End(How::Device));
        };
        let room = if is_packed {
            2 * count as usize
        } else {
            count as usize
        };
        if self.output.try_reserve(room).is_err() {
            return Progress::Short;
        }
        if is_packed {
            write_packed_bytes(&mut self.output, &self.memory, address, count);
        } else {
            write_low_bytes(&mut self.output, &self.memory, address, count);
        }
        self.return_from_trap();
        Progress::Moved
    }

    /// Does a console trap, or stands before a call or an end.
    #[tactic(auto, unfolding(crate::specs::Effects::outcome_of_trap))]
    #[inline(always)]
    pub(super) fn trap(&mut self, vector: u8) -> Progress
        ensures trap { CarriedOut (outcome_of_trap vector self.old.process)
            self.old.process result self.new.process }
    {
        match ConsoleTrap::of_vector(vector) {
            Some(ConsoleTrap::Getc) => self.getc(),
            Some(ConsoleTrap::Out) => self.out(),
            Some(ConsoleTrap::Puts) => self.put_string(false),
            Some(ConsoleTrap::In) => self.ask(),
            Some(ConsoleTrap::Putsp) => self.put_string(true),
            Some(ConsoleTrap::Halt) => Progress::Stopped(Want::End(How::Halt)),
            None if is_kernel_vector(vector) => Progress::Stopped(Want::Trap(vector)),
            None => Progress::Stopped(Want::End(How::BadTrap)),
        }
    }
}

/// Writes the low bytes of words of memory, for which there is room.
fn write_low_bytes(output: &mut Vec<u8>, memory: &Memory, address: u16, count: u16)
    requires in_memory { address + count < first_device }
    requires room { vec_len output.old + count ≤ vec_capacity output.old }
    ensures written { output.new.items ≡ output.old.items
        ++ map low_byte (take count (words_from memory.now.words address)) }
{
    for k in 0..count {
        let word = memory.get(address + k);
        let _ = output.push((word % 256) as u8);
    }
}

/// Writes both bytes of words of memory, for which there is room.
fn write_packed_bytes(output: &mut Vec<u8>, memory: &Memory, address: u16, count: u16)
    requires in_memory { address + count < first_device }
    requires room { vec_len output.old + 2 * count ≤ vec_capacity output.old }
    ensures written { output.new.items ≡ output.old.items
        ++ flat_map packed_bytes (take count (words_from memory.now.words address)) }
{
    for k in 0..count {
        let word = memory.get(address + k);
        let _ = output.push((word % 256) as u8);
        if word / 256 != 0 {
            let _ = output.push((word / 256) as u8);
        }
    }
}
