//! Memory in pages, beside a plain vector of 65,536 words.

ghost use Rattle.std.specs.Prelude.{◌≡◌};
ghost use Rattle.lc3_machine.specs.Steps.{AsksTrap};

use crate::processes::{loaded, stopped, vec_of};
use lc3_machine::{Effect, Running, Want};
use lc3_word::FIRST_DEVICE;
use std::alloc::{AllocError, Global};
use std::process::Abort;
use std::test::Fail;

/// Numbers that look random, the same in each run.
#[derive(Drop)]
struct Numbers {
    state: u32,
}

impl Numbers {
    fn next(&mut self) -> u16 {
        self.state = self
            .state
            .wrapping_mul(1_664_525)
            .wrapping_add(1_013_904_223);
        (self.state >> 16) as u16
    }

    /// An address behind the program and below the device registers.
    fn address(&mut self) -> u16 {
        0x300 + self.next() % 0xfb00
    }
}

/// The words that memory has to hold.
#[derive(Drop)]
struct Plain {
    words: Vec<u16>,
}

impl Plain {
    fn new(alloc: Global) -> Result<Plain, AllocError> {
        let mut words = Vec::new(alloc);
        again!(words.resize(0x10000, 0));
        Ok(Plain { words })
    }

    fn set(&mut self, address: u16, word: u16) {
        if let Some(cell) = self.words.get_mut(address as usize) {
            *cell = word;
        }
    }

    fn write(&mut self, at: u16, words: &[u16]) {
        for (address, word) in (at..FIRST_DEVICE).zip(words.iter()) {
            self.set(address, *word);
        }
    }

    fn get(&self, address: u16) -> u16 {
        match self.words.get(address as usize) {
            Some(word) => *word,
            None => 0,
        }
    }
}

/// Stores the word at x0205 at the address at x0206, asks for a call, and begins again.
const STORES: [u16; 7] = [0x2204, 0x2404, 0x7280, 0xf044, 0x0ffb, 0, 0x0300];

/// Makes a range up to the device registers writable.
fn reserve(process: &mut Running, at: u16, len: u16) -> Result<(), AllocError>
    ensures process { process.new.process ≡ process.old.process }
{
    if at < FIRST_DEVICE && len <= FIRST_DEVICE - at {
        again!(process.reserve(at, len));
    }
    Ok(())
}

/// The process after its call, with these words from an address on, and a priority.
fn answered(
    rt: &impl Abort,
    mut process: Running,
    at: u16,
    words: Vec<u16>,
    prio_at: u16,
    prio: u16,
) -> Running
    requires trap { AsksTrap process.process }
{
    let len = (words.len() % 0x10000) as u16;
    if words.len() == len as usize && process.ready(at, len) && process.ready(prio_at, 1) {
        process.answer(Effect::Message {
            at,
            words: words.as_slice(),
            prio_at: Some(prio_at),
            prio,
        });
        return process;
    }
    panic!(rt; "the words fit")
}

/// Some words for an address, which stand before the device registers.
fn message(alloc: Global, numbers: &mut Numbers, at: u16) -> Result<Vec<u16>, AllocError> {
    let mut words = Vec::new(alloc);
    for _ in 0..(numbers.next() % 300).min(FIRST_DEVICE.saturating_sub(at)) {
        let word = numbers.next();
        again!(words.push(word));
    }
    Ok(words)
}

/// Looks at some words, and makes a range writable.
fn disturb(
    rt: &impl Abort,
    process: &mut Running,
    numbers: &mut Numbers,
    plain: &Plain,
) -> Result<(), AllocError>
    ensures process { process.new.process ≡ process.old.process }
{
    for _ in 0..8 {
        let address = numbers.next();
        assert_eq!(rt; process.machine().word(address), plain.get(address));
    }
    let at = numbers.address();
    let len = (numbers.next() % 600).min(FIRST_DEVICE.saturating_sub(at));
    reserve(process, at, len)
}

/// The words of the next message, and where they go: over the word and the address that the program stores, or anywhere.
fn next_words(
    alloc: Global,
    numbers: &mut Numbers,
    anywhere: bool,
) -> Result<(u16, Vec<u16>), AllocError> {
    if anywhere {
        let at = numbers.address();
        return Ok((at, message(alloc, numbers, at)?));
    }
    let next = [numbers.next(), numbers.address()];
    Ok((0x205, vec_of(alloc, &next)?))
}

/// Answers the call in both memories, with a priority.
fn answer(
    rt: &impl Abort,
    mut process: Running,
    numbers: &mut Numbers,
    plain: &mut Plain,
    at: u16,
    words: Vec<u16>,
) -> Result<Running, AllocError>
    requires trap { AsksTrap process.process }
{
    let prio_at = numbers.address();
    let prio = numbers.next();
    reserve(&mut process, at, (words.len() % 0x10000) as u16)?;
    reserve(&mut process, prio_at, 1)?;
    plain.write(at, &words);
    plain.set(prio_at, prio);
    Ok(answered(rt, process, at, words, prio_at, prio))
}

/// Each word of the process is that of the plain memory.
fn is_plain(rt: &impl Abort, process: &Running, plain: &Plain) {
    for address in 0..=0xffff {
        assert_eq!(rt;
            process.machine().word(address),
            plain.get(address),
            "at {address}"
        );
    }
}

#[test]
fn pages_are_a_plain_list_of_words(rt: HostRuntime) -> Result<(), Fail> {
    let mut numbers = Numbers { state: 1 };
    let mut plain = Plain::new(rt.alloc())?;
    plain.write(0x200, &STORES);
    let mut process = loaded(rt.alloc(), 0x200, &STORES, b"")?;
    for round in 0..500 {
        let (mut running, want) = stopped(&rt, process);
        plain.set(plain.get(0x206), plain.get(0x205));
        disturb(&rt, &mut running, &mut numbers, &plain)?;
        let (at, words) = next_words(rt.alloc(), &mut numbers, round % 2 == 1)?;
        process = match want {
            Want::Trap(_) => answer(&rt, running, &mut numbers, &mut plain, at, words)?,
            Want::End(_) => panic!(rt; "it is a trap"),
        };
    }
    is_plain(&rt, &process, &plain);
    Ok(())
}
