//! A process at a moment.
ghost use Rattle.std.specs.Prelude.{◌≡◌, IfOk, map, true, OnOk, option_to_list, slice_set};
ghost use Rattle.serde_json.specs.View.{view};
ghost use Rattle.lab_sched.specs.Held.{process_view};
ghost use Rattle.lab_sched.specs.Worlds.{machine_of};
ghost use Rattle.lab_moments.specs.States.{memory_from, words_around, shown_in, registers, state_in, states};
ghost use Rattle.std.specs.Option.{option_map};
ghost use Rattle.lab_moments.specs.Words.{none_seen, first_seen, seen_with, text_of, texts_data};

use crate::values::{list_value, made_below};
use lab_sched::{Process, World};
use lab_texts::code_name;
use lab_told::service_of_word;
use lc3_table::text;
use lc3_word::{FIRST_DEVICE, Reg};
use serde_json::{Value, json};
use std::alloc::{AllocError, Global};
use std::marker::Model;

/// How many words a memory has, and how many words there are.
pub const WORDS: usize = 65_536;
/// How many words are shown before the next instruction.
const BEFORE: u16 = 3;
/// How many words are shown from the next instruction on.
const FROM: usize = 5;

/// So many words of the memory of a process from an address on, as far as there are.
#[tactic(auto, using(crate::proofs::ValueLemmas::below), unfolding(crate::specs::States::memory_from))]
pub fn words_from(
    alloc: Global,
    process: &Process,
    first: u16,
    count: usize,
) -> Result<Vec<u16>, AllocError>
    ensures words { IfOk result (λ v. v.items
        ≡ memory_from (machine_of (process_view process.now)) first count) }
{
    let mut words = Vec::new(alloc);
    for i in 0..count.min(WORDS - usize::from(first)) {
        words.push(process.machine().word(first + i as u16))?;
    }
    Ok(words)
}

fn registers(alloc: Global, process: &Process) -> Result<Vec<Value>, AllocError>
    ensures registers { IfOk result (λ v. map view v.items
        ≡ registers (machine_of (process_view process.now))) }
{
    made_below(alloc, 8, |number| {
        let register = Reg::of_low_bits(number as u16);
        Ok(Some(Value::from(process.machine().reg(register))))
    })
}

fn words_around(alloc: Global, process: &Process) -> Result<Vec<u16>, AllocError>
    ensures words { IfOk result (λ v. v.items
        ≡ words_around (machine_of (process_view process.now))) }
{
    let pc = process.machine().pc();
    let first = pc.saturating_sub(BEFORE);
    let end = (usize::from(pc) + FROM).min(usize::from(FIRST_DEVICE));
    let count = end.saturating_sub(usize::from(first));
    words_from(alloc, process, first, count)
}

/// The words around the program counter of process `pid` of a world, where it is there.
pub fn shown_in(alloc: Global, world: &World, pid: usize) -> Result<Vec<u16>, AllocError>
    ensures words { IfOk result (λ v. v.items ≡ shown_in world.now pid) }
{
    match world.process(pid) {
        Some(process) => words_around(alloc, process),
        None => Ok(Vec::new(alloc)),
    }
}

/// Process `pid` of a world, where it is there: program counter, condition code, registers, and the words around the program counter.
#[tactic(auto, unfolding(crate::specs::States::state_in, crate::specs::States::state_data))]
pub fn state_in(alloc: Global, world: &World, pid: usize) -> Result<Value, AllocError>
    ensures value { IfOk result (λ v. view v ≡ state_in world.now pid) }
{
    let Some(process) = world.process(pid) else {
        return Ok(Value::Null);
    };
    let pc = process.machine().pc();
    let code = code_name(process.machine().cc());
    json!(in alloc; [
        pc,
        code,
        registers(alloc, process)?,
        pc.saturating_sub(BEFORE),
        list_value(alloc, &words_around(alloc, process)?)?
    ])
}

/// The processes of a world.
pub fn states(alloc: Global, world: &World) -> Result<Value, AllocError>
    ensures value { IfOk result (λ v. view v ≡ states world.now) }
{
    let states = made_below(alloc, world.count(), |pid| {
        Ok(Some(state_in(alloc, world, pid)?))
    })?;
    Ok(Value::Array(states))
}

/// Of each word whether it stood around the program counter of a process.
#[derive(Drop)]
pub struct SeenWords {
    flags: Vec<bool>,
}

impl Model for SeenWords {
    ghost use Rattle.std.specs.Prelude.{Bool, List};

    ghost Value = { List Bool };

    ghost view = { λ s. s.flags.items };
}

impl SeenWords {
    #[tactic(auto, unfolding(crate::specs::Words::none_seen))]
    fn none(alloc: Global, count: usize) -> Result<SeenWords, AllocError>
        ensures none { IfOk result (λ s. s ≡ none_seen count) }
    {
        Ok(SeenWords {
            flags: vec![in alloc; false; count]?,
        })
    }

    /// Those around the program counters of a world.
    #[tactic(auto, using(crate::proofs::ValueLemmas::below))]
    pub fn new(alloc: Global, world: &World) -> Result<SeenWords, AllocError>
        ensures first { IfOk result (λ s. s ≡ first_seen world.now) }
    {
        let mut seen = SeenWords::none(alloc, WORDS)?;
        for pid in 0..world.count() {
            seen.keep(world, pid)?;
        }
        Ok(seen)
    }

    fn set(&mut self, word: u16)
        ensures set { self.new ≡ slice_set self.old word true }
    {
        if let Some(flag) = self.flags.get_mut(usize::from(word)) {
            *flag = true;
        }
    }

    /// Adds those around the program counter of process `pid` of a world, where it is there.
    #[tactic(auto, using(std::proofs::lemmas::List::Sums::fold_more))]
    pub fn keep(&mut self, world: &World, pid: usize) -> Result<(), AllocError>
        ensures kept { OnOk result (self.new ≡ seen_with self.old (shown_in world.now pid)) }
    {
        let words = shown_in(*self.flags.allocator(), world, pid)?;
        for word in &words {
            self.set(*word);
        }
        Ok(())
    }

    /// A word that was seen, the text of its instruction, and the name of the call that it makes, where it makes one.
    #[tactic(auto, unfolding(crate::specs::Words::word_data))]
    fn text_of(&self, alloc: Global, word: u16) -> Result<Option<Value>, AllocError>
        ensures text { IfOk result (λ v. option_to_list (option_map view v)
            ≡ text_of self.now word) }
    {
        let Some(true) = self.flags.get(usize::from(word)) else {
            return Ok(None);
        };
        let value = match service_of_word(word) {
            Some(service) => {
                let name = service.name();
                json!(in alloc; [word, text(alloc, word)?, name])
            }
            None => json!(in alloc; [word, text(alloc, word)?]),
        };
        Ok(Some(value?))
    }

    /// Each of the words with its text, in ascending order.
    #[tactic(auto, unfolding(crate::specs::Words::texts_data))]
    pub fn value(&self, alloc: Global) -> Result<Value, AllocError>
        ensures value { IfOk result (λ v. view v ≡ texts_data self.now) }
    {
        let texts = made_below(alloc, WORDS, |word| self.text_of(alloc, word as u16))?;
        Ok(Value::Array(texts))
    }
}
