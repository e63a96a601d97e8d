//! What is asked of an exploration, read from words.
ghost use Rattle.std.specs.Prelude.{◌≡◌, ◌++◌, Bool, List, Ok, Err, None, ℕ, flat_map, map, All, IfOk, IfSome, OnOk};
ghost use Rattle.lab_conditions.specs.declared.never.Never.{Never as Condemned};
ghost use Rattle.lab_conditions.specs.declared.reading.ReadFault.TheVariants.{NoCondition};
ghost use Rattle.lab_worlds.specs.Calls.{Alongside};
ghost use Rattle.lab_commands.specs.Asking.{required_words, output_if, call_if, process_alone, waiter_at, waiter_in, AsksFor, IsAsked, AsksSo, IsRequired, IsSought, MayBe};

use crate::advice::{line_on, meant_by};
use crate::complaint::{Complaint, Misuse};
use crate::labels::Labelled;
use crate::places::Place;
use crate::resolving::{need_in, outlined};
use lab_arguments::{Choice, Question, Requirements, Rest, is_of_calls};
use lab_conditions::{Condition, Never, Part, ReadFault, State};
use lab_questions::{Asked, CallWord, Reach, Show, Waiter, Word, read_calls};
use lab_sources::Source;
use lab_ways::Wanted;
use lab_worlds::{Limits, Walks};
use lc3_word::{unsigned, words_between};
use std::alloc::{AllocError, Global};

const MEGABYTE: usize = 1_048_576;

/// How far an exploration goes, and how what it finds is told.
#[derive(Clone, Copy)]
pub struct Inquiry {
    pub reach: Reach,
    /// How many threads judge conditions; none stands for as many as there are processors.
    pub threads: Option<u32>,
    /// Which schedule is printed alone.
    pub choice: Option<Choice>,
    /// The run of which schedule is traced, too.
    pub trace: Option<Choice>,
    /// Whether the answers are printed as JSON.
    pub json: bool,
}

/// How far a question lets an exploration go, and how what it finds is told.
pub fn inquiry_of(question: &Question<'_>) -> Inquiry {
    Inquiry {
        reach: Reach {
            limits: Limits {
                worlds: question.worlds,
                steps: question.steps,
                memory: (question.memory as usize).saturating_mul(MEGABYTE),
            },
            walks: question.random.map(|count| Walks {
                count,
                seed: question.seed,
            }),
            is_stage: false,
        },
        threads: question.threads,
        choice: question.schedule,
        trace: question.trace,
        json: question.json,
    }
}

/// What a question that isn't refused asks of processes with these sources, where they were given as such.
pub fn asked_of<'a>(
    alloc: Global,
    question: &Question<'a>,
    sources: &[Option<Source>],
) -> Result<Asked, Complaint<'a>>
    ensures asked { IfOk result (λ asked. AsksFor question.now asked) }
{
    let count = sources.len();
    let outputs = question.outputs.as_slice();
    let never = question.never.as_slice();
    let mut words = words_required(alloc, question.required)?;
    let mut needs = needs_of(alloc, outputs, count)?;
    words.append(&mut needs)?;
    let mut calls = Vec::new(alloc);
    push_calls(&mut calls, outputs, false, count)?;
    push_calls(&mut calls, never, true, count)?;
    Ok(Asked {
        words,
        never: nevers_of(alloc, never, sources)?,
        calls,
        waiters: waiters_of(alloc, question.waiters.as_slice(), sources)?,
        fair: question.fair,
        show: Show {
            out: question.out,
            left: question.left,
        },
    })
}

/// Refuses a question that can't be asked of so many processes, whatever their labels are.
pub fn refuse_question<'a>(
    alloc: Global,
    question: &Question<'a>,
    count: usize,
) -> Result<(), Complaint<'a>> {
    let asked = [
        (Place::Output, &question.outputs),
        (Place::Waiter, &question.waiters),
        (Place::Start, &question.never),
    ];
    for (first, words) in asked {
        for word in words {
            refuse(alloc, first, word, count)?;
        }
    }
    Ok(())
}

/// Refuses a word that begins at this place and asks nothing of so many processes, whatever its labels stand for.
fn refuse<'a>(
    alloc: Global,
    first: Place,
    word: &'a str,
    count: usize,
) -> Result<(), Complaint<'a>> {
    let (unread, elsewhere) = match first {
        Place::Waiter => (Misuse::NoWaiter, Misuse::NoSuchWaiter),
        _ if is_of_calls(word) => {
            let never = matches!(first, Place::Start);
            return wanted_in(alloc, word, never, count).map(|_| ());
        }
        Place::Output => return need_in(alloc, word, count).map(|_| ()),
        _ => (Misuse::NoCondition, Misuse::NoSuchProcess),
    };
    match fits(alloc, first, word, count)? {
        Some(true) => Ok(()),
        Some(false) => Err(elsewhere.of(word)),
        None => Err(
            unread
                .of(word)
                .followed(advice_on(alloc, first, word, count)),
        ),
    }
}

/// Whether a text that begins at this place names none but so many processes, if it is a condition or a process that may wait,
/// whatever its labels stand for.
fn fits(alloc: Global, first: Place, text: &str, count: usize) -> Result<Option<bool>, AllocError> {
    let outline = outlined(alloc, text)?;
    match first {
        Place::Waiter => Ok(read_waiter(alloc, &outline)?.map(|waiter| waiter.process < count)),
        _ => Ok(read_or_none(Never::read(alloc, &outline))?.map(|never| never.names_only(count))),
    }
}

/// The line that says why a text that begins at this place asks nothing of so many processes, where memory allows it.
fn advice_on(alloc: Global, first: Place, text: &str, count: usize) -> Option<String> {
    let meant = meant_by(alloc, first, text).ok()?;
    let taken = meant.as_deref().filter(|meant| matches!(
        fits(alloc, first, meant, count),
        Ok(Some(true))
    ));
    line_on(alloc, first, text, taken)
}

/// The words that requirements are, in the order in which they are answered.
fn words_required(alloc: Global, required: Requirements) -> Result<Vec<Word>, AllocError>
    ensures words { IfOk result (λ words. words.items ≡ required_words required) }
{
    let mut words = Vec::new(alloc);
    match required.rest {
        Some(Rest::Ended) => words.push(Word::Ended)?,
        Some(Rest::Stuck) => words.push(Word::Stuck)?,
        Some(Rest::Halted) => words.push(Word::Halted)?,
        None => (),
    }
    if required.empty {
        words.push(Word::Empty)?;
    }
    if required.same {
        words.push(Word::Same)?;
    }
    Ok(words)
}

/// What words require of outputs, but those that are of calls.
fn needs_of<'a>(alloc: Global, words: &[&'a str], count: usize) -> Result<Vec<Word>, Complaint<'a>>
    ensures needs { IfOk result (λ needs. Alongside IsRequired
        (flat_map (λ word. output_if word.now) words.now) needs.items) }
{
    let mut needs = Vec::new(alloc);
    for word in words {
        push_need(&mut needs, word, count)?;
    }
    Ok(needs)
}

/// Adds what a word requires of outputs, unless it is of calls.
fn push_need<'a>(needs: &mut Vec<Word>, word: &'a str, count: usize) -> Result<(), Complaint<'a>>
    ensures need { OnOk result ((before : List (List ℕ))
        → Alongside IsRequired before needs.old.items
        → Alongside IsRequired (before ++ output_if word.now) needs.new.items) }
{
    if is_of_calls(word) {
        return Ok(());
    }
    let need = need_in(*needs.allocator(), word, count)?;
    needs.push(Word::Output(need))?;
    Ok(())
}

/// The processes that may wait by words, each as its word writes it, or as it is meant where it has labels.
fn waiters_of<'a>(
    alloc: Global,
    words: &[&'a str],
    sources: &[Option<Source>],
) -> Result<Vec<Waiter>, Complaint<'a>>
    ensures waiters { IfOk result (λ waiters. Alongside MayBe
        (map (λ word. word.now) words.now) waiters.items) }
{
    let mut waiters = Vec::new(alloc);
    for word in words {
        let waiter = waiter_of(alloc, word, sources)?;
        waiters.push(waiter)?;
    }
    Ok(waiters)
}

/// The process that may wait by a word.
fn waiter_of<'a>(
    alloc: Global,
    word: &'a str,
    sources: &[Option<Source>],
) -> Result<Waiter, Complaint<'a>>
    ensures waiter { IfOk result (λ waiter. MayBe word.now waiter) }
{
    if let Some(waiter) = read_waiter(alloc, word)? {
        return Ok(waiter);
    }
    let labelled = Labelled {
        alloc,
        sources,
        word,
        unfit: Misuse::UnfitWaiter,
    };
    let text = labelled.resolved(word)?;
    match read_waiter(alloc, &text)? {
        Some(waiter) => Ok(waiter),
        None => Err(labelled.reversed(&text)),
    }
}

fn nevers_of<'a>(
    alloc: Global,
    words: &[&'a str],
    sources: &[Option<Source>],
) -> Result<Vec<Never>, Complaint<'a>>
    ensures each { IfOk result (λ nevers.
        All (λ word. IsAsked nevers.items word.now) words.now) }
{
    let mut nevers = Vec::new(alloc);
    for word in words {
        push_nevers(&mut nevers, sources, word)?;
    }
    Ok(nevers)
}

/// Adds what must never be so, as a word writes it, or as it is meant where it has labels, unless it is of calls.
#[tactic(auto, using(crate::proofs::AskedLemmas::asked_read, crate::proofs::AskedLemmas::asked_unread, crate::proofs::AskedLemmas::asked_with))]
fn push_nevers<'a>(
    nevers: &mut Vec<Never>,
    sources: &[Option<Source>],
    word: &'a str,
) -> Result<(), Complaint<'a>>
    ensures more { OnOk result ((more : List Condemned)
        × (nevers.new.items ≡ nevers.old.items ++ more)) }
    ensures written { OnOk result (IsAsked nevers.new.items word.now) }
{
    let alloc = *nevers.allocator();
    match Never::read(alloc, word) {
        Ok(never) => nevers.push(never)?,
        Err(ReadFault::NoCondition) if is_of_calls(word) => (),
        Err(ReadFault::NoCondition) => {
            let labelled = Labelled {
                alloc,
                sources,
                word,
                unfit: Misuse::UnfitCondition,
            };
            let texts = labelled.spread()?;
            let read = texts.iter().map(|text| never_in(&labelled, text));
            let mut meant: Vec<Never> = read.try_collect(alloc)?;
            nevers.append(&mut meant)?;
        }
        Err(ReadFault::NoMemory) => return Err(Complaint::from(AllocError)),
    }
    Ok(())
}

/// What must never be so, as a text writes it, by the labels of the processes. It is told as it was written.
fn never_in<'a>(labelled: &Labelled<'_, 'a>, text: &str) -> Result<Never, Complaint<'a>> {
    let meant = labelled.resolved(text)?;
    match read_or_none(Never::read(labelled.alloc, &meant))? {
        Some(Never::Holds(Condition { parts, .. })) => {
            let text = String::from_str(labelled.alloc, text)?;
            Ok(Never::Holds(Condition { text, parts }))
        }
        Some(never) => Ok(never),
        None => Err(labelled.reversed(&meant)),
    }
}

fn read_or_none<T: Drop>(read: Result<T, ReadFault>) -> Result<Option<T>, AllocError>
    ensures some { IfOk result (λ found. IfSome found (λ value. read ≡ Ok value)) }
    ensures none { IfOk result (λ found. found ≡ None → read ≡ Err NoCondition) }
{
    match read {
        Ok(read) => Ok(Some(read)),
        Err(ReadFault::NoCondition) => Ok(None),
        Err(ReadFault::NoMemory) => Err(AllocError),
    }
}

/// The process that one word names, if it is alone.
fn process_alone(words: &[&[u8]]) -> Option<usize>
    ensures process { result ≡ process_alone (map (λ word. word.now) words.now) }
{
    match words {
        [word] => unsigned(10, word).map(|number| number as usize),
        _ => None,
    }
}

/// The process of a condition that it stands at a place, if a condition is that.
fn waiter_at(parts: &[Part]) -> Option<Waiter>
    ensures waiter { result ≡ waiter_at parts.now }
{
    match parts {
        [
            Part::Of {
                process,
                state: State::At { first, last },
            },
        ] => Some(Waiter {
            process: *process,
            first: *first,
            last: *last,
        }),
        _ => None,
    }
}

/// `P`, which may wait anywhere, or `P at A` or `P at A-B`, if a text is that.
fn read_waiter(alloc: Global, text: &str) -> Result<Option<Waiter>, AllocError>
    ensures waiter { IfOk result (λ read. read ≡ waiter_in text.now) }
{
    let words = words_between(alloc, b" ", text.as_bytes())?;
    if let Some(process) = process_alone(&words) {
        return Ok(Some(Waiter {
            process,
            first: 0,
            last: 0xFFFF,
        }));
    }
    match read_or_none(Condition::read(alloc, text))? {
        Some(condition) => Ok(waiter_at(&condition.parts)),
        None => Ok(None),
    }
}

/// Adds what words of `--require`, or of `--never`, ask of the calls of so many processes.
fn push_calls<'a>(
    calls: &mut Vec<CallWord>,
    words: &[&'a str],
    never: bool,
    count: usize,
) -> Result<(), Complaint<'a>>
    ensures sought { OnOk result ((before : List (Bool × List ℕ))
        → Alongside IsSought before calls.old.items
        → Alongside IsSought (before ++ flat_map (λ word. call_if never word.now) words.now)
        calls.new.items) }
{
    for word in words {
        push_call(calls, word, never, count)?;
    }
    Ok(())
}

fn push_call<'a>(
    calls: &mut Vec<CallWord>,
    word: &'a str,
    never: bool,
    count: usize,
) -> Result<(), Complaint<'a>>
    ensures sought { OnOk result ((before : List (Bool × List ℕ))
        → Alongside IsSought before calls.old.items
        → Alongside IsSought (before ++ call_if never word.now) calls.new.items) }
{
    if !is_of_calls(word) {
        return Ok(());
    }
    let alloc = *calls.allocator();
    let wanted = wanted_in(alloc, word, never, count)?;
    let text = String::from_str(alloc, word)?;
    calls.push(CallWord { text, wanted })?;
    Ok(())
}

fn wanted_in<'a>(
    alloc: Global,
    word: &'a str,
    never: bool,
    count: usize,
) -> Result<Wanted, Complaint<'a>>
    ensures asks { IfOk result (λ wanted. AsksSo never word.now wanted) }
{
    let (unread, elsewhere, first) = if never {
        (
            Misuse::NoCondition,
            Misuse::NoSuchProcess,
            Place::NeverCaller,
        )
    } else {
        (Misuse::NoCalls, Misuse::NoSuchWriter, Place::Caller)
    };
    match read_calls(alloc, word, never)? {
        Some(wanted) if wanted.process.is_none_or(|process| process < count) => Ok(wanted),
        Some(_) => Err(elsewhere.of(word)),
        None => Err(unread.of(word).followed(line_on(alloc, first, word, None))),
    }
}
