//! What conditions rest on.
ghost use Rattle.std.specs.Prelude.{◌≡◌, ◌++◌, ◌==◌, [], None, All, IfOk, IfSome, OnOk, codes, get_or, map};
ghost use Rattle.std.specs.Cmp.{partial_equiv_from_equiv};
ghost use Rattle.std.specs.Cmp.Lexicographic.{pointwise, nat_list_eq_equiv};
ghost use Rattle.std.specs.List.{Contains, slice_split};
ghost use Rattle.std.specs.Option.{option_to_list};
ghost use Rattle.lab_conditions.specs.Written.{is_word, words};
ghost use Rattle.lab_questions.specs.Bases.{all_bases, asks_arrival, bases_in, bases_of, bases_questioned, bases_typed, is_at, place_typed, presence, standing_in, stands};

use crate::{Answers, Question};
use ipc_names::Name;
use lab_conditions::{Condition, Never, Part, Relation, State};
use std::alloc::{AllocError, Global};
use std::fmt;
use std::marker::Model;
use std::sync::ArcStr;

/// The word of a place, as it was typed, seen as the list of its characters.
pub struct PlaceWord {
    text: ArcStr,
}

impl Drop for PlaceWord {
    fn drop(self) {
        let PlaceWord { text: _ } = self;
    }
}

impl Model for PlaceWord {
    ghost use Rattle.std.specs.Prelude.{List, ℕ};
    ghost use Rattle.std.specs.Arc.{arc_str_bytes};

    ghost Value = { List ℕ };

    ghost view = { λ a. arc_str_bytes a.text };
}

impl PlaceWord {
    fn new(alloc: Global, word: &str) -> Result<PlaceWord, AllocError>
        ensures word { IfOk result (λ place. place ≡ word.now) }
    {
        let text = ArcStr::from_str(alloc, word)?;
        Ok(PlaceWord { text })
    }

    /// The characters.
    pub fn text(&self) -> &str
        ensures text { result.now ≡ self.now }
    {
        self.text.as_str()
    }
}

/// The same word, which is shared. Takes no memory: an error is that it is shared 2^63 times.
impl Clone for PlaceWord {
    ghost is_clone = { λ word copy. copy ≡ word };

    fn clone(&self) -> Result<PlaceWord, AllocError> {
        let text = self.text.clone()?;
        Ok(PlaceWord { text })
    }
}

impl PartialEq for PlaceWord {
    ghost eq = { pointwise ◌==◌ };

    ghost laws = { partial_equiv_from_equiv nat_list_eq_equiv };

    fn eq(&self, other: &PlaceWord) -> bool {
        self.text() == other.text()
    }
}

impl Eq for PlaceWord {
    ghost laws = { nat_list_eq_equiv };
}

/// What a condition rests on: where no steps lead to it, the condition asks nothing. It is shown as what is told then.
#[derive(Clone, PartialEq, Eq, Drop)]
pub enum Basis {
    /// There is a semaphore of this name.
    Semaphore(Name),
    /// There is a queue of this name.
    Queue(Name),
    /// The process, or some process, stands at a call, with its program counter from one address to another.
    Place {
        process: Option<usize>,
        first: u16,
        last: u16,
        word: PlaceWord,
    },
}

impl fmt::Display for Basis {
    ghost use Rattle.std.specs.Prelude.{Some};
    ghost use Rattle.lab_questions.specs.Bases.{basis_text};

    ghost output = { λ b. Some (basis_text b) };

    fn fmt<W: fmt::Write>(&self, f: &mut fmt::Formatter<W>) -> fmt::Result {
        match self {
            Basis::Semaphore(name) => write!(f, "nobody opens sem {}", name.text()),
            Basis::Queue(name) => write!(f, "nobody opens mq {}", name.text()),
            Basis::Place { process, word, .. } => match process {
                None => write!(f, "nobody calls at {}", word.text()),
                Some(process) => write!(f, "process {process} never calls at {}", word.text()),
            },
        }
    }
}

/// Greater than each value of a semaphore, and than each number of messages in a queue.
const MORE_THAN_ANY: u16 = 65_535;

/// The part of a condition that says that a process, or some process, stands so.
fn stands(process: Option<usize>, state: State) -> Part
    ensures part { result ≡ stands process state }
{
    match process {
        Some(process) => Part::Of { process, state },
        None => Part::MoreThan { state, number: 0 },
    }
}

impl Basis {
    /// The part of a condition that holds of each world which has it.
    pub(crate) fn presence(&self) -> Result<Part, AllocError>
        ensures part { IfOk result (λ part. part ≡ presence self.now) }
    {
        match self {
            Basis::Semaphore(name) => Ok(Part::Semaphore {
                name: name.clone()?,
                relation: Relation::Less,
                value: MORE_THAN_ANY,
            }),
            Basis::Queue(name) => Ok(Part::Queue {
                name: name.clone()?,
                relation: Relation::Less,
                value: MORE_THAN_ANY,
            }),
            Basis::Place {
                process,
                first,
                last,
                ..
            } => {
                let state = State::At {
                    first: *first,
                    last: *last,
                };
                Ok(stands(*process, state))
            }
        }
    }
}

fn words_of(alloc: Global, text: &str) -> Result<Vec<&str>, AllocError>
    ensures words { IfOk result (λ found. map (λ word. word.now) found.items ≡ words text.now) }
{
    text.split(' ')
        .filter(|piece| !piece.is_empty())
        .collect(alloc)
}

#[tactic(auto, unfolding(lab_conditions::specs::Written::is_word))]
fn is_word(name: &str, word: &str) -> bool
    ensures value { result ≡ is_word name.now word.now }
{
    name == word
}

/// The words of each part of a condition.
fn pieces_of<'a, 'b>(alloc: Global, words: &'a [&'b str]) -> Result<Vec<&'a [&'b str]>, AllocError>
    ensures pieces { IfOk result (λ pieces.
        map (λ piece. map (λ word. word.now) piece.now) pieces.items
        ≡ slice_split (is_word (codes "and")) (map (λ word. word.now) words.now)) }
{
    words.split(|word| is_word("and", word)).collect(alloc)
}

/// The word of the place that a part of a condition names.
#[tactic(auto, unfolding(crate::specs::Bases::place_typed))]
fn place_in<'a>(piece: &[&'a str]) -> &'a str
    ensures place { result.now ≡ place_typed (map (λ word. word.now) piece.now) }
{
    match piece {
        [at, place, ..] if is_word("at", at) => place,
        [_, at, place, ..] if is_word("at", at) => place,
        _ => "",
    }
}

/// The word of the place that the part with this number names, counted from 0.
#[tactic(auto, using(crate::proofs::BasisLemmas::none_past), unfolding(crate::specs::Bases::place_typed))]
fn place_at<'a>(pieces: &[&[&'a str]], number: usize) -> &'a str
    ensures place { result.now ≡ place_typed
        (get_or (map (λ piece. map (λ word. word.now) piece.now) pieces.now) number []) }
{
    match pieces.get(number) {
        Some(piece) => place_in(piece),
        None => "",
    }
}

/// The place where a process, or some process, is to stand, if it is.
fn standing_in(
    alloc: Global,
    process: Option<usize>,
    word: &str,
    state: State,
) -> Result<Option<Basis>, AllocError>
    ensures place { IfOk result (λ found.
        option_to_list found ≡ standing_in process word.now state) }
{
    let State::At { first, last } = state else {
        return Ok(None);
    };
    let word = PlaceWord::new(alloc, word)?;
    Ok(Some(Basis::Place {
        process,
        first,
        last,
        word,
    }))
}

/// What a part of a condition rests on, where its place was typed so.
fn basis_in(alloc: Global, word: &str, part: &Part) -> Result<Option<Basis>, AllocError>
    ensures basis { IfOk result (λ found. option_to_list found ≡ bases_in word.now part.now) }
{
    match part {
        Part::Semaphore { name, .. } => Ok(Some(Basis::Semaphore(name.clone()?))),
        Part::Queue { name, .. } => Ok(Some(Basis::Queue(name.clone()?))),
        Part::Of { process, state } => standing_in(alloc, Some(*process), word, *state),
        Part::MoreThan { state, .. } => standing_in(alloc, None, word, *state),
    }
}

fn is_at(state: State) -> bool
    ensures value { result ≡ is_at state }
{
    matches!(state, State::At { .. })
}

/// Whether parts ask no more than whether a process comes to a place.
fn asks_arrival(parts: &[Part]) -> bool
    ensures value { result ≡ asks_arrival parts.now }
{
    match parts {
        [Part::Of { state, .. }] => is_at(*state),
        [Part::MoreThan { state, number }] => *number == 0 && is_at(*state),
        _ => false,
    }
}

/// Adds what a part of a condition rests on, where its place was typed so.
fn push_basis(bases: &mut Vec<Basis>, word: &str, part: &Part) -> Result<(), AllocError>
    ensures bases { OnOk result
        (bases.new.items ≡ bases.old.items ++ bases_in word.now part.now) }
{
    if let Some(basis) = basis_in(*bases.allocator(), word, part)? {
        bases.push(basis)?;
    }
    Ok(())
}

/// Adds what the parts of a condition rest on, each beside its words.
fn push_typed(bases: &mut Vec<Basis>, pieces: &[&[&str]], parts: &[Part]) -> Result<(), AllocError>
    ensures bases { OnOk result (bases.new.items ≡ bases.old.items ++ bases_typed
        (map (λ piece. map (λ word. word.now) piece.now) pieces.now) parts.now) }
{
    for number in 0..parts.len() {
        let word = place_at(pieces, number);
        push_basis(bases, word, &parts[number])?;
    }
    Ok(())
}

/// Adds what a condition rests on.
fn push_bases(bases: &mut Vec<Basis>, condition: &Condition) -> Result<(), AllocError>
    ensures bases { OnOk result (bases.new.items ≡ bases.old.items ++ bases_of condition.now) }
{
    if asks_arrival(&condition.parts) {
        return Ok(());
    }
    let alloc = *bases.allocator();
    let words = words_of(alloc, &condition.text)?;
    let pieces = pieces_of(alloc, &words)?;
    push_typed(bases, &pieces, &condition.parts)?;
    Ok(())
}

/// What conditions rest on, as often as they do.
pub(crate) fn all_bases(alloc: Global, conditions: &[Never]) -> Result<Vec<Basis>, AllocError>
    ensures bases { IfOk result (λ bases. bases.items ≡ all_bases conditions.now) }
{
    let mut bases = Vec::new(alloc);
    for condition in conditions {
        if let Never::Holds(condition) = condition {
            push_bases(&mut bases, condition)?;
        }
    }
    Ok(bases)
}

impl Answers {
    /// What the condition of a question rests on and is never there, if it is known to ask nothing.
    #[tactic(auto, using(crate::proofs::BasisLemmas::none_among))]
    pub fn basis_of(&self, alloc: Global, question: &Question) -> Result<Option<Basis>, AllocError>
        ensures some { IfOk result (λ found. IfSome found (λ b.
            Contains (bases_questioned question.now) b × Contains self.now.empty.items b)) }
        ensures none { IfOk result (λ found. found ≡ None → All
            (λ b. Contains self.now.empty.items b → ⊥) (bases_questioned question.now)) }
    {
        let bases = bases_questioned(alloc, question)?;
        first_in(&bases, &self.empty)
    }
}

/// What a question rests on.
fn bases_questioned(alloc: Global, question: &Question) -> Result<Vec<Basis>, AllocError>
    ensures bases { IfOk result (λ bases. bases.items ≡ bases_questioned question.now) }
{
    let mut bases = Vec::new(alloc);
    if let Question::Never(Never::Holds(condition)) = question {
        push_bases(&mut bases, condition)?;
    }
    Ok(bases)
}

/// The first of some that is among others.
fn first_in(bases: &[Basis], others: &[Basis]) -> Result<Option<Basis>, AllocError>
    ensures some { IfOk result (λ found. IfSome found (λ b.
        Contains bases.now b × Contains others.now b)) }
    ensures none { IfOk result (λ found. found ≡ None → All
        (λ b. Contains others.now b → ⊥) bases.now) }
{
    for basis in bases {
        if others.contains(basis) {
            return Ok(Some(basis.clone()?));
        }
    }
    Ok(None)
}
