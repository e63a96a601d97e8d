//! Marks: addresses of processes that steps stop at, or whose words they watch.
ghost use Rattle.std.specs.Prelude.{◌≡◌, IfOk, ◌++◌, Some, OnOk, string_bytes};
ghost use Rattle.lab_session.specs.Marks.{rank, is_of, is_same, is_before, has_mark, with_mark, without_mark, of_kind, break_at, is_at_break};
ghost use Rattle.lab_session.specs.MarkTexts.{mark_text, watched_text, set_text, marks_text, off_text, changes_text};

use crate::state::listing_in;
use crate::stepping::{Watched, has_changed, watched_at, word_at};
use lab_sched::World;
use lab_sources::{Listing, NearestLabel};
use lc3_word::Hex;
use std::alloc::{AllocError, Global};
use std::fmt::{self, Write};

/// What a mark is for.
#[derive(Clone, Copy)]
pub enum MarkKind {
    /// Steps of the process stop at the address.
    Break,
    /// Steps stop where they change the word at the address.
    Watch,
}

/// A marked address of a process.
#[derive(Clone, Copy)]
pub struct Mark {
    pub kind: MarkKind,
    pub pid: usize,
    pub address: u16,
}

/// Breaks come before watches.
fn rank(kind: MarkKind) -> u8
    ensures value { result ≡ rank kind }
{
    kind as u8
}

fn is_of(kind: MarkKind, mark: Mark) -> bool
    ensures value { result ≡ is_of kind mark }
{
    rank(mark.kind) == rank(kind)
}

fn is_same(mark: Mark, other: Mark) -> bool
    ensures value { result ≡ is_same mark other }
{
    is_of(other.kind, mark) && mark.pid == other.pid && mark.address == other.address
}

/// Whether a mark comes before another one, in the order of kind, process and address.
fn is_before(mark: Mark, other: Mark) -> bool
    ensures value { result ≡ is_before mark other }
{
    let is_lower = mark.pid < other.pid || (mark.pid == other.pid && mark.address < other.address);
    rank(mark.kind) < rank(other.kind) || (is_of(other.kind, mark) && is_lower)
}

/// Whether a mark is one of these.
pub fn has_mark(marks: &[Mark], mark: Mark) -> bool
    ensures value { result ≡ has_mark marks.now mark }
{
    marks.iter().any(|it| is_same(*it, mark))
}

/// These with a mark, in the order of kind, process and address.
#[tactic(auto, using(crate::proofs::MarkLemmas::one_between))]
pub fn with_mark(alloc: Global, marks: &[Mark], mark: Mark) -> Result<Vec<Mark>, AllocError>
    ensures marks { IfOk result (λ all. all.items ≡ with_mark marks.now mark) }
{
    let others = marks.iter().copied();
    let mut all: Vec<Mark> = others.filter(|it| is_before(*it, mark)).collect(alloc)?;
    all.push(mark)?;
    let others = marks.iter().copied();
    let behind: Vec<Mark> = others.filter(|it| is_before(mark, *it)).collect(alloc)?;
    all.extend_from_slice(behind.as_slice())?;
    Ok(all)
}

/// The other marks.
pub fn without_mark(alloc: Global, marks: &[Mark], mark: Mark) -> Result<Vec<Mark>, AllocError>
    ensures marks { IfOk result (λ left. left.items ≡ without_mark marks.now mark) }
{
    marks
        .iter()
        .copied()
        .filter(|it| !is_same(*it, mark))
        .collect(alloc)
}

/// The marks of a kind.
pub fn of_kind(alloc: Global, marks: &[Mark], kind: MarkKind) -> Result<Vec<Mark>, AllocError>
    ensures marks { IfOk result (λ found. found.items ≡ of_kind kind marks.now) }
{
    marks
        .iter()
        .copied()
        .filter(|it| is_of(kind, *it))
        .collect(alloc)
}

/// A break at an address of a process.
pub fn break_at(pid: usize, address: u16) -> Mark
    ensures value { result ≡ break_at pid address }
{
    let kind = MarkKind::Break;
    Mark { kind, pid, address }
}

/// Whether process `pid` is at one of its breaks.
pub fn is_at_break(world: &World, marks: &[Mark], pid: usize) -> bool
    ensures value { result ≡ is_at_break marks.now pid world.now }
{
    match world.process(pid) {
        Some(process) => has_mark(marks, break_at(pid, process.machine().pc())),
        None => false,
    }
}

/// A marked address as it is shown, with its nearest label.
#[derive(Clone, Copy)]
struct Marked<'a> {
    listings: &'a [Option<Listing>],
    mark: Mark,
}

impl fmt::Display for Marked<'_> {
    ghost output = { λ m. Some (mark_text m.listings.now m.mark) };

    #[tactic(auto, unfolding(crate::specs::MarkTexts::mark_text))]
    fn fmt<W: fmt::Write>(&self, f: &mut fmt::Formatter<W>) -> fmt::Result {
        let Mark { pid, address, .. } = self.mark;
        let shown = Hex(address);
        let listing = listing_in(self.listings, pid);
        let label = NearestLabel { listing, address };
        write!(f, "{pid} {shown} {label}")
    }
}

/// A watched address as it is shown, with the word that was seen there.
#[derive(Clone, Copy)]
struct Seen<'a> {
    listings: &'a [Option<Listing>],
    watched: Watched,
}

impl fmt::Display for Seen<'_> {
    ghost output = { λ s. Some (watched_text s.listings.now s.watched) };

    #[tactic(auto, unfolding(crate::specs::MarkTexts::watched_text))]
    fn fmt<W: fmt::Write>(&self, f: &mut fmt::Formatter<W>) -> fmt::Result {
        let mark = Marked {
            listings: self.listings,
            mark: self.watched.mark,
        };
        let word = Hex(self.watched.word);
        write!(f, "watch {mark} {word}")
    }
}

/// The line of a mark that is set, as `break 0 x3007 LOOP` or `watch 0 x3010 COUNT x0005`.
#[derive(Clone, Copy)]
struct SetLine<'a> {
    listings: &'a [Option<Listing>],
    world: &'a World,
    mark: Mark,
}

impl fmt::Display for SetLine<'_> {
    ghost output = { λ s. Some (set_text s.listings.now s.world.now s.mark) };

    fn fmt<W: fmt::Write>(&self, f: &mut fmt::Formatter<W>) -> fmt::Result {
        let SetLine { listings, mark, .. } = *self;
        match mark.kind {
            MarkKind::Break => {
                let mark = Marked { listings, mark };
                write!(f, "break {mark}\n")
            }
            MarkKind::Watch => {
                let watched = watched_at(self.world, mark);
                let seen = Seen { listings, watched };
                write!(f, "{seen}\n")
            }
        }
    }
}

/// The line of a mark that is set; of a watch with the word there now.
pub fn set_text(
    alloc: Global,
    listings: &[Option<Listing>],
    world: &World,
    mark: Mark,
) -> Result<String, AllocError>
    ensures text { IfOk result (λ s. string_bytes s ≡ set_text listings.now world.now mark) }
{
    let line = SetLine {
        listings,
        world,
        mark,
    };
    format!(in alloc; "{line}")
}

/// The line of a mark that is taken off, as `clear 0 x3007 LOOP`.
pub fn off_text(
    alloc: Global,
    listings: &[Option<Listing>],
    mark: Mark,
) -> Result<String, AllocError>
    ensures text { IfOk result (λ s. string_bytes s ≡ off_text listings.now mark) }
{
    let shown = Marked { listings, mark };
    match mark.kind {
        MarkKind::Break => format!(in alloc; "clear {shown}\n"),
        MarkKind::Watch => format!(in alloc; "unwatch {shown}\n"),
    }
}

/// The lines of marks, in their order.
pub fn marks_text(
    alloc: Global,
    listings: &[Option<Listing>],
    world: &World,
    marks: &[Mark],
) -> Result<String, AllocError>
    ensures text { IfOk result
        (λ s. string_bytes s ≡ marks_text listings.now world.now marks.now) }
{
    let mut text = String::new(alloc);
    for mark in marks {
        let line = SetLine {
            listings,
            world,
            mark: *mark,
        };
        write!(text, "{line}")?;
    }
    Ok(text)
}

/// Adds the lines of the watched words that have changed, each as
/// `watch 0 x3010 COUNT x0005 -> x0006`.
#[tactic(auto, unfolding(crate::specs::MarkTexts::change_line))]
pub fn push_changes(
    text: &mut String,
    listings: &[Option<Listing>],
    world: &World,
    watched: &[Watched],
) -> Result<(), AllocError>
    ensures text { OnOk result (string_bytes text.new
        ≡ string_bytes text.old ++ changes_text listings.now world.now watched.now) }
{
    for word in watched {
        let watched = *word;
        if !has_changed(world, watched) {
            continue;
        }
        let seen = Seen { listings, watched };
        let word = Hex(word_at(world, watched.mark));
        write!(text, "{seen} -> {word}\n")?;
    }
    Ok(())
}
