//! The addresses that places of conditions stand for, or why they stand for none.
use crate::advice::advice_line;
use crate::complaint::{Complaint, Misuse};
use crate::places::address;
use lab_arguments::Shown;
use lab_sources::Source;
use lc3_spelling::suggestion;
use lc3_word::Hex;
use std::alloc::{AllocError, Global};
use std::fmt::{self, Display};
use std::slice;

/// The first and the last of some addresses. They are shown as `A-B`, or `A` where both are one.
#[derive(Clone, Copy, PartialEq, Eq)]
pub(crate) struct Span {
    first: u16,
    last: u16,
}

impl Display for Span {
    fn fmt<W: fmt::Write>(&self, f: &mut fmt::Formatter<W>) -> fmt::Result {
        let first = Hex(self.first);
        if self.first == self.last {
            return write!(f, "{first}");
        }
        let last = Hex(self.last);
        write!(f, "{first}-{last}")
    }
}

/// The two ends of a place, which are one where it has no `-`.
pub(crate) fn ends_of(place: &str) -> (&str, &str) {
    place.split_once('-').unwrap_or((place, place))
}

fn is_label(end: &str) -> bool {
    lab_places::has_label(end.as_bytes())
}

pub(crate) fn has_label(place: &str) -> bool {
    let (first, last) = ends_of(place);
    is_label(first) || is_label(last)
}

/// Whether a word is a place with a label: the other end may be an address.
pub(crate) fn is_labelled(place: &str) -> bool {
    let (first, last) = ends_of(place);
    let is_end = |end: &str| is_label(end) || address(end).is_some();
    has_label(place) && is_end(first) && is_end(last)
}

/// The address that one end of a place stands for in process `pid`: of a label that in its own source.
fn end_in(sources: &[Option<Source>], pid: usize, end: &str) -> Option<u16> {
    if is_label(end) {
        lab_places::address_in(sources, pid, end.as_bytes())
    } else {
        u16::try_from(address(end)?).ok()
    }
}

pub(crate) fn span_in(sources: &[Option<Source>], pid: usize, place: &str) -> Option<Span> {
    let (first, last) = ends_of(place);
    Some(Span {
        first: end_in(sources, pid, first)?,
        last: end_in(sources, pid, last)?,
    })
}

/// A word that may have labels, and the sources of the processes that it speaks of.
#[derive(Clone, Copy)]
pub(crate) struct Labelled<'s, 'a> {
    pub alloc: Global,
    pub sources: &'s [Option<Source>],
    pub word: &'a str,
    /// What is wrong with it where its labels stand for no addresses.
    pub unfit: Misuse,
}

impl<'a> Labelled<'_, 'a> {
    /// This is why its labels stand for no addresses, and that was meant, if it is known.
    pub(crate) fn because<F: Display + Drop>(&self, why: F, meant: Option<&str>) -> Complaint<'a> {
        match advice_line(self.alloc, why, meant) {
            Ok(line) => self.unfit.of(self.word).followed(Some(line)),
            Err(refused) => Complaint::from(refused),
        }
    }

    /// Why it is no condition with these addresses in the place of labels.
    pub(crate) fn reversed(&self, text: &str) -> Complaint<'a> {
        let text = Shown(text);
        let why = format_args!("{text}: the first address of a range is above the second");
        self.because(why, None)
    }

    /// Why a place stands for no addresses in a process: it has no source, or this one has no such label.
    pub(crate) fn not_in(&self, pid: usize, place: &str) -> Complaint<'a> {
        let Some(source) = self.sources.get(pid).filter(|source| source.is_some()) else {
            let place = Shown(place);
            let why = format_args!(
                "{place}: process {pid} is given as an object file, which has no labels"
            );
            return self.because(why, None);
        };
        let why = format_args!("process {pid} has no such label");
        self.without_label(slice::from_ref(source), place, why)
    }

    /// Why a place stands for no addresses by any of some sources: this is so of the end that none has, or of the first one where
    /// none has both. The label that is spelled most like it is named, if one is like it.
    pub(crate) fn without_label<F: Display + Drop>(
        &self,
        sources: &[Option<Source>],
        place: &str,
        why: F,
    ) -> Complaint<'a> {
        let (first, last) = ends_of(place);
        let has_first = (0..sources.len()).any(|pid| span_in(sources, pid, first).is_some());
        let end = if has_first { last } else { first };
        let shown = Shown(end);
        match nearest_to(self.alloc, sources, end) {
            Ok(nearest) => self.because(format_args!("{shown}: {why}"), nearest),
            Err(refused) => Complaint::from(refused),
        }
    }
}

/// The label of some sources that is spelled most like that of an end, if one is like it.
fn nearest_to<'a>(
    alloc: Global,
    sources: &'a [Option<Source>],
    end: &str,
) -> Result<Option<&'a str>, AllocError> {
    let mut names = Vec::new(alloc);
    for source in sources.iter().flatten() {
        let symbols = source.assembled.symbols();
        for place in 0..symbols.len() {
            if let Some((name, _)) = symbols.get(place) {
                names.push(name)?;
            }
        }
    }
    let label = end.split('+').next().unwrap_or(end);
    let label = label.to_ascii_uppercase(alloc)?;
    Ok(suggestion(alloc, &label, &names)?.and_then(|at| names.get(at).copied()))
}
