//! The source of a process.
ghost use Rattle.std.specs.Prelude.{◌≡◌, IfOk, IfSome, option_map, ◌-◌, Some, slice_get};
ghost use Rattle.lab_sources.specs.Labels.{address_of, word_at, nearest, or_higher, highest_up_to, label_text};
ghost use Rattle.lab_sources.specs.Rows.{row_at, held_row};
ghost use Rattle.lab_sources.specs.Places.{label_at, word_shown, line_or_nothing, content_text};

use lc3_asm::{Assembled, Row, Symbols};
use lc3_table::WordText;
use lc3_word::{FIRST_DEVICE, Image};
use std::alloc::{AllocError, Global};
use std::fmt;

/// A source text, and what it is assembled to.
#[derive(Drop)]
pub struct Source {
    pub text: String,
    pub assembled: Assembled,
}

impl Source {
    /// A copy of its image.
    pub fn image(&self, alloc: Global) -> Result<Image, AllocError>
        ensures image { IfOk result (λ image. image ≡ self.now.assembled.image) }
    {
        let image = self.assembled.image();
        match Image::new(image.origin(), image.words().to_vec(alloc)?) {
            Ok(copy) => Ok(copy),
            Err(_) => unreachable!(),
        }
    }

    /// The word of its image at an address, where that is within it.
    pub fn word(&self, address: u16) -> Option<u16>
        ensures word { result ≡ word_at self.now.assembled.image address }
    {
        let image = self.assembled.image();
        if image.origin() <= address {
            let place = address - image.origin();
            image.words().get(usize::from(place)).copied()
        } else {
            None
        }
    }

    /// The address of the label that a word names, in either case.
    pub fn address_of(&self, word: &[u8]) -> Option<u16>
        ensures address { result ≡ address_of self.now.assembled.symbols word.now }
    {
        address_of(self.assembled.symbols(), word)
    }

    /// The nearest label of an address: the one with the greatest address that isn't above it, of
    /// several the one that is defined first. An address outside the image has none.
    pub fn nearest(&self, address: u16) -> Option<Near<'_>>
        ensures label { option_map (λ n. (n.name.now, n.place)) result
            ≡ nearest self.now.assembled address }
        ensures address { IfSome result (λ n. n.address ≡ address) }
    {
        let _word = self.word(address)?;
        let (name, place) = highest_up_to(self.assembled.symbols(), address)?;
        Some(Near {
            name,
            place,
            address,
        })
    }

    /// The line whose first word is at an address.
    pub fn row_at(&self, address: u16) -> Option<Row>
        ensures row { result ≡ row_at self.now.assembled.rows address }
    {
        self.assembled
            .rows()
            .iter()
            .copied()
            .find(|row| row.address == address)
    }

    /// The line whose first word is at an address, where memory holds this word there and it is the
    /// one of the image.
    pub fn held_row(&self, address: u16, word: u16) -> Option<Row>
        ensures row { result ≡ held_row self.now.assembled address word }
    {
        if self.word(address)? == word {
            self.row_at(address)
        } else {
            None
        }
    }
}

/// A source, and its lines as they are shown: without separators at their ends, and with `?` for
/// each character without a picture.
#[derive(Drop)]
pub struct Listing {
    pub source: Source,
    pub lines: Vec<String>,
}

impl Listing {
    /// The listing of a source.
    pub fn new(alloc: Global, source: Source) -> Result<Listing, AllocError>
        ensures source { IfOk result (λ listing. listing.source ≡ source) }
    {
        let lines = shown_lines(alloc, &source.text)?;
        Ok(Listing { source, lines })
    }
}

/// A line as it is shown, by its number, from 1.
pub fn line_at(lines: &[String], number: usize) -> &str
    ensures line { result.now ≡ line_or_nothing (slice_get lines.now (number - 1)) }
{
    match lines.get(number.saturating_sub(1)) {
        Some(line) => line.as_str(),
        None => "",
    }
}

/// The nearest label of an address of a process, or a dash where there is none. A process without
/// a source has no labels.
#[derive(Clone, Copy)]
pub struct NearestLabel<'a> {
    pub listing: Option<&'a Listing>,
    pub address: u16,
}

impl fmt::Display for NearestLabel<'_> {
    ghost output = { λ n. Some (label_at n.address (option_map (λ l. l.now) n.listing)) };

    fn fmt<W: fmt::Write>(&self, f: &mut fmt::Formatter<W>) -> fmt::Result {
        let Some(listing) = self.listing else {
            return write!(f, "-");
        };
        match listing.source.nearest(self.address) {
            Some(near) => write!(f, "{near}"),
            None => write!(f, "-"),
        }
    }
}

/// The text of a word at an address, or a dash in the device register page.
#[derive(Clone, Copy)]
struct WordShown {
    address: u16,
    word: u16,
}

impl fmt::Display for WordShown {
    ghost output = { λ w. Some (word_shown w.address w.word) };

    fn fmt<W: fmt::Write>(&self, f: &mut fmt::Formatter<W>) -> fmt::Result {
        if self.address < FIRST_DEVICE {
            let word = WordText(self.word);
            write!(f, "{word}")
        } else {
            write!(f, "-")
        }
    }
}

/// What stands at an address of a process: with its number the line of the source whose first word
/// is there, where memory still holds that word, else the text of the word, or a dash in the device
/// register page.
#[derive(Clone, Copy)]
pub struct Content<'a> {
    pub listing: Option<&'a Listing>,
    pub address: u16,
    /// The word that memory holds there.
    pub word: u16,
}

impl fmt::Display for Content<'_> {
    ghost output = { λ c. Some (content_text c.address c.word (option_map (λ l. l.now) c.listing)) };

    fn fmt<W: fmt::Write>(&self, f: &mut fmt::Formatter<W>) -> fmt::Result {
        let word = WordShown {
            address: self.address,
            word: self.word,
        };
        let Some(listing) = self.listing else {
            return write!(f, "{word}");
        };
        match listing.source.held_row(self.address, self.word) {
            Some(row) => {
                let number = row.line;
                let line = line_at(&listing.lines, number);
                write!(f, "line {number}: {line}")
            }
            None => write!(f, "{word}"),
        }
    }
}

/// What is shown in the place of a character without a picture.
const UNSEEN: char = '?';

/// Whether a character has a picture: control characters but the tab have none, nor have blanks
/// without width, marks that turn the text, and joiners.
fn has_picture(character: char) -> bool {
    !matches!(
        character,
        '\u{0}'..='\u{8}'
            | '\u{A}'..='\u{1F}'
            | '\u{7F}'..='\u{9F}'
            | '\u{200B}'..='\u{200F}'
            | '\u{2028}'..='\u{202E}'
            | '\u{2060}'..='\u{206F}'
            | '\u{FEFF}'
    )
}

/// A line as it is shown: without separators of words at its ends, and with `?` for each character
/// without a picture.
fn shown_line(alloc: Global, line: &str) -> Result<String, AllocError> {
    let mut shown = String::new(alloc);
    let line = line.trim_matches(|end| matches!(end, ' ' | '\t' | ',' | '\r'));
    for character in line.chars() {
        shown.push(if has_picture(character) {
            character
        } else {
            UNSEEN
        })?;
    }
    Ok(shown)
}

/// The lines of a text as they are shown, in order.
pub fn shown_lines(alloc: Global, text: &str) -> Result<Vec<String>, AllocError> {
    let mut lines = Vec::new(alloc);
    for line in text.split('\n') {
        lines.push(shown_line(alloc, line)?)?;
    }
    Ok(lines)
}

/// A label, and an address at it or behind it. It is shown as the name of the label, and behind a
/// `+` the number of words from there on.
#[derive(Clone, Copy, Debug)]
pub struct Near<'a> {
    /// The name of the label, in upper case.
    pub name: &'a str,
    /// The address of the label.
    pub place: u16,
    /// The address that is told.
    pub address: u16,
}

impl fmt::Display for Near<'_> {
    ghost output = { λ n. Some (label_text (n.name.now, n.place) n.address) };

    #[tactic(auto, unfolding(crate::specs::Labels::label_text))]
    fn fmt<W: fmt::Write>(&self, f: &mut fmt::Formatter<W>) -> fmt::Result {
        let name = self.name;
        if self.place == self.address {
            return write!(f, "{name}");
        }
        let behind = self.address.saturating_sub(self.place);
        write!(f, "{name}+{behind}")
    }
}

/// The address of the label that a word names, in either case.
#[tactic(auto, unfolding(lc3_table::specs::Words::same_name))]
pub fn address_of(symbols: &Symbols, word: &[u8]) -> Option<u16>
    ensures value { result ≡ address_of symbols.now word.now }
{
    for i in 0..symbols.len() {
        let (name, address) = symbols.get(i)?;
        if name.as_bytes().eq_ignore_ascii_case(word) {
            return Some(address);
        }
    }
    None
}

/// A label that isn't above an address, unless the other one is above the label.
fn or_higher<'a>(
    address: u16,
    label: (&'a str, u16),
    other: Option<(&'a str, u16)>,
) -> Option<(&'a str, u16)>
    ensures value { option_map (λ l. (l.0.now, l.1)) result ≡ or_higher address
        (label.entry.0.now, label.entry.1) (option_map (λ l. (l.0.now, l.1)) other.entry) }
{
    if label.1 <= address && other.is_none_or(|found| found.1 <= label.1) {
        Some(label)
    } else {
        other
    }
}

/// The label with the greatest address that isn't above this one, of several the one that is
/// defined first.
pub fn highest_up_to(symbols: &Symbols, address: u16) -> Option<(&str, u16)>
    ensures value { option_map (λ l. (l.0.now, l.1)) result
        ≡ highest_up_to address symbols.now }
{
    let mut highest = None;
    let mut left = symbols.len();
    while left > 0 {
        left -= 1;
        let Some(label) = symbols.get(left) else {
            unreachable!()
        };
        highest = or_higher(address, label, highest);
    }
    highest
}
