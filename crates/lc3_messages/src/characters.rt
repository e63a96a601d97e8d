//! Characters as they are shown.
use lc3_spelling::is_unseen;
use std::fmt;
use std::fmt::Write;

/// The most characters of a word that a text shows.
const SHOWN: usize = 40;

/// The character, or `?` in the place of one that nobody sees, but for a tab.
pub fn picture(character: char) -> char {
    if character != '\t' && is_unseen(character) {
        '?'
    } else {
        character
    }
}

/// A word of a source inside a text: of one with over 40 characters the first 40 and `...`.
#[derive(Clone, Copy)]
pub(crate) struct Excerpt<'a>(pub &'a str);

impl fmt::Display for Excerpt<'_> {
    fn fmt<W: fmt::Write>(&self, f: &mut fmt::Formatter<W>) -> fmt::Result {
        for character in self.0.chars().take(SHOWN) {
            f.write_char(picture(character))?;
        }
        if self.0.chars().nth(SHOWN).is_some() {
            write!(f, "...")?;
        }
        Ok(())
    }
}

/// A number with commas at the thousands; it is less than a million in magnitude.
#[derive(Clone, Copy)]
pub(crate) struct Grouped(pub i64);

impl fmt::Display for Grouped {
    fn fmt<W: fmt::Write>(&self, f: &mut fmt::Formatter<W>) -> fmt::Result {
        let magnitude = self.0.unsigned_abs();
        let sign = if self.0 < 0 { "-" } else { "" };
        let (thousands, rest) = (magnitude / 1000, magnitude % 1000);
        if thousands == 0 {
            write!(f, "{sign}{rest}")
        } else {
            write!(f, "{sign}{thousands},{rest:03}")
        }
    }
}

pub(crate) fn is_typographic_quote(character: char) -> bool {
    matches!(
        character,
        '\u{2018}' | '\u{2019}' | '\u{201C}'..='\u{201F}' | '\u{AB}' | '\u{BB}'
    )
}
