//! What is wrong with words that the parser of commands takes one by one.

use crate::request::Refusal;
use lc3_spelling::is_unseen;
use std::alloc::Global;
use std::fmt;

#[derive(Clone, Copy)]
pub(crate) enum Misuse<'a> {
    /// A value that can't be that of the option of this name, which takes this.
    Value(&'a str, &'static str, &'static str),
    /// Options that don't go together, as this says.
    Options(&'static str),
    /// A console input from standard input, which holds this, or is that of another process.
    Input(&'a str, Option<&'static str>),
}

impl Misuse<'_> {
    /// The text for the user.
    pub(crate) fn refusal(self, alloc: Global) -> Refusal {
        match format!(in alloc; "error: {self}\n\nFor more information, try '--help'.\n") {
            Ok(text) => Refusal::Usage(text),
            Err(_) => Refusal::NoMemory,
        }
    }
}

impl fmt::Display for Misuse<'_> {
    fn fmt<W: fmt::Write>(&self, f: &mut fmt::Formatter<W>) -> fmt::Result {
        match *self {
            Misuse::Value(value, option, takes) => {
                let value = Shown(value);
                write!(f, "invalid value '{value}' for '--{option} <{takes}>'")
            }
            Misuse::Options(text) => f.write_str(text),
            Misuse::Input(word, held) => {
                let word = Shown(word);
                write!(
                    f,
                    "standard input can't be the console input of '{word}': it "
                )?;
                match held {
                    Some(held) => write!(f, "holds {held}"),
                    None => f.write_str("is that of another process"),
                }
            }
        }
    }
}

/// A word of the user as messages show it: a character that nobody sees is an escape, as `\n` or `\u{1b}`, so that a word is never
/// more than its place in a line.
#[derive(Clone, Copy)]
pub struct Shown<'a>(pub &'a str);

impl fmt::Display for Shown<'_> {
    fn fmt<W: fmt::Write>(&self, f: &mut fmt::Formatter<W>) -> fmt::Result {
        for character in self.0.chars() {
            if is_unseen(character) {
                write!(f, "{}", character.escape_default())?;
            } else {
                f.write_char(character)?;
            }
        }
        Ok(())
    }
}
