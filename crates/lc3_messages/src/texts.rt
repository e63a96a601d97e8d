//! What is said of a fault.

use crate::characters::{Excerpt, Grouped, is_typographic_quote, picture};
use crate::operations::{
    DidYouMean, NO_LABEL_BUT_OPERATION, bad_label, bad_operation, is_operation, is_register,
    name_meant, name_of, number_meant, said_of, upper, vector_named,
};
use crate::parts::{Faulty, NOTHING, Part, Remark, Span, faulty_part, operation_number, parts_of};
use crate::source::{Place, Source, line_of};
use lc3_asm::{Token, first_character, is_label};
use lc3_table::{Fault, Form};
use std::alloc::{AllocError, Global};
use std::fmt;

/// What is said where a source begins a second program.
pub(crate) const ONE_PROCESS: &str = "each process has a file of its own";

fn remark_at(place: Place<'_>, kind: Fault) -> Result<Remark, AllocError> {
    let alloc = place.source.alloc;
    let text = match kind {
        Fault::BadToken => return bad_token(place),
        Fault::BadString => return bad_string(alloc, place.part),
        Fault::BadOperation => return bad_operation(place),
        Fault::NoOrig => String::from_str(
            alloc,
            "the first statement must be .ORIG with the address of the first word, as .ORIG x3000",
        ),
        Fault::SecondOrig => {
            let mut lines = place.source.reader.lines().iter();
            let before = lines.position(|line| line.origin().is_some()).unwrap_or(0);
            let line = before.saturating_add(1);
            format!(in alloc; "a source has one .ORIG, the one of line {line}; {ONE_PROCESS}")
        }
        Fault::TooLong => String::from_str(
            alloc,
            "the words up to here go beyond xFE00, where the device registers begin",
        ),
        Fault::BadLabel => bad_label(place),
        Fault::BadOperands => bad_operands(place),
        Fault::BadNumber => bad_number(place),
        Fault::Range => range(place),
        Fault::DuplicateLabel => {
            let name = name_of(place.part.word);
            let line = line_of(alloc, &place.source.labels.definitions, name)?.unwrap_or(1);
            format!(in alloc; "line {line} already defines the label {}", Excerpt(name))
        }
        Fault::Undefined => undefined(place),
        Fault::OffsetRange => offset_range(place),
    };
    Ok(place.part.remark(text?))
}

/// What is said of a fault of this kind in the line with this number, from 1.
pub(crate) fn remark(
    source: &Source<'_>,
    number: usize,
    kind: Fault,
) -> Result<Remark, AllocError> {
    let parts = parts_of(source.alloc, source.line(number))?;
    let Faulty { number: at, forms } = faulty_part(source.alloc, &parts, kind)?;
    let is_read = source.reader.started() || !source.reader.faults().is_empty();
    match parts.get(at).copied() {
        Some(part) if is_read || kind != Fault::NoOrig => {
            let place = Place {
                source,
                number,
                parts: &parts,
                at,
                part,
                forms,
            };
            remark_at(place, kind)
        }
        _ => Ok(NOTHING.remark(String::from_str(
            source.alloc,
            "there is no statement; the first is .ORIG with the address of the first word, as .ORIG x3000",
        )?)),
    }
}

fn form_text(form: Form) -> &'static str {
    match form {
        Form::Register => "a register, R0 to R7",
        Form::RegisterOrImmediate => "a register, R0 to R7, or a number from -16 to 15",
        Form::Offset => "a number from -32 to 31",
        Form::Target => "a label, or an offset from -256 to 255",
        Form::FarTarget => "a label, or an offset from -1,024 to 1,023",
        Form::Vector => "a number from 0 to 255",
        Form::Address => "an address from x0000 to xFE00",
        Form::Count => "a number from 1 to 65,024",
        Form::Value => "a label, or a number from -32,768 to 65,535",
        Form::Characters => "a string between two \"",
    }
}

/// A number, or this word where it is 0.
#[derive(Clone, Copy)]
struct Count(usize, &'static str);

impl fmt::Display for Count {
    fn fmt<W: fmt::Write>(&self, f: &mut fmt::Formatter<W>) -> fmt::Result {
        match *self {
            Count(0, none) => write!(f, "{none}"),
            Count(number, _) => write!(f, "{number}"),
        }
    }
}

/// What each of these operands may be, after a text.
#[derive(Clone, Copy)]
struct Forms(&'static [Form]);

impl fmt::Display for Forms {
    fn fmt<W: fmt::Write>(&self, f: &mut fmt::Formatter<W>) -> fmt::Result {
        for (i, form) in self.0.iter().enumerate() {
            let mark = if i == 0 { ":" } else { ";" };
            write!(f, "{mark} {}", form_text(*form))?;
        }
        Ok(())
    }
}

fn misplaced(alloc: Global, word: &str, said: &str, form: Form) -> Result<String, AllocError> {
    format!(in alloc; "{}{said}; expected {}", Excerpt(word), form_text(form))
}

fn bad_operands(place: Place<'_>) -> Result<String, AllocError> {
    let alloc = place.source.alloc;
    let word = place.part.word;
    if place.at == operation_number(place.parts) {
        let second = place.parts.get(1);
        if place.at == 0 && second.is_some_and(|second| second.is_operation()) {
            return said_of(alloc, word, NO_LABEL_BUT_OPERATION);
        }
        let taken = place.forms.len();
        let given = place.parts.len().saturating_sub(place.at.saturating_add(1));
        let s = if taken == 1 { "" } else { "s" };
        let hint = if given > taken {
            " (a comment begins with ;)"
        } else {
            ""
        };
        return format!(in alloc;
            "{} takes {} operand{s}, but has {}{}{hint}",
            Excerpt(word),
            Count(taken, "no"),
            Count(given, "none"),
            Forms(place.forms)
        );
    }
    let form = place.form();
    let (name, said) = if form == Form::Characters {
        (word, " isn't a string")
    } else if word.starts_with('"') {
        ("a string", " isn't allowed here")
    } else if is_register(word.as_bytes()) {
        ("a register", " isn't allowed here")
    } else {
        (word, " isn't a register")
    };
    misplaced(alloc, name, said, form)
}

/// What is said of the name of a call in the place of its vector.
fn trap_meant(alloc: Global, word: &str, form: Form) -> Result<Option<String>, AllocError> {
    match vector_named(alloc, word)? {
        Some(vector) if form == Form::Vector => {
            let text = format!(in alloc; "{} is TRAP x{vector:02X}", Excerpt(word))?;
            Ok(Some(text))
        }
        _ => Ok(None),
    }
}

fn bad_number(place: Place<'_>) -> Result<String, AllocError> {
    let alloc = place.source.alloc;
    let word = place.part.word;
    let form = place.form();
    let takes_label = form.takes_label();
    let bytes = word.as_bytes();
    if takes_label && is_operation(bytes) {
        return said_of(alloc, word, NO_LABEL_BUT_OPERATION);
    }
    if let Some(text) = trap_meant(alloc, word, form)? {
        return Ok(text);
    }
    let said = if is_label(bytes) {
        " isn't a number, and a label isn't allowed here"
    } else if let Some(number) = number_meant(alloc, word)? {
        let (word, number) = (Excerpt(word), Excerpt(&number));
        return format!(in alloc; "{word} isn't a number; did you mean {number}?");
    } else if takes_label {
        " is neither a number nor a label"
    } else {
        " isn't a number"
    };
    misplaced(alloc, word, said, form)
}

fn range(place: Place<'_>) -> Result<String, AllocError> {
    let form = place.form();
    let hint = if matches!(form, Form::Target | Form::FarTarget) {
        "; a number here is the offset itself, not an address"
    } else {
        ""
    };
    let (word, expected) = (Excerpt(place.part.word), form_text(form));
    format!(in place.source.alloc; "the number {word} is out of range; expected {expected}{hint}")
}

/// What is left of a string from its first character on that is bad.
fn from_first_bad(text: &str) -> &str {
    let mut rest = text.as_bytes();
    while !rest.is_empty() {
        let Some((_, after)) = first_character(rest) else {
            break;
        };
        rest = after;
    }
    text.get(text.len().saturating_sub(rest.len())..)
        .unwrap_or("")
}

fn bad_string(alloc: Global, part: Part<'_>) -> Result<Remark, AllocError> {
    let Token::Quoted(_) = part.token else {
        let mut characters = part.word.chars();
        let text = match characters.find(|character| is_typographic_quote(*character)) {
            Some(quote) => format!(in alloc;
                "this string has no end; a \" closes it, and U+{:04X} doesn't",
                u32::from(quote)
            ),
            None => String::from_str(alloc, "this string has no end; a \" closes it"),
        };
        return Ok(part.remark(text?));
    };
    let last = part.word.len().saturating_sub(1);
    let bad = from_first_bad(part.word.get(1..last).unwrap_or(""));
    let start = part.span.end.saturating_sub(1).saturating_sub(bad.len());
    let mut characters = bad.chars();
    let (length, text) = match (characters.next(), characters.next()) {
        (Some('\\'), Some(character)) => (
            character.len_utf8().saturating_add(1),
            format!(in alloc;
                "\\{} isn't an escape; the escapes are \\n \\t \\r \\a \\b \\f \\v \\e \\0 \\\" \\\\",
                picture(character)
            )?,
        ),
        (first, _) => {
            let character = first.unwrap_or('"');
            let text = format!(in alloc;
                "the character U+{:04X} isn't allowed in a string; strings have characters from x20 to x7E, tabs and escapes",
                u32::from(character)
            )?;
            (character.len_utf8(), text)
        }
    };
    let end = start.saturating_add(length);
    let mark = Span { start, end };
    Ok(Remark { mark, text })
}

/// The characters of a label in capital letters, a bit for each.
fn characters_of(label: &[u8]) -> u64 {
    label.iter().fold(0, |found, byte| found | 1_u64.rotate_left(u32::from(*byte)))
}

/// Whether one label may be spelled nearly like another: an edit changes the length by one and the characters by two, at
/// most. So a text with many labels is soon gone through.
fn may_be_near(one: &[u8], other: &[u8]) -> bool {
    let differing = characters_of(one) ^ characters_of(other);
    one.len().abs_diff(other.len()) <= 2 && differing.count_ones() <= 4
}

fn undefined(place: Place<'_>) -> Result<String, AllocError> {
    let alloc = place.source.alloc;
    let labels = &place.source.labels;
    let word = place.part.word;
    let shown = Excerpt(word);
    if let Some(line) = line_of(alloc, &labels.behind, word)? {
        return format!(in alloc;
            "no line before .END defines the label {shown}; line {line} after it does"
        );
    }
    let name = upper(alloc, word.as_bytes())?;
    let names = labels.definitions.keys().map(|name| name.as_str());
    let names: Vec<&str> = names
        .filter(|other| may_be_near(name.as_bytes(), other.as_bytes()))
        .collect(alloc)?;
    let mean = DidYouMean(name_meant(alloc, word, &names)?);
    format!(in alloc; "no line defines the label {shown}{mean}")
}

fn offset_range(place: Place<'_>) -> Result<String, AllocError> {
    let source = place.source;
    let name = upper(source.alloc, place.part.word.as_bytes())?;
    let target = source.reader.symbols().value(&name).unwrap_or(0);
    let i = place.number.saturating_sub(1);
    let address = source.reader.places().get(i).copied().unwrap_or(0);
    let bounds = match place.form() {
        Form::FarTarget => "from -1,024 to 1,023",
        _ => "from -256 to 255",
    };
    format!(in source.alloc;
        "the label {} is too far away: its offset is {}, and must be {bounds}",
        Excerpt(place.part.word),
        Grouped(i64::from(target) - i64::from(address) - 1)
    )
}

fn bad_token(place: Place<'_>) -> Result<Remark, AllocError> {
    let mut characters = place.part.word.char_indices();
    let bad = characters.find(|(_, character)| !matches!(*character, '!'..='~'));
    let (at, character) = bad.unwrap_or((0, ' '));
    let start = place.part.span.start.saturating_add(at);
    let (before, behind) = match character {
        '\u{FEFF}' if place.number == 1 && start == 0 => (
            "the file begins with a byte order mark, ",
            "; save it as UTF-8 without one",
        ),
        _ if is_typographic_quote(character) => (
            "this is a typographic quote, ",
            "; write a string between two \"",
        ),
        '\u{2010}'..='\u{2015}' | '\u{2212}' => ("this is a dash, ", "; a minus is written -"),
        '\u{A0}' | '\u{2000}'..='\u{200B}' | '\u{202F}' | '\u{3000}' | '\u{FEFF}' => (
            "this is a blank of another kind, ",
            "; blanks, tabs and commas separate words",
        ),
        _ => (
            "the character ",
            " isn't allowed in a word; words have characters from x21 to x7E",
        ),
    };
    let end = start.saturating_add(character.len_utf8());
    let mark = Span { start, end };
    let text = format!(in place.source.alloc; "{before}U+{:04X}{behind}", u32::from(character))?;
    Ok(Remark { mark, text })
}
