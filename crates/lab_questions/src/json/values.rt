//! Values of JSON.
ghost use Rattle.std.specs.Prelude.{◌≡◌, ◌<◌, ℕ, List, [], Some, flat_map, get_or, length};
ghost use Rattle.std.specs.Fmt.{WritesOnOk};
ghost use Rattle.lab_questions.specs.Values.{number_json, character_json, text_json, schedule_json, values_json, array_json, name_json};

use lab_sched::Steps;
use std::fmt;

/// A character by its number.
#[derive(Clone, Copy)]
struct Number(u8);

impl fmt::Display for Number {
    ghost output = { λ n. Some (number_json n.0) };

    #[tactic(auto, using(std::proofs::lemmas::Fmt::hex_byte))]
    fn fmt<W: fmt::Write>(&self, f: &mut fmt::Formatter<W>) -> fmt::Result {
        let number = self.0;
        write!(f, "\\u00{number:02x}")
    }
}

/// A character, by its number, as it stands in a text.
#[derive(Clone, Copy)]
struct Character(u8);

impl fmt::Display for Character {
    ghost output = { λ c. Some (character_json c.0) };

    #[tactic(auto, unfolding(crate::specs::Values::character_json))]
    fn fmt<W: fmt::Write>(&self, f: &mut fmt::Formatter<W>) -> fmt::Result {
        if self.0 == b'"' {
            write!(f, "\\\"")
        } else if self.0 == b'\\' {
            write!(f, "\\\\")
        } else if b' ' <= self.0 && self.0 <= b'~' {
            write!(f, "{}", char::from(self.0))
        } else {
            write!(f, "{}", Number(self.0))
        }
    }
}

/// Characters, by their numbers, as they stand in a text.
#[derive(Clone, Copy)]
pub(crate) struct Characters<'a>(pub &'a [u8]);

impl fmt::Display for Characters<'_> {
    ghost output = { λ c. Some (flat_map character_json c.0.now) };

    fn fmt<W: fmt::Write>(&self, f: &mut fmt::Formatter<W>) -> fmt::Result {
        for number in self.0 {
            write!(f, "{}", Character(*number))?;
        }
        Ok(())
    }
}

/// The text of characters, by their numbers.
#[derive(Clone, Copy)]
pub(crate) struct Text<'a>(pub &'a [u8]);

impl fmt::Display for Text<'_> {
    ghost output = { λ t. Some (text_json t.0.now) };

    #[tactic(auto, unfolding(crate::specs::Values::text_json))]
    fn fmt<W: fmt::Write>(&self, f: &mut fmt::Formatter<W>) -> fmt::Result {
        write!(f, "\"{}\"", Characters(self.0))
    }
}

/// A name as a text, none of whose characters stands otherwise there.
#[derive(Clone, Copy)]
pub(crate) struct Quoted<'a>(pub &'a str);

impl fmt::Display for Quoted<'_> {
    ghost output = { λ n. Some (name_json n.0.now) };

    fn fmt<W: fmt::Write>(&self, f: &mut fmt::Formatter<W>) -> fmt::Result {
        let name = self.0;
        write!(f, "\"{name}\"")
    }
}

/// Values, each told by its place.
pub(crate) trait Values {
    ghost values: { Self → List (List ℕ) };

    fn count(&self) -> usize
        ensures count { result ≡ length (values self.now) };

    fn write<W: fmt::Write>(&self, place: usize, f: &mut fmt::Formatter<W>) -> fmt::Result
    where
        Self: Sized,
        requires there { place < length (values self.now) }
        ensures value { WritesOnOk W.write_str_gives f.old result
            (get_or (values self.now) place []) f.new };
}

/// Values with commas between them.
#[derive(Clone, Copy)]
pub(crate) struct Listed<V>(pub V);

impl<V: Values> fmt::Display for Listed<V> {
    ghost output = { λ l. Some (values_json (V.values l.0)) };

    fn fmt<W: fmt::Write>(&self, f: &mut fmt::Formatter<W>) -> fmt::Result {
        for place in 0..self.0.count() {
            let comma = if place > 0 { "," } else { "" };
            write!(f, "{comma}")?;
            self.0.write(place, f)?;
        }
        Ok(())
    }
}

#[derive(Clone, Copy)]
pub(crate) struct Array<V>(pub V);

impl<V: Values + Copy> fmt::Display for Array<V> {
    ghost output = { λ a. Some (array_json (V.values a.0)) };

    fn fmt<W: fmt::Write>(&self, f: &mut fmt::Formatter<W>) -> fmt::Result {
        write!(f, "[{}]", Listed(self.0))
    }
}

/// A schedule as a text, none of whose characters stands otherwise there.
#[derive(Clone, Copy)]
pub(crate) struct StepsValue<'a>(pub Steps<'a>);

impl fmt::Display for StepsValue<'_> {
    ghost output = { λ s. Some (schedule_json s.0.0.now) };

    #[tactic(auto, using(crate::proofs::ScheduleValues::schedule_is_plain))]
    fn fmt<W: fmt::Write>(&self, f: &mut fmt::Formatter<W>) -> fmt::Result {
        write!(f, "\"{}\"", self.0)
    }
}
