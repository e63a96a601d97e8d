//! Registers.

ghost use Rattle.std.specs.Prelude.{◌≡◌, ℕ, ◌%◌, ◌<◌, ◌↔◌, Some, IsSome, IfSome};
ghost use Rattle.lc3_word.specs.Words.{register_text};

use std::fmt;
use std::marker::Model;

/// A general purpose register, R0 to R7, by its number.
#[derive(Clone, Copy, Debug, PartialEq, Eq)]
pub struct Reg {
    number: u8,
}

impl Model for Reg {
    ghost Value = { ℕ };

    ghost view = { λ r. r.number };

    ghost invariant = { λ r. r.number < 8 };

    ghost inverse = { λ n. record { number = n } };
}

impl Reg {
    /// The register of this number; there is none above 7.
    pub fn new(number: u8) -> Option<Self>
        ensures valid { IsSome result ↔ (number < 8) }
        ensures value { IfSome result (λ r. r ≡ number) }
    {
        if number < 8 {
            Some(Reg { number })
        } else {
            None
        }
    }

    /// The register that the low three bits of a word name; the other bits don't matter.
    #[inline(always)]
    pub fn of_low_bits(word: u16) -> Self
        ensures number { result ≡ word % 8 }
    {
        Reg {
            number: (word & 7) as u8,
        }
    }

    /// The register's number, 0 to 7.
    #[inline(always)]
    pub fn number(self) -> u8
        ensures value { result ≡ self }
        ensures in_range { self < 8 }
    {
        self.number
    }
}

impl fmt::Display for Reg {
    ghost output = { λ r. Some (register_text r) };

    fn fmt<W: fmt::Write>(&self, f: &mut fmt::Formatter<W>) -> fmt::Result {
        let number = self.number;
        write!(f, "R{number}")
    }
}
