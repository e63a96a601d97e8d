//! Words as hexadecimal digits.

ghost use Rattle.std.specs.Prelude.{◌≡◌, ◌<◌, ◌++◌, true, Some, codes};
ghost use Rattle.lc3_word.specs.Words.{hex_text, hexadecimal_text};
ghost use Rattle.std.specs.Fmt.{digit_glyph};

use std::fmt;

/// A word that is shown as `x` and four upper-case hexadecimal digits, as `xE002`.
#[derive(Clone, Copy, Debug, PartialEq, Eq)]
pub struct Hex(pub u16);

impl fmt::Display for Hex {
    ghost output = { λ h. Some (hexadecimal_text h.0) };

    #[tactic(auto, using(crate::proofs::FourDigits::hex_padded))]
    fn fmt<W: fmt::Write>(&self, f: &mut fmt::Formatter<W>) -> fmt::Result {
        let word = self.0;
        write!(f, "x{word:04X}")
    }
}

fn hex_digit(n: u16) -> u8
    requires digit { n < 16 }
    ensures glyph { result ≡ digit_glyph true n }
{
    if n < 10 {
        b'0' + n as u8
    } else {
        b'A' + (n as u8 - 10)
    }
}

/// The four hexadecimal digits of a word in upper case, the highest first, as ASCII bytes.
pub fn hex4(word: u16) -> [u8; 4]
    ensures digits { result ≡ hex_text word }
{
    [
        hex_digit(word >> 12),
        hex_digit(word >> 8 & 15),
        hex_digit(word >> 4 & 15),
        hex_digit(word & 15),
    ]
}
