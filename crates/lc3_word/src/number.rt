//! Signed numbers in fields, and sums of words.

ghost use Rattle.std.specs.Prelude.{◌≡◌, ℤ, ◌+◌, ◌%◌, ◌^◌, ◌<◌, ◌≤◌, ◌↔◌, Some, IsSome, IfSome};
ghost use Rattle.lc3_word.specs.Words.{IsSigned, low_bits, signed_value, word_sum, number_text};

use std::fmt;
use std::marker::Model;

/// A signed number of `B` bits in two's complement, -2^(B-1) to 2^(B-1) - 1, where `B` is 1 to 16: an immediate
/// or an offset of an instruction (Patt and Patel, appendix A.2).
#[derive(Clone, Copy, Debug, PartialEq, Eq)]
pub struct Off<const B: u32> {
    value: i16,
}

impl<const B: u32> Model for Off<B> {
    ghost Value = { ℤ };

    ghost view = { λ o. o.value };

    ghost invariant = { λ o. IsSigned B o.value × (1 ≤ B) × (B ≤ 16) };

    ghost inverse = { λ z. record { value = z } };
}

impl<const B: u32> Off<B> {
    /// The number, if it fits `B` bits.
    pub fn new(value: i16) -> Option<Self>
        requires some_bits { 1 ≤ B }
        requires word { B ≤ 16 }
        ensures valid { IsSome result ↔ IsSigned B value }
        ensures value { IfSome result (λ o. o ≡ value) }
    {
        let half = 1i32 << (B - 1);
        let wide = i32::from(value);
        if -half <= wide && wide < half {
            Some(Off { value })
        } else {
            None
        }
    }

    /// The number that the low `B` bits of a word stand for in two's complement; the other bits don't matter.
    #[inline(always)]
    pub fn of_low_bits(word: u16) -> Self
        requires some_bits { 1 ≤ B }
        requires word { B ≤ 16 }
        ensures value { result ≡ signed_value B word }
    {
        Off {
            value: sext::<B>(word).cast_signed(),
        }
    }

    /// The number modulo 2^B: what a field of `B` bits holds for it.
    pub fn low_bits(self) -> u16
        ensures value { result ≡ low_bits B self.entry }
        ensures in_range { IsSigned B self.entry }
    {
        self.value.cast_unsigned() & (u16::MAX >> (16 - B))
    }

    /// The number modulo 2^16: the sign-extended word.
    #[inline(always)]
    pub fn word(self) -> u16
        ensures value { result ≡ low_bits 16 self.entry }
    {
        self.value.cast_unsigned()
    }

    /// The number itself.
    pub fn get(self) -> i16
        ensures value { result ≡ self.entry }
        ensures in_range { IsSigned B self.entry }
    {
        self.value
    }
}

impl<const B: u32> fmt::Display for Off<B> {
    ghost output = { λ o. Some (number_text o) };

    fn fmt<W: fmt::Write>(&self, f: &mut fmt::Formatter<W>) -> fmt::Result {
        let value = self.value;
        write!(f, "#{value}")
    }
}

/// The sum of two words modulo 65,536, as the machine adds them.
#[inline(always)]
pub fn add(a: u16, b: u16) -> u16
    ensures sum { result ≡ word_sum a b }
{
    a.wrapping_add(b)
}

/// Sign extension (Patt and Patel, section 2.5): the word whose signed value is the number that the low `B` bits
/// stand for. `B` is 1 to 16.
#[inline(always)]
pub fn sext<const B: u32>(word: u16) -> u16
    requires some_bits { 1 ≤ B }
    requires word { B ≤ 16 }
    ensures value { result ≡ low_bits 16 (signed_value B word) }
{
    let spare = 32 - B;
    let raised = (u32::from(word) << spare).cast_signed();
    ((raised >> spare).cast_unsigned() & 0xffff) as u16
}
