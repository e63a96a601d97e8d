//! Condition codes.

ghost use Rattle.std.specs.Prelude.{◌≡◌};
ghost use Rattle.lc3_word.specs.Codes.{cc_of};

/// The condition code that is set: negative, zero or positive. Exactly one is (Patt and Patel, appendix A.1).
#[derive(Clone, Copy, Debug, PartialEq, Eq)]
pub enum Cc {
    N,
    Z,
    P,
}

/// The condition code for a word that was written to a register: negative, zero or positive as its signed value.
#[tactic(auto, unfolding(crate::specs::Codes::cc_of))]
#[inline(always)]
pub fn cc_of(word: u16) -> Cc
    ensures code { result ≡ cc_of word }
{
    if word >> 15 == 1 {
        Cc::N
    } else if word == 0 {
        Cc::Z
    } else {
        Cc::P
    }
}
