//! Numbers as a source line writes them.

ghost use Rattle.std.specs.Prelude.{◌≡◌, ◌≤◌, option_map, min, IfSome, nat_abs};
ghost use Rattle.lc3_word.specs.Numbers.{unsigned_number, signed_number, number, capped_number};

/// A greater magnitude is read as this one.
const GREATEST: u32 = 1_000_000_000;

/// The number that one digit or more write, in a base from 2 to 16. A number over 1,000,000,000 is given as that.
#[tactic(auto, unfolding(crate::specs::Numbers::unsigned_number))]
pub fn unsigned(base: u32, digits: &[u8]) -> Option<u32>
    requires at_least_binary { 2 ≤ base }
    requires at_most_hexadecimal { base ≤ 16 }
    ensures value { result
        ≡ option_map (λ n. min n 1_000_000_000) (unsigned_number base digits.now) }
{
    if digits.is_empty() {
        return None;
    }
    let mut value = 0;
    for digit in digits {
        let digit = char::from(*digit).to_digit(base)?;
        value = (u64::from(value) * u64::from(base) + u64::from(digit)).min(u64::from(
            GREATEST,
        )) as u32;
    }
    Some(value)
}

/// The same, after `-` or none.
#[tactic(auto, unfolding(crate::specs::Numbers::signed_number))]
fn signed(base: u32, text: &[u8]) -> Option<i64>
    requires at_least_binary { 2 ≤ base }
    requires at_most_hexadecimal { base ≤ 16 }
    ensures value { result ≡ option_map capped_number (signed_number base text.now) }
{
    match text.split_first()? {
        (b'-', digits) => Some(-i64::from(unsigned(base, digits)?)),
        _ => Some(i64::from(unsigned(base, text)?)),
    }
}

/// The number that the bytes of a word write, if they write one: decimal digits after `#` or nothing, hexadecimal
/// digits after `x`, `X`, `0x` or `0X`, binary digits after `b` or `B`; a `-` may stand before the digits. A magnitude
/// over 1,000,000,000 is given as that, with its sign.
#[tactic(auto, unfolding(crate::specs::Numbers::number))]
pub fn number_of(word: &[u8]) -> Option<i64>
    ensures value { result ≡ option_map capped_number (number word.now) }
    ensures small { IfSome result (λ z. nat_abs z ≤ 1_000_000_000) }
{
    match word.split_first()? {
        (b'#', digits) => signed(10, digits),
        (b'x' | b'X', digits) => signed(16, digits),
        (b'b' | b'B', digits) => signed(2, digits),
        (b'0', [b'x' | b'X', digits @ ..]) => signed(16, digits),
        _ => signed(10, word),
    }
}

/// The number that a text writes, if it writes one, as [`number_of`] its bytes.
pub fn read_number(text: &str) -> Option<i64>
    ensures value { result ≡ option_map capped_number (number text.now) }
{
    number_of(text.as_bytes())
}
