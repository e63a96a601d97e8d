//! Numbers of rows.
ghost use Rattle.std.specs.Prelude.{◌≡◌, ◌<◌, length, slice_get, slice_set, IfOk, IfSome, IfNone, None};

use std::alloc::{AllocError, Global};

pub(crate) fn number_at(numbers: &[u32], at: usize) -> Option<u32>
    ensures number { result ≡ slice_get numbers.now at }
{
    numbers.get(at).copied()
}

/// The numbers with another one at a place, if there is that place.
pub(crate) fn with_number(
    alloc: Global,
    numbers: &[u32],
    at: usize,
    number: u32,
) -> Result<Option<Vec<u32>>, AllocError>
    ensures changed { IfOk result (λ found. IfSome found
        (λ changed. changed.items ≡ slice_set numbers.now at number)) }
    ensures none { IfOk result (λ found. IfNone found (slice_get numbers.now at ≡ None)) }
    ensures range { IfOk result (λ found. IfSome found (λ _. at < length numbers.now)) }
{
    if at >= numbers.len() {
        return Ok(None);
    }
    let mut changed = Vec::from_slice(alloc, numbers)?;
    changed[at] = number;
    Ok(Some(changed))
}

/// Numbers with another one at a place.
#[derive(Drop)]
pub(crate) struct Change<'a> {
    pub numbers: &'a [u32],
    pub at: usize,
    pub number: u32,
}

impl Change<'_> {
    /// How much the digest of the numbers, the first of which stands at a place of a row, grows.
    pub(crate) fn growth(&self, first: usize) -> u64 {
        let before = number_at(self.numbers, self.at).unwrap_or(0);
        let place = first.saturating_add(self.at);
        digest_at(place, self.number).wrapping_sub(digest_at(place, before))
    }
}

/// What a number at a place of a row adds to the digest of the row.
fn digest_at(place: usize, number: u32) -> u64 {
    let mixed = (((place as u64) << 32) | (number as u64)).wrapping_mul(0x9E37_79B9_7F4A_7C15);
    (mixed ^ (mixed >> 29)).wrapping_mul(0xBF58_476D_1CE4_E5B9)
}

/// What numbers, the first of which stands at a place of a row, add to the digest of the row.
pub(crate) fn digest_from(first: usize, numbers: &[u32]) -> u64 {
    let mut digest = 0_u64;
    for (at, number) in numbers.iter().enumerate() {
        digest = digest.wrapping_add(digest_at(first.saturating_add(at), *number));
    }
    digest
}
