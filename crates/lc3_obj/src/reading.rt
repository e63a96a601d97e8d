//! Object files as images.
ghost use Rattle.std.specs.Prelude.{◌≡◌, ◌≢◌, ◌+◌, ◌*◌, slice_index, ◌%◌, ◌<◌, ◌≤◌, ◌↔◌, [], ◌∷◌, length, IfOk, IfErr, IsErrOf};
ghost use Rattle.lc3_word.specs.Segment.{first_device};
ghost use Rattle.lc3_obj.specs.Object.{word_bytes, object_bytes, origin_of, word_count, IsNoObject};

use crate::ObjFault;
use lc3_word::{FIRST_DEVICE, Image};
use std::alloc::Global;

/// The first address that no image reaches.
const IMAGE_END: usize = FIRST_DEVICE as usize;

/// Reads the image that an object file holds. The first fault of `Empty`, `OddLength` and `TooLong` is answered, and
/// `NoMemory` only where the bytes have none of them.
pub fn read_image(alloc: Global, bytes: &[u8]) -> Result<Image, ObjFault>
    ensures ok { IfOk result (λ image. object_bytes image ≡ bytes.now) }
    ensures empty { IsErrOf result ObjFault.Empty ↔ (length bytes.now < 2) }
    ensures odd_length { IsErrOf result ObjFault.OddLength
        ↔ ((2 ≤ length bytes.now) × (length bytes.now % 2 ≡ 1)) }
    ensures too_long { IsErrOf result ObjFault.TooLong
        ↔ ((2 ≤ length bytes.now)
        × (length bytes.now % 2 ≡ 0)
        × (first_device < origin_of bytes.now + word_count bytes.now)) }
    ensures no_write { ¬ IsErrOf result ObjFault.Write }
    ensures refused { IfErr result (λ e. e ≢ ObjFault.NoMemory → IsNoObject bytes.now) }
{
    if bytes.len() < 2 {
        return Err(ObjFault::Empty);
    }
    if bytes.len() % 2 == 1 {
        return Err(ObjFault::OddLength);
    }
    let origin = word_at(bytes, 0);
    let count = bytes.len() / 2 - 1;
    if origin as usize + count > IMAGE_END {
        return Err(ObjFault::TooLong);
    }
    let mut words = Vec::new(alloc);
    for i in 0..count {
        words.push(word_at(bytes, 2 * i + 2))?;
    }
    Image::new(origin, words).map_err(|_| ObjFault::TooLong)
}

/// The word whose bytes stand at an index.
fn word_at(bytes: &[u8], index: usize) -> u16
    requires within { index + 1 < length bytes.now }
    ensures bytes { word_bytes result
        ≡ slice_index bytes.now index ∷ slice_index bytes.now (index + 1) ∷ [] }
    ensures value { result ≡ 256 * slice_index bytes.now index + slice_index bytes.now (index + 1) }
{
    u16::from_be_bytes([bytes[index], bytes[index + 1]])
}
