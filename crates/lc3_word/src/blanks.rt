//! Words between blanks.

ghost use Rattle.std.specs.Prelude.{◌≡◌, IfOk, map};
ghost use Rattle.lc3_word.specs.Blanks.{words_between};

use std::alloc::{AllocError, Global};

/// The bytes between the words of a text: blank, tab, carriage return, line feed.
pub const WHITE_SPACE: &[u8] = b" \t\r\n";

/// The words of a text, in order: what stands between the bytes that are blanks.
pub fn words_between<'a>(
    alloc: Global,
    blanks: &[u8],
    text: &'a [u8],
) -> Result<Vec<&'a [u8]>, AllocError>
    ensures words { IfOk result
        (λ found. map (λ word. word.now) found.items ≡ words_between blanks.now text.now) }
{
    text.split(|byte| blanks.contains(byte))
        .filter(|piece| !piece.is_empty())
        .collect(alloc)
}
