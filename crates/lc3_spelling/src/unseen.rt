//! Characters that nobody sees.
ghost use Rattle.std.specs.Prelude.{◌≡◌};
ghost use Rattle.lc3_spelling.specs.Unseen.{is_unseen};

use ucd_category::GeneralCategory;
use ucd_derived::is_default_ignorable_code_point;

/// Whether a character has no picture of its own: it controls a terminal, ends a line, changes how others are drawn, as the
/// direction of writing, or isn't drawn at all.
pub fn is_unseen(character: char) -> bool
    ensures value { result ≡ is_unseen character }
{
    match GeneralCategory::for_char(character) {
        GeneralCategory::Control
        | GeneralCategory::Format
        | GeneralCategory::LineSeparator
        | GeneralCategory::ParagraphSeparator => true,
        _ => is_default_ignorable_code_point(character),
    }
}
