//! What is true of every accepted text, and of every refused one. The functions do nothing: each one's contract is a law of the
//! definitions in specs/.

ghost use Rattle.lc3_asm.specs.Laws.{LabelsAreLineAddresses, InstructionsReachLabels, FillsHoldAddresses, RowsCoverImage, ListingShowsImage, FaultIsFirst};

/// A label has the address of the line that defines it.
pub fn labels_are_line_addresses()
    ensures law { LabelsAreLineAddresses }
{}

/// The instruction at a line reaches the place of the label that it names.
///
/// At the address of a line `BR M`, `JSR M`, `LD R0,M`, `LDI R0,M`, `LEA R0,M`, `ST R0,M` or `STI R0,M`
/// the image has that very instruction, with an offset in the place of the label. The offset, added to
/// the address plus 1, is the label's address.
pub fn instructions_reach_labels()
    ensures law { InstructionsReachLabels }
{}

/// The word of a line `.FILL M` is the address of the label.
pub fn fills_hold_addresses()
    ensures law { FillsHoldAddresses }
{}

/// The rows cover the image: each begins where the one before it ends, and the last ends with the image.
#[tactic(auto, using(crate::proofs::RowLemmas::rows_cover))]
pub fn rows_cover_image()
    ensures law { RowsCoverImage }
{}

/// The listing shows each word of the image at its address, in order.
#[tactic(auto, using(crate::proofs::RowLemmas::listing_shows))]
pub fn listing_shows_image()
    ensures law { ListingShowsImage }
{}

/// The fault of a text is at the first line that has one, and is the first that is wrong with that line.
///
/// First all lines up to `.END` are read, each behind those before it; then the text needs a `.ORIG`, and without one the
/// fault is at its last line; then each line makes its words. A line's first fault is that of its reading, in the order of
/// docs/source-language.md.
pub fn fault_is_first()
    ensures law { FaultIsFirst }
{}
