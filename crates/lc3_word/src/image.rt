//! Images of memory.

ghost use Rattle.std.specs.Prelude.{◌≡◌, ◌↔◌, IsOk, IfOk, IfErr};
ghost use Rattle.lc3_word.specs.Segment.{IsBelowDevices};

use std::marker::Model;

/// The address of the first device register, where the device register page begins (Patt and Patel, appendix A.1).
pub const FIRST_DEVICE: u16 = 0xFE00;

/// What is loaded into memory: an origin and the words from there on. All of it lies below [`FIRST_DEVICE`].
#[derive(Debug, Drop)]
pub struct Image {
    origin: u16,
    words: Vec<u16>,
}

impl Model for Image {
    ghost use Rattle.lc3_word.specs.Segment.{Segment, IsBelowDevices};

    ghost Value = { Segment };

    ghost view = { λ i. record { origin = i.origin; words = i.words.items } };

    ghost invariant = { λ i. IsBelowDevices (record { origin = i.origin; words = i.words.items }) };
}

impl Image {
    /// The image of these words at this origin. Where they would reach [`FIRST_DEVICE`] or beyond, they are handed back.
    pub fn new(origin: u16, words: Vec<u16>) -> Result<Self, Vec<u16>>
        ensures fits { IsOk result
            ↔ IsBelowDevices (record { origin = origin; words = words.items }) }
        ensures ok { IfOk result (λ i. i ≡ record { origin = origin; words = words.items }) }
        ensures err { IfErr result (λ v. v ≡ words) }
    {
        let end = usize::from(FIRST_DEVICE);
        if words.len() <= end && origin as usize + words.len() <= end {
            Ok(Image { origin, words })
        } else {
            Err(words)
        }
    }

    /// The address of the first word.
    pub fn origin(&self) -> u16
        ensures value { result ≡ self.now.origin }
        ensures below_devices { IsBelowDevices self.now }
    {
        self.origin
    }

    /// The words from the origin on.
    pub fn words(&self) -> &[u16]
        ensures value { result.now ≡ self.now.words }
        ensures below_devices { IsBelowDevices self.now }
    {
        self.words.as_slice()
    }
}
