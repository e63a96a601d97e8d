//! Words of 16 bits, the signed numbers in their fields, numbers as they are written, words between blanks, and images.
#![tactic(auto)]

mod blanks;
mod code;
mod hexadecimal;
mod image;
mod number;
mod reading;
mod reg;

pub use blanks::{WHITE_SPACE, words_between};
pub use code::{Cc, cc_of};
pub use hexadecimal::{Hex, hex4};
pub use image::{FIRST_DEVICE, Image};
pub use number::{Off, add, sext};
pub use reading::{number_of, read_number, unsigned};
pub use reg::Reg;
