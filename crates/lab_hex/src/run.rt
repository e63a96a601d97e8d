//! The run over hexadecimal words.
ghost use Rattle.std.specs.Prelude.{◌≡◌, ◌≢◌, ◌≤◌, false, IfOk, IfErr, OnOk, IfSome, IsOkAnd, length, Ok, Err, map};
ghost use Rattle.std.specs.Io.KnownBytes.{Appends};
ghost use Rattle.lab_hex.specs.Hex.{image_of, digits_of, number_of, numbers_of};
ghost use Rattle.lab_hex.specs.Run.{world_after, report_of};
ghost use Rattle.lab_hex.specs.Fault.{Explains, Stops};
ghost use Rattle.lab_hex.specs.declared.run.CliFault.TheVariants.{NoMemory};

use lab_io::{Input, Output};
use lab_sched::{Fresh, Program, Schedule, World};
use lab_texts::report_text;
use lc3_table::Profile;
use lc3_word::{Image, WHITE_SPACE, unsigned, words_between};
use std::alloc::{AllocError, AllocFailed, Global};
use std::io::{Read, Write};
use thiserror::Error;

const STEPS: u32 = 100_000;

fn run_alone(alloc: Global, image: Image) -> Result<World, CliFault>
    ensures world { IfOk result (λ world. world ≡ world_after 100000 image) }
    ensures err { IfErr result (λ fault. fault ≡ CliFault.NoMemory) }
{
    let programs = [Program {
        image,
        input: Vec::new(alloc),
    }];
    let Ok(fresh) = Fresh::new(alloc, programs.as_slice(), Profile::A) else {
        return Err(CliFault::NoMemory);
    };
    let mut schedule = Schedule::new(alloc);
    schedule.push(0, STEPS)?;
    let mut world = World::from(fresh);
    match world.run(&schedule) {
        Ok(()) => Ok(world),
        Err(_) => Err(CliFault::NoMemory),
    }
}

/// Reads the hexadecimal words of an image to the end of the input, steps it as process 0 until it ends or 100,000
/// steps are done, and writes the report. The first fault is answered: `Read` or `TooLarge` while the input is read, then
/// `BadWord`, `Empty` and `TooLong`, and `Write` last; `NoMemory` may come before any of them but `Read` and
/// `TooLarge` that came earlier. How much was written before `Write` isn't said.
#[tactic(auto, using(crate::proofs::RunLemmas::fault_of_text, crate::proofs::RunLemmas::explained))]
pub fn hex_run<R: Read, W: Write>(
    alloc: Global,
    input: &mut Input<R>,
    output: &mut Output<W>,
) -> Result<(), CliFault>
    requires input_healthy { input.old.failed ≡ false }
    requires output_healthy { output.old.failed ≡ false }
    ensures ok { OnOk result
        (IfSome (R.remaining input.old.device) (λ text.
        IsOkAnd (image_of text) (λ image.
        Appends (W.contents output.old.device) (W.contents output.new.device) (report_of image)))) }
    ensures limit { OnOk result
        (IfSome (R.remaining input.old.device) (λ text. length text ≤ 4000000)) }
    ensures healthy { OnOk result ((input.new.failed ≡ false) × (output.new.failed ≡ false)) }
    ensures unwritten { IfErr result (λ e. e ≢ CliFault.Write → output.new ≡ output.old) }
    ensures err { IfErr result
        (λ e. Explains e (R.remaining input.old.device) input.new.failed output.new.failed) }
{
    let text = read_whole(alloc, input)?;
    let image = read_text(alloc, text.as_slice())?;
    let world = run_alone(alloc, image)?;
    let report = report_text(alloc, &world)?;
    output
        .write_all(report.as_bytes())
        .map_err(|_| CliFault::Write)
}

/// The image that a text of hexadecimal words says, of which the first is the origin.
///
/// # Errors
///
/// `BadWord` tells the first word that isn't one to four digits, counted from 1; `Empty` that there is no word; `TooLong`
/// that the image doesn't end below xFE00. `NoMemory` where memory is refused.
#[tactic(auto, unfolding(crate::specs::Hex::image_of))]
pub fn read_text(alloc: Global, text: &[u8]) -> Result<Image, CliFault>
    ensures ok { IfOk result (λ image. image_of text.now ≡ Ok image) }
    ensures err { IfErr result (λ e. e ≢ CliFault.NoMemory → image_of text.now ≡ Err e) }
{
    let words = words_between(alloc, WHITE_SPACE, text)?;
    let numbers = read_numbers(alloc, words.as_slice())?;
    match numbers.as_slice() {
        [] => Err(CliFault::Empty),
        [origin, words @ ..] => {
            let words = words.to_vec(alloc)?;
            Image::new(*origin, words).map_err(|_| CliFault::TooLong)
        }
    }
}

fn read_numbers(alloc: Global, words: &[&[u8]]) -> Result<Vec<u16>, CliFault>
    ensures ok { IfOk result
        (λ numbers. numbers_of (map (λ word. word.now) words.now) ≡ Ok numbers.items) }
    ensures err { IfErr result
        (λ e. e ≢ CliFault.NoMemory → numbers_of (map (λ word. word.now) words.now) ≡ Err e) }
{
    let mut numbers = Vec::new(alloc);
    for (i, word) in words.iter().enumerate() {
        let number = read_number(word).ok_or(CliFault::BadWord { at: i + 1 })?;
        numbers.push(number)?;
    }
    Ok(numbers)
}

/// The number of one to four hexadecimal digits after an optional `x`.
#[tactic(auto, using(crate::proofs::HexLemmas::short_number))]
fn read_number(word: &[u8]) -> Option<u16>
    ensures value { result ≡ number_of word.now }
{
    let digits = match word {
        [b'x' | b'X', digits @ ..] => digits,
        _ => word,
    };
    if digits.len() > 4 {
        return None;
    }
    unsigned(16, digits).map(|number| number as u16)
}

/// The most bytes of a file or of standard input.
pub const INPUT_LIMIT: usize = 4_000_000;

const CHUNK: usize = 8192;

/// All the bytes that an input has left.
///
/// # Errors
///
/// `TooLarge` where it has more than [`INPUT_LIMIT`] bytes, `Read` where a read fails, `NoMemory` where memory is refused.
pub fn read_whole<R: Read>(alloc: Global, input: &mut Input<R>) -> Result<Vec<u8>, CliFault>
    requires healthy_before { input.old.failed ≡ false }
    ensures bytes { IfOk result
        (λ bytes. IfSome (R.remaining input.old.device) (λ all. bytes.items ≡ all)) }
    ensures limit { IfOk result (λ bytes. length bytes.items ≤ INPUT_LIMIT) }
    ensures healthy { OnOk result (input.new.failed ≡ false) }
    ensures err { IfErr result (λ e. Stops e (R.remaining input.old.device) input.new.failed) }
{
    let mut bytes = Vec::new(alloc);
    let mut chunk = [0; CHUNK];
    loop {
        let count = input.read(&mut chunk).map_err(|_| CliFault::Read)?;
        if count == 0 {
            return Ok(bytes);
        }
        if count > INPUT_LIMIT - bytes.len() {
            return Err(CliFault::TooLarge);
        }
        bytes.extend_from_slice(&chunk[..count])?;
    }
}

/// A fault of the text, of the input or of the output.
#[derive(Clone, Copy, Debug, PartialEq, Eq, Error)]
pub enum CliFault {
    /// The text has no word.
    #[error("Empty")]
    Empty,
    /// The word with this number, from 1 on, isn't one to four hexadecimal digits after an optional `x`.
    #[error("word {at}: BadWord")]
    BadWord { at: usize },
    /// The words would reach the device register page, which begins at xFE00.
    #[error("TooLong")]
    TooLong,
    /// The input has more than 4,000,000 bytes.
    #[error("too large")]
    TooLarge,
    /// The input failed.
    #[error("cannot read")]
    Read,
    /// The output failed.
    #[error("cannot write")]
    Write,
    /// There is no memory for the run.
    #[error("out of memory")]
    NoMemory,
}

impl From<AllocError> for CliFault {
    ghost from_gives = { λ _ e. e ≡ NoMemory };

    fn from(_refused: AllocError) -> CliFault {
        CliFault::NoMemory
    }
}

impl<T: Drop> From<AllocFailed<T>> for CliFault {
    ghost from_gives = { λ _ e. e ≡ NoMemory };

    fn from(_refused: AllocFailed<T>) -> CliFault {
        CliFault::NoMemory
    }
}
