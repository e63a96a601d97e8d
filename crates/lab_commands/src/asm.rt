//! The commands `asm` and `dis`.
ghost use Rattle.std.specs.Prelude.{◌≡◌, false, IsTrue, OnOk};
ghost use Rattle.std.specs.Io.KnownBytes.{Appends};
ghost use Rattle.lc3_asm.specs.Listings.{listing_text};
ghost use Rattle.lc3_asm.specs.Texts.{Program};
ghost use Rattle.lc3_word.specs.Segment.{Segment};
ghost use Rattle.lc3_table.specs.Text.{image_lines};

use crate::check::messages_if;
use crate::complaint::{At, Complaint, Misuse};
use crate::files::{has_source_name, is_same_file, write_bytes, write_object};
use crate::job::{Job, Progress};
use crate::programs::{read_assembled, read_image_file};
use lab_io::Output;
use lab_sources::Source;
use lc3_asm::listing;
use lc3_table::{Profile, image_text};
use std::io::Write;
use std::rt::Files;

/// What is assembled, and what is printed beside the object file.
#[derive(Clone, Copy)]
pub struct Assembly<'a> {
    pub source: &'a str,
    pub object: &'a str,
    /// The listing of an accepted source.
    pub list: bool,
    /// All messages about the source. They are also printed where somebody looks at the progress.
    pub explain: bool,
    /// The machine that the warnings are about.
    pub profile: Profile,
}

/// Assembles a source, writes its object file, and then the listing where it is asked for. The messages about the source come
/// first, where they are wanted. The object file is made only once the source was accepted; it can't be the source itself, nor
/// have the name of one.
pub fn assemble_file<'a, T: Files, W: Write, E: Write, P: Progress>(
    job: &Job<'_, T, P>,
    assembly: Assembly<'a>,
    output: &mut Output<W>,
    errors: &mut Output<E>,
) -> Result<(), Complaint<'a>>
    ensures listing { OnOk result (IsTrue assembly.entry.list → (assembled : Program)
        × Appends (W.contents output.old.device) (W.contents output.new.device)
        (listing_text assembled)) }
    ensures silent { OnOk result (assembly.entry.list ≡ false
        → W.contents output.new.device ≡ W.contents output.old.device) }
{
    if is_same_file(job.rt, assembly.source, assembly.object) {
        return Err(Misuse::SameFile.of(assembly.object));
    }
    if has_source_name(assembly.object) {
        return Err(Misuse::SourceName.of(assembly.object));
    }
    let (profile, wanted) = (assembly.profile, assembly.explain);
    let Source { text, assembled } = read_assembled(job, assembly.source, profile, wanted)?;
    if let Some(report) = messages_if(job, assembly.source, text.as_bytes(), profile, wanted) {
        let _ = errors.write_all(report.text.as_bytes());
    }
    write_object(job.rt, assembly.object, assembled.image()).at(job.alloc, assembly.object)?;
    if !assembly.list {
        return Ok(());
    }
    write_bytes(listing(job.alloc, &assembled)?.as_bytes(), output)
}

/// Writes a line for each word of an object file, or of what a source is assembled to.
pub fn disassemble_file<'a, T: Files, W: Write, P: Progress>(
    job: &Job<'_, T, P>,
    object: &'a str,
    output: &mut Output<W>,
) -> Result<(), Complaint<'a>>
    ensures lines { OnOk result ((image : Segment)
        × Appends (W.contents output.old.device) (W.contents output.new.device) (image_lines image)) }
{
    let (image, _) = read_image_file(job, object)?;
    write_bytes(image_text(job.alloc, &image)?.as_bytes(), output)
}
