//! Files that are read or written whole.
ghost use Rattle.std.specs.Prelude.{◌≡◌, ◌↔◌, ◌-◌, IsTrue, OnOk, OnErr, codes, drop, length, map};
ghost use Rattle.std.specs.Char.{to_ascii_lowercase};
ghost use Rattle.std.specs.Io.KnownBytes.{Appends};
ghost use Rattle.lab_io.specs.Device.{AppendsPrefix};

use crate::advice::advice_line;
use crate::complaint::{At, Complaint, Reason};
use lab_arguments::{Shown, program_of};
use lab_hex::{CliFault, read_whole};
use lab_io::{Input, Output};
use lab_sched::Schedule;
use lc3_obj::{ObjFault, write_image};
use lc3_word::Image;
use std::alloc::Global;
use std::fs::File;
use std::io::{ErrorKind, Write};
use std::os::unix::fs::MetadataExt;
use std::rt::Files;
use std::{fs, io};

/// Whether two names lead to one file, by whatever ways.
pub fn is_same_file<T: Files>(rt: &T, one: &str, other: &str) -> bool {
    match (fs::metadata(rt, one), fs::metadata(rt, other)) {
        (Ok(one), Ok(other)) => one.dev() == other.dev() && one.ino() == other.ino(),
        _ => one == other,
    }
}

/// Whether a file of this name is read as a source: the name ends in `.asm`, in small or capital letters.
pub fn has_source_name(name: &str) -> bool
    ensures ending { IsTrue result
        ↔ (map to_ascii_lowercase (drop (length name.now - 4) name.now) ≡ codes ".asm") }
{
    let bytes = name.as_bytes();
    bytes[bytes.len().saturating_sub(4)..].eq_ignore_ascii_case(b".asm")
}

/// Whether a file of this name is there, which is no folder and no device.
pub fn is_file<T: Files>(rt: &T, name: &str) -> bool {
    fs::metadata(rt, name).is_ok_and(|found| found.is_file())
}

/// The text of a source file, which is UTF-8 of at most 4,000,000 bytes.
pub fn read_source<'a, T: Files>(
    rt: &T,
    alloc: Global,
    name: &'a str,
) -> Result<String, Complaint<'a>> {
    let bytes = read_code(rt, alloc, name)?;
    String::from_utf8(bytes).map_err(|_| Reason::NotUtf8.at(name))
}

/// The bytes of a source or an object file, at most 4,000,000. Where it can't be read, a source that has its name and `.asm`
/// behind it is named too.
pub fn read_code<'a, T: Files>(
    rt: &T,
    alloc: Global,
    name: &'a str,
) -> Result<Vec<u8>, Complaint<'a>> {
    match read_file(rt, alloc, name) {
        Err(CliFault::Read) => {
            let complaint = Complaint::new(alloc, name, CliFault::Read);
            Err(complaint.followed(meaning_of(rt, alloc, name)))
        }
        outcome => outcome.at(alloc, name),
    }
}

/// The line that says what was meant by the name of a file that can't be read, if that is known and memory allows it: a source
/// by its name without `.asm`, a program by its word with console input, or a schedule.
fn meaning_of<T: Files>(rt: &T, alloc: Global, name: &str) -> Option<String> {
    if let Some(text) = source_meant(rt, alloc, name) {
        return Some(text);
    }
    let (program, _) = program_of(name);
    if program.len() < name.len() && is_file(rt, program) {
        let told = format_args!("{}: no console input is taken here", Shown(name));
        return advice_line(alloc, told, Some(program)).ok();
    }
    schedule_meant(alloc, name)
}

/// The line on a name without the ending of a source that is there.
fn source_meant<T: Files>(rt: &T, alloc: Global, name: &str) -> Option<String> {
    let source = format!(in alloc; "{name}.asm").ok()?;
    if !is_file(rt, &source) {
        return None;
    }
    format!(in alloc;
        "lc3lab: {}: did you mean {}?\n",
        Shown(name),
        Shown(&source)
    )
    .ok()
}

/// The line on a schedule that stands in the place of a file.
fn schedule_meant(alloc: Global, name: &str) -> Option<String> {
    if !name.contains('*') || Schedule::read(alloc, name).is_err() {
        return None;
    }
    let word = Shown(name);
    let told = format_args!(
        "{word}: is a schedule; step and trace read one from standard input, as echo '{word}' | lc3lab trace PROGRAM"
    );
    advice_line(alloc, told, None).ok()
}

/// The bytes of a file, at most 4,000,000: a file with more is refused as too large.
pub fn read_file<T: Files>(rt: &T, alloc: Global, name: &str) -> Result<Vec<u8>, CliFault> {
    let file = fs::open(rt, name).map_err(|error| memory_or(&error, CliFault::Read))?;
    read_whole(alloc, &mut Input::new(file))
}

/// Want of memory, where that was the error, or else this fault.
fn memory_or(error: &io::Error, fault: CliFault) -> CliFault {
    if error.kind() == ErrorKind::OutOfMemory {
        CliFault::NoMemory
    } else {
        fault
    }
}

/// Makes the object file of an image; an older file of that name is replaced.
pub fn write_object<T: Files>(rt: &T, name: &str, image: &Image) -> Result<(), ObjFault> {
    match fs::create(rt, name) {
        Ok(file) => write_image(image, &mut Output::new(file)),
        Err(error) if error.kind() == ErrorKind::OutOfMemory => Err(ObjFault::NoMemory),
        Err(_) => Err(ObjFault::Write),
    }
}

/// Makes a file of bytes, whole or not at all: they are written to a new file beside it, which then takes its name. What is
/// no plain file, as a device, is written itself.
pub fn write_whole<T: Files>(
    rt: &T,
    alloc: Global,
    name: &str,
    bytes: &[u8],
) -> Result<(), CliFault> {
    if fs::metadata(rt, name).is_ok_and(|found| !found.is_file()) {
        let file = fs::create(rt, name).map_err(|error| memory_or(&error, CliFault::Write))?;
        return write_file(file, bytes);
    }
    let (file, beside) = create_beside(rt, alloc, name)?;
    let outcome = write_file(file, bytes).and_then(|()| fs::rename(
        rt,
        beside.as_str(),
        name,
    ).map_err(|_| CliFault::Write));
    if outcome.is_err() {
        let _ = fs::remove_file(rt, beside.as_str());
    }
    outcome
}

/// A new file beside one of this name, and its own name: `NAME.part1`, or with the next number that no file has. So it isn't
/// that of another call, nor one that a call left when it was killed.
fn create_beside<T: Files>(
    rt: &T,
    alloc: Global,
    name: &str,
) -> Result<(T::File, String), CliFault> {
    for number in 1..u32::MAX {
        let beside = format!(in alloc; "{name}.part{number}")?;
        match File::create_new(rt, beside.as_str()) {
            Ok(file) => return Ok((file, beside)),
            Err(error) if error.kind() == ErrorKind::AlreadyExists => {}
            Err(error) => return Err(memory_or(&error, CliFault::Write)),
        }
    }
    Err(CliFault::Write)
}

fn write_file<W: Write + Drop>(file: W, bytes: &[u8]) -> Result<(), CliFault> {
    Output::new(file)
        .write_all(bytes)
        .map_err(|_| CliFault::Write)
}

/// Writes bytes to the output of the program.
pub fn write_bytes<W: Write>(bytes: &[u8], output: &mut Output<W>) -> Result<(), Complaint<'static>>
    ensures written { OnOk result
        (Appends (W.contents output.old.device) (W.contents output.new.device) bytes.now) }
    ensures prefix { OnErr result
        (AppendsPrefix (W.contents output.old.device) (W.contents output.new.device) bytes.now) }
    ensures failed { OnErr result (IsTrue output.new.failed) }
    ensures healthy { OnOk result (output.new.failed ≡ output.old.failed) }
{
    output
        .write_all(bytes)
        .map_err(|_| Reason::CannotWrite.at("run"))
}
