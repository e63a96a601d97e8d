//! The programs of a laboratory, as the command line names them.
ghost use Rattle.std.specs.Prelude.{◌≡◌, false, IfOk, OnOk};
ghost use Rattle.lab_sched.specs.Starts.{fresh};
ghost use Rattle.lab_commands.specs.Sources.{numbered, with_lines};

use crate::advice::advice_line;
use crate::check::messages_if;
use crate::complaint::{At, Complaint, Reason};
use crate::files::{has_source_name, read_code, read_file};
use crate::job::{Job, Progress};
use lab_arguments::{Console, Shown, program_of, takes_input};
use lab_hex::read_whole;
use lab_io::Input;
use lab_places::Numbered;
use lab_sched::{Fresh, FreshFault, Program};
use lab_sources::{Listing, Source};
use lc3_asm::{AsmFault, assemble};
use lc3_obj::read_image;
use lc3_table::Profile;
use lc3_word::Image;
use std::alloc::{AllocError, Global};
use std::io::Read;
use std::rt::Files;

/// The programs of a laboratory, and of each its source, where it was given as one.
#[derive(Drop)]
pub struct Programs {
    pub programs: Vec<Program>,
    /// As many as programs.
    pub sources: Vec<Option<Source>>,
    /// Of each source its lines as they are shown; of a program without one there are none.
    pub lines: Vec<Vec<String>>,
}

fn with_lines<'a>(source: &'a Option<Source>, lines: &'a Vec<String>) -> Option<Numbered<'a>>
    ensures source { result ≡ with_lines source.now lines.now.items }
{
    let source = source.as_ref()?;
    Some(Numbered { source, lines })
}

impl Programs {
    fn push<'a, T: Files, P: Progress>(
        &mut self,
        job: &Job<'_, T, P>,
        word: &'a str,
    ) -> Result<(), Complaint<'a>> {
        let (file, console) = program_of(word);
        let (image, source) = read_image_file(job, file)?;
        let input = match console {
            Console::File(file) => read_file(job.rt, job.alloc, file).at(job.alloc, file)?,
            Console::Standard | Console::Nowhere => Vec::new(job.alloc),
        };
        self.programs.push(Program { image, input })?;
        let (source, lines) = match source {
            Some(source) => {
                let Listing { source, lines } = Listing::new(job.alloc, source)?;
                (Some(source), lines)
            }
            None => (None, Vec::new(job.alloc)),
        };
        self.sources.push(source)?;
        Ok(self.lines.push(lines)?)
    }

    /// The sources with their lines, of each program where it was given as one.
    pub fn numbered(&self, alloc: Global) -> Result<Vec<Option<Numbered<'_>>>, AllocError>
        ensures sources { IfOk result (λ found. found.items ≡ numbered self.now) }
    {
        let mut numbered = Vec::new(alloc);
        for (source, lines) in self.sources.iter().zip(self.lines.iter()) {
            numbered.push(with_lines(source, lines))?;
        }
        Ok(numbered)
    }
}

/// The programs that words name, each by a source or an object file. A file is read and checked before the next one is
/// opened, and behind them all the console input of the process that takes it from standard input, if one does.
pub fn read_programs<'a, T: Files, R: Read, P: Progress>(
    job: &Job<'_, T, P>,
    words: &[&'a str],
    input: &mut Input<R>,
) -> Result<Programs, Complaint<'a>>
    requires input_healthy { input.old.failed ≡ false }
    ensures healthy { OnOk result (input.new.failed ≡ false) }
{
    let mut given = Programs {
        programs: Vec::new(job.alloc),
        sources: Vec::new(job.alloc),
        lines: Vec::new(job.alloc),
    };
    for word in words {
        given.push(job, word)?;
    }
    if let Some(process) = words.iter().position(|word| takes_input(word))
        && let Some(program) = given.programs.get_mut(process)
    {
        program.input = read_whole(job.alloc, input).at(job.alloc, "standard input")?;
    }
    Ok(given)
}

/// The image in a file, and the source that it is assembled from, where the file is one.
pub fn read_image_file<'a, T: Files, P: Progress>(
    job: &Job<'_, T, P>,
    file: &'a str,
) -> Result<(Image, Option<Source>), Complaint<'a>> {
    if !has_source_name(file) {
        return Ok((read_object(job, file)?, None));
    }
    let source = read_assembled(job, file, Profile::A, false)?;
    let image = source
        .image(job.alloc)
        .map_err(|_| Reason::NoMemory.at(file))?;
    Ok((image, Some(source)))
}

/// The image in an object file. Where the file looks like a text, and somebody looks, a line says so.
fn read_object<'a, T: Files, P: Progress>(
    job: &Job<'_, T, P>,
    file: &'a str,
) -> Result<Image, Complaint<'a>> {
    let bytes = read_code(job.rt, job.alloc, file)?;
    let is_text = bytes
        .iter()
        .all(|byte| matches!(byte, b' '..=b'~' | b'\t' | b'\n' | b'\r'));
    if is_text && !bytes.is_empty() && job.advises() {
        let file = Shown(file);
        let told = format_args!("{file}: looks like a text; the name of a source ends in .asm");
        if let Ok(line) = advice_line(job.alloc, told, None) {
            job.progress.tell(&line);
        }
    }
    read_image(job.alloc, bytes.as_slice()).at(job.alloc, file)
}

/// The source in a file, and what it is assembled to. Where it is refused, the messages about it follow, where they are wanted or
/// somebody looks. Those about a program are of every machine, since what differs is told of accepted sources alone.
pub(crate) fn read_assembled<'a, T: Files, P: Progress>(
    job: &Job<'_, T, P>,
    file: &'a str,
    profile: Profile,
    wanted: bool,
) -> Result<Source, Complaint<'a>> {
    let bytes = read_code(job.rt, job.alloc, file)?;
    let complaint = match str::from_utf8(&bytes).map(|text| assemble(job.alloc, text)) {
        Ok(Ok(assembled)) => {
            let text = String::from_utf8(bytes).map_err(|_| Reason::NotUtf8.at(file))?;
            return Ok(Source { text, assembled });
        }
        Ok(Err(AsmFault::NoMemory)) => Reason::NoMemory.at(file),
        Ok(Err(fault)) => Complaint::new(job.alloc, file, fault),
        Err(_) => Reason::NotUtf8.at(file),
    };
    let report = messages_if(job, file, &bytes, profile, wanted);
    Err(complaint.followed(report.map(|report| report.text)))
}

/// The laboratory of 1 to 64 programs on machines of a profile, before its first step.
pub fn laboratory(
    alloc: Global,
    programs: &[Program],
    profile: Profile,
) -> Result<Fresh, Complaint<'static>>
    ensures start { IfOk result (λ f. f ≡ fresh profile programs.now) }
{
    Fresh::new(alloc, programs, profile).map_err(|fault| fault_of(alloc, fault))
}

/// What is said where there is no laboratory of some programs.
pub fn fault_of(alloc: Global, fault: FreshFault) -> Complaint<'static> {
    match fault {
        FreshFault::Count => Complaint::new(alloc, "programs", fault),
        FreshFault::NoMemory => Reason::NoMemory.at("run"),
    }
}
