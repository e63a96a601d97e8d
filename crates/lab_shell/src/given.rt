//! Programs that a command runs, and the sources that a page shows of them.
ghost use Rattle.std.specs.Prelude.{◌≡◌, false, IfOk, OnOk};
ghost use Rattle.lab_shell.specs.Private.Runs.{start_of};

use lab_arguments::{Console, Setup, program_of};
use lab_commands::{
    At, Complaint, Job, Misuse, Programs, Progress, Reason, has_source_name, is_file, is_same_file,
    laboratory, read_programs, read_source,
};
use lab_io::Input;
use lab_page::{Source, source_of};
use lab_sched::World;
use lc3_asm::assemble;
use std::alloc::Global;
use std::io::Read;
use std::rt::Files;

/// Programs that a command runs, and what it works with.
#[derive(Drop)]
pub struct Given<'j, 'a, T, P> {
    pub job: &'j Job<'j, T, P>,
    pub setup: &'j Setup<'a>,
    pub programs: Programs,
    /// What a page shows of the source of each process; none where there is no page.
    pub sources: Vec<Option<Source>>,
}

impl<'j, 'a, T: Files, P: Progress> Given<'j, 'a, T, P> {
    /// Reads the programs of a setup, and for a page their sources, by its source files, and the console input of the process
    /// that takes it from standard input, if one does; warnings of the sources are told.
    pub fn read<R: Read>(
        job: &'j Job<'j, T, P>,
        setup: &'j Setup<'a>,
        files: Vec<Option<&'a str>>,
        input: &mut Input<R>,
    ) -> Result<Given<'j, 'a, T, P>, Complaint<'a>>
        requires input_healthy { input.old.failed ≡ false }
        ensures setup { IfOk result (λ g. g.setup.now ≡ setup.now) }
        ensures healthy { OnOk result (input.new.failed ≡ false) }
    {
        let programs = read_programs(job, setup.programs.as_slice(), input)?;
        let files = files.iter().enumerate();
        let sources = files
            .map(|(process, file)| page_source(job, *file, process, &programs))
            .try_collect(job.alloc)?;
        let given = Given {
            job,
            setup,
            programs,
            sources,
        };
        given.tell_warnings();
        Ok(given)
    }
}

impl<T, P> Given<'_, '_, T, P> {
    /// The world of the programs before the first step.
    pub fn world(&self) -> Result<World, Complaint<'static>>
        ensures start { IfOk result (λ w. w ≡ start_of self.now) }
    {
        let programs = self.programs.programs.as_slice();
        let fresh = laboratory(self.job.alloc, programs, self.setup.profile)?;
        Ok(World::from(fresh))
    }
}

/// The name of standard input, as a file is named.
const STANDARD_INPUT: &str = "/dev/stdin";

/// The source file of each process for a page, where one of the words names one: each word is `P=FILE`, and no two name one
/// process; without a page there are none. Refuses a page that would replace a file of the run, a program, an input file, a
/// source or the file that is standard input, or has the name of a source.
pub fn page_files<'a, T: Files, P>(
    job: &Job<'_, T, P>,
    setup: &Setup<'a>,
    page: Option<&'a str>,
    words: &[&'a str],
) -> Result<Vec<Option<&'a str>>, Complaint<'a>> {
    let Some(page) = page else {
        return Ok(Vec::new(job.alloc));
    };
    let files = source_files(job.alloc, words, setup.programs.len())?;
    let is_page = |file: &str| is_same_file(job.rt, page, file);
    let is_input = is_file(job.rt, page) && is_page(STANDARD_INPUT);
    let is_of_program = setup.programs.iter().any(|word| {
        let (program, console) = program_of(word);
        is_page(program) || matches!(console, Console::File(input) if is_page(input))
    });
    if is_input || is_of_program || files.iter().any(|file| file.is_some_and(is_page)) {
        return Err(Misuse::OwnFile.of(page));
    }
    if has_source_name(page) {
        return Err(Misuse::SourceName.of(page));
    }
    Ok(files)
}

/// Of each of `count` processes the source file that one of the words `P=FILE` names.
fn source_files<'a>(
    alloc: Global,
    words: &[&'a str],
    count: usize,
) -> Result<Vec<Option<&'a str>>, Complaint<'a>> {
    let mut files = vec![in alloc; None; count]?;
    for word in words {
        let (process, file) = word.split_once('=').unwrap_or(("", ""));
        match files.get_mut(process.parse::<usize>().unwrap_or(usize::MAX)) {
            None => return Err(Misuse::UnknownProcess.of(word)),
            Some(Some(_)) => return Err(Misuse::TwoSources.of(word)),
            Some(place) => *place = Some(file),
        }
    }
    Ok(files)
}

/// What a page shows of the source of a process: of that in a file, which is assembled to its program, and where no file is named
/// of the one that the program was given as, if it was.
fn page_source<'a, T: Files, P>(
    job: &Job<'_, T, P>,
    file: Option<&'a str>,
    process: usize,
    given: &Programs,
) -> Result<Option<Source>, Complaint<'a>> {
    if let Some(file) = file
        && let Some(program) = given.programs.get(process)
    {
        let text = read_source(job.rt, job.alloc, file)?;
        let assembled = assemble(job.alloc, &text).at(job.alloc, file)?;
        let (image, made) = (&program.image, assembled.image());
        if made.origin() != image.origin() || made.words() != image.words() {
            return Err(Reason::NotItsSource { process }.at(file));
        }
        let source = source_of(job.alloc, text, &assembled);
        return source.map(Some).map_err(|_| Reason::NoMemory.at(file));
    }
    let Some(Some(source)) = given.sources.get(process) else {
        return Ok(None);
    };
    let text = String::from_str(job.alloc, &source.text)?;
    Ok(Some(source_of(job.alloc, text, &source.assembled)?))
}
