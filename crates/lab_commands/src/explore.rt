//! The command `explore`, and what a search took.
ghost use Rattle.std.specs.Prelude.{Some, ◌≡◌, IfOk, IfSome, ◌≤◌, ◌<◌, None, IsTrue, false};
ghost use Rattle.lab_sched.specs.Starts.{fresh};
ghost use Rattle.lab_commands.specs.Asking.{AreOn, IsAskedBy};
ghost use Rattle.lab_commands.specs.Found.{IsFound, IsFoundBy, IsSearched, AreWalked};
ghost use Rattle.lab_commands.specs.Told.{names_no_limit, limit_of_worlds, NamesMet};

use crate::complaint::Complaint;
use crate::files::read_file;
use crate::inquiry::{Inquiry, asked_of, inquiry_of};
use crate::job::{Job, Progress, SearchCount, WALKS, WORLDS};
use crate::programs::{Programs, fault_of, laboratory};
use lab_arguments::{MOST_WORLDS, Question};
use lab_questions::{Answers, AskFault, Asked, Failure, LimitMet, Reach, Standing, ask, ask_walks};
use lab_sched::Program;
use lab_sources::Source;
use lab_worlds::{Limits, Met, Walks, Workers};
use lc3_table::Profile;
use lc3_word::{Hex, unsigned};
use std::alloc::{AllocError, Global};
use std::fmt;
use std::rt::Files;
use std::thread::{Threads, available_parallelism};
use std::time::{Clock, Duration, Instant};

/// How far an exploration was to go, and what it found.
#[derive(Drop)]
pub struct Search {
    pub inquiry: Inquiry,
    pub answers: Answers,
    /// The limit that it met, where one is told.
    pub limit: Option<LimitMet>,
    /// What it took, where that is known.
    pub cost: Option<SearchCost>,
}

/// Visits every interleaving of programs, as far as the limits allow, or takes walks, if these are asked for, and judges what
/// is asked, by the labels of their sources. Where the search is to end with what is found, it begins with fewer worlds, or
/// walks, and goes further as long as nothing is found.
pub fn find_ends<'a, T: Threads + Sync, P: Progress>(
    job: &Job<'_, T, P>,
    given: &Programs,
    profile: Profile,
    question: &Question<'a>,
) -> Result<Search, Complaint<'a>>
    ensures found { IfOk result (λ s. IsFound (fresh profile given.now.programs.items) s) }
    ensures asked { IfOk result (λ s. IsAskedBy question.now s.answers) }
{
    let inquiry = inquiry_of(question);
    if question.first {
        let most = most_of(inquiry.reach);
        let stages = match inquiry.reach.walks {
            Some(_) => WALK_STAGES,
            None => WORLD_STAGES,
        };
        for stage in stages.iter().filter(|stage| **stage < most) {
            let mut earlier = inquiry;
            earlier.reach.is_stage = true;
            match &mut earlier.reach.walks {
                Some(walks) => walks.count = *stage,
                None => earlier.reach.limits.worlds = *stage,
            }
            let search = searched(job, given, profile, question, earlier)?;
            if !has_more(&search) {
                return Ok(search);
            }
        }
    }
    searched(job, given, profile, question, inquiry)
}

/// Visits every interleaving of programs, as far as an inquiry goes, or takes its walks, and judges what a question asks.
fn searched<'a, T: Threads + Sync, P: Progress>(
    job: &Job<'_, T, P>,
    given: &Programs,
    profile: Profile,
    question: &Question<'a>,
    inquiry: Inquiry,
) -> Result<Search, Complaint<'a>>
    ensures found { IfOk result (λ s. IsFound (fresh profile given.now.programs.items) s) }
    ensures asked { IfOk result (λ s. IsAskedBy question.now s.answers) }
{
    let asked = asked_of(job.alloc, question, given.sources.as_slice())?;
    let programs = given.programs.as_slice();
    let answers = match inquiry.reach.walks {
        Some(walks) => walk(job, programs, profile, inquiry.reach.limits, walks, asked)?,
        None => explore(job, programs, profile, &inquiry, asked)?,
    };
    Ok(Search {
        inquiry,
        answers,
        limit: None,
        cost: None,
    })
}

/// Takes walks through the interleavings of programs, and judges what is asked.
fn walk<T, P: Progress>(
    job: &Job<'_, T, P>,
    programs: &[Program],
    profile: Profile,
    limits: Limits,
    walks: Walks,
    asked: Asked,
) -> Result<Answers, Complaint<'static>>
    ensures walked { IfOk result (AreWalked (fresh profile programs.now)) }
    ensures asked { IfOk result (AreOn asked) }
{
    let fresh = laboratory(job.alloc, programs, profile)?;
    let mut count = SearchCount::new(job.alloc, job.progress, WALKS);
    let outcome = ask_walks(job.alloc, fresh, limits, walks, asked, &mut count);
    count.clear();
    match outcome {
        Ok(answers) => Ok(answers),
        Err(fault) => Err(Complaint::new(job.alloc, "run", fault)),
    }
}

/// Visits every interleaving of programs, and judges what is asked.
fn explore<T: Threads + Sync, P: Progress>(
    job: &Job<'_, T, P>,
    programs: &[Program],
    profile: Profile,
    inquiry: &Inquiry,
    asked: Asked,
) -> Result<Answers, Complaint<'static>>
    ensures searched { IfOk result (IsSearched inquiry.now.reach.limits
        (fresh profile programs.now)) }
    ensures asked { IfOk result (AreOn asked) }
{
    let alloc = job.alloc;
    let limits = inquiry.reach.limits;
    let mut count = SearchCount::new(alloc, job.progress, WORLDS);
    let workers = Workers::new(job.rt, thread_count(job.rt, inquiry.threads));
    let outcome = ask(
        alloc, programs, profile, limits, asked, &mut count, &workers,
    );
    count.clear();
    match outcome {
        Ok(answers) => Ok(answers),
        Err(AskFault::Start(fault)) => Err(fault_of(alloc, fault)),
        Err(AskFault::Search(fault)) => Err(Complaint::new(alloc, "run", fault)),
    }
}

fn thread_count<T: Threads>(rt: &T, asked: Option<u32>) -> usize
    ensures asked { IfSome asked (λ count. result ≡ count) }
{
    match asked {
        Some(count) => count as usize,
        None => available_parallelism(rt).map_or(1, |count| count.get()),
    }
}

/// How many worlds are visited at first, and then, as long as nothing is found.
const WORLD_STAGES: &[u32] = &[1_000, 4_000, 16_000, 64_000, 256_000, 1_024_000, 4_096_000];

/// How many walks are taken.
const WALK_STAGES: &[u32] = &[10, 100, 1_000, 10_000, 100_000, 1_000_000];

/// How many worlds a search visits at most, or how many walks are taken.
fn most_of(reach: Reach) -> u32 {
    match reach.walks {
        Some(walks) => walks.count,
        None => reach.limits.worlds,
    }
}

/// Whether a search that goes further than this one has something to find: it went as far as it was to go, without visiting
/// everything, and nothing was found that isn't as it has to be; or what is asked of calls isn't known.
fn has_more(search: &Search) -> bool {
    let found = &search.answers.exploration;
    match search.answers.failure {
        Some(Failure::Incomplete) if found.complete => true,
        Some(Failure::Incomplete) | None => {
            !found.complete && found.worlds >= most_of(search.inquiry.reach)
        }
        Some(_) => false,
    }
}

/// Which limit a search of programs met, where it met one. Of walks none is named, nor of a search that ends with what it found.
pub fn limit_met<T, P: Progress>(
    job: &Job<'_, T, P>,
    given: &Programs,
    search: &Search,
) -> Result<Option<LimitMet>, AllocError>
    ensures none { IfOk result (λ met. IsTrue (names_no_limit search.now) → met ≡ None) }
    ensures worlds { IfOk result (λ met. IfSome met (λ limit.
        search.now.inquiry.reach.limits.worlds ≤ search.now.answers.exploration.worlds
        → limit ≡ limit_of_worlds search.now.answers.exploration.worlds)) }
    ensures others { IfOk result (λ met. names_no_limit search.now ≡ false
        → search.now.answers.exploration.worlds < search.now.inquiry.reach.limits.worlds
        → NamesMet search.now.inquiry.reach.limits search.now.answers.exploration.met met) }
{
    let found = &search.answers.exploration;
    let reach = search.inquiry.reach;
    if found.complete || found.is_refused() || reach.walks.is_some() {
        return Ok(None);
    }
    if found.worlds < reach.limits.worlds {
        return limit_named(job.alloc, given, reach.limits, found.met);
    }
    if reach.is_stage {
        return Ok(None);
    }
    let visited = found.worlds;
    let next = visited.saturating_mul(100).min(MOST_WORLDS);
    let more = (visited < MOST_WORLDS).then_some(next);
    Ok(Some(LimitMet::Worlds { visited, more }))
}

/// The limit that a search met, but for that of worlds: where a process goes on too long, which one, and where it stands.
fn limit_of(
    alloc: Global,
    given: &Programs,
    limits: Limits,
    met: Met,
) -> Result<Option<LimitMet>, AllocError>
    ensures named { IfOk result (NamesMet limits (Some met)) }
{
    match met {
        Met::Steps(run) => {
            let source = given.sources.get(run.pid);
            let source = source.and_then(|source| source.as_ref());
            Ok(Some(LimitMet::Steps {
                process: run.pid,
                steps: limits.steps,
                standing: standing_at(alloc, source, run.pc, run.word)?,
            }))
        }
        Met::Memory(_) => Ok(Some(LimitMet::Memory {
            memory: limits.memory,
        })),
        Met::Worlds | Met::Refused => Ok(None),
    }
}

/// The same of a search that may have met none.
fn limit_named(
    alloc: Global,
    given: &Programs,
    limits: Limits,
    met: Option<Met>,
) -> Result<Option<LimitMet>, AllocError>
    ensures named { IfOk result (NamesMet limits met) }
{
    match met {
        Some(met) => limit_of(alloc, given, limits, met),
        None => Ok(None),
    }
}

/// Where an address stands: its nearest label and its line, as far as there is a source with such, and else the address.
pub fn standing_at(
    alloc: Global,
    source: Option<&Source>,
    address: u16,
    word: u16,
) -> Result<Standing, AllocError> {
    let row = source.and_then(|source| source.held_row(address, word));
    let place = match source.and_then(|source| source.nearest(address)) {
        Some(near) => format!(in alloc; "{near}")?,
        None => format!(in alloc; "{}", Hex(address))?,
    };
    let line = row.map(|row| row.line);
    Ok(Standing { place, line })
}

/// The file in which Linux tells how many pages of memory the program has: its second word.
const PAGES: &str = "/proc/self/statm";

const PAGES_IN_A_MEGABYTE: u32 = 256;

/// The time that a search took, and the memory that the program then has, where that is known. It is shown as
/// `0.6 s and 40 MB`.
#[derive(Clone, Copy)]
pub struct SearchCost {
    took: Duration,
    megabytes: Option<u32>,
}

impl SearchCost {
    /// What was spent since then.
    pub fn since<T: Files + Clock, P>(job: &Job<'_, T, P>, began: Instant) -> Option<SearchCost> {
        let took = began.elapsed(job.rt).ok()?;
        let told = read_file(job.rt, job.alloc, PAGES).unwrap_or(Vec::new(job.alloc));
        let pages = told.split(|byte| *byte == b' ').nth(1);
        let pages = pages.and_then(|digits| unsigned(10, digits));
        Some(SearchCost {
            took,
            megabytes: pages.map(|pages| pages / PAGES_IN_A_MEGABYTE),
        })
    }
}

impl fmt::Display for SearchCost {
    fn fmt<W: fmt::Write>(&self, f: &mut fmt::Formatter<W>) -> fmt::Result {
        let seconds = self.took.as_secs();
        let tenths = self.took.subsec_millis() / 100;
        write!(f, "{seconds}.{tenths} s")?;
        match self.megabytes {
            Some(megabytes) => write!(f, " and {megabytes} MB"),
            None => Ok(()),
        }
    }
}
