//! The command `check`: all messages about sources.
ghost use Rattle.std.specs.Prelude.{◌≡◌, true, false, IfOk, OnOk, OnErr};
ghost use Rattle.std.specs.Option.{option_copied};
ghost use Rattle.std.specs.Io.KnownBytes.{Appends};
ghost use Rattle.lab_io.specs.Device.{AppendsPrefix};
ghost use Rattle.lab_commands.specs.Complaints.{complains};
ghost use Rattle.lab_sched.specs.Worlds.{WorldState};
ghost use Rattle.lab_commands.specs.Found.{IsFound, HoldsAll};
ghost use Rattle.lab_commands.specs.Told.{numbered_end, chosen_in, told_bytes};

use crate::advice::advice_line;
use crate::complaint::{Complaint, Reason};
use crate::explore::Search;
use crate::files::{read_code, write_bytes};
use crate::job::{Job, Progress};
use lab_arguments::{Choice, Shown};
use lab_io::Output;
use lab_places::{Numbered, placed};
use lab_questions::{Answers, Basis, Failure, Question, answers_json};
use lab_sched::Schedule;
use lab_worlds::End;
use lc3_messages::{Report, Wish, report_on};
use lc3_table::Profile;
use std::alloc::{AllocError, Global};
use std::io::Write;
use std::rt::Files;

fn messages(alloc: Global, name: &str, bytes: &[u8], wish: Wish<'_>) -> Result<Report, AllocError> {
    report_on(alloc, &Shown(name).to_string(alloc)?, bytes, wish)
}

/// All messages about a source, where they are wanted or advice is told, and memory allows them.
pub fn messages_if<T, P: Progress>(
    job: &Job<'_, T, P>,
    source: &str,
    bytes: &[u8],
    profile: Profile,
    wanted: bool,
) -> Option<Report> {
    if !wanted && !job.advises() {
        return None;
    }
    let wish = Wish {
        profile,
        allowed: &[],
    };
    messages(job.alloc, source, bytes, wish).ok()
}

/// Writes the messages about a source, and answers whether it passes: it has no fault, and where `strict` no warning either.
fn check_source<'a, T: Files, E: Write, P>(
    job: &Job<'_, T, P>,
    source: &'a str,
    wish: Wish<'_>,
    strict: bool,
    errors: &mut Output<E>,
) -> Result<bool, Complaint<'a>> {
    let bytes = read_code(job.rt, job.alloc, source)?;
    let Ok(report) = messages(job.alloc, source, &bytes, wish) else {
        return Err(Reason::NoMemory.at(source));
    };
    let _ = errors.write_all(report.text.as_bytes());
    Ok(report.errors == 0 && (report.warnings == 0 || !strict))
}

/// Writes the messages about each source in turn, and answers whether all pass. One that can't be read doesn't pass, and the
/// next one is taken all the same.
pub fn check_sources<T: Files, E: Write, P>(
    job: &Job<'_, T, P>,
    sources: &[&str],
    wish: Wish<'_>,
    strict: bool,
    errors: &mut Output<E>,
) -> bool {
    let mut all_pass = true;
    for source in sources {
        match check_source(job, source, wish, strict, errors) {
            Ok(passes) => all_pass = all_pass && passes,
            Err(complaint) => {
                complaint.write(job.alloc, errors);
                all_pass = false;
            }
        }
    }
    all_pass
}

/// Writes what was found, with where processes stand in these sources, says what conditions rest on that is never there, and
/// complains where memory was refused on the way, or not all is as it has to be. Where it doesn't complain, all that was asked
/// is so, whatever steps are taken, and each condition asks something.
#[tactic(auto, using(crate::proofs::TellingLemmas::nothing_told, crate::proofs::TellingLemmas::all_begun))]
pub fn tell_ends<T, W: Write, P: Progress>(
    job: &Job<'_, T, P>,
    sources: &[Option<Numbered<'_>>],
    search: &Search,
    output: &mut Output<W>,
) -> Result<(), Complaint<'static>>
    requires output_healthy { output.old.failed ≡ false }
    ensures told { OnOk result (Appends (W.contents output.old.device)
        (W.contents output.new.device) (told_bytes sources.now search.now)) }
    ensures prefix { OnErr result (AppendsPrefix (W.contents output.old.device)
        (W.contents output.new.device) (told_bytes sources.now search.now)) }
    ensures passes { OnOk result (complains search.now ≡ false) }
    ensures holds { OnOk result ((start : WorldState) → IsFound start search.now
        → HoldsAll start search.now.answers) }
{
    write_bytes(&told_of(job.alloc, sources, search)?, output)?;
    for basis in told_before(&search.answers) {
        let told = format_args!("explore: {basis}");
        job.progress.tell(&advice_line(job.alloc, told, None)?);
    }
    complain(job.alloc, search)
}

/// What conditions rest on and is never there, but the last, where that is the failure that is told.
fn told_before(found: &Answers) -> &[Basis] {
    match (found.failure, found.empty.split_last()) {
        (Some(Failure::Empty), Some((_, before))) => before,
        _ => found.empty.as_slice(),
    }
}

/// What tells what was found: the line of the schedule that is chosen, or all answers.
fn told_of(
    alloc: Global,
    sources: &[Option<Numbered<'_>>],
    search: &Search,
) -> Result<Vec<u8>, Complaint<'static>>
    ensures told { IfOk result (λ bytes. bytes.items ≡ told_bytes sources.now search.now) }
{
    let found = &search.answers;
    match search.inquiry.choice {
        Some(choice) => match chosen_schedule(found, choice)? {
            Some(schedule) => Ok(format!(in alloc; "{schedule}\n")?.into_bytes()),
            None => Ok(Vec::new(alloc)),
        },
        None if search.inquiry.json => {
            let reach = search.inquiry.reach;
            Ok(answers_json(alloc, found, reach, search.limit.as_ref())?.into_bytes())
        }
        None => Ok(placed(alloc, sources, found.text.as_bytes())?),
    }
}

/// A schedule that is chosen, if there is one: what isn't as it has to be has none where all is so, and an end, which must be
/// there, has none where memory was refused.
pub fn chosen_schedule(
    found: &Answers,
    choice: Choice,
) -> Result<Option<&Schedule>, Complaint<'static>>
    ensures chosen { IfOk result (λ shown. option_copied shown ≡ chosen_in found.now choice) }
{
    match choice {
        Choice::Bad => Ok(found.bad_schedule()),
        Choice::End(number) => match numbered_end(found, number as usize) {
            Some(end) => Ok(Some(&end.schedule)),
            None if found.exploration.is_refused() => Ok(None),
            None => Err(Reason::NoEnd.at("explore")),
        },
    }
}

fn numbered_end(found: &Answers, number: usize) -> Option<&End>
    ensures end { option_copied result ≡ numbered_end found.now number }
{
    found.end(number.checked_sub(1)?)
}

/// Complains where something has to be so and isn't, or where memory was refused on the way.
fn complain(alloc: Global, search: &Search) -> Result<(), Complaint<'static>>
    ensures none { OnOk result (complains search.now ≡ false) }
    ensures some { OnErr result (complains search.now ≡ true) }
{
    let found = &search.answers;
    let refused = found.exploration.is_refused();
    match found.failure {
        None => Ok(()),
        Some(Failure::Incomplete) if refused => Err(Reason::NoMemory.at("run")),
        Some(Failure::Incomplete) if found.judges() => Err(told_as(alloc, "incomplete", "")),
        Some(Failure::Incomplete) => Ok(()),
        Some(Failure::Endless) => Err(told_as(alloc, "endless", "")),
        Some(Failure::Empty) => Err(nothing_asked(alloc, found)),
        Some(Failure::Unmet(number)) => match found.answers.get(number) {
            Some(answer) => Err(unmet(alloc, &answer.question)),
            None => Err(told_as(alloc, "not", "")),
        },
    }
}

/// The complaint that a condition asks nothing.
fn nothing_asked(alloc: Global, found: &Answers) -> Complaint<'static> {
    match found.empty.last() {
        Some(basis) => Complaint::new(alloc, "explore", basis),
        None => told_as(alloc, "not", ""),
    }
}

/// The complaint about a question that isn't so.
fn unmet(alloc: Global, question: &Question) -> Complaint<'static> {
    told_as(alloc, question.head(), question.text())
}

/// The complaint that has this word, and a text behind it if there is one.
fn told_as(alloc: Global, head: &str, text: &str) -> Complaint<'static> {
    let blank = if text.is_empty() { "" } else { " " };
    Complaint::new(alloc, "explore", format_args!("{head}{blank}{text}"))
}
