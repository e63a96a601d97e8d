//! The command `step`.
ghost use Rattle.std.specs.Prelude.{◌≡◌, false, IfOk, string_bytes};
ghost use Rattle.lab_sched.specs.Starts.{fresh};
ghost use Rattle.lab_sched.specs.Worlds.{run};
ghost use Rattle.lab_sched.specs.Schedules.{steps_of};
ghost use Rattle.lab_texts.specs.Reports.{report_text};
ghost use Rattle.lab_commands.specs.Runs.{IsReport};

use crate::advice::{advice_line, unknown};
use crate::complaint::{At, Complaint, Reason};
use crate::job::{Job, Progress, StepCount};
use crate::programs::{Programs, laboratory};
use lab_hex::read_whole;
use lab_io::Input;
use lab_places::placed;
use lab_sched::{Program, SchedFault, Schedule, World};
use lab_texts::report_text;
use lc3_table::Profile;
use lc3_word::{WHITE_SPACE, words_between};
use std::io::Read;

/// The report on programs that were given, after the steps of a schedule, with where processes stand in their sources.
pub fn report_given<T, P: Progress>(
    job: &Job<'_, T, P>,
    given: &Programs,
    profile: Profile,
    schedule: &Schedule,
) -> Result<Vec<u8>, Complaint<'static>>
    ensures report { IfOk result (λ bytes. IsReport profile bytes.items) }
{
    let text = plain_report(job, given.programs.as_slice(), profile, schedule)?;
    Ok(placed(job.alloc, &given.numbered(job.alloc)?, text.as_bytes())?)
}

fn plain_report<T, P: Progress>(
    job: &Job<'_, T, P>,
    programs: &[Program],
    profile: Profile,
    schedule: &Schedule,
) -> Result<String, Complaint<'static>>
    ensures report { IfOk result (λ text. string_bytes text
        ≡ report_text (run (fresh profile programs.now) (steps_of schedule.now))) }
{
    let mut world = World::from(laboratory(job.alloc, programs, profile)?);
    let mut count = StepCount::new(job.alloc, job.progress, schedule.total());
    let outcome = world.run_watched(schedule, &mut count);
    count.clear();
    match outcome {
        Ok(()) => Ok(report_text(job.alloc, &world)?),
        Err(stop) => {
            let complaint = Complaint::new(job.alloc, "run", stop);
            Err(complaint.followed(process_advice(job, schedule, programs.len())))
        }
    }
}

/// The line that says, where somebody looks, which processes there are, if a block of a schedule names none of so many.
pub fn process_advice<T, P: Progress>(
    job: &Job<'_, T, P>,
    schedule: &Schedule,
    count: usize,
) -> Option<String> {
    if !job.advises() {
        return None;
    }
    let block = schedule.blocks().iter().find(|block| block.pid >= count)?;
    let last = count.saturating_sub(1);
    let told = match last {
        0 => format!(in job.alloc; "{block}: names no process; there is process 0 alone"),
        1 => format!(in job.alloc; "{block}: names no process; there are processes 0 and 1"),
        _ => format!(in job.alloc; "{block}: names no process; there are processes 0 to {last}"),
    };
    advice_line(job.alloc, told.ok()?, None).ok()
}

/// The schedule that a whole input writes. Where a word of it is no block, and somebody looks, a line says what one is.
pub fn read_schedule<T, R: Read, P: Progress>(
    job: &Job<'_, T, P>,
    input: &mut Input<R>,
) -> Result<Schedule, Complaint<'static>>
    requires input_healthy { input.old.failed ≡ false }
{
    let bytes = read_whole(job.alloc, input).at(job.alloc, "schedule")?;
    let text = str::from_utf8(&bytes).map_err(|_| Reason::NotUtf8.at("schedule"))?;
    Schedule::read(job.alloc, text).map_err(|fault| {
        let complaint = Complaint::new(job.alloc, "schedule", fault);
        complaint.followed(block_advice(job, text, fault))
    })
}

const BLOCK: &str = "a block is P*N, with P from 0 to 63 and N from 1 to 999999999, or P alone";

const MOST_SHOWN: usize = 80;

/// The line that says what a block of a schedule is, for the word of a text that is none, and which block of its numbers was
/// meant, if there is one, where somebody looks.
fn block_advice<T, P: Progress>(
    job: &Job<'_, T, P>,
    text: &str,
    fault: SchedFault,
) -> Option<String> {
    let alloc = job.alloc;
    let at = match fault {
        SchedFault::BadBlock { at } if job.advises() => at.checked_sub(1)?,
        _ => return None,
    };
    let words = words_between(alloc, WHITE_SPACE, text.as_bytes()).ok()?;
    let word = str::from_utf8(*words.get(at)?).ok();
    let word = word.filter(|word| word.len() <= MOST_SHOWN)?;
    let mut numbers = word
        .split(|character: char| !character.is_ascii_digit())
        .filter(|piece| !piece.is_empty());
    let block = match (numbers.next(), numbers.next(), numbers.next()) {
        (Some(process), None, _) if !word.contains('*') => String::from_str(alloc, process).ok(),
        (Some(process), Some(steps), None) => format!(in alloc; "{process}*{steps}").ok(),
        _ => None,
    };
    let meant = block
        .as_deref()
        .filter(|block| Schedule::read(alloc, block).is_ok());
    unknown(alloc, Some(word), BLOCK, meant)
}
