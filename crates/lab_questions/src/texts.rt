//! The lines of answers.
ghost use Rattle.std.specs.Prelude.{◌≡◌, ◌++◌, Some, map, OnOk, IfOk, string_bytes};
ghost use Rattle.lab_questions.specs.EndTexts.{extent_text, text_of, told_ends, AreTold, lasso_text, ends_text};
ghost use Rattle.lab_questions.specs.Texts.{last_lines, answers_text};
ghost use Rattle.lab_questions.specs.Private.Told.{TellsNext};
ghost use Rattle.lab_questions.specs.Shown.{outcome_text, shown_text};

use crate::asked::Part;
use crate::called::push_unmets;
use crate::left::push_left;
use crate::{Answer, Show};
use lab_sched::{Steps, World};
use lab_texts::{out_text, report_text, verdict_text};
use lab_worlds::{End, Exploration, Lasso};
use std::alloc::{AllocError, Global};
use std::fmt;
use std::fmt::Write;

/// Whether an exploration is complete, in a word.
pub(crate) fn extent_of(complete: bool) -> &'static str
    ensures text { result.now ≡ extent_text complete }
{
    if complete { "complete" } else { "incomplete" }
}

/// The lines of a lasso, if there is one.
#[derive(Clone, Copy)]
struct LassoLines<'a>(&'a Option<Lasso>);

impl fmt::Display for LassoLines<'_> {
    ghost output = { λ l. Some (lasso_text l.0.now) };

    #[tactic(auto, unfolding(crate::specs::EndTexts::schedule_line, crate::specs::EndTexts::lasso_line))]
    fn fmt<W: fmt::Write>(&self, f: &mut fmt::Formatter<W>) -> fmt::Result {
        match self.0 {
            Some(lasso) => {
                let steps = Steps(lasso.schedule.blocks());
                let round = Steps(lasso.steps.blocks());
                write!(f, "endless\nschedule {steps}\nround {round}\n")
            }
            None => Ok(()),
        }
    }
}

/// Adds the last lines: of walks how many were taken; else what was reached, a lasso, and whether everything was visited.
#[tactic(auto, unfolding(crate::specs::Texts::walks_line, crate::specs::EndTexts::extent_line))]
fn push_last(
    text: &mut String,
    found: &Exploration,
    answers: &[Answer],
    walks: bool,
) -> Result<(), AllocError>
    ensures text { OnOk result (string_bytes text.new ≡ string_bytes text.old
        ++ last_lines walks found.now answers.now) }
{
    let worlds = found.worlds;
    if walks {
        return write!(text, "incomplete {worlds} walks\n");
    }
    push_unmets(text, answers, &found.ends, Part::Never)?;
    let lasso = LassoLines(&found.lasso);
    let extent = extent_of(found.complete);
    write!(text, "{lasso}{extent} {worlds} worlds\n")
}

/// Tells what was found, by walks or by a search, and answers.
pub(crate) fn tell(
    alloc: Global,
    show: Show,
    found: &Exploration,
    answers: &[Answer],
    walks: bool,
) -> Result<Told, AllocError>
    ensures text { IfOk result (λ told. string_bytes told.text
        ≡ answers_text walks show found.now answers.now) }
    ensures texts { IfOk result (λ told. map string_bytes told.texts.items
        ≡ map (text_of show) (told_ends show found.now.ends.items)) }
    ensures told { IfOk result (λ told. AreTold show found.now.ends.items told.numbers.items) }
{
    let mut told = told_of(alloc, show, &found.ends)?;
    push_unmets(&mut told.text, answers, &found.ends, Part::Required)?;
    push_last(&mut told.text, found, answers, walks)?;
    Ok(told)
}

/// The lines of the ends that are told, what is told of each, and their numbers among all ends.
#[derive(Drop)]
pub(crate) struct Told {
    pub text: String,
    pub texts: Vec<String>,
    pub numbers: Vec<usize>,
}

impl Told {
    /// Tells the end with a number among all, unless one with its text was told.
    fn add(&mut self, alloc: Global, show: Show, at: usize, end: &End) -> Result<(), AllocError>
        ensures told { OnOk result (TellsNext show at self.old self.new end.now) }
    {
        let text = shown_text(alloc, &end.world, show)?;
        if self.texts.iter().any(|told| told.as_str() == text.as_str()) {
            return Ok(());
        }
        let number = self.texts.len() + 1;
        let steps = Steps(end.schedule.blocks());
        write!(self.text, "end {number}\n{text}schedule {steps}\n")?;
        self.texts.push(text)?;
        self.numbers.push(at)?;
        Ok(())
    }
}

/// What is told of ends: each text once, with the schedule of the first end that has it.
pub(crate) fn told_of(alloc: Global, show: Show, ends: &[End]) -> Result<Told, AllocError>
    ensures text { IfOk result (λ told.
        string_bytes told.text ≡ ends_text show 1 (told_ends show ends.now)) }
    ensures texts { IfOk result (λ told. map string_bytes told.texts.items
        ≡ map (text_of show) (told_ends show ends.now)) }
    ensures numbers { IfOk result (λ told. AreTold show ends.now told.numbers.items) }
{
    let mut told = Told {
        text: String::new(alloc),
        texts: Vec::new(alloc),
        numbers: Vec::new(alloc),
    };
    for (at, end) in ends.iter().enumerate() {
        told.add(alloc, show, at, end)?;
    }
    Ok(told)
}

/// What each process has written, and the verdict.
#[tactic(auto, using(lab_texts::proofs::RowLemmas::texts_below_none, lab_texts::proofs::RowLemmas::texts_below_next), unfolding(crate::specs::Shown::outcome_text))]
fn outcome_text(alloc: Global, world: &World) -> Result<String, AllocError>
    ensures text { IfOk result (λ text. string_bytes text ≡ outcome_text world.now) }
{
    let mut text = String::new(alloc);
    for pid in 0..world.count() {
        let line = out_text(alloc, world, pid)?;
        text.push_str(&line)?;
    }
    let verdict = verdict_text(alloc, world)?;
    text.push_str(&verdict)?;
    Ok(text)
}

/// What is told of a world at rest, as whole lines: the report, or what its processes have written and
/// the verdict in its place, and then the messages that are left, if these are told.
pub(crate) fn shown_text(alloc: Global, world: &World, show: Show) -> Result<String, AllocError>
    ensures text { IfOk result (λ text. string_bytes text ≡ shown_text show world.now) }
{
    let head = if show.out {
        outcome_text(alloc, world)
    } else {
        report_text(alloc, world)
    };
    let mut text = head?;
    if show.left {
        push_left(alloc, &mut text, world.kernel())?;
    }
    Ok(text)
}
