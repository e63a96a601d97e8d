//! What isn't so of what was asked.
ghost use Rattle.std.specs.Prelude.{◌≡◌, ◌++◌, IfOk, OnOk, flat_map, map, option_map, string_bytes};
ghost use Rattle.lab_questions.specs.Texts.{first_steps, unmet, unmet_lines};
ghost use Rattle.lab_questions.specs.Private.Rows.{unmet_view, told_row, unmet_told};

use crate::asked::Part;
use crate::{Answer, Found, Question, Word};
use lab_sched::Steps;
use lab_worlds::End;
use std::alloc::{AllocError, Global};
use std::fmt;
use std::fmt::Write;

/// Something that isn't as it has to be.
#[derive(Clone, Copy)]
pub(crate) struct Unmet<'a> {
    /// Whether it must never be so.
    pub never: bool,
    /// How its line begins.
    pub head: &'static str,
    /// As it was asked.
    pub asked: &'a str,
    /// The schedule of the end with which the last is compared, if it is.
    pub first: Option<Steps<'a>>,
    /// The schedule that shows it.
    pub steps: Steps<'a>,
}

impl fmt::Display for Unmet<'_> {
    ghost use Rattle.std.specs.Prelude.{Some};
    ghost use Rattle.lab_questions.specs.Private.Rows.{unmet_view};

    ghost output = { λ u. Some (unmet_lines (unmet_view u)) };

    #[tactic(auto, unfolding(crate::specs::EndTexts::schedule_line))]
    fn fmt<W: fmt::Write>(&self, f: &mut fmt::Formatter<W>) -> fmt::Result {
        let head = self.head;
        let asked = self.asked;
        let steps = self.steps;
        match self.first {
            Some(first) => write!(f, "{head} {asked}\nschedule {first}\nschedule {steps}\n"),
            None => write!(f, "{head} {asked}\nschedule {steps}\n"),
        }
    }
}

/// The schedule of the first end, where a question compares others with it.
fn first_steps<'a>(question: &Question, ends: &'a [End]) -> Option<Steps<'a>>
    ensures first { option_map (λ s. s.0.now) result ≡ first_steps ends.now question.now }
{
    match question {
        Question::Require(Word::Same) => Some(Steps(ends.get(0)?.schedule.blocks())),
        _ => None,
    }
}

/// What was asked, if it isn't so, where these ends were found.
fn unmet_in<'a>(answer: &'a Answer, ends: &'a [End]) -> Option<Unmet<'a>>
    ensures unmet { option_map unmet_view result ≡ unmet ends.now answer.now }
{
    let Answer { question, found } = answer;
    let shown = found.shown(ends)?;
    Some(Unmet {
        never: question.is_never(),
        head: question.head(),
        asked: question.text(),
        first: first_steps(question, ends),
        steps: Steps(shown.blocks()),
    })
}

/// Adds what was asked, if it isn't so and is one of those that are told together.
fn push_unmet<'a>(
    unmets: &mut Vec<Unmet<'a>>,
    answer: &'a Answer,
    ends: &'a [End],
    part: Part,
) -> Result<(), AllocError>
    ensures added { OnOk result (map unmet_view unmets.new.items
        ≡ map unmet_view unmets.old.items ++ told_row part ends.now answer.now) }
{
    if !answer.question.is_in(part) {
        return Ok(());
    }
    if let Some(unmet) = unmet_in(answer, ends) {
        unmets.push(unmet)?;
    }
    Ok(())
}

/// All that isn't so of what is told together, in order.
pub(crate) fn unmets_in<'a>(
    alloc: Global,
    answers: &'a [Answer],
    ends: &'a [End],
    part: Part,
) -> Result<Vec<Unmet<'a>>, AllocError>
    ensures unmets { IfOk result (λ unmets. map unmet_view unmets.items
        ≡ unmet_told part ends.now answers.now) }
{
    let mut unmets = Vec::new(alloc);
    for answer in answers {
        push_unmet(&mut unmets, answer, ends, part)?;
    }
    Ok(unmets)
}

/// Adds the lines of all that isn't so of what is told together.
pub(crate) fn push_unmets(
    text: &mut String,
    answers: &[Answer],
    ends: &[End],
    part: Part,
) -> Result<(), AllocError>
    ensures text { OnOk result (string_bytes text.new ≡ string_bytes text.old
        ++ flat_map unmet_lines (unmet_told part ends.now answers.now)) }
{
    let alloc = *text.allocator();
    let unmets = unmets_in(alloc, answers, ends, part)?;
    for unmet in &unmets {
        write!(text, "{unmet}")?;
    }
    Ok(())
}
