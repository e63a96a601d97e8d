//! The answers as one object.
ghost use Rattle.std.specs.Prelude.{◌≡◌, Some, IfOk, map, string_bytes, option_map};
ghost use Rattle.std.specs.Option.{option_copied};
ghost use Rattle.lab_questions.specs.Findings.{answers_line, found_part, last_part, limits_met, unit_text, schedules_json, unmet_json};
ghost use Rattle.std.specs.Fmt.{decimal};
ghost use Rattle.lab_questions.specs.Values.{array_json, member, name_json};
ghost use Rattle.lab_questions.specs.Members.{bases_told, lasso_json, holds_json};
ghost use Rattle.lab_questions.specs.Private.Rows.{unmet_view, unmets_of};

mod ends;
mod values;

use crate::asked::Part;
use crate::called::{Unmet, unmets_in};
use crate::json::ends::{Ends, Limit};
use crate::json::values::{Array, Quoted, StepsValue, Text, Values};
use crate::texts::extent_of;
use crate::{Answers, Basis, Failure, LimitMet, Reach};
use lab_sched::Steps;
use lab_worlds::{Exploration, Lasso, Walks};
use std::alloc::{AllocError, Global};
use std::fmt;

/// The limits that were met, where not everything was visited, as an array.
fn limits_json(found: &Exploration, reach: Reach) -> &'static str
    ensures text { result.now ≡ array_json (map name_json
        (limits_met found.now reach.limits reach.is_stage reach.walks)) }
{
    let refused = found.is_refused();
    if let Some(walks) = reach.walks {
        return match (refused, found.worlds < walks.count, reach.is_stage) {
            (true, _, _) => "[\"memory\",\"random\"]",
            (false, true, _) => "[\"limit\",\"random\"]",
            (false, false, true) => "[\"first\",\"random\"]",
            (false, false, false) => "[\"random\"]",
        };
    }
    if found.complete {
        return "[]";
    }
    let is_full = found.worlds >= reach.limits.worlds;
    match (is_full, refused, reach.is_stage) {
        (true, true, true) => "[\"memory\",\"first\"]",
        (true, true, false) => "[\"worlds\",\"memory\"]",
        (true, false, true) => "[\"first\"]",
        (true, false, false) => "[\"worlds\"]",
        (false, true, _) => "[\"memory\"]",
        (false, false, _) => "[\"limit\"]",
    }
}

/// The member for how many worlds were visited, or walks taken.
#[derive(Clone, Copy)]
struct Visited(Option<Walks>, u32);

impl fmt::Display for Visited {
    ghost output = { λ v. Some (member (unit_text v.0) (decimal v.1)) };

    fn fmt<W: fmt::Write>(&self, f: &mut fmt::Formatter<W>) -> fmt::Result {
        let count = self.1;
        match self.0 {
            Some(_) => write!(f, "\"walks\":{count}"),
            None => write!(f, "\"worlds\":{count}"),
        }
    }
}

/// The last members, and the end of the line.
#[derive(Clone, Copy)]
struct Last<'a>(Found<'a>);

impl fmt::Display for Last<'_> {
    ghost output = { λ l. Some (last_part l.0.answers.now) };

    #[tactic(auto, unfolding(crate::specs::Findings::last_part))]
    fn fmt<W: fmt::Write>(&self, f: &mut fmt::Formatter<W>) -> fmt::Result {
        let Found { alloc, answers } = self.0;
        let bases = answers.empty.as_slice();
        let empty = Array(Bases { alloc, bases });
        let fair = answers.exploration.fair;
        let endless = Cycle(&answers.exploration.lasso);
        let holds = holds_name(answers.judges(), answers.failure);
        write!(
            f,
            ",\"empty\":{empty},\"fair\":{fair},\"endless\":{endless},\"holds\":{holds}}}\n"
        )
    }
}

/// The ends, and what isn't as it has to be, and what stands behind them.
#[derive(Clone, Copy)]
pub(crate) struct Found<'a> {
    alloc: Global,
    answers: &'a Answers,
}

impl fmt::Display for Found<'_> {
    ghost output = { λ x. Some (found_part x.answers.now) };

    #[tactic(auto, unfolding(crate::specs::Findings::found_part))]
    fn fmt<W: fmt::Write>(&self, f: &mut fmt::Formatter<W>) -> fmt::Result {
        let ends = Array(Ends(*self));
        let required = UnmetArray(*self, Part::Required);
        let never = UnmetArray(*self, Part::Never);
        let last = Last(*self);
        write!(
            f,
            ",\"ends\":{ends},\"not\":{required},\"reached\":{never}{last}"
        )
    }
}

/// The answers as one line, by how far the exploration was to go, with the limit that it met, if
/// that is known.
pub fn answers_json(
    alloc: Global,
    answers: &Answers,
    reach: Reach,
    limit: Option<&LimitMet>,
) -> Result<String, AllocError>
    ensures line { IfOk result (λ line.
        string_bytes line ≡ answers_line answers.now reach (option_copied limit.entry)) }
{
    let found = &answers.exploration;
    let search = Quoted(extent_of(found.complete));
    let limits = limits_json(found, reach);
    let limit = Limit(limit);
    let visited = Visited(reach.walks, found.worlds);
    let rest = Found { alloc, answers };
    format!(in alloc; "{{\"search\":{search},\"limits\":{limits},\"limit\":{limit},{visited}{rest}")
}

/// What conditions rest on and is never there, each as it is told.
#[derive(Clone, Copy)]
struct Bases<'a> {
    alloc: Global,
    bases: &'a [Basis],
}

impl Values for Bases<'_> {
    ghost values = { λ b. bases_told b.bases.now };

    fn count(&self) -> usize {
        self.bases.len()
    }

    #[tactic(auto, using(crate::proofs::ValueLemmas::value_at))]
    fn write<W: fmt::Write>(&self, place: usize, f: &mut fmt::Formatter<W>) -> fmt::Result {
        let basis = &self.bases[place];
        let told = format!(in self.alloc; "{basis}")?;
        write!(f, "{}", Text(told.as_bytes()))
    }
}

/// A lasso, or `null`.
#[derive(Clone, Copy)]
struct Cycle<'a>(pub &'a Option<Lasso>);

impl fmt::Display for Cycle<'_> {
    ghost output = { λ r. Some (lasso_json r.0.now) };

    #[tactic(auto, unfolding(crate::specs::Members::cycle_json))]
    fn fmt<W: fmt::Write>(&self, f: &mut fmt::Formatter<W>) -> fmt::Result {
        let Some(lasso) = self.0 else {
            return write!(f, "null");
        };
        let schedule = StepsValue(Steps(lasso.schedule.blocks()));
        let round = StepsValue(Steps(lasso.steps.blocks()));
        write!(f, "{{\"schedule\":{schedule},\"round\":{round}}}")
    }
}

/// Whether all is as it has to be, where something has to be so and that is known.
fn holds_name(judged: bool, failure: Option<Failure>) -> &'static str
    ensures text { result.now ≡ holds_json judged failure }
{
    match failure {
        _ if !judged => "null",
        None => "true",
        Some(Failure::Incomplete) => "null",
        Some(_) => "false",
    }
}

/// The schedules that show that something isn't so, as an array.
#[derive(Clone, Copy)]
struct Schedules<'a>(Option<Steps<'a>>, Steps<'a>);

impl fmt::Display for Schedules<'_> {
    ghost output = { λ s. Some (schedules_json (option_map (λ first. first.0.now) s.0) s.1.0.now) };

    #[tactic(auto, using(crate::proofs::ValueLemmas::one_listed, crate::proofs::ValueLemmas::two_listed))]
    fn fmt<W: fmt::Write>(&self, f: &mut fmt::Formatter<W>) -> fmt::Result {
        let steps = StepsValue(self.1);
        match self.0 {
            Some(first) => {
                let first = StepsValue(first);
                write!(f, "[{first},{steps}]")
            }
            None => write!(f, "[{steps}]"),
        }
    }
}

#[derive(Clone, Copy)]
struct Unmets<'a>(&'a [Unmet<'a>]);

impl Values for Unmets<'_> {
    ghost values = { λ u. map (λ unmet. unmet_json (unmet_view unmet)) u.0.now };

    fn count(&self) -> usize {
        self.0.len()
    }

    #[tactic(auto, using(crate::proofs::ValueLemmas::value_at), unfolding(crate::specs::Findings::unmet_json))]
    fn write<W: fmt::Write>(&self, place: usize, f: &mut fmt::Formatter<W>) -> fmt::Result {
        let unmet = self.0[place];
        let asked = Text(unmet.asked.as_bytes());
        if unmet.never {
            let schedule = StepsValue(unmet.steps);
            return write!(f, "{{\"never\":{asked},\"schedule\":{schedule}}}");
        }
        let schedules = Schedules(unmet.first, unmet.steps);
        write!(f, "{{\"require\":{asked},\"schedules\":{schedules}}}")
    }
}

/// All that isn't so of what is told together, as an array.
#[derive(Clone, Copy)]
struct UnmetArray<'a>(pub Found<'a>, pub Part);

impl fmt::Display for UnmetArray<'_> {
    ghost output = { λ u. Some
        (array_json (map unmet_json (unmets_of u.1 u.0.answers.now))) };

    fn fmt<W: fmt::Write>(&self, f: &mut fmt::Formatter<W>) -> fmt::Result {
        let Found { alloc, answers } = self.0;
        let ends = answers.exploration.ends.as_slice();
        let unmets = unmets_in(alloc, &answers.answers, ends, self.1)?;
        write!(f, "{}", Array(Unmets(&unmets)))
    }
}
