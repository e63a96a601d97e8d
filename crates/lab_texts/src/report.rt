//! The profile and the verdict of a world, and the report on it.
ghost use Rattle.std.specs.Prelude.{◌≡◌, IfOk, string_bytes};
ghost use Rattle.lab_texts.specs.Texts.{profile_text};
ghost use Rattle.lab_texts.specs.Verdicts.{verdict_text};
ghost use Rattle.lab_texts.specs.Reports.{report_text};

use crate::output::OutputLine;
use crate::status::StatusLine;
use lab_sched::World;
use std::alloc::{AllocError, Global};

/// The profile that the processes have, as `profile a`.
pub fn profile_text(alloc: Global, world: &World) -> Result<String, AllocError>
    ensures text { IfOk result (λ s. string_bytes s ≡ profile_text world.now) }
{
    let profile = world.profile();
    format!(in alloc; "profile {profile}\n")
}

/// The verdict line.
pub fn verdict_text(alloc: Global, world: &World) -> Result<String, AllocError>
    ensures text { IfOk result (λ s. string_bytes s ≡ verdict_text world.now) }
{
    let verdict = world.verdict().word();
    format!(in alloc; "verdict {verdict}\n")
}

/// The report: the status line and the output line of each process, and then the verdict line.
#[tactic(auto, using(crate::proofs::RowLemmas::texts_below_none, crate::proofs::RowLemmas::texts_below_next), unfolding(crate::specs::Reports::report_text))]
pub fn report_text(alloc: Global, world: &World) -> Result<String, AllocError>
    ensures text { IfOk result (λ s. string_bytes s ≡ report_text world.now) }
{
    let mut text = String::new(alloc);
    for pid in 0..world.count() {
        let status = StatusLine(world, pid);
        let output = OutputLine(world, pid);
        write!(text, "{status}{output}")?;
    }
    let verdict = verdict_text(alloc, world)?;
    write!(text, "{verdict}")?;
    Ok(text)
}
