//! Laws over the definitions alone: of schedules and their texts, of effective steps, and of
//! verdicts.
ghost use Rattle.lab_sched.specs.ScheduleLaws.{ReadsBack, StepsTell, FirstBadBlock, FirstTooLong, ReadSteps};
ghost use Rattle.lab_sched.specs.Execution.{Commute};
ghost use Rattle.lab_sched.specs.Verdicts.{VerdictWorkedOut};

/// A schedule's text reads back as the schedule.
#[tactic(auto, using(crate::proofs::ScheduleReadsBack::reads_back_lem))]
pub fn reads_back()
    ensures law { ReadsBack }
{}

/// Schedules of the same steps are equal.
#[tactic(auto, using(crate::proofs::ScheduleJoins::steps_tell_lem))]
pub fn steps_tell()
    ensures law { StepsTell }
{}

/// `BadBlock` comes exactly where a word isn't a block, and names the first.
pub fn first_bad_block()
    ensures law { FirstBadBlock }
{}

/// `TooLong` comes only where each word is a block, and names the first with which there are too
/// many steps.
#[tactic(auto, using(crate::proofs::ScheduleFaults::first_too_long_lem))]
pub fn first_too_long()
    ensures law { FirstTooLong }
{}

/// A text is read as the steps that its blocks write out.
pub fn read_steps()
    ensures law { ReadSteps }
{}

/// From one world, effective steps with equal counts per process and equal entries lead to equal
/// worlds.
#[tactic(auto, using(crate::proofs::Commutes::commute))]
pub fn commute_law()
    ensures law { Commute }
{}

/// The verdict that is worked out of a world's processes is its verdict.
#[tactic(auto, using(crate::proofs::VerdictLemmas::verdict_worked_out))]
pub fn verdict_law()
    ensures law { VerdictWorkedOut }
{}
