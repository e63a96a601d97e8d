//! Laws over the definitions alone.
ghost use Rattle.lab_worlds.specs.Closed.{RestsAlike, HoldsEveryEnd};
ghost use Rattle.lab_worlds.specs.Alikes.{StepsAlike, OneVerdict};
ghost use Rattle.lab_worlds.specs.Unwaiting.{StepsUnaffectedByWaits};
ghost use Rattle.lab_worlds.specs.Operands.{StepsByOperand, StepsSettled};

/// A process that waits does next what it would do if it stood before its call.
#[tactic(auto, using(crate::proofs::UnwaitingWorlds::unwaiting_step))]
pub fn unwaiting_step()
    ensures law { StepsUnaffectedByWaits }
{}

/// Worlds at rest that are alike but for who waits are alike.
#[tactic(auto, using(crate::proofs::UnwaitingWorlds::rests_alike))]
pub fn worlds_at_rest_are_alike()
    ensures law { RestsAlike }
{}

/// A list of worlds that has the advance of the start, and that of each step by which a process goes
/// on from one of its worlds, has every world at rest that any steps lead to, but for who waits and
/// the numbers of places.
#[tactic(auto, using(crate::proofs::HeldAdvances::holds_every_end))]
pub fn closed_lists_hold_every_end()
    ensures law { HoldsEveryEnd }
{}

/// Worlds with the same processes over kernels that are alike make the same steps, and stay so.
#[tactic(auto, using(crate::proofs::AlikeWorlds::steps_alike))]
pub fn alike_worlds_step_alike()
    ensures law { StepsAlike }
{}

/// Worlds with the same processes over kernels that are alike have the same verdict.
#[tactic(auto, using(crate::proofs::AlikeWorlds::one_verdict))]
pub fn alike_worlds_have_one_verdict()
    ensures law { OneVerdict }
{}

/// A step at a call that removes no object depends on the tables of its process and on what is in the
/// place that it works on alone, and changes nothing else; and each step leaves a kernel settled.
#[tactic(auto, using(crate::proofs::StepsOnObjects::steps_settled))]
pub fn calls_on_objects_step_alike()
    ensures law { StepsByOperand }
    ensures settled { StepsSettled }
{}
