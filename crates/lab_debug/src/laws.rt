//! What is true of every session of the debugger. The functions do nothing: each one's contract is a law of the definitions in
//! specs/.
ghost use Rattle.lab_debug.specs.Laws.{StepsLeadFirst, StepsLeadOn, BackUndoes, BackToTheStart};

/// The steps that a session keeps lead from its start to its world: before the first line of a script, and after the last.
pub fn steps_lead_to_the_world()
    ensures first { StepsLeadFirst }
    ensures on { StepsLeadOn }
{}

/// `back N` leads to the session before steps of which N had an effect: the world, the breaks, the watches and the sources are
/// those of the session then, and of its steps those with an effect are kept. Where fewer had one it leads to the start.
#[tactic(auto, using(crate::proofs::LawLemmas::back_undoes, crate::proofs::LawLemmas::back_to_the_start))]
pub fn back_undoes_the_last_steps()
    ensures law { BackUndoes }
    ensures start { BackToTheStart }
{}
