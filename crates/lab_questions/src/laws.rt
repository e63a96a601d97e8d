//! Laws over the definitions alone.
ghost use Rattle.lab_questions.specs.Laws.{OneText, EachToldOnce};

use lab_worlds::laws::alike_worlds_have_one_verdict;

/// Of worlds with the same processes over kernels that are alike the same is told: the report, what the
/// processes have written, and the messages that are left.
#[tactic(auto, using(crate::proofs::OneText::one_text))]
pub fn alike_worlds_have_one_text()
    ensures law { OneText }
{
    alike_worlds_have_one_verdict();
}

/// Each text of some ends is told, no text is told twice, and nothing else is told.
#[tactic(auto, using(crate::proofs::ToldEnds::each_told_once))]
pub fn each_text_is_told_once()
    ensures law { EachToldOnce }
{}
