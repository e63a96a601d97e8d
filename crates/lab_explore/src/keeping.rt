//! What must never be so of one process by itself: a reduced search shows whether it ever is.
ghost use Rattle.std.specs.Prelude.{All, IsTrue};
ghost use Rattle.lab_explore.specs.Private.Keeping.{IsOfOne, IsOfOneProcess, KeepsReduction};

use lab_conditions::{Condition, Never, Part};
use lab_search::both;

/// Whether a part says of one process how it stands.
fn is_of_one(part: &Part) -> bool
    ensures yes { IsTrue result → IsOfOne part.now }
{
    match part {
        Part::Of { .. } => true,
        Part::MoreThan { number, .. } => *number == 0,
        Part::Semaphore { .. } | Part::Queue { .. } => false,
    }
}

/// Whether a condition says of one process how it stands, whatever the kernel.
fn is_of_one_process(condition: &Condition) -> bool
    ensures yes { IsTrue result → IsOfOneProcess condition.now }
{
    match condition.parts.as_slice() {
        [part] => both(is_of_one(part), !condition.needs_kernel()),
        _ => false,
    }
}

/// Whether a reduced search shows whether this ever is so, since what one process does decides it.
fn keeps_reduction(never: &Never) -> bool
    ensures yes { IsTrue result → KeepsReduction never.now }
{
    match never {
        Never::Holds(condition) => is_of_one_process(condition),
        Never::Lost => false,
        Never::Refused(_) => true,
    }
}

/// Whether a reduced search shows whether any of these ever is so.
pub(crate) fn keep_reduction(nevers: &[Never]) -> bool
    ensures yes { IsTrue result → All KeepsReduction nevers.now }
{
    nevers.iter().all(|never| keeps_reduction(never))
}
