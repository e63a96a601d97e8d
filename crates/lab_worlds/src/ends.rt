//! Worlds at rest, and what led there.
ghost use Rattle.std.specs.Prelude.{◌≡◌, false, IfOk};
ghost use Rattle.lab_sched.specs.Worlds.{WorldState};
ghost use Rattle.lab_sched.specs.declared.verdict.Verdict.TheVariants.{Open};
ghost use Rattle.lab_worlds.specs.Walked.{IsWalk};
ghost use Rattle.lab_worlds.specs.Ends.{IsEnd};

use crate::exploration::ExploreFault;
use crate::walking::Walk;
use lab_sched::{Schedule, Verdict, World};
use std::mem::size_of;

/// About how many bytes a block of a schedule takes, with its text.
const BLOCK: usize = 32;

/// A world at rest, how it stands, and a schedule that leads to it, with the number of its calls.
#[derive(Drop)]
pub struct End {
    pub world: World,
    pub schedule: Schedule,
    pub verdict: Verdict,
    pub calls: u32,
}

impl End {
    /// About how many bytes it takes, with its report and the texts of its schedule.
    pub fn size(&self) -> usize {
        let mut size = size_of::<End>()
            .saturating_add(self.world.kernel().size())
            .saturating_add(BLOCK.saturating_mul(self.schedule.blocks().len()));
        for pid in 0..self.world.count() {
            if let Some(process) = self.world.process(pid) {
                let output = process.machine().output().len();
                size = size
                    .saturating_add(process.machine().size())
                    .saturating_add(output.saturating_mul(3));
            }
        }
        size
    }
}

/// The end that a walk came to.
pub fn end_of(walk: Walk) -> Result<End, ExploreFault>
    ensures end { IfOk result (λ e. (start : WorldState) → IsWalk start walk → IsEnd start e) }
    ensures world { IfOk result (λ e. e.world ≡ walk.world) }
    ensures calls { IfOk result (λ e. e.calls ≡ walk.calls) }
{
    let verdict = walk.world.verdict();
    if let Verdict::Open = verdict {
        return Err(ExploreFault::Unvouched);
    }
    Ok(End {
        world: walk.world,
        schedule: walk.schedule,
        verdict,
        calls: walk.calls,
    })
}
