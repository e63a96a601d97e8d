//! Copies of worlds.
ghost use Rattle.std.specs.Prelude.{◌≡◌, Some, IfOk, slice_get};
ghost use Rattle.lab_sched.specs.Held.{process_view, IsHeld};

use lab_sched::{Process, World};
use lab_worlds::{ExploreFault, waits};
use std::alloc::Global;

/// A copy of a process of a world, which must be there and not wait.
#[tactic(auto, using(crate::proofs::WorldCopies::held_if))]
fn copy_at(alloc: Global, world: &World, pid: usize) -> Result<Process, ExploreFault>
    ensures copy { IfOk result (λ copy.
        slice_get world.now.processes pid ≡ Some (process_view copy)) }
    ensures held { IfOk result (λ copy. IsHeld copy) }
{
    let Some(process) = world.process(pid) else {
        return Err(ExploreFault::Unvouched);
    };
    if waits(process) {
        return Err(ExploreFault::Unvouched);
    }
    Ok(process.copy(alloc)?)
}

/// A copy of a world in which no process waits.
pub fn copy_of(alloc: Global, world: &World) -> Result<World, ExploreFault>
    ensures same { IfOk result (λ copy. copy ≡ world.now) }
{
    let _profile = world.profile();
    let mut processes = Vec::with_capacity(alloc, world.count())?;
    for pid in 0..world.count() {
        let process = copy_at(alloc, world, pid)?;
        processes.push(process)?;
    }
    let kernel = world.kernel().copy(alloc)?;
    Ok(World::join(processes, kernel))
}
