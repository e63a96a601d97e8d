//! Random walks through the interleavings, in place of every one of them.
ghost use Rattle.std.specs.Prelude.{◌≡◌, None, false, IfOk, [], All};
ghost use Rattle.lab_sched.specs.Starts.{AreStarts, initial_world};
ghost use Rattle.lab_worlds.specs.Ends.{IsEnd, AreEnds};
ghost use Rattle.lab_sched.specs.Held.{IsHeld};

use crate::ends::{End, end_of};
use crate::exploration::{Exploration, ExploreFault, Limits, Met, Observer};
use crate::random_walker::{Generator, RandomWalker};
use crate::walking::Walk;
use lab_sched::{Fresh, Process, Schedule};
use std::alloc::Global;

/// So many walks, with the random numbers of a seed.
#[derive(Clone, Copy, Debug, PartialEq, Eq)]
pub struct Walks {
    pub count: u32,
    pub seed: u32,
}

fn end_along(alloc: Global, processes: &[Process], schedule: &Schedule) -> Result<End, ExploreFault>
    requires starts { AreStarts processes.now }
    ensures end { IfOk result (λ e. IsEnd (initial_world processes.now) e) }
{
    let mut walk = Walk::start(alloc, processes)?;
    for block in schedule.blocks() {
        walk.go_on(block.pid, block.count)?;
    }
    end_of(walk)
}

/// Takes walks through the interleavings of a laboratory. A walk goes from world at calls to world at
/// calls: of the processes whose step is effective a random number chooses one, which takes its step
/// and then its local steps up to its next call, until no process has such a step. A walk breaks off
/// that isn't there in the last of the worlds that it may visit, or whose process takes more local
/// steps than it may. The ends to which walks come are told in the order in which they were found,
/// each once; each has a schedule of effective steps that leads to it. The number of worlds is that of
/// the walks which were begun: fewer than asked for, where the ends take more memory than they may,
/// or memory is refused. Of interleavings that no walk took nothing is told, and of no condition.
pub fn walk_randomly<O: Observer>(
    alloc: Global,
    fresh: Fresh,
    limits: Limits,
    walks: Walks,
    observer: &mut O,
) -> Result<Exploration, ExploreFault>
    ensures sound { IfOk result (λ found. AreEnds fresh found.ends.items) }
    ensures open { IfOk result (λ found. found.complete ≡ false) }
    ensures none { IfOk result (λ found. found.lasso ≡ None) }
{
    let processes = fresh.processes();
    let mut gathering = Gathering {
        ends: Vec::new(alloc),
        digests: Vec::new(alloc),
        size: 0,
        begun: 0,
    };
    let met = match gathering.take_all(&processes, limits, walks, observer) {
        Ok(()) => None,
        Err(ExploreFault::NoMemory) => Some(Met::Refused),
        Err(fault) => return Err(fault),
    };
    Ok(Exploration {
        ends: gathering.ends,
        reached: Vec::new(alloc),
        lasso: None,
        fair: false,
        worlds: gathering.begun,
        complete: false,
        met,
    })
}

/// The ends to which walks came, each once, in the order in which they were found, with a digest of
/// each; about how many bytes they take; and how many walks were begun.
#[derive(Drop)]
pub struct Gathering {
    pub ends: Vec<End>,
    digests: Vec<u64>,
    size: usize,
    pub begun: u32,
}

impl Gathering {
    fn add(
        &mut self,
        alloc: Global,
        processes: &[Process],
        walker: &mut RandomWalker,
    ) -> Result<(), ExploreFault>
        requires starts { AreStarts processes.now }
        ensures ends { AreEnds (initial_world processes.now) self.old.ends.items
            → AreEnds (initial_world processes.now) self.new.ends.items }
    {
        let digest = walker.digest();
        if self.digests.iter().zip(&self.ends).any(|(known, end)| *known == digest
            && walker.is_at(&end.world))
        {
            return Ok(());
        }
        walker.finish()?;
        self.digests.push(digest)?;
        let end = end_along(alloc, processes, &walker.schedule)?;
        self.size = self.size.saturating_add(end.size());
        self.ends.push(end)?;
        Ok(())
    }

    /// Leads a walk to its end, and adds that, if it comes there.
    fn take(
        &mut self,
        alloc: Global,
        processes: &[Process],
        limits: Limits,
        generator: &mut Generator,
    ) -> Result<(), ExploreFault>
        requires starts { AreStarts processes.now }
        requires held { All IsHeld processes.now }
        ensures ends { AreEnds (initial_world processes.now) self.old.ends.items
            → AreEnds (initial_world processes.now) self.new.ends.items }
    {
        let mut walker = RandomWalker::new(alloc, processes)?;
        if !walker.begin(alloc, limits.steps)? {
            return Ok(());
        }
        if walker.walk_at_random(alloc, generator, limits.worlds, limits.steps)? {
            self.add(alloc, processes, &mut walker)?;
        }
        Ok(())
    }

    /// Takes walks, as long as their ends don't take more memory than they may.
    pub(crate) fn take_all<O: Observer>(
        &mut self,
        processes: &[Process],
        limits: Limits,
        walks: Walks,
        observer: &mut O,
    ) -> Result<(), ExploreFault>
        requires starts { AreStarts processes.now }
        requires held { All IsHeld processes.now }
        ensures ends { AreEnds (initial_world processes.now) self.old.ends.items
            → AreEnds (initial_world processes.now) self.new.ends.items }
    {
        let alloc = *self.ends.allocator();
        let mut generator = Generator::new(walks.seed);
        for begun in 0..walks.count {
            if self.size > limits.memory {
                return Ok(());
            }
            observer.see(begun as usize, (walks.count - begun) as usize);
            self.begun = begun + 1;
            self.take(alloc, processes, limits, &mut generator)?;
        }
        Ok(())
    }
}
