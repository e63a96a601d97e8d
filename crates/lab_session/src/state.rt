//! The state of a session: the world that it began with, the steps that were taken, and the world after them.
ghost use Rattle.std.specs.Prelude.{◌≡◌, ◌↔◌, Err, IfOk, OnOk, OnErr, [], length, option_map};
ghost use Rattle.lab_sched.specs.Schedules.{steps_of};
ghost use Rattle.lab_sched.specs.Starts.{IsCount, fresh};
ghost use Rattle.lab_sched.specs.declared.process.FreshFault.TheVariants.{Count};
ghost use Rattle.lab_session.specs.Marks.{with_mark, without_mark, of_kind};
ghost use Rattle.lab_session.specs.Watches.{watched_words};
ghost use Rattle.lab_session.specs.Stops.{steps_to_stop, stopped_process, steps_until};
ghost use Rattle.lab_session.specs.Listings.{listing_of, has_labels};
ghost use Rattle.lab_session.specs.Sessions.{session_from, with_marks, effective, after_steps, back, state_of};
ghost use Rattle.lab_sched.specs.Held.{IsHeld, process_view};

use crate::marks::{Mark, MarkKind, break_at, is_at_break, of_kind, with_mark, without_mark};
use crate::stepping::{Watched, advance, first_steps, step_count, watched_words};
use ipc_traps::Asked;
use lab_sched::{
    Block, Fresh, FreshFault, Process, Program, Schedule, World, ask_call, begin_wait,
};
use lab_sources::Listing;
use lc3_table::Profile;
use std::alloc::{AllocError, Global};

/// A session of the debugger. It keeps the world that it began with and the steps that were taken,
/// so that it can go back, and the sources of the programs that were given as such.
pub struct Session {
    listings: Vec<Option<Listing>>,
    help: &'static str,
    marks: Vec<Mark>,
    start: World,
    taken: Vec<Block>,
    world: World,
}

impl Drop for Session {
    fn drop(self) {
        let Session {
            listings: _,
            help: _,
            marks: _,
            start: _,
            taken: _,
            world: _,
        } = self;
    }
}

/// The listing of the source of process `pid`, where it was given as one.
pub fn listing_in(listings: &[Option<Listing>], pid: usize) -> Option<&Listing>
    ensures listing { option_map (λ l. l.now) result ≡ listing_of listings.now pid }
{
    listings.get(pid)?.as_ref()
}

impl Session {
    /// The session of 1 to 64 programs, process 0 with the first of them, on machines of this
    /// profile, before the first step. The listings are those of the programs' sources in the same
    /// order; a program without one is an object file. `help` is what the command of that name writes.
    pub fn new(
        alloc: Global,
        programs: Vec<Program>,
        listings: Vec<Option<Listing>>,
        help: &'static str,
        profile: Profile,
    ) -> Result<Session, FreshFault>
        ensures count { (result ≡ Err Count) ↔ (¬ IsCount (length programs.items)) }
        ensures start { IfOk result
            (λ s. state_of s
            ≡ session_from listings.items help.now (fresh profile programs.items)) }
    {
        let fresh = Fresh::new(alloc, programs.as_slice(), profile)?;
        let mut session = Session::of_world(alloc, World::from(fresh), help)?;
        session.listings = listings;
        Ok(session)
    }

    /// The session of a world, without sources, before the first step. `help` is what the command of
    /// that name writes.
    #[tactic(auto, unfolding(lab_sched::specs::Schedules::steps_of))]
    pub fn of_world(alloc: Global, world: World, help: &'static str) -> Result<Session, AllocError>
        ensures start { IfOk result (λ s. state_of s ≡ session_from [] help.now world) }
    {
        let start = copy_of_world(alloc, &world)?;
        Ok(Session {
            listings: Vec::new(alloc),
            help,
            marks: Vec::new(alloc),
            start,
            taken: Vec::new(alloc),
            world,
        })
    }

    /// The world that the steps lead to, where the session is over.
    pub fn into_world(self) -> World
        ensures world { result ≡ (state_of self).world }
    {
        let Session {
            listings: _,
            help: _,
            marks: _,
            start: _,
            taken: _,
            world,
        } = self;
        world
    }

    /// The world that the steps lead to.
    pub fn world(&self) -> &World
        ensures world { result.now ≡ (state_of self.now).world }
    {
        &self.world
    }

    /// What `help` writes.
    pub fn help(&self) -> &'static str
        ensures help { result.now ≡ (state_of self.now).help }
    {
        self.help
    }

    /// Whether a program was given as a source, so that labels are read.
    pub fn has_labels(&self) -> bool
        ensures value { result ≡ has_labels (state_of self.now).listings }
    {
        self.listings.iter().any(|listing| listing.is_some())
    }

    /// The listing of the source of process `pid`, where it was given as one.
    pub fn listing(&self, pid: usize) -> Option<&Listing>
        ensures listing { option_map (λ l. l.now) result
            ≡ listing_of (state_of self.now).listings pid }
    {
        listing_in(&self.listings, pid)
    }

    /// The listings of the processes' sources.
    pub fn listings(&self) -> &[Option<Listing>]
        ensures listings { result.now ≡ (state_of self.now).listings }
    {
        self.listings.as_slice()
    }

    /// The breaks and behind them the watches, each in the order of process and address.
    pub fn marks(&self) -> &[Mark]
        ensures marks { result.now ≡ (state_of self.now).marks }
    {
        self.marks.as_slice()
    }

    /// The marks of a kind.
    pub fn marks_of(&self, alloc: Global, kind: MarkKind) -> Result<Vec<Mark>, AllocError>
        ensures marks { IfOk result
            (λ found. found.items ≡ of_kind kind (state_of self.now).marks) }
    {
        of_kind(alloc, &self.marks, kind)
    }

    /// The watches with the words that are there.
    pub fn watched_words(&self, alloc: Global) -> Result<Vec<Watched>, AllocError>
        ensures words { IfOk result (λ found. found.items
            ≡ watched_words (state_of self.now).marks (state_of self.now).world) }
    {
        watched_words(alloc, &self.world, &self.marks)
    }

    /// Sets a mark, which may be there already.
    pub fn set_mark(&mut self, alloc: Global, mark: Mark) -> Result<(), AllocError>
        ensures state { OnOk result (state_of self.new
            ≡ with_marks (state_of self.old) (with_mark (state_of self.old).marks mark)) }
    {
        self.marks = with_mark(alloc, &self.marks, mark)?;
        Ok(())
    }

    /// Takes a mark off.
    pub fn clear_mark(&mut self, alloc: Global, mark: Mark) -> Result<(), AllocError>
        ensures state { OnOk result (state_of self.new
            ≡ with_marks (state_of self.old) (without_mark (state_of self.old).marks mark)) }
    {
        self.marks = without_mark(alloc, &self.marks, mark)?;
        Ok(())
    }

    /// Takes the steps of blocks, up to one with an effect that leads its process to a break or
    /// changes a watched word; with how many steps were taken, and the process that stopped, if one
    /// did.
    #[tactic(auto, using(crate::proofs::BlockLemmas::steps_both))]
    pub fn play(
        &mut self,
        alloc: Global,
        blocks: &[Block],
    ) -> Result<(u64, Option<usize>), AllocError>
        ensures state { OnOk result (state_of self.new ≡ after_steps (state_of self.old)
            (steps_to_stop (state_of self.old).marks (state_of self.old).world (steps_of blocks.now))) }
        ensures count { IfOk result (λ played. played.0 ≡ length
            (steps_to_stop (state_of self.old).marks (state_of self.old).world (steps_of blocks.now))) }
        ensures stopped { IfOk result (λ played. played.1 ≡ stopped_process
            (state_of self.old).marks (state_of self.old).world (steps_of blocks.now)) }
    {
        let taken = advance(alloc, &mut self.world, &self.marks, blocks)?;
        self.taken.extend_from_slice(&taken.steps)?;
        let count = step_count(&taken.steps)?;
        Ok((count, taken.stopped))
    }

    /// Takes at most so many steps of a process, up to an address; none where it is there already.
    #[tactic(auto, using(crate::proofs::BlockLemmas::steps_both, crate::proofs::BlockLemmas::one_block))]
    pub fn step_until(
        &mut self,
        alloc: Global,
        pid: usize,
        address: u16,
        count: u32,
    ) -> Result<(), AllocError>
        ensures state { OnOk result (state_of self.new ≡ after_steps (state_of self.old)
            (steps_until pid address (state_of self.old).world count)) }
    {
        let goal = break_at(pid, address);
        if is_at_break(&self.world, &[goal], pid) {
            return Ok(());
        }
        let taken = advance(alloc, &mut self.world, &[goal], &[Block { pid, count }])?;
        self.taken.extend_from_slice(&taken.steps)
    }

    /// Takes the steps of a schedule.
    #[tactic(auto, using(crate::proofs::BlockLemmas::steps_both))]
    pub fn run(&mut self, schedule: &Schedule) -> Result<(), AllocError>
        ensures state { OnOk result
            (state_of self.new ≡ after_steps (state_of self.old) (steps_of schedule.now)) }
    {
        self.world.run(schedule).map_err(|_| AllocError)?;
        self.taken.extend_from_slice(schedule.blocks())
    }

    /// The steps that had an effect. The steps are taken again from the start.
    #[tactic(auto, using(crate::proofs::PlayLemmas::no_marks_no_stop))]
    pub fn effective(&self, alloc: Global) -> Result<Vec<Block>, AllocError>
        ensures steps { IfOk result (λ kept. steps_of kept.items
            ≡ effective (state_of self.now).start (state_of self.now).steps) }
    {
        let mut world = copy_of_world(alloc, &self.start)?;
        let taken = advance(alloc, &mut world, &[], self.taken.as_slice())?;
        Ok(taken.effective)
    }

    /// Goes back before the last `count` steps that had an effect, or to the start where there are
    /// fewer; with how many are left. The steps are taken again from the start. Where memory is
    /// refused nothing has changed.
    #[tactic(auto, using(crate::proofs::PlayLemmas::no_marks_no_stop))]
    pub fn back(&mut self, alloc: Global, count: u32) -> Result<u64, AllocError>
        ensures state { OnOk result (state_of self.new ≡ back count (state_of self.old)) }
        ensures left { IfOk result (λ left. left ≡ length (state_of self.new).steps) }
        ensures err { OnErr result (self.new ≡ self.old) }
    {
        let kept = self.effective(alloc)?;
        let left = step_count(&kept)?.saturating_sub(u64::from(count));
        let taken = first_steps(alloc, &kept, left)?;
        let mut world = copy_of_world(alloc, &self.start)?;
        advance(alloc, &mut world, &[], &taken)?;
        self.taken = taken;
        self.world = world;
        Ok(left)
    }
}

/// A copy of a process. One that waits asks once more, and waits again.
fn copy_of(alloc: Global, process: &Process) -> Result<Process, AllocError>
    ensures same { IfOk result (λ copy. process_view copy ≡ process_view process.now) }
    ensures held { IfOk result (λ copy. IsHeld copy) }
{
    match process {
        Process::Running(running) => Ok(Process::Running(running.copy(alloc)?)),
        Process::Waiting(waiting, call) => {
            let vector = waiting.vector();
            let mut copy = Process::Running(waiting.copy(alloc)?.back());
            let Asked::Kernel(asked) = ask_call(alloc, &mut copy, vector)? else {
                return Err(AllocError);
            };
            if asked != *call {
                return Err(AllocError);
            }
            begin_wait(&mut copy, vector, asked);
            Ok(copy)
        }
        Process::Ended(ended) => Ok(Process::Ended(ended.copy(alloc)?)),
    }
}

/// A copy of a world.
pub fn copy_of_world(alloc: Global, world: &World) -> Result<World, AllocError>
    ensures same { IfOk result (λ copy. copy ≡ world.now) }
{
    let count = world.count();
    let mut copies = Vec::with_capacity(alloc, count)?;
    for pid in 0..count {
        let Some(process) = world.process(pid) else {
            unreachable!();
        };
        let copy = copy_of(alloc, process)?;
        copies.push(copy)?;
    }
    let kernel = world.kernel().copy(alloc)?;
    // The processes of a world have one profile.
    let _ = world.profile();
    Ok(World::join(copies, kernel))
}
