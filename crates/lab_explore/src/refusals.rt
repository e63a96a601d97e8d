//! Calls that are refused, by the kernel or by the process itself.
ghost use Rattle.std.specs.Prelude.{◌≡◌, ◌<◌, ℕ, Some, None, IfOk, IsTrue, length, slice_get, false, Option};
ghost use Rattle.lab_sched.specs.Worlds.{Process as Seen, WorldState};
ghost use Rattle.lab_sched.specs.Held.{process_view, IsHeld, local_told, HasStepped};
ghost use Rattle.lab_search.specs.Stored.{IsAt};
ghost use Rattle.lab_explore.specs.Visits.{start_of, IsVisited};
ghost use Rattle.lab_explore.specs.declared.refusals.Found.TheVariants.{Calm};
ghost use Rattle.lab_explore.specs.Private.Judged.{IsCalmAt, BeginsQuietly, NoneRefuses, IsQuiet, IsCalm};
ghost use Rattle.ipc_traps.specs.Asked.{Request};
ghost use Rattle.lab_states.specs.Depths.{AreDepths};

use crate::reached::{Turn, Visited};
use ipc_kernel::Kernel;
use lab_conditions::Refusal;
use lab_sched::{Process, Stepped, take_step};
use lab_search::Store;
use lab_states::{are_near, depth_of};
use lab_worlds::{ExploreFault, waits};
use std::alloc::Global;

fn alone_at(store: &Store, alloc: Global, at: usize, pid: u32) -> Result<Alone, ExploreFault>
    ensures held { IfOk result (λ alone. IsHeld alone.process) }
    ensures process { IfOk result (λ alone. alone.pid < length alone.kernel.processes) }
    ensures pid { IfOk result (λ alone. alone.pid ≡ pid) }
    ensures there { IfOk result (λ alone. (w : WorldState) (s : Seen) → IsAt store.now at w
        → slice_get w.processes pid ≡ Some s
        → (alone.kernel ≡ w.kernel) × (process_view alone.process ≡ s)) }
{
    let (kernel, state) = store.places(at, pid).ok_or(ExploreFault::Unvouched)?;
    let process = store
        .states
        .get(alloc, state as usize)?
        .ok_or(ExploreFault::Unvouched)?;
    let kernel = store
        .kernels
        .get(alloc, kernel)?
        .ok_or(ExploreFault::Unvouched)?;
    make_alone(kernel, process, pid as usize)
}

impl Visited {
    /// What comes of what was found: not everything is looked at only where the search isn't complete.
    fn turn_of(
        &self,
        found: Found,
        row: Option<usize>,
        pid: usize,
    ) -> Result<Option<Turn>, ExploreFault>
        ensures calm { IfOk result (λ turn. turn ≡ None → IsTrue self.now.complete → found ≡ Calm) }
    {
        match found {
            Found::Calm => Ok(None),
            Found::Behind(before) => Ok(Some(Turn { row, pid, before })),
            Found::More if self.complete => Err(ExploreFault::Unvouched),
            Found::More => Ok(None),
        }
    }

    /// Whether no call is refused so in the step of process `pid` from the world of a row and in all its
    /// local steps then, as far as the search knows their errors.
    fn is_calm(&self, refusal: &Refusal, at: usize, pid: u32) -> bool
        requires visited { IsVisited self.now }
        ensures calm { IsTrue result → IsTrue self.now.complete
            → IsCalmAt refusal.now self.now.store at pid }
    {
        match self.store.known_steps(at, pid) {
            Some(steps) => !steps.errors.may_be(refusal),
            None => false,
        }
    }

    /// How many local steps of process `pid` are looked at after its step from the world of a row: as many
    /// as are known. Of a step that a reduced search left out, and that it took from another row, all up
    /// to the next call.
    fn steps_to_look_at(&self, at: usize, pid: u32) -> u32 {
        let known = self.store.known_steps(at, pid);
        match known {
            Some(steps) => steps.taken,
            None if self.complete => u32::MAX,
            None => 0,
        }
    }

    /// The refused call of process `pid` from the world of a row on, up to its next call, if its calls
    /// are meant. Its steps are taken again only if one of them may be refused so, as far as is known.
    fn refusal_of(
        &self,
        alloc: Global,
        refusal: &Refusal,
        at: usize,
        pid: u32,
    ) -> Result<Option<Turn>, ExploreFault>
        requires visited { IsVisited self.now }
        ensures calm { IfOk result (λ turn. turn ≡ None → IsTrue self.now.complete
            → IsCalmAt refusal.now self.now.store at pid) }
    {
        if !refusal.is_process(pid as usize) {
            return Ok(None);
        }
        if self.is_calm(refusal, at, pid) {
            return Ok(None);
        }
        let most = self.steps_to_look_at(at, pid);
        let mut alone = alone_at(&self.store, alloc, at, pid)?;
        let found = alone.look(alloc, refusal, most.saturating_add(1))?;
        self.turn_of(found, Some(at), pid as usize)
    }

    /// The first refused call from the world of a row on.
    fn refusal_at(
        &self,
        alloc: Global,
        refusal: &Refusal,
        at: usize,
    ) -> Result<Option<Turn>, ExploreFault>
        requires visited { IsVisited self.now }
        ensures calm { IfOk result (λ turn. turn ≡ None → IsTrue self.now.complete
            → (p : ℕ) → IsCalmAt refusal.now self.now.store at p) }
    {
        let Some(count) = self.store.width(at) else {
            return Err(ExploreFault::Unvouched);
        };
        for pid in 0..count {
            if let Some(turn) = self.refusal_of(alloc, refusal, at, pid)? {
                return Ok(Some(turn));
            }
        }
        Ok(None)
    }

    /// The refused call of process `pid` before its first call of the kernel, if its calls are meant.
    fn first_of_process(
        &self,
        alloc: Global,
        refusal: &Refusal,
        pid: usize,
    ) -> Result<Option<Turn>, ExploreFault>
        ensures quiet { IfOk result (λ turn. turn ≡ None → IsTrue self.now.complete
            → BeginsQuietly refusal.now (start_of self.now) pid) }
    {
        if !refusal.is_process(pid) {
            return Ok(None);
        }
        let Some(process) = self.processes.get(pid) else {
            return Ok(None);
        };
        let most = self.firsts.get(pid).copied().unwrap_or(0);
        let process = process.copy(alloc)?;
        let mut alone = make_alone(Kernel::new(alloc, 1)?, process, 0)?;
        let found = alone.look_ahead(alloc, refusal, most.saturating_add(1))?;
        self.turn_of(found, None, pid)
    }

    /// The first refused call of a process before its first call of the kernel.
    fn refusal_first(&self, alloc: Global, refusal: &Refusal) -> Result<Option<Turn>, ExploreFault>
        ensures quiet { IfOk result (λ turn. turn ≡ None → IsTrue self.now.complete
            → (p : ℕ) → BeginsQuietly refusal.now (start_of self.now) p) }
    {
        for pid in 0..self.processes.len() {
            if let Some(turn) = self.first_of_process(alloc, refusal, pid)? {
                return Ok(Some(turn));
            }
        }
        Ok(None)
    }

    pub(crate) fn first_refusal(
        &self,
        alloc: Global,
        refusal: &Refusal,
    ) -> Result<Option<Turn>, ExploreFault>
        requires visited { IsVisited self.now }
        ensures none { IfOk result (λ turn. turn ≡ None → IsTrue self.now.complete
            → NoneRefuses refusal.now (start_of self.now) self.now.store) }
    {
        if let Some(first) = self.refusal_first(alloc, refusal)? {
            return Ok(Some(first));
        }
        for at in 0..self.store.rows.len() {
            if let Some(turn) = self.refusal_at(alloc, refusal, at)? {
                return Ok(Some(turn));
            }
        }
        Ok(None)
    }
}

/// What is found of the steps of a process.
#[derive(Clone, Copy)]
enum Found {
    /// No call is refused.
    Calm,
    /// One is, behind so many steps.
    Behind(u32),
    /// Not all were looked at.
    More,
}

/// A process over a kernel, apart from the others.
#[derive(Drop)]
struct Alone {
    pub kernel: Kernel,
    pub process: Process,
    pub pid: usize,
}

fn is_local(stepped: &Stepped) -> bool
    ensures no { result ≡ false → (q : Option Request) → stepped.now ≡ local_told q → ⊥ }
{
    matches!(stepped, Stepped::Moved | Stepped::Refused(_))
}

impl Alone {
    fn step(&mut self, alloc: Global) -> Result<Stepped, ExploreFault>
        requires held { IsHeld self.old.process }
        requires process { self.old.pid < length self.old.kernel.processes }
        ensures stepped { IfOk result (HasStepped self.old.kernel self.old.pid
            (process_view self.old.process) self.new.kernel (process_view self.new.process)) }
        ensures held { IsHeld self.new.process }
        ensures count { length self.new.kernel.processes ≡ length self.old.kernel.processes }
        ensures pid { self.new.pid ≡ self.old.pid }
    {
        Ok(take_step(alloc, &mut self.process, &mut self.kernel, self.pid)?)
    }

    /// Looks at the local steps of the process up to its next call, if they aren't more than so many.
    pub(crate) fn look_ahead(
        &mut self,
        alloc: Global,
        refusal: &Refusal,
        most: u32,
    ) -> Result<Found, ExploreFault>
        requires held { IsHeld self.old.process }
        requires process { self.old.pid < length self.old.kernel.processes }
        ensures quiet { IfOk result (λ found. found ≡ Calm
            → IsQuiet refusal.now (process_view self.old.process)) }
    {
        for taken in 0..most {
            let stepped = self.step(alloc)?;
            if !is_local(&stepped) {
                return Ok(Found::Calm);
            }
            if refusal.is_refused(&stepped) {
                return Ok(Found::Behind(taken));
            }
        }
        Ok(Found::More)
    }

    /// Looks at the next step of the process, and at its local steps after it.
    pub(crate) fn look(
        &mut self,
        alloc: Global,
        refusal: &Refusal,
        most: u32,
    ) -> Result<Found, ExploreFault>
        requires held { IsHeld self.old.process }
        requires process { self.old.pid < length self.old.kernel.processes }
        ensures calm { IfOk result (λ found. found ≡ Calm
            → IsCalm refusal.now self.old.kernel self.old.pid (process_view self.old.process)) }
    {
        let stepped = self.step(alloc)?;
        if refusal.is_refused(&stepped) {
            return Ok(Found::Behind(0));
        }
        match self.look_ahead(alloc, refusal, most)? {
            Found::Behind(taken) => Ok(Found::Behind(taken.saturating_add(1))),
            found => Ok(found),
        }
    }
}

/// A process that doesn't wait over a kernel of which it is one.
fn make_alone(kernel: Kernel, process: Process, pid: usize) -> Result<Alone, ExploreFault>
    ensures held { IfOk result (λ alone. IsHeld alone.process) }
    ensures process { IfOk result (λ alone. alone.pid < length alone.kernel.processes) }
    ensures same { IfOk result (λ alone. alone
        ≡ record { kernel = kernel; process = process; pid = pid }) }
{
    let alone = Alone {
        kernel,
        process,
        pid,
    };
    if waits(&alone.process) || pid >= alone.kernel.count() {
        return Err(ExploreFault::Unvouched);
    }
    Ok(alone)
}

/// The depth of each row, the number of calls on the way to it: no fewer lead there.
pub fn depths_of(store: &Store, alloc: Global) -> Result<Vec<u32>, ExploreFault>
    ensures depths { IfOk result (λ depths. AreDepths depths.items store.now.edges) }
{
    let parents = store.parents.rows();
    let mut depths = Vec::with_capacity(alloc, parents.len())?;
    depths.push(0)?;
    for parent in parents.iter().skip(1) {
        let before = depth_of(depths.as_slice(), *parent as usize);
        depths.push(before.saturating_add(1))?;
    }
    let found = depths.as_slice();
    if depth_of(found, 0) != 0 || !are_near(found, &store.edges) {
        return Err(ExploreFault::Unvouched);
    }
    Ok(depths)
}
