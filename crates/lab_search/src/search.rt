//! Breadth-first search of the state space.
ghost use Rattle.std.specs.Prelude.{◌≡◌, All, IsTrue, false, map, IfOk, IfSome, OnOk};
ghost use Rattle.lab_sched.specs.Held.{process_view, IsHeld};
ghost use Rattle.lab_worlds.specs.Closed.{HasAdvance};
ghost use Rattle.lab_search.specs.Reduced.{AreExpandedIn, IsSearchedIn};
ghost use Rattle.lab_search.specs.Stored.{IsAt, IsStore, IsExactly, IsState, IsLike};
ghost use Rattle.lab_search.specs.Private.Stored.{IsLater};
ghost use Rattle.ipc_kernel.specs.Alike.{IsAlike};
ghost use Rattle.ipc_kernel.specs.Kernel.{KernelState, IsSettled};
ghost use Rattle.lab_sched.specs.Stepping.{before_wait};
ghost use Rattle.lab_worlds.specs.Unwaiting.{unwaiting};

use crate::moves::both;
use crate::store::{Stop, Store};
use ipc_kernel::Kernel;
use ipc_store::{ProcessUse, is_alike};
use lab_sched::{Process, World};
use lab_states::place_of;
use lab_worlds::{
    ExploreFault, Limits, Observer, advance, copy_before_wait, discard, none_waits, waits,
};
use std::alloc::{AllocError, Global};

/// What a search found: the worlds and the moves between them, the local steps of each process before
/// them, and whether these are all, or in a reduced search as many as show every end.
#[derive(Drop)]
pub struct Search {
    pub store: Store,
    pub firsts: Vec<u32>,
    pub reduced: bool,
    pub complete: bool,
    /// Whether processes do with objects what isn't among the uses.
    again: bool,
}

impl Store {
    /// Keeps the first world, in which each process stands at its first call, if each comes there; with the
    /// local steps of each before it.
    fn begin(
        &mut self,
        processes: &[Process],
        kernel: &Kernel,
        limits: Limits,
    ) -> Result<Option<Vec<u32>>, ExploreFault>
        requires store { IsStore self.old }
        requires held { All IsHeld processes.now }
        ensures later { OnOk result (IsLater self.old self.new) }
        ensures begins { IfOk result (λ firsts. IfSome firsts (λ _. HasAdvance (IsAt self.new 0)
            (record { processes = map process_view processes.now; kernel = kernel.now }))) }
    {
        let number = self.keep_alike(kernel)?;
        let mut row = vec![in self.alloc; number]?;
        let mut firsts = Vec::new(self.alloc);
        for process in processes {
            let ahead = advance(self.alloc, process.copy(self.alloc)?, limits.steps)?;
            if !ahead.at_call {
                discard(ahead);
                let pid = place_of(firsts.len())?;
                self.stop_by(Some(Stop::Steps { row: None, pid }));
                return Ok(None);
            }
            let state = self.states.keep(self.alloc, ahead.process)?;
            row.push(state)?;
            firsts.push(ahead.taken)?;
        }
        let kept = self.keep_first_row(row.as_slice(), limits.worlds)?;
        if !kept {
            return Ok(None);
        }
        Ok(Some(firsts))
    }

    /// Tries what is to be tried from each world, in a search that is reduced or isn't; with whether that
    /// could be done. A reduced search ends where a process is about to take a name away.
    fn expand_all<O: Observer>(
        &mut self,
        limits: Limits,
        observer: &mut O,
        reduced: bool,
        uses: &[ProcessUse],
    ) -> Result<bool, ExploreFault>
        requires store { IsStore self.old }
        ensures later { OnOk result (IsLater self.old self.new) }
        ensures all { IfOk result (λ whole. IsTrue whole
            → AreExpandedIn reduced uses.now self.new) }
    {
        let most = limits.worlds as usize;
        let mut whole = true;
        for at in 0..most {
            if at >= self.rows.len() {
                return Ok(whole);
            }
            if reduced && self.states.unlinks() {
                return Ok(false);
            }
            let bytes = self.size();
            let full = bytes > limits.memory;
            if full {
                self.stop_by(Some(Stop::Memory(bytes)));
                return Ok(false);
            }
            observer.see(at, self.rows.len() - at);
            let expanded_in = self.expand_in(at, limits, reduced, uses)?;
            whole = both(whole, expanded_in);
        }
        Ok(both(whole, self.rows.len() <= most))
    }
}

impl Search {
    /// Keeps every world that processes over a kernel can come to, as far as the limits and the memory
    /// allow.
    fn fill<O: Observer>(
        &mut self,
        processes: &[Process],
        kernel: &Kernel,
        limits: Limits,
        observer: &mut O,
        uses: &[ProcessUse],
    ) -> Result<(), ExploreFault>
        requires store { IsStore self.old.store }
        requires open { self.old.complete ≡ false }
        requires held { All IsHeld processes.now }
        ensures store { OnOk result (IsTrue self.new.complete → IsStore self.new.store) }
        ensures reduced { OnOk result (self.new.reduced ≡ self.old.reduced) }
        ensures complete { OnOk result (IsTrue self.new.complete → IsSearchedIn self.old.reduced
            (record { processes = map process_view processes.now; kernel = kernel.now })
            self.new.store) }
    {
        let Some(firsts) = self.store.begin(processes, kernel, limits)? else {
            return Ok(());
        };
        self.firsts = firsts;
        let expanded = self.store.expand_all(limits, observer, self.reduced, uses);
        self.store.close();
        match expanded {
            Ok(whole) => {
                let calm = self.store.are_calm_in(self.reduced, uses);
                let complete = both(whole, calm);
                self.again = !calm;
                self.complete = complete;
                Ok(())
            }
            Err(ExploreFault::NoMemory) => {
                self.store.stop = Some(Stop::Refused);
                Ok(())
            }
            Err(fault) => Err(fault),
        }
    }
}

/// Searches the worlds that processes over a kernel can come to, as far as the limits allow, in a search
/// that is reduced or isn't.
fn search_in<O: Observer>(
    alloc: Global,
    processes: &[Process],
    kernel: &Kernel,
    limits: Limits,
    observer: &mut O,
    reduced: bool,
    uses: &[ProcessUse],
) -> Result<Search, ExploreFault>
    requires held { All IsHeld processes.now }
    ensures reduced { IfOk result (λ s. s.reduced ≡ reduced) }
    ensures store { IfOk result (λ s. IsTrue s.complete → IsStore s.store) }
    ensures complete { IfOk result (λ s. IsTrue s.complete → IsSearchedIn reduced
        (record { processes = map process_view processes.now; kernel = kernel.now }) s.store) }
{
    let mut search = Search {
        store: Store::new(alloc, processes.len())?,
        firsts: Vec::new(alloc),
        reduced,
        complete: false,
        again: false,
    };
    match search.fill(processes, kernel, limits, observer, uses) {
        Ok(()) => Ok(search),
        Err(fault) => {
            discard(search);
            Err(fault)
        }
    }
}

/// How often a search begins again, at most, with the uses that were seen.
const ROUNDS: usize = 8;

/// Searches the worlds in rounds, each by the uses that were seen before; or nothing, where one takes a
/// name away or a semaphore comes near its greatest value, or the uses grow in each round.
fn search_by_uses<O: Observer>(
    alloc: Global,
    processes: &[Process],
    kernel: &Kernel,
    limits: Limits,
    observer: &mut O,
) -> Result<Option<Search>, ExploreFault>
    requires held { All IsHeld processes.now }
    ensures store { IfOk result (λ found. IfSome found (λ s. IsTrue s.complete
        → IsStore s.store)) }
    ensures complete { IfOk result (λ found. IfSome found (λ s. IsTrue s.complete
        → IsSearchedIn s.reduced
        (record { processes = map process_view processes.now; kernel = kernel.now }) s.store)) }
{
    let mut uses = Vec::new(alloc);
    for _ in 0..ROUNDS {
        let search = search_in(
            alloc,
            processes,
            kernel,
            limits,
            observer,
            true,
            uses.as_slice(),
        )?;
        if search.store.states.unlinks() || !search.store.kernels.are_low() {
            discard(search);
            return Ok(None);
        }
        if !search.again {
            return Ok(Some(search));
        }
        let noted = search.store.note_uses(&mut uses);
        discard(search);
        noted?;
    }
    Ok(None)
}

/// Searches every world that processes over a kernel can come to, as far as the limits allow, or, if
/// that may be and none of them takes a name away, as many as show every end.
pub fn search_all<O: Observer>(
    alloc: Global,
    processes: &[Process],
    kernel: &Kernel,
    limits: Limits,
    observer: &mut O,
    reduced: bool,
) -> Result<Search, ExploreFault>
    requires held { All IsHeld processes.now }
    ensures reduced { IfOk result (λ s. reduced ≡ false → s.reduced ≡ false) }
    ensures store { IfOk result (λ s. IsTrue s.complete → IsStore s.store) }
    ensures complete { IfOk result (λ s. IsTrue s.complete → IsSearchedIn s.reduced
        (record { processes = map process_view processes.now; kernel = kernel.now }) s.store) }
{
    if reduced {
        let found = search_by_uses(alloc, processes, kernel, limits, observer)?;
        if let Some(search) = found {
            return Ok(search);
        }
    }
    search_in(alloc, processes, kernel, limits, observer, false, &[])
}

impl Store {
    /// Whether a state is that of a process before it began to wait.
    fn is_state(&self, alloc: Global, state: u32, process: &Process) -> Result<bool, AllocError>
        ensures same { IfOk result (λ same. IsTrue same
            → IsState self.now state (before_wait (process_view process.now))) }
    {
        let Some(kept) = self.states.get(alloc, state as usize)? else {
            return Ok(false);
        };
        let process = copy_before_wait(alloc, process)?;
        Ok(kept.is_same(&process))
    }

    /// Whether a kernel is alike the one with a number.
    fn is_kernel(&self, alloc: Global, number: u32, kernel: &Kernel) -> Result<bool, AllocError>
        ensures alike { IfOk result (λ alike. IsTrue alike → (k : KernelState)
            × IsExactly self.now number k × IsAlike k kernel.now × IsSettled k) }
    {
        let Some(kept) = self.kernels.get(alloc, number)? else {
            return Ok(false);
        };
        Ok(is_alike(&kept, kernel))
    }

    /// Whether a row stands for a world that is alike this one, with each process that waits before
    /// its call.
    pub fn is_unwaiting_row(
        &self,
        alloc: Global,
        at: usize,
        world: &World,
    ) -> Result<bool, AllocError>
        ensures alike { IfOk result (λ alike. IsTrue alike
            → IsLike self.now at (unwaiting world.now)) }
    {
        let Some((kernel, states)) = self.rows.get(at) else {
            return Ok(false);
        };
        let alike = self.is_kernel(alloc, kernel, world.kernel())?;
        if !alike || states.len() != world.count() {
            return Ok(false);
        }
        for (pid, state) in states.iter().enumerate() {
            let Some(process) = world.process(pid) else {
                return Ok(false);
            };
            if !self.is_state(alloc, *state, process)? {
                return Ok(false);
            }
        }
        Ok(true)
    }

    /// Whether a row stands for a world alike.
    pub fn is_row(&self, alloc: Global, at: usize, world: &World) -> Result<bool, AllocError>
        ensures alike { IfOk result (λ alike. IsTrue alike → IsLike self.now at world.now) }
    {
        if !none_waits(world) {
            return Ok(false);
        }
        self.is_unwaiting_row(alloc, at, world)
    }
}
