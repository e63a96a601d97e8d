//! The state space as it is stored.
ghost use Rattle.std.specs.Prelude.{ℕ, ◌≡◌, false, IsTrue, IfOk, OnOk, ◌<◌, [], IfSome};
ghost use Rattle.ipc_kernel.specs.Kernel.{KernelState, IsSettled};
ghost use Rattle.lab_search.specs.declared.store.Next.TheVariants.{Nothing};
ghost use Rattle.lab_search.specs.Stored.{IsExactly, IsKernel, IsStore, IsMove, AreMoves, IsNext};
ghost use Rattle.lab_sched.specs.Worlds.{Process as Seen};
ghost use Rattle.lab_worlds.specs.Errors.{IsAnsweredToCall};
ghost use Rattle.lab_search.specs.Private.Stored.{IsLater};
ghost use Rattle.lab_search.specs.declared.store.Store.{Store as Kept};

use crate::footprints::Footprints;
use ipc_kernel::Kernel;
use ipc_store::{Index, Kernels, arranged};
use lab_states::{Edges, Parents, Rows, States, place_of as number_of, put};
use lab_worlds::Errors;
use std::alloc::{AllocError, Global};
use std::mem::size_of;

/// What a process does next.
#[derive(Clone, Copy, Drop)]
pub enum Next {
    /// Nothing: it has ended, or its call must wait.
    Nothing,
    /// More local steps than it may take.
    Limit,
    /// A step of the kernel, and then so many local steps; the places of the kernel and of its
    /// state then, and the errors of those of these steps that are refused.
    To {
        kernel: u32,
        state: u32,
        taken: u32,
        errors: Errors,
    },
}

/// So many local steps after a step, up to the next call, and the errors with which calls are refused in
/// all these.
#[derive(Clone, Copy, Drop)]
pub struct KnownSteps {
    pub taken: u32,
    pub errors: Errors,
}

impl Next {
    pub(crate) fn is_nothing(self) -> bool
        ensures yes { IsTrue result → self ≡ Nothing }
        ensures no { result ≡ false → self ≡ Nothing → ⊥ }
    {
        matches!(self, Next::Nothing)
    }

    /// The local steps of the process then, if it comes to a call.
    pub(crate) fn steps(self) -> Option<KnownSteps>
        ensures steps { IfSome result (λ steps. (t : Kept) (k : KernelState) (p : ℕ) (s : Seen)
            → IsNext t k p s self → IsAnsweredToCall k p s steps.taken steps.errors) }
    {
        match self {
            Next::Nothing => Some(KnownSteps {
                taken: 0,
                errors: Errors::No,
            }),
            Next::Limit => None,
            Next::To { taken, errors, .. } => Some(KnownSteps { taken, errors }),
        }
    }
}

/// What keeps a search from visiting every world, if it isn't how many worlds there are.
#[derive(Clone, Copy, Drop)]
pub enum Stop {
    /// A process that takes as many local steps in a row as it may: after its step from the world of a
    /// row, or before its first call.
    Steps { row: Option<usize>, pid: u32 },
    /// About so many bytes, which are more than it may take.
    Memory(usize),
    /// Memory was refused.
    Refused,
}

/// Kernels, states of processes at calls, and worlds, each of which is kept once, the edges between
/// the worlds, in the order of those that they lead from, and the moves that were made.
#[derive(Drop)]
pub struct Store {
    pub kernels: Kernels,
    pub states: States,
    pub rows: Rows,
    /// For each row the one from which it was reached first.
    pub parents: Parents,
    pub edges: Edges,
    /// What stopped the search first.
    pub stop: Option<Stop>,
    pub(crate) moves: Moves,
    pub(crate) row_index: Index,
    pub(crate) alloc: Global,
}

/// About how many bytes each row takes beside its numbers and its edges: by its parent, and in the
/// index, which is let go of before lists are made that take about as much.
const ROW: usize = Index::ENTRY + Parents::ENTRY;

impl Store {
    /// Nothing, with room for worlds of so many processes.
    pub fn new(alloc: Global, processes: usize) -> Result<Store, AllocError>
        ensures store { IfOk result (λ store. IsStore store) }
    {
        let mut store = Store {
            kernels: Kernels::new(alloc)?,
            states: States::new(alloc)?,
            rows: Rows::new(alloc, processes),
            parents: Parents::new(alloc),
            edges: Edges::new(alloc),
            stop: None,
            moves: Moves::new(alloc, Index::none(alloc)),
            row_index: Index::none(alloc),
            alloc,
        };
        store.row_index = Index::new(alloc)?;
        store.moves = Moves::new(alloc, Index::new(alloc)?);
        Ok(store)
    }

    /// About how many bytes are taken by what is kept.
    pub fn size(&self) -> usize {
        self.states
            .size()
            .saturating_add(self.kernels.size())
            .saturating_add(self.rows.size())
            .saturating_add(ROW.saturating_mul(self.rows.len()))
            .saturating_add(self.edges.size())
            .saturating_add(self.moves.size())
    }

    /// Keeps what stopped the search, if something did and nothing had before.
    pub(crate) fn stop_by(&mut self, stop: Option<Stop>)
        ensures same { self.new ≡ record self.old { stop = self.new.stop } }
    {
        self.stop = self.stop.or(stop);
    }

    /// Lets go of what only a search needs that goes on. No world, state or kernel is looked for any more.
    pub(crate) fn close(&mut self)
        ensures same { self.new ≡ record self.old { row_index = self.new.row_index } }
    {
        self.kernels.forget(self.alloc);
        self.states.forget(self.alloc);
        self.row_index = Index::none(self.alloc);
    }

    /// Keeps a kernel as it is; with its number.
    pub(crate) fn keep_kernel(&mut self, kernel: &Kernel) -> Result<u32, AllocError>
        requires store { IsStore self.old }
        ensures later { OnOk result (IsLater self.old self.new) }
        ensures kernel { IfOk result (λ i. IsExactly self.new i kernel.now) }
        ensures settled { IsSettled kernel.now }
    {
        let number = self.kernels.keep(self.alloc, kernel)?;
        Ok(number)
    }

    /// Keeps a kernel that is alike, with its places in an order that is the same for all such; with
    /// its number.
    pub(crate) fn keep_alike(&mut self, kernel: &Kernel) -> Result<u32, AllocError>
        requires store { IsStore self.old }
        ensures later { OnOk result (IsLater self.old self.new) }
        ensures kernel { IfOk result (λ i. IsKernel self.new i kernel.now) }
    {
        if let Some(arranged) = arranged(self.alloc, kernel)? {
            let number = self.keep_kernel(&arranged)?;
            return Ok(number);
        }
        let number = self.keep_kernel(kernel)?;
        Ok(number)
    }
}

/// A process in a state, over a kernel.
#[derive(Clone, Copy, Drop)]
pub struct Mover {
    pub kernel: u32,
    pub pid: u32,
    pub state: u32,
}

/// What a process does next; and the number of the move of the same kernel and process that was made
/// before it, from 1, or 0.
#[derive(Clone, Copy, Drop)]
pub struct Move {
    pub mover: Mover,
    pub older: u32,
    pub next: Next,
}

/// Moves, each of which is made once, and the steps at calls that work on one object, which aren't
/// made again for each kernel.
#[derive(Drop)]
pub struct Moves {
    pub made: Vec<Move>,
    pub footprints: Footprints,
    /// The numbers of the newest moves, from 1, kernel by kernel, so that those of the processes over
    /// one kernel stand beside each other.
    newest: Vec<u32>,
}

/// How many of the newest moves stand beside each other for a kernel.
const EACH: usize = 8;

impl Mover {
    fn is_same(self, other: Mover) -> bool
        ensures same { IsTrue result → self ≡ other }
    {
        self.kernel == other.kernel && self.pid == other.pid && self.state == other.state
    }

    /// Where the number of the newest move over a kernel stands. Where there are more than eight
    /// processes some share a place.
    fn newest_at(self) -> usize {
        (self.kernel as usize)
            .saturating_mul(EACH)
            .saturating_add(self.pid as usize)
    }
}

impl Move {
    /// The number of the one made before this one, which has a number, or 0.
    fn before(&self, number: usize) -> usize
        ensures less { 0 < number → result < number }
    {
        if number == 0 {
            return 0;
        }
        (self.older as usize).min(number - 1)
    }
}

/// Puts a number at a place, for which room is made if there is none.
fn put_at(numbers: &mut Vec<u32>, place: usize, number: u32) -> Result<(), AllocError> {
    if place >= numbers.len() {
        let room = place.saturating_add(EACH).max(numbers.len() / 4 * 5);
        numbers.resize(room, 0)?;
    }
    put(numbers, place, number);
    Ok(())
}

impl Moves {
    pub(crate) fn new(alloc: Global, index: Index) -> Moves
        ensures moves { result.made.items ≡ [] }
        ensures footprints { result.footprints.made.items ≡ [] }
    {
        Moves {
            made: Vec::new(alloc),
            footprints: Footprints::new(alloc, index),
            newest: Vec::new(alloc),
        }
    }

    fn newest(&self, mover: Mover) -> u32 {
        self.newest.get(mover.newest_at()).copied().unwrap_or(0)
    }

    pub(crate) fn find(&self, mover: Mover) -> Option<Next>
        ensures known { (t : Kept) → AreMoves t self.now.made.items
            → IfSome result (λ next. IsMove t mover next) }
    {
        let mut number = self.newest(mover) as usize;
        while number > 0 {
            let made = self.made.get(number - 1)?;
            if made.mover.is_same(mover) {
                return Some(made.next);
            }
            number = made.before(number);
        }
        None
    }

    pub(crate) fn keep(&mut self, mover: Mover, next: Next) -> Result<(), AllocError>
        ensures footprints { OnOk result (self.new.footprints ≡ self.old.footprints) }
        ensures known { OnOk result ((t : Kept) → AreMoves t self.old.made.items
            → IsMove t mover next → AreMoves t self.new.made.items) }
    {
        let older = self.newest(mover);
        let number = number_of(self.made.len())?.saturating_add(1);
        put_at(&mut self.newest, mover.newest_at(), number)?;
        self.made.push(Move { mover, older, next })?;
        Ok(())
    }

    pub(crate) fn size(&self) -> usize {
        size_of::<Move>()
            .saturating_mul(self.made.len())
            .saturating_add(size_of::<u32>().saturating_mul(self.newest.len()))
            .saturating_add(self.footprints.size())
    }
}
