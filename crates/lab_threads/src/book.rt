//! Books: the kernel that processes share, with the history of their calls.
ghost use Rattle.std.specs.Prelude.{◌≡◌, ◌<◌, ◌≤◌, ◌↔◌, [], length, Some, None, IfOk, OnOk, OnErr, IsTrue, true, false};
ghost use Rattle.std.specs.Option.{option_copied};
ghost use Rattle.ipc_kernel.specs.Limits.{process_max};
ghost use Rattle.ipc_kernel.specs.Kernel.{empty_kernel};
ghost use Rattle.ipc_kernel.specs.Answer.{answer, is_done};
ghost use Rattle.ipc_kernel.specs.Replies.{IsAnswerTo};
ghost use Rattle.ipc_kernel.specs.declared.call.Call.{Call as CallValue};
ghost use Rattle.ipc_kernel.specs.declared.call.Answer.TheVariants.{Wait};
ghost use Rattle.lab_sched.specs.History.{IsLegal, waits, still};
ghost use Rattle.lab_threads.specs.BookState.{MayCall, history_after, kernel_of};
ghost use Rattle.lab_threads.specs.Private.Added.{AddsEntry, AddsNone};

use ipc_kernel::{Answer, Call, Kernel};
use lab_sched::Entry;
use std::alloc::{AllocError, Global};
use std::marker::Model;

/// The kernel that processes share, with the history of all their calls, and the call that each
/// process waits for.
#[derive(Drop)]
pub struct Book {
    kernel: Kernel,
    history: Vec<Entry>,
    waiting: Vec<Option<Call>>,
}

impl Model for Book {
    ghost use Rattle.std.specs.Prelude.{length};
    ghost use Rattle.lab_threads.specs.BookState.{BookState};
    ghost use Rattle.lab_threads.specs.Private.BookInvariant.{BookInvariant};

    ghost Value = { BookState };

    ghost view = { λ b. record { count = length b.waiting.items; history = b.history.items } };

    ghost invariant = { λ b. BookInvariant b.kernel b.history.items b.waiting.items };
}

/// Whether this answer to a call of a process has an entry, by whether the process waited for it.
/// The try of a process that waits and must still wait has none.
#[tactic(auto, using(crate::proofs::BookCalls::added_first, crate::proofs::BookCalls::added_done, crate::proofs::BookCalls::added_still))]
fn has_entry(waited: bool, answer: &Answer) -> bool
    ensures yes { result ≡ true → AddsEntry waited answer.now }
    ensures no { result ≡ false → (answer.now ≡ Wait) × AddsNone waited Wait }
{
    match answer {
        Answer::Done(_) => true,
        Answer::Wait => !waited,
    }
}

/// An equal call, by a clause that names no variant.
pub(crate) fn clone_of(call: &Call) -> Result<Call, AllocError>
    ensures equal { IfOk result (λ copy. copy ≡ call.now) }
{
    call.clone()
}

impl Book {
    /// The book of `count` processes that have made no call, over an empty kernel.
    pub fn new(alloc: Global, count: usize) -> Result<Book, AllocError>
        requires at_least { 1 ≤ count }
        requires at_most { count ≤ process_max }
        ensures count { IfOk result (λ b. b.count ≡ count) }
        ensures history { IfOk result (λ b. b.history ≡ []) }
    {
        let kernel = Kernel::new(alloc, count)?;
        let mut waiting = Vec::new(alloc);
        for _ in 0..count {
            waiting.push(None)?;
        }
        Ok(Book {
            kernel,
            history: Vec::new(alloc),
            waiting,
        })
    }

    /// The number of processes.
    pub fn count(&self) -> usize
        ensures count { result ≡ self.now.count }
    {
        self.waiting.len()
    }

    /// The kernel after all calls of the history.
    pub fn kernel(&self) -> &Kernel
        ensures replay { result.now ≡ kernel_of self.now }
        ensures count { length result.now.processes ≡ self.now.count }
    {
        &self.kernel
    }

    /// The calls so far in their order, each with its answer.
    pub fn history(&self) -> &[Entry]
        ensures history { result.now ≡ self.now.history }
        ensures legal { IsLegal (empty_kernel self.now.count) self.now.history }
    {
        self.history.as_slice()
    }

    /// The call that a process waits for, if it waits.
    pub fn waits(&self, pid: usize) -> Option<&Call>
        requires process { pid < self.now.count }
        ensures waits { option_copied result ≡ waits self.now.history pid }
    {
        self.waiting[pid].as_ref()
    }

    /// Whether there is such a process, and it may make this call: one that waits may make the call
    /// that it waits for again, and no other.
    pub fn fits(&self, pid: usize, call: &Call) -> bool
        ensures fits { IsTrue result
            ↔ ((pid < self.now.count) × MayCall (waits self.now.history pid) call.now) }
    {
        pid < self.count() && self.waits(pid).is_none_or(|waits| waits == call)
    }

    /// Whether the call that a process waits for would be answered now without a wait.
    pub fn can_go(&self, pid: usize) -> bool
        requires process { pid < self.now.count }
        ensures answered { (c : CallValue) → waits self.now.history pid ≡ Some c
            → result ≡ is_done (answer (kernel_of self.now) pid c).0 }
        ensures none { waits self.now.history pid ≡ None → result ≡ false }
    {
        self.waits(pid)
            .is_some_and(|call| self.kernel.can_go(pid, call))
    }

    /// Answers a call of a process, and adds its entry to the history. Where the process waits for
    /// the answer of this call and must still wait, nothing changes. The entry shares the words of
    /// the call and of the answer. An error is want of memory: nothing has changed then.
    pub fn call(&mut self, pid: usize, call: &Call) -> Result<Answer, AllocError>
        requires process { pid < self.old.count }
        requires call { MayCall (waits self.old.history pid) call.now }
        ensures answer { IfOk result (λ a. a ≡ (answer (kernel_of self.old) pid call.now).0) }
        ensures form { IfOk result (λ a. IsAnswerTo call.now a) }
        ensures history { IfOk result
            (λ a. self.new.history ≡ history_after self.old pid call.now a) }
        ensures kernel { OnOk result
            (kernel_of self.new ≡ (answer (kernel_of self.old) pid call.now).1) }
        ensures count { self.new.count ≡ self.old.count }
        ensures err { OnErr result (self.new ≡ self.old) }
    {
        let waited = self.waits(pid).is_some();
        self.history.reserve(1)?;
        let waiting = clone_of(call)?;
        let written = clone_of(call)?;
        let (answer, copy) = self.kernel.call_with_copy(pid, call)?;
        if !has_entry(waited, &answer) {
            return Ok(answer);
        }
        let entry = Entry {
            pid,
            call: written,
            answer: copy,
        };
        self.waiting[pid] = match answer {
            Answer::Wait => Some(waiting),
            Answer::Done(_) => None,
        };
        self.history.push_reserved(entry);
        Ok(answer)
    }

    /// The kernel and the history.
    pub fn into_parts(self) -> (Kernel, Vec<Entry>)
        ensures kernel { result.0 ≡ kernel_of self }
        ensures count { length result.0.processes ≡ self.count }
        ensures history { result.1.items ≡ self.history }
        ensures legal { IsLegal (empty_kernel self.count) self.history }
    {
        let Book {
            kernel,
            history,
            waiting: _,
        } = self;
        (kernel, history)
    }
}
