//! The monitor: the book, and what the workers tell one another beside it, under one lock.
ghost use Rattle.std.specs.Prelude.{false, true};
ghost use Rattle.lab_threads.specs.Private.CallOutcome.{IsCallOutcome};

use crate::Book;
use ipc_kernel::{Answer, Call, Reply};
use std::alloc::{AllocError, Global};
use std::hint::spin_loop;
use std::sync::atomic::{AtomicU64, Ordering};
use std::sync::{Condvar, Mutex, MutexGuard, Wait};

/// The book, and what the workers tell one another. No contract rests on what stands beside the
/// book.
#[derive(Drop)]
struct SharedState {
    book: Book,
    /// Which workers wait for a call that couldn't go when it was last looked at.
    blocked: Vec<bool>,
    /// How many these are.
    waiting: usize,
    /// How many workers neither wait so nor have stopped.
    active: usize,
}

/// How often a worker looks whether all are awake: for less than a millisecond or so.
const MOST_LOOKS: u32 = 20_000;

/// The state under its lock, what wakes each worker, and where the workers start.
#[derive(Drop)]
pub(crate) struct Monitor {
    state: Mutex<SharedState>,
    wakeups: Vec<Condvar>,
    /// How many workers are at the start. One that couldn't be started counts as there.
    there: AtomicU64,
    /// How many of them are awake, once all are there.
    awake: AtomicU64,
}

#[derive(Drop)]
pub(crate) enum CallOutcome {
    /// The call doesn't fit the book.
    Rejected,
    /// Memory was refused.
    NoMemory,
    /// The process waits. `fits` is false where a later try didn't fit the book.
    Blocked { fits: bool },
    /// The first try was answered.
    Answered(Reply),
    /// The process waited, and then a try was answered.
    AnsweredAfterWait(Reply),
}

impl SharedState {
    fn try_call(&mut self, pid: usize, call: &Call) -> CallOutcome
        ensures outcome { IsCallOutcome call.now false result }
    {
        if !self.book.fits(pid, call) {
            return CallOutcome::Rejected;
        }
        match self.book.call(pid, call) {
            Ok(Answer::Done(reply)) => CallOutcome::Answered(reply),
            Ok(Answer::Wait) => CallOutcome::Blocked { fits: true },
            Err(_) => CallOutcome::NoMemory,
        }
    }

    fn is_blocked(&self, pid: usize) -> bool {
        self.blocked.get(pid).copied().unwrap_or(false)
    }

    /// Counts a worker that waits as active where its call could go now; whether it was counted.
    fn end_wait(&mut self, pid: usize) -> bool {
        if !self.is_blocked(pid) || pid >= self.book.count() || !self.book.can_go(pid) {
            return false;
        }
        if let Some(blocked) = self.blocked.get_mut(pid) {
            *blocked = false;
        }
        self.waiting = self.waiting.saturating_sub(1);
        self.active = self.active.saturating_add(1);
        true
    }

    fn can_be_woken(&self) -> bool {
        self.active > 0
    }
}

impl Monitor {
    pub(crate) fn new(alloc: Global, book: Book) -> Result<Monitor, AllocError> {
        let count = book.count();
        let mut wakeups = Vec::with_capacity(alloc, count)?;
        for _ in 0..count {
            wakeups.push(Condvar::new())?;
        }
        Ok(Monitor {
            state: Mutex::new(SharedState {
                book,
                blocked: vec![in alloc; false; count]?,
                waiting: 0,
                active: count,
            }),
            wakeups,
            there: AtomicU64::new(0),
            awake: AtomicU64::new(0),
        })
    }

    /// The book, once all workers have gone.
    pub(crate) fn into_book(self) -> Book {
        let Monitor { state, .. } = self;
        let SharedState { book, .. } = state.into_inner();
        book
    }

    /// Makes a call, and where it must wait and the worker may, waits for its answer: until some
    /// try is answered, or until every worker has stopped or waits for a call that can't go.
    pub(crate) fn call<R: Wait>(
        &self,
        rt: &R,
        pid: usize,
        call: &Call,
        may_wait: bool,
    ) -> CallOutcome
        ensures outcome { IsCallOutcome call.now may_wait result }
    {
        let mut state = self.state.lock(rt);
        match state.try_call(pid, call) {
            CallOutcome::Blocked { .. } if may_wait => {
                self.wait_for_answer(rt, state, pid, call)
            }
            outcome => {
                self.wake_ready(&mut *state);
                outcome
            }
        }
    }

    /// Waits until the call of a process could go and tries it again, until a try is answered or
    /// none ever will be.
    fn wait_for_answer<'a, R: Wait>(
        &'a self,
        rt: &R,
        mut state: MutexGuard<'a, SharedState>,
        pid: usize,
        call: &Call,
    ) -> CallOutcome
        ensures outcome { IsCallOutcome call.now true result }
    {
        for _ in rt.forever() {
            state = self.sleep(rt, state, pid);
            if state.is_blocked(pid) {
                break;
            }
            match state.try_call(pid, call) {
                CallOutcome::Answered(reply) => {
                    self.wake_ready(&mut *state);
                    return CallOutcome::AnsweredAfterWait(reply);
                }
                CallOutcome::Rejected => return CallOutcome::Blocked { fits: false },
                CallOutcome::Blocked { .. } => {}
                _ => break,
            }
        }
        CallOutcome::Blocked { fits: true }
    }

    /// Waits, and sleeps until the call of the process could go, or no worker is active.
    fn sleep<'a, R: Wait>(
        &'a self,
        rt: &R,
        mut state: MutexGuard<'a, SharedState>,
        pid: usize,
    ) -> MutexGuard<'a, SharedState> {
        if let Some(blocked) = state.blocked.get_mut(pid) {
            *blocked = true;
        }
        state.waiting = state.waiting.saturating_add(1);
        state.active = state.active.saturating_sub(1);
        if !state.can_be_woken() {
            self.wake_all();
        }
        match self.wakeups.get(pid) {
            Some(wakeup) => wakeup.wait_while(rt, state, |state| {
                state.is_blocked(pid) && state.can_be_woken()
            }),
            None => state,
        }
    }

    /// Wakes each worker that waits for a call that could go now, and no other.
    fn wake_ready(&self, state: &mut SharedState) {
        if state.waiting == 0 {
            return;
        }
        for (pid, wakeup) in self.wakeups.iter().enumerate() {
            if state.end_wait(pid) {
                wakeup.notify_one();
            }
        }
    }

    fn wake_all(&self) {
        for wakeup in &self.wakeups {
            wakeup.notify_one();
        }
    }

    /// Tells that a worker couldn't be started: it counts as there, and as stopped.
    pub(crate) fn stop_missing<R: Wait>(&self, rt: &R) {
        self.awake.fetch_add(1, Ordering::SeqCst);
        self.arrive();
        self.stop(rt);
    }

    /// Tells that a worker has stopped. Where no other is active, those that wait are woken, and
    /// stop too.
    pub(crate) fn stop<R: Wait>(&self, rt: &R) {
        let mut state = self.state.lock(rt);
        state.active = state.active.saturating_sub(1);
        if !state.can_be_woken() {
            self.wake_all();
        }
    }

    /// Comes to the start, and goes on when all workers are there and, as a rule, awake. A worker
    /// sleeps until all are there. Waking takes a thread longer than a short program runs, so each
    /// then looks again and again whether all are awake; but not for long, since on a busy machine
    /// some may not get a processor soon.
    pub(crate) fn meet<R: Wait>(&self, rt: &R) {
        let count = self.wakeups.len() as u64;
        self.arrive();
        for _ in rt.forever() {
            let there = self.there.load(Ordering::SeqCst);
            if there >= count {
                break;
            }
            self.there.park(rt, (there & 0xffff_ffff) as u32);
        }
        self.awake.fetch_add(1, Ordering::SeqCst);
        for _ in 0..MOST_LOOKS {
            if self.awake.load(Ordering::SeqCst) >= count {
                return;
            }
            spin_loop();
        }
    }

    /// Counts a worker as there. The last one wakes the others.
    fn arrive(&self) {
        let before = self.there.fetch_add(1, Ordering::SeqCst);
        if before.saturating_add(1) >= self.wakeups.len() as u64 {
            self.there.wake_all();
        }
    }
}
