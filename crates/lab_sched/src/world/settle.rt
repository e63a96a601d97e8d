//! Settling worlds: each process goes on while it may and can.
ghost use Rattle.std.specs.Prelude.{◌≡◌, ◌<◌, ◌≤◌, ◌+◌, ℕ, length, replicate, sum};
ghost use Rattle.std.specs.Int.{bit_at};
ghost use Rattle.lab_sched.specs.Worlds.{step_effect_in, IsEffective};
ghost use Rattle.lab_sched.specs.Schedules.{steps_of, total_of, most_steps};
ghost use Rattle.lab_sched.specs.Settled.{report, IsAdded, IsSettled, HaveStopped, IsShort};
ghost use Rattle.lab_sched.specs.Private.Settling.{IsNextIn, IsTaken, answer_told};
ghost use Rattle.ipc_kernel.specs.Limits.{process_max};

use super::World;
use crate::calling::find_next;
use crate::{Entry, Next, Schedule, Stepped};
use ipc_kernel::{Answer, Call};

fn answer_of(stepped: Stepped) -> Answer
    ensures answer { result ≡ answer_told stepped }
{
    match stepped {
        Stepped::Called(reply) => Answer::Done(reply),
        _ => Answer::Wait,
    }
}

impl World {
    /// Takes local steps of a process, at most so many, or tells the call that it asks or waits
    /// for.
    fn find_next(&mut self, pid: usize, most: u32) -> Next
        requires process { pid < length self.old.processes }
        requires some { 1 ≤ most }
        ensures next { IsNextIn self.old pid most result self.new }
    {
        let alloc = *self.processes.allocator();
        let process = &mut self.processes[pid];
        find_next(alloc, process, most)
    }

    /// Takes steps of a process whose step is effective, at least one and at most `most`, and adds
    /// their entries; with how many were taken, none where memory was refused.
    fn take_steps(&mut self, pid: usize, most: u32, entries: &mut Vec<Entry>) -> u32
        requires process { pid < length self.old.processes }
        requires effective { IsEffective (step_effect_in self.old pid) }
        requires some { 1 ≤ most }
        ensures taken { IsTaken self.old entries.old.items
            (replicate result pid) self.new entries.new.items }
        ensures within { result ≤ most }
    {
        let call = match self.find_next(pid, most) {
            Next::Moved(taken) => return taken,
            Next::Asks(call) => call,
            Next::Ended => return 0,
            Next::Short => return 0,
        };
        let Ok(()) = entries.reserve(1) else {
            return 0;
        };
        let Ok(stepped) = self.step(pid) else {
            return 0;
        };
        let answer = answer_of(stepped);
        entries.push_reserved(Entry { pid, call, answer });
        1
    }

    /// Takes steps of a process while it has some left, its step is effective and memory isn't
    /// refused; with how many were taken.
    fn settle_process(
        &mut self,
        pid: usize,
        left: u32,
        schedule: &mut Schedule,
        entries: &mut Vec<Entry>,
    ) -> u32
        requires process { pid < length self.old.processes }
        requires few { pid < process_max }
        requires room { total_of schedule.old + left ≤ most_steps }
        ensures added { IsAdded (report self.old (steps_of schedule.old) entries.old.items)
            (replicate result pid) (report self.new (steps_of schedule.new) entries.new.items) }
        ensures within { result ≤ left }
        ensures total { total_of schedule.new ≡ total_of schedule.old + result }
    {
        let mut taken = 0;
        while taken < left && self.can_step(pid) {
            let Ok(()) = schedule.push(pid, 1) else {
                break;
            };
            let more = self.take_steps(pid, left - taken, entries);
            schedule.replace_last(more);
            taken += more;
            if more == 0 {
                break;
            }
        }
        taken
    }

    /// One round over the processes.
    fn settle_round(&mut self, left: &mut [u32], schedule: &mut Schedule, entries: &mut Vec<Entry>)
        requires len { length left.old ≡ length self.old.processes }
        requires room { total_of schedule.old + sum left.old ≤ most_steps }
        ensures settled { IsSettled (report self.old (steps_of schedule.old) entries.old.items)
            (report self.new (steps_of schedule.new) entries.new.items) left.old left.new }
        ensures total { total_of schedule.new + sum left.new
            ≡ total_of schedule.old + sum left.old }
    {
        for pid in 0..self.count() {
            let had = left[pid];
            left[pid] = had - self.settle_process(pid, had, schedule, entries);
        }
    }

    /// The bits of the processes that have some left and whose step is effective.
    fn bits_of_left(&self, left: &[u32]) -> u64
        requires len { length left.now ≡ length self.now.processes }
        ensures stopped { HaveStopped self.now left.now result }
        ensures bits { (p : ℕ) → bit_at result p ≡ 1 → IsShort self.now left.now p }
    {
        let mut bits = 0;
        for pid in 0..self.count() {
            if left[pid] == 0 || !self.can_step(pid) {
                continue;
            }
            bits |= 1 << pid;
        }
        bits
    }

    /// Takes steps of each process in turn while it has some left and its step is effective, in
    /// rounds until a whole round has no such step. Each step is added to the schedule and its
    /// entry to the entries, and it is taken from what its process has left. The answer has the
    /// bit of each process whose step was refused for want of memory; that step isn't taken.
    pub fn settle(
        &mut self,
        left: &mut [u32],
        schedule: &mut Schedule,
        entries: &mut Vec<Entry>,
    ) -> u64
        requires len { length left.old ≡ length self.old.processes }
        requires room { total_of schedule.old + sum left.old ≤ most_steps }
        ensures settled { IsSettled (report self.old (steps_of schedule.old) entries.old.items)
            (report self.new (steps_of schedule.new) entries.new.items) left.old left.new }
        ensures stopped { HaveStopped self.new left.new result }
        ensures bits { (p : ℕ) → bit_at result p ≡ 1 → IsShort self.new left.new p }
    {
        loop {
            let before = schedule.total();
            self.settle_round(left, schedule, entries);
            if schedule.total() == before {
                return self.bits_of_left(left);
            }
        }
    }
}
