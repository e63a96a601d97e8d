//! How a world stands.
ghost use Rattle.std.specs.Prelude.{◌≡◌, ◌<◌, ℕ, length, true, false};
ghost use Rattle.lab_sched.specs.Worlds.{step_effect_in, nothing, IsEffective};
ghost use Rattle.lab_sched.specs.Verdicts.{IsVerdict, HaveEnded, HasNotEndedIn, verdict_of, verdict_word};

use crate::World;

/// How a world stands.
#[derive(Clone, Copy, PartialEq, Eq, Debug)]
pub enum Verdict {
    /// All processes have ended.
    Ended,
    /// Some process waits, none is running, and no step changes the world.
    Stuck,
    /// Neither.
    Open,
}

impl Verdict {
    /// The verdict's word, as reports have it.
    pub fn word(self) -> &'static str
        ensures word { result.now ≡ verdict_word self }
    {
        match self {
            Self::Ended => "ended",
            Self::Stuck => "stuck",
            Self::Open => "open",
        }
    }
}

impl World {
    fn have_ended(&self) -> bool
        ensures yes { result ≡ true → HaveEnded self.now }
        ensures no { result ≡ false
            → (p : ℕ) × (p < length self.now.processes) × HasNotEndedIn self.now p }
    {
        for pid in 0..self.count() {
            if !self.has_ended(pid) {
                return false;
            }
        }
        true
    }

    fn can_move(&self) -> bool
        ensures yes { result ≡ true → (p : ℕ) × IsEffective (step_effect_in self.now p) }
        ensures no { result ≡ false
            → (p : ℕ) → p < length self.now.processes → step_effect_in self.now p ≡ nothing }
    {
        for pid in 0..self.count() {
            if self.can_step(pid) {
                return true;
            }
        }
        false
    }

    /// Whether all processes have ended, or some wait and none can go on, or neither.
    pub fn verdict(&self) -> Verdict
        ensures verdict { IsVerdict self.now result }
        ensures worked_out { result ≡ verdict_of self.now }
    {
        if self.can_move() {
            return Verdict::Open;
        }
        if self.have_ended() {
            return Verdict::Ended;
        }
        Verdict::Stuck
    }
}
