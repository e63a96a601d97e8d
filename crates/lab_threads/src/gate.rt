//! Gates, which workers pass.
ghost use Rattle.std.specs.Prelude.{◌+◌, ◌-◌, ◌*◌, ◌^◌, ◌<◌};

use rand::RngExt;
use rand::rngs::SmallRng;
use rand_core::SeedableRng;
use std::thread;
use std::time::{Clock, Duration};

/// What a worker passes before the first try of each call of its process, and once in each local
/// segment. It holds no lock there.
pub trait Gate: Sync {
    /// Process `pid` comes to its call number `nth`, counted from 1, `Exit` included; or, where
    /// `nth` is 0, it has taken the first step of a local segment.
    fn arrive(&self, pid: usize, nth: u32);
}

/// A gate that stands open.
#[derive(Clone, Copy)]
pub struct NoGate;

impl Gate for NoGate {
    fn arrive(&self, pid: usize, nth: u32) {
        let _ = (pid, nth);
    }
}

/// A pause is shorter than so many microseconds.
const PAUSES: u64 = 256;

/// A gate where the worker of a process pauses before about half of its calls, so that calls of
/// different processes meet in many orders. A pause takes 1 to 255 microseconds, and more where the
/// machine is busy. The seed fixes the pauses, and not the order of the calls.
#[derive(Drop)]
pub struct PausingGate<'c, C> {
    clock: &'c C,
    seed: u32,
}

impl<'c, C: Clock + Sync> PausingGate<'c, C> {
    /// A gate with the pauses that a seed fixes, taken by a clock.
    pub fn new(clock: &'c C, seed: u32) -> PausingGate<'c, C> {
        PausingGate { clock, seed }
    }
}

impl<C: Clock + Sync> Gate for PausingGate<'_, C> {
    fn arrive(&self, pid: usize, nth: u32) {
        if nth == 0 {
            return;
        }
        // none for about half of the calls, and for the others each as often as each
        let state = (u64::from(self.seed) << 32) ^ ((pid as u64) << 26) ^ u64::from(nth);
        let mut random = SmallRng::seed_from_u64(state);
        let pause = random.random_range(0..2 * PAUSES).saturating_sub(PAUSES);
        if pause > 0 {
            thread::sleep(self.clock, Duration::from_micros(pause));
        }
    }
}
