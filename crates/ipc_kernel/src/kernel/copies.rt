//! Copies of kernels, and whether two kernels are the same.
ghost use Rattle.std.specs.Prelude.{◌≡◌, ◌↔◌, IfOk, IsTrue};

use super::Kernel;
use std::alloc::{AllocError, Global};
use std::hash::{FoldHasher, Hasher};
use std::mem::size_of;

impl Kernel {
    /// An equal kernel.
    pub fn copy(&self, alloc: Global) -> Result<Kernel, AllocError>
        ensures equal { IfOk result (λ copy. copy ≡ self.now) }
    {
        let places = self.places.copy(alloc)?;
        let processes = self.processes.copy(alloc)?;
        Ok(Kernel { places, processes })
    }

    /// Whether two kernels hold the same: each place, and the descriptors and slots of each
    /// process.
    pub fn is_same(&self, other: &Kernel) -> bool
        ensures same { IsTrue result ↔ (self.now ≡ other.now) }
    {
        self.processes.is_same(&other.processes) && self.places.is_same(&other.places)
    }

    /// About how many bytes a copy of the kernel takes: its own, and those of its places and of the
    /// tables of its processes. Nothing that is proved rests on it.
    pub fn size(&self) -> usize {
        size_of::<Kernel>()
            .saturating_add(self.places.size())
            .saturating_add(self.processes.size())
    }

    /// A number that is the same for kernels that are alike and, as a rule, another for others.
    pub fn digest(&self) -> u64 {
        let objects = self.places.digests();
        let mut hasher = FoldHasher::default();
        // A sum, since it is the same whatever the order.
        hasher.write_u64(
            objects
                .iter()
                .fold(0_u64, |sum, object| sum.wrapping_add(*object)),
        );
        self.processes.feed(&objects, &mut hasher);
        hasher.finish()
    }
}
