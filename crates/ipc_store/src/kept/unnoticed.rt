//! Calls that no other process can notice, over kernels that are kept.
ghost use Rattle.std.specs.Prelude.{ℕ, ◌≡◌, List, Option, None, Some, IfSome, IsTrue, slice_get, map};
ghost use Rattle.ipc_kernel.specs.declared.place.Place.{Place};
ghost use Rattle.ipc_kernel.specs.declared.process.OpenTables.{OpenTables};
ghost use Rattle.ipc_kernel.specs.Kernel.{KernelState};
ghost use Rattle.ipc_store.specs.Uses.{is_own_by, uses_but, IsWithin, are_low};
ghost use Rattle.ipc_store.specs.Private.Used.{IsUsed};

use crate::kept::Kernels;
use crate::uses::{ProcessUse, is_listed, is_unnoticed, object_name, use_of};
use ipc_kernel::{Call, Handle};
use std::alloc::AllocError;

impl Kernels {
    /// The numbers of the tables of a process, and of the object to which its descriptor or slot refers,
    /// if it is open; or nothing if that isn't known.
    fn used(&self, kernel: u32, pid: u32, handle: Handle) -> Option<Option<(u32, u32)>>
        ensures used { IfSome result (λ found. (k : KernelState)
            → slice_get self.now.kernels kernel ≡ Some k → IsUsed self.now k pid handle found) }
    {
        let number = self.tables_at(kernel, pid as usize)?;
        let Some(place) = self.tables(number)?.place_of(handle) else {
            return Some(None);
        };
        let object = self.object_at(kernel, place)?;
        Some(Some((number, object)))
    }

    /// Whether no other process can notice a call of a process over a kernel that is kept, as long as each
    /// keeps to the uses, and those that have ended do nothing.
    #[tactic(auto, using(crate::proofs::UsedParts::own_by_own, crate::proofs::UsedParts::own_by_object))]
    pub fn is_own_by(
        &self,
        uses: &[ProcessUse],
        ended: &[u32],
        kernel: u32,
        pid: u32,
        call: &Call,
    ) -> bool
        ensures own { IsTrue result → (k : KernelState) → slice_get self.now.kernels kernel ≡ Some k
            → IsTrue (is_own_by (uses_but ended.now uses.now) k pid call.now) }
    {
        if self.is_own(kernel, call) {
            return true;
        }
        let Some(handle) = call.handle() else {
            return false;
        };
        let Some(Some((_, object))) = self.used(kernel, pid, handle) else {
            return false;
        };
        match self.object(object) {
            Some(object) => is_unnoticed(uses, ended, pid, object, call),
            None => false,
        }
    }

    /// Whether a call of a process over a kernel that is kept takes no name away, and what it does with an
    /// open object is among the uses.
    #[tactic(auto, using(crate::proofs::UsedParts::within_without, crate::proofs::UsedParts::within_closed, crate::proofs::UsedParts::within_listed))]
    pub fn is_within(&self, uses: &[ProcessUse], kernel: u32, pid: u32, call: &Call) -> bool
        ensures within { IsTrue result → (k : KernelState)
            → slice_get self.now.kernels kernel ≡ Some k → IsWithin uses.now k pid call.now }
    {
        if call.is_unlink() {
            return false;
        }
        let Some(handle) = call.handle() else {
            return true;
        };
        let Some(used) = self.used(kernel, pid, handle) else {
            return false;
        };
        let Some((tables, object)) = used else {
            return true;
        };
        let (Some(tables), Some(object)) = (self.tables(tables), self.object(object)) else {
            return false;
        };
        let (Some(name), Some(made)) = (object_name(object), use_of(tables, call)) else {
            return true;
        };
        is_listed(uses, pid, name, made)
    }

    /// Adds what a call of a process does with an open object, if it does anything.
    pub fn note(
        &self,
        uses: &mut Vec<ProcessUse>,
        kernel: u32,
        pid: u32,
        call: &Call,
    ) -> Result<(), AllocError> {
        let Some(handle) = call.handle() else {
            return Ok(());
        };
        let Some(Some((tables, object))) = self.used(kernel, pid, handle) else {
            return Ok(());
        };
        let (Some(tables), Some(object)) = (self.tables(tables), self.object(object)) else {
            return Ok(());
        };
        if let (Some(name), Some(made)) = (object_name(object), use_of(tables, call)) {
            let name = name.copy()?;
            uses.push(ProcessUse { pid, name, made })?;
        }
        Ok(())
    }

    /// Whether each semaphore of the kernels that are kept can be posted twice more.
    pub fn are_low(&self) -> bool
        ensures low { IsTrue result → (i : ℕ) (k : KernelState)
            → slice_get self.now.kernels i ≡ Some k → IsTrue (are_low k.places) }
    {
        self.objects.are_low()
    }
}
