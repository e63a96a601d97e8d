//! State vectors: worlds as rows of numbers: of each that of its kernel, and then those of the states of its
//! processes.
ghost use Rattle.std.specs.Prelude.{◌≡◌, [], ◌∷◌, ◌++◌, false, Some, IfOk, IfSome, IsTrue, OnErr, length, slice_get, slice_set};
ghost use Rattle.lab_states.specs.Rows.{Row, row_of};

use std::alloc::{AllocError, Global};
use std::marker::Model;
use std::mem::size_of;

/// The digest of some numbers with one number more.
#[inline(always)]
fn digest_with(digest: u64, number: u32) -> u64 {
    let mixed = (digest ^ (number as u64)).wrapping_mul(0x9E37_79B9_7F4A_7C15);
    mixed ^ (mixed >> 29)
}

/// A digest that depends on some numbers alone.
pub fn digest_of(numbers: &[u32]) -> u64 {
    let mut digest = 0_u64;
    for number in numbers {
        digest = digest_with(digest, *number);
    }
    digest
}

/// The digest of a row: the number of a kernel, and states with another one of process `pid`.
pub fn digest_after(kernel: u32, states: &[u32], pid: usize, state: u32) -> u64 {
    let mut digest = digest_with(0, kernel);
    for (at, kept) in states.iter().enumerate() {
        let number = if at == pid { state } else { *kept };
        digest = digest_with(digest, number);
    }
    digest
}

/// Rows of one width, one behind the other.
#[derive(Drop)]
pub struct Rows {
    numbers: Vec<u32>,
    width: usize,
    count: usize,
}

impl Model for Rows {
    ghost use Rattle.std.specs.Prelude.{◌≡◌, ◌*◌, List, length};
    ghost use Rattle.lab_states.specs.Rows.{Row, rows_of};

    ghost Value = { List Row };

    ghost view = { λ a. rows_of a.width a.count a.numbers.items };

    ghost invariant = { λ a. length a.numbers.items ≡ a.count * a.width };
}

impl Rows {
    /// No row of so many processes.
    pub fn new(alloc: Global, processes: usize) -> Rows
        ensures none { result ≡ [] }
    {
        Rows {
            numbers: Vec::new(alloc),
            width: processes.saturating_add(1),
            count: 0,
        }
    }

    /// How many there are.
    pub fn len(&self) -> usize
        ensures count { result ≡ length self.now }
    {
        self.count
    }

    /// The numbers of a row.
    pub(crate) fn numbers(&self, at: usize) -> Option<&[u32]>
        ensures row { IfSome result (λ ns. slice_get self.now at ≡ Some (row_of ns.now)) }
    {
        if at >= self.count {
            return None;
        }
        let start = at * self.width;
        Some(&self.numbers[start..start + self.width])
    }

    /// The number of the kernel of a row, and those of its states.
    pub fn get(&self, at: usize) -> Option<(u32, &[u32])>
        ensures row { IfSome result (λ x. slice_get self.now at
            ≡ Some (record { kernel = x.0; states = x.1.now })) }
    {
        let (kernel, states) = self.numbers(at)?.split_first()?;
        Some((*kernel, states))
    }

    /// Adds a row, if it has the width of the others; with whether it has.
    pub fn push(&mut self, numbers: &[u32]) -> Result<bool, AllocError>
        ensures pushed { IfOk result (λ done. IsTrue done
            → self.new ≡ self.old ++ row_of numbers.now ∷ []) }
        ensures same { IfOk result (λ done. done ≡ false → self.new ≡ self.old) }
        ensures err { OnErr result (self.new ≡ self.old) }
    {
        if numbers.len() != self.width || self.count == usize::MAX {
            return Ok(false);
        }
        self.numbers.extend_from_slice(numbers)?;
        self.count += 1;
        Ok(true)
    }

    /// Adds a row as it stands at a place, with another number of its kernel and another one of the state
    /// of a process, if there are these; with whether it has added one.
    pub fn push_after(
        &mut self,
        at: usize,
        kernel: u32,
        pid: usize,
        state: u32,
    ) -> Result<bool, AllocError>
        ensures pushed { IfOk result (λ done. IsTrue done → (r : Row)
            × (slice_get self.old at ≡ Some r)
            × (self.new ≡ self.old
            ++ (record { kernel = kernel; states = slice_set r.states pid state }) ∷ [])) }
        ensures same { IfOk result (λ done. done ≡ false → self.new ≡ self.old) }
        ensures err { OnErr result (self.new ≡ self.old) }
    {
        if at >= self.count || pid >= self.width.saturating_sub(1) || self.count == usize::MAX {
            return Ok(false);
        }
        let start = at * self.width;
        let first = self.numbers.len();
        self.numbers.extend_from_within(start..start + self.width)?;
        self.numbers[first] = kernel;
        self.numbers[first + 1 + pid] = state;
        self.count += 1;
        Ok(true)
    }

    /// About how many bytes they take.
    pub fn size(&self) -> usize {
        size_of::<u32>().saturating_mul(self.numbers.len())
    }
}

/// A place, as it is kept, if it is small enough.
pub fn place_of(at: usize) -> Result<u32, AllocError>
    ensures value { IfOk result (λ place. place ≡ at) }
{
    u32::try_from(at).map_err(|_| AllocError)
}
