//! Why an object file is not read or written.
ghost use Rattle.std.specs.Prelude.{◌≡◌};
ghost use Rattle.lc3_obj.specs.declared.fault.ObjFault.TheVariants.{NoMemory, Write};

use lab_io::Failed;
use std::alloc::AllocFailed;
use thiserror::Error;

/// Why an object file was not read or written.
#[derive(Clone, Copy, Debug, PartialEq, Eq, Error)]
pub enum ObjFault {
    /// The file has less than the two bytes of an origin.
    #[error("Empty")]
    Empty,
    /// The file ends within a word.
    #[error("OddLength")]
    OddLength,
    /// The words would reach the device register page (`FIRST_DEVICE`).
    #[error("TooLong")]
    TooLong,
    /// There is no memory for the words.
    #[error("out of memory")]
    NoMemory,
    /// The output failed.
    #[error("cannot write")]
    Write,
}

impl<T: Drop> From<AllocFailed<T>> for ObjFault {
    ghost from_gives = { λ _ e. e ≡ NoMemory };

    fn from(_refused: AllocFailed<T>) -> ObjFault {
        ObjFault::NoMemory
    }
}

impl From<Failed> for ObjFault {
    ghost from_gives = { λ _ e. e ≡ Write };

    fn from(_failed: Failed) -> ObjFault {
        ObjFault::Write
    }
}
