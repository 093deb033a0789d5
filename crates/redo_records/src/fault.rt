// Why bytes were not read as a commit.
ghost use Rattle.std.specs.Prelude.{◌≡◌};
ghost use Rattle.redo_records.specs.declared.fault.DecodeFault.TheVariants.{Memory};

use std::alloc::{AllocError, AllocFailed};
use thiserror::Error;

/// Why bytes were not read as a commit.
#[derive(Clone, Copy, Debug, PartialEq, Eq, Error)]
pub enum DecodeFault {
    /// They spell none.
    #[error("no commit")]
    NoSpelling,
    /// There was no memory for it.
    #[error("out of memory")]
    Memory,
}

impl From<AllocError> for DecodeFault {
    ghost from_gives = { λ _ e. e ≡ Memory };

    fn from(_: AllocError) -> Self {
        DecodeFault::Memory
    }
}

impl<T: Drop> From<AllocFailed<T>> for DecodeFault {
    ghost from_gives = { λ _ e. e ≡ Memory };

    fn from(_: AllocFailed<T>) -> Self {
        DecodeFault::Memory
    }
}
