// Why a text was not read as a condition.
ghost use Rattle.std.specs.Prelude.{◌≡◌};
ghost use Rattle.rule_text.specs.declared.fault.ReadFault.TheVariants as faults;

use std::alloc::AllocError;
use thiserror::Error;

/// Why a text was not read as a condition.
#[derive(Clone, Copy, Debug, PartialEq, Eq, Error)]
pub enum ReadFault {
    /// It is the text of none.
    #[error("bad condition at {at}")]
    Bad {
        /// How many of its first bytes begin a text of a condition: the most that do.
        at: u64,
    },
    /// There was no memory for it.
    #[error("out of memory")]
    Memory,
}

impl From<AllocError> for ReadFault {
    ghost from_gives = { λ _ e. e ≡ faults.Memory };

    fn from(_: AllocError) -> Self {
        ReadFault::Memory
    }
}
