// Why frames lead to no tables.
ghost use Rattle.std.specs.Prelude.{◌≡◌};
ghost use Rattle.database_recovery.specs.declared.fault.RecoveryFault.TheVariants.{Memory};

use std::alloc::AllocError;

/// Why frames lead to no tables.
#[derive(Clone, Copy, Debug, PartialEq, Eq)]
pub enum RecoveryFault {
    /// In the frame whose gate stands at this offset a body is no commit, or its commit does not fit.
    Damaged(u64),
    /// There was no memory.
    Memory,
}

impl From<AllocError> for RecoveryFault {
    ghost from_gives = { λ _ e. e ≡ Memory };

    fn from(_: AllocError) -> Self {
        RecoveryFault::Memory
    }
}
