// Why a text was not taken as a condition.
ghost use Rattle.std.specs.Prelude.{◌≡◌};
ghost use Rattle.rule_checks.specs.declared.fault.CheckFault.TheVariants as faults;

use queue_rows::ConditionFault;
use std::alloc::AllocError;

/// Why a text was not taken as a condition for a record type.
#[derive(Drop)]
pub enum CheckFault {
    /// It is none, or one that does not fit the type.
    Refused(ConditionFault),
    /// There was no memory for it.
    Memory,
}

impl From<AllocError> for CheckFault {
    ghost from_gives = { λ _ e. e ≡ faults.Memory };

    fn from(_: AllocError) -> Self {
        CheckFault::Memory
    }
}
