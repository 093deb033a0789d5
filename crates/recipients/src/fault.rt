// Why no recipients are chosen.
ghost use Rattle.std.specs.Prelude.{◌≡◌};
ghost use Rattle.recipients.specs.declared.fault.ChosenFault.TheVariants as faults;

use std::alloc::AllocError;
use thiserror::Error;

/// Why no recipients are chosen for a message.
#[derive(Clone, Copy, Debug, PartialEq, Eq, Error)]
pub enum ChosenFault {
    /// The message is for nobody.
    #[error("no recipients")]
    NoRecipients,
    /// It is for more than 64.
    #[error("more than 64 recipients")]
    TooMany,
    /// There was no memory for the list.
    #[error("out of memory")]
    Memory,
}

impl From<AllocError> for ChosenFault {
    ghost from_gives = { λ _ e. e ≡ faults.Memory };

    fn from(_: AllocError) -> Self {
        ChosenFault::Memory
    }
}
