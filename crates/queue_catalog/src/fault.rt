// Why a statement changes nothing.
ghost use Rattle.std.specs.Prelude.{◌≡◌};
ghost use Rattle.queue_catalog.specs.declared.fault.CatalogFault.TheVariants as faults;

use queue_rows::Reply;
use std::alloc::AllocError;

/// Why an administrative statement changes nothing.
#[derive(Drop)]
pub enum CatalogFault {
    /// It is refused with this reply.
    Refused(Reply),
    /// There was no memory for what it changes.
    Memory,
}

impl From<AllocError> for CatalogFault {
    ghost from_gives = { λ _ e. e ≡ faults.Memory };

    fn from(_: AllocError) -> Self {
        CatalogFault::Memory
    }
}

impl From<Reply> for CatalogFault {
    ghost from_gives = { λ reply e. e ≡ faults.Refused reply };

    fn from(reply: Reply) -> Self {
        CatalogFault::Refused(reply)
    }
}
