// Why a step was not made.
ghost use Rattle.std.specs.Prelude.{◌≡◌};
ghost use Rattle.durable_state.specs.declared.broken.Broken.TheVariants.{Memory, Halted as BrokenHalted};

use redo_journal::JournalFault;
use std::alloc::AllocError;

/// A call on a disk failed, now or before, so that nothing can be made durable any more.
#[derive(Clone, Copy, Debug, PartialEq, Eq)]
pub struct Halted;

/// Why a step that takes memory and makes commits durable was not made.
#[derive(Clone, Copy, Debug, PartialEq, Eq)]
pub enum Broken {
    /// There was no memory.
    Memory,
    /// A call on a disk failed, now or before.
    Halted,
}

impl From<JournalFault> for Halted {
    fn from(_: JournalFault) -> Self {
        Halted
    }
}

impl From<AllocError> for Broken {
    ghost from_gives = { λ _ e. e ≡ Memory };

    fn from(_: AllocError) -> Self {
        Broken::Memory
    }
}

impl From<Halted> for Broken {
    ghost from_gives = { λ _ e. e ≡ BrokenHalted };

    fn from(_: Halted) -> Self {
        Broken::Halted
    }
}
