// Why a line, or a whole script, was not read.
ghost use Rattle.std.specs.Prelude.{◌≡◌};
ghost use Rattle.script_text.specs.declared.fault.LineFault.TheVariants as lines;
ghost use Rattle.script_text.specs.declared.fault.ScriptFault.TheVariants as scripts;

use std::alloc::{AllocError, AllocFailed};
use thiserror::Error;

/// Why a line was not read.
#[derive(Clone, Copy, Debug, PartialEq, Eq)]
pub enum LineFault {
    /// It says nothing that a script may say there.
    Bad,
    /// There was no memory for it.
    Memory,
}

/// Why a script was not read.
#[derive(Clone, Copy, Debug, PartialEq, Eq, Error)]
pub enum ScriptFault {
    /// It is none, and this is its first bad line, counted from 1.
    #[error("bad line {line}")]
    Bad {
        /// The number of the line.
        line: u64,
    },
    /// There was no memory for it.
    #[error("out of memory")]
    Memory,
}

impl From<AllocError> for LineFault {
    ghost from_gives = { λ _ e. e ≡ lines.Memory };

    fn from(_: AllocError) -> Self {
        LineFault::Memory
    }
}

impl<T: Drop> From<AllocFailed<T>> for LineFault {
    ghost from_gives = { λ _ e. e ≡ lines.Memory };

    fn from(_: AllocFailed<T>) -> Self {
        LineFault::Memory
    }
}

impl From<AllocError> for ScriptFault {
    ghost from_gives = { λ _ e. e ≡ scripts.Memory };

    fn from(_: AllocError) -> Self {
        ScriptFault::Memory
    }
}
