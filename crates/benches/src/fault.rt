// Why there was nothing to measure.
use payload_records::NameFault;
use redo_journal::JournalFault;
use redo_records::DecodeFault;
use row_locks::LockFault;
use std::alloc::{AllocError, AllocFailed};
use std::io;
use std::io::ErrorKind;

/// Why there was nothing to measure.
#[derive(Clone, Copy, Debug)]
pub enum Fault {
    /// The words ask for nothing that is measured.
    Usage,
    Memory,
    /// What the system said of the clock, a file or the output.
    Host(ErrorKind),
    /// A call did not take what it was given to be measured with.
    Refused,
    /// A call that was measured gave another answer than is known to be right.
    Wrong,
}

impl From<AllocError> for Fault {
    fn from(_: AllocError) -> Self {
        Fault::Memory
    }
}

impl<T: Drop> From<AllocFailed<T>> for Fault {
    fn from(_: AllocFailed<T>) -> Self {
        Fault::Memory
    }
}

impl From<io::Error> for Fault {
    fn from(error: io::Error) -> Self {
        Fault::Host(error.kind())
    }
}

impl From<JournalFault> for Fault {
    fn from(_: JournalFault) -> Self {
        Fault::Refused
    }
}

impl From<DecodeFault> for Fault {
    fn from(fault: DecodeFault) -> Self {
        match fault {
            DecodeFault::Memory => Fault::Memory,
            DecodeFault::NoSpelling => Fault::Refused,
        }
    }
}

impl From<NameFault> for Fault {
    fn from(fault: NameFault) -> Self {
        match fault {
            NameFault::Memory => Fault::Memory,
            NameFault::Bad => Fault::Refused,
        }
    }
}

impl From<LockFault> for Fault {
    fn from(fault: LockFault) -> Self {
        match fault {
            LockFault::Memory => Fault::Memory,
            LockFault::Held(_) => Fault::Refused,
        }
    }
}

/// Tells a wrong answer.
pub fn right(is_right: bool) -> Result<(), Fault> {
    if is_right { Ok(()) } else { Err(Fault::Wrong) }
}
