// The calls that a disk in memory keeps.
ghost use Rattle.std.specs.Prelude.{◌≡◌, OnOk};

use crate::bytes::overwrite;
use std::alloc::{AllocError, Global};

/// What a kept call did.
#[derive(Drop)]
pub enum Step {
    /// A write from a place on, also one that failed.
    Write(u64, Vec<u8>),
    /// A sync that succeeded.
    Sync,
}

/// A kept call, with its number.
#[derive(Drop)]
pub struct Kept {
    pub call: u64,
    pub step: Step,
}

/// What an image has in each range that was written since the last sync that succeeded, and past the old end.
#[derive(Clone, Copy, Debug, PartialEq, Eq)]
pub enum Fill {
    /// The bytes as at that sync, and its length.
    Old,
    /// The bytes as written.
    New,
    /// This byte.
    Byte(u8),
}

impl Kept {
    ghost use Rattle.aq_disk.specs.Kept.{filled, is_sync};

    /// Does the call to bytes, with a write's range as the fill says.
    pub fn fill_in(&self, fill: Fill, bytes: &mut Vec<u8>) -> Result<(), AllocError>
        ensures { OnOk result (bytes.new.items ≡ filled fill bytes.old.items self.now) }
    {
        let Step::Write(at, new) = &self.step else {
            return Ok(());
        };
        match fill {
            Fill::Old => Ok(()),
            Fill::New => overwrite(bytes, *at as usize, new),
            Fill::Byte(byte) => {
                let torn = vec![in bytes.allocator().clone()?; byte; new.len()]?;
                overwrite(bytes, *at as usize, &torn)
            }
        }
    }

    /// Whether it is a sync.
    pub fn is_sync(&self) -> bool
        ensures { result ≡ is_sync self.now }
    {
        matches!(self.step, Step::Sync)
    }
}
