// A write over bytes in memory.
ghost use Rattle.std.specs.Prelude.{◌≡◌, OnOk, OnErr};
ghost use Rattle.aq_disk.specs.Disk.{after_write};

use std::alloc::{AllocError, Global};

/// Writes from a place on, and past the end. Where no memory is found the bytes stay.
pub fn overwrite(bytes: &mut Vec<u8>, at: usize, from: &[u8]) -> Result<(), AllocError>
    ensures ok { OnOk result (bytes.new.items ≡ after_write at from.now bytes.old.items) }
    ensures err { OnErr result (bytes.new.items ≡ bytes.old.items) }
{
    let len = bytes.len();
    if len <= at {
        return bytes.extend_from_slice(from);
    }
    let room = len - at;
    if from.len() <= room {
        bytes[at..at + from.len()].copy_from_slice(from);
    } else {
        bytes.extend_from_slice(&from[room..])?;
        bytes[at..len].copy_from_slice(&from[..room]);
    }
    Ok(())
}
