// What kept calls make of bytes.
ghost use Rattle.std.specs.Prelude.{◌≡◌, ◌≤◌, IfOk, OnOk, length};
ghost use Rattle.std.specs.List.{after_last};
ghost use Rattle.aq_disk.specs.Kept.{all_filled, up_to, since_sync, until_sync, image_after};

use crate::kept::{Fill, Kept};
use std::alloc::{AllocError, Global};

/// The calls up to a number.
pub fn up_to(kept: &[Kept], call: u64) -> &[Kept]
    ensures { result.now ≡ up_to call kept.now }
{
    for (at, k) in kept.iter().enumerate() {
        if call < k.call {
            return &kept[..at];
        }
    }
    kept
}

/// The calls up to the last sync, and those after it.
pub fn split_at_sync(kept: &[Kept]) -> (&[Kept], &[Kept])
    ensures until { result.0.now ≡ until_sync kept.now }
    ensures since { result.1.now ≡ since_sync kept.now }
{
    let mut from = 0;
    for (at, k) in kept.iter().enumerate() {
        if k.is_sync() {
            from = at + 1;
        }
    }
    kept.split_at(from)
}

/// Does calls to bytes, each write's range as the fill says.
pub fn fill_all(kept: &[Kept], fill: Fill, bytes: &mut Vec<u8>) -> Result<(), AllocError>
    ensures { OnOk result (bytes.new.items ≡ all_filled fill bytes.old.items kept.now) }
{
    for k in kept {
        k.fill_in(fill, bytes)?;
    }
    Ok(())
}
