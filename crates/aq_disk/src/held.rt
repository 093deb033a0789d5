// What a disk in memory holds: its bytes at first, the calls that it keeps, and its bytes now.
ghost use Rattle.std.specs.Prelude.{◌≡◌, ◌≤◌, ◌^◌, length, IsTrue};
ghost use Rattle.aq_disk.specs.Kept.{all_filled, in_place};
ghost use Rattle.aq_disk.specs.declared.kept.Fill.TheVariants.{New};

use crate::bytes::overwrite;
use crate::kept::{Fill, Kept, Step};
use crate::replay::{fill_all, split_at_sync, up_to};
use std::alloc::{AllocError, Global};

#[derive(Drop)]
pub struct Held {
    pub start: Vec<u8>,
    pub kept: Vec<Kept>,
    pub bytes: Vec<u8>,
    ghost as_kept: { bytes.items ≡ all_filled New start.items kept.items },
    ghost placed: { IsTrue (in_place (length start.items) kept.items) },
    ghost in_limit: { length bytes.items ≤ 2 ^ 62 },
}

impl Held {
    ghost use Rattle.std.specs.Prelude.{◌+◌, ◌∷◌, [], ◌++◌, IfOk, OnOk, OnErr};
    ghost use Rattle.aq_disk.specs.Disk.{after_write};
    ghost use Rattle.aq_disk.specs.Kept.{AddsWrite, IsImageAfter, image_after, up_to};
    ghost use Rattle.aq_disk.specs.Held.{SameHeld};
    ghost use Rattle.aq_disk.specs.declared.kept.Step.TheVariants.{Sync};

    pub fn new(alloc: Global, bytes: Vec<u8>) -> Result<Held, AllocError>
        requires { length bytes.items ≤ 2 ^ 62 }
        ensures start { IfOk result (λ held. held.start.items ≡ bytes.items) }
        ensures kept { IfOk result (λ held. held.kept.items ≡ []) }
        ensures bytes { IfOk result (λ held. held.bytes.items ≡ bytes.items) }
    {
        Ok(Held {
            start: bytes.to_vec(alloc)?,
            kept: Vec::new(alloc),
            bytes,
        })
    }

    /// Writes, and keeps the write under a number.
    pub fn write(
        &mut self,
        alloc: Global,
        call: u64,
        at: u64,
        from: &[u8],
    ) -> Result<(), AllocError>
        requires place { at ≤ length self.old.bytes.items }
        requires limit { at + length from.now ≤ 2 ^ 62 }
        ensures kept { OnOk result (AddsWrite self.old.kept.items self.new.kept.items call at from.now) }
        ensures bytes { OnOk result (self.new.bytes.items ≡ after_write at from.now self.old.bytes.items) }
        ensures start { self.new.start ≡ self.old.start }
        ensures err { OnErr result (SameHeld self.old self.new) }
    {
        let bytes = from.to_vec(alloc)?;
        self.kept.reserve(1)?;
        overwrite(&mut self.bytes, at as usize, from)?;
        let step = Step::Write(at, bytes);
        self.kept.push(Kept { call, step }).unwrap();
        Ok(())
    }

    /// Keeps a sync under a number.
    pub fn sync(&mut self, call: u64) -> Result<(), AllocError>
        ensures kept { OnOk result
            (self.new.kept.items ≡ self.old.kept.items ++ record { call = call; step = Sync } ∷ []) }
        ensures bytes { self.new.bytes ≡ self.old.bytes }
        ensures start { self.new.start ≡ self.old.start }
        ensures err { OnErr result (SameHeld self.old self.new) }
    {
        let step = Step::Sync;
        self.kept.push(Kept { call, step })?;
        Ok(())
    }

    /// The bytes at the last sync up to a number, with each range that was written since as the fill says.
    pub fn image(&self, alloc: Global, call: u64, fill: Fill) -> Result<Vec<u8>, AllocError>
        ensures bytes { IfOk result (λ image.
            image.items ≡ image_after fill self.now.start.items (up_to call self.now.kept.items)) }
        ensures image { IfOk result (λ image.
            IsImageAfter self.now.start.items (up_to call self.now.kept.items) image.items) }
    {
        let (until, since) = split_at_sync(up_to(&self.kept, call));
        let mut image = self.start.to_vec(alloc)?;
        fill_all(until, Fill::New, &mut image)?;
        fill_all(since, fill, &mut image)?;
        Ok(image)
    }
}
