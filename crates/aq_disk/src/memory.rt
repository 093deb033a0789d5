// A disk in memory, which keeps its calls and fails where it is told to.
ghost use Rattle.std.specs.Prelude.{nat_le, IsTrue};
ghost use Rattle.std.specs.List.{list_all};

use crate::counts::Counts;
use crate::held::Held;
use crate::kept::Fill;
use crate::plan::is_set_to_fail;
use crate::{Disk, Failed, LENGTH_LIMIT};
use std::alloc::{AllocError, Global};

/// A disk in memory. It tells its bytes and their images, and fails where it is told to.
#[derive(Drop)]
pub struct MemoryDisk {
    alloc: Global,
    held: Held,
    counts: Counts,
    failing: Vec<u64>,
    fuse: Option<u64>,
    ghost numbered: { IsTrue (list_all (λ k. nat_le k.call counts.calls) held.kept.items) },
}

impl MemoryDisk {
    ghost use Rattle.std.specs.Prelude.{ℕ, ◌≡◌, ◌≤◌, ◌<◌, ◌+◌, ◌-◌, ◌^◌, [], length, Some, IfOk, OnOk, OnErr, IsErr, ◌↔◌};
    ghost use Rattle.aq_disk.specs.Causes.{HasCause};
    ghost use Rattle.aq_disk.specs.Disk.{IsSettled, next_call, after_write};
    ghost use Rattle.aq_disk.specs.Kept.{AddsWrite};
    ghost use Rattle.aq_disk.specs.Held.{SameHeld};
    ghost use Rattle.aq_disk.specs.Memory.{image_of, start_of, kept_of, FailsAt, IsSetTo, SamePlan};
    ghost use Rattle.aq_disk.specs.declared.kept.Fill.TheVariants.{New};

    /// A disk of these bytes, all of them synced. Its calls of the listed numbers fail, and all calls past the fuse.
    /// A growth that finds no memory is a fault. Bytes past the limit of a disk find no memory.
    pub fn of(
        alloc: Global,
        bytes: Vec<u8>,
        failing: Vec<u64>,
        fuse: Option<u64>,
    ) -> Result<MemoryDisk, AllocError>
        ensures bytes { IfOk result (λ disk. ⟦<MemoryDisk as Disk>⟧.seen disk ≡ Some bytes.items) }
        ensures start { IfOk result (λ disk. (start_of disk ≡ bytes.items) × (kept_of disk ≡ [])) }
        ensures settled { IfOk result (λ disk.
            IsSettled (⟦<MemoryDisk as Disk>⟧.seen disk) (⟦<MemoryDisk as Disk>⟧.is_image disk 0)) }
        ensures plan { IfOk result (λ disk. IsSetTo disk failing.items fuse) }
        ensures calls { IfOk result (λ disk. ⟦<MemoryDisk as Disk>⟧.calls disk ≡ 0) }
        ensures faults { IfOk result (λ disk. ⟦<MemoryDisk as Disk>⟧.faults disk ≡ 0) }
    {
        if bytes.len() as u64 > LENGTH_LIMIT {
            return Err(AllocError);
        }
        Ok(MemoryDisk {
            alloc,
            held: Held::new(alloc, bytes)?,
            counts: Counts::ZERO,
            failing,
            fuse,
        })
    }

    /// One of the images that a crash may leave at a call number: the bytes at the last sync up to it that
    /// succeeded, with each range that was written since as the fill says. With the ranges as written, the image of
    /// the last call is what a read gives.
    pub fn image(&self, alloc: Global, call: u64, fill: Fill) -> Result<Vec<u8>, AllocError>
        requires { call ≤ ⟦<MemoryDisk as Disk>⟧.calls self.now }
        ensures bytes { IfOk result (λ image. image.items ≡ image_of self.now call fill) }
        ensures image { IfOk result (λ image. ⟦<MemoryDisk as Disk>⟧.is_image self.now call image.items) }
        ensures read { IfOk result (λ image. fill ≡ New → call ≡ ⟦<MemoryDisk as Disk>⟧.calls self.now
            → ⟦<MemoryDisk as Disk>⟧.seen self.now ≡ Some image.items) }
    {
        self.held.image(alloc, call, fill)
    }

    // Takes the next number, where there is one.
    fn count(&mut self) -> Result<(), Failed>
        ensures number { self.new.counts.calls ≡ next_call self.old.counts.calls }
        ensures ok { OnOk result (self.old.counts.calls < self.new.counts.calls) }
        ensures at_end { OnErr result (self.old.counts.calls ≡ 2 ^ 64 - 1) }
        ensures held { self.new.held ≡ self.old.held }
        ensures plan { SamePlan self.old self.new }
        ensures cause { HasCause self.old.counts.faults self.new.counts.faults result }
    {
        self.counts.next()
    }

    // Fails where the call is set to fail.
    fn work(&mut self) -> Result<(), Failed>
        ensures set { IsErr result ↔ FailsAt self.old self.old.counts.calls }
        ensures number { self.new.counts.calls ≡ self.old.counts.calls }
        ensures held { self.new.held ≡ self.old.held }
        ensures plan { SamePlan self.old self.new }
        ensures cause { HasCause self.old.counts.faults self.new.counts.faults result }
    {
        if is_set_to_fail(&self.failing, self.fuse, self.counts.calls) {
            return Err(self.counts.fail());
        }
        Ok(())
    }

    // Writes and keeps the write, where there is room for it.
    fn write(&mut self, at: u64, from: &[u8]) -> Result<(), Failed>
        requires { at ≤ length self.old.held.bytes.items }
        ensures number { self.new.counts.calls ≡ self.old.counts.calls }
        ensures limit { OnOk result (at + length from.now ≤ 2 ^ 62) }
        ensures kept { OnOk result (AddsWrite
            self.old.held.kept.items self.new.held.kept.items self.old.counts.calls at from.now) }
        ensures bytes { OnOk result
            (self.new.held.bytes.items ≡ after_write at from.now self.old.held.bytes.items) }
        ensures start { self.new.held.start ≡ self.old.held.start }
        ensures plan { SamePlan self.old self.new }
        ensures err { OnErr result (SameHeld self.old.held self.new.held) }
        ensures cause { HasCause self.old.counts.faults self.new.counts.faults result }
    {
        if from.len() as u64 > LENGTH_LIMIT - at {
            return Err(self.counts.fail());
        }
        match self.held.write(self.alloc, self.counts.calls, at, from) {
            Ok(()) => Ok(()),
            Err(AllocError) => Err(self.counts.fail()),
        }
    }
}

impl Disk for MemoryDisk {
    ghost use Rattle.std.specs.Prelude.{Some};
    ghost use Rattle.std.proofs.Common.{rules};
    ghost use Rattle.aq_disk.specs.Kept.{IsImageAfter, up_to};
    ghost use Rattle.aq_disk.specs.Left.{left_read, told_in_limit};
    ghost use Rattle.aq_disk.specs.Memory.{Looks, Writes, Syncs};

    ghost seen = { λ d. Some d.held.bytes.items };

    ghost is_image = { λ d call image. IsImageAfter d.held.start.items (up_to call d.held.kept.items) image };

    ghost calls = { λ d. d.counts.calls };

    ghost faults = { λ d. d.counts.faults };

    ghost says_of_look = { λ old new failed. Looks old new failed };

    ghost says_of_write = { λ old new at from failed. Writes old new at from failed };

    ghost says_of_sync = { λ old new failed. Syncs old new failed };

    ghost reads_an_image = { λ d bytes same. left_read
        d.held.start.items d.held.kept.items d.counts.calls d.held.bytes.items bytes
        d.held.placed d.numbered d.held.as_kept same };

    ghost told_limit = { λ d bytes same. told_in_limit d.held.bytes.items bytes d.held.in_limit same };

    fn len(&mut self) -> Result<u64, Failed> {
        self.count()?;
        self.work()?;
        Ok(self.held.bytes.len() as u64)
    }

    fn read(&mut self, at: u64, into: &mut [u8]) -> Result<usize, Failed> {
        self.count()?;
        self.work()?;
        let from = self.held.bytes.len().min(at as usize);
        let count = into.len().min(self.held.bytes.len() - from);
        into[..count].copy_from_slice(&self.held.bytes[from..from + count]);
        Ok(count)
    }

    fn write_at(&mut self, at: u64, from: &[u8]) -> Result<(), Failed> {
        self.count()?;
        self.write(at, from)?;
        self.work()
    }

    fn sync(&mut self) -> Result<(), Failed> {
        self.count()?;
        self.work()?;
        match self.held.sync(self.counts.calls) {
            Ok(()) => Ok(()),
            Err(AllocError) => Err(self.counts.fail()),
        }
    }

    fn calls(&self) -> u64 {
        self.counts.calls
    }

    fn faults(&self) -> u64 {
        self.counts.faults
    }
}
