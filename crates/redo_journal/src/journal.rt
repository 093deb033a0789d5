// The journal: bodies are queued, and then stand in one frame.
ghost use Rattle.std.specs.Prelude.{◌≡◌, ◌≤◌, ◌<◌, ◌+◌, ◌-◌, ◌^◌, take, ◌++◌, ◌∷◌, [], ℕ, List, length, Some, None, IsSome, IsOk, IsErr, IfSome, IfOk, OnOk, OnErr, vec_capacity};
ghost use Rattle.std.specs.Option.{ForSome};
ghost use Rattle.aq_disk.specs.Causes.{HasCause};
ghost use Rattle.aq_disk.specs.Disk.{KeepsEarlier};
ghost use Rattle.redo_journal.specs.Journal.{Mounted, frame};
ghost use Rattle.redo_journal.specs.Crash.{with_frame, AppendLeaves};
ghost use Rattle.redo_journal.specs.Journaled.{with_gate, bodies_as, room_for, Rests, IsArea};

use crate::frame::Active;
use crate::put::put_queued;
use aq_disk::{Disk, Failed};
use std::alloc::{AllocError, Global};
use std::marker::Model;
use std::mem;

// The room for a frame without bodies, and for a body's length.
pub(crate) const EMPTY_FRAME: usize = 19;

const LENGTH: usize = 10;

/// Why a journal can't go on.
#[derive(Clone, Copy, Debug, PartialEq, Eq)]
pub enum JournalFault {
    /// A call on the disk failed, now or in an earlier append.
    Fault,
}

/// A journal on a disk. Bodies are queued, and then written as one frame.
pub struct Journal<D: Disk> {
    disk: D,
    alloc: Global,
    version: u32,
    active: Active,
    count: u64,
    failed_at: Option<u64>,
    queued: Vec<Vec<u8>>,
    // The bodies of the last frame, whose memory is used again.
    written: Vec<Vec<u8>>,
    room: Vec<u8>,
    needed: usize,
}

impl<D: Disk + Drop> Drop for Journal<D> {
    fn drop(self) {
        let Self {
            disk: _,
            alloc: _,
            version: _,
            active: _,
            count: _,
            failed_at: _,
            queued: _,
            written: _,
            room: _,
            needed: _,
        } = self;
    }
}

impl<D: Disk> Model for Journal<D> {
    ghost use Rattle.std.specs.Prelude.{vec_capacity};
    ghost use Rattle.redo_journal.specs.Journaled.{Journaled, IsKept, bodies_as};

    ghost Value = { Journaled D };

    ghost view = { λ j. record {
      disk = j.disk;
      version = j.version;
      active = j.active;
      count = j.count;
      failed_at = j.failed_at;
      queued = bodies_as j.queued.items;
    } };

    ghost invariant = { λ j.
        IsKept (D.seen j.disk) j.active j.count j.failed_at
        (bodies_as j.queued.items) j.needed (vec_capacity j.room) };
}

// A copy of a body, in the memory of one that was written, where there is one.
fn copy_of(alloc: Global, written: &mut Vec<Vec<u8>>, body: &[u8]) -> Result<Vec<u8>, AllocError>
    ensures { IfOk result (λ copy. copy.items ≡ body.now) }
{
    let Some(mut copy) = written.pop() else {
        return body.to_vec(alloc);
    };
    copy.clear();
    copy.extend_from_slice(body)?;
    Ok(copy)
}

// Ends the queue: all bodies in it were written.
fn retire(queued: &mut Vec<Vec<u8>>, written: &mut Vec<Vec<u8>>)
    ensures { queued.new.items ≡ [] }
{
    written.clear();
    mem::swap(queued, written);
}

// Puts a body last, and takes the room for its frame.
fn queue_body(
    alloc: Global,
    queued: &mut Vec<Vec<u8>>,
    written: &mut Vec<Vec<u8>>,
    room: &mut Vec<u8>,
    needed: usize,
    body: &[u8],
) -> Result<(), AllocError>
    ensures ok { OnOk result (bodies_as queued.new.items ≡ bodies_as queued.old.items ++ body.now ∷ []) }
    ensures err { OnErr result (queued.new.items ≡ queued.old.items) }
    ensures room { OnOk result (needed ≤ vec_capacity room.new) }
    ensures capacity { vec_capacity room.old ≤ vec_capacity room.new }
{
    let copy = copy_of(alloc, written, body)?;
    room.clear();
    room.reserve(needed)?;
    queued.push(copy)?;
    Ok(())
}

impl<D: Disk> Journal<D> {
    // A journal with nothing queued.
    pub(crate) fn start(
        disk: D,
        alloc: Global,
        version: u32,
        active: Active,
        count: u64,
        room: Vec<u8>,
    ) -> Journal<D>
        requires area { IsArea active }
        requires few { count ≤ active.gate }
        requires room { 19 ≤ vec_capacity room }
        requires place { ForSome (D.seen disk) (λ bytes. active.gate < length bytes) }
        ensures { result ≡ record {
          disk = disk;
          version = version;
          active = active;
          count = count;
          failed_at = None;
          queued = [];
        } }
    {
        Journal {
            disk,
            alloc,
            version,
            active,
            count,
            failed_at: None,
            queued: Vec::new(alloc),
            written: Vec::new(alloc),
            room,
            needed: EMPTY_FRAME,
        }
    }

    /// The disk that the journal stands on.
    pub fn disk(&self) -> &D
        ensures { result.now ≡ self.now.disk }
    {
        &self.disk
    }

    /// The disk, given back.
    pub fn into_disk(self) -> D
        ensures { result ≡ self.disk }
    {
        let Self {
            disk,
            alloc: _,
            version: _,
            active: _,
            count: _,
            failed_at: _,
            queued: _,
            written: _,
            room: _,
            needed: _,
        } = self;
        disk
    }

    /// The version of the active area.
    pub fn version(&self) -> u32
        ensures { result ≡ self.now.version }
    {
        self.version
    }

    /// The active area.
    pub fn active(&self) -> Active
        ensures value { result ≡ self.now.active }
        ensures area { IsArea result }
        ensures place { self.now.failed_at ≡ None
            → ForSome (D.seen self.now.disk) (λ bytes. result.gate < length bytes) }
    {
        self.active
    }

    /// How many frames stand in the active area.
    pub fn count(&self) -> u64
        ensures { result ≡ self.now.count }
    {
        self.count
    }

    /// The number of the failing call of the first append that failed.
    pub fn failed_at(&self) -> Option<u64>
        ensures { result ≡ self.now.failed_at }
    {
        self.failed_at
    }

    /// Queues a body, and takes all memory that writing it will need. At want of memory the journal is as
    /// before.
    pub fn prepare(&mut self, body: &[u8]) -> Result<(), AllocError>
        ensures ok { OnOk result (self.new ≡ record self.old { queued = self.old.queued ++ body.now ∷ [] }) }
        ensures err { OnErr result (self.new ≡ self.old) }
    {
        let left = usize::MAX - self.needed;
        if left < LENGTH || body.len() > left - LENGTH {
            return Err(AllocError);
        }
        let needed = self.needed + LENGTH + body.len();
        queue_body(
            self.alloc,
            &mut self.queued,
            &mut self.written,
            &mut self.room,
            needed,
            body,
        )?;
        self.needed = needed;
        Ok(())
    }
    /// Takes the body that was queued last back. It takes no memory.
    pub fn withdraw(&mut self)
        requires { 1 ≤ length self.old.queued }
        ensures { self.new ≡ record self.old { queued = take (length self.old.queued - 1) self.old.queued } }
    {
        if let Some(body) = self.queued.pop() {
            self.needed -= LENGTH + body.len();
        }
    }

    /// Writes all queued bodies as one frame. At `Ok` each crash leaves it. It takes no memory, and after a
    /// fault it makes no call on the disk.
    pub fn append(&mut self) -> Result<(), JournalFault>
        ensures ok { OnOk result (ForSome (D.seen self.old.disk) (λ _. (m : Mounted)
            → 1 ≤ length self.old.queued → Rests D.seen D.is_image D.calls self.old m
            → Rests D.seen D.is_image D.calls self.new (with_frame self.old.queued m))) }
        ensures tells { OnOk result (ForSome (D.seen self.old.disk) (λ _. IsSome (D.seen self.new.disk))) }
        ensures silent { D.seen self.old.disk ≡ None → D.seen self.new.disk ≡ None }
        ensures queued { OnOk result (self.new.queued ≡ []) }
        ensures fine { OnOk result (self.new.failed_at ≡ None) }

        // Where nothing is queued no call is made on the disk.
        ensures nothing { self.old.failed_at ≡ None → self.old.queued ≡ []
            → IsOk result × (self.new ≡ self.old) }

        // A crash at any moment leaves the frames so far, with the new one or without.
        ensures crash { ForSome (D.seen self.old.disk) (λ _. (m : Mounted)
            → Rests D.seen D.is_image D.calls self.old m
            → AppendLeaves m self.old.queued
            (D.calls self.old.disk) (D.calls self.new.disk) (D.is_image self.new.disk)) }
        ensures earlier { KeepsEarlier (D.calls self.old.disk) (D.is_image self.old.disk)
            (D.is_image self.new.disk) }
        ensures later { D.calls self.old.disk ≤ D.calls self.new.disk }
        ensures number { D.calls self.new.disk ≤ D.calls self.old.disk + 4 }
        ensures cause { self.old.failed_at ≡ None
            → HasCause (D.faults self.old.disk) (D.faults self.new.disk) result }

        // Of the rest only the frame's end and the count change.
        ensures grown { OnOk result (1 ≤ length self.old.queued → self.new ≡ record self.old {
          disk = self.new.disk;
          active = with_gate (length (frame self.old.queued)) self.old.active;
          count = self.old.count + 1;
          queued = [];
        }) }

        // The first failure is the call at which it came, and from then on nothing is done.
        ensures failed { OnErr result (self.old.failed_at ≡ None → self.new ≡ record self.old {
          disk = self.new.disk;
          failed_at = Some (D.calls self.new.disk);
        }) }
        ensures stays_failed { IsSome self.old.failed_at → IsErr result × (self.new ≡ self.old) }
    {
        if self.failed_at.is_some() {
            return Err(JournalFault::Fault);
        }
        if self.queued.is_empty() {
            return Ok(());
        }
        match put_queued(
            &mut self.disk,
            self.active.gate,
            &mut self.room,
            &self.queued,
        ) {
            Ok(()) => {
                self.active.gate += self.room.len() as u64;
                self.count += 1;
                retire(&mut self.queued, &mut self.written);
                self.needed = EMPTY_FRAME;
                Ok(())
            }
            Err(Failed) => {
                self.failed_at = Some(self.disk.calls());
                Err(JournalFault::Fault)
            }
        }
    }
}
