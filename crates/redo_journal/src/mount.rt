// A journal is read from a disk, or begun on it.
ghost use Rattle.std.specs.Prelude.{◌≡◌, ◌↔◌, ◌≤◌, ◌<◌, ◌^◌, ℕ, [], List, length, option_map, Result, Ok, Err, None, OnOk, IfOk, IfErr, IsErrOf, true, false};
ghost use Rattle.std.specs.Option.{ForSome};
ghost use Rattle.aq_disk.specs.Causes.{Rose};
ghost use Rattle.aq_disk.specs.Disk.{KeepsEarlier};
ghost use Rattle.redo_journal.specs.Journal.{IsKnownVersion, Mounted, journal, is_unbegun, outline_of};
ghost use Rattle.redo_journal.specs.Broken.{IsDamagedAt, IsFaultOfKnownVersion};
ghost use Rattle.redo_journal.specs.Runs.{IsDiskSettled, HasJournal, MountRuns};
ghost use Rattle.redo_journal.specs.Begun.{begun_journal, mounted_by, after_mount, IsMountCause, IsCauseOfKnownVersion};
ghost use Rattle.redo_journal.specs.Journaled.{Rests, IsArea};
ghost use Rattle.redo_journal.specs.Mount.{mounted_as, HasKnownVersion, IsDamage, IsFault, disk_in, disk_after};

use crate::area::{Found, find, is_unbegun};
use crate::begin::begin;
use crate::frame::{Active, Damage, FrameAt, Side};
use crate::journal::{EMPTY_FRAME, Journal};
use crate::load::{LoadFault, load};
use crate::read::ChainFault;
use aq_disk::{Disk, Failed};
use payload_records::List;
use std::alloc::Global;

/// Why a journal is not mounted.
#[derive(Drop)]
pub(crate) enum MountCause {
    Fault,
    Damaged(Damage),
    Memory,
}

// The journal without frames that a beginning makes.
fn begun(alloc: Global) -> Found
    ensures { mounted_by result ≡ begun_journal }
{
    Found {
        version: 2,
        active: Active {
            side: Side::A,
            root: 24,
            gate: 28,
        },
        frames: List::new(alloc),
    }
}

fn cause_of(fault: ChainFault) -> MountCause
    ensures same { (bytes : List ℕ) → is_unbegun bytes ≡ false
        → IsDamagedAt fault (outline_of bytes) → IsMountCause result bytes }
    ensures known { IsFaultOfKnownVersion fault → IsCauseOfKnownVersion result }
    ensures no_fault { result ≡ MountCause.Fault → ⊥ }
{
    match fault {
        ChainFault::Broken(damage) => MountCause::Damaged(damage),
        ChainFault::Memory => MountCause::Memory,
    }
}

// Begins the journal where that was not done, and reads it else.
fn found_in<D: Disk>(alloc: Global, disk: &mut D, bytes: &[u8]) -> Result<Found, MountCause>
    requires told { ForSome (D.seen disk.old) (λ told. told ≡ bytes.now) }
    requires limit { length bytes.now ≤ 2 ^ 62 }
    ensures reads { IfOk result (λ f. journal bytes.now ≡ Ok (mounted_by f)) }
    ensures rests { IfOk result (λ f. IsDiskSettled D.seen D.is_image D.calls disk.old
        → HasJournal D.seen D.is_image D.calls disk.new (mounted_by f)) }
    ensures leaves { OnOk result (D.seen disk.new ≡ option_map after_mount (D.seen disk.old)) }
    ensures place { IfOk result (λ f. ForSome (D.seen disk.new) (λ new. f.active.gate < length new)) }
    ensures area { IfOk result (λ f. IsArea f.active) }
    ensures few { IfOk result (λ f. length f.frames ≤ f.active.gate) }
    ensures damaged { IfErr result (λ e. IsMountCause e bytes.now) }
    ensures version { IfOk result (λ f. IsKnownVersion f.version) }
    ensures known { IfErr result IsCauseOfKnownVersion }
    ensures silent { D.seen disk.old ≡ None → D.seen disk.new ≡ None }
    ensures crash { MountRuns D.seen D.is_image D.calls disk.old disk.new }
    ensures earlier { KeepsEarlier (D.calls disk.old) (D.is_image disk.old) (D.is_image disk.new) }
    ensures later { D.calls disk.old ≤ D.calls disk.new }
    ensures rise { D.faults disk.old ≤ D.faults disk.new }
    ensures fine { OnOk result (D.faults disk.new ≡ D.faults disk.old) }
    ensures no_fault { IfErr result (λ e. (e ≡ MountCause.Fault → ⊥)
        → D.faults disk.new ≡ D.faults disk.old) }
    ensures fault { IsErrOf result MountCause.Fault → Rose (D.faults disk.old) (D.faults disk.new) }
    ensures same { IfErr result (λ e. (e ≡ MountCause.Fault → ⊥) → D.seen disk.new ≡ D.seen disk.old) }
{
    if is_unbegun(bytes) {
        return match begin(disk, bytes) {
            Ok(()) => Ok(begun(alloc)),
            Err(Failed) => Err(MountCause::Fault),
        };
    }
    match find(alloc, bytes) {
        Ok(found) => Ok(found),
        Err(fault) => Err(cause_of(fault)),
    }
}

fn load_cause(fault: LoadFault) -> MountCause
    ensures silent { (bytes : List ℕ) → IsMountCause result bytes }
    ensures known { IsCauseOfKnownVersion result }
    ensures fault { (result ≡ MountCause.Fault) ↔ (fault ≡ LoadFault.Fault) }
{
    match fault {
        LoadFault::Fault => MountCause::Fault,
        LoadFault::Memory => MountCause::Memory,
    }
}

/// The journal that a disk has, begun where that was not done.
pub(crate) fn found_on<D: Disk>(alloc: Global, disk: &mut D) -> Result<Found, MountCause>
    ensures reads { IfOk result (λ f.
        ForSome (D.seen disk.old) (λ bytes. journal bytes ≡ Ok (mounted_by f))) }
    ensures rests { IfOk result (λ f. IsDiskSettled D.seen D.is_image D.calls disk.old
        → HasJournal D.seen D.is_image D.calls disk.new (mounted_by f)) }
    ensures leaves { OnOk result (D.seen disk.new ≡ option_map after_mount (D.seen disk.old)) }
    ensures place { IfOk result (λ f. ForSome (D.seen disk.new) (λ new. f.active.gate < length new)) }
    ensures area { IfOk result (λ f. IsArea f.active) }
    ensures few { IfOk result (λ f. length f.frames ≤ f.active.gate) }
    ensures damaged { IfErr result (λ e. ForSome (D.seen disk.old) (λ bytes. IsMountCause e bytes)) }
    ensures version { IfOk result (λ f. IsKnownVersion f.version) }
    ensures known { IfErr result IsCauseOfKnownVersion }
    ensures silent { D.seen disk.old ≡ None → D.seen disk.new ≡ None }
    ensures crash { MountRuns D.seen D.is_image D.calls disk.old disk.new }
    ensures earlier { KeepsEarlier (D.calls disk.old) (D.is_image disk.old) (D.is_image disk.new) }
    ensures later { D.calls disk.old ≤ D.calls disk.new }
    ensures rise { D.faults disk.old ≤ D.faults disk.new }
    ensures fine { OnOk result (D.faults disk.new ≡ D.faults disk.old) }
    ensures no_fault { IfErr result (λ e. (e ≡ MountCause.Fault → ⊥)
        → D.faults disk.new ≡ D.faults disk.old) }
    ensures fault { IsErrOf result MountCause.Fault → Rose (D.faults disk.old) (D.faults disk.new) }
    ensures same { IfErr result (λ e. (e ≡ MountCause.Fault → ⊥) → D.seen disk.new ≡ D.seen disk.old) }
{
    match load(alloc, disk) {
        Ok(bytes) => found_in(alloc, disk, &bytes),
        Err(fault) => Err(load_cause(fault)),
    }
}

/// Why a journal is not mounted. The disk is given back.
#[derive(Drop)]
pub enum MountFault<D> {
    /// A call on the disk failed.
    Fault(D),
    /// The bytes are no journal.
    Damaged(Damage, D),
    /// There was no memory.
    Memory(D),
}

fn fault_of<D>(cause: MountCause, disk: D) -> MountFault<D>
    ensures damage { (bytes : List ℕ) → IsMountCause cause bytes → IsDamage result bytes }
    ensures known { IsCauseOfKnownVersion cause → HasKnownVersion result }
    ensures disk { disk_in result ≡ disk }
    ensures fault { IsFault result ↔ (cause ≡ MountCause.Fault) }
{
    match cause {
        MountCause::Fault => MountFault::Fault(disk),
        MountCause::Damaged(damage) => MountFault::Damaged(damage, disk),
        MountCause::Memory => MountFault::Memory(disk),
    }
}

impl<D: Disk> Journal<D> {
    /// Reads a disk whole, and answers its journal and its frames. A disk that has none yet is begun.
    pub fn mount(alloc: Global, mut disk: D) -> Result<(Journal<D>, List<FrameAt>), MountFault<D>>
        ensures reads { IfOk result (λ r.
            ForSome (D.seen disk) (λ bytes. journal bytes ≡ Ok (mounted_as r.0 r.1))) }
        ensures rests { IfOk result (λ r. IsDiskSettled D.seen D.is_image D.calls disk
            → Rests D.seen D.is_image D.calls r.0 (mounted_as r.0 r.1)) }
        ensures empty { IfOk result (λ r. r.0.queued ≡ []) }
        ensures unfailed { IfOk result (λ r. r.0.failed_at ≡ None) }
        ensures bytes { OnOk result (D.seen (disk_after result) ≡ option_map after_mount (D.seen disk)) }
        ensures damaged { IfErr result (λ e. ForSome (D.seen disk) (IsDamage e)) }
        ensures version { IfOk result (λ r. IsKnownVersion r.0.version) }
        ensures known { IfErr result HasKnownVersion }
        ensures silent { D.seen disk ≡ None → D.seen (disk_after result) ≡ None }

        // A crash at any moment leaves what was read, or, where the disk was not begun, no commit.
        ensures crash { MountRuns D.seen D.is_image D.calls disk (disk_after result) }
        ensures earlier { KeepsEarlier (D.calls disk) (D.is_image disk) (D.is_image (disk_after result)) }
        ensures later { D.calls disk ≤ D.calls (disk_after result) }
        ensures fine { OnOk result (D.faults (disk_after result) ≡ D.faults disk) }
        ensures no_fault { IfErr result (λ e. (IsFault e → ⊥) → D.faults (disk_in e) ≡ D.faults disk) }
        ensures same { IfErr result (λ e. (IsFault e → ⊥) → D.seen (disk_in e) ≡ D.seen disk) }
        ensures fault { IfErr result (λ e. IsFault e → Rose (D.faults disk) (D.faults (disk_in e))) }
    {
        let Ok(room) = Vec::with_capacity(alloc, EMPTY_FRAME) else {
            return Err(MountFault::Memory(disk));
        };
        match found_on(alloc, &mut disk) {
            Ok(found) => {
                let count = found.frames.len() as u64;
                let journal = Journal::start(disk, alloc, found.version, found.active, count, room);
                Ok((journal, found.frames))
            }
            Err(cause) => Err(fault_of(cause, disk)),
        }
    }
}
