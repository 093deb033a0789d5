// A journal is compacted.
ghost use Rattle.std.specs.Prelude.{◌≡◌, ◌≤◌, [], ℕ, None, Some, OnOk, OnErr, IfOk, IfErr, option_map, ◌∷◌};
ghost use Rattle.std.specs.Option.{ForSome};
ghost use Rattle.aq_disk.specs.Causes.{HasCause, Rose};
ghost use Rattle.aq_disk.specs.Disk.{KeepsEarlier};
ghost use Rattle.redo_journal.specs.Journal.{Mounted, area};
ghost use Rattle.redo_journal.specs.Journaled.{Rests};
ghost use Rattle.redo_journal.specs.Runs.{HasJournal};
ghost use Rattle.checkpoint.specs.Compaction.{turned_bytes, compacted_journal, CompactLeaves};
ghost use Rattle.checkpoint.specs.Answer.{disk_in, disk_after, IsFault};

use crate::put::put_area;
use aq_disk::{Disk, Failed};
use redo_journal::{Journal, compacted_area};
use std::alloc::Global;

/// Why a journal is not compacted. The disk is given back.
#[derive(Drop)]
pub enum CompactFault<D> {
    /// A call on the disk failed. It has the old journal or the new one.
    Fault(D),
    /// There was no memory. No call was made on the disk.
    Memory(D),
}

/// Writes the journal anew with one frame, which holds this body, and gives its disk back. Whoever goes on
/// with the disk mounts it. All memory is taken before the first call on the disk.
pub fn compact<D: Disk>(
    alloc: Global,
    journal: Journal<D>,
    body: &[u8],
) -> Result<D, CompactFault<D>>
    requires queued { journal.queued ≡ [] }
    requires fine { journal.failed_at ≡ None }
    ensures bytes { IfOk result (λ disk. D.seen disk
        ≡ option_map (turned_bytes journal.active (area (body.now ∷ []))) (D.seen journal.disk)) }
    ensures rests { IfOk result (λ disk. (m : Mounted) → Rests D.seen D.is_image D.calls journal m
        → HasJournal D.seen D.is_image D.calls disk (compacted_journal journal.active body.now)) }

    // A crash at any moment leaves the old journal or the new one.
    ensures crash { ForSome (D.seen journal.disk) (λ _. (m : Mounted)
        → Rests D.seen D.is_image D.calls journal m
        → CompactLeaves m body.now
        (D.calls journal.disk) (D.calls (disk_after result)) (D.is_image (disk_after result))) }
    ensures earlier { KeepsEarlier (D.calls journal.disk) (D.is_image journal.disk)
        (D.is_image (disk_after result)) }
    ensures later { D.calls journal.disk ≤ D.calls (disk_after result) }
    ensures fine { OnOk result (D.faults (disk_after result) ≡ D.faults journal.disk) }
    ensures fault { IfErr result (λ e. IsFault e → Rose (D.faults journal.disk) (D.faults (disk_in e))) }
    ensures memory { IfErr result (λ e. (IsFault e → ⊥) → disk_in e ≡ journal.disk) }
{
    let active = journal.active();
    let Ok(area) = compacted_area(alloc, body) else {
        return Err(CompactFault::Memory(journal.into_disk()));
    };
    let mut disk = journal.into_disk();
    match put_area(&mut disk, active, &area) {
        Ok(()) => Ok(disk),
        Err(Failed) => Err(CompactFault::Fault(disk)),
    }
}
