// A journal is compacted into the checkpoint of tables.
ghost use Rattle.std.specs.Prelude.{◌≡◌, ◌≤◌, ◌∷◌, [], None, Some, Ok, IfOk, IfErr, OnOk, option_map};
ghost use Rattle.std.specs.Option.{ForSome};
ghost use Rattle.aq_disk.specs.Causes.{Rose};
ghost use Rattle.aq_disk.specs.Disk.{EachImage, KeepsEarlier};
ghost use Rattle.redo_journal.specs.Journal.{Mounted, area, bodies_in};
ghost use Rattle.redo_journal.specs.Journaled.{Rests};
ghost use Rattle.redo_journal.specs.Runs.{HasJournal};
ghost use Rattle.redo_records.specs.Recovered.{after_bodies, recovered};
ghost use Rattle.redo_records.specs.Spelling.{encode};
ghost use Rattle.queue_rows.specs.Tables.{empty_tables};
ghost use Rattle.checkpoint.specs.Answer.{disk_in, disk_after, IsFault};
ghost use Rattle.checkpoint.specs.Compaction.{compacted_journal, turned_bytes};
ghost use Rattle.database_recovery.specs.Sound.{IsSound};
ghost use Rattle.checkpoint_commit.specs.Checkpoint.{checkpoint_of};

use crate::checkpoint_commit;
use crate::laws::compaction_recovers;
use aq_disk::Disk;
use checkpoint::{CompactFault, compact};
use queue_rows::Tables;
use redo_journal::Journal;
use redo_records::encode;
use std::alloc::{AllocError, Global};

// The bytes of the commit that leads to these tables.
fn checkpoint_bytes(alloc: Global, tables: &Tables) -> Result<Vec<u8>, AllocError>
    ensures { IfOk result (λ bytes. bytes.items ≡ encode (checkpoint_of tables.now)) }
{
    let commit = checkpoint_commit(alloc, tables)?;
    encode(&commit)
}

/// Writes a journal anew with one frame, which holds the one commit that leads to these tables, and gives its disk back. Whoever goes
/// on with the disk mounts it. Where the journal led to these tables, every crash leaves a disk that is recovered to them, whichever
/// version the journal had. All memory is taken before the first call on the disk.
pub fn compact_into<D: Disk>(
    alloc: Global,
    journal: Journal<D>,
    tables: &Tables,
) -> Result<D, CompactFault<D>>
    requires queued { journal.queued ≡ [] }
    requires fine { journal.failed_at ≡ None }
    requires sound { IsSound tables.now }
    ensures bytes { IfOk result (λ disk. D.seen disk
        ≡ option_map (turned_bytes journal.active (area (encode (checkpoint_of tables.now) ∷ [])))
        (D.seen journal.disk)) }
    ensures rests { IfOk result (λ disk. (m : Mounted) → Rests D.seen D.is_image D.calls journal m
        → HasJournal D.seen D.is_image D.calls disk
        (compacted_journal journal.active (encode (checkpoint_of tables.now)))) }

    // A crash at any moment leaves a disk that is recovered to the tables.
    ensures crash { ForSome (D.seen journal.disk) (λ _. (m : Mounted)
        → Rests D.seen D.is_image D.calls journal m
        → after_bodies m.version empty_tables (bodies_in m.frames) ≡ Some tables.now
        → EachImage (D.calls journal.disk) (D.calls (disk_after result)) (D.is_image (disk_after result))
        (λ image. recovered image ≡ Ok tables.now)) }
    ensures earlier { KeepsEarlier (D.calls journal.disk) (D.is_image journal.disk)
        (D.is_image (disk_after result)) }
    ensures later { D.calls journal.disk ≤ D.calls (disk_after result) }
    ensures fine { OnOk result (D.faults (disk_after result) ≡ D.faults journal.disk) }
    ensures fault { IfErr result (λ e. IsFault e → Rose (D.faults journal.disk) (D.faults (disk_in e))) }
    ensures memory { IfErr result (λ e. (IsFault e → ⊥) → disk_in e ≡ journal.disk) }
{
    compaction_recovers();
    let Ok(body) = checkpoint_bytes(alloc, tables) else {
        return Err(CompactFault::Memory(journal.into_disk()));
    };
    compact(alloc, journal, &body)
}
