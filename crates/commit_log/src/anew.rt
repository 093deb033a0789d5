// A journal of an older version is written anew.
ghost use Rattle.std.specs.Prelude.{◌≡◌, ◌↔◌, [], ℕ, Result, None, IfOk, IfErr};
ghost use Rattle.checkpoint.specs.Answer.{IsFault as IsCompactFault, disk_in as disk_in_compact};
ghost use Rattle.queue_rows.specs.declared.tables.Tables.{Tables};
ghost use Rattle.database_recovery.specs.Sound.{IsSound};
ghost use Rattle.commit_log.specs.Mounting.{IsDamageOf, IsFault, IsMounted, IsRead, IsRefused, disk_in};

use crate::LogFault;
use crate::read::read_log;
use aq_disk::Disk;
use checkpoint::CompactFault;
use checkpoint_commit::{checkpoint_restores, compact_into};
use database_recovery::{PreparedStore, contents_recover};
use redo_journal::Journal;
use std::alloc::Global;

/// The version in which journals are written.
pub(crate) const WRITTEN_VERSION: u32 = 2;

/// Why a journal is not written anew where it is not compacted.
pub(crate) fn fault_of<D>(fault: CompactFault<D>) -> LogFault<D>
    ensures undamaged { (led : Result Tables ℕ) → IsDamageOf led result }
    ensures disk { disk_in result ≡ disk_in_compact fault }
    ensures fault { IsFault result ↔ IsCompactFault fault }
{
    match fault {
        CompactFault::Fault(disk) => LogFault::Fault(disk),
        CompactFault::Memory(disk) => LogFault::Memory(disk),
    }
}

/// A journal of an older version, written anew with the one commit that leads to its tables, and read once more. A disk that then reads
/// otherwise than it was written is damaged.
pub(crate) fn written_anew<D: Disk>(
    alloc: Global,
    journal: Journal<D>,
    store: PreparedStore,
) -> Result<(Journal<D>, PreparedStore), LogFault<D>>
    requires queued { journal.queued ≡ [] }
    requires fine { journal.failed_at ≡ None }
    requires sound { IsSound store.tables }
    requires old { journal.version ≡ 2 → ⊥ }
    ensures mounted { IfOk result (λ r. (disk : D)
        → IsRead D.Disk disk store.tables journal → IsMounted D.Disk disk r.1.tables r.0) }
    ensures version { IfOk result (λ r. r.0.version ≡ 2) }
    ensures refused { IfErr result (λ e. (disk : D)
        → IsRead D.Disk disk store.tables journal → IsRefused D.Disk disk e) }
{
    checkpoint_restores();
    contents_recover();
    let disk = match compact_into(alloc, journal, store.tables()) {
        Ok(disk) => disk,
        Err(fault) => return Err(fault_of(fault)),
    };
    drop(store);
    let (journal, store) = match read_log(alloc, disk) {
        Ok(read) => read,
        Err(fault) => return Err(fault),
    };
    if journal.version() == WRITTEN_VERSION {
        return Ok((journal, store));
    }
    let root = journal.active().root;
    Err(LogFault::Damaged(root, journal.into_disk()))
}
