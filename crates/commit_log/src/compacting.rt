// A log is compacted.
ghost use Rattle.std.specs.Prelude.{◌≡◌, [], None, IfOk, IfErr};
ghost use Rattle.aq_disk.specs.Causes.{Rose};
ghost use Rattle.checkpoint.specs.Answer.{IsFault, disk_in};
ghost use Rattle.database_recovery.specs.Sound.{IsSound};
ghost use Rattle.commit_log.specs.Compacting.{IsCompacted, KeepsTables, disk_compacted};

use crate::CommitLog;
use aq_disk::Disk;
use checkpoint::CompactFault;
use checkpoint_commit::{checkpoint_restores, compact_into};
use database_recovery::contents_recover;
use queue_rows::Tables;
use std::alloc::Global;

impl<D: Disk> CommitLog<D> {
    /// Writes the log anew with the one commit that leads to these tables, which are those that it leads to, and gives its disk back. At each
    /// call a crash leaves these tables, whatever is answered. All memory is taken before the first call on the disk.
    pub fn compact(self, alloc: Global, tables: &Tables) -> Result<D, CompactFault<D>>
        requires queued { self.queued ≡ [] }
        requires fine { self.failed_at ≡ None }
        requires sound { IsSound tables.now }
        ensures compacted { IfOk result (IsCompacted D.Disk tables.now self) }
        ensures keeps { KeepsTables D.Disk tables.now self (disk_compacted result) }
        ensures fault { IfErr result (λ e. IsFault e → Rose (D.faults self.disk) (D.faults (disk_in e))) }
        ensures memory { IfErr result (λ e. (IsFault e → ⊥) → disk_in e ≡ self.disk) }
    {
        checkpoint_restores();
        contents_recover();
        let CommitLog {
            journal,
            spelled: _,
        } = self;
        compact_into(alloc, journal, tables)
    }
}
