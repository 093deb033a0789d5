// The journal of a disk, and the tables that its frames lead to.
ghost use Rattle.std.specs.Prelude.{◌≡◌, ◌↔◌, ℕ, List, IfOk, IfErr};
ghost use Rattle.redo_journal.specs.Mount.{HasKnownVersion, IsDamage, IsFault as IsMountFault, disk_in as disk_in_mount};
ghost use Rattle.redo_records.specs.Recovered.{recovered};
ghost use Rattle.commit_log.specs.Mounting.{IsDamageOf, IsFault, IsRead, IsRefused, IsUnwritten, disk_after, disk_in};

use crate::LogFault;
use aq_disk::Disk;
use database_recovery::{
    PreparedStore, RecoveryFault, damage_recovers, damaged_at, frames_lead, journal_recovers,
    mount_recovers, recover,
};
use redo_journal::{Journal, MountFault};
use std::alloc::{AllocError, Global};

// Why a log is not mounted where its journal is not: damage is told where it stands first.
fn fault_of<D>(alloc: Global, fault: MountFault<D>) -> LogFault<D>
    requires { HasKnownVersion fault }
    ensures damaged { (bytes : List ℕ) → IsDamage fault bytes → IsDamageOf (recovered bytes) result }
    ensures disk { disk_in result ≡ disk_in_mount fault }
    ensures fault { IsFault result ↔ IsMountFault fault }
{
    damage_recovers();
    match fault {
        MountFault::Fault(disk) => LogFault::Fault(disk),
        MountFault::Damaged(damage, disk) => match damaged_at(alloc, damage) {
            Ok(at) => LogFault::Damaged(at, disk),
            Err(AllocError) => LogFault::Memory(disk),
        },
        MountFault::Memory(disk) => LogFault::Memory(disk),
    }
}

/// The journal of a disk, whichever version it has, and a store of the tables that its commits lead to. A disk that has none yet is begun;
/// else nothing is written, whatever is answered. `Damaged` tells where the disk is damaged first.
pub fn read_log<D: Disk>(alloc: Global, disk: D) -> Result<(Journal<D>, PreparedStore), LogFault<D>>
    ensures read { IfOk result (λ r. IsRead D.Disk disk r.1.tables r.0) }
    ensures refused { IfErr result (IsRefused D.Disk disk) }
    ensures unwritten { IsUnwritten D.Disk disk (disk_after result) }
{
    journal_recovers();
    frames_lead();
    mount_recovers();
    let (journal, frames) = match Journal::mount(alloc, disk) {
        Ok(mounted) => mounted,
        Err(fault) => return Err(fault_of(alloc, fault)),
    };
    match recover(alloc, journal.version(), frames) {
        Ok(store) => Ok((journal, store)),
        Err(RecoveryFault::Damaged(at)) => Err(LogFault::Damaged(at, journal.into_disk())),
        Err(RecoveryFault::Memory) => Err(LogFault::Memory(journal.into_disk())),
    }
}
