// A log is mounted.
ghost use Rattle.std.specs.Prelude.{◌≡◌, IfOk, IfErr, IsOkAnd};
ghost use Rattle.commit_log.specs.Mounting.{IsMounted, IsRead, IsRefused, IsRenewable};

use crate::anew::{WRITTEN_VERSION, written_anew};
use crate::read::read_log;
use crate::{CommitLog, LogFault};
use aq_disk::Disk;
use database_recovery::PreparedStore;
use redo_journal::Journal;
use std::alloc::Global;

impl<D: Disk> CommitLog<D> {
    /// The log that a journal is which was read of a disk, with a store of its tables. One of an older version is written anew, with the one
    /// commit that leads to these tables, and read once more; where its disk then reads otherwise than it was written, it is damaged there.
    pub fn renew(
        alloc: Global,
        journal: Journal<D>,
        store: PreparedStore,
    ) -> Result<(CommitLog<D>, PreparedStore), LogFault<D>>
        requires { IsRenewable store.tables journal }

        // A journal of the version that is written is the log as it is.
        ensures same { journal.version ≡ 2 → IsOkAnd result (λ r. (r.0 ≡ journal) × (r.1 ≡ store)) }
        ensures version { IfOk result (λ r. r.0.version ≡ 2) }
        ensures mounted { IfOk result (λ r. (disk : D)
            → IsRead D.Disk disk store.tables journal → IsMounted D.Disk disk r.1.tables r.0) }
        ensures refused { IfErr result (λ e. (disk : D)
            → IsRead D.Disk disk store.tables journal → IsRefused D.Disk disk e) }
    {
        if journal.version() == WRITTEN_VERSION {
            return Ok((CommitLog::of(alloc, journal), store));
        }
        match written_anew(alloc, journal, store) {
            Ok((journal, store)) => Ok((CommitLog::of(alloc, journal), store)),
            Err(fault) => Err(fault),
        }
    }

    /// The log that a disk has, and a store of the tables that its commits lead to. A disk that has none yet is begun, and a journal of an
    /// older version is written anew; else nothing is written. `Damaged` tells where the disk is damaged first. Nothing is lost by any
    /// answer.
    pub fn mount(alloc: Global, disk: D) -> Result<(CommitLog<D>, PreparedStore), LogFault<D>>
        ensures mounted { IfOk result (λ r. IsMounted D.Disk disk r.1.tables r.0) }
        ensures refused { IfErr result (IsRefused D.Disk disk) }
    {
        let (journal, store) = match read_log(alloc, disk) {
            Ok(read) => read,
            Err(fault) => return Err(fault),
        };
        CommitLog::renew(alloc, journal, store)
    }
}
