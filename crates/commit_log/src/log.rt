// The log: commits are queued as their bytes, and then written as one frame.
ghost use Rattle.std.specs.Prelude.{◌≡◌, ◌≤◌, ◌+◌, ◌-◌, ℕ, List, [], ◌∷◌, ◌++◌, length, take, Some, None, IsSome, IsOk, IsErr, OnOk, OnErr};
ghost use Rattle.aq_disk.specs.Causes.{HasCause};
ghost use Rattle.aq_disk.specs.Disk.{EachImage, KeepsEarlier};
ghost use Rattle.queue_rows.specs.declared.change.Commit.{Commit};
ghost use Rattle.queue_rows.specs.declared.tables.Tables.{Tables};
ghost use Rattle.redo_records.specs.Spelling.{encode};
ghost use Rattle.history_laws.specs.Made.{after_commits};
ghost use Rattle.crash_laws.specs.Crash.{Recovers, RecoversEither};
ghost use Rattle.commit_log.specs.Logged.{AreLoggable, Logs};

use crate::laws::log_recovers;
use aq_disk::Disk;
use database_recovery::{append_recovers, bodies_join, commit_leads_on};
use payload_records::List;
use queue_rows::Change;
use redo_journal::{Journal, JournalFault};
use redo_records::encode_into;
use std::alloc::{AllocError, Global};
use std::marker::Model;

/// The journal of a database's commits, in the version that is written. Contracts see what they see of the journal.
#[derive(Drop)]
pub struct CommitLog<D: Disk> {
    pub(crate) journal: Journal<D>,
    // The bytes of the commit that was queued last; its memory is used again for the next one.
    pub(crate) spelled: Vec<u8>,
}

impl<D: Disk> Model for CommitLog<D> {
    ghost use Rattle.redo_journal.specs.Journaled.{Journaled};

    ghost Value = { Journaled D };

    ghost view = { λ log. log.journal };
}

impl<D: Disk> CommitLog<D> {
    // The log that a journal of the written version is.
    pub(crate) fn of(alloc: Global, journal: Journal<D>) -> CommitLog<D>
        ensures { result ≡ journal }
    {
        CommitLog {
            journal,
            spelled: Vec::new(alloc),
        }
    }

    /// The disk that the log stands on.
    pub fn disk(&self) -> &D
        ensures { result.now ≡ self.now.disk }
    {
        self.journal.disk()
    }

    /// The disk, given back.
    pub fn into_disk(self) -> D
        ensures { result ≡ self.disk }
    {
        self.journal.into_disk()
    }

    /// How many calls were made on the disk.
    pub fn calls(&self) -> u64
        ensures { result ≡ D.calls self.now.disk }
    {
        self.journal.disk().calls()
    }

    /// How many frames the journal has.
    pub fn count(&self) -> u64
        ensures { result ≡ self.now.count }
    {
        self.journal.count()
    }

    /// The number of the failing call of the first append that failed.
    pub fn failed_at(&self) -> Option<u64>
        ensures { result ≡ self.now.failed_at }
    {
        self.journal.failed_at()
    }

    /// Queues the commit of these changes at that moment as its bytes, and takes all memory that writing it will need. At want of memory
    /// the log is as before; there is none for a commit with a name that is too long to be one.
    pub fn prepare(&mut self, moment: u64, changes: &List<Change>) -> Result<(), AllocError>
        ensures ok { OnOk result (self.new ≡ record self.old {
          queued = self.old.queued ++ encode (record { moment = moment; changes = changes.now }) ∷ [];
        }) }
        ensures logs { OnOk result ((opening : Tables) (commits : List Commit) (k : ℕ)
            → Logs D.seen D.is_image D.calls opening commits k self.old
            → Logs D.seen D.is_image D.calls opening
            (commits ++ (record { moment = moment; changes = changes.now }) ∷ []) k self.new) }
        ensures err { OnErr result (self.new ≡ self.old) }
    {
        commit_leads_on();
        encode_into(&mut self.spelled, moment, changes)?;
        self.journal.prepare(&self.spelled)
    }

    /// Takes the commit that was queued last back. It takes no memory.
    pub fn withdraw(&mut self)
        requires { 1 ≤ length self.old.queued }
        ensures { self.new ≡ record self.old { queued = take (length self.old.queued - 1) self.old.queued } }
    {
        self.journal.withdraw();
    }

    /// Writes all queued commits as one frame. At `Ok` each crash leaves them. It takes no memory, and after a fault it makes no call on
    /// the disk.
    pub fn append(&mut self) -> Result<(), JournalFault>
        ensures logs { OnOk result ((opening : Tables) (commits : List Commit) (k : ℕ)
            → Logs D.seen D.is_image D.calls opening commits k self.old
            → Logs D.seen D.is_image D.calls opening commits (length commits) self.new) }
        ensures queued { OnOk result (self.new.queued ≡ []) }
        ensures fine { OnOk result (self.new.failed_at ≡ None) }

        // Where nothing is queued no call is made on the disk.
        ensures nothing { self.old.failed_at ≡ None → self.old.queued ≡ []
            → IsOk result × (self.new ≡ self.old) }

        // A crash at any moment leaves the commits that were on the disk before, or all.
        ensures crash { (opening : Tables) (commits : List Commit) (k : ℕ)
            → Logs D.seen D.is_image D.calls opening commits k self.old → AreLoggable opening commits
            → EachImage (D.calls self.old.disk) (D.calls self.new.disk) (D.is_image self.new.disk)
            (RecoversEither (after_commits opening (take k commits)) (after_commits opening commits)) }

        // Behind Ok it leaves all.
        ensures behind { OnOk result ((opening : Tables) (commits : List Commit) (k : ℕ)
            → Logs D.seen D.is_image D.calls opening commits k self.old → AreLoggable opening commits
            → EachImage (D.calls self.new.disk) (D.calls self.new.disk) (D.is_image self.new.disk)
            (Recovers (after_commits opening commits))) }
        ensures earlier { KeepsEarlier (D.calls self.old.disk) (D.is_image self.old.disk)
            (D.is_image self.new.disk) }
        ensures later { D.calls self.old.disk ≤ D.calls self.new.disk }
        ensures number { D.calls self.new.disk ≤ D.calls self.old.disk + 4 }
        ensures cause { self.old.failed_at ≡ None
            → HasCause (D.faults self.old.disk) (D.faults self.new.disk) result }

        // The first failure is the call at which it came, and from then on nothing is done.
        ensures failed { OnErr result (self.old.failed_at ≡ None → self.new ≡ record self.old {
          disk = self.new.disk;
          failed_at = Some (D.calls self.new.disk);
        }) }
        ensures stays_failed { IsSome self.old.failed_at → IsErr result × (self.new ≡ self.old) }
    {
        bodies_join();
        append_recovers();
        log_recovers::<D>();
        self.journal.append()
    }
}
