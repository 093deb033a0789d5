// The tables of a database, and the memory for a commit to come.
ghost use Rattle.std.specs.Prelude.{◌≡◌, IfOk, OnOk, OnErr, option_copied};
ghost use Rattle.queue_rows.specs.Rows.{find_message};
ghost use Rattle.queue_rows.specs.Tables.{empty_tables, after};
ghost use Rattle.queue_rows.specs.World.{committed_tables};
ghost use Rattle.message_store.specs.Stored.{IsPreparedFor, IsCommitFor};

use crate::apply::apply;
use crate::copies::copies_of;
use crate::in_place::are_of_messages;
use crate::kept_tables::KeptTables;
use due_index::DueIndex;
use due_slots::DueTables;
use message_choice::{Choice, ChoosesMessages, Pick, choose, choose_by_walk};
use message_index::{Caches, DueCache, SendsMessages, least_by_rows, least_by_walk};
use payload_records::List;
use queue_rows::{Change, Commit, MessageTables, MsgRow, ScheduleRow, Tables};
use row_locks::RowLocks;
use sort_index::Steps;
use std::alloc::{AllocError, Global};
use std::marker::Model;
use std::mem;
use std::sync::ledger::Ledger;

/// The tables of a database, indexes of their messages by their numbers, by their ready slots, by those that go to the other database
/// and by what is due, and the memory that a commit was prepared with. Contracts see the tables of the definitions, and that memory.
pub struct PreparedStore {
    kept: KeptTables,
    caches: Caches,
    /// Whether queues may keep messages for another time than the index of what is due was made for.
    is_stale: bool,
}

impl Drop for PreparedStore {
    fn drop(self) {
        let Self {
            kept: _,
            caches: _,
            is_stale: _,
        } = self;
    }
}

impl Model for PreparedStore {
    ghost use Rattle.std.specs.Coded.{codes};
    ghost use Rattle.rule_conditions.specs.contracts.condition.Cond as cond;
    ghost use Rattle.message_store.specs.Stored.{Stored};

    ghost Value = { Stored };

    ghost coded = { Prim.hlevel (codes, cond.the_row.coded) };

    ghost use Rattle.message_index.specs.Caches.{AreOf};

    ghost view = { λ s. record { tables = s.kept.tables; room = s.kept.room } };

    ghost invariant = { λ s. AreOf s.kept.stamps s.kept.tables.messages s.caches };
}

// Whether some of the changes may be of how long a queue keeps messages.
fn change_keeps(due: &DueCache, changes: &List<Change>) -> bool {
    changes.iter().any(|change| due.is_changed_by(change))
}

impl PreparedStore {
    /// Tables in which nothing was committed yet. It takes no memory.
    pub fn new(alloc: Global) -> PreparedStore
        ensures { result.tables ≡ empty_tables }
    {
        PreparedStore {
            kept: KeptTables::new(alloc),
            caches: Caches::new(alloc),
            is_stale: false,
        }
    }

    /// The tables. It takes no memory.
    pub fn tables(&self) -> &Tables
        ensures { result.now ≡ self.now.tables }
    {
        self.kept.tables()
    }

    /// The message of that number. It takes no memory, and does not go over the messages.
    pub fn message(&self, id: u64) -> Option<&MsgRow>
        ensures { option_copied result ≡ find_message self.now.tables id }
    {
        self.kept.message(id)
    }

    // Whether no index was let go, and none is for how long queues kept messages before.
    fn is_whole(&self) -> bool {
        !self.is_stale
            && self.caches.ready.slots.is_some()
            && self.caches.remote.slots.is_some()
            && self.caches.due.slots.is_some()
    }

    // Makes the indexes anew that were let go, where there is memory for them. Few commits come here: its locals stay out of the way
    // of the others.
    #[inline(never)]
    fn mend(&mut self, alloc: Global)
        ensures { self.new ≡ self.old }
    {
        if self.caches.ready.slots.is_none() {
            self.caches.ready = self.kept.ready(alloc);
        }
        if self.caches.remote.slots.is_none() {
            self.caches.remote = self.kept.remote(alloc);
        }
        if self.is_stale || self.caches.due.slots.is_none() {
            let tables = self.kept.tables();
            self.caches.due = DueCache::of(&tables.messages, &tables.queues, alloc);
            self.is_stale = false;
        }
    }

    /// Takes all memory that a commit needs. The tables are as before, also at want of memory; there is none for a message whose
    /// number or group is 2^63 or more. An earlier commit that was prepared, and not made, gives its memory up, but for what it took for
    /// slots that move: that stays until another commit that may move some is prepared.
    #[tactic(auto, unfolding(crate::specs::Stored::IsPreparedFor))]
    pub fn prepare(&mut self, commit: &Commit) -> Result<(), AllocError>
        ensures tables { self.new.tables ≡ self.old.tables }
        ensures prepared { OnOk result (IsPreparedFor self.new commit.now.changes) }
    {
        if !self.is_whole() {
            self.mend(commit.changes.allocator());
        }
        self.kept.prepare(commit)
    }

    // Makes the changes of a commit in opened tables.
    #[tactic(auto, unfolding(crate::specs::Stored::IsPreparedFor))]
    fn apply_opened(&mut self, commit: Commit)
        requires { IsPreparedFor self.old commit.changes }
        ensures { self.new.tables ≡ after self.old.tables commit }
    {
        let alloc = commit.changes.allocator();
        let kept = mem::replace(&mut self.kept, KeptTables::new(alloc));
        self.is_stale = self.is_stale || change_keeps(&self.caches.due, &commit.changes);
        let caches = mem::replace(&mut self.caches, Caches::new(alloc));
        let mut open = kept.open(caches);
        apply(&mut open, commit, alloc);
        let (kept, caches) = KeptTables::close(open, alloc);
        self.kept = kept;
        self.caches = caches;
    }

    /// Makes the changes of a commit that was prepared, in order, at its moment. It needs no memory: where there is none for the rows of
    /// an index, the index is let go.
    #[tactic(auto, unfolding(crate::specs::Stored::IsPreparedFor))]
    pub fn apply(&mut self, commit: Commit)
        requires prepared { IsPreparedFor self.old commit.changes }
        ensures { self.new.tables ≡ after self.old.tables commit }
    {
        if are_of_messages(&commit.changes) {
            self.kept.apply_in_place(&mut self.caches, commit);
        } else {
            self.apply_opened(commit);
        }
    }

    /// Takes all memory for a commit of these changes at that moment, which is what is given; an empty list is no commit. The tables
    /// are as before, also at want of memory; there is none for a message whose number or group is 2^63 or more.
    pub fn prepared(
        &mut self,
        changes: &List<Change>,
        moment: u64,
    ) -> Result<Option<Commit>, AllocError>
        ensures tables { self.new.tables ≡ self.old.tables }
        ensures commit { IfOk result (IsCommitFor self.new changes.now moment) }
    {
        if changes.is_empty() {
            return Ok(None);
        }
        let commit = Commit {
            moment,
            changes: copies_of(changes)?,
        };
        self.prepare(&commit)?;
        Ok(Some(commit))
    }

    /// Makes the changes of a commit at that moment, in order; an empty list is no commit. All memory is taken
    /// before anything is changed: at want of memory the tables are as before. There is none for a message whose number or
    /// group is 2^63 or more.
    pub fn commit(&mut self, changes: &List<Change>, moment: u64) -> Result<(), AllocError>
        ensures ok { OnOk result (self.new.tables ≡ committed_tables self.old.tables changes.now moment) }
        ensures err { OnErr result (self.new.tables ≡ self.old.tables) }
    {
        if let Some(commit) = self.prepared(changes, moment)? {
            self.apply(commit);
        }
        Ok(())
    }
}

impl MessageTables for PreparedStore {
    ghost tables = { λ s. s.tables };

    fn tables(&self) -> &Tables {
        self.tables()
    }

    fn message(&self, id: u64) -> Option<&MsgRow> {
        self.message(id)
    }
}

impl ChoosesMessages for PreparedStore {
    fn choose<'a, L: Ledger>(
        &'a self,
        locks: &RowLocks,
        actor: u32,
        pick: &Pick<'_>,
        steps: &mut Steps<L>,
    ) -> Choice<'a> {
        let messages = &self.kept.tables().messages;
        match &self.caches.ready.slots {
            Some(ready) => choose(&self.kept, ready.index(), locks, actor, pick, steps),
            None => choose_by_walk(messages, locks, actor, pick, steps),
        }
    }
}

impl SendsMessages for PreparedStore {
    fn least_to_send(&self, schedule: &ScheduleRow, moment: u64) -> Option<&MsgRow> {
        let messages = &self.kept.tables().messages;
        match &self.caches.remote.slots {
            Some(remote) => least_by_rows(&self.kept, remote.index(), schedule, moment),
            None => least_by_walk(messages, schedule, moment),
        }
    }
}

impl DueTables for PreparedStore {
    fn due_rows(&self) -> Option<&DueIndex> {
        self.caches.due.index(self.kept.tables())
    }

    fn rank_of(&self, id: u64) -> Option<usize> {
        self.kept.rank_of(id)
    }
}
