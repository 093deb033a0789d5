// The tables of a database.
ghost use Rattle.std.specs.Prelude.{◌≡◌, OnOk, OnErr, option_copied};
ghost use Rattle.queue_rows.specs.Rows.{find_message};
ghost use Rattle.queue_rows.specs.Tables.{empty_tables};
ghost use Rattle.queue_rows.specs.World.{committed_tables};

use crate::PreparedStore;
use due_index::DueIndex;
use due_slots::DueTables;
use message_choice::{Choice, ChoosesMessages, Pick};
use message_index::SendsMessages;
use payload_records::List;
use queue_rows::{Change, MessageTables, MsgRow, ScheduleRow, Tables};
use row_locks::RowLocks;
use sort_index::Steps;
use std::alloc::{AllocError, Global};
use std::marker::Model;
use std::sync::ledger::Ledger;

/// The tables of a database, for those who commit in one call and need not know of memory. Contracts see the tables of the
/// definitions.
#[derive(Drop)]
pub struct Store {
    inner: PreparedStore,
}

impl Model for Store {
    ghost use Rattle.std.specs.Coded.{codes};
    ghost use Rattle.rule_conditions.specs.contracts.condition.Cond as cond;
    ghost use Rattle.queue_rows.specs.declared.tables.Tables.{Tables};

    ghost Value = { Tables };

    ghost coded = { Prim.hlevel (codes, cond.the_row.coded) };

    ghost view = { λ s. s.inner.tables };
}

impl Store {
    /// Tables in which nothing was committed yet. It takes no memory.
    pub fn new(alloc: Global) -> Store
        ensures { result ≡ empty_tables }
    {
        Store {
            inner: PreparedStore::new(alloc),
        }
    }

    /// The tables. It takes no memory.
    pub fn tables(&self) -> &Tables
        ensures { result.now ≡ self.now }
    {
        self.inner.tables()
    }

    /// The message of that number. It takes no memory, and does not go over the messages.
    pub fn message(&self, id: u64) -> Option<&MsgRow>
        ensures { option_copied result ≡ find_message self.now id }
    {
        self.inner.message(id)
    }

    /// Makes the changes of a commit at that moment, in order; an empty list is no commit. All memory is taken
    /// before anything is changed: at want of memory the tables are as before. There is none for a message whose number or
    /// group is 2^63 or more.
    pub fn commit(&mut self, changes: &List<Change>, moment: u64) -> Result<(), AllocError>
        ensures ok { OnOk result (self.new ≡ committed_tables self.old changes.now moment) }
        ensures err { OnErr result (self.new ≡ self.old) }
    {
        self.inner.commit(changes, moment)
    }
}

impl MessageTables for Store {
    ghost tables = { λ s. s };

    fn tables(&self) -> &Tables {
        self.tables()
    }

    fn message(&self, id: u64) -> Option<&MsgRow> {
        self.message(id)
    }
}

impl ChoosesMessages for Store {
    fn choose<'a, L: Ledger>(
        &'a self,
        locks: &RowLocks,
        actor: u32,
        pick: &Pick<'_>,
        steps: &mut Steps<L>,
    ) -> Choice<'a> {
        self.inner.choose(locks, actor, pick, steps)
    }
}

impl SendsMessages for Store {
    fn least_to_send(&self, schedule: &ScheduleRow, moment: u64) -> Option<&MsgRow> {
        self.inner.least_to_send(schedule, moment)
    }
}

impl DueTables for Store {
    fn due_rows(&self) -> Option<&DueIndex> {
        self.inner.due_rows()
    }

    fn rank_of(&self, id: u64) -> Option<usize> {
        self.inner.rank_of(id)
    }
}
