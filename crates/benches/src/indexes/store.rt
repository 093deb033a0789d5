// Tables whose messages are found by their numbers, which are their positions, with the indexes of what is due and of what is sent.
ghost use Rattle.std.specs.Prelude.{◌≡◌, [], All, IfOk, IsTrue, OnOk};
ghost use Rattle.due_slots.specs.Edits.{joined};
ghost use Rattle.due_slots.specs.Named.{NamesDue};
ghost use Rattle.due_slots.specs.Rows.{HasFewSlots, rows_of};
ghost use Rattle.remote_slots.specs.Remote.{IndexesRemote};
ghost use Rattle.benches.specs.Kept.{AreNumbered, entries_from, rows_after};

use crate::fault::Fault;
use aq_base::DbId;
use due_index::DueIndex;
use due_slots::{DueSlots, DueTables, joined_tells, rows_are_few, rows_name_due};
use payload_records::List;
use propagation::pick;
use queue_rows::{Change, MessageTables, MsgRow, ScheduleRow, Tables};
use ready_slots::StampedMessages;
use remote_slots::{RemoteSlots, SendsMessages, least_by_rows};
use row_locks::RowLocks;
use row_tree::Tree;
use std::alloc::{AllocError, Global};
use time_manager::due;

/// Tables with their indexes.
pub struct Indexed {
    tables: Tables,
    due: DueSlots,
    remote: RemoteSlots,
    ghost numbered: { AreNumbered tables.messages },
    ghost few: { All HasFewSlots tables.messages },
    ghost named: { NamesDue tables due.rows },
    ghost sent: { IndexesRemote (entries_from 0 tables.messages) remote },
}

impl Drop for Indexed {
    fn drop(self) {
        let Self {
            tables: _,
            due: _,
            remote: _,
        } = self;
    }
}

// ---- what is due

fn add_due(due: &mut DueSlots, message: &MsgRow) -> Result<(), AllocError>
    requires { HasFewSlots message.now }
    ensures { OnOk result (due.new.rows ≡ joined due.old.rows (rows_of 0 message.now)) }
{
    rows_are_few();
    due.reserve(message.recipient_count() as u64 + 2)?;
    due.add(message, 0);
    Ok(())
}

fn due_of(alloc: Global, messages: &Tree<MsgRow>) -> Result<DueSlots, AllocError>
    requires { All HasFewSlots messages.now }
    ensures { IfOk result (λ due. due.rows ≡ rows_after [] messages.now) }
{
    let mut due = DueSlots::new(alloc);
    for message in messages {
        add_due(&mut due, message)?;
    }
    Ok(due)
}

fn named(alloc: Global, tables: &Tables) -> Result<DueSlots, AllocError>
    requires { All HasFewSlots tables.now.messages }
    ensures { IfOk result (λ due. NamesDue tables.now due.rows) }
{
    joined_tells();
    rows_name_due();
    due_of(alloc, &tables.messages)
}

// ---- what is sent

fn remote_of(alloc: Global, messages: &Tree<MsgRow>) -> Result<RemoteSlots, AllocError>
    ensures { IfOk result (λ remote. IndexesRemote (entries_from 0 messages.now) remote) }
{
    let _most = messages.len();
    let mut remote = RemoteSlots::new(alloc);
    let mut stamp = 0;
    for message in messages {
        remote.put(stamp, message)?;
        stamp += 1;
    }
    Ok(remote)
}

// ---- the tables

fn has_few(message: &MsgRow) -> bool
    ensures { IsTrue result → HasFewSlots message.now }
{
    message.recipient_count() < 100
}

fn have_few(messages: &Tree<MsgRow>) -> bool
    ensures { IsTrue result → All HasFewSlots messages.now }
{
    messages.iter().all(|message| has_few(message))
}

fn are_numbered(messages: &Tree<MsgRow>) -> bool
    ensures { IsTrue result → AreNumbered messages.now }
{
    let _most = messages.len();
    let mut at: u64 = 0;
    for message in messages {
        if message.id != at {
            return false;
        }
        at += 1;
    }
    true
}

impl Indexed {
    /// The tables, whose messages have their positions as their numbers, with their indexes.
    pub fn of(alloc: Global, tables: Tables) -> Result<Indexed, Fault> {
        if !have_few(&tables.messages) || !are_numbered(&tables.messages) {
            return Err(Fault::Wrong);
        }
        let due = named(alloc, &tables)?;
        let remote = remote_of(alloc, &tables.messages)?;
        Ok(Indexed {
            tables,
            due,
            remote,
        })
    }

    /// What is due at that moment, where no session holds a slot.
    pub fn due_at(&self, locks: &RowLocks, moment: u64) -> Result<List<Change>, AllocError> {
        due(self, DbId::Home, locks, None, moment)
    }

    /// The slot that is sent at that moment.
    pub fn picked_at(&self, moment: u64) -> Option<(u64, u32)> {
        pick(self, moment)
    }

    /// The same, by a walk over all messages for each schedule.
    pub fn picked_by_walk(&self, moment: u64) -> Option<(u64, u32)> {
        pick(&self.tables, moment)
    }
}

impl MessageTables for Indexed {
    ghost tables = { λ s. s.tables };

    fn tables(&self) -> &Tables {
        &self.tables
    }

    fn message(&self, id: u64) -> Option<&MsgRow> {
        self.tables.messages.get(id as usize)
    }
}

impl DueTables for Indexed {
    fn due_rows(&self) -> Option<&DueIndex> {
        Some(self.due.index())
    }

    fn rank_of(&self, id: u64) -> Option<usize> {
        let rank = id as usize;
        if rank < self.tables.messages.len() {
            Some(rank)
        } else {
            None
        }
    }
}

impl StampedMessages for Indexed {
    ghost entries = { λ s. entries_from 0 s.tables.messages };

    fn message_at(&self, stamp: u64) -> Option<&MsgRow> {
        self.tables.messages.get(stamp as usize)
    }
}

impl SendsMessages for Indexed {
    fn least_to_send(&self, schedule: &ScheduleRow, moment: u64) -> Option<&MsgRow> {
        least_by_rows(self, self.remote.index(), schedule, moment)
    }
}
