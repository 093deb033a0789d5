// The index of what is due, and what edits of messages make of it.
ghost use Rattle.std.specs.Prelude.{◌≡◌, ◌+◌, ◌<◌, ◌≤◌, OnOk, [], ◌∷◌, length};
ghost use Rattle.std.specs.Option.{option_to_list};
ghost use Rattle.due_slots.specs.Edits.{joined, without};
ghost use Rattle.due_slots.specs.Rows.{HasFewSlots, recipient_rows, rows_of};

use crate::rows::{purge_row, slot_row};
use due_index::{DueIndex, DueRow};
use queue_rows::MsgRow;
use std::alloc::{AllocError, Global};
use std::marker::Model;

/// The index of what is due beside messages. Contracts see its rows in order, and for how many more there is memory. A message
/// has a row for each slot of which something may be due, and one where all have taken it (`rows_of`).
#[derive(Drop)]
pub struct DueSlots {
    index: DueIndex,
}

impl Model for DueSlots {
    ghost use Rattle.due_index.specs.Due.{DueRows};

    ghost Value = { DueRows };

    ghost view = { λ s. s.index };
}

impl DueSlots {
    /// No rows, and memory for none. It takes no memory.
    pub fn new(alloc: Global) -> DueSlots
        ensures { result ≡ record { rows = []; spare = 0 } }
    {
        DueSlots {
            index: DueIndex::new(alloc),
        }
    }

    /// The index.
    pub fn index(&self) -> &DueIndex
        ensures { result.now ≡ self.now }
    {
        &self.index
    }

    /// Makes room for so many rows more. At want of memory the rows are as before, and there is no less room.
    pub fn reserve(&mut self, rows: u64) -> Result<(), AllocError>
        ensures ok { OnOk result (rows ≤ self.new.spare) }
        ensures room { self.old.spare ≤ self.new.spare }
        ensures rows { self.new.rows ≡ self.old.rows }
    {
        self.index.reserve(rows)
    }

    fn take(&mut self, row: Option<DueRow>)
        ensures rows { self.new.rows ≡ without self.old.rows (option_to_list row) }
        ensures room { self.new.spare ≡ self.old.spare }
    {
        if let Some(row) = row {
            self.index.take_out(row.moment, row.id, row.slot);
        }
    }

    fn put(&mut self, row: Option<DueRow>)
        requires { length (option_to_list row) ≤ self.old.spare }
        ensures rows { self.new.rows ≡ joined self.old.rows (option_to_list row) }
        ensures room { self.old.spare ≡ self.new.spare + length (option_to_list row) }
    {
        if let Some(row) = row {
            put_row(&mut self.index, row);
        }
    }

    fn take_recipient_slots(&mut self, message: &MsgRow)
        requires { HasFewSlots message.now }
        ensures rows { self.new.rows ≡ without self.old.rows (recipient_rows message.now) }
        ensures room { self.new.spare ≡ self.old.spare }
    {
        let end = message.recipient_count() as u32 + 1;
        for slot in 1..end {
            self.take(slot_row(message, slot));
        }
    }

    fn put_recipient_slots(&mut self, message: &MsgRow)
        requires few { HasFewSlots message.now }
        requires room { length (recipient_rows message.now) ≤ self.old.spare }
        ensures rows { self.new.rows ≡ joined self.old.rows (recipient_rows message.now) }
        ensures room { self.old.spare ≡ self.new.spare + length (recipient_rows message.now) }
    {
        let end = message.recipient_count() as u32 + 1;
        for slot in 1..end {
            self.put(slot_row(message, slot));
        }
    }

    /// A message goes, or changes, whose queue keeps messages for so long: its rows go. It takes no memory.
    pub fn remove(&mut self, message: &MsgRow, retention: u64)
        requires { HasFewSlots message.now }
        ensures rows { self.new.rows ≡ without self.old.rows (rows_of retention message.now) }
        ensures room { self.new.spare ≡ self.old.spare }
    {
        self.take_recipient_slots(message);
        if message.moved {
            self.take(slot_row(message, 0));
        }
        self.take(purge_row(message, retention));
    }

    /// A message comes, or has changed, whose queue keeps messages for so long: its rows come. It takes no memory. It has a row
    /// for each slot at most, and one more.
    pub fn add(&mut self, message: &MsgRow, retention: u64)
        requires few { HasFewSlots message.now }
        requires room { length (rows_of retention message.now) ≤ self.old.spare }
        ensures rows { self.new.rows ≡ joined self.old.rows (rows_of retention message.now) }
        ensures room { self.old.spare ≡ self.new.spare + length (rows_of retention message.now) }
    {
        self.put_recipient_slots(message);
        if message.moved {
            self.put(slot_row(message, 0));
        }
        self.put(purge_row(message, retention));
    }
}

// Takes the row out first, so that no condition asks that it is not there.
fn put_row(index: &mut DueIndex, row: DueRow)
    requires { 0 < index.old.spare }
    ensures rows { index.new.rows ≡ joined index.old.rows (row ∷ []) }
    ensures room { index.old.spare ≡ index.new.spare + 1 }
{
    index.take_out(row.moment, row.id, row.slot);
    index.put(row.moment, row.id, row.slot);
}
