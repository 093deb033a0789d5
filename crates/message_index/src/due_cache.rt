// The index of what is due beside the messages, which is let go where it finds no memory.
ghost use Rattle.std.specs.Prelude.{◌≡◌, ◌≤◌, All, IfSome, IsTrue, None, OnOk, [], find, option_copied};
ghost use Rattle.std.specs.Str.{bytes_eq};
ghost use Rattle.due_slots.specs.Edits.{joined};
ghost use Rattle.due_slots.specs.Named.{NamesDue};
ghost use Rattle.due_slots.specs.Rows.{HasFewSlots, rows_of};
ghost use Rattle.message_index.specs.DueKept.{Gains, IfDue, Loses, keeps_in, retention_in};

use due_index::DueIndex;
use due_slots::{
    DueSlots, joined_tells, rows_are_few, rows_have_its_number, rows_name_due, without_tells,
};
use named_list::NamedList;
use payload_records::{Copied, List, Name};
use queue_rows::{Change, MsgRow, QueueRow, Tables, find_queue};
use row_tree::Tree;
use std::alloc::{AllocError, Global};

/// For how long a queue kept messages when the index was made.
#[derive(Drop)]
pub struct KeepRow {
    /// The queue.
    pub queue: Name,
    /// How long, which is not 0.
    pub retention: u64,
}

/// The index, where it is kept, with the queues that keep messages. Among its rows are those of the messages that it stands beside.
pub struct DueCache {
    /// The index.
    pub slots: Option<DueSlots>,
    /// For how long queues keep messages: those that are not here keep none.
    pub keeps: List<KeepRow>,
}

impl Drop for DueCache {
    fn drop(self) {
        let Self { slots: _, keeps: _ } = self;
    }
}

fn keep_row<'a>(keeps: &'a List<KeepRow>, queue: &Name) -> Option<&'a KeepRow>
    ensures { option_copied result ≡ find (λ k. bytes_eq k.queue queue.now) keeps.now }
{
    keeps.iter().find(|keep| keep.queue == *queue)
}

fn keeps_in(keeps: &List<KeepRow>, queue: &Name) -> u64
    ensures { result ≡ keeps_in keeps.now queue.now }
{
    match keep_row(keeps, queue) {
        Some(keep) => keep.retention,
        None => 0,
    }
}

// The queues that keep messages. No clause is needed: who takes rows by the list looks whether queues still keep them for so long.
fn kept_by(queues: &NamedList<QueueRow>, alloc: Global) -> Result<List<KeepRow>, AllocError> {
    let mut keeps = List::new(alloc);
    for queue in queues {
        if queue.retention > 0 {
            keeps.push(KeepRow {
                queue: queue.name.copied()?,
                retention: queue.retention,
            })?;
        }
    }
    Ok(keeps)
}

fn retention_in(tables: &Tables, queue: &Name) -> u64
    ensures { result ≡ retention_in tables.now queue.now }
{
    match find_queue(tables, queue) {
        Some(queue) => queue.retention,
        None => 0,
    }
}

fn is_kept(tables: &Tables, keep: &KeepRow) -> bool
    ensures { IsTrue result → keep.now.retention ≤ retention_in tables.now keep.now.queue }
{
    keep.retention <= retention_in(tables, &keep.queue)
}

// Whether no queue keeps messages for less long than the list says.
fn are_kept(tables: &Tables, keeps: &List<KeepRow>) -> bool
    ensures { IsTrue result → All (λ k. k.retention ≤ retention_in tables.now k.queue) keeps.now }
{
    keeps.iter().all(|keep| is_kept(tables, keep))
}

fn has_few_slots(message: &MsgRow) -> bool
    ensures { IsTrue result → HasFewSlots message.now }
{
    message.recipient_count() < u32::MAX as usize
}

fn add(slots: &mut DueSlots, message: &MsgRow, retention: u64) -> Result<(), AllocError>
    ensures { OnOk result (slots.new.rows ≡ joined slots.old.rows (rows_of retention message.now)) }
{
    if !has_few_slots(message) {
        return Err(AllocError);
    }
    rows_are_few();
    slots.reserve(message.recipient_count() as u64 + 2)?;
    slots.add(message, retention);
    Ok(())
}

impl DueCache {
    /// The index of no messages. It takes no memory.
    pub(crate) fn new(alloc: Global) -> DueCache
        ensures { IfDue (keeps_in result.keeps) [] result.slots }
    {
        DueCache {
            slots: Some(DueSlots::new(alloc)),
            keeps: List::new(alloc),
        }
    }

    /// None. It takes no memory.
    pub(crate) fn none(alloc: Global) -> DueCache
        ensures { result.slots ≡ None }
    {
        DueCache {
            slots: None,
            keeps: List::new(alloc),
        }
    }

    /// The index of messages, where there is memory for it.
    pub fn of(messages: &Tree<MsgRow>, queues: &NamedList<QueueRow>, alloc: Global) -> DueCache
        ensures { IfDue (keeps_in result.keeps) messages.now result.slots }
    {
        let Ok(keeps) = kept_by(queues, alloc) else {
            return DueCache::none(alloc);
        };
        let mut due = DueCache {
            slots: Some(DueSlots::new(alloc)),
            keeps,
        };
        for message in messages {
            due.put(message);
        }
        due
    }

    fn is_kept_otherwise(&self, queue: &QueueRow) -> bool {
        keeps_in(&self.keeps, &queue.name) != queue.retention
    }

    /// Whether the change may be one of how long a queue keeps messages. No clause is needed, as for the list.
    pub fn is_changed_by(&self, change: &Change) -> bool {
        match change {
            Change::PutQueue(row) => self.is_kept_otherwise(row.get()),
            Change::DropQueue(name) => keeps_in(&self.keeps, name) > 0,
            Change::DropTable(_) => !self.keeps.is_empty(),
            _ => false,
        }
    }

    /// A message goes, or changes, which is the only one of its number or not: its rows go where it is. It takes no memory.
    pub(crate) fn remove(&mut self, message: &MsgRow, alone: bool)
        ensures keeps { self.new.keeps ≡ self.old.keeps }
        ensures rows { Loses (keeps_in self.old.keeps) alone message.now.id self.old.slots self.new.slots }
    {
        let retention = keeps_in(&self.keeps, &message.queue);
        let Some(slots) = &mut self.slots else {
            return;
        };
        without_tells();
        rows_have_its_number();
        if alone && has_few_slots(message) {
            slots.remove(message, retention);
        }
    }

    /// A message comes, or has changed: its rows come. Where there is no memory for them, the index is let go.
    pub(crate) fn put(&mut self, message: &MsgRow)
        ensures keeps { self.new.keeps ≡ self.old.keeps }
        ensures rows { Gains (keeps_in self.old.keeps) message.now self.old.slots self.new.slots }
    {
        let retention = keeps_in(&self.keeps, &message.queue);
        let Some(slots) = &mut self.slots else {
            return;
        };
        joined_tells();
        if add(slots, message, retention).is_err() {
            self.slots = None;
        }
    }

    /// The index, where it is kept and no queue keeps messages for less long than when it was made. It takes no memory.
    pub fn index(&self, tables: &Tables) -> Option<&DueIndex>
        requires { IfDue (keeps_in self.now.keeps) tables.now.messages self.now.slots }
        ensures { IfSome result (λ index. NamesDue tables.now index.now.rows) }
    {
        let Some(slots) = &self.slots else {
            return None;
        };
        if !are_kept(tables, &self.keeps) {
            return None;
        }
        rows_name_due();
        Some(slots.index())
    }
}
