// Slots that are left as they are: somebody holds them, or they are being sent.
ghost use Rattle.std.specs.Prelude.{◌≡◌, IfSome, IfNone, option_copied};
ghost use Rattle.slot_marks.specs.Marks.{IsFreeGroup, IsFreeSlot, IsHolder};
ghost use Rattle.queue_rows.specs.Rows.{table_of};
ghost use Rattle.queue_rows.specs.Groups.{consumer_of};
ghost use Rattle.queue_rows.specs.Due.{group_in, is_held_by_any, is_left, is_sent, is_slot_at};
ghost use Rattle.time_manager.specs.Watching.{group_number, watch_of};

use crate::watching::Watching;
use aq_base::DbId;
use payload_records::Name;
use queue_rows::{MsgRow, SlotRef, TableRow, Tables, find_queue, find_table};

fn table_of<'a>(tables: &'a Tables, queue: &Name) -> Option<&'a TableRow>
    ensures { option_copied result ≡ table_of tables.now queue.now }
{
    let queue = find_queue(tables, queue)?;
    find_table(tables, &queue.table)
}

fn group_number(tables: &Tables, message: &MsgRow) -> Option<u64>
    ensures { result ≡ group_number tables.now message.now }
{
    let table = table_of(tables, &message.queue)?;
    if table.grouped {
        Some(message.group)
    } else {
        None
    }
}

fn consumer_of(message: &MsgRow, slot: u32) -> Option<&Name>
    ensures { option_copied result ≡ consumer_of message.now slot }
{
    message.slot(u64::from(slot))?.name.as_ref()
}

fn holder(watching: &Watching<'_>, message: &MsgRow, slot: u32) -> Option<u32>
    ensures some { let group = group_in watching.now.tables.now message.now slot in
        IfSome result (IsHolder watching.now.locks.now message.now.id slot group) }
    ensures free_slot { IfNone result (IsFreeSlot watching.now.locks.now message.now.id slot) }
    ensures free_group { let group = group_in watching.now.tables.now message.now slot in
        IfNone result (IsFreeGroup watching.now.locks.now group) }
{
    let number = group_number(watching.tables, message);
    let consumer = consumer_of(message, slot);
    watching
        .locks
        .holder(message.id, slot, &message.queue, number, consumer)
}

fn is_held(watching: &Watching<'_>, message: &MsgRow, slot: u32) -> bool
    ensures { let w = watch_of watching.now in let m = message.now in
        result ≡ is_held_by_any w.sessions w.db m.id slot (group_in w.tables m slot) }
{
    holder(watching, message, slot).is_some()
}

fn is_slot_at(db: DbId, id: u64, slot: u32, at: &SlotRef) -> bool
    ensures { result ≡ is_slot_at db id slot at.now }
{
    at.db == db && at.id == id && at.slot == slot
}

fn is_sent(sent: Option<&SlotRef>, db: DbId, id: u64, slot: u32) -> bool
    ensures { result ≡ is_sent (option_copied sent.entry) db id slot }
{
    match sent {
        Some(at) => is_slot_at(db, id, slot, at),
        None => false,
    }
}

/// Whether the slot stays as it is.
pub(crate) fn is_left(watching: &Watching<'_>, message: &MsgRow, slot: u32) -> bool
    ensures { result ≡ is_left (watch_of watching.now) message.now slot }
{
    is_sent(watching.sent, watching.db, message.id, slot) || is_held(watching, message, slot)
}
