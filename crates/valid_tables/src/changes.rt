// Changes that name what is there.
ghost use Rattle.std.specs.Prelude.{◌≡◌, option_copied};
ghost use Rattle.std.specs.List.{list_any};
ghost use Rattle.queue_rows.specs.Rows.{find_sub, find_schedule};
ghost use Rattle.queue_rows.specs.Fits.{has_slot_at, is_unmoved_at, names_what_is_there};
ghost use Rattle.queue_rows.specs.Valid.{is_same_seen};

use payload_records::Name;
use queue_rows::{
    Change, MessageTables, ScheduleRow, SeenRow, SubKey, SubRow, Tables, find_queue, find_table,
};

/// The subscriber of that queue and name. It takes no memory.
pub fn find_sub<'a>(tables: &'a Tables, queue: &Name, name: &Name) -> Option<&'a SubRow>
    ensures { option_copied result ≡ find_sub tables.now queue.now name.now }
{
    tables.subs.find(&SubKey { queue, name })
}

/// The schedule of that queue and destination. It takes no memory.
pub fn find_schedule<'a>(tables: &'a Tables, queue: &Name, to: &Name) -> Option<&'a ScheduleRow>
    ensures { option_copied result ≡ find_schedule tables.now queue.now to.now }
{
    tables
        .schedules
        .iter()
        .find(|schedule| schedule.queue == *queue && schedule.to == *to)
}

fn has_slot_at<T: MessageTables>(tables: &T, id: u64, slot: u64) -> bool
    ensures { result ≡ has_slot_at (T.tables tables.now) id slot }
{
    match tables.message(id) {
        Some(message) => message.has_slot(slot),
        None => false,
    }
}

fn is_unmoved_at<T: MessageTables>(tables: &T, id: u64) -> bool
    ensures { result ≡ is_unmoved_at (T.tables tables.now) id }
{
    match tables.message(id) {
        Some(message) => !message.moved,
        None => false,
    }
}

fn is_seen(tables: &Tables, row: &SeenRow) -> bool
    ensures { result ≡ list_any (is_same_seen row.now) tables.now.seen }
{
    tables.seen.has(row.id, row.slot)
}

/// Whether what the change names is there as it comes. A row that is put names none; a message that goes in, and a seen
/// pair, are not there yet. It takes no memory.
pub fn names_what_is_there<T: MessageTables>(tables: &T, change: &Change) -> bool
    ensures { result ≡ names_what_is_there (T.tables tables.now) change.now }
{
    match change {
        Change::PutTable(_)
        | Change::PutQueue(_)
        | Change::PutSub(_)
        | Change::PutSchedule(_)
        | Change::Counters { .. } => true,
        Change::DropTable(name) => find_table(tables.tables(), name).is_some(),
        Change::DropQueue(name) => find_queue(tables.tables(), name).is_some(),
        Change::DropSub { queue, name } => find_sub(tables.tables(), queue, name).is_some(),
        Change::DropSchedule { queue, to } => find_schedule(tables.tables(), queue, to).is_some(),
        Change::Enqueued(row) => tables.message(row.get().id).is_none(),
        Change::Retried { id, slot, .. }
        | Change::Ready { id, slot, .. }
        | Change::Done { id, slot, .. }
        | Change::Expired { id, slot, .. }
        | Change::Dropped { id, slot, .. } => has_slot_at(tables, *id, *slot),
        Change::Moved { id, queue, .. } => {
            is_unmoved_at(tables, *id) && find_queue(tables.tables(), queue).is_some()
        }
        Change::Purged { id } => tables.message(*id).is_some(),
        Change::Seen(row) => !is_seen(tables.tables(), row),
    }
}
