// What a commit names, as it stands in the tables after it.
ghost use Rattle.std.specs.Prelude.{◌≡◌, IfOk};
ghost use Rattle.std.specs.List.{list_all};
ghost use Rattle.fit_laws.specs.FitLaws.{holds_right_message, holds_right_table, holds_right_queue, holds_right_schedule, holds_right_sub, leaves_right, leaves_all_right};

use aq_base::SUBSCRIBER_LIMIT;
use payload_records::{List, Name};
use queue_rows::{Change, MessageTables, Tables, find_queue, find_table};
use std::alloc::AllocError;
use valid_tables::{
    NamedRows, find_schedule, find_sub, has_right_numbers, is_valid_message, is_valid_queue,
    is_valid_schedule, is_valid_sub, is_valid_table,
};

// ---- a row that is right, where it is there

fn holds_right_message<T: MessageTables>(tables: &T, id: u64) -> bool
    ensures { result ≡ holds_right_message (T.tables tables.now) id }
{
    match tables.message(id) {
        Some(message) => is_valid_message(tables.tables(), message),
        None => true,
    }
}

fn holds_right_table(tables: &Tables, name: &Name) -> Result<bool, AllocError>
    ensures { IfOk result (λ right. right ≡ holds_right_table tables.now name.now) }
{
    match find_table(tables, name) {
        Some(table) => is_valid_table(tables, table),
        None => Ok(true),
    }
}

fn holds_right_queue(tables: &Tables, name: &Name) -> bool
    ensures { result ≡ holds_right_queue tables.now name.now }
{
    match find_queue(tables, name) {
        Some(queue) => is_valid_queue(tables, queue),
        None => true,
    }
}

fn holds_right_schedule(tables: &Tables, queue: &Name, to: &Name) -> bool
    ensures { result ≡ holds_right_schedule tables.now queue.now to.now }
{
    match find_schedule(tables, queue, to) {
        Some(schedule) => is_valid_schedule(tables, schedule),
        None => true,
    }
}

// A subscriber, and no more of its queue than it may have.
fn holds_right_sub(tables: &Tables, queue: &Name, name: &Name) -> Result<bool, AllocError>
    ensures { IfOk result (λ right. right ≡ holds_right_sub tables.now queue.now name.now) }
{
    if tables.sub_count(queue) > SUBSCRIBER_LIMIT {
        return Ok(false);
    }
    match find_sub(tables, queue, name) {
        Some(sub) => is_valid_sub(tables, sub),
        None => Ok(true),
    }
}

// ---- all that is named

// What goes leaves nothing behind that could be wrong.
fn leaves_right<T: MessageTables>(tables: &T, change: &Change) -> Result<bool, AllocError>
    ensures { IfOk result (λ right. right ≡ leaves_right (T.tables tables.now) change.now) }
{
    match change {
        Change::Enqueued(row) => Ok(
            holds_right_message(tables, row.get().id)
                && holds_right_queue(tables.tables(), &row.get().queue),
        ),
        Change::Retried { id, .. }
        | Change::Ready { id, .. }
        | Change::Done { id, .. }
        | Change::Expired { id, .. }
        | Change::Dropped { id, .. } => Ok(holds_right_message(tables, *id)),
        Change::Moved { id, queue, .. } => {
            Ok(holds_right_message(tables, *id) && holds_right_queue(tables.tables(), queue))
        }
        Change::Seen(row) => Ok(row.copy < tables.tables().next),
        Change::PutTable(row) => holds_right_table(tables.tables(), &row.get().name),
        Change::PutQueue(row) => Ok(holds_right_queue(tables.tables(), &row.get().name)),
        Change::PutSub(row) => holds_right_sub(tables.tables(), &row.get().queue, &row.get().name),
        Change::PutSchedule(row) => {
            Ok(holds_right_schedule(tables.tables(), &row.get().queue, &row.get().to))
        }
        Change::DropTable(_)
        | Change::DropQueue(_)
        | Change::DropSub { .. }
        | Change::DropSchedule { .. }
        | Change::Purged { .. }
        | Change::Counters { .. } => Ok(true),
    }
}

fn all_leave_right<T: MessageTables>(tables: &T, changes: &List<Change>) -> Result<bool, AllocError>
    ensures { IfOk result (λ right. right ≡ list_all (leaves_right (T.tables tables.now)) changes.now) }
{
    for change in changes {
        if !leaves_right(tables, change)? {
            return Ok(false);
        }
    }
    Ok(true)
}

/// Whether what the changes put and change is right in these tables, and so are the tables' numbers. The error is want of
/// memory.
pub(crate) fn leaves_all_right<T: MessageTables>(
    tables: &T,
    changes: &List<Change>,
) -> Result<bool, AllocError>
    ensures { IfOk result (λ right. right ≡ leaves_all_right (T.tables tables.now) changes.now) }
{
    Ok(has_right_numbers(tables.tables()) && all_leave_right(tables, changes)?)
}
