// The places that messages get when they are committed.
ghost use Rattle.std.specs.Prelude.{◌≡◌, ◌<◌, ◌≤◌, ◌^◌, ◌-◌, map, IfOk};
ghost use Rattle.queue_rows.specs.Commits.{column_value, place_of, has_before, lane_at_commit, place_at_commit};
ghost use Rattle.sessions.specs.Numbers.{IsAbove, IsAddable};

use payload_records::Copied;
use place_keys::{Column, Place, SortList};
use queue_rows::{MsgRow, QueueRow, TableRow, lane_of};
use smallvec::SmallVec;
use std::alloc::{AllocError, Global};

fn column_value(priority: i64, enqueued: u64, committed: u64, column: Column) -> i64
    requires enqueued { enqueued ≤ 2 ^ 62 }
    requires committed { committed ≤ 2 ^ 62 }
    ensures { result ≡ column_value priority enqueued committed column }
{
    match column {
        Column::Priority => priority,
        Column::EnqTime => enqueued as i64,
        Column::CommitTime => committed as i64,
    }
}

fn column_values(
    alloc: Global,
    sort: &SortList,
    priority: i64,
    enqueued: u64,
    committed: u64,
) -> Result<SmallVec<i64, 2>, AllocError>
    requires enqueued { enqueued ≤ 2 ^ 62 }
    requires committed { committed ≤ 2 ^ 62 }
    ensures { IfOk result (λ values. values.items ≡ map (column_value priority enqueued committed) sort.now) }
{
    let mut values = SmallVec::new(alloc);
    for column in sort.columns() {
        values.push(column_value(priority, enqueued, committed, *column))?;
    }
    Ok(values)
}

fn has_before(sort: &SortList, place: &Place) -> bool
    ensures { result ≡ has_before sort.now place.now }
{
    sort.columns().len() + 2 < place.numbers().len()
}

fn lane_at_commit(table: &TableRow, queue: &QueueRow, group: u64, place: &Place) -> i64
    requires group { group < 2 ^ 62 }
    requires lowest { IsAbove (2 ^ 63 - 1) queue.now.lowest }
    ensures { result ≡ lane_at_commit table.now queue.now group place.now }
{
    if table.grouped {
        return group as i64;
    }
    if lane_of(place) < 0 {
        queue.lowest - 1
    } else {
        0
    }
}

/// The place that a message gets in its queue when it is committed.
pub fn place_at_commit(
    alloc: Global,
    table: &TableRow,
    queue: &QueueRow,
    group: u64,
    moment: u64,
    message: &MsgRow,
) -> Result<Place, AllocError>
    requires group { group < 2 ^ 62 }
    requires moment { moment ≤ 2 ^ 62 }
    requires lowest { IsAbove (2 ^ 63 - 1) queue.now.lowest }
    requires numbers { IsAddable message.now }
    ensures { IfOk result (λ place. place ≡ place_at_commit table.now queue.now group moment message.now) }
{
    if has_before(&table.columns, &message.place) {
        return message.place.copied();
    }
    let priority = message.facts.priority;
    let values = column_values(alloc, &table.columns, priority, message.enq, moment)?;
    let lane = lane_at_commit(table, queue, group, &message.place);
    Place::of(alloc, lane, values.as_slice(), message.id)
}
