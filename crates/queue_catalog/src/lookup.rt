// Looking subscribers and schedules up, and what a queue is for.
ghost use Rattle.std.specs.Prelude.{◌≡◌, IfOk, option_copied};
ghost use Rattle.queue_rows.specs.Rows.{find_table, find_sub, find_schedule, is_schedule, exception_name};
ghost use Rattle.queue_rows.specs.Recipients.{has_consumers};
ghost use Rattle.queue_rows.specs.Catalog.{has_subscribers};

use payload_records::Name;
use queue_rows::{QueueRow, ScheduleRow, SubKey, SubRow, TableRow, Tables, find_table};
use std::alloc::AllocError;

/// The name of the default exception queue of a table. Err is want of memory alone.
pub fn exception_name(table: &Name) -> Result<Name, AllocError>
    ensures { IfOk result (λ name. name ≡ exception_name table.now) }
{
    table.with_suffix("_e")
}

/// The subscriber of that queue and name. It takes no memory.
pub fn find_sub<'a>(tables: &'a Tables, queue: &Name, name: &Name) -> Option<&'a SubRow>
    ensures { option_copied result ≡ find_sub tables.now queue.now name.now }
{
    tables.subs.find(&SubKey { queue, name })
}

fn is_schedule(queue: &Name, to: &Name, schedule: &ScheduleRow) -> bool
    ensures { result ≡ is_schedule queue.now to.now schedule.now }
{
    schedule.queue == *queue && schedule.to == *to
}

/// The schedule of that queue and destination.
pub(crate) fn find_schedule<'a>(
    tables: &'a Tables,
    queue: &Name,
    to: &Name,
) -> Option<&'a ScheduleRow>
    ensures { option_copied result ≡ find_schedule tables.now queue.now to.now }
{
    tables
        .schedules
        .iter()
        .find(|schedule| is_schedule(queue, to, *schedule))
}

/// Whether it is a normal queue of a table for many consumers.
pub(crate) fn has_consumers(queue: &QueueRow, table: &TableRow) -> bool
    ensures { result ≡ has_consumers queue.now table.now }
{
    table.multi && !queue.kind.is_exception()
}

/// Whether the queue may have subscribers and schedules.
pub(crate) fn has_subscribers(tables: &Tables, queue: &QueueRow) -> bool
    ensures { result ≡ has_subscribers queue.now (find_table tables.now queue.now.table) }
{
    match find_table(tables, &queue.table) {
        Some(table) => has_consumers(queue, table),
        None => false,
    }
}
