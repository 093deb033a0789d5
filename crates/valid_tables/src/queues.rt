// Queues that are right.
ghost use Rattle.std.specs.Prelude.{◌≡◌};
ghost use Rattle.std.specs.List.{list_all};
ghost use Rattle.queue_rows.specs.Valid.{has_right_lowest, is_valid_queue};

use crate::catalog::Catalog;
use crate::named::NamedRows;
use crate::numbers::is_time;
use aq_base::MAX_RETRIES_LIMIT;
use queue_rows::{QueueRow, Tables};

// Its lowest lane is at most 0, and not below the negated next id.
fn has_right_lowest(tables: &Tables, queue: &QueueRow) -> bool
    ensures { result ≡ has_right_lowest tables.now queue.now }
{
    queue.lowest <= 0 && -i128::from(tables.next) <= i128::from(queue.lowest)
}

/// Whether the queue's table is there, and its numbers are within the limits; an exception queue takes no enqueues. It takes
/// no memory.
pub fn is_valid_queue<R: NamedRows>(rows: &R, queue: &QueueRow) -> bool
    ensures { result ≡ is_valid_queue (R.tables rows.now) queue.now }
{
    rows.table(&queue.table).is_some()
        && !(queue.kind.is_exception() && queue.enqueue)
        && queue.max_retries <= MAX_RETRIES_LIMIT
        && is_time(queue.retry_delay)
        && is_time(queue.retention)
        && has_right_lowest(rows.tables(), queue)
}

/// Whether each queue is right.
pub(crate) fn are_valid_queues(catalog: &Catalog<'_>) -> bool
    ensures { result ≡ list_all (is_valid_queue catalog.now) catalog.now.queues }
{
    catalog
        .tables()
        .queues
        .iter()
        .all(|queue| is_valid_queue(catalog, queue))
}
