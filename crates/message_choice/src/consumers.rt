// Whether a consumer is named where the queue has consumers, and only there.
ghost use Rattle.std.specs.Prelude.{◌≡◌, option_copied};
ghost use Rattle.queue_rows.specs.Recipients.{has_consumers};
ghost use Rattle.queue_rows.specs.Dequeueing.{has_needless_consumer, lacks_consumer};

use payload_records::Name;
use queue_rows::{QueueRow, TableRow};

// Whether it is a normal queue of a table for many consumers.
fn has_consumers(queue: &QueueRow, table: &TableRow) -> bool
    ensures { result ≡ has_consumers queue.now table.now }
{
    table.multi && !queue.kind.is_exception()
}

/// Whether a consumer is needed, and none is named.
pub fn lacks_consumer(queue: &QueueRow, table: &TableRow, consumer: Option<&Name>) -> bool
    ensures { result ≡ lacks_consumer queue.now table.now (option_copied consumer.entry) }
{
    has_consumers(queue, table) && consumer.is_none()
}

/// Whether a consumer is named, and the queue has none.
pub fn has_needless_consumer(queue: &QueueRow, table: &TableRow, consumer: Option<&Name>) -> bool
    ensures { result ≡ has_needless_consumer queue.now table.now (option_copied consumer.entry) }
{
    !has_consumers(queue, table) && consumer.is_some()
}
