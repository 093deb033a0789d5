// Tables whose rows are found by their names.
ghost use Rattle.std.specs.Prelude.{◌≡◌, length, option_copied};
ghost use Rattle.queue_rows.specs.Rows.{find_table, find_queue, table_of};
ghost use Rattle.queue_rows.specs.Recipients.{subscribers_of};
ghost use Rattle.queue_rows.specs.declared.tables.Tables.{Tables};

use payload_records::Name;
use queue_rows::{QueueRow, TableRow, Tables};

/// Tables, and ways to find in them by its name a queue table or a queue, and how many subscribers a queue has.
pub trait NamedRows {
    ghost tables: { Self → Tables };

    /// The tables. It takes no memory.
    fn tables(&self) -> &Tables
        ensures { result.now ≡ tables self.now };

    /// The queue table of that name. It takes no memory.
    fn table(&self, name: &Name) -> Option<&TableRow>
        ensures { option_copied result ≡ find_table (tables self.now) name.now };

    /// The queue of that name. It takes no memory.
    fn queue(&self, name: &Name) -> Option<&QueueRow>
        ensures { option_copied result ≡ find_queue (tables self.now) name.now };

    /// How many subscribers the queue of that name has. It takes no memory.
    fn sub_count(&self, queue: &Name) -> usize
        ensures { result ≡ length (subscribers_of (tables self.now) queue.now) };
}

/// The tables themselves.
impl NamedRows for Tables {
    ghost tables = { λ t. t };

    fn tables(&self) -> &Tables {
        self
    }

    fn table(&self, name: &Name) -> Option<&TableRow> {
        queue_rows::find_table(self, name)
    }

    fn queue(&self, name: &Name) -> Option<&QueueRow> {
        queue_rows::find_queue(self, name)
    }

    fn sub_count(&self, queue: &Name) -> usize {
        self.subs.count_of(queue)
    }
}

/// The queue table of the queue of that name.
pub(crate) fn table_of<'a, R: NamedRows>(rows: &'a R, queue: &Name) -> Option<&'a TableRow>
    ensures { option_copied result ≡ table_of (R.tables rows.now) queue.now }
{
    match rows.queue(queue) {
        Some(queue) => rows.table(&queue.table),
        None => None,
    }
}
