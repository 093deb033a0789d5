// Looking rows up by their names.
ghost use Rattle.std.specs.Prelude.{◌≡◌, option_copied};
ghost use Rattle.queue_rows.specs.Rows.{find_table, find_queue, find_message};
ghost use Rattle.queue_rows.specs.declared.tables.Tables.{Tables};

use crate::rows::{MsgRow, QueueRow, TableRow};
use crate::tables::Tables;
use payload_records::Name;

/// The queue table of that name. It takes no memory, and does not go over the tables.
pub fn find_table<'a>(tables: &'a Tables, name: &Name) -> Option<&'a TableRow>
    ensures { option_copied result ≡ find_table tables.now name.now }
{
    tables.tables.find(name)
}

/// The queue of that name. It takes no memory, and does not go over the queues.
pub fn find_queue<'a>(tables: &'a Tables, name: &Name) -> Option<&'a QueueRow>
    ensures { option_copied result ≡ find_queue tables.now name.now }
{
    tables.queues.find(name)
}

/// Tables, and a way to find a message in them by its number.
pub trait MessageTables {
    ghost tables: { Self → Tables };

    /// The tables. It takes no memory.
    fn tables(&self) -> &Tables
        ensures { result.now ≡ tables self.now };

    /// The message of that number. It takes no memory.
    fn message(&self, id: u64) -> Option<&MsgRow>
        ensures { option_copied result ≡ find_message (tables self.now) id };
}

/// The tables themselves, where a message is found by a walk over all.
impl MessageTables for Tables {
    ghost tables = { λ t. t };

    fn tables(&self) -> &Tables {
        self
    }

    fn message(&self, id: u64) -> Option<&MsgRow> {
        self.messages.iter().find(|m| m.id == id)
    }
}
