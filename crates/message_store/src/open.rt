// The tables of a database, while a commit is made.
ghost use Rattle.std.specs.Prelude.{◌≡◌, length};
ghost use Rattle.message_index.specs.Messages.{ids_of};
ghost use Rattle.message_store.specs.Open.{held, room_of};
ghost use Rattle.message_store.specs.Beside.{room_beside};
ghost use Rattle.message_index.specs.Caches.{AreOf};
ghost use Rattle.message_index.specs.Stamped.{AreStamps};

use crate::beside::Beside;
use message_index::{Caches, OpenMessages};
use open_rows::{OpenNamed, OpenPairs, OpenRows, RowRoom};
use queue_rows::{QueueRow, ScheduleRow, SeenRow, SlotRow, SubRow, TableRow, Tables};
use std::alloc::Global;
use std::collections::VecDeque;

/// What a database holds, with memory for more rows of each kind.
#[derive(Drop)]
pub(crate) struct OpenTables {
    /// The queue tables.
    pub(crate) tables: OpenNamed<TableRow>,
    /// The queues.
    pub(crate) queues: OpenNamed<QueueRow>,
    /// The subscribers of all queues.
    pub(crate) subs: OpenNamed<SubRow>,
    /// The schedules.
    pub(crate) schedules: OpenRows<ScheduleRow>,
    /// The messages, with their index.
    pub(crate) messages: OpenMessages,
    /// What has arrived from the other database.
    pub(crate) seen: OpenPairs<SeenRow>,
    /// Memory for the slots of the messages that are moved, in the order of moves.
    pub(crate) slots: VecDeque<RowRoom<SlotRow>>,
    /// One above the greatest id that was committed.
    pub(crate) next: u64,
    /// One above the greatest group that was committed.
    pub(crate) transaction: u64,
    /// The moment of the latest commit.
    pub(crate) latest: u64,
}

impl OpenTables {
    /// The tables, opened, with what is kept beside them. It takes no memory.
    pub(crate) fn of(tables: Tables, beside: Beside, caches: Caches) -> OpenTables
        requires ids { beside.index.ids ≡ ids_of tables.messages }
        requires stamped { AreStamps (length beside.index.ids) beside.index.stamps }
        requires caches { AreOf beside.index.stamps tables.messages caches }
        ensures held { held result ≡ tables }
        ensures room { room_of result ≡ room_beside tables beside }
    {
        OpenTables {
            tables: OpenNamed::of(tables.tables, beside.tables),
            queues: OpenNamed::of(tables.queues, beside.queues),
            subs: OpenNamed::of(tables.subs, beside.subs),
            schedules: beside.schedules.open(tables.schedules),
            messages: OpenMessages::of(tables.messages, beside.index, caches),
            seen: OpenPairs::of(tables.seen, beside.seen),
            slots: beside.slots,
            next: tables.next,
            transaction: tables.transaction,
            latest: tables.latest,
        }
    }

    /// The tables, closed again, and what is kept beside them. It takes no memory.
    pub(crate) fn close(self, alloc: Global) -> (Tables, Beside, Caches)
        ensures tables { result.0 ≡ held self }
        ensures ids { result.1.index.ids ≡ ids_of result.0.messages }
        ensures stamped { AreStamps (length result.1.index.ids) result.1.index.stamps }
        ensures caches { AreOf result.1.index.stamps result.0.messages result.2 }
    {
        let (messages, index, caches) = self.messages.close();
        let tables = Tables {
            tables: self.tables.into_list(),
            queues: self.queues.into_list(),
            subs: self.subs.into_list(),
            schedules: self.schedules.into_list(),
            messages,
            seen: self.seen.into_list(),
            next: self.next,
            transaction: self.transaction,
            latest: self.latest,
        };
        (tables, Beside::of(alloc, index), caches)
    }
}
