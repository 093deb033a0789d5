// The tables of a database, as plain lists.
ghost use Rattle.std.specs.Prelude.{◌≡◌};
ghost use Rattle.queue_rows.specs.Tables.{empty_tables};

use crate::{MsgRow, QueueRow, ScheduleRow, SeenRow, SubRow, TableRow};
use named_list::{NamedList, Tree};
use pair_list::PairList;
use payload_records::List;
use std::alloc::Global;

/// What a database holds.
#[derive(Drop)]
pub struct Tables {
    /// The queue tables, found by their names.
    pub tables: NamedList<TableRow>,
    /// The queues, found by their names.
    pub queues: NamedList<QueueRow>,
    /// The subscribers of all queues, in the order in which they were added, found by their queues.
    pub subs: NamedList<SubRow>,
    /// The schedules.
    pub schedules: List<ScheduleRow>,
    /// The messages, in the order of their commits.
    pub messages: Tree<MsgRow>,
    /// What has arrived from the other database, found by its numbers there.
    pub seen: PairList<SeenRow>,
    /// One above the greatest id that was committed.
    pub next: u64,
    /// One above the greatest group that was committed.
    pub transaction: u64,
    /// The moment of the latest commit.
    pub latest: u64,
}

impl Tables {
    /// The tables of a database in which nothing was committed yet. It takes no memory.
    pub fn new(alloc: Global) -> Tables
        ensures { result ≡ empty_tables }
    {
        Tables {
            tables: NamedList::new(),
            queues: NamedList::new(),
            subs: NamedList::new(),
            schedules: List::new(alloc),
            messages: Tree::new(),
            seen: PairList::new(),
            next: 1,
            transaction: 1,
            latest: 0,
        }
    }
}
