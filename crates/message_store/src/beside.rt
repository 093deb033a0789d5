// What is kept beside tables, for the commit to come.
ghost use Rattle.std.specs.Prelude.{◌≡◌, OnOk, []};
ghost use Rattle.message_store.specs.Beside.{room_beside};
ghost use Rattle.message_store.specs.Room.{HasRoom};

use crate::room::{RowKind, puts_of};
use message_index::MessageIndex;
use open_rows::{Rooms, RowRoom};
use payload_records::List;
use queue_rows::{Change, QueueRow, ScheduleRow, SeenRow, SlotRow, SubRow, TableRow, Tables};
use std::alloc::{AllocError, Global};
use std::collections::VecDeque;

/// The index of messages by their numbers, and the memory that a commit was prepared with.
#[derive(Drop)]
pub(crate) struct Beside {
    /// The index, with memory for more messages.
    pub(crate) index: MessageIndex,
    /// Memory for queue tables.
    pub(crate) tables: Rooms<named_list::Room<TableRow>>,
    /// Memory for queues.
    pub(crate) queues: Rooms<named_list::Room<QueueRow>>,
    /// Memory for subscribers.
    pub(crate) subs: Rooms<named_list::Room<SubRow>>,
    /// Memory for schedules.
    pub(crate) schedules: RowRoom<ScheduleRow>,
    /// Memory for what arrives from the other database.
    pub(crate) seen: Rooms<pair_list::Room<SeenRow>>,
    /// Memory for the slots of the messages that are moved, in the order of moves.
    pub(crate) slots: VecDeque<RowRoom<SlotRow>>,
}

impl Beside {
    /// This index, and no memory for rows. It takes no memory.
    pub(crate) fn of(alloc: Global, index: MessageIndex) -> Beside
        ensures { result.index ≡ index }
    {
        Beside {
            index,
            tables: Rooms::none(alloc),
            queues: Rooms::none(alloc),
            subs: Rooms::none(alloc),
            schedules: RowRoom::none(alloc),
            seen: Rooms::none(alloc),
            slots: VecDeque::new(alloc),
        }
    }

    /// Takes memory for each row that the changes may put.
    pub(crate) fn reserve(
        &mut self,
        tables: &Tables,
        changes: &List<Change>,
    ) -> Result<(), AllocError>
        ensures ids { self.new.index.ids ≡ self.old.index.ids }
        ensures stamps { self.new.index.stamps ≡ self.old.index.stamps }
        ensures slots { self.new.slots.items ≡ self.old.slots.items }
        ensures room { OnOk result (HasRoom (room_beside tables.now self.new) changes.now) }
    {
        self.tables
            .reserve(tables.tables.len(), puts_of(RowKind::Table, changes))?;
        self.queues
            .reserve(tables.queues.len(), puts_of(RowKind::Queue, changes))?;
        self.subs
            .reserve(tables.subs.len(), puts_of(RowKind::Sub, changes))?;
        self.schedules
            .reserve(&tables.schedules, puts_of(RowKind::Schedule, changes))?;
        self.seen
            .reserve(tables.seen.len(), puts_of(RowKind::Seen, changes))?;
        self.index.reserve(puts_of(RowKind::Message, changes))
    }
}
