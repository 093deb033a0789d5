// Messages that are put into queues, and moved between them.
ghost use Rattle.std.specs.Prelude.{◌≡◌, ◌==◌, ◌^◌, ◌<◌, ◌-◌, IsTrue, List};
ghost use Rattle.std.specs.Str.{bytes_eq};
ghost use Rattle.queue_rows.specs.Rows.{changed_first, find_message};
ghost use Rattle.queue_rows.specs.declared.rows.TableRow.{TableRow};
ghost use Rattle.queue_rows.specs.Tables.{is_grouped, lowered_to, with_message, move_some};
ghost use Rattle.message_store.specs.Lowered.{with_lowered};
ghost use Rattle.message_store.specs.Open.{held, room_of};
ghost use Rattle.message_store.specs.Prepared.{HasFewerSlots};

use crate::open::OpenTables;
use named_list::NamedList;
use open_rows::{OpenNamed, RowRoom, has_queue, queue_place, table_row};
use payload_records::Name;
use place_keys::Place;
use queue_rows::{MsgRow, QueueRow, SlotRow, TableRow, lane_of};
use row_tree::Edit;

fn is_grouped(tables: &NamedList<TableRow>, queue: &QueueRow) -> bool
    ensures { result ≡ is_grouped tables.now queue.now }
{
    match table_row(tables, &queue.table) {
        Some(row) => row.grouped,
        None => false,
    }
}

/// The lowest lane of the queue follows a message.
#[derive(Drop)]
pub(crate) struct Lower<'a> {
    /// The queue tables.
    pub(crate) tables: &'a NamedList<TableRow>,
    /// The place of the message.
    pub(crate) place: &'a Place,
}

impl<'a> Edit<QueueRow> for Lower<'a> {
    ghost edited = { λ edit queue. lowered_to edit.tables.now edit.place.now queue };

    fn edit(self, queue: QueueRow) -> QueueRow {
        let mut queue = queue;
        queue.lower(is_grouped(self.tables, &queue), self.place);
        queue
    }
}

// Whether the queue's lowest lane stays where a message comes at that place, whatever its table.
fn keeps_lowest(queue: &QueueRow, place: &Place) -> bool
    ensures { IsTrue result → (tables : List TableRow) → lowered_to tables place.now queue.now ≡ queue.now }
{
    queue.lowest <= lane_of(place)
}

/// Whether there is a queue of that name, whose lowest lane stays.
pub(crate) fn is_low(queues: &NamedList<QueueRow>, name: &Name, place: &Place) -> bool
    ensures { IsTrue result → (tables : List TableRow)
        → changed_first (λ q. bytes_eq q.name name.now) (lowered_to tables place.now) queues.now
        ≡ queues.now }
{
    match queues.find(name) {
        Some(queue) => keeps_lowest(queue, place),
        None => false,
    }
}

fn lower_of(
    tables: &OpenNamed<TableRow>,
    queues: &mut OpenNamed<QueueRow>,
    name: &Name,
    place: &Place,
)
    ensures { queues.new ≡ with_lowered tables.now.items place.now name.now queues.old }
{
    if is_low(queues.rows(), name, place) {
        return;
    }
    if let Some(at) = queue_place(queues.rows(), name) {
        queues.edit(
            at,
            Lower {
                tables: tables.rows(),
                place,
            },
        );
    }
}

/// The message is there, last of all.
pub(crate) fn enqueue(opened: &mut OpenTables, row: MsgRow)
    requires id { row.id < 2 ^ 63 }
    requires group { row.group < 2 ^ 63 }
    requires place { 0 < opened.old.messages.room }
    ensures held { held opened.new ≡ with_message (held opened.old) row }
    ensures room { let old = room_of opened.old in
        room_of opened.new ≡ record old { messages = old.messages - 1 } }
{
    lower_of(&opened.tables, &mut opened.queues, &row.queue, &row.place);
    opened.next = opened.next.max(row.id + 1);
    opened.transaction = opened.transaction.max(row.group + 1);
    opened.messages.push(row);
}

/// The first message of that number stands in that queue, with slot 0 behind its slots. Where the one or the other is not
/// there, nothing changes.
pub(crate) fn move_message(
    opened: &mut OpenTables,
    id: u64,
    queue: Name,
    at: u64,
    slots: RowRoom<SlotRow>,
)
    requires { HasFewerSlots (held opened.old) id slots }
    ensures held { let old = held opened.old in
        held opened.new ≡ move_some old (find_message old id) queue at }
    ensures room { room_of opened.new ≡ room_of opened.old }
{
    let Some(message) = opened.messages.find(id) else {
        return;
    };
    if !has_queue(opened.queues.rows(), &queue) {
        return;
    }
    lower_of(&opened.tables, &mut opened.queues, &queue, &message.place);
    let id = message.id;
    opened.messages.move_to(id, queue, at, slots);
}
