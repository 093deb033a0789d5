// The queues as the changes of a commit leave them, one after another.
ghost use Rattle.std.specs.Prelude.{◌≡◌, ◌==◌, ◌<◌, IfSome, length, option_copied, position};
ghost use Rattle.std.specs.Str.{bytes_eq};
ghost use Rattle.queue_rows.specs.Tables.{is_grouped, lowered_to};
ghost use Rattle.sessions.specs.Running.{lowered_for, queues_after};

use payload_records::{List, Name};
use place_keys::Place;
use queue_rows::{Change, MsgRow, QueueRow, Tables, find_table};

fn queue_place(queues: &List<QueueRow>, name: &Name) -> Option<usize>
    ensures first { result ≡ position (λ q. bytes_eq q.name name.now) queues.now }
    ensures within { IfSome result (λ i. i < length queues.now) }
{
    queues.iter().position(|q| q.name == *name)
}

fn is_grouped(tables: &Tables, queue: &QueueRow) -> bool
    ensures { result ≡ is_grouped tables.now.tables queue.now }
{
    match find_table(tables, &queue.table) {
        Some(table) => table.grouped,
        None => false,
    }
}

fn lower(tables: &Tables, place: &Place, queue: &mut QueueRow)
    ensures { queue.new ≡ lowered_to tables.now.tables place.now queue.old }
{
    queue.lower(is_grouped(tables, queue), place);
}

fn lower_for(tables: &Tables, queues: &mut List<QueueRow>, message: &MsgRow)
    ensures { queues.new ≡ lowered_for tables.now.tables message.now queues.old }
{
    let Some(index) = queue_place(queues, &message.queue) else {
        return;
    };
    if let Some(queue) = queues.get_mut(index) {
        lower(tables, &message.place, queue);
    }
}

/// Lowers the queue into which a change puts a message, as the change does in the tables.
pub fn lower_by(tables: &Tables, queues: &mut List<QueueRow>, change: &Change)
    ensures { queues.new ≡ queues_after tables.now.tables queues.old change.now }
{
    if let Change::Enqueued(message) = change {
        lower_for(tables, queues, message.get());
    }
}
