// Which messages go.
ghost use Rattle.std.specs.Prelude.{◌≡◌, ◌+◌, nat_le};
ghost use Rattle.queue_rows.specs.Settling.{retention_of};
ghost use Rattle.queue_rows.specs.Due.{is_spent, last_taken};
ghost use Rattle.time_manager.specs.Watching.{watch_of};

use crate::watching::Watching;
use due_slots::{is_handled, is_taken, last_taken};
use queue_rows::{MsgRow, Tables, find_queue};

fn retention_of(tables: &Tables, message: &MsgRow) -> u64
    ensures { result ≡ retention_of tables.now message.now }
{
    match find_queue(tables, &message.queue) {
        Some(queue) => queue.retention,
        None => 0,
    }
}

// Whether its queue has kept the message for long enough. A sum past all moments is none that has come.
fn is_kept_enough(watching: &Watching<'_>, message: &MsgRow) -> bool
    ensures { let w = watch_of watching.now in
        result ≡ nat_le (last_taken message.now + retention_of w.tables message.now) w.moment }
{
    let moment = watching.moment;
    match last_taken(message).checked_add(retention_of(watching.tables, message)) {
        Some(end) => end <= moment,
        None => false,
    }
}

/// Whether the message goes.
pub(crate) fn is_spent(watching: &Watching<'_>, message: &MsgRow) -> bool
    ensures { result ≡ is_spent (watch_of watching.now) message.now }
{
    is_handled(message) && (!is_taken(message) || is_kept_enough(watching, message))
}
