// The message before which an enqueue puts its own.
ghost use Rattle.std.specs.Prelude.{◌≡◌, length, option_copied};
ghost use Rattle.std.specs.List.{list_any};
ghost use Rattle.place_keys.specs.Place.{before_count};
ghost use Rattle.queue_rows.specs.Enqueueing.{is_relative, is_too_deep, relative_named, relative_of};
ghost use Rattle.queue_rows.specs.Settling.{is_open};
ghost use Rattle.queue_rows.specs.Session.{is_same_db, message_named};

use aq_base::DbId;
use payload_records::{List, Name};
use place_keys::BEFORE_LIMIT;
use queue_rows::{Enqueue, MessageTables, MsgId, MsgRow, SlotRow, TableRow};

fn is_same_db(left: DbId, right: DbId) -> bool
    ensures { result ≡ is_same_db left right }
{
    left == right
}

fn message_named<T: MessageTables>(store: &T, at: DbId, id: MsgId) -> Option<&MsgRow>
    ensures { option_copied result ≡ message_named (T.tables store.now) at id }
{
    if is_same_db(id.db, at) {
        store.message(id.number)
    } else {
        None
    }
}

fn any_open(slots: &List<SlotRow>) -> bool
    ensures { result ≡ list_any (λ s. is_open s.state) slots.now }
{
    slots.iter().any(|s| s.state.is_open())
}

/// Whether it stands in that queue, was not moved there, and can be taken, at once or later.
fn is_relative(queue: &Name, message: &MsgRow) -> bool
    ensures { result ≡ is_relative queue.now message.now }
{
    message.queue == *queue && !message.moved && any_open(&message.slots)
}

fn relative_named<'a, T: MessageTables>(
    store: &'a T,
    at: DbId,
    queue: &Name,
    id: MsgId,
) -> Option<&'a MsgRow>
    ensures { option_copied result ≡ relative_named (T.tables store.now) at queue.now id }
{
    match message_named(store, at, id) {
        Some(message) if is_relative(queue, message) => Some(message),
        _ => None,
    }
}

/// The committed message before which an enqueue at that database is to stand: none where it names none, or one that may
/// not be stood before.
pub(crate) fn relative_of<'a, T: MessageTables>(
    store: &'a T,
    at: DbId,
    ask: &Enqueue,
) -> Option<&'a MsgRow>
    ensures { option_copied result ≡ relative_of (T.tables store.now) at ask.now }
{
    match ask.before {
        Some(id) => relative_named(store, at, &ask.queue, id),
        None => None,
    }
}

fn before_count(table: &TableRow, message: &MsgRow) -> usize
    ensures { result ≡ before_count (length table.now.columns) message.now.place }
{
    let own = table.columns.columns().len() + 2;
    message.place.numbers().len().saturating_sub(own)
}

/// Whether the place of the message before which it is to stand has no room for a further id.
pub(crate) fn is_too_deep(table: &TableRow, relative: Option<&MsgRow>) -> bool
    ensures { result ≡ is_too_deep table.now (option_copied relative.entry) }
{
    match relative {
        Some(message) => before_count(table, message) >= BEFORE_LIMIT,
        None => false,
    }
}
