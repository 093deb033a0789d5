// How many rows of each kind changes may put.
ghost use Rattle.std.specs.Prelude.{◌≡◌, count_by};
ghost use Rattle.message_store.specs.Puts.{is_put};

use payload_records::List;
use queue_rows::Change;

/// A kind of row that a change may put into tables.
#[derive(Clone, Copy)]
pub(crate) enum RowKind {
    /// A queue table.
    Table,
    /// A queue.
    Queue,
    /// A subscriber.
    Sub,
    /// A schedule.
    Schedule,
    /// A message.
    Message,
    /// An arrival from the other database.
    Seen,
}

fn is_put(kind: RowKind, change: &Change) -> bool
    ensures { result ≡ is_put kind change.now }
{
    match kind {
        RowKind::Table => matches!(change, Change::PutTable(_)),
        RowKind::Queue => matches!(change, Change::PutQueue(_)),
        RowKind::Sub => matches!(change, Change::PutSub(_)),
        RowKind::Schedule => matches!(change, Change::PutSchedule(_)),
        RowKind::Message => matches!(change, Change::Enqueued(_)),
        RowKind::Seen => matches!(change, Change::Seen(_)),
    }
}

/// How many rows of that kind the changes may put.
pub(crate) fn puts_of(kind: RowKind, changes: &List<Change>) -> usize
    ensures { result ≡ count_by (is_put kind) changes.now }
{
    changes.iter().filter(|change| is_put(kind, change)).count()
}
