// Which message a change names, and when.
ghost use Rattle.std.specs.Prelude.{◌≡◌};
ghost use Rattle.queue_rows.specs.Settling.{named_by, moment_by};

use queue_rows::Change;

/// The message that a change names.
pub(crate) fn named_by(change: &Change) -> Option<u64>
    ensures { result ≡ named_by change.now }
{
    match change {
        Change::Retried { id, .. }
        | Change::Ready { id, .. }
        | Change::Done { id, .. }
        | Change::Expired { id, .. }
        | Change::Dropped { id, .. }
        | Change::Moved { id, .. }
        | Change::Purged { id } => Some(*id),
        _ => None,
    }
}

/// The moment at which a change names the message, and the one before where it names another one or none.
pub(crate) fn moment_by(id: u64, before: u64, change: &Change) -> u64
    ensures { result ≡ moment_by id before change.now }
{
    match change {
        Change::Retried { id: named, at, .. }
        | Change::Ready { id: named, at, .. }
        | Change::Done { id: named, at, .. }
        | Change::Expired { id: named, at, .. }
        | Change::Dropped { id: named, at, .. }
        | Change::Moved { id: named, at, .. } => { if *named == id { *at } else { before } }
        _ => before,
    }
}
