// Changes that take the only slot of a message, and do nothing else.
ghost use Rattle.std.specs.Prelude.{◌≡◌, option_copied};
ghost use Rattle.exception_queues.specs.Sole.{taken_by, taken_alone, has_one_slot, taken_whole};

use payload_records::List;
use queue_rows::{Change, MessageTables, MsgRow};

fn taken_by(change: &Change) -> Option<u64>
    ensures { result ≡ taken_by change.now }
{
    match change {
        Change::Done { id, slot, .. } => { if *slot == 1 { Some(*id) } else { None } }
        _ => None,
    }
}

fn taken_alone(changes: &List<Change>) -> Option<u64>
    ensures { result ≡ taken_alone changes.now }
{
    if changes.len() == 1 {
        match changes.get(0) {
            Some(change) => taken_by(change),
            None => None,
        }
    } else {
        None
    }
}

fn has_one_slot(message: &MsgRow) -> bool
    ensures { result ≡ has_one_slot message.now }
{
    !message.moved && message.slots.len() == 1
}

/// The message whose only slot the changes take, where they do nothing else.
pub(crate) fn taken_whole<'a, T: MessageTables>(
    tables: &'a T,
    changes: &List<Change>,
) -> Option<&'a MsgRow>
    ensures { option_copied result ≡ taken_whole (T.tables tables.now) changes.now }
{
    let message = tables.message(taken_alone(changes)?)?;
    if has_one_slot(message) {
        Some(message)
    } else {
        None
    }
}
