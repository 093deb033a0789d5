// A message as changes leave it.
ghost use Rattle.std.specs.Prelude.{◌≡◌, IfOk, None, Some};
ghost use Rattle.queue_rows.specs.Rows.{find_message, with_slot};
ghost use Rattle.queue_rows.specs.Tables.{in_state, retried, moved_to};
ghost use Rattle.queue_rows.specs.Settling.{if_it, left_by};
ghost use Rattle.exception_queues.specs.Left.{left_some};

use payload_records::{Copied, Name};
use queue_rows::{Change, MessageTables, MsgRow, SlotState};
use std::alloc::AllocError;

fn with_state(mut message: MsgRow, id: u64, slot: u64, state: SlotState, at: u64) -> Option<MsgRow>
    ensures { result ≡ if_it message id (Some (with_slot slot (in_state state at) message)) }
{
    if message.id == id {
        message.set_slot_state(slot, state, at);
    }
    Some(message)
}

fn with_retry(
    mut message: MsgRow,
    id: u64,
    slot: u64,
    retries: u64,
    until: Option<u64>,
    at: u64,
) -> Option<MsgRow>
    ensures { result ≡ if_it message id (Some (with_slot slot (retried retries until at) message)) }
{
    if message.id == id {
        message.retry_slot(slot, retries, until, at);
    }
    Some(message)
}

fn moved(mut message: MsgRow, id: u64, queue: &Name, at: u64) -> Result<Option<MsgRow>, AllocError>
    ensures { IfOk result (λ left. left ≡ if_it message id (Some (moved_to queue.now at message))) }
{
    if message.id == id {
        message.move_to(queue.copied()?, at)?;
    }
    Ok(Some(message))
}

fn purged(message: MsgRow, id: u64) -> Option<MsgRow>
    ensures { result ≡ if_it message id None }
{
    if message.id == id {
        None
    } else {
        Some(message)
    }
}

fn left_by(message: MsgRow, change: &Change) -> Result<Option<MsgRow>, AllocError>
    ensures { IfOk result (λ left. left ≡ left_by message change.now) }
{
    match change {
        Change::Retried {
            id,
            slot,
            retries,
            until,
            at,
        } => Ok(with_retry(message, *id, *slot, *retries, *until, *at)),
        Change::Ready { id, slot, at } => {
            Ok(with_state(message, *id, *slot, SlotState::Ready, *at))
        }
        Change::Done { id, slot, at } => {
            Ok(with_state(message, *id, *slot, SlotState::Processed, *at))
        }
        Change::Expired { id, slot, at } => {
            Ok(with_state(message, *id, *slot, SlotState::Expired, *at))
        }
        Change::Dropped { id, slot, at } => {
            Ok(with_state(message, *id, *slot, SlotState::Dropped, *at))
        }
        Change::Moved { id, queue, at } => moved(message, *id, queue, *at),
        Change::Purged { id } => Ok(purged(message, *id)),
        _ => Ok(Some(message)),
    }
}

/// What one more change leaves of a message that is there.
pub(crate) fn left_some(
    message: Option<MsgRow>,
    change: &Change,
) -> Result<Option<MsgRow>, AllocError>
    ensures { IfOk result (λ left. left ≡ left_some message change.now) }
{
    match message {
        Some(message) => left_by(message, change),
        None => Ok(None),
    }
}

/// A copy of the message of that number.
pub(crate) fn message_of<T: MessageTables>(
    tables: &T,
    id: u64,
) -> Result<Option<MsgRow>, AllocError>
    ensures { IfOk result (λ message. message ≡ find_message (T.tables tables.now) id) }
{
    match tables.message(id) {
        Some(message) => Ok(Some(message.copied()?)),
        None => Ok(None),
    }
}
