// What the session that is given a message is shown of it.
ghost use Rattle.std.specs.Prelude.{◌≡◌, IfOk};
ghost use Rattle.queue_rows.specs.Dequeueing.{retries_of, shown_in};

use payload_records::Copied;
use queue_rows::{Mode, MsgRow, Shown, TableRow};
use std::alloc::AllocError;

/// How often a removal of that slot was rolled back; 0 where the message has none.
pub(crate) fn retries_of(message: &MsgRow, slot: u32) -> u64
    ensures { result ≡ retries_of message.now slot }
{
    match message.slot(u64::from(slot)) {
        Some(slot) => slot.retries,
        None => 0,
    }
}

/// The payload that a dequeue of that mode shows, with its type.
pub(crate) fn shown_in(
    mode: Mode,
    table: &TableRow,
    message: &MsgRow,
) -> Result<Option<Shown>, AllocError>
    ensures { IfOk result (λ shown. shown ≡ shown_in mode table.now message.now) }
{
    match mode {
        Mode::RemoveNodata => Ok(None),
        Mode::Remove | Mode::Browse | Mode::Locked => Ok(Some(Shown {
            kind: table.fields.copied()?,
            cells: message.facts.cells.copied()?,
        })),
    }
}
