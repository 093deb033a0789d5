//! The group by which marks hold a slot of a message.
#![tactic(auto)]

ghost use Rattle.std.specs.Prelude.{◌≡◌, IfOk};
ghost use Rattle.queue_rows.specs.Groups.{consumer_of, group_of};

use payload_records::{Boxed, Copied, Name};
use queue_rows::{MsgRow, TableRow};
use slot_marks::Group;
use std::alloc::AllocError;

fn consumer_of(message: &MsgRow, slot: u32) -> Result<Option<Name>, AllocError>
    ensures { IfOk result (λ name. name ≡ consumer_of message.now slot) }
{
    match message.slot(u64::from(slot)) {
        Some(slot) => Copied::copied(&slot.name),
        None => Ok(None),
    }
}

/// The group of a slot of a message whose queue is of that table: the messages of one commit in one queue, as the slot's
/// recipient sees them. None where the table is not grouped. A slot that the message does not have is of no recipient.
pub fn group_of(
    table: &TableRow,
    message: &MsgRow,
    slot: u32,
) -> Result<Option<Boxed<Group>>, AllocError>
    ensures { IfOk result (λ group. group ≡ group_of table.now message.now slot) }
{
    if !table.grouped {
        return Ok(None);
    }
    let group = Group {
        queue: message.queue.copied()?,
        number: message.group,
        consumer: consumer_of(message, slot)?,
    };
    Ok(Some(Boxed::new(message.slots.allocator(), group)?))
}
