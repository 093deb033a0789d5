// The slots that go with a subscriber.
ghost use Rattle.std.specs.Prelude.{◌≡◌, ◌++◌, Some, OnOk, option_to_list};
ghost use Rattle.queue_rows.specs.Settling.{is_open};
ghost use Rattle.queue_rows.specs.Session.{is_same_consumer};
ghost use Rattle.queue_rows.specs.Catalog.{is_slot_of, dropped_slot, dropped_of, dropped_in};

use payload_records::{List, Name};
use queue_rows::{Change, MsgRow, SlotRow, SubRow, Tables};
use std::alloc::AllocError;

fn is_named(consumer: &Option<Name>, name: &Name) -> bool
    ensures { result ≡ is_same_consumer consumer.now (Some name.now) }
{
    match consumer {
        Some(own) => own == name,
        None => false,
    }
}

/// Whether the slot is the subscriber's, by its name and address. It takes no memory.
pub fn is_slot_of(sub: &SubRow, slot: &SlotRow) -> bool
    ensures { result ≡ is_slot_of sub.now slot.now }
{
    is_named(&slot.name, &sub.name) && slot.address == sub.address
}

// The slot of that number of a message is dropped, if it is the subscriber's and can still be taken.
fn drop_slot(
    changes: &mut List<Change>,
    sub: &SubRow,
    id: u64,
    number: u64,
    slot: &SlotRow,
    moment: u64,
) -> Result<(), AllocError>
    ensures { OnOk result (changes.new
        ≡ changes.old ++ option_to_list (dropped_slot sub.now moment id (number, slot.now))) }
{
    if is_slot_of(sub, slot) && slot.state.is_open() {
        return changes.push(Change::Dropped {
            id,
            slot: number,
            at: moment,
        });
    }
    Ok(())
}

// Slots are numbered from 1.
fn drop_slots(
    changes: &mut List<Change>,
    sub: &SubRow,
    message: &MsgRow,
    moment: u64,
) -> Result<(), AllocError>
    ensures { OnOk result (changes.new ≡ changes.old ++ dropped_of sub.now moment message.now) }
{
    for index in 0..message.slots.len() {
        match message.slots.get(index) {
            Some(slot) => drop_slot(changes, sub, message.id, index as u64 + 1, slot, moment)?,
            None => {}
        }
    }
    Ok(())
}

/// The subscriber's slots that can still be taken go, in the messages that stand in its queue. It walks over the messages
/// of the database, and over the slots of those in the queue.
pub(crate) fn drop_slots_in(
    changes: &mut List<Change>,
    tables: &Tables,
    sub: &SubRow,
    moment: u64,
) -> Result<(), AllocError>
    ensures { OnOk result (changes.new ≡ changes.old ++ dropped_in tables.now sub.now moment) }
{
    for message in &tables.messages {
        if message.queue == sub.queue {
            drop_slots(changes, sub, message, moment)?;
        }
    }
    Ok(())
}
