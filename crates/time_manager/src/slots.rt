// What is due of the slots of messages.
ghost use Rattle.std.specs.Prelude.{◌≡◌, ◌++◌, true, OnOk, flat_map};
ghost use Rattle.std.specs.List.{range_with_len};
ghost use Rattle.queue_rows.specs.Rows.{recipient_count, slot_of};
ghost use Rattle.queue_rows.specs.Due.{due_change, due_slot, due_slots, is_over};
ghost use Rattle.due_slots.specs.Named.{is_slot_due};
ghost use Rattle.due_slots.specs.Rows.{HasFewSlots};
ghost use Rattle.time_manager.specs.Watching.{watch_of};

use crate::holding::is_left;
use crate::watching::Watching;
use payload_records::List;
use queue_rows::{Change, MsgRow, SlotRow};
use std::alloc::AllocError;

fn is_over(slot: &SlotRow, moment: u64) -> bool
    ensures { result ≡ is_over slot.now moment }
{
    match slot.expires {
        Some(expiry) => expiry <= moment,
        None => false,
    }
}

fn is_slot_due(slot: &SlotRow, moment: u64) -> bool
    ensures { result ≡ is_slot_due slot.now moment }
{
    slot.state.is_open() && (is_over(slot, moment) || (!slot.state.is_ready() && slot.at <= moment))
}

// A slot whose time has come expires where its expiry has come, and else is ready.
fn push_change(
    changes: &mut List<Change>,
    id: u64,
    slot: u64,
    row: &SlotRow,
    moment: u64,
) -> Result<(), AllocError>
    requires { is_slot_due row.now moment ≡ true }
    ensures { OnOk result (changes.new ≡ changes.old ++ due_change id slot row.now moment) }
{
    if is_over(row, moment) {
        return changes.push(Change::Expired {
            id,
            slot,
            at: moment,
        });
    }
    changes.push(Change::Ready {
        id,
        slot,
        at: moment,
    })
}

fn push_slot(
    changes: &mut List<Change>,
    watching: &Watching<'_>,
    message: &MsgRow,
    slot: u32,
) -> Result<(), AllocError>
    ensures { let w = watch_of watching.now in let m = message.now in
        OnOk result (changes.new ≡ changes.old ++ due_slot w m slot (slot_of m slot)) }
{
    let Some(row) = message.slot(u64::from(slot)) else {
        return Ok(());
    };
    if !is_slot_due(row, watching.moment) || is_left(watching, message, slot) {
        return Ok(());
    }
    push_change(changes, message.id, u64::from(slot), row, watching.moment)
}

fn push_recipient_slots(
    changes: &mut List<Change>,
    watching: &Watching<'_>,
    message: &MsgRow,
) -> Result<(), AllocError>
    requires { HasFewSlots message.now }
    ensures { let w = watch_of watching.now in let m = message.now in OnOk result (changes.new ≡ changes.old
        ++ flat_map (λ slot. due_slot w m slot (slot_of m slot)) (range_with_len 1 (recipient_count m))) }
{
    let end = message.recipient_count() as u32 + 1;
    for slot in 1..end {
        push_slot(changes, watching, message, slot)?;
    }
    Ok(())
}

/// Puts in what is due of the slots of a message.
pub(crate) fn push_slots(
    changes: &mut List<Change>,
    watching: &Watching<'_>,
    message: &MsgRow,
) -> Result<(), AllocError>
    requires { HasFewSlots message.now }
    ensures { OnOk result (changes.new ≡ changes.old ++ due_slots (watch_of watching.now) message.now) }
{
    push_recipient_slots(changes, watching, message)?;
    if message.moved {
        push_slot(changes, watching, message, 0)?;
    }
    Ok(())
}
