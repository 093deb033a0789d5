// The rows of a message.
ghost use Rattle.std.specs.Prelude.{◌≡◌};
ghost use Rattle.std.specs.Option.{option_to_list};
ghost use Rattle.due_slots.specs.Rows.{purge_moment, purge_row, slot_moment, slot_row, sooner};

use crate::spent::{is_handled, is_taken, last_taken};
use due_index::DueRow;
use queue_rows::{MsgRow, SlotRow};

fn sooner(at: u64, expiry: Option<u64>) -> u64
    ensures { result ≡ sooner at expiry }
{
    match expiry {
        Some(expiry) => at.min(expiry),
        None => at,
    }
}

fn slot_moment(slot: &SlotRow) -> Option<u64>
    ensures { result ≡ slot_moment slot.now }
{
    if !slot.state.is_open() {
        return None;
    }
    if slot.state.is_ready() {
        slot.expires
    } else {
        Some(sooner(slot.at, slot.expires))
    }
}

/// The row of a slot, where something may be due of it.
pub(crate) fn slot_row(message: &MsgRow, slot: u32) -> Option<DueRow>
    ensures { option_to_list result ≡ slot_row message.now slot }
{
    let moment = slot_moment(message.slot(u64::from(slot))?)?;
    Some(DueRow {
        moment,
        id: message.id,
        slot,
    })
}

fn purge_moment(message: &MsgRow, retention: u64) -> u64
    ensures { result ≡ purge_moment retention message.now }
{
    if is_taken(message) {
        last_taken(message).saturating_add(retention)
    } else {
        0
    }
}

/// The row of the message itself, where all have taken it.
pub(crate) fn purge_row(message: &MsgRow, retention: u64) -> Option<DueRow>
    ensures { option_to_list result ≡ purge_row retention message.now }
{
    if !is_handled(message) {
        return None;
    }
    Some(DueRow {
        moment: purge_moment(message, retention),
        id: message.id,
        slot: 0,
    })
}
