// Whether all have taken a message, and when the last one did.
ghost use Rattle.std.specs.Prelude.{◌≡◌, max, if◌then◌else◌};
ghost use Rattle.std.specs.List.{list_all};
ghost use Rattle.queue_rows.specs.Settling.{is_gone, is_handled, is_processed, is_slot_processed};
ghost use Rattle.queue_rows.specs.Due.{is_taken, last_taken};

use payload_records::List;
use queue_rows::{MsgRow, SlotRow};

fn is_slot_processed(message: &MsgRow, slot: u64) -> bool
    ensures { result ≡ is_slot_processed message.now slot }
{
    match message.slot(slot) {
        Some(slot) => slot.state.is_processed(),
        None => false,
    }
}

fn all_gone(slots: &List<SlotRow>) -> bool
    ensures { result ≡ list_all (λ s. is_gone s.state) slots.now }
{
    slots.iter().all(|slot| slot.state.is_gone())
}

/// Whether all have taken the message, or were removed.
pub fn is_handled(message: &MsgRow) -> bool
    ensures { result ≡ is_handled message.now }
{
    if message.moved {
        is_slot_processed(message, 0)
    } else {
        all_gone(&message.slots)
    }
}

/// Whether somebody has taken the message.
pub fn is_taken(message: &MsgRow) -> bool
    ensures { result ≡ is_taken message.now }
{
    message.slots.iter().any(|slot| slot.state.is_processed())
}

fn later(last: u64, slot: &SlotRow) -> u64
    ensures { result ≡ (if is_processed slot.now.state then max last slot.now.at else last) }
{
    if slot.state.is_processed() {
        last.max(slot.at)
    } else {
        last
    }
}

/// The moment at which the message was last taken; 0 where nobody has taken it.
pub fn last_taken(message: &MsgRow) -> u64
    ensures { result ≡ last_taken message.now }
{
    message.slots.iter().fold(0, |last, slot| later(last, slot))
}
