// The states of slots, and what the slots of a message have come to.
ghost use Rattle.std.specs.Prelude.{◌≡◌, option_copied};
ghost use Rattle.std.specs.List.{list_any, list_all};
ghost use Rattle.queue_rows.specs.Rows.{slot_of};
ghost use Rattle.queue_rows.specs.Settling.{is_open, is_processed, is_expired, is_gone, is_slot_processed};

use payload_records::List;
use queue_rows::{MsgRow, SlotRow};

// ---- states

// ---- the slots of a message

/// The slot of a message that has that number.
pub fn slot_of(message: &MsgRow, slot: u64) -> Option<&SlotRow>
    ensures { option_copied result ≡ slot_of message.now slot }
{
    message.slot(slot)
}

/// Whether the slot of a message that has that number was taken.
pub fn is_slot_processed(message: &MsgRow, slot: u64) -> bool
    ensures { result ≡ is_slot_processed message.now slot }
{
    match message.slot(slot) {
        Some(slot) => slot.state.is_processed(),
        None => false,
    }
}

/// Whether one of the slots can be taken, now or later.
pub fn any_open(slots: &List<SlotRow>) -> bool
    ensures { result ≡ list_any (λ s. is_open s.state) slots.now }
{
    slots.iter().any(|s| s.state.is_open())
}

/// Whether one of the slots has expired.
pub fn any_expired(slots: &List<SlotRow>) -> bool
    ensures { result ≡ list_any (λ s. is_expired s.state) slots.now }
{
    slots.iter().any(|s| s.state.is_expired())
}

/// Whether one of the slots was taken.
pub fn any_processed(slots: &List<SlotRow>) -> bool
    ensures { result ≡ list_any (λ s. is_processed s.state) slots.now }
{
    slots.iter().any(|s| s.state.is_processed())
}

/// Whether each of the slots was taken, or its subscriber was removed.
pub fn all_gone(slots: &List<SlotRow>) -> bool
    ensures { result ≡ list_all (λ s. is_gone s.state) slots.now }
{
    slots.iter().all(|s| s.state.is_gone())
}
