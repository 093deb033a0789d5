// For whom a message has a ready slot.
ghost use Rattle.std.specs.Prelude.{◌≡◌, ◌&&◌, option_copied};
ghost use Rattle.std.specs.List.{list_any};
ghost use Rattle.queue_rows.specs.Dequeueing.{is_local_for};
ghost use Rattle.queue_rows.specs.Settling.{is_ready};
ghost use Rattle.choice_laws.specs.Entries.{shows};
ghost use Rattle.ready_slots.specs.Shown.{offered_to};

use payload_records::{List, Name};
use queue_rows::{MsgRow, SlotRow};

fn offers(consumer: &Name, slot: &SlotRow) -> bool
    ensures { result ≡ (is_local_for consumer.now slot.now && is_ready slot.now.state) }
{
    slot.is_local_for(consumer) && slot.state.is_ready()
}

fn has_offer(consumer: &Name, slots: &List<SlotRow>) -> bool
    ensures { result ≡ list_any (λ s. is_local_for consumer.now s && is_ready s.state) slots.now }
{
    slots.iter().any(|slot| offers(consumer, slot))
}

/// Whether the message has a ready slot for the consumer: without a name slot 1 or slot 0, with a name one that is local for it.
pub fn shown(message: &MsgRow, consumer: Option<&Name>) -> bool
    ensures { result ≡ shows message.now (option_copied consumer.entry) }
{
    match consumer {
        None => message.is_slot_ready(1) || message.is_slot_ready(0),
        Some(consumer) => has_offer(consumer, &message.slots),
    }
}

/// The consumer that the slot names, where the slot is local and ready.
pub(crate) fn offered_to(slot: &SlotRow) -> Option<&Name>
    ensures { option_copied result ≡ offered_to slot.now }
{
    if slot.address.is_none() && slot.state.is_ready() {
        slot.name.as_ref()
    } else {
        None
    }
}
