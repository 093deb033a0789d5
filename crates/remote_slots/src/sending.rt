// Which slot of a message a schedule sends.
ghost use Rattle.std.specs.Prelude.{◌≡◌, ◌≤◌, [], ◌∷◌, find, if◌then◌else◌};
ghost use Rattle.std.specs.List.{range_with_len};
ghost use Rattle.queue_rows.specs.Rows.{recipient_count};
ghost use Rattle.queue_rows.specs.Settling.{is_ready};
ghost use Rattle.queue_rows.specs.Propagating.{goes_to, last_sending, has_sent_since};
ghost use Rattle.queue_rows.specs.Propagating.{can_send, can_send_slot, first_to_send, can_send_of};
ghost use Rattle.remote_slots.specs.Few.{HasFewSlots};

use payload_records::Name;
use queue_rows::{MsgRow, ScheduleRow, SlotRow};

/// Whether that queue of the other database is where the slot goes. It takes no memory.
pub fn goes_to(to: &Name, slot: &SlotRow) -> bool
    ensures { result ≡ goes_to to.now slot.now }
{
    match &slot.address {
        Some(address) => *address == *to,
        None => false,
    }
}

fn last_sending(schedule: &ScheduleRow, moment: u64) -> u64
    requires { 1 ≤ schedule.now.latency }
    ensures { result ≡ last_sending schedule.now moment }
{
    moment - moment.saturating_sub(schedule.start) % schedule.latency
}

// Whether the schedule has sent since that moment.
fn has_sent_since(schedule: &ScheduleRow, since: u64, moment: u64) -> bool
    ensures { result ≡ has_sent_since schedule.now since moment }
{
    schedule.latency == 0 || since <= last_sending(schedule, moment)
}

fn can_send(schedule: &ScheduleRow, moment: u64, slot: &SlotRow) -> bool
    ensures { result ≡ can_send schedule.now moment slot.now }
{
    slot.state.is_ready()
        && goes_to(&schedule.to, slot)
        && has_sent_since(schedule, slot.at, moment)
}

fn can_send_slot(schedule: &ScheduleRow, moment: u64, message: &MsgRow, slot: u32) -> bool
    ensures { result ≡ can_send_slot schedule.now moment message.now slot }
{
    match message.slot(u64::from(slot)) {
        Some(slot) => can_send(schedule, moment, slot),
        None => false,
    }
}

fn first_recipient(schedule: &ScheduleRow, moment: u64, message: &MsgRow) -> Option<u32>
    requires { HasFewSlots message.now }
    ensures { result ≡ find (can_send_slot schedule.now moment message.now)
        (range_with_len 1 (recipient_count message.now)) }
{
    let end = message.recipient_count() as u32 + 1;
    (1..end).find(|slot| can_send_slot(schedule, moment, message, *slot))
}

// Slot 0 of a moved message, if it can be sent.
fn slot_zero(schedule: &ScheduleRow, moment: u64, message: &MsgRow) -> Option<u32>
    ensures { result ≡ find (can_send_slot schedule.now moment message.now)
        (if message.now.moved then 0 ∷ [] else []) }
{
    if message.moved && can_send_slot(schedule, moment, message, 0) {
        Some(0)
    } else {
        None
    }
}

/// The first slot of the message that the schedule can send at that moment, whether it is open or not. It takes no memory.
pub fn first_to_send(schedule: &ScheduleRow, moment: u64, message: &MsgRow) -> Option<u32>
    requires { HasFewSlots message.now }
    ensures { result ≡ first_to_send schedule.now moment message.now }
{
    match first_recipient(schedule, moment, message) {
        Some(slot) => Some(slot),
        None => slot_zero(schedule, moment, message),
    }
}

/// Whether the message stands in the schedule's queue, and a slot of it can be sent.
pub(crate) fn can_send_of(schedule: &ScheduleRow, moment: u64, message: &MsgRow) -> bool
    requires { HasFewSlots message.now }
    ensures { result ≡ can_send_of schedule.now moment message.now }
{
    message.queue == schedule.queue && first_to_send(schedule, moment, message).is_some()
}
