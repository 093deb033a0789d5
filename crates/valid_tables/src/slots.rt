// Slots of messages that are right.
ghost use Rattle.std.specs.Prelude.{◌≡◌, is_some, not, take, option_copied};
ghost use Rattle.std.specs.List.{list_all, list_any};
ghost use Rattle.queue_rows.specs.Distinct.{are_distinct};
ghost use Rattle.queue_rows.specs.Rows.{recipient_slots};
ghost use Rattle.queue_rows.specs.Settling.{is_open, is_ready, is_processed};
ghost use Rattle.valid_tables.specs.Repeats.{is_repeated_at};
ghost use Rattle.queue_rows.specs.Valid.{is_same_recipient, has_right_recipients, is_nameless, has_right_names, is_right_slot_zero, is_right_if_moved, has_right_retries, has_allowed_retries, is_waiting, has_begun, has_right_slots};

use aq_base::RECIPIENT_LIMIT;
use queue_rows::{MsgRow, QueueRow, SlotRow, SlotState, TableRow, Tables};

/// How many retries a slot has at most: one more than a queue may allow.
const RETRIES_LIMIT: u64 = 1 << 31;

// ---- states

fn is_waiting(state: SlotState) -> bool
    ensures { result ≡ is_waiting state }
{
    match state {
        SlotState::Waiting => true,
        SlotState::Ready | SlotState::Processed | SlotState::Expired | SlotState::Dropped => false,
    }
}

// ---- recipients

fn is_same_recipient(left: &SlotRow, right: &SlotRow) -> bool
    ensures { result ≡ is_same_recipient left.now right.now }
{
    left.name == right.name && left.address == right.address
}

// One of the first slots, so many, has the recipient.
fn any_before(message: &MsgRow, count: usize, slot: &SlotRow) -> bool
    ensures { result ≡ list_any (λ s. is_same_recipient s slot.now) (take count message.now.slots) }
{
    message
        .slots
        .iter()
        .take(count)
        .any(|before| is_same_recipient(before, slot))
}

// The recipient of the slot at that index is that of a slot before it.
fn is_repeated(message: &MsgRow, at: usize) -> bool
    ensures { result ≡ is_repeated_at message.now.slots at }
{
    match message.slots.get(at) {
        Some(slot) => any_before(message, at, slot),
        None => false,
    }
}

// Each pair is compared, of which there are at most 2,016 among as many recipients as there may be.
fn are_distinct_recipients(message: &MsgRow) -> bool
    ensures { result ≡ are_distinct is_same_recipient (recipient_slots message.now) }
{
    for at in 0..message.recipient_count() {
        if is_repeated(message, at) {
            return false;
        }
    }
    true
}

// 1 to 64 recipients' slots; their names and addresses together are distinct.
fn has_right_recipients(message: &MsgRow) -> bool
    ensures { result ≡ has_right_recipients message.now }
{
    1 <= message.recipient_count()
        && message.recipient_count() <= RECIPIENT_LIMIT
        && are_distinct_recipients(message)
}

// ---- names

fn is_nameless(slot: &SlotRow) -> bool
    ensures { result ≡ is_nameless slot.now }
{
    slot.name.is_none() && slot.address.is_none()
}

fn are_named(message: &MsgRow) -> bool
    ensures { result ≡ list_all (λ s. is_some s.name) (recipient_slots message.now) }
{
    message
        .slots
        .iter()
        .take(message.recipient_count())
        .all(|slot| slot.name.is_some())
}

fn are_nameless(message: &MsgRow) -> bool
    ensures { result ≡ list_all is_nameless message.now.slots }
{
    message.slots.iter().all(is_nameless)
}

// Slots of a table with one consumer have no name and no address, others but slot 0 a name.
fn has_right_names(table: &TableRow, message: &MsgRow) -> bool
    ensures { result ≡ has_right_names table.now message.now }
{
    if table.multi {
        are_named(message)
    } else {
        are_nameless(message)
    }
}

// ---- moved messages

fn is_right_slot_zero(slot: Option<&SlotRow>) -> bool
    ensures { result ≡ is_right_slot_zero (option_copied slot.entry) }
{
    match slot {
        Some(slot) => {
            (slot.state.is_ready() || slot.state.is_processed()) && slot.expires.is_none()
        }
        None => false,
    }
}

fn none_open(message: &MsgRow) -> bool
    ensures { result ≡ list_all (λ s. not (is_open s.state)) (recipient_slots message.now) }
{
    message
        .slots
        .iter()
        .take(message.recipient_count())
        .all(|slot| !slot.state.is_open())
}

// In a moved message no slot but slot 0 can be taken, and slot 0 is ready or processed and has no expiry.
fn is_right_if_moved(message: &MsgRow) -> bool
    ensures { result ≡ is_right_if_moved message.now }
{
    !message.moved || (none_open(message) && is_right_slot_zero(message.slot(0)))
}

// ---- retries and moments

fn has_right_retries(slot: &SlotRow) -> bool
    ensures { result ≡ has_right_retries slot.now }
{
    slot.retries <= RETRIES_LIMIT
}

// Those of a slot that can be taken, now or later, are no more than its queue allows.
fn has_allowed_retries(queue: &QueueRow, slot: &SlotRow) -> bool
    ensures { result ≡ has_allowed_retries queue.now slot.now }
{
    !slot.state.is_open() || slot.retries <= queue.max_retries
}

fn have_right_retries(message: &MsgRow) -> bool
    ensures { result ≡ list_all has_right_retries message.now.slots }
{
    message.slots.iter().all(has_right_retries)
}

fn have_allowed_retries(queue: &QueueRow, message: &MsgRow) -> bool
    ensures { result ≡ list_all (has_allowed_retries queue.now) (recipient_slots message.now) }
{
    message
        .slots
        .iter()
        .take(message.recipient_count())
        .all(|slot| has_allowed_retries(queue, slot))
}

// A state that began did so no later than the latest commit.
fn has_begun(latest: u64, slot: &SlotRow) -> bool
    ensures { result ≡ has_begun latest slot.now }
{
    is_waiting(slot.state) || slot.at <= latest
}

fn have_begun(latest: u64, message: &MsgRow) -> bool
    ensures { result ≡ list_all (has_begun latest) message.now.slots }
{
    message.slots.iter().all(|slot| has_begun(latest, slot))
}

/// Whether the slots of a message are right for its queue and table.
pub(crate) fn has_right_slots(
    tables: &Tables,
    table: &TableRow,
    queue: &QueueRow,
    message: &MsgRow,
) -> bool
    ensures { result ≡ has_right_slots tables.now table.now queue.now message.now }
{
    has_right_recipients(message)
        && has_right_names(table, message)
        && is_right_if_moved(message)
        && have_right_retries(message)
        && have_allowed_retries(queue, message)
        && have_begun(tables.latest, message)
}
