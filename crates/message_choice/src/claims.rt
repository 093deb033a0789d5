// Whether a dequeue that names a message may be given it.
ghost use Rattle.std.specs.Prelude.{◌≡◌, ℕ, true, Some, IfNone};
ghost use Rattle.std.specs.Str.{bytes_eq};
ghost use Rattle.slot_marks.specs.Marks.{marks_of};
ghost use Rattle.queue_rows.specs.Dequeueing.{Look, given_named, given_slot, holder_for, is_open_slot};
ghost use Rattle.queue_rows.specs.Rows.{slot_of};
ghost use Rattle.message_choice.specs.Asking.{IsLookOf, IsSound, IsSoundFor, look_of};
ghost use Rattle.message_choice.specs.Claimed.{Asks, IfGiven, IsFree, IsFreeSlot, claimed_by, is_lost};

use crate::asking::{Asking, Claim, Pick};
use crate::test::{has_removed, holder, is_browse, meets, slot_for};
use queue_rows::MsgRow;
use row_locks::RowLocks;

fn is_open_slot(message: &MsgRow, slot: u32) -> bool
    ensures { result ≡ is_open_slot (slot_of message.now slot) }
{
    match message.slot(u64::from(slot)) {
        Some(slot) => slot.state.is_open(),
        None => false,
    }
}

// The other session that holds the slot; who only browses meets none.
fn other_holder(asking: &Asking<'_>, message: &MsgRow, slot: u32) -> Option<u32>
    requires sound { IsSoundFor asking.now message.now }
    requires here { bytes_eq message.now.queue asking.now.pick.now.queue.now.name ≡ true }
    ensures holder { (l : Look) → Asks asking.now l → result ≡ holder_for l message.now slot }
    ensures free { IfNone result (IsFree asking.now message.now slot) }
{
    if is_browse(asking.pick.mode) {
        return None;
    }
    let other = holder(asking, message, slot)?;
    if other == asking.actor {
        None
    } else {
        Some(other)
    }
}

// Whether the slot cannot be given by the message's id.
fn is_lost(asking: &Asking<'_>, message: &MsgRow, slot: u32) -> bool
    ensures { result ≡ is_lost (look_of asking.now) message.now slot }
{
    !is_open_slot(message, slot) || has_removed(asking, message, slot) || !meets(asking, message)
}

fn claim_slot(asking: &Asking<'_>, message: &MsgRow, slot: u32) -> Claim
    requires sound { IsSoundFor asking.now message.now }
    requires here { bytes_eq message.now.queue asking.now.pick.now.queue.now.name ≡ true }
    ensures claim { (l : Look) (moment : ℕ) → Asks asking.now l
        → given_slot l moment message.now (Some slot) ≡ claimed_by l moment message.now result }
    ensures free { IfGiven result (IsFree asking.now message.now) }
{
    if is_lost(asking, message, slot) {
        return Claim::NoSuchMessage;
    }
    match other_holder(asking, message, slot) {
        Some(other) => Claim::Held(other),
        None => Claim::Given { slot },
    }
}

/// What a dequeue that names this message comes to, for the session of that number: the slot that it is given, which may also
/// wait, or why it is given none. Its navigation and its position do not matter. It takes no memory.
pub fn claim(locks: &RowLocks, actor: u32, pick: &Pick<'_>, message: &MsgRow) -> Claim
    requires sound { IsSound (marks_of locks.now actor) pick.now.queue.now pick.now.table.now message.now }
    ensures claim { (l : Look) (moment : ℕ) → IsLookOf pick.now actor locks.now l.tables.messages l
        → given_named l moment (Some message.now) ≡ claimed_by l moment message.now result }
    ensures free { IfGiven result (IsFreeSlot locks.now actor pick.now message.now) }
{
    if message.queue != pick.queue.name {
        return Claim::NoSuchMessage;
    }
    let asking = Asking { locks, actor, pick };
    match slot_for(pick.queue, pick.consumer, message) {
        Some(slot) => claim_slot(&asking, message, slot),
        None => Claim::NotARecipient,
    }
}
