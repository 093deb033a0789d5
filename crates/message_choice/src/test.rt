// Whether a dequeue may give a message.
ghost use Rattle.std.specs.Prelude.{◌≡◌, ◌<◌, ◌^◌, true, length, position, if◌then◌else◌, None, IfSome, IfNone, option_copied};
ghost use Rattle.std.specs.Str.{bytes_eq};
ghost use Rattle.slot_marks.specs.Marks.{AreHeldOnce, IsFreeGroup, IsFreeSlot, IsHolder};
ghost use Rattle.queue_rows.specs.Groups.{consumer_of, group_of};
ghost use Rattle.queue_rows.specs.Session.{has_removed, is_held};
ghost use Rattle.queue_rows.specs.Dequeueing.{is_available_slot, is_browse, is_free, is_local_for, meets, meets_corr, slot_for, slot_in, slot_number};
ghost use Rattle.choice_laws.specs.Choosing.{may_give};
ghost use Rattle.message_choice.specs.Asking.{IsSoundFor, look_of};
ghost use Rattle.message_choice.specs.Wanted.{lies_in};

use crate::asking::{Asking, Filter};
use payload_records::{Name, Text};
use queue_rows::{Mode, MsgRow, QueueRow, lane_of};
use rule_checks::is_met;
use rule_conditions::like;

// ---- slots

fn local_index(consumer: &Name, message: &MsgRow) -> Option<usize>
    ensures at { result ≡ position (is_local_for consumer.now) message.now.slots }
    ensures within { IfSome result (λ index. index < length message.now.slots) }
{
    message
        .slots
        .iter()
        .position(|slot| slot.is_local_for(consumer))
}

// The consumer's local slot.
fn local_slot(consumer: &Name, message: &MsgRow) -> Option<u32>
    requires { length message.now.slots < 2 ^ 32 }
    ensures { result ≡ slot_number (position (is_local_for consumer.now) message.now.slots) }
{
    let index = local_index(consumer, message)?;
    Some(index as u32 + 1)
}

// The slot that a consumer may take of a message.
pub(crate) fn slot_for(queue: &QueueRow, consumer: Option<&Name>, message: &MsgRow) -> Option<u32>
    requires { length message.now.slots < 2 ^ 32 }
    ensures { result ≡ slot_for queue.now (option_copied consumer.entry) message.now }
{
    match consumer {
        Some(consumer) => local_slot(consumer, message),
        None => Some(if queue.kind.is_exception() { 0 } else { 1 }),
    }
}

// ---- who holds a slot

pub(crate) fn is_browse(mode: Mode) -> bool
    ensures { result ≡ is_browse mode }
{
    match mode {
        Mode::Browse => true,
        Mode::Remove | Mode::Locked | Mode::RemoveNodata => false,
    }
}

fn consumer_of(message: &MsgRow, slot: u32) -> Option<&Name>
    ensures { option_copied result ≡ consumer_of message.now slot }
{
    message.slot(u64::from(slot))?.name.as_ref()
}

// The session that has the slot, or, where none has it, its group.
pub(crate) fn holder(asking: &Asking<'_>, message: &MsgRow, slot: u32) -> Option<u32>
    ensures some { let group = group_of asking.now.pick.now.table.now message.now slot in
        IfSome result (IsHolder asking.now.locks.now message.now.id slot group) }
    ensures free_slot { IfNone result (IsFreeSlot asking.now.locks.now message.now.id slot) }
    ensures free_group { let group = group_of asking.now.pick.now.table.now message.now slot in
        IfNone result (IsFreeGroup asking.now.locks.now group) }
    ensures once { AreHeldOnce asking.now.locks.now }
{
    let consumer = consumer_of(message, slot);
    let number = if asking.pick.table.grouped {
        Some(message.group)
    } else {
        None
    };
    asking
        .locks
        .holder(message.id, slot, &message.queue, number, consumer)
}

#[tactic(auto, using(crate::proofs::Holding::held_by_none))]
fn is_held(asking: &Asking<'_>, message: &MsgRow, slot: u32) -> bool
    requires sound { IsSoundFor asking.now message.now }
    requires here { bytes_eq message.now.queue asking.now.pick.now.queue.now.name ≡ true }
    ensures { let l = look_of asking.now in let m = message.now in
        result ≡ is_held l.sessions l.actor l.session.at m.id slot (group_of l.table m slot) }
{
    match holder(asking, message, slot) {
        Some(holder) => holder != asking.actor,
        None => false,
    }
}

fn is_free(asking: &Asking<'_>, message: &MsgRow, slot: u32) -> bool
    requires sound { IsSoundFor asking.now message.now }
    requires here { bytes_eq message.now.queue asking.now.pick.now.queue.now.name ≡ true }
    ensures { result ≡ is_free (look_of asking.now) message.now slot }
{
    is_browse(asking.pick.mode) || !is_held(asking, message, slot)
}

pub(crate) fn has_removed(asking: &Asking<'_>, message: &MsgRow, slot: u32) -> bool
    ensures { result ≡ has_removed (look_of asking.now).session message.now.id slot }
{
    asking.locks.removed(asking.actor, message.id, slot)
}

fn is_available_slot(asking: &Asking<'_>, message: &MsgRow, slot: u32) -> bool
    requires sound { IsSoundFor asking.now message.now }
    requires here { bytes_eq message.now.queue asking.now.pick.now.queue.now.name ≡ true }
    ensures { result ≡ is_available_slot (look_of asking.now) message.now (Some slot) }
{
    message.is_slot_ready(u64::from(slot))
        && is_free(asking, message, slot)
        && !has_removed(asking, message, slot)
}

// ---- criteria

fn meets_corr(pattern: Option<&Text>, corr: Option<&Text>) -> bool
    ensures { result ≡ meets_corr (option_copied pattern.entry) (option_copied corr.entry) }
{
    let Some(pattern) = pattern else {
        return true;
    };
    match corr {
        Some(text) => like(text.as_str(), pattern.as_str()),
        None => false,
    }
}

pub(crate) fn meets(asking: &Asking<'_>, message: &MsgRow) -> bool
    ensures { result ≡ meets (look_of asking.now) message.now }
{
    let pick = asking.pick;
    meets_corr(pick.corr, message.facts.corr.as_ref())
        && is_met(pick.condition, &message.facts, &pick.table.fields)
}

// ---- messages

// The slot of the message that the dequeue may give.
pub(crate) fn given_slot(asking: &Asking<'_>, message: &MsgRow) -> Option<u32>
    requires { IsSoundFor asking.now message.now }
    ensures { let l = look_of asking.now in
        result ≡ (if may_give l message.now then slot_in l message.now else None) }
{
    let pick = asking.pick;
    if message.queue != pick.queue.name {
        return None;
    }
    let slot = slot_for(pick.queue, pick.consumer, message)?;
    if is_available_slot(asking, message, slot) && meets(asking, message) {
        Some(slot)
    } else {
        None
    }
}

pub(crate) fn lies_in(filter: Filter, message: &MsgRow) -> bool
    ensures { result ≡ lies_in filter message.now }
{
    match filter {
        Filter::All => true,
        Filter::InGroup(group) => message.group == group,
        Filter::PastGroup(group) => i128::from(group) < i128::from(lane_of(&message.place)),
    }
}
