// Memory for the slots of messages that are moved.
ghost use Rattle.std.specs.Prelude.{◌≡◌, ◌==◌, ◌+◌, All, IfOk, OnOk, find, length, nat_eq, if◌then◌else◌};
ghost use Rattle.std.specs.HashMap.{get};
ghost use Rattle.std.specs.Option.{option_map_or};
ghost use Rattle.message_index.specs.Messages.{ids_of};
ghost use Rattle.message_index.specs.SlotRooms.{slots_of, AddsRoom, HasSlotRooms, TellsAdded};

use crate::added_slots::{AddedSlots, added_slots, added_to, any_move};
use crate::found::find;
use crate::message_index::MessageIndex;
use open_rows::{RowRoom, total};
use payload_records::List;
use queue_rows::{Change, MsgRow, SlotRow};
use row_tree::Tree;
use std::alloc::{AllocError, Global};
use std::collections::VecDeque;

fn slots_if(message: &MsgRow, id: u64) -> usize
    ensures { result ≡ (if message.now.id == id then length message.now.slots else 0) }
{
    if message.id == id {
        message.slots.len()
    } else {
        0
    }
}

fn slots_of_all(messages: &Tree<MsgRow>, id: u64) -> Result<usize, AllocError>
    ensures { IfOk result (λ n. n ≡ slots_of id messages.now) }
{
    let mut slots = 0;
    for message in messages {
        slots = total(slots, slots_if(message, id))?;
    }
    Ok(slots)
}

fn slots_of_first(messages: &Tree<MsgRow>, index: &MessageIndex, id: u64) -> usize
    requires { index.now.ids ≡ ids_of messages.now }
    ensures { result ≡ option_map_or (λ m. length m.slots) (find (λ m. m.id == id) messages.now) 0 }
{
    match find(messages, index, id) {
        Some(message) => message.slots.len(),
        None => 0,
    }
}

fn slots_of(messages: &Tree<MsgRow>, index: &MessageIndex, id: u64) -> Result<usize, AllocError>
    requires { index.now.ids ≡ ids_of messages.now }
    ensures { IfOk result (λ n. n ≡ slots_of id messages.now) }
{
    if index.is_alone(id) {
        Ok(slots_of_first(messages, index, id))
    } else {
        slots_of_all(messages, id)
    }
}

fn room_for_slots(
    alloc: Global,
    messages: &Tree<MsgRow>,
    index: &MessageIndex,
    added: usize,
    id: u64,
) -> Result<RowRoom<SlotRow>, AllocError>
    requires { index.now.ids ≡ ids_of messages.now }
    ensures { IfOk result (λ slots. slots ≡ slots_of id messages.now + added) }
{
    let most = total(slots_of(messages, index, id)?, added)?;
    RowRoom::new(alloc, most)
}

// Puts memory for the slots of the message last that the change moves, if it does.
fn add_room(
    rooms: &mut VecDeque<RowRoom<SlotRow>>,
    messages: &Tree<MsgRow>,
    index: &MessageIndex,
    changes: &List<Change>,
    added: &AddedSlots,
    change: &Change,
) -> Result<(), AllocError>
    requires ids { index.now.ids ≡ ids_of messages.now }
    requires told { TellsAdded (get nat_eq added.now) changes.now change.now }
    ensures { OnOk result (AddsRoom messages.now changes.now change.now rooms.old.items rooms.new.items) }
{
    let Change::Moved { id, .. } = change else {
        return Ok(());
    };
    let room = room_for_slots(
        changes.allocator(),
        messages,
        index,
        added_to(added, *id),
        *id,
    )?;
    rooms.push_back(room)?;
    Ok(())
}

// Memory for the slots of each message that the changes move, where they move any.
fn rooms_of_moves(
    messages: &Tree<MsgRow>,
    index: &MessageIndex,
    changes: &List<Change>,
) -> Result<VecDeque<RowRoom<SlotRow>>, AllocError>
    requires { index.now.ids ≡ ids_of messages.now }
    ensures { IfOk result (λ rooms. HasSlotRooms messages.now changes.now changes.now rooms.items) }
{
    let added = added_slots(changes)?;
    let mut rooms = VecDeque::new(changes.allocator());
    for change in changes {
        add_room(&mut rooms, messages, index, changes, &added, change)?;
    }
    Ok(rooms)
}

/// Memory for the slots of each message that the changes move, in their order, as many as it can have then.
pub fn slot_rooms(
    messages: &Tree<MsgRow>,
    index: &MessageIndex,
    changes: &List<Change>,
) -> Result<VecDeque<RowRoom<SlotRow>>, AllocError>
    requires { index.now.ids ≡ ids_of messages.now }
    ensures { IfOk result (λ rooms. HasSlotRooms messages.now changes.now changes.now rooms.items) }
{
    if any_move(changes) {
        rooms_of_moves(messages, index, changes)
    } else {
        Ok(VecDeque::new(changes.allocator()))
    }
}
