// How many slots changes add to the messages that they move.
ghost use Rattle.std.specs.Prelude.{◌≡◌, ◌==◌, ◌+◌, All, IfOk, OnOk, nat_eq, unwrap_or, if◌then◌else◌};
ghost use Rattle.std.specs.HashMap.{get};
ghost use Rattle.std.specs.List.{list_any};
ghost use Rattle.message_index.specs.SlotRooms.{slots_added, is_move, TellsAdded, TellsMore, TellsSums};

use open_rows::total;
use payload_records::List;
use queue_rows::Change;
use std::alloc::AllocError;
use std::collections::HashMap;

/// How many slots changes may add to the messages of each number.
pub(crate) type AddedSlots = HashMap<u64, usize>;

/// How many are told of that number.
pub(crate) fn added_to(added: &AddedSlots, id: u64) -> usize
    ensures { result ≡ unwrap_or (get nat_eq added.now id) 0 }
{
    added.get(&id).copied().unwrap_or(0)
}

fn add(added: &mut AddedSlots, id: u64, more: usize) -> Result<(), AllocError>
    ensures { OnOk result
        (TellsMore (λ q. if id == q then more else 0) (get nat_eq added.old) (get nat_eq added.new)) }
{
    let slots = total(added_to(added, id), more)?;
    added.insert(id, slots)?;
    Ok(())
}

fn add_of(added: &mut AddedSlots, change: &Change) -> Result<(), AllocError>
    ensures { OnOk result
        (TellsMore (λ q. slots_added q change.now) (get nat_eq added.old) (get nat_eq added.new)) }
{
    match change {
        Change::Enqueued(row) => add(added, row.get().id, row.get().slots.len()),
        Change::Moved { id, .. } => add(added, *id, 1),
        _ => Ok(()),
    }
}

fn added_by_all(changes: &List<Change>) -> Result<AddedSlots, AllocError>
    ensures { IfOk result (λ added. TellsSums (get nat_eq added) changes.now) }
{
    let mut added = HashMap::new(changes.allocator());
    for change in changes {
        add_of(&mut added, change)?;
    }
    Ok(added)
}

fn is_move(change: &Change) -> bool
    ensures { result ≡ is_move change.now }
{
    matches!(change, Change::Moved { .. })
}

/// Whether any of the changes moves a message.
pub(crate) fn any_move(changes: &List<Change>) -> bool
    ensures { result ≡ list_any is_move changes.now }
{
    changes.iter().any(|change| is_move(change))
}

/// How many slots the changes may add to each message that they move. Where they move none, it takes no
/// memory.
pub(crate) fn added_slots(changes: &List<Change>) -> Result<AddedSlots, AllocError>
    ensures { IfOk result (λ added. All (TellsAdded (get nat_eq added) changes.now) changes.now) }
{
    if any_move(changes) {
        added_by_all(changes)
    } else {
        Ok(HashMap::new(changes.allocator()))
    }
}
