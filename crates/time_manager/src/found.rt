// What is found of messages.
ghost use Rattle.std.specs.Prelude.{◌≡◌, ◌++◌, [], ◌∷◌, List, IfOk, OnOk, All, flat_map, slice_get};
ghost use Rattle.queue_rows.specs.Due.{due_purge, due_slots};
ghost use Rattle.queue_rows.specs.declared.change.Change.TheVariants.{Purged};
ghost use Rattle.due_slots.specs.Rows.{HasFewSlots};
ghost use Rattle.time_manager.specs.Own.{own_settling, settled_of};
ghost use Rattle.time_manager.specs.Ranks.{given};
ghost use Rattle.time_manager.specs.Watching.{watch_of};

use crate::purges::is_spent;
use crate::slots::push_slots;
use crate::watching::Watching;
use exception_queues::settle;
use payload_records::List;
use queue_rows::{Change, MessageTables, MsgRow};
use std::alloc::{AllocError, Global};

/// What is due of the slots of some messages, which of the messages go, and what is settled besides, each in their order.
pub(crate) struct Found {
    slots: Vec<Change>,
    purges: Vec<Change>,
    settled: Vec<Change>,
}

impl Drop for Found {
    fn drop(self) {
        let Self {
            slots: _,
            purges: _,
            settled: _,
        } = self;
    }
}

impl Found {
    // Most messages that are looked at have one slot that is due.
    fn new(alloc: Global, messages: usize) -> Result<Found, AllocError>
        ensures slots { IfOk result (λ found. found.slots.items ≡ []) }
        ensures purges { IfOk result (λ found. found.purges.items ≡ []) }
        ensures settled { IfOk result (λ found. found.settled.items ≡ []) }
    {
        Ok(Found {
            slots: Vec::with_capacity(alloc, messages)?,
            purges: Vec::new(alloc),
            settled: Vec::new(alloc),
        })
    }

    /// All of it, one kind after the other.
    fn joined(self) -> Result<List<Change>, AllocError>
        ensures { IfOk result (λ all. all ≡ (self.slots.items ++ self.purges.items) ++ self.settled.items) }
    {
        let Found {
            mut slots,
            mut purges,
            mut settled,
        } = self;
        slots.append(&mut purges)?;
        slots.append(&mut settled)?;
        Ok(List::from_vec(slots))
    }
}

// The changes of one message, and what they settle.
fn push_settled<T: MessageTables>(
    found: &mut Found,
    store: &T,
    own: List<Change>,
) -> Result<(), AllocError>
    ensures slots { OnOk result (found.new.slots.items ≡ found.old.slots.items ++ own) }
    ensures purges { OnOk result (found.new.purges.items ≡ found.old.purges.items) }
    ensures settled { OnOk result (found.new.settled.items
        ≡ found.old.settled.items ++ settled_of (T.tables store.now) own) }
{
    let count = own.len();
    let mut all = settle(store, own)?.into_vec();
    let mut more = all.split_off(count)?;
    found.slots.append(&mut all)?;
    found.settled.append(&mut more)?;
    Ok(())
}

// The changes of a message that goes, which settle nothing more.
fn push_spent(found: &mut Found, message: &MsgRow, own: List<Change>) -> Result<(), AllocError>
    ensures slots { OnOk result (found.new.slots.items ≡ found.old.slots.items ++ own) }
    ensures purges { OnOk result (found.new.purges.items
        ≡ found.old.purges.items ++ Purged message.now.id ∷ []) }
    ensures settled { OnOk result (found.new.settled.items ≡ found.old.settled.items) }
{
    let mut own = own.into_vec();
    found.slots.append(&mut own)?;
    found.purges.push(Change::Purged { id: message.id })?;
    Ok(())
}

fn push_message<T: MessageTables>(
    found: &mut Found,
    store: &T,
    watching: &Watching<'_>,
    message: &MsgRow,
) -> Result<(), AllocError>
    requires tables { watching.now.tables.now ≡ T.tables store.now }
    requires few { HasFewSlots message.now }
    ensures slots { let w = watch_of watching.now in
        OnOk result (found.new.slots.items ≡ found.old.slots.items ++ due_slots w message.now) }
    ensures purges { let w = watch_of watching.now in
        OnOk result (found.new.purges.items ≡ found.old.purges.items ++ due_purge w message.now) }
    ensures settled { let w = watch_of watching.now in
        OnOk result (found.new.settled.items ≡ found.old.settled.items ++ own_settling w message.now) }
{
    let mut own = List::new(watching.tables.schedules.allocator());
    push_slots(&mut own, watching, message)?;
    if is_spent(watching, message) {
        push_spent(found, message, own)
    } else {
        push_settled(found, store, own)
    }
}

fn push_message_at<T: MessageTables>(
    found: &mut Found,
    store: &T,
    watching: &Watching<'_>,
    rank: usize,
) -> Result<(), AllocError>
    requires tables { watching.now.tables.now ≡ T.tables store.now }
    requires few { All HasFewSlots watching.now.tables.now.messages }
    ensures slots { let w = watch_of watching.now in OnOk result (found.new.slots.items
        ≡ found.old.slots.items ++ given (due_slots w) (slice_get w.tables.messages rank)) }
    ensures purges { let w = watch_of watching.now in OnOk result (found.new.purges.items
        ≡ found.old.purges.items ++ given (due_purge w) (slice_get w.tables.messages rank)) }
    ensures settled { let w = watch_of watching.now in OnOk result (found.new.settled.items
        ≡ found.old.settled.items ++ given (own_settling w) (slice_get w.tables.messages rank)) }
{
    match watching.tables.messages.get(rank) {
        Some(message) => push_message(found, store, watching, message),
        None => Ok(()),
    }
}

fn found_at<T: MessageTables>(
    store: &T,
    watching: &Watching<'_>,
    ranks: &[usize],
) -> Result<Found, AllocError>
    requires tables { watching.now.tables.now ≡ T.tables store.now }
    requires few { All HasFewSlots watching.now.tables.now.messages }
    ensures slots { let w = watch_of watching.now in IfOk result (λ found. found.slots.items
        ≡ flat_map (λ rank. given (due_slots w) (slice_get w.tables.messages rank)) ranks.now) }
    ensures purges { let w = watch_of watching.now in IfOk result (λ found. found.purges.items
        ≡ flat_map (λ rank. given (due_purge w) (slice_get w.tables.messages rank)) ranks.now) }
    ensures settled { let w = watch_of watching.now in IfOk result (λ found. found.settled.items
        ≡ flat_map (λ rank. given (own_settling w) (slice_get w.tables.messages rank)) ranks.now) }
{
    let alloc = watching.tables.schedules.allocator();
    let mut found = Found::new(alloc, ranks.len())?;
    for rank in ranks {
        push_message_at(&mut found, store, watching, *rank)?;
    }
    Ok(found)
}

/// What is due of the messages that stand there: of their slots, then which messages go, then what this settles.
pub(crate) fn changes_at<T: MessageTables>(
    store: &T,
    watching: &Watching<'_>,
    ranks: &[usize],
) -> Result<List<Change>, AllocError>
    requires tables { watching.now.tables.now ≡ T.tables store.now }
    requires few { All HasFewSlots watching.now.tables.now.messages }
    ensures { let w = watch_of watching.now in IfOk result (λ all. all
        ≡ (flat_map (λ rank. given (due_slots w) (slice_get w.tables.messages rank)) ranks.now
        ++ flat_map (λ rank. given (due_purge w) (slice_get w.tables.messages rank)) ranks.now)
        ++ flat_map (λ rank. given (own_settling w) (slice_get w.tables.messages rank)) ranks.now) }
{
    // (mostly nothing is due, in any turn)
    if ranks.is_empty() {
        return Ok(List::new(watching.tables.schedules.allocator()));
    }
    found_at(store, watching, ranks)?.joined()
}
