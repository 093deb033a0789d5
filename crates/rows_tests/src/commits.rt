// Commits at random.
use crate::any_rows::{any_message, any_queue, below};
use crate::rows::{arrival, queue};
use message_store::PreparedStore;
use payload_records::{Boxed, List};
use queue_rows::{Change, Commit, QueueKind};
use std::alloc::{AllocError, Global};
use std::test::Fail;

// A message that may be there, and a slot that it may have.
fn any_id(seed: &mut u32) -> u64 {
    u64::from(below(seed, 12))
}

fn any_slot(seed: &mut u32) -> u64 {
    u64::from(below(seed, 3))
}

// One whose slot waits, or can be taken at once.
fn retried(seed: &mut u32) -> Change {
    let until = if below(seed, 2) == 0 { Some(50) } else { None };
    Change::Retried {
        id: any_id(seed),
        slot: any_slot(seed),
        retries: 1,
        until,
        at: 9,
    }
}

// A change of one slot.
fn slot_change(seed: &mut u32) -> Change {
    let (id, slot, at) = (any_id(seed), any_slot(seed), 9);
    match below(seed, 5) {
        0 => Change::Done { id, slot, at },
        1 => Change::Expired { id, slot, at },
        2 => Change::Dropped { id, slot, at },
        3 => retried(seed),
        _ => Change::Ready { id, slot, at },
    }
}

// A queue that is put anew, or goes with its messages.
fn queue_change(seed: &mut u32, alloc: Global) -> Result<Change, Fail> {
    if below(seed, 4) == 0 {
        Ok(Change::DropQueue(any_queue(seed, alloc)?))
    } else {
        let retention = u64::from(below(seed, 2)) * 30;
        let row = queue(alloc, "q", "t", (QueueKind::Normal, true, retention))?;
        Ok(Change::PutQueue(Boxed::new(alloc, row)?))
    }
}

fn any_change(seed: &mut u32, next: &mut u32, alloc: Global) -> Result<Change, Fail> {
    match below(seed, 12) {
        0 => Ok(Change::Purged { id: any_id(seed) }),
        1 | 2 => Ok(Change::Moved {
            id: any_id(seed),
            queue: any_queue(seed, alloc)?,
            at: 9,
        }),
        3 => queue_change(seed, alloc),
        4..=6 => Ok(slot_change(seed)),
        _ => {
            let id = *next;
            *next = id.wrapping_add(1);
            let message = any_message(seed, alloc, id)?;
            Ok(arrival(alloc, message)?)
        }
    }
}

fn add_changes(
    changes: &mut List<Change>,
    seed: &mut u32,
    next: &mut u32,
    alloc: Global,
) -> Result<(), Fail> {
    for _ in 0..below(seed, 4).wrapping_add(1) {
        changes.push(any_change(seed, next, alloc)?)?;
    }
    Ok(())
}

/// Makes the changes, which are prepared first.
pub fn commit(store: &mut PreparedStore, changes: List<Change>) -> Result<(), AllocError> {
    let commit = Commit { moment: 9, changes };
    store.prepare(&commit)?;
    store.apply(commit);
    Ok(())
}

/// Makes a commit of up to four changes: of messages that come, numbered from `next` on, and of what may be there.
pub fn any_commit(
    store: &mut PreparedStore,
    seed: &mut u32,
    next: &mut u32,
    alloc: Global,
) -> Result<(), Fail> {
    let mut changes = List::new(alloc);
    add_changes(&mut changes, seed, next, alloc)?;
    commit(store, changes)?;
    Ok(())
}
