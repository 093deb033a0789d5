// Rows and marks at random.
ghost use Rattle.std.specs.Prelude.{◌<◌};

use crate::commits::commit;
use crate::rows::{arrival, facts_of, message_of, slot_of};
use message_store::PreparedStore;
use payload_records::{Boxed, List, Name, Text};
use place_keys::Place;
use queue_rows::{Change, MsgRow, SlotRow, SlotState};
use row_locks::RowLocks;
use rule_conditions::Facts;
use slot_marks::{Group, Mark};
use std::alloc::{AllocError, Global};
use std::test::Fail;

/// How many sessions have marks.
pub const SESSIONS: u32 = 2;

/// The next number that is less than a limit.
pub fn below(seed: &mut u32, limit: u32) -> u32
    requires { 0 < limit }
{
    *seed = seed.wrapping_mul(1_664_525).wrapping_add(1_013_904_223);
    (*seed >> 16) % limit
}

/// No name, or one of two.
pub fn any_name(seed: &mut u32, alloc: Global) -> Result<Option<Name>, Fail> {
    let text = match below(seed, 3) {
        0 => return Ok(None),
        1 => "ann",
        _ => "bob",
    };
    Ok(Some(Name::read(alloc, text)?))
}

fn any_state(seed: &mut u32) -> SlotState {
    match below(seed, 4) {
        0 => SlotState::Waiting,
        1 => SlotState::Processed,
        _ => SlotState::Ready,
    }
}

fn any_address(seed: &mut u32, alloc: Global) -> Result<Option<Name>, Fail> {
    if below(seed, 6) == 0 {
        Ok(Some(Name::read(alloc, "far")?))
    } else {
        Ok(None)
    }
}

fn any_slot(seed: &mut u32, alloc: Global) -> Result<SlotRow, Fail> {
    let name = any_name(seed, alloc)?;
    let address = any_address(seed, alloc)?;
    let state = any_state(seed);
    Ok(slot_of(name, address, state, u64::from(below(seed, 20))))
}

fn any_slots(seed: &mut u32, alloc: Global) -> Result<List<SlotRow>, Fail> {
    let mut slots = List::new(alloc);
    for _ in 0..1 + u64::from(below(seed, 3)) {
        slots.push(any_slot(seed, alloc)?)?;
    }
    Ok(slots)
}

fn any_corr(seed: &mut u32, alloc: Global) -> Result<Option<Text>, AllocError> {
    let text = match below(seed, 3) {
        0 => return Ok(None),
        1 => "ab",
        _ => "b",
    };
    Ok(Some(Text::of(alloc, text)?))
}

fn any_facts(seed: &mut u32, alloc: Global) -> Result<Facts, AllocError> {
    let corr = any_corr(seed, alloc)?;
    facts_of(alloc, i64::from(below(seed, 3)), corr)
}

/// One of the two queues, mostly `q`.
pub fn any_queue(seed: &mut u32, alloc: Global) -> Result<Name, Fail> {
    let text = if below(seed, 5) == 0 { "r" } else { "q" };
    Ok(Name::read(alloc, text)?)
}

/// A message of that number in one of the two queues.
pub fn any_message(seed: &mut u32, alloc: Global, id: u32) -> Result<MsgRow, Fail> {
    let lane = below(seed, 4);
    let queue = any_queue(seed, alloc)?;
    let column = i64::from(below(seed, 3));
    let place = Place::of(alloc, i64::from(lane), &[column], u64::from(id))?;
    let facts = any_facts(seed, alloc)?;
    let slots = any_slots(seed, alloc)?;
    let mut message = message_of(id, queue, place, facts, slots);
    message.group = u64::from(lane);
    Ok(message)
}

fn add_messages(changes: &mut List<Change>, seed: &mut u32, alloc: Global) -> Result<(), Fail> {
    for id in 0..below(seed, 9) {
        changes.push(arrival(alloc, any_message(seed, alloc, id)?)?)?;
    }
    Ok(())
}

/// Up to eight messages, with ids from 0 on.
pub fn fill(store: &mut PreparedStore, seed: &mut u32, alloc: Global) -> Result<(), Fail> {
    let mut changes = List::new(alloc);
    add_messages(&mut changes, seed, alloc)?;
    Ok(commit(store, changes)?)
}

// ---- marks

fn any_group(seed: &mut u32, alloc: Global, grouped: bool) -> Result<Option<Boxed<Group>>, Fail> {
    if !grouped {
        return Ok(None);
    }
    let queue = any_queue(seed, alloc)?;
    let consumer = any_name(seed, alloc)?;
    let group = Group {
        queue,
        number: 1 + u64::from(below(seed, 3)),
        consumer,
    };
    Ok(Some(Boxed::new(alloc, group)?))
}

fn any_mark(seed: &mut u32, alloc: Global, grouped: bool) -> Result<Mark, Fail> {
    let group = any_group(seed, alloc, grouped)?;
    Ok(Mark {
        id: u64::from(below(seed, 8)),
        slot: below(seed, 3),
        removed: below(seed, 2) == 0,
        group,
    })
}

/// Up to four marks of two sessions; of the first alone where the table is grouped.
pub fn mark(
    locks: &mut RowLocks,
    seed: &mut u32,
    alloc: Global,
    grouped: bool,
) -> Result<(), Fail> {
    for _ in 0..below(seed, 5) {
        let session = if grouped { 0 } else { below(seed, SESSIONS) };
        locks.reserve(session)?;
        let _held = locks.take(session, any_mark(seed, alloc, grouped)?);
    }
    Ok(())
}
