// Picking a slot, where the last schedule of some sends first.
use super::rows;
use super::store::Indexed;
use crate::fault::{Fault, right};
use crate::timing::{Least, a_call};
use payload_records::{List, Name};
use queue_rows::{MsgRow, ScheduleRow, SlotState, Tables};
use row_tree::Tree;
use std::alloc::Global;
use std::time::{Clock, Instant};

/// The moment at which a slot is picked.
const MOMENT: u64 = 20;

fn add_message(messages: &mut Tree<MsgRow>, alloc: Global, id: u64, to: Name) -> Result<(), Fault> {
    let slot = rows::slot(Some(to), SlotState::Ready, 1);
    messages.append(alloc, rows::message(alloc, id, slot)?)?;
    Ok(())
}

// All go to the destination of that number.
fn add_messages(
    messages: &mut Tree<MsgRow>,
    alloc: Global,
    count: u64,
    to: u64,
) -> Result<(), Fault> {
    for id in 0..count {
        add_message(messages, alloc, id, rows::destination(alloc, to)?)?;
    }
    Ok(())
}

fn add_schedules(
    schedules: &mut List<ScheduleRow>,
    alloc: Global,
    count: u64,
) -> Result<(), Fault> {
    for number in 0..count {
        schedules.push(rows::schedule(alloc, number)?)?;
    }
    Ok(())
}

fn add_all(tables: &mut Tables, alloc: Global, messages: u64, schedules: u64) -> Result<(), Fault> {
    let last = schedules.saturating_sub(1);
    add_messages(&mut tables.messages, alloc, messages, last)?;
    add_schedules(&mut tables.schedules, alloc, schedules)
}

fn store(alloc: Global, messages: u64, schedules: u64) -> Result<Indexed, Fault> {
    let mut tables = rows::tables(alloc)?;
    add_all(&mut tables, alloc, messages, schedules)?;
    Indexed::of(alloc, tables)
}

/// Each call is made anew: else what stays the same were looked up once for all.
#[inline(never)]
fn is_picked(store: &Indexed, moment: u64) -> bool {
    store.picked_at(moment).is_some()
}

#[inline(never)]
fn is_picked_by_walk(store: &Indexed, moment: u64) -> bool {
    store.picked_by_walk(moment).is_some()
}

// How often a slot was picked.
fn ask(store: &Indexed, calls: u64) -> u64 {
    let mut found: u64 = 0;
    for call in 0..calls {
        if is_picked(store, MOMENT.saturating_add(call)) {
            found = found.wrapping_add(1);
        }
    }
    found
}

// Tenths of nanoseconds a call.
fn round<R: Clock>(rt: &R, store: &Indexed, calls: u64) -> Result<u64, Fault> {
    let begun = Instant::now(rt)?;
    right(ask(store, calls) == calls)?;
    a_call(rt, begun, calls)
}

fn walk<R: Clock>(rt: &R, store: &Indexed) -> Result<u64, Fault> {
    let begun = Instant::now(rt)?;
    right(is_picked_by_walk(store, MOMENT))?;
    a_call(rt, begun, 1)
}

fn by_rows<R: Clock>(rt: &R, store: &Indexed, calls: u64, rounds: u64) -> Result<Least, Fault> {
    let mut cost = Least::NONE;
    for _ in 0..rounds {
        cost.note(round(rt, store, calls)?);
    }
    Ok(cost)
}

fn by_walk<R: Clock>(rt: &R, store: &Indexed, rounds: u64) -> Result<Least, Fault> {
    let mut cost = Least::NONE;
    for _ in 0..rounds {
        cost.note(walk(rt, store)?);
    }
    Ok(cost)
}

/// Prints what it takes to pick a slot by rows.
pub fn report<R: Clock + Print>(
    rt: &R,
    alloc: Global,
    messages: u64,
    schedules: u64,
    rounds: u64,
) -> Result<(), Fault> {
    let store = store(alloc, messages, schedules)?;
    let calls = 100_000 / schedules.max(1);
    let cost = by_rows(rt, &store, calls.max(1), rounds)?;
    cost.print(rt, "rows")
}

/// Prints what it takes to pick a slot by a walk.
pub fn report_walk<R: Clock + Print>(
    rt: &R,
    alloc: Global,
    messages: u64,
    schedules: u64,
    rounds: u64,
) -> Result<(), Fault> {
    let store = store(alloc, messages, schedules)?;
    let cost = by_walk(rt, &store, rounds)?;
    cost.print(rt, "walk")
}
