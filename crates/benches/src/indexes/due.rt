// Due work where some slots are due among many that are not.
use super::rows;
use super::store::Indexed;
use crate::fault::{Fault, right};
use crate::timing::{Least, a_call};
use queue_rows::{MsgRow, SlotState, Tables};
use row_locks::RowLocks;
use row_tree::Tree;
use std::alloc::Global;
use std::time::{Clock, Instant};

/// The moment at which due work is asked for.
const MOMENT: u64 = 20;
/// The moment of a slot that is not due then.
const LATER: u64 = 1000;

fn add_message(messages: &mut Tree<MsgRow>, alloc: Global, id: u64, at: u64) -> Result<(), Fault> {
    let slot = rows::slot(None, SlotState::Waiting, at);
    messages.append(alloc, rows::message(alloc, id, slot)?)?;
    Ok(())
}

// Those that are due stand among the others, as far from one another as can be.
fn add_messages(
    messages: &mut Tree<MsgRow>,
    alloc: Global,
    later: u64,
    due: u64,
) -> Result<(), Fault> {
    let each = later / due.max(1);
    for id in 0..later.saturating_add(due) {
        let at = if id % each.saturating_add(1).max(1) == 0 {
            MOMENT
        } else {
            LATER
        };
        add_message(messages, alloc, id, at)?;
    }
    Ok(())
}

fn add_all(tables: &mut Tables, alloc: Global, later: u64, due: u64) -> Result<(), Fault> {
    add_messages(&mut tables.messages, alloc, later, due)
}

fn store(alloc: Global, later: u64, due: u64) -> Result<Indexed, Fault> {
    let mut tables = rows::tables(alloc)?;
    add_all(&mut tables, alloc, later, due)?;
    Indexed::of(alloc, tables)
}

fn ask(store: &Indexed, locks: &RowLocks, due: u64) -> Result<(), Fault> {
    let changes = store.due_at(locks, MOMENT)?;
    right(changes.len() as u64 == due)
}

// Tenths of nanoseconds a slot.
fn round<R: Clock>(
    rt: &R,
    store: &Indexed,
    locks: &RowLocks,
    due: u64,
    calls: u64,
) -> Result<u64, Fault> {
    let begun = Instant::now(rt)?;
    for _ in 0..calls {
        ask(store, locks, due)?;
    }
    a_call(rt, begun, calls.saturating_mul(due))
}

fn measured<R: Clock>(
    rt: &R,
    store: &Indexed,
    locks: &RowLocks,
    due: u64,
    rounds: u64,
) -> Result<Least, Fault> {
    let calls = (10_000 / due.max(1)).max(1);
    let mut cost = Least::NONE;
    for _ in 0..rounds {
        cost.note(round(rt, store, locks, due, calls)?);
    }
    Ok(cost)
}

/// Prints what a slot takes that is due.
pub fn report<R: Clock + Print>(
    rt: &R,
    alloc: Global,
    later: u64,
    due: u64,
    rounds: u64,
) -> Result<(), Fault> {
    let store = store(alloc, later, due)?;
    let locks = RowLocks::new(alloc);
    let cost = measured(rt, &store, &locks, due, rounds)?;
    cost.print(rt, "slot")
}
