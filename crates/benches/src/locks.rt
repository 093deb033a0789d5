// Measures the calls of row locks at few and at many marks.
use crate::fault::{Fault, right};
use crate::timing::{Least, a_call};
use payload_records::{Boxed, Name};
use row_locks::{Group, Mark, RowLocks};
use std::alloc::Global;
use std::time::{Clock, Instant};

/// Over how many sessions the marks are spread.
const SESSIONS: u64 = 64;

/// How often each call is made in a measurement.
const CALLS: u64 = 100_000;

/// How often each measurement is made.
const ROUNDS: u32 = 7;

/// Tenths of nanoseconds that a call took, of each kind.
#[derive(Clone, Copy)]
struct Costs {
    release_and_take: u64,
    holder_of_slot: u64,
    holder_of_group: u64,
    removed: u64,
}

// ---- the marks, and the order in which they are asked for

fn group(alloc: Global, id: u64) -> Result<Boxed<Group>, Fault> {
    let queue = Name::read(alloc, "orders")?;
    let consumer = Some(Name::read(alloc, "billing")?);
    let group = Group {
        queue,
        number: id,
        consumer,
    };
    Ok(Boxed::new(alloc, group)?)
}

fn mark(alloc: Global, id: u64) -> Result<Mark, Fault> {
    let group = Some(group(alloc, id)?);
    Ok(Mark {
        id,
        slot: 1,
        removed: id % 2 == 0,
        group,
    })
}

fn session_of(id: u64) -> u32 {
    (id % SESSIONS) as u32
}

fn fill(locks: &mut RowLocks, alloc: Global, marks: u64) -> Result<(), Fault> {
    for id in 0..marks {
        locks.take(session_of(id), mark(alloc, id)?)?;
    }
    Ok(())
}

/// Mixes the ids, the same way each time.
fn shuffle(ids: &mut [u64]) {
    let mut state: u64 = 1;
    for at in 0..ids.len() {
        state = state
            .wrapping_mul(6_364_136_223_846_793_005)
            .wrapping_add(1_442_695_040_888_963_407);
        let other = ((state >> 33) % (at as u64 + 1)) as usize;
        if other < ids.len() {
            ids.swap(at, other);
        }
    }
}

fn number(ids: &mut [u64]) {
    let mut next: u64 = 0;
    for id in ids {
        *id = next;
        next = next.wrapping_add(1);
    }
}

/// The ids below `marks` in the order in which sessions took them, or shuffled, from the first one again after the last.
fn set_out(ids: &mut [u64], marks: usize, is_shuffled: bool) {
    let marks = marks.min(ids.len());
    let (first, _) = ids.split_at_mut(marks);
    number(first);
    if is_shuffled {
        shuffle(first);
    }
    for at in marks..ids.len() {
        ids[at] = ids[at - marks];
    }
}

// ---- what a round takes

#[inline(never)]
fn is_before(session: u32, id: u64) -> bool {
    (session as u64) < id
}

fn count_before(ids: &[u64]) -> u64 {
    let mut before: u64 = 0;
    for id in ids {
        if is_before(session_of(*id), *id) {
            before = before.wrapping_add(1);
        }
    }
    before
}

/// What the loop costs by itself.
fn loop_alone<R: Clock>(rt: &R, ids: &[u64]) -> Result<u64, Fault> {
    let begun = Instant::now(rt)?;
    let before = count_before(ids);
    let cost = a_call(rt, begun, CALLS)?;
    right(before <= CALLS)?;
    Ok(cost)
}

fn add_marks(marks: &mut Vec<Mark>, alloc: Global, ids: &[u64]) -> Result<(), Fault> {
    for id in ids {
        marks.push(mark(alloc, *id)?)?;
    }
    Ok(())
}

fn take_again(locks: &mut RowLocks, marks: Vec<Mark>) -> Result<(), Fault> {
    for mark in marks {
        let session = session_of(mark.id);
        locks.release_one(session, mark.id, 1);
        locks.take(session, mark)?;
    }
    Ok(())
}

fn release_and_take<R: Clock>(
    rt: &R,
    alloc: Global,
    locks: &mut RowLocks,
    ids: &[u64],
) -> Result<u64, Fault> {
    let mut again = Vec::new(alloc);
    add_marks(&mut again, alloc, ids)?;
    let begun = Instant::now(rt);
    take_again(locks, again)?;
    a_call(rt, begun?, CALLS)
}

fn count_held(locks: &RowLocks, slot: u32, queue: &Name, consumer: &Name, ids: &[u64]) -> u64 {
    let mut held: u64 = 0;
    for id in ids {
        if locks.holder(*id, slot, queue, Some(*id), Some(consumer)) == Some(session_of(*id)) {
            held = held.wrapping_add(1);
        }
    }
    held
}

/// Asks for a slot that is held, or, of the next slot, for its group.
fn holder<R: Clock>(
    rt: &R,
    locks: &RowLocks,
    slot: u32,
    names: (&Name, &Name),
    ids: &[u64],
) -> Result<u64, Fault> {
    let begun = Instant::now(rt)?;
    let held = count_held(locks, slot, names.0, names.1, ids);
    let cost = a_call(rt, begun, CALLS)?;
    right(held == CALLS)?;
    Ok(cost)
}

fn count_removed(locks: &RowLocks, ids: &[u64]) -> u64 {
    let mut removed: u64 = 0;
    for id in ids {
        // no branch hangs on the answer, which half of the marks give
        removed = removed.wrapping_add(locks.removed(session_of(*id), *id, 1) as u64);
    }
    removed
}

fn removed<R: Clock>(rt: &R, locks: &RowLocks, ids: &[u64]) -> Result<u64, Fault> {
    let begun = Instant::now(rt)?;
    let removed = count_removed(locks, ids);
    let cost = a_call(rt, begun, CALLS)?;
    right(removed == CALLS / 2)?;
    Ok(cost)
}

// ---- the least of some rounds

fn least_alone<R: Clock>(rt: &R, ids: &[u64]) -> Result<u64, Fault> {
    let mut cost = Least::NONE;
    for _ in 0..ROUNDS {
        cost.note(loop_alone(rt, ids)?);
    }
    Ok(cost.taken)
}

fn least_removed<R: Clock>(rt: &R, locks: &RowLocks, ids: &[u64]) -> Result<u64, Fault> {
    let mut cost = Least::NONE;
    for _ in 0..ROUNDS {
        cost.note(removed(rt, locks, ids)?);
    }
    Ok(cost.taken)
}

fn least_of_rounds<R: Clock>(
    rt: &R,
    locks: &RowLocks,
    slot: u32,
    names: (&Name, &Name),
    ids: &[u64],
) -> Result<u64, Fault> {
    let mut cost = Least::NONE;
    for _ in 0..ROUNDS {
        cost.note(holder(rt, locks, slot, names, ids)?);
    }
    Ok(cost.taken)
}

fn least_holder<R: Clock>(
    rt: &R,
    alloc: Global,
    locks: &RowLocks,
    slot: u32,
    ids: &[u64],
) -> Result<u64, Fault> {
    let queue = Name::read(alloc, "orders")?;
    let consumer = Name::read(alloc, "billing")?;
    least_of_rounds(rt, locks, slot, (&queue, &consumer), ids)
}

fn least_release_and_take<R: Clock>(
    rt: &R,
    alloc: Global,
    locks: &mut RowLocks,
    ids: &[u64],
) -> Result<u64, Fault> {
    let mut cost = Least::NONE;
    for _ in 0..ROUNDS {
        cost.note(release_and_take(rt, alloc, locks, ids)?);
    }
    Ok(cost.taken)
}

// ---- what is printed

/// What the calls cost without the loop that makes them.
fn all_costs<R: Clock>(
    rt: &R,
    alloc: Global,
    locks: &mut RowLocks,
    ids: &[u64],
) -> Result<Costs, Fault> {
    let alone = least_alone(rt, ids)?;
    let removed = least_removed(rt, locks, ids)?;
    let holder_of_slot = least_holder(rt, alloc, locks, 1, ids)?;
    let holder_of_group = least_holder(rt, alloc, locks, 2, ids)?;
    let release_and_take = least_release_and_take(rt, alloc, locks, ids)?;
    Ok(Costs {
        release_and_take: release_and_take.saturating_sub(alone),
        holder_of_slot: holder_of_slot.saturating_sub(alone),
        holder_of_group: holder_of_group.saturating_sub(alone),
        removed: removed.saturating_sub(alone),
    })
}

fn print_line<R: Print>(rt: &R, marks: u64, costs: &Costs) -> Result<(), Fault> {
    println!(rt;
        "{marks} marks, in tenths of ns: release and take {}, holder of a slot {}, holder of a group {}, removed {}",
        costs.release_and_take, costs.holder_of_slot, costs.holder_of_group, costs.removed
    )?;
    Ok(())
}

fn measured_in<R: Clock + Print>(
    rt: &R,
    alloc: Global,
    marks: u64,
    ids: &[u64],
) -> Result<Costs, Fault> {
    let mut locks = RowLocks::new(alloc);
    fill(&mut locks, alloc, marks)?;
    let costs = all_costs(rt, alloc, &mut locks, ids)?;
    print_line(rt, marks, &costs)?;
    Ok(costs)
}

fn measured<R: Clock + Print>(
    rt: &R,
    alloc: Global,
    marks: u64,
    is_shuffled: bool,
) -> Result<Costs, Fault> {
    let mut ids = Vec::new(alloc);
    ids.resize(CALLS as usize, 0)?;
    set_out(&mut ids, marks as usize, is_shuffled);
    measured_in(rt, alloc, marks, &ids)
}

fn tenths(many: u64, few: u64) -> u64 {
    many.saturating_mul(10) / few.max(1)
}

fn compare<R: Clock + Print>(rt: &R, alloc: Global, is_shuffled: bool) -> Result<(), Fault> {
    let few = measured(rt, alloc, 100, is_shuffled)?;
    let many = measured(rt, alloc, CALLS, is_shuffled)?;
    let taking = tenths(many.release_and_take, few.release_and_take);
    let of_slot = tenths(many.holder_of_slot, few.holder_of_slot);
    let of_group = tenths(many.holder_of_group, few.holder_of_group);
    let asking = tenths(many.removed, few.removed);
    println!(rt;
        "ratios in tenths: release and take {taking}, holder of a slot {of_slot}, holder of a group {of_group}, removed {asking}"
    )?;
    Ok(())
}

pub fn report<R: Clock + Print>(rt: &R, alloc: Global) -> Result<(), Fault> {
    println!(rt; "in the order in which the marks were taken")?;
    compare(rt, alloc, false)?;
    println!(rt; "shuffled")?;
    compare(rt, alloc, true)
}
