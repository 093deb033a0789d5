// The calls of a due index.
use super::numbers::mixed;
use crate::fault::{Fault, right};
use crate::timing::{Least, a_call};
use due_index::DueIndex;
use std::alloc::Global;
use std::time::{Clock, Instant};

/// Tenths of nanoseconds that a call took, of each kind.
#[derive(Clone, Copy)]
struct Costs {
    put: Least,
    due: Least,
    after: Least,
    take_out: Least,
}

impl Costs {
    const NONE: Costs = Costs {
        put: Least::NONE,
        due: Least::NONE,
        after: Least::NONE,
        take_out: Least::NONE,
    };

    fn print<R: Print>(self, rt: &R) -> Result<(), Fault> {
        self.put.print(rt, "put")?;
        self.due.print(rt, "due")?;
        self.after.print(rt, "after")?;
        self.take_out.print(rt, "take_out")
    }
}

/// The moment of a message.
fn moment(id: u64) -> u64 {
    mixed(id) >> 24
}

/// A row is taken out first, so that it is not there when it is put in.
#[tactic(auto, using(due_index::specs::DueLaws::others_differ))]
fn put_anew(index: &mut DueIndex, moment: u64, id: u64) -> Result<(), Fault> {
    index.reserve(1)?;
    index.take_out(moment, id, 1);
    index.put(moment, id, 1);
    Ok(())
}

fn put_all(index: &mut DueIndex, rows: u64) -> Result<(), Fault> {
    for id in 0..rows {
        put_anew(index, moment(id), id)?;
    }
    Ok(())
}

/// Each call is made anew: else what does not hang on the moment were looked up once for all.
#[inline(never)]
fn is_due(index: &DueIndex, moment: u64) -> bool {
    index.due(moment).is_some()
}

/// How often there was a row.
fn ask_due(index: &DueIndex, rows: u64) -> u64 {
    let mut found: u64 = 0;
    for id in 0..rows {
        if is_due(index, u64::MAX - id) {
            found = found.wrapping_add(1);
        }
    }
    found
}

fn ask_after(index: &DueIndex, rows: u64) -> u64 {
    let mut found: u64 = 0;
    for id in 0..rows {
        if index.after((moment(id), id, 0), u64::MAX).is_some() {
            found = found.wrapping_add(1);
        }
    }
    found
}

fn take_all(index: &mut DueIndex, rows: u64) {
    for id in 0..rows {
        index.take_out(moment(id), id, 1);
    }
}

fn put_cost<R: Clock>(rt: &R, index: &mut DueIndex, rows: u64) -> Result<u64, Fault> {
    let begun = Instant::now(rt)?;
    put_all(index, rows)?;
    a_call(rt, begun, rows)
}

fn due_cost<R: Clock>(rt: &R, index: &DueIndex, rows: u64) -> Result<u64, Fault> {
    let begun = Instant::now(rt)?;
    right(ask_due(index, rows) == rows)?;
    a_call(rt, begun, rows)
}

fn after_cost<R: Clock>(rt: &R, index: &DueIndex, rows: u64) -> Result<u64, Fault> {
    let begun = Instant::now(rt)?;
    right(ask_after(index, rows) == rows)?;
    a_call(rt, begun, rows)
}

fn take_cost<R: Clock>(rt: &R, index: &mut DueIndex, rows: u64) -> Result<u64, Fault> {
    let begun = Instant::now(rt)?;
    take_all(index, rows);
    let cost = a_call(rt, begun, rows)?;
    right(index.due(u64::MAX).is_none())?;
    Ok(cost)
}

fn round<R: Clock>(
    rt: &R,
    index: &mut DueIndex,
    rows: u64,
    costs: &mut Costs,
) -> Result<(), Fault> {
    costs.put.note(put_cost(rt, index, rows)?);
    costs.due.note(due_cost(rt, index, rows)?);
    costs.after.note(after_cost(rt, index, rows)?);
    costs.take_out.note(take_cost(rt, index, rows)?);
    Ok(())
}

fn measured<R: Clock>(
    rt: &R,
    index: &mut DueIndex,
    rows: u64,
    rounds: u64,
) -> Result<Costs, Fault> {
    let mut costs = Costs::NONE;
    for _ in 0..rounds {
        round(rt, index, rows, &mut costs)?;
    }
    Ok(costs)
}

pub fn report<R: Clock + Print>(
    rt: &R,
    alloc: Global,
    rows: u64,
    rounds: u64,
) -> Result<(), Fault> {
    let mut index = DueIndex::new(alloc);
    let costs = measured(rt, &mut index, rows, rounds)?;
    costs.print(rt)
}
