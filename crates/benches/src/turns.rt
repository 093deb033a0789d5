// Measures a turnstile beside std's mutex, both in one run.
mod cost;
mod crowd;
mod order;

use crate::fault::Fault;
use crowd::crowded;
use std::sync::Wait;
use std::thread::Threads;
use std::time::{Clock, CpuClock};
use turnstile::number_log::gathered;

/// How often each lock is measured, in turn with the other.
const ROUNDS: u32 = 5;

/// Shows that both locks keep every entry.
pub fn show<R: Threads + Wait + Sync + Print + AllocGlobal>(rt: &R) -> Result<(), Fault> {
    let kept = gathered(rt, rt.alloc(), 3, 4, 0)?.pairs.len();
    let also = crowded(rt, rt.alloc(), 3, 4, 0)?.pairs.len();
    println!(rt; "turnstile: {kept} entries")?;
    println!(rt; "mutex: {also} entries")?;
    Ok(())
}

/// Turns of an effort: so many of each of few threads, and more where their order is looked at.
fn compare<R: Threads + Wait + Sync + Clock + CpuClock + AllocGlobal + Print>(
    rt: &R,
    effort: u32,
    turns: u32,
    more: u32,
) -> Result<(), Fault> {
    cost::compare(rt, 1, turns, effort, ROUNDS)?;
    cost::compare(rt, 4, turns, effort, ROUNDS)?;
    cost::compare(rt, 66, turns / 20, effort, ROUNDS)?;
    order::report(rt, 8, more, effort)
}

pub fn report<R: Threads + Wait + Sync + Clock + CpuClock + AllocGlobal + Print>(
    rt: &R,
) -> Result<(), Fault> {
    compare(rt, 0, 20_000, 200_000)?;
    compare(rt, 1_000, 4_000, 16_000)?;
    compare(rt, 2_000, 2_000, 8_000)?;
    compare(rt, 5_000, 1_000, 2_000)
}
