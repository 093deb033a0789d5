// Measures the ordered indexes, and due work and what is sent by them, at numbers of rows, slots and schedules.
mod due;
mod due_rows;
mod numbers;
mod picks;
mod rows;
mod store;
mod trees;

use crate::fault::Fault;
use crate::words::{number, word};
use std::alloc::Global;
use std::env::Args;
use std::time::Clock;

/// The calls of an index at so many rows.
fn report_index<R: Clock + Print + AllocGlobal>(
    rt: &R,
    what: &str,
    rows: u64,
    rounds: u64,
) -> Result<(), Fault> {
    match what {
        "due" => due_rows::report(rt, rt.alloc(), rows, rounds),
        "tree" => trees::report(rt, rt.alloc(), rows, rounds),
        _ => Err(Fault::Usage),
    }
}

/// What is done by indexes at so many messages, and so many slots that are due or schedules.
fn report_work<R: Clock + Print + AllocGlobal>(
    rt: &R,
    what: &str,
    messages: u64,
    others: u64,
    rounds: u64,
) -> Result<(), Fault> {
    match what {
        "due" => due::report(rt, rt.alloc(), messages, others, rounds),
        "pick" => picks::report(rt, rt.alloc(), messages, others, rounds),
        "walk" => picks::report_walk(rt, rt.alloc(), messages, others, rounds),
        _ => Err(Fault::Usage),
    }
}

fn report_of<R: Clock + Print + AllocGlobal>(
    rt: &R,
    what: &str,
    words: &mut Args<Global>,
) -> Result<(), Fault> {
    let first = number(words)?;
    let second = number(words)?;
    match number(words) {
        Ok(rounds) => report_work(rt, what, first, second, rounds),
        Err(_) => report_index(rt, what, first, second),
    }
}

pub fn report<R: Clock + Print + AllocGlobal>(
    rt: &R,
    words: &mut Args<Global>,
) -> Result<(), Fault> {
    let what = word(words)?;
    report_of(rt, what.as_str(), words)
}
