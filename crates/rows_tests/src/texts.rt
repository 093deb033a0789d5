// What is committed, as short texts.
use payload_records::{Datum, List, Name, Prop};
use place_keys::Place;
use propagation::Arriving;
use queue_rows::{Arrival, Cause, Change, MsgRow, ScheduleRow, SeenRow, SlotRow};
use rule_conditions::Facts;
use std::alloc::{AllocError, Global};

// ---- messages

fn put_place(out: &mut String, place: &Place) -> Result<(), AllocError> {
    for number in place.numbers() {
        write!(out, " {number}")?;
    }
    Ok(())
}

fn put_datum(out: &mut String, datum: &Datum) -> Result<(), AllocError> {
    match datum {
        Datum::Num(number) => write!(out, " {number}"),
        _ => out.push_str(" other"),
    }
}

fn put_props(out: &mut String, props: &List<Prop>) -> Result<(), AllocError> {
    for prop in props {
        out.push_str(" ")?;
        out.push_str(prop.name.as_str())?;
        put_datum(out, &prop.value)?;
    }
    Ok(())
}

fn put_facts(out: &mut String, facts: &Facts) -> Result<(), AllocError> {
    let priority = facts.priority;
    write!(out, " priority {priority}")?;
    if let Some(corr) = &facts.corr {
        out.push_str(" corr ")?;
        out.push_str(corr.as_str())?;
    }
    for datum in &*facts.cells.cells {
        put_datum(out, datum)?;
    }
    put_props(out, &facts.props)
}

fn put_name(out: &mut String, name: &Option<Name>) -> Result<(), AllocError> {
    out.push_str(" ")?;
    match name {
        Some(name) => out.push_str(name.as_str()),
        None => out.push_str("-"),
    }
}

fn put_slot(out: &mut String, slot: &SlotRow) -> Result<(), AllocError> {
    let (state, retries, at) = (slot.state, slot.retries, slot.at);
    put_name(out, &slot.name)?;
    put_name(out, &slot.address)?;
    write!(out, " {state:?} {retries} {at}")?;
    if let Some(expires) = slot.expires {
        write!(out, " to {expires}")?;
    }
    Ok(())
}

fn put_message(out: &mut String, row: &MsgRow) -> Result<(), AllocError> {
    let (id, enq, group, moved) = (row.id, row.enq, row.group, row.moved);
    write!(out, "enqueued {id} {enq} {group} {moved}")?;
    put_place(out, &row.place)?;
    put_facts(out, &row.facts)?;
    put_name(out, &row.exception)?;
    for slot in &row.slots {
        put_slot(out, slot)?;
    }
    out.push_str(";")
}

// ---- changes

fn put_schedule(out: &mut String, row: &ScheduleRow) -> Result<(), AllocError> {
    let (enabled, failures, next) = (row.enabled, row.failures, row.next);
    write!(out, "schedule {enabled} {failures} {next};")
}

fn put_seen(out: &mut String, row: &SeenRow) -> Result<(), AllocError> {
    let (id, slot, copy) = (row.id, row.slot, row.copy);
    write!(out, "seen {id}.{slot} as {copy};")
}

fn put_moved(out: &mut String, id: u64, queue: &str, at: u64) -> Result<(), AllocError> {
    write!(out, "moved {id} to {queue} at {at};")
}

fn put_change(out: &mut String, change: &Change) -> Result<(), AllocError> {
    match change {
        Change::Enqueued(row) => put_message(out, row.get()),
        Change::Seen(row) => put_seen(out, row),
        Change::PutSchedule(row) => put_schedule(out, row.get()),
        Change::Ready { id, slot, at } => write!(out, "ready {id}.{slot} at {at};"),
        Change::Expired { id, slot, at } => write!(out, "expired {id}.{slot} at {at};"),
        Change::Done { id, slot, at } => write!(out, "done {id}.{slot} at {at};"),
        Change::Moved { id, queue, at } => put_moved(out, *id, queue.as_str(), *at),
        Change::Purged { id } => write!(out, "purged {id};"),
        _ => out.push_str("other;"),
    }
}

fn put_changes(out: &mut String, changes: &List<Change>) -> Result<(), AllocError> {
    for change in changes {
        put_change(out, change)?;
    }
    Ok(())
}

/// Whether the changes are that text.
pub fn are_changes(alloc: Global, changes: &List<Change>, text: &str) -> Result<bool, AllocError> {
    let mut out = String::new(alloc);
    put_changes(&mut out, changes)?;
    Ok(out.as_str() == text)
}

// ---- arrivals

fn put_failure(out: &mut String, cause: Cause, disabled: bool) -> Result<(), AllocError> {
    write!(out, "failed {cause:?} {disabled};")
}

fn put_outcome(out: &mut String, outcome: Arrival) -> Result<(), AllocError> {
    match outcome {
        Arrival::Copied(id) => write!(out, "copied {id};"),
        Arrival::Seen => out.push_str("seen;"),
        Arrival::Failed { cause, disabled } => put_failure(out, cause, disabled),
    }
}

fn put_arrival(out: &mut String, arriving: &Arriving) -> Result<(), AllocError> {
    put_outcome(out, arriving.outcome)?;
    out.push_str(" ")?;
    put_changes(out, &arriving.origin)?;
    out.push_str(" ")?;
    put_changes(out, &arriving.there)
}

/// Whether the arrival is that text: its outcome, then what the origin commits, then what the destination does.
pub fn is_arrival(alloc: Global, arriving: &Arriving, text: &str) -> Result<bool, AllocError> {
    let mut out = String::new(alloc);
    put_arrival(&mut out, arriving)?;
    Ok(out.as_str() == text)
}
