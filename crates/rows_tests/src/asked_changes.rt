// Changes, as the cases name them.
use crate::plain_rows;
use payload_records::{Boxed, List, Name, NameFault};
use queue_rows::{Change, QueueKind};
use std::alloc::Global;

/// A change; what it does to a slot it does to slot 1, at the moment 4 where none is named.
#[derive(Clone, Copy)]
pub(crate) enum Asked {
    /// The queue table of that name.
    Table(&'static str),
    /// The queue table goes.
    NoTable(&'static str),
    /// A queue of that name of the table `t`, and whether it is an exception queue.
    Queue(&'static str, bool),
    /// The like of the table `u`.
    Other(&'static str, bool),
    /// The queue `q` with so many retries, and with the lowest lane -1.
    Allows(u64),
    /// The queue goes.
    NoQueue(&'static str),
    /// A subscriber of the queue.
    Sub(&'static str),
    /// A schedule of the queue, and how often it failed.
    Schedule(&'static str, u64),
    /// A message, its queue, and its lane.
    Message(u32, &'static str, i64),
    /// So many retries of a message.
    Retried(u64, u64),
    /// A first retry of a message waits until 20.
    Waits(u64),
    /// A slot of a message is taken at that moment.
    Done(u64, u64, u64),
    /// A message expires.
    Expired(u64),
    /// A message moves to the queue at that moment.
    Moved(u64, &'static str, u64),
    /// A message goes.
    Purged(u64),
    /// A slot was seen that came as the message of that number.
    Seen(u64),
    /// The next number.
    Next(u64),
}

fn put_queue(
    alloc: Global,
    table: &str,
    name: &str,
    is_exception: bool,
) -> Result<Change, NameFault> {
    let kind = if is_exception {
        QueueKind::Exception
    } else {
        QueueKind::Normal
    };
    let row = plain_rows::queue(alloc, table, name, kind)?;
    Ok(Change::PutQueue(Boxed::new(alloc, row)?))
}

fn no_table(alloc: Global, name: &str) -> Result<Change, NameFault> {
    Ok(Change::DropTable(Name::read(alloc, name)?))
}

fn no_queue(alloc: Global, name: &str) -> Result<Change, NameFault> {
    Ok(Change::DropQueue(Name::read(alloc, name)?))
}

fn moved(alloc: Global, id: u64, queue: &str, at: u64) -> Result<Change, NameFault> {
    let queue = Name::read(alloc, queue)?;
    Ok(Change::Moved { id, queue, at })
}

fn retried(id: u64, retries: u64, until: Option<u64>) -> Change {
    Change::Retried {
        id,
        slot: 1,
        retries,
        until,
        at: 4,
    }
}

fn next(next: u64) -> Change {
    Change::Counters {
        next,
        transaction: 2,
        latest: 4,
    }
}

fn plain(asked: Asked) -> Option<Change> {
    match asked {
        Asked::Retried(id, retries) => Some(retried(id, retries, None)),
        Asked::Waits(id) => Some(retried(id, 1, Some(20))),
        Asked::Done(id, slot, at) => Some(Change::Done { id, slot, at }),
        Asked::Expired(id) => Some(Change::Expired { id, slot: 1, at: 4 }),
        Asked::Purged(id) => Some(Change::Purged { id }),
        Asked::Seen(copy) => Some(Change::Seen(plain_rows::seen(copy))),
        Asked::Next(number) => Some(next(number)),
        _ => None,
    }
}

fn put_table(alloc: Global, name: &str) -> Result<Change, NameFault> {
    let row = plain_rows::table(alloc, name)?;
    Ok(Change::PutTable(Boxed::new(alloc, row)?))
}

fn put_retrying(alloc: Global, retries: u64) -> Result<Change, NameFault> {
    let row = plain_rows::retrying(alloc, retries)?;
    Ok(Change::PutQueue(Boxed::new(alloc, row)?))
}

fn of_queues(alloc: Global, asked: Asked) -> Result<Option<Change>, NameFault> {
    match asked {
        Asked::Table(name) => Ok(Some(put_table(alloc, name)?)),
        Asked::NoTable(name) => Ok(Some(no_table(alloc, name)?)),
        Asked::Queue(name, is_exception) => Ok(Some(put_queue(alloc, "t", name, is_exception)?)),
        Asked::Other(name, is_exception) => Ok(Some(put_queue(alloc, "u", name, is_exception)?)),
        Asked::Allows(retries) => Ok(Some(put_retrying(alloc, retries)?)),
        Asked::NoQueue(name) => Ok(Some(no_queue(alloc, name)?)),
        _ => Ok(None),
    }
}

fn put(alloc: Global, asked: Asked) -> Result<Change, NameFault> {
    match asked {
        Asked::Sub(queue) => {
            let row = plain_rows::sub(alloc, queue)?;
            Ok(Change::PutSub(Boxed::new(alloc, row)?))
        }
        Asked::Schedule(queue, failures) => {
            let row = plain_rows::schedule(alloc, queue, failures)?;
            Ok(Change::PutSchedule(Boxed::new(alloc, row)?))
        }
        Asked::Message(id, queue, lane) => {
            let row = plain_rows::message(alloc, id, queue, lane)?;
            Ok(Change::Enqueued(Boxed::new(alloc, row)?))
        }
        Asked::Moved(id, queue, at) => moved(alloc, id, queue, at),
        _ => Err(NameFault::Bad),
    }
}

fn change(alloc: Global, asked: Asked) -> Result<Change, NameFault> {
    if let Some(change) = plain(asked) {
        return Ok(change);
    }
    match of_queues(alloc, asked)? {
        Some(change) => Ok(change),
        None => put(alloc, asked),
    }
}

fn add_changes(changes: &mut List<Change>, alloc: Global, all: &[Asked]) -> Result<(), NameFault> {
    for asked in all {
        changes.push(change(alloc, *asked)?)?;
    }
    Ok(())
}

/// The changes that are asked for.
pub(crate) fn changes(alloc: Global, all: &[Asked]) -> Result<List<Change>, NameFault> {
    let mut changes = List::new(alloc);
    add_changes(&mut changes, alloc, all)?;
    Ok(changes)
}
