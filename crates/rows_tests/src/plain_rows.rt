// The rows that commits put.
use crate::rows::{facts_of, message_of};
use payload_records::{List, Name, NameFault, RecordType};
use place_keys::{Place, SortList};
use queue_rows::{
    MsgRow, QueueKind, QueueRow, ScheduleRow, SeenRow, SlotRow, SlotState, SubRow, TableRow,
};
use std::alloc::Global;

// ---- a queue table, its queues

fn fields(alloc: Global) -> Result<RecordType, NameFault> {
    match RecordType::of(List::new(alloc))? {
        Some(fields) => Ok(fields),
        None => Err(NameFault::Bad),
    }
}

/// A queue table for many consumers, of payloads without a field.
pub(crate) fn table(alloc: Global, name: &str) -> Result<TableRow, NameFault> {
    let name = Name::read(alloc, name)?;
    let fields = fields(alloc)?;
    let columns = SortList::by_enqueue_time(alloc)?;
    Ok(TableRow {
        name,
        fields,
        columns,
        multi: true,
        grouped: false,
    })
}

/// A queue of a table that allows two retries.
pub(crate) fn queue(
    alloc: Global,
    table: &str,
    name: &str,
    kind: QueueKind,
) -> Result<QueueRow, NameFault> {
    let name = Name::read(alloc, name)?;
    let table = Name::read(alloc, table)?;
    Ok(QueueRow {
        name,
        table,
        kind,
        enqueue: false,
        dequeue: true,
        max_retries: 2,
        retry_delay: 0,
        retention: 0,
        lowest: 0,
    })
}

/// The queue `q` of the table `t` with so many retries, and with the lowest lane -1.
pub(crate) fn retrying(alloc: Global, max_retries: u64) -> Result<QueueRow, NameFault> {
    let mut row = queue(alloc, "t", "q", QueueKind::Normal)?;
    row.max_retries = max_retries;
    row.lowest = -1;
    Ok(row)
}

// ---- subscribers, schedules, and what was seen

/// The subscriber `a` of a queue.
pub(crate) fn sub(alloc: Global, queue: &str) -> Result<SubRow, NameFault> {
    let queue = Name::read(alloc, queue)?;
    let name = Name::read(alloc, "a")?;
    Ok(SubRow {
        queue,
        name,
        address: None,
        rule: None,
    })
}

/// An enabled schedule of a queue that has failed so often.
pub(crate) fn schedule(
    alloc: Global,
    queue: &str,
    failures: u64,
) -> Result<ScheduleRow, NameFault> {
    let queue = Name::read(alloc, queue)?;
    let to = Name::read(alloc, "far")?;
    Ok(ScheduleRow {
        queue,
        to,
        enabled: true,
        start: 1,
        duration: None,
        period: None,
        latency: 2,
        failures,
        next: 9,
    })
}

/// The slot 1 of the other database's message 5, which came as a message of that number.
pub(crate) fn seen(copy: u64) -> SeenRow {
    SeenRow {
        id: 5,
        slot: 1,
        copy,
    }
}

// ---- messages

fn slot(name: Name) -> SlotRow {
    SlotRow {
        name: Some(name),
        address: None,
        state: SlotState::Ready,
        retries: 0,
        at: 1,
        expires: None,
    }
}

fn add_slot(alloc: Global, slots: &mut List<SlotRow>) -> Result<(), NameFault> {
    let name = Name::read(alloc, "a")?;
    Ok(slots.push(slot(name))?)
}

/// A message of a queue in that lane and of the group 1, without a slot.
fn bare_message(alloc: Global, id: u32, queue: &str, lane: i64) -> Result<MsgRow, NameFault> {
    let queue = Name::read(alloc, queue)?;
    let place = Place::of(alloc, lane, &[1], u64::from(id))?;
    let facts = facts_of(alloc, 1, None)?;
    Ok(message_of(id, queue, place, facts, List::new(alloc)))
}

/// The same with one slot, which is ready for `a`.
pub(crate) fn message(alloc: Global, id: u32, queue: &str, lane: i64) -> Result<MsgRow, NameFault> {
    let mut message = bare_message(alloc, id, queue, lane)?;
    add_slot(alloc, &mut message.slots)?;
    Ok(message)
}
