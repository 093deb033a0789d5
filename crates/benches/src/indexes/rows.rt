// Tables to measure with.
use crate::fault::Fault;
use payload_records::{List, Name, Record, RecordType, Shared};
use place_keys::{Column, Place, SortList};
use queue_rows::{MsgRow, QueueKind, QueueRow, ScheduleRow, SlotRow, SlotState, TableRow, Tables};
use rule_conditions::Facts;
use std::alloc::{AllocError, Global};

/// The name of that text.
pub fn name(alloc: Global, text: &str) -> Result<Name, Fault> {
    Ok(Name::read(alloc, text)?)
}

/// The destination of that number.
pub fn destination(alloc: Global, number: u64) -> Result<Name, Fault> {
    let text = format!(in alloc; "d{number}")?;
    name(alloc, text.as_str())
}

// ---- tables and queues

fn table_of(name: Name, fields: RecordType, columns: SortList) -> TableRow {
    TableRow {
        name,
        fields,
        columns,
        multi: true,
        grouped: false,
    }
}

fn sort_list(alloc: Global) -> Result<SortList, Fault> {
    let mut columns = List::new(alloc);
    columns.push(Column::Priority)?;
    SortList::of(columns).ok_or(Fault::Wrong)
}

fn table(alloc: Global) -> Result<TableRow, Fault> {
    let name = name(alloc, "t")?;
    let fields = RecordType::of(List::new(alloc))?.ok_or(Fault::Wrong)?;
    let columns = sort_list(alloc)?;
    Ok(table_of(name, fields, columns))
}

fn queue_of(name: Name, table: Name) -> QueueRow {
    QueueRow {
        name,
        table,
        kind: QueueKind::Normal,
        enqueue: true,
        dequeue: true,
        max_retries: 5,
        retry_delay: 0,
        retention: 0,
        lowest: 0,
    }
}

fn queue(alloc: Global) -> Result<QueueRow, Fault> {
    let own = name(alloc, "q")?;
    let table = name(alloc, "t")?;
    Ok(queue_of(own, table))
}

/// Tables of one queue, without messages.
pub fn tables(alloc: Global) -> Result<Tables, Fault> {
    let mut tables = Tables::new(alloc);
    tables.tables.append(alloc, table(alloc)?)?;
    tables.queues.append(alloc, queue(alloc)?)?;
    Ok(tables)
}

// ---- schedules

fn schedule_of(queue: Name, to: Name) -> ScheduleRow {
    ScheduleRow {
        queue,
        to,
        enabled: true,
        start: 0,
        duration: None,
        period: None,
        latency: 0,
        failures: 0,
        next: 0,
    }
}

/// The schedule to the destination of that number, which sends at each moment.
pub fn schedule(alloc: Global, number: u64) -> Result<ScheduleRow, Fault> {
    let queue = name(alloc, "q")?;
    let to = destination(alloc, number)?;
    Ok(schedule_of(queue, to))
}

// ---- messages

/// A slot in a state, until or since a moment.
pub fn slot(address: Option<Name>, state: SlotState, at: u64) -> SlotRow {
    SlotRow {
        name: None,
        address,
        state,
        retries: 0,
        at,
        expires: None,
    }
}

fn facts(alloc: Global) -> Result<Facts, AllocError> {
    let cells = Shared::new(alloc, List::new(alloc))?;
    Ok(Facts {
        priority: 1,
        corr: None,
        cells: Record { cells },
        props: List::new(alloc),
    })
}

fn message_of(id: u64, queue: Name, place: Place, facts: Facts, slots: List<SlotRow>) -> MsgRow {
    MsgRow {
        id,
        queue,
        place,
        facts,
        exception: None,
        enq: 1,
        group: 1,
        moved: false,
        slots,
    }
}

/// A message with one slot, whose number fits 32 bits.
pub fn message(alloc: Global, id: u64, slot: SlotRow) -> Result<MsgRow, Fault> {
    let queue = name(alloc, "q")?;
    let number = u32::try_from(id).ok().ok_or(Fault::Wrong)?;
    let place = Place::of(alloc, 0, &[1], u64::from(number))?;
    let facts = facts(alloc)?;
    let mut slots = List::new(alloc);
    slots.push(slot)?;
    Ok(message_of(id, queue, place, facts, slots))
}
