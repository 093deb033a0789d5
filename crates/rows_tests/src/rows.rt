// Rows with which the worked tests begin, and databases of them.
use crate::commits::commit;
use message_store::PreparedStore;
use payload_records::{
    Boxed, Datum, Field, Kind, List, Name, Prop, Record, RecordType, Shared, Text,
};
use place_keys::{Column, Place, SortList};
use queue_rows::{Change, MsgRow, QueueKind, QueueRow, ScheduleRow, SlotRow, SlotState, TableRow};
use rule_conditions::Facts;
use std::alloc::{AllocError, Global};
use std::test::Fail;

// ---- tables

/// A field's name and its kind.
pub type FieldOf = (&'static str, Kind);

/// One field, of a number.
pub const QTY: &[FieldOf] = &[("qty", Kind::Num)];

fn add_fields(fields: &mut List<Field>, alloc: Global, rows: &[FieldOf]) -> Result<(), Fail> {
    for row in rows {
        let name = Name::read(alloc, row.0)?;
        fields.push(Field { name, kind: row.1 })?;
    }
    Ok(())
}

fn record_type(alloc: Global, rows: &[FieldOf]) -> Result<RecordType, Fail> {
    let mut fields = List::new(alloc);
    add_fields(&mut fields, alloc, rows)?;
    Ok(RecordType::of(fields)?.ok_or("no type")?)
}

fn sort_list(alloc: Global) -> Result<SortList, Fail> {
    let mut columns = List::new(alloc);
    columns.push(Column::Priority)?;
    columns.push(Column::CommitTime)?;
    Ok(SortList::of(columns).ok_or("no sort list")?)
}

/// Whether a message of the table may have many consumers, and whether the messages of a commit stand together.
pub type TableKind = (bool, bool);

/// A table that is sorted by the priority and the moment of the commit.
pub fn table(
    alloc: Global,
    name: &str,
    fields: &[FieldOf],
    kind: TableKind,
) -> Result<TableRow, Fail> {
    let name = Name::read(alloc, name)?;
    let columns = sort_list(alloc)?;
    let fields = record_type(alloc, fields)?;
    Ok(TableRow {
        name,
        fields,
        columns,
        multi: kind.0,
        grouped: kind.1,
    })
}

// ---- queues

/// What a queue is for, whether messages may be put in, and how long it keeps what was taken.
pub type QueueOf = (QueueKind, bool, u64);

/// A queue of that name in that table.
pub fn queue(alloc: Global, name: &str, table: &str, row: QueueOf) -> Result<QueueRow, Fail> {
    let name = Name::read(alloc, name)?;
    let table = Name::read(alloc, table)?;
    Ok(QueueRow {
        name,
        table,
        kind: row.0,
        enqueue: row.1,
        dequeue: true,
        max_retries: 5,
        retry_delay: 0,
        retention: row.2,
        lowest: 0,
    })
}

// ---- schedules

/// When a schedule sends.
#[derive(Clone, Copy)]
pub struct Plan {
    pub enabled: bool,
    pub start: u64,
    pub duration: Option<u64>,
    pub period: Option<u64>,
    pub latency: u64,
    pub failures: u64,
    pub next: u64,
}

/// At each moment.
pub const ALWAYS: Plan = Plan {
    enabled: true,
    start: 0,
    duration: None,
    period: None,
    latency: 0,
    failures: 0,
    next: 0,
};

/// The schedule from that queue to that destination.
pub fn schedule(alloc: Global, queue: &str, to: &str, plan: Plan) -> Result<ScheduleRow, Fail> {
    let queue = Name::read(alloc, queue)?;
    let to = Name::read(alloc, to)?;
    Ok(ScheduleRow {
        queue,
        to,
        enabled: plan.enabled,
        start: plan.start,
        duration: plan.duration,
        period: plan.period,
        latency: plan.latency,
        failures: plan.failures,
        next: plan.next,
    })
}

// ---- slots

/// Where a slot goes, nowhere where that is empty; its state; since or until when it has it; and when it expires, never where that is 0.
pub type SlotOf<'a> = (&'a str, SlotState, u64, u64);

fn name_unless_empty(alloc: Global, text: &str) -> Result<Option<Name>, Fail> {
    if text.is_empty() {
        return Ok(None);
    }
    Ok(Some(Name::read(alloc, text)?))
}

/// A slot of these names.
pub fn slot_of(name: Option<Name>, address: Option<Name>, state: SlotState, at: u64) -> SlotRow {
    SlotRow {
        name,
        address,
        state,
        retries: 2,
        at,
        expires: None,
    }
}

// The slot of the recipient `r`.
fn slot(alloc: Global, row: &SlotOf<'_>) -> Result<SlotRow, Fail> {
    let name = Name::read(alloc, "r")?;
    let address = name_unless_empty(alloc, row.0)?;
    let mut slot = slot_of(Some(name), address, row.1, row.2);
    if row.3 > 0 {
        slot.expires = Some(row.3);
    }
    Ok(slot)
}

fn slots(alloc: Global, rows: &[SlotOf<'_>]) -> Result<List<SlotRow>, Fail> {
    let mut slots = List::new(alloc);
    add_slots(&mut slots, alloc, rows)?;
    Ok(slots)
}

fn add_slots(slots: &mut List<SlotRow>, alloc: Global, rows: &[SlotOf<'_>]) -> Result<(), Fail> {
    for row in rows {
        slots.push(slot(alloc, row)?)?;
    }
    Ok(())
}

// ---- messages

/// Facts of which nothing is known but the priority and the correlation.
pub fn facts_of(alloc: Global, priority: i64, corr: Option<Text>) -> Result<Facts, AllocError> {
    let cells = Shared::new(alloc, List::new(alloc))?;
    Ok(Facts {
        priority,
        corr,
        cells: Record { cells },
        props: List::new(alloc),
    })
}

fn five(alloc: Global) -> Result<Record, AllocError> {
    let mut cells = List::new(alloc);
    cells.push(Datum::Num(5))?;
    let cells = Shared::new(alloc, cells)?;
    Ok(Record { cells })
}

fn add_level(props: &mut List<Prop>, alloc: Global) -> Result<(), Fail> {
    let name = Name::read(alloc, "lvl")?;
    let value = Datum::Num(8);
    props.push(Prop { name, value })?;
    Ok(())
}

// The priority 4, the correlation `c`, the payload 5 and the property `lvl` 8.
fn facts(alloc: Global) -> Result<Facts, Fail> {
    let corr = Text::of(alloc, "c")?;
    let mut facts = facts_of(alloc, 4, Some(corr))?;
    facts.cells = five(alloc)?;
    add_level(&mut facts.props, alloc)?;
    Ok(facts)
}

/// A message of these parts, which names no exception queue. Its group is 1.
pub fn message_of(
    id: u32,
    queue: Name,
    place: Place,
    facts: Facts,
    slots: List<SlotRow>,
) -> MsgRow {
    MsgRow {
        id: u64::from(id),
        queue,
        place,
        facts,
        exception: None,
        enq: 1,
        group: 1,
        moved: false,
        slots,
    }
}

/// A message's number, its queue, what it has in the first column, and its slots.
pub type MessageOf<'a> = (u32, &'a str, i64, &'a [SlotOf<'a>]);

// A message that names the exception queue `x`, which is nowhere.
fn message(alloc: Global, row: &MessageOf<'_>) -> Result<MsgRow, Fail> {
    let queue = Name::read(alloc, row.1)?;
    let place = Place::of(alloc, 0, &[row.2], u64::from(row.0))?;
    let facts = facts(alloc)?;
    let slots = slots(alloc, row.3)?;
    let mut message = message_of(row.0, queue, place, facts, slots);
    message.exception = name_unless_empty(alloc, "x")?;
    Ok(message)
}

// ---- what is committed at first

/// That the message is there.
pub fn arrival(alloc: Global, message: MsgRow) -> Result<Change, AllocError> {
    Ok(Change::Enqueued(Boxed::new(alloc, message)?))
}

/// Where a schedule of the queue `mq` sends to, and when.
pub type ScheduleTo<'a> = (&'a str, Plan);

fn add_schedules(
    changes: &mut List<Change>,
    alloc: Global,
    all: &[ScheduleTo<'_>],
) -> Result<(), Fail> {
    for row in all {
        let schedule = schedule(alloc, "mq", row.0, row.1)?;
        changes.push(Change::PutSchedule(Boxed::new(alloc, schedule)?))?;
    }
    Ok(())
}

fn add_messages(
    changes: &mut List<Change>,
    alloc: Global,
    all: &[MessageOf<'_>],
) -> Result<(), Fail> {
    for row in all {
        changes.push(arrival(alloc, message(alloc, row)?)?)?;
    }
    Ok(())
}

/// A table and its one queue.
pub fn add_queue(
    changes: &mut List<Change>,
    alloc: Global,
    table: TableRow,
    queue: QueueRow,
) -> Result<(), AllocError> {
    changes.push(Change::PutTable(Boxed::new(alloc, table)?))?;
    changes.push(Change::PutQueue(Boxed::new(alloc, queue)?))
}

/// A database: how long its queue `mq` keeps what was taken, what is sent from there, and what stands in it.
#[derive(Clone, Copy)]
pub struct Home<'a> {
    pub retention: u64,
    pub schedules: &'a [ScheduleTo<'a>],
    pub messages: &'a [MessageOf<'a>],
}

fn add_own_queue(changes: &mut List<Change>, alloc: Global, retention: u64) -> Result<(), Fail> {
    let table = table(alloc, "m", QTY, (true, true))?;
    let queue = queue(alloc, "mq", "m", (QueueKind::Normal, true, retention))?;
    Ok(add_queue(changes, alloc, table, queue)?)
}

fn add_home(changes: &mut List<Change>, alloc: Global, home: &Home<'_>) -> Result<(), Fail> {
    add_own_queue(changes, alloc, home.retention)?;
    add_schedules(changes, alloc, home.schedules)?;
    add_messages(changes, alloc, home.messages)
}

/// That database, and nothing else, in a store.
pub fn put_home(store: &mut PreparedStore, alloc: Global, home: &Home<'_>) -> Result<(), Fail> {
    let mut changes = List::new(alloc);
    add_home(&mut changes, alloc, home)?;
    Ok(commit(store, changes)?)
}

/// A store of that database.
pub fn store_of(alloc: Global, home: &Home<'_>) -> Result<PreparedStore, Fail> {
    let mut store = PreparedStore::new(alloc);
    put_home(&mut store, alloc, home)?;
    Ok(store)
}
