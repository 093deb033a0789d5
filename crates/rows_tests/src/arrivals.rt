// What the arrival of a slot does at its destination.
use crate::commits::commit;
use crate::rows::{
    ALWAYS, FieldOf, Home, Plan, QTY, QueueOf, TableKind, add_queue, queue, store_of, table,
};
use crate::{calls, texts};
use message_store::PreparedStore;
use payload_records::{Kind, List};
use queue_rows::{Change, QueueKind, SeenRow, SlotState};
use std::alloc::Global;
use std::process::Abort;
use std::test::Fail;

fn origin(alloc: Global, plan: Plan) -> Result<PreparedStore, Fail> {
    let home = Home {
        retention: 0,
        schedules: &[("inq", plan)],
        messages: &[(7, "mq", 9, &[("inq", SlotState::Ready, 1, 99)])],
    };
    store_of(alloc, &home)
}

// ---- the destination

// The queue and what it is, the fields of its table and the table's kind, and the slot of the message 7 that was seen.
#[derive(Clone, Copy)]
struct There {
    name: &'static str,
    queue: QueueOf,
    fields: &'static [FieldOf],
    kind: TableKind,
    seen: u64,
}

const THERE: There = There {
    name: "inq",
    queue: (QueueKind::Normal, true, 0),
    fields: QTY,
    kind: (false, false),
    seen: 2,
};

fn seen(slot: u64) -> SeenRow {
    SeenRow {
        id: 7,
        slot,
        copy: 2,
    }
}

// The next group is 2.
const COUNTERS: Change = Change::Counters {
    next: 1,
    transaction: 2,
    latest: 0,
};

fn add_there(changes: &mut List<Change>, alloc: Global, there: There) -> Result<(), Fail> {
    let table = table(alloc, "t", there.fields, there.kind)?;
    let queue = queue(alloc, there.name, "t", there.queue)?;
    add_queue(changes, alloc, table, queue)?;
    changes.push(Change::Seen(seen(there.seen)))?;
    changes.push(COUNTERS)?;
    Ok(())
}

// ---- cases

// The destination, the id that the copy would get there, and what the arrival does at the moment 50.
type Case = (There, u64, &'static str);

const LAST: u64 = 2305843009213693951;

const CASES: [Case; 12] = [
    (
        THERE,
        3,
        "copied 3;  enqueued 3 50 2 false 0 4 50 3 priority 4 corr c 5 lvl 8 - - - Ready 0 50 to 99;seen 7.1 as 3;",
    ),
    (
        There {
            kind: (true, true),
            ..THERE
        },
        LAST,
        "copied 2305843009213693951;  enqueued 2305843009213693951 50 2 false 2 4 50 2305843009213693951 priority 4 corr c 5 lvl 8 - r - Ready 0 50 to 99;seen 7.1 as 2305843009213693951;",
    ),
    (THERE, LAST + 1, "failed Limit false; schedule true 1 52; "),
    (There { seen: 1, ..THERE }, 3, "seen;  "),
    (
        There {
            seen: 1,
            name: "other",
            ..THERE
        },
        3,
        "seen;  ",
    ),
    (
        There {
            name: "other",
            ..THERE
        },
        3,
        "failed NoQueue false; schedule true 1 52; ",
    ),
    (
        There {
            queue: (QueueKind::Exception, false, 0),
            ..THERE
        },
        3,
        "failed WrongKind false; schedule true 1 52; ",
    ),
    (
        There {
            queue: (QueueKind::Normal, false, 0),
            fields: &[],
            ..THERE
        },
        3,
        "failed EnqueueOff false; schedule true 1 52; ",
    ),
    (
        There {
            fields: &[],
            ..THERE
        },
        LAST + 1,
        "failed Payload false; schedule true 1 52; ",
    ),
    (
        There {
            fields: &[("qty", Kind::Text)],
            ..THERE
        },
        3,
        "failed Payload false; schedule true 1 52; ",
    ),
    (
        There {
            fields: &[("qtz", Kind::Num)],
            ..THERE
        },
        3,
        "failed Payload false; schedule true 1 52; ",
    ),
    (
        There {
            fields: &[("qty", Kind::Num), ("region", Kind::Text)],
            ..THERE
        },
        3,
        "failed Payload false; schedule true 1 52; ",
    ),
];

fn put_there(store: &mut PreparedStore, alloc: Global, row: There) -> Result<(), Fail> {
    let mut changes = List::new(alloc);
    add_there(&mut changes, alloc, row)?;
    Ok(commit(store, changes)?)
}

fn destination(alloc: Global, row: There) -> Result<PreparedStore, Fail> {
    let mut store = PreparedStore::new(alloc);
    put_there(&mut store, alloc, row)?;
    Ok(store)
}

fn ends_so(
    alloc: Global,
    origin: &PreparedStore,
    there: &PreparedStore,
    next: u64,
    text: &str,
) -> Result<bool, Fail> {
    let arriving = calls::arrived(origin, there, next, 50)?;
    Ok(texts::is_arrival(alloc, &arriving, text)?)
}

fn is_right(alloc: Global, origin: &PreparedStore, row: &Case) -> Result<bool, Fail> {
    let there = destination(alloc, row.0)?;
    ends_so(alloc, origin, &there, row.1, row.2)
}

fn check(rt: &impl Abort, alloc: Global, origin: &PreparedStore, all: &[Case]) -> Result<(), Fail> {
    for row in all {
        assert!(rt; is_right(alloc, origin, row)?, "{}", row.2);
    }
    Ok(())
}

#[test]
fn an_arrival_is_copied_or_fails(rt: HostRuntime) -> Result<(), Fail> {
    let origin = origin(rt.alloc(), ALWAYS)?;
    check(&rt, rt.alloc(), &origin, &CASES)
}

// ---- failures in a row

// The moment of an arrival, and the one from which the schedule then sends again.
type Failure = (u64, u64);

const FAILURES: [Failure; 16] = [
    (28, 30),
    (36, 40),
    (44, 52),
    (56, 72),
    (76, 108),
    (112, 176),
    (180, 308),
    (312, 568),
    (572, 1084),
    (1088, 2112),
    (2116, 3140),
    (3144, 4168),
    (4172, 5196),
    (5200, 6224),
    (6228, 7252),
    (7256, 8280),
];

const OFF: There = There {
    queue: (QueueKind::Normal, false, 0),
    ..THERE
};

fn fail(origin: &mut PreparedStore, there: &PreparedStore, moment: u64) -> Result<(), Fail> {
    let arriving = calls::arrived(origin, there, 1, moment)?;
    Ok(commit(origin, arriving.origin)?)
}

fn is_waiting(origin: &PreparedStore, next: u64) -> bool {
    calls::picked(origin, next.saturating_sub(1)).is_none()
}

fn comes(origin: &PreparedStore, next: u64) -> bool {
    calls::picked(origin, next).is_some()
}

// Fails once more, and tells whether nothing is sent before that moment, and then something, unless it was the last failure.
fn goes_on(
    origin: &mut PreparedStore,
    there: &PreparedStore,
    row: &Failure,
    is_last: bool,
) -> Result<bool, Fail> {
    fail(origin, there, row.0)?;
    Ok(is_waiting(origin, row.1) && comes(origin, row.1) != is_last)
}

fn check_failures(
    rt: &impl Abort,
    origin: &mut PreparedStore,
    there: &PreparedStore,
    all: &[Failure],
) -> Result<(), Fail> {
    for row in all {
        assert!(rt; goes_on(origin, there, row, row.0 == 7256)?, "{}", row.0);
    }
    Ok(())
}

#[test]
fn sixteen_failures_in_a_row_disable_a_schedule(rt: HostRuntime) -> Result<(), Fail> {
    let mut origin = origin(
        rt.alloc(),
        Plan {
            start: 17,
            ..ALWAYS
        },
    )?;
    let there = destination(rt.alloc(), OFF)?;
    check_failures(&rt, &mut origin, &there, &FAILURES)
}
