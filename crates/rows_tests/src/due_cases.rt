// What is due at the moment 20.
use crate::rows::{Home, SlotOf, store_of};
use crate::{calls, texts};
use aq_base::DbId;
use message_store::PreparedStore;
use payload_records::{Boxed, Name};
use queue_rows::SlotRef;
use queue_rows::SlotState::{Dropped, Expired, Processed, Ready, Waiting};
use row_locks::RowLocks;
use slot_marks::{Group, Mark};
use std::alloc::Global;
use std::process::Abort;
use std::test::Fail;

/// What keeps a slot of the message 5 as it is.
#[derive(Clone, Copy)]
enum Left {
    Nothing,
    /// A session has a mark on the slot of that number, in no group.
    Marked(u32),
    /// A session has a mark on a slot of another message of its group.
    Grouped,
    /// The first slot of the message 5 of that database is sent.
    Sent(DbId),
}

// The slots of the messages 5 and 3, which stand in that order and are of one group; the one without slots is not there.
type Messages = (&'static [SlotOf<'static>], &'static [SlotOf<'static>]);

type Case = (Left, Messages, &'static str);

const CASES: [Case; 17] = [
    (
        Left::Nothing,
        (&[("", Waiting, 20, 0)], &[]),
        "ready 5.1 at 20;",
    ),
    (Left::Nothing, (&[("", Waiting, 21, 0)], &[]), ""),
    (
        Left::Nothing,
        (&[("", Ready, 1, 20)], &[]),
        "expired 5.1 at 20;moved 5 to m_e at 20;",
    ),
    (Left::Nothing, (&[("", Ready, 1, 21)], &[]), ""),
    (Left::Nothing, (&[("", Ready, 1, 0)], &[]), ""),
    (
        Left::Nothing,
        (&[("", Waiting, 20, 20)], &[]),
        "expired 5.1 at 20;moved 5 to m_e at 20;",
    ),
    (
        Left::Nothing,
        (&[("", Waiting, 21, 20)], &[]),
        "expired 5.1 at 20;moved 5 to m_e at 20;",
    ),
    (
        Left::Nothing,
        (&[("", Waiting, 20, 21)], &[]),
        "ready 5.1 at 20;",
    ),
    (
        Left::Nothing,
        (&[("", Processed, 13, 0), ("", Dropped, 19, 0)], &[]),
        "purged 5;",
    ),
    (
        Left::Nothing,
        (&[("", Processed, 14, 0), ("", Dropped, 1, 0)], &[]),
        "",
    ),
    (Left::Nothing, (&[("", Dropped, 19, 0)], &[]), "purged 5;"),
    (
        Left::Marked(1),
        (&[("", Ready, 1, 20), ("", Ready, 1, 20)], &[]),
        "expired 5.2 at 20;",
    ),
    (
        Left::Marked(2),
        (&[("", Ready, 1, 20), ("", Waiting, 20, 0)], &[]),
        "expired 5.1 at 20;",
    ),
    (
        Left::Grouped,
        (&[("", Ready, 1, 20)], &[("", Waiting, 20, 0)]),
        "",
    ),
    (Left::Sent(DbId::Home), (&[("", Ready, 1, 20)], &[]), ""),
    (
        Left::Sent(DbId::Away),
        (&[("", Ready, 1, 20)], &[]),
        "expired 5.1 at 20;moved 5 to m_e at 20;",
    ),
    (
        Left::Nothing,
        (
            &[
                ("", Expired, 1, 2),
                ("", Waiting, 19, 30),
                ("", Ready, 1, 12),
            ],
            &[("", Ready, 1, 11), ("", Processed, 1, 0)],
        ),
        "ready 5.2 at 20;expired 5.3 at 20;expired 3.1 at 20;moved 3 to m_e at 20;",
    ),
];

fn group(alloc: Global) -> Result<Boxed<Group>, Fail> {
    let queue = Name::read(alloc, "mq")?;
    let consumer = Name::read(alloc, "r")?;
    let group = Group {
        queue,
        number: 1,
        consumer: Some(consumer),
    };
    Ok(Boxed::new(alloc, group)?)
}

fn mark(id: u64, slot: u32, group: Option<Boxed<Group>>) -> Mark {
    Mark {
        id,
        slot,
        group,
        removed: true,
    }
}

fn take(locks: &mut RowLocks, alloc: Global, left: Left) -> Result<(), Fail> {
    match left {
        Left::Marked(slot) => Ok(locks.take(4, mark(5, slot, None)).ok().ok_or("held")?),
        Left::Grouped => {
            let group = group(alloc)?;
            Ok(locks.take(4, mark(9, 1, Some(group))).ok().ok_or("held")?)
        }
        _ => Ok(()),
    }
}

fn sent(left: Left) -> Option<SlotRef> {
    match left {
        Left::Sent(db) => Some(SlotRef { db, id: 5, slot: 1 }),
        _ => None,
    }
}

fn is_due(
    alloc: Global,
    store: &PreparedStore,
    locks: &RowLocks,
    row: &Case,
) -> Result<bool, Fail> {
    let sent = sent(row.0);
    let changes = calls::due_at_twenty(store, locks, sent.as_ref())?;
    Ok(texts::are_changes(alloc, &changes, row.2)?)
}

fn is_right(alloc: Global, locks: &RowLocks, row: &Case) -> Result<bool, Fail> {
    let both = [(5, "mq", 1, row.1.0), (3, "mq", 1, row.1.1)];
    let there = if row.1.1.is_empty() { 1 } else { 2 };
    let home = Home {
        retention: 7,
        schedules: &[],
        messages: &both[..there],
    };
    let store = store_of(alloc, &home)?;
    is_due(alloc, &store, locks, row)
}

fn holds(alloc: Global, row: &Case) -> Result<bool, Fail> {
    let mut locks = RowLocks::new(alloc);
    take(&mut locks, alloc, row.0)?;
    is_right(alloc, &locks, row)
}

fn check(rt: &impl Abort, alloc: Global, all: &[Case]) -> Result<(), Fail> {
    for row in all {
        assert!(rt; holds(alloc, row)?, "{}", row.2);
    }
    Ok(())
}

#[test]
fn each_edge(rt: HostRuntime) -> Result<(), Fail> {
    check(&rt, rt.alloc(), &CASES)
}
