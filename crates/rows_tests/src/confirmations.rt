// What is committed at the origin when a slot has come to its destination.
use crate::rows::{ALWAYS, Home, Plan, SlotOf, store_of};
use crate::{calls, texts};
use message_store::PreparedStore;
use queue_rows::SlotState;
use std::alloc::Global;
use std::process::Abort;
use std::test::Fail;

const FAILED: Plan = Plan {
    failures: 3,
    next: 40,
    ..ALWAYS
};

const DISABLED: Plan = Plan {
    enabled: false,
    ..FAILED
};

// The slots of the message, how long its queue keeps what was taken, the schedule, and what is committed at the moment 60.
type Case = (&'static [SlotOf<'static>], u64, Plan, &'static str);

const ALONE: &[SlotOf<'static>] = &[("inq", SlotState::Ready, 1, 99)];

const CASES: [Case; 6] = [
    (ALONE, 0, ALWAYS, "done 7.1 at 60;purged 7;"),
    (
        ALONE,
        0,
        FAILED,
        "done 7.1 at 60;schedule true 0 40;purged 7;",
    ),
    (
        ALONE,
        0,
        DISABLED,
        "done 7.1 at 60;schedule false 0 40;purged 7;",
    ),
    // its queue keeps it
    (ALONE, 9, ALWAYS, "done 7.1 at 60;"),
    // another one may take it
    (
        &[
            ("inq", SlotState::Ready, 1, 99),
            ("", SlotState::Ready, 1, 99),
        ],
        0,
        ALWAYS,
        "done 7.1 at 60;",
    ),
    // another one has lost it
    (
        &[
            ("inq", SlotState::Ready, 1, 99),
            ("", SlotState::Expired, 1, 99),
        ],
        0,
        ALWAYS,
        "done 7.1 at 60;moved 7 to m_e at 60;",
    ),
];

fn commits(alloc: Global, origin: &PreparedStore, text: &str) -> Result<bool, Fail> {
    let changes = calls::confirmed(origin, 60)?;
    Ok(texts::are_changes(alloc, &changes, text)?)
}

fn is_right(alloc: Global, row: &Case) -> Result<bool, Fail> {
    let home = Home {
        retention: row.1,
        schedules: &[("inq", row.2)],
        messages: &[(7, "mq", 9, row.0)],
    };
    let origin = store_of(alloc, &home)?;
    commits(alloc, &origin, row.3)
}

fn check(rt: &impl Abort, alloc: Global, all: &[Case]) -> Result<(), Fail> {
    for row in all {
        assert!(rt; is_right(alloc, row)?, "{}", row.3);
    }
    Ok(())
}

#[test]
fn a_confirmation_commits_what_it_settles(rt: HostRuntime) -> Result<(), Fail> {
    check(&rt, rt.alloc(), &CASES)
}
