// Which slot is sent at which moment.
use crate::calls;
use crate::rows::{ALWAYS, Home, MessageOf, Plan, ScheduleTo, store_of};
use queue_rows::SlotState;
use std::alloc::Global;
use std::process::Abort;
use std::test::Fail;

// ---- when a schedule sends

const FROM_10: Plan = Plan {
    start: 10,
    ..ALWAYS
};

const FIVE_LONG: Plan = Plan {
    duration: Some(5),
    ..FROM_10
};

const EACH_20: Plan = Plan {
    period: Some(20),
    ..FIVE_LONG
};

const WHOLE_20: Plan = Plan {
    duration: Some(20),
    ..EACH_20
};

const EACH_SECOND: Plan = Plan {
    duration: Some(1),
    period: Some(1),
    ..FROM_10
};

const EACH_7: Plan = Plan {
    latency: 7,
    ..FROM_10
};

const EACH_7_OF_20: Plan = Plan {
    latency: 7,
    ..EACH_20
};

const WAITS: Plan = Plan {
    failures: 3,
    next: 30,
    ..FROM_10
};

const DISABLED: Plan = Plan {
    enabled: false,
    ..FROM_10
};

// The schedule, since when the slot is ready, the moment, and whether the slot is sent then.
type Time = (Plan, u64, u64, bool);

const TIMES: [Time; 39] = [
    (FROM_10, 5, 9, false),
    (FROM_10, 5, 10, true),
    (DISABLED, 5, 10, false),
    (WAITS, 5, 29, false),
    (WAITS, 5, 30, true),
    (FIVE_LONG, 5, 9, false),
    (FIVE_LONG, 5, 10, true),
    (FIVE_LONG, 5, 14, true),
    (FIVE_LONG, 5, 15, false),
    (FIVE_LONG, 5, 1000, false),
    (EACH_20, 5, 9, false),
    (EACH_20, 5, 14, true),
    (EACH_20, 5, 15, false),
    (EACH_20, 5, 29, false),
    (EACH_20, 5, 30, true),
    (EACH_20, 5, 34, true),
    (EACH_20, 5, 35, false),
    (WHOLE_20, 5, 9, false),
    (WHOLE_20, 5, 29, true),
    (WHOLE_20, 5, 30, true),
    (EACH_SECOND, 5, 15, true),
    // it sends at 10, 17, 24, 31
    (EACH_7, 3, 10, true),
    (EACH_7, 10, 10, true),
    (EACH_7, 11, 11, false),
    (EACH_7, 11, 14, false),
    (EACH_7, 11, 16, false),
    (EACH_7, 11, 17, true),
    (EACH_7, 11, 18, true),
    (EACH_7, 17, 17, true),
    (EACH_7, 18, 21, false),
    (EACH_7, 18, 23, false),
    (EACH_7, 18, 24, true),
    (EACH_7, 18, 30, true),
    // and its duration passes before 17 and 24
    (EACH_7_OF_20, 11, 14, false),
    (EACH_7_OF_20, 11, 17, false),
    (EACH_7_OF_20, 11, 24, false),
    (EACH_7_OF_20, 11, 30, true),
    (EACH_7_OF_20, 25, 30, false),
    (EACH_7_OF_20, 25, 31, true),
];

// Whether the slot of the message 7, ready since then, is picked.
fn is_picked(alloc: Global, plan: Plan, since: u64, moment: u64) -> Result<bool, Fail> {
    let home = Home {
        retention: 0,
        schedules: &[("inq", plan)],
        messages: &[(7, "mq", 0, &[("inq", SlotState::Ready, since, 99)])],
    };
    let store = store_of(alloc, &home)?;
    Ok(calls::picked(&store, moment).is_some())
}

fn is_right(alloc: Global, row: &Time) -> Result<bool, Fail> {
    Ok(is_picked(alloc, row.0, row.1, row.2)? == row.3)
}

fn check_times(rt: &impl Abort, alloc: Global, all: &[Time]) -> Result<(), Fail> {
    for row in all {
        assert!(rt; is_right(alloc, row)?, "{} {}", row.1, row.2);
    }
    Ok(())
}

#[test]
fn a_schedule_sends_in_its_time(rt: HostRuntime) -> Result<(), Fail> {
    check_times(&rt, rt.alloc(), &TIMES)
}

// ---- which of them

// The schedules, the messages, and the message and the slot that are sent; 0 where none is.
type Choice = (
    &'static [ScheduleTo<'static>],
    &'static [MessageOf<'static>],
    (u64, u32),
);

const TO_INQ: &[ScheduleTo<'static>] = &[("inq", ALWAYS)];

const TO_BOTH: &[ScheduleTo<'static>] = &[("inq", ALWAYS), ("xq", ALWAYS)];

const CHOICES: [Choice; 9] = [
    (TO_INQ, &[], (0, 0)),
    // the least place
    (
        TO_INQ,
        &[
            (1, "mq", 9, &[("inq", SlotState::Ready, 1, 99)]),
            (2, "mq", 5, &[("inq", SlotState::Ready, 1, 99)]),
            (3, "mq", 7, &[("inq", SlotState::Ready, 1, 99)]),
        ],
        (2, 1),
    ),
    // of those with a slot that is ready
    (
        TO_INQ,
        &[
            (1, "mq", 9, &[("inq", SlotState::Ready, 1, 99)]),
            (2, "mq", 5, &[("inq", SlotState::Waiting, 1, 99)]),
            (3, "mq", 6, &[("inq", SlotState::Processed, 1, 99)]),
        ],
        (1, 1),
    ),
    // the first slot that goes there
    (
        TO_INQ,
        &[(
            1,
            "mq",
            9,
            &[
                ("", SlotState::Ready, 1, 99),
                ("xq", SlotState::Ready, 1, 99),
                ("inq", SlotState::Expired, 1, 99),
                ("inq", SlotState::Ready, 1, 99),
                ("inq", SlotState::Ready, 1, 99),
            ],
        )],
        (1, 4),
    ),
    // a message of another queue
    (
        TO_INQ,
        &[(1, "nq", 9, &[("inq", SlotState::Ready, 1, 99)])],
        (0, 0),
    ),
    // the first schedule goes before the least place
    (
        TO_BOTH,
        &[
            (1, "mq", 5, &[("xq", SlotState::Ready, 1, 99)]),
            (2, "mq", 9, &[("inq", SlotState::Ready, 1, 99)]),
        ],
        (2, 1),
    ),
    // the second one sends where the first has nothing to send
    (
        TO_BOTH,
        &[(1, "mq", 5, &[("xq", SlotState::Ready, 1, 99)])],
        (1, 1),
    ),
    // or is not open
    (
        &[("inq", DISABLED), ("xq", ALWAYS)],
        &[
            (1, "mq", 5, &[("inq", SlotState::Ready, 1, 99)]),
            (2, "mq", 9, &[("xq", SlotState::Ready, 1, 99)]),
        ],
        (2, 1),
    ),
    // no schedule goes there
    (
        TO_BOTH,
        &[(1, "mq", 5, &[("", SlotState::Ready, 1, 99)])],
        (0, 0),
    ),
];

fn chosen(alloc: Global, row: &Choice) -> Result<(u64, u32), Fail> {
    let home = Home {
        retention: 0,
        schedules: row.0,
        messages: row.1,
    };
    let store = store_of(alloc, &home)?;
    Ok(calls::picked(&store, 50).unwrap_or((0, 0)))
}

fn is_chosen(alloc: Global, row: &Choice) -> Result<bool, Fail> {
    let (id, slot) = chosen(alloc, row)?;
    Ok(id == row.2.0 && slot == row.2.1)
}

fn check_choices(rt: &impl Abort, alloc: Global, all: &[Choice]) -> Result<(), Fail> {
    for row in all {
        assert!(rt; is_chosen(alloc, row)?, "{}", row.2.0);
    }
    Ok(())
}

#[test]
fn one_slot_is_picked(rt: HostRuntime) -> Result<(), Fail> {
    check_choices(&rt, rt.alloc(), &CHOICES)
}
