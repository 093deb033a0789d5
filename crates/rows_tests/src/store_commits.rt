// Commits made one after another, and what the tables then hold, as short texts.
use crate::asked_changes::{Asked, changes};
use message_store::Store;
use named_list::NamedList;
use payload_records::{List, NameFault};
use queue_rows::{MsgRow, QueueRow, SlotRow, SlotState, Tables};
use row_tree::Tree;
use std::alloc::{AllocError, Global};
use std::process::Abort;

// ---- what the tables hold

/// The letter of a slot's state: R, W, P, E or D.
fn letter(state: SlotState) -> &'static str {
    match state {
        SlotState::Ready => "R",
        SlotState::Waiting => "W",
        SlotState::Processed => "P",
        SlotState::Expired => "E",
        SlotState::Dropped => "D",
    }
}

// The slots of a message, each with its state and the moment of it.
fn put_slots(out: &mut String, slots: &List<SlotRow>) -> Result<(), AllocError> {
    for slot in slots {
        let letter = letter(slot.state);
        let at = slot.at;
        write!(out, " {letter}{at}")?;
    }
    Ok(())
}

fn put_messages(out: &mut String, messages: &Tree<MsgRow>) -> Result<(), AllocError> {
    for message in messages {
        let id = message.id;
        let queue = message.queue.as_str();
        write!(out, "{id}.{queue}")?;
        put_slots(out, &message.slots)?;
        out.push_str(", ")?;
    }
    Ok(())
}

fn put_queues(out: &mut String, queues: &NamedList<QueueRow>) -> Result<(), AllocError> {
    for queue in queues {
        let name = queue.name.as_str();
        let lowest = queue.lowest;
        write!(out, "{name}:{lowest} ")?;
    }
    Ok(())
}

fn put_tables(out: &mut String, tables: &Tables) -> Result<(), AllocError> {
    put_queues(out, &tables.queues)?;
    out.push_str("| ")?;
    put_messages(out, &tables.messages)?;
    let (next, transaction, latest) = (tables.next, tables.transaction, tables.latest);
    write!(out, "| {next} {transaction} {latest}")
}

fn are_shown(alloc: Global, tables: &Tables, text: &str) -> Result<bool, AllocError> {
    let mut out = String::new(alloc);
    put_tables(&mut out, tables)?;
    Ok(out.as_str() == text)
}

// ---- cases

// The changes of a commit, its moment, and then the queues with their lowest lanes, the messages with their slots, and
// the counters.
type Case = (&'static [Asked], u64, &'static str);

const COMMITS: [Case; 6] = [
    (&[], 99, "| | 1 1 0"),
    (
        &[Asked::Queue("q", false), Asked::Queue("t_e", false)],
        5,
        "q:0 t_e:0 | | 1 1 5",
    ),
    (
        &[Asked::Message(1, "q", -2), Asked::Message(2, "q", 3)],
        7,
        "q:-2 t_e:0 | 1.q R1, 2.q R1, | 3 2 7",
    ),
    (
        &[Asked::Waits(1), Asked::Done(2, 1, 6), Asked::Done(9, 1, 6)],
        8,
        "q:-2 t_e:0 | 1.q W20, 2.q P6, | 3 2 8",
    ),
    (
        &[
            Asked::Moved(1, "t_e", 9),
            Asked::Purged(2),
            Asked::Message(3, "q", 0),
            Asked::Moved(3, "t_e", 12),
            Asked::Moved(3, "t_e", 13),
        ],
        13,
        "q:-2 t_e:-2 | 1.t_e W20 R9, 3.t_e R1 R12 R13, | 4 2 13",
    ),
    (
        &[
            Asked::Done(1, 0, 6),
            Asked::Message(4, "q", 1),
            Asked::NoQueue("q"),
            Asked::NoTable("t"),
        ],
        6,
        "t_e:-2 | 1.t_e W20 P6, 3.t_e R1 R12 R13, | 5 2 13",
    ),
];

fn leaves(store: &mut Store, alloc: Global, case: &Case) -> Result<bool, NameFault> {
    let changes = changes(alloc, case.0)?;
    store.commit(&changes, case.1)?;
    Ok(are_shown(alloc, store.tables(), case.2)?)
}

fn check(
    rt: &impl Abort,
    alloc: Global,
    store: &mut Store,
    cases: &[Case],
) -> Result<(), NameFault> {
    for case in cases {
        assert!(rt; leaves(store, alloc, case)?, "{}", case.2);
    }
    Ok(())
}

#[test]
fn commits_leave_what_they_say(rt: HostRuntime) -> Result<(), NameFault> {
    let mut store = Store::new(rt.alloc());
    check(&rt, rt.alloc(), &mut store, &COMMITS)
}
