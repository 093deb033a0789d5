// Commits over the same tables, each judged by what it names and by all rows.
use crate::asked_changes::{Asked, changes};
use commit_fits::{is_local, stays_valid};
use message_store::Store;
use payload_records::{List, NameFault};
use queue_rows::Change;
use std::alloc::{AllocError, Global};
use std::process::Abort;
use valid_tables::{is_valid, names_what_is_there};

// ---- commits, change by change

const MOMENT: u64 = 4;

fn name_what_is_there(store: &Store, changes: &List<Change>) -> bool {
    for change in changes {
        if !names_what_is_there(store, change) {
            return false;
        }
    }
    true
}

fn are_local(store: &Store, changes: &List<Change>) -> Result<bool, AllocError> {
    for change in changes {
        if !is_local(store.tables(), change)? {
            return Ok(false);
        }
    }
    Ok(true)
}

// Where each names what is there they are made; then it is told whether each was local.
fn make(store: &mut Store, changes: &List<Change>) -> Result<Option<bool>, AllocError> {
    if !name_what_is_there(store, changes) {
        return Ok(None);
    }
    let local = are_local(store, changes)?;
    store.commit(changes, MOMENT)?;
    Ok(Some(local))
}

fn make_one(store: &mut Store, alloc: Global, asked: &[Asked]) -> Result<Option<bool>, NameFault> {
    let changes = changes(alloc, asked)?;
    Ok(make(store, &changes)?)
}

fn make_all(store: &mut Store, alloc: Global, all: &[Asked]) -> Result<Option<bool>, NameFault> {
    let mut local = true;
    for asked in all.chunks(1) {
        let Some(one) = make_one(store, alloc, asked)? else {
            return Ok(None);
        };
        local = local && one;
    }
    Ok(Some(local))
}

// ---- the answer

#[derive(Clone, Copy, PartialEq, Eq)]
enum Told {
    Fits,
    Invalid,
    Misnamed,
    // The two judgements differ.
    Wrong,
}

// Whether the tables are valid, where both judgements say the same.
fn judged(
    store: &Store,
    alloc: Global,
    changes: &List<Change>,
    local: bool,
) -> Result<Told, AllocError> {
    let valid = is_valid(alloc, store.tables())?;
    let stays = stays_valid(alloc, store, changes, local)?;
    Ok(match (valid, stays) {
        (true, true) => Told::Fits,
        (false, false) => Told::Invalid,
        _ => Told::Wrong,
    })
}

fn judged_by(store: &Store, alloc: Global, all: &[Asked], local: bool) -> Result<Told, NameFault> {
    let changes = changes(alloc, all)?;
    Ok(judged(store, alloc, &changes, local)?)
}

fn judgement(store: &mut Store, alloc: Global, all: &[Asked]) -> Result<Told, NameFault> {
    match make_all(store, alloc, all)? {
        Some(local) => judged_by(store, alloc, all, local),
        None => Ok(Told::Misnamed),
    }
}

fn is_told(store: &mut Store, alloc: Global, all: &[Asked], wanted: Told) -> bool {
    match judgement(store, alloc, all) {
        Ok(told) => told == wanted,
        Err(_) => false,
    }
}

fn is_judged(alloc: Global, case: &Case) -> bool {
    let mut store = Store::new(alloc);
    is_told(&mut store, alloc, &BEFORE, Told::Fits) && is_told(&mut store, alloc, case.0, case.1)
}

// ---- cases

// A queue with two messages, in tables that are valid.
const BEFORE: [Asked; 5] = [
    Asked::Table("t"),
    Asked::Queue("t_e", true),
    Asked::Queue("q", false),
    Asked::Message(1, "q", 0),
    Asked::Message(2, "q", -1),
];

type Case = (&'static [Asked], Told);

const CASES: [Case; 59] = [
    (&[], Told::Fits),
    (&[Asked::Message(3, "q", -2)], Told::Fits),
    (&[Asked::Message(2, "q", 0)], Told::Misnamed),
    (&[Asked::Message(3, "none", 0)], Told::Invalid),
    (&[Asked::Message(3, "q", -5)], Told::Invalid),
    (
        &[Asked::Message(3, "q", -5), Asked::Purged(3)],
        Told::Invalid,
    ),
    (&[Asked::Retried(1, 2)], Told::Fits),
    (&[Asked::Retried(1, 3)], Told::Invalid),
    (&[Asked::Retried(1, 3), Asked::Expired(1)], Told::Fits),
    (&[Asked::Retried(1, 3), Asked::Purged(1)], Told::Fits),
    (&[Asked::Done(1, 1, 4)], Told::Fits),
    (&[Asked::Done(1, 1, 5)], Told::Invalid),
    (&[Asked::Done(9, 1, 4)], Told::Misnamed),
    (&[Asked::Moved(1, "t_e", 4)], Told::Invalid),
    (&[Asked::Expired(1), Asked::Moved(1, "t_e", 4)], Told::Fits),
    (&[Asked::Expired(1), Asked::Moved(1, "q", 4)], Told::Invalid),
    (&[Asked::Purged(1), Asked::Done(1, 1, 4)], Told::Misnamed),
    (&[Asked::Seen(2)], Told::Fits),
    (&[Asked::Seen(3)], Told::Invalid),
    (&[Asked::Seen(2), Asked::Seen(1)], Told::Misnamed),
    (&[Asked::Sub("q")], Told::Fits),
    (&[Asked::Sub("t_e")], Told::Invalid),
    (&[Asked::Schedule("q", 15)], Told::Fits),
    (&[Asked::Schedule("q", 16)], Told::Invalid),
    (&[Asked::Queue("r", false)], Told::Fits),
    (
        &[Asked::Queue("r", false), Asked::Message(3, "r", -2)],
        Told::Fits,
    ),
    (&[Asked::Queue("t_e", true)], Told::Fits),
    (&[Asked::Queue("t_e", false)], Told::Invalid),
    (&[Asked::Queue("q", true)], Told::Invalid),
    (&[Asked::Queue("q", false)], Told::Invalid),
    (&[Asked::NoQueue("q"), Asked::Queue("q", false)], Told::Fits),
    (&[Asked::NoQueue("q")], Told::Fits),
    (&[Asked::NoQueue("t_e")], Told::Invalid),
    (&[Asked::Next(3)], Told::Fits),
    (&[Asked::Next(2)], Told::Invalid),
    (&[Asked::Allows(3)], Told::Fits),
    (&[Asked::Allows(3), Asked::Retried(1, 3)], Told::Fits),
    (&[Asked::Retried(1, 2), Asked::Allows(1)], Told::Invalid),
    (&[Asked::Allows(1)], Told::Fits),
    (&[Asked::Allows(2_147_483_647)], Told::Fits),
    (&[Asked::Allows(2_147_483_648)], Told::Invalid),
    (
        &[Asked::NoQueue("q"), Asked::Message(3, "q", 0)],
        Told::Invalid,
    ),
    (
        &[
            Asked::Sub("q"),
            Asked::Schedule("q", 0),
            Asked::NoQueue("q"),
        ],
        Told::Fits,
    ),
    (&[Asked::NoQueue("q"), Asked::Sub("q")], Told::Invalid),
    (
        &[Asked::NoQueue("t_e"), Asked::Queue("t_e", true)],
        Told::Fits,
    ),
    (
        &[
            Asked::Expired(1),
            Asked::Moved(1, "t_e", 4),
            Asked::NoQueue("q"),
        ],
        Told::Fits,
    ),
    (&[Asked::Table("u"), Asked::Other("u_e", true)], Told::Fits),
    (&[Asked::Other("u_e", true), Asked::Table("u")], Told::Fits),
    (&[Asked::Table("u")], Told::Invalid),
    (&[Asked::Other("u_e", true)], Told::Invalid),
    (
        &[Asked::Table("u"), Asked::Other("u_e", false)],
        Told::Invalid,
    ),
    (
        &[Asked::Table("u"), Asked::Queue("u_e", true)],
        Told::Invalid,
    ),
    (&[Asked::Table("t")], Told::Fits),
    (&[Asked::NoTable("t")], Told::Invalid),
    (&[Asked::NoTable("u")], Told::Misnamed),
    (&[Asked::NoQueue("q"), Asked::NoTable("t")], Told::Fits),
    (
        &[
            Asked::Expired(1),
            Asked::Moved(1, "t_e", 4),
            Asked::NoQueue("q"),
            Asked::NoTable("t"),
        ],
        Told::Invalid,
    ),
    (
        &[
            Asked::Table("u"),
            Asked::Other("u_e", true),
            Asked::NoTable("u"),
        ],
        Told::Fits,
    ),
    (
        &[
            Asked::Queue("u_e", false),
            Asked::Sub("u_e"),
            Asked::Table("u"),
            Asked::NoTable("u"),
        ],
        Told::Invalid,
    ),
];

fn check(rt: &impl Abort, alloc: Global, cases: &[Case]) {
    for (at, case) in cases.iter().enumerate() {
        assert!(rt; is_judged(alloc, case), "case {at}");
    }
}

#[test]
fn commits_are_judged_by_what_they_name(rt: HostRuntime) {
    check(&rt, rt.alloc(), &CASES);
}
