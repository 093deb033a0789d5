// Who holds a slot or a group, and what is freed.
use payload_records::{Boxed, List, Name, NameFault};
use row_locks::{LockFault, RowLocks};
use slot_marks::{Group, Mark};
use std::alloc::Global;

fn group(alloc: Global, number: u64) -> Result<Boxed<Group>, NameFault> {
    let queue = Name::read(alloc, "q")?;
    let consumer = Some(Name::read(alloc, "c")?);
    let group = Group {
        queue,
        number,
        consumer,
    };
    Ok(Boxed::new(alloc, group)?)
}

fn mark(id: u64, group: Option<Boxed<Group>>) -> Mark {
    Mark {
        id,
        slot: 1,
        removed: false,
        group,
    }
}

fn grouped(alloc: Global, id: u64, number: Option<u64>) -> Result<Mark, NameFault> {
    match number {
        None => Ok(mark(id, None)),
        Some(number) => Ok(mark(id, Some(group(alloc, number)?))),
    }
}

// The session, the message, its group's number, and whether session 1 holds the slot or the group.
type Taking = (u32, u64, Option<u64>, bool);

const TAKEN: [Taking; 5] = [
    (1, 5, Some(3), false),
    (2, 5, None, true),
    (2, 6, Some(3), true),
    (2, 7, Some(4), false),
    (1, 8, Some(3), false),
];

fn takes(locks: &mut RowLocks, alloc: Global, row: &Taking) -> bool {
    match grouped(alloc, row.1, row.2) {
        Ok(mark) => match locks.take(row.0, mark) {
            Ok(()) => !row.3,
            Err(fault) => row.3 && fault == LockFault::Held(1),
        },
        Err(_) => false,
    }
}

fn takes_all(locks: &mut RowLocks, alloc: Global, rows: &[Taking]) -> bool {
    for row in rows {
        if !takes(locks, alloc, row) {
            return false;
        }
    }
    true
}

fn ids_are(marks: &List<Mark>, ids: &[u64]) -> bool {
    marks.len() == ids.len() && marks.iter().zip(ids).all(|(mark, id)| mark.id == *id)
}

fn frees(locks: &mut RowLocks, session: u32, ids: &[u64]) -> bool {
    let marks = locks.release_all(session);
    ids_are(&marks, ids)
}

// What session 1 held, session 2 can take once it is freed.
fn keeps(locks: &mut RowLocks, alloc: Global) -> bool {
    locks.reserve(1).is_ok()
        && takes_all(locks, alloc, &TAKEN)
        && frees(locks, 1, &[5, 8])
        && locks.reserve(2).is_ok()
        && takes(locks, alloc, &(2, 5, Some(3), false))
}

#[test]
fn a_slot_and_a_group_are_held_until_they_are_freed(rt: HostRuntime) {
    let mut locks = RowLocks::new(rt.alloc());
    assert!(rt; keeps(&mut locks, rt.alloc()));
}
