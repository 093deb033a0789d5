// The rows that are due.
use crate::numbers::next;
use due_index::DueIndex;
use std::alloc::Global;
use std::process::Abort;
use std::test::Fail;

// A moment, a message and a slot.
type Row = (u64, u64, u32);

// Puts a row in that is taken out before, where it is there.
#[tactic(auto, using(due_index::specs::DueLaws::others_differ))]
fn put_anew(index: &mut DueIndex, row: Row) -> Result<(), Fail> {
    let (moment, id, slot) = row;
    index.reserve(1)?;
    index.take_out(moment, id, slot);
    index.put(moment, id, slot);
    Ok(())
}

fn is_told(index: &DueIndex, from: Option<Row>, moment: u64, wanted: Option<Row>) -> bool {
    match from {
        None => index.due(moment) == wanted,
        Some(row) => index.after(row, moment) == wanted,
    }
}

// ---- one row

// A row to look behind, where there is one, the moment, and what is told.
type Asked = (Option<Row>, u64, Option<Row>);

const ROW: Row = (5, 1, 1);

const ASKED: [Asked; 7] = [
    (None, 4, None),
    (None, 5, Some(ROW)),
    (Some(ROW), 9, None),
    (Some((5, 1, 0)), 5, Some(ROW)),
    (Some((5, 0, 9)), 5, Some(ROW)),
    (Some((4, 9, 9)), 4, None),
    (Some((5, 2, 0)), 9, None),
];

fn check_asked(rt: &impl Abort, index: &DueIndex, asked: &[Asked]) {
    for (from, moment, wanted) in asked {
        assert!(rt;
            is_told(index, *from, *moment, *wanted),
            "at {moment} from {from:?}"
        );
    }
}

#[test]
fn a_row_is_due_from_its_moment_on(rt: HostRuntime) -> Result<(), Fail> {
    let mut index = DueIndex::new(rt.alloc());
    put_anew(&mut index, ROW)?;
    check_asked(&rt, &index, &ASKED);
    Ok(())
}

// ---- rows that come and go

const STEPS: u32 = 300;

// One of 96 rows.
fn row_of(number: u64) -> Row {
    (number % 8, number / 8 % 4, (number / 32 % 3) as u32)
}

// The least row behind a row, where one is given, and at or before a moment.
fn least(rows: &[Row], from: Option<Row>, moment: u64) -> Option<Row> {
    rows.iter()
        .copied()
        .filter(|row| row.0 <= moment && Some(*row) > from)
        .min()
}

fn step(index: &mut DueIndex, rows: &mut Vec<Row>, number: u64) -> Result<(), Fail> {
    let row = row_of(number);
    rows.retain(|other| *other != row);
    if number / 96 % 3 == 0 {
        index.take_out(row.0, row.1, row.2);
        return Ok(());
    }
    put_anew(index, row)?;
    rows.push(row)?;
    Ok(())
}

fn agrees(index: &DueIndex, rows: &[Row], from: Row, moment: u64) -> bool {
    is_told(index, None, moment, least(rows, None, moment))
        && is_told(index, Some(from), moment, least(rows, Some(from), moment))
}

fn check_steps(
    rt: &impl Abort,
    index: &mut DueIndex,
    rows: &mut Vec<Row>,
    seed: u64,
) -> Result<(), Fail> {
    let mut state = seed;
    for _ in 0..STEPS {
        state = next(state);
        step(index, rows, state >> 40)?;
        let from = row_of(state >> 48);
        assert!(rt; agrees(index, rows, from, state >> 61), "seed {seed}");
    }
    Ok(())
}

// Whether a walk over the index meets the rows in their order.
fn is_walked(index: &DueIndex, rows: &[Row]) -> bool {
    let mut at = None;
    for _ in rows {
        let wanted = least(rows, at, u64::MAX);
        if !is_told(index, at, u64::MAX, wanted) {
            return false;
        }
        at = wanted;
    }
    is_told(index, at, u64::MAX, None)
}

fn check_seed(rt: &impl Abort, alloc: Global, seed: u64) -> Result<(), Fail> {
    let mut index = DueIndex::new(alloc);
    let mut rows = Vec::new(alloc);
    check_steps(rt, &mut index, &mut rows, seed)?;
    assert!(rt; is_walked(&index, &rows), "seed {seed}");
    Ok(())
}

#[test]
fn rows_come_and_go(rt: HostRuntime) -> Result<(), Fail> {
    for seed in 0..5 {
        check_seed(&rt, rt.alloc(), seed)?;
    }
    Ok(())
}
