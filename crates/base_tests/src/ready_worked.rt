// Rows whose order was worked out by hand.
ghost use Rattle.std.specs.Prelude.{◌≡◌, ◌+◌, ◌<◌};

use crate::ready_rows::{Key, Row, is_row, key_of, put, take, take_out};
use sort_index::{ReadyIndex, Steps};
use std::alloc::Global;
use std::marker::Brand;
use std::process::Abort;
use std::sync::ledger::{Blank, Ledger};
use std::test::Fail;

// The number of the queue and consumer, the last number of the place, the id and the slot.
type Listed = (u64, i64, u64, u32);

fn row_of(listed: &Listed) -> Row {
    Row {
        names: listed.0,
        place: listed.1,
        id: listed.2,
        slot: listed.3,
    }
}

fn put_all(index: &mut ReadyIndex, alloc: Global, rows: &[Listed]) -> Result<(), Fail> {
    for listed in rows {
        let _none = put(index, alloc, &row_of(listed))?;
    }
    Ok(())
}

// ---- what is told

// The number of the queue and consumer, and the slot that is told as their first.
type First = (u64, Option<(u64, u32)>);

fn has_first(index: &ReadyIndex, alloc: Global, first: &First) -> Result<bool, Fail> {
    let key = key_of(alloc, first.0, 0)?;
    Ok(index.first(&key.queue, key.consumer.as_ref()) == first.1)
}

// The number of the queue and consumer, the last number of a place, and the slot that is told as the next past it.
type Next = (u64, i64, Option<(u64, u32)>);

fn has_next<L: Ledger>(
    index: &ReadyIndex,
    alloc: Global,
    next: &Next,
    steps: &mut Steps<L>,
) -> Result<bool, Fail> {
    let key = key_of(alloc, next.0, next.1)?;
    let told = index.next(&key.queue, key.consumer.as_ref(), Some(&key.place), steps);
    Ok(told == next.2)
}

// A row, and the one that is given as the next past its place and its id.
type NextRow = (Listed, Option<Listed>);

fn has_next_row<L: Ledger>(
    index: &ReadyIndex,
    alloc: Global,
    next: &NextRow,
    steps: &mut Steps<L>,
) -> Result<bool, Fail> {
    let from = row_of(&next.0);
    let key = key_of(alloc, from.names, from.place)?;
    let after = Some((&key.place, from.id));
    let row = index.next_row(&key.queue, key.consumer.as_ref(), after, steps);
    Ok(is_row(row, next.1.as_ref().map(row_of)))
}

fn check_firsts(
    rt: &impl Abort,
    alloc: Global,
    index: &ReadyIndex,
    firsts: &[First],
) -> Result<(), Fail> {
    for first in firsts {
        assert!(rt; has_first(index, alloc, first)?, "{first:?}");
    }
    Ok(())
}

fn check_next<L: Ledger>(
    rt: &impl Abort,
    alloc: Global,
    index: &ReadyIndex,
    all: &[Next],
    steps: &mut Steps<L>,
) -> Result<(), Fail> {
    for next in all {
        assert!(rt; has_next(index, alloc, next, steps)?, "{next:?}");
    }
    Ok(())
}

fn check_next_rows<L: Ledger>(
    rt: &impl Abort,
    alloc: Global,
    index: &ReadyIndex,
    all: &[NextRow],
    steps: &mut Steps<L>,
) -> Result<(), Fail> {
    for next in all {
        assert!(rt; has_next_row(index, alloc, next, steps)?, "{next:?}");
    }
    Ok(())
}

// ---- one row at each place

const ONE_EACH: [Listed; 2] = [(0, 1, 1, 1), (0, 2, 2, 1)];

const FIRST_OF_EACH: [First; 2] = [(0, Some((1, 1))), (1, None)];

const NEXT_OF_EACH: [Next; 3] = [(0, 0, Some((1, 1))), (0, 1, Some((2, 1))), (0, 2, None)];

// ---- more rows at a place, and other queues and consumers

const MORE: [Listed; 6] = [
    (0, 2, 2, 1),
    (0, 1, 7, 1),
    (0, 1, 3, 2),
    (1, 0, 1, 3),
    (2, 0, 9, 4),
    (3, 4, 4, 5),
];

const FIRST_OF_MORE: [First; 4] = [
    (0, Some((3, 2))),
    (1, Some((1, 3))),
    (2, Some((9, 4))),
    (3, Some((4, 5))),
];

const NEXT_OF_MORE: [Next; 4] = [
    (0, 0, Some((3, 2))),
    (0, 1, Some((2, 1))),
    (0, 2, None),
    (2, 0, None),
];

const ROWS_OF_MORE: [NextRow; 7] = [
    ((0, 0, 9, 0), Some((0, 1, 3, 2))),
    ((0, 1, 3, 0), Some((0, 1, 7, 1))),
    ((0, 1, 5, 0), Some((0, 1, 7, 1))),
    ((0, 1, 7, 0), Some((0, 2, 2, 1))),
    ((0, 2, 2, 0), None),
    ((1, 0, 0, 0), Some((1, 0, 1, 3))),
    ((3, 4, 4, 0), None),
];

// ---- what is taken

// A row, and the slot that is told where it is taken.
const TAKEN: [(Listed, Option<u32>); 4] = [
    ((0, 1, 5, 0), None),
    ((0, 1, 7, 0), Some(1)),
    ((0, 1, 7, 0), None),
    ((1, 1, 3, 0), None),
];

fn check_taken(rt: &impl Abort, alloc: Global, index: &mut ReadyIndex) -> Result<(), Fail> {
    for (listed, wanted) in TAKEN {
        let taken = take(index, alloc, &row_of(&listed))?;
        assert!(rt; taken == wanted, "{listed:?}");
    }
    Ok(())
}

const LEFT: [First; 4] = [
    (0, Some((3, 2))),
    (1, Some((1, 3))),
    (2, Some((9, 4))),
    (3, Some((4, 5))),
];

// Once the first row at place 1 is taken out.
const LEFT_LATER: [First; 2] = [(0, Some((2, 1))), (1, Some((1, 3)))];

fn check_each<L: Ledger>(rt: &impl Abort, alloc: Global, blank: Blank) -> Result<(), Fail>
    requires name { blank.name ≡ L.name }
    requires parts { blank.parts ≡ L.parts }
    requires some { 0 < blank.parts }
{
    let mut steps = Steps::<L>::new(blank);
    let mut index = ReadyIndex::new(alloc);
    put_all(&mut index, alloc, &ONE_EACH)?;
    check_firsts(rt, alloc, &index, &FIRST_OF_EACH)?;
    check_next(rt, alloc, &index, &NEXT_OF_EACH, &mut steps)
}

fn check_more<L: Ledger>(rt: &impl Abort, alloc: Global, blank: Blank) -> Result<(), Fail>
    requires name { blank.name ≡ L.name }
    requires parts { blank.parts ≡ L.parts }
    requires some { 0 < blank.parts }
{
    let mut steps = Steps::<L>::new(blank);
    let mut index = ReadyIndex::new(alloc);
    put_all(&mut index, alloc, &MORE)?;
    check_firsts(rt, alloc, &index, &FIRST_OF_MORE)?;
    check_next(rt, alloc, &index, &NEXT_OF_MORE, &mut steps)?;
    check_next_rows(rt, alloc, &index, &ROWS_OF_MORE, &mut steps)
}

fn check_left(rt: &impl Abort, alloc: Global, index: &mut ReadyIndex) -> Result<(), Fail> {
    put_all(index, alloc, &MORE)?;
    check_taken(rt, alloc, index)?;
    check_firsts(rt, alloc, index, &LEFT)?;
    take_out(index, alloc, &row_of(&MORE[2]))?;
    check_firsts(rt, alloc, index, &LEFT_LATER)
}

#[test]
fn rows_stand_in_the_order_of_their_places(rt: HostRuntime) -> Result<(), Fail> {
    check_each::<Brand>(&rt, rt.alloc(), Blank::new(1))
}

#[test]
fn rows_at_one_place_stand_in_the_order_of_their_ids(rt: HostRuntime) -> Result<(), Fail> {
    check_more::<Brand>(&rt, rt.alloc(), Blank::new(1))
}

#[test]
fn a_row_at_a_place_is_taken_by_its_id(rt: HostRuntime) -> Result<(), Fail> {
    let mut index = ReadyIndex::new(rt.alloc());
    check_left(&rt, rt.alloc(), &mut index)
}
