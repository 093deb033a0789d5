// Puts and takes at random, beside a plain list.
ghost use Rattle.std.specs.Prelude.{◌≡◌, ◌<◌};

use crate::ready_plain;
use crate::ready_rows::{ALL_NAMES, Key, Row, is_row, key_of, put, take, take_out, told};
use sort_index::{ReadyIndex, Steps};
use std::alloc::Global;
use std::marker::Brand;
use std::sync::ledger::{Blank, Ledger};
use std::test::Fail;

fn next_random(seed: &mut u64) -> u64 {
    *seed = seed
        .wrapping_mul(6_364_136_223_846_793_005)
        .wrapping_add(1_442_695_040_888_963_407);
    *seed >> 33
}

fn random_row(seed: &mut u64) -> Row {
    let names = next_random(seed) % ALL_NAMES;
    let place = (next_random(seed) % 8) as i64;
    let id = next_random(seed) % 4;
    let slot = (next_random(seed) % 100) as u32;
    Row {
        names,
        place,
        id,
        slot,
    }
}

// ---- one change in both

fn puts_alike(
    index: &mut ReadyIndex,
    rows: &mut Vec<Row>,
    alloc: Global,
    row: &Row,
) -> Result<bool, Fail> {
    let wanted = ready_plain::slot_of(rows, row);
    ready_plain::put(rows, row)?;
    Ok(put(index, alloc, row)? == wanted)
}

fn takes_alike(
    index: &mut ReadyIndex,
    rows: &mut Vec<Row>,
    alloc: Global,
    row: &Row,
) -> Result<bool, Fail> {
    let wanted = ready_plain::slot_of(rows, row);
    ready_plain::drop_row(rows, row);
    Ok(take(index, alloc, row)? == wanted)
}

fn takes_first(
    index: &mut ReadyIndex,
    rows: &mut Vec<Row>,
    alloc: Global,
    row: &Row,
) -> Result<bool, Fail> {
    if let Some(first) = ready_plain::first_at(rows, row) {
        ready_plain::drop_row(rows, &first);
    }
    take_out(index, alloc, row)?;
    Ok(true)
}

fn changes_alike(
    index: &mut ReadyIndex,
    rows: &mut Vec<Row>,
    alloc: Global,
    row: &Row,
    kind: u64,
) -> Result<bool, Fail> {
    match kind {
        0 => takes_alike(index, rows, alloc, row),
        1 => takes_first(index, rows, alloc, row),
        _ => puts_alike(index, rows, alloc, row),
    }
}

// ---- looks at both

fn begins_alike<L: Ledger>(
    index: &ReadyIndex,
    key: &Key,
    rows: &[Row],
    names: u64,
    steps: &mut Steps<L>,
) -> bool {
    let wanted = ready_plain::least(rows, names);
    let first = index.first(&key.queue, key.consumer.as_ref());
    let next = index.next(&key.queue, key.consumer.as_ref(), None, steps);
    first == told(wanted) && next == told(wanted)
}

fn goes_on_alike<L: Ledger>(
    index: &ReadyIndex,
    key: &Key,
    rows: &[Row],
    from: &Row,
    steps: &mut Steps<L>,
) -> bool {
    let after = Some((&key.place, from.id));
    let row = index.next_row(&key.queue, key.consumer.as_ref(), after, steps);
    is_row(row, ready_plain::least_past(rows, from))
}

fn goes_past_alike<L: Ledger>(
    index: &ReadyIndex,
    key: &Key,
    rows: &[Row],
    place: &Row,
    steps: &mut Steps<L>,
) -> bool {
    let behind = Row {
        id: u64::MAX,
        ..*place
    };
    let wanted = ready_plain::least_past(rows, &behind);
    let after = Some(&key.place);
    let row = index.first_row_past(&key.queue, key.consumer.as_ref(), after, steps);
    let next = index.next(&key.queue, key.consumer.as_ref(), after, steps);
    is_row(row, wanted) && next == told(wanted)
}

// A walk over all rows of a queue and a consumer.
fn walks_alike<L: Ledger>(
    index: &ReadyIndex,
    key: &Key,
    rows: &[Row],
    names: u64,
    steps: &mut Steps<L>,
) -> bool {
    let mut found = index.next_row(&key.queue, key.consumer.as_ref(), None, steps);
    let mut wanted = ready_plain::least(rows, names);
    for _ in 0..rows.len() {
        if !is_row(found, wanted) {
            return false;
        }
        let (Some(row), Some(last)) = (found, wanted) else {
            return true;
        };
        let after = Some((&row.place, row.id));
        found = index.next_row(&key.queue, key.consumer.as_ref(), after, steps);
        wanted = ready_plain::least_past(rows, &last);
    }
    is_row(found, wanted)
}

fn looks_alike<L: Ledger>(
    index: &ReadyIndex,
    rows: &[Row],
    alloc: Global,
    row: &Row,
    steps: &mut Steps<L>,
) -> Result<bool, Fail> {
    let key = key_of(alloc, row.names, row.place)?;
    Ok(
        begins_alike(index, &key, rows, row.names, steps)
            && goes_on_alike(index, &key, rows, row, steps)
            && goes_past_alike(index, &key, rows, row, steps)
            && walks_alike(index, &key, rows, row.names, steps),
    )
}

// ---- runs

fn step_alike<L: Ledger>(
    index: &mut ReadyIndex,
    rows: &mut Vec<Row>,
    alloc: Global,
    seed: &mut u64,
    steps: &mut Steps<L>,
) -> Result<bool, Fail> {
    let row = random_row(seed);
    let kind = next_random(seed) % 5;
    let changed = changes_alike(index, rows, alloc, &row, kind)?;
    let looked = random_row(seed);
    Ok(
        changed
            && looks_alike(index, rows, alloc, &row, steps)?
            && looks_alike(index, rows, alloc, &looked, steps)?,
    )
}

fn steps_alike<L: Ledger>(
    index: &mut ReadyIndex,
    rows: &mut Vec<Row>,
    alloc: Global,
    seed: &mut u64,
    steps: &mut Steps<L>,
) -> Result<bool, Fail> {
    for _ in 0..400 {
        if !step_alike(index, rows, alloc, seed, steps)? {
            return Ok(false);
        }
    }
    Ok(true)
}

fn run_alike<L: Ledger>(alloc: Global, seed: u64, blank: Blank) -> Result<bool, Fail>
    requires name { blank.name ≡ L.name }
    requires parts { blank.parts ≡ L.parts }
    requires some { 0 < blank.parts }
{
    let mut steps = Steps::<L>::new(blank);
    let mut index = ReadyIndex::new(alloc);
    let mut rows = Vec::new(alloc);
    let mut seed = seed;
    steps_alike(&mut index, &mut rows, alloc, &mut seed, &mut steps)
}

#[test]
fn an_index_and_a_plain_list_agree(rt: HostRuntime) -> Result<(), Fail> {
    for seed in 0..8 {
        let alike = run_alike::<Brand>(rt.alloc(), seed, Blank::new(1))?;
        assert!(rt; alike, "of seed {seed}");
    }
    Ok(())
}
