// A plain list of rows, which stand in no order and are searched whole.
use crate::ready_rows::Row;
use std::alloc::AllocError;

fn has_key(row: &Row, key: &Row) -> bool {
    row.names == key.names && row.place == key.place && row.id == key.id
}

fn is_before(left: &Row, right: &Row) -> bool {
    left.place < right.place || (left.place == right.place && left.id < right.id)
}

fn nearer(best: Option<Row>, row: &Row) -> Option<Row> {
    match best {
        Some(best) if is_before(&best, row) => Some(best),
        _ => Some(*row),
    }
}

pub(crate) fn slot_of(rows: &[Row], key: &Row) -> Option<u32> {
    let mut slot = None;
    for row in rows {
        if has_key(row, key) {
            slot = Some(row.slot);
        }
    }
    slot
}

/// The least row of those names.
pub(crate) fn least(rows: &[Row], names: u64) -> Option<Row> {
    let mut best = None;
    for row in rows {
        if row.names == names {
            best = nearer(best, row);
        }
    }
    best
}

/// The least row past another of the same names.
pub(crate) fn least_past(rows: &[Row], from: &Row) -> Option<Row> {
    let mut best = None;
    for row in rows {
        if row.names == from.names && is_before(from, row) {
            best = nearer(best, row);
        }
    }
    best
}

/// The least row of the same names at a row's place.
pub(crate) fn first_at(rows: &[Row], at: &Row) -> Option<Row> {
    let mut best = None;
    for row in rows {
        if row.names == at.names && row.place == at.place {
            best = nearer(best, row);
        }
    }
    best
}

pub(crate) fn drop_row(rows: &mut Vec<Row>, key: &Row) {
    rows.retain(|row| !has_key(row, key));
}

pub(crate) fn put(rows: &mut Vec<Row>, row: &Row) -> Result<(), AllocError> {
    drop_row(rows, row);
    rows.push(*row)?;
    Ok(())
}
