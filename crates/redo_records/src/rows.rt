// Rows, field by field.
ghost use Rattle.std.specs.Prelude.{◌≡◌, ◌++◌, OnOk, IfSome, IfNone, true, false};
ghost use Rattle.redo_records.specs.Gives.{Gives};
ghost use Rattle.redo_records.specs.Reading.{is_sort_list, fields_at, columns_at, table_row_at, queue_row_at, sub_row_at, schedule_row_at, seen_row_at};
ghost use Rattle.redo_records.specs.Spellable.{HasReadRule};
ghost use Rattle.redo_records.specs.Spelled.{IsTableRow, IsQueueRow, IsSubRow, IsScheduleRow, IsSeenRow};
ghost use Rattle.redo_records.specs.Spelling.{table_row, queue_row, sub_row, schedule_row, seen_row};

use crate::DecodeFault;
use crate::lists::{flag_at, list_at, optional_at, put_flag, put_list, put_optional};
use crate::numbers::{int_at, num_at, put_num};
use crate::parts::{put_queue_kind, queue_kind_at};
use crate::spelled::Spelled;
use payload_records::{List, Name, RecordType};
use place_keys::{Column, SortList};
use queue_rows::{QueueRow, ScheduleRow, SeenRow, SubRow, TableRow};
use std::alloc::{AllocError, Global};

fn fields_at(alloc: Global, bytes: &[u8]) -> Result<(RecordType, &[u8]), DecodeFault>
    ensures { Gives (λ x. (x.0, x.1.now)) result (fields_at bytes.now) }
{
    let (fields, rest) = list_at(alloc, bytes)?;
    match RecordType::of(fields)? {
        Some(fields) => Ok((fields, rest)),
        None => Err(DecodeFault::NoSpelling),
    }
}

#[tactic(auto, using(crate::proofs::Sorts::is_sort_list_from, crate::proofs::Sorts::no_sort_list))]
fn sort_list(columns: List<Column>) -> Option<SortList>
    ensures some { IfSome result (λ list. list ≡ columns) }
    ensures valid { IfSome result (λ _. is_sort_list columns ≡ true) }
    ensures none { IfNone result (is_sort_list columns ≡ false) }
{
    SortList::of(columns)
}

fn columns_at(alloc: Global, bytes: &[u8]) -> Result<(SortList, &[u8]), DecodeFault>
    ensures { Gives (λ x. (x.0, x.1.now)) result (columns_at bytes.now) }
{
    let (columns, rest) = list_at(alloc, bytes)?;
    match sort_list(columns) {
        Some(columns) => Ok((columns, rest)),
        None => Err(DecodeFault::NoSpelling),
    }
}

/// Writes a table at the end.
pub(crate) fn put_table_row(out: &mut Vec<u8>, row: &TableRow) -> Result<(), AllocError>
    ensures bytes { OnOk result (out.new.items ≡ out.old.items ++ table_row row.now) }
    ensures typed { OnOk result (IsTableRow row.now) }
{
    row.name.put(out)?;
    put_list(out, row.fields.fields())?;
    put_list(out, row.columns.columns())?;
    put_flag(out, row.multi)?;
    put_flag(out, row.grouped)
}

/// The table at the front, and what stands behind it.
#[tactic(auto, unfolding(crate::specs::Reading::table_row_at))]
pub(crate) fn table_row_at(alloc: Global, bytes: &[u8]) -> Result<(TableRow, &[u8]), DecodeFault>
    ensures { Gives (λ x. (x.0, x.1.now)) result (table_row_at bytes.now) }
{
    let (name, rest) = Name::at(alloc, bytes)?;
    let (fields, rest) = fields_at(alloc, rest)?;
    let (columns, rest) = columns_at(alloc, rest)?;
    let (multi, rest) = flag_at(rest)?;
    let (grouped, rest) = flag_at(rest)?;
    let row = TableRow {
        name,
        fields,
        columns,
        multi,
        grouped,
    };
    Ok((row, rest))
}

/// Writes a queue at the end.
pub(crate) fn put_queue_row(out: &mut Vec<u8>, row: &QueueRow) -> Result<(), AllocError>
    ensures bytes { OnOk result (out.new.items ≡ out.old.items ++ queue_row row.now) }
    ensures typed { OnOk result (IsQueueRow row.now) }
{
    row.name.put(out)?;
    row.table.put(out)?;
    put_queue_kind(out, row.kind)?;
    put_flag(out, row.enqueue)?;
    put_flag(out, row.dequeue)?;
    put_num(out, row.max_retries)?;
    put_num(out, row.retry_delay)?;
    put_num(out, row.retention)?;
    row.lowest.put(out)
}

/// The queue at the front, and what stands behind it.
#[tactic(auto, unfolding(crate::specs::Reading::queue_row_at))]
pub(crate) fn queue_row_at(alloc: Global, bytes: &[u8]) -> Result<(QueueRow, &[u8]), DecodeFault>
    ensures { Gives (λ x. (x.0, x.1.now)) result (queue_row_at bytes.now) }
{
    let (name, rest) = Name::at(alloc, bytes)?;
    let (table, rest) = Name::at(alloc, rest)?;
    let (kind, rest) = queue_kind_at(rest)?;
    let (enqueue, rest) = flag_at(rest)?;
    let (dequeue, rest) = flag_at(rest)?;
    let (max_retries, rest) = num_at(rest)?;
    let (retry_delay, rest) = num_at(rest)?;
    let (retention, rest) = num_at(rest)?;
    let (lowest, rest) = int_at(rest)?;
    let row = QueueRow {
        name,
        table,
        kind,
        enqueue,
        dequeue,
        max_retries,
        retry_delay,
        retention,
        lowest,
    };
    Ok((row, rest))
}

/// Writes a subscriber at the end.
pub(crate) fn put_sub_row(out: &mut Vec<u8>, row: &SubRow) -> Result<(), AllocError>
    ensures bytes { OnOk result (out.new.items ≡ out.old.items ++ sub_row row.now) }
    ensures typed { OnOk result (HasReadRule row.now → IsSubRow row.now) }
{
    row.queue.put(out)?;
    row.name.put(out)?;
    put_optional(out, &row.address)?;
    put_optional(out, &row.rule)
}

/// The subscriber at the front, and what stands behind it.
#[tactic(auto, unfolding(crate::specs::Reading::sub_row_at))]
pub(crate) fn sub_row_at(alloc: Global, bytes: &[u8]) -> Result<(SubRow, &[u8]), DecodeFault>
    ensures { Gives (λ x. (x.0, x.1.now)) result (sub_row_at bytes.now) }
{
    let (queue, rest) = Name::at(alloc, bytes)?;
    let (name, rest) = Name::at(alloc, rest)?;
    let (address, rest) = optional_at(alloc, rest)?;
    let (rule, rest) = optional_at(alloc, rest)?;
    let row = SubRow {
        queue,
        name,
        address,
        rule,
    };
    Ok((row, rest))
}

/// Writes a schedule at the end.
pub(crate) fn put_schedule_row(out: &mut Vec<u8>, row: &ScheduleRow) -> Result<(), AllocError>
    ensures bytes { OnOk result (out.new.items ≡ out.old.items ++ schedule_row row.now) }
    ensures typed { OnOk result (IsScheduleRow row.now) }
{
    row.queue.put(out)?;
    row.to.put(out)?;
    put_flag(out, row.enabled)?;
    put_num(out, row.start)?;
    put_optional(out, &row.duration)?;
    put_optional(out, &row.period)?;
    put_num(out, row.latency)?;
    put_num(out, row.failures)?;
    put_num(out, row.next)
}

/// The schedule at the front, and what stands behind it.
#[tactic(auto, unfolding(crate::specs::Reading::schedule_row_at))]
pub(crate) fn schedule_row_at(
    alloc: Global,
    bytes: &[u8],
) -> Result<(ScheduleRow, &[u8]), DecodeFault>
    ensures { Gives (λ x. (x.0, x.1.now)) result (schedule_row_at bytes.now) }
{
    let (queue, rest) = Name::at(alloc, bytes)?;
    let (to, rest) = Name::at(alloc, rest)?;
    let (enabled, rest) = flag_at(rest)?;
    let (start, rest) = num_at(rest)?;
    let (duration, rest) = optional_at(alloc, rest)?;
    let (period, rest) = optional_at(alloc, rest)?;
    let (latency, rest) = num_at(rest)?;
    let (failures, rest) = num_at(rest)?;
    let (next, rest) = num_at(rest)?;
    let row = ScheduleRow {
        queue,
        to,
        enabled,
        start,
        duration,
        period,
        latency,
        failures,
        next,
    };
    Ok((row, rest))
}

/// Writes an arrival at the end.
pub(crate) fn put_seen_row(out: &mut Vec<u8>, row: &SeenRow) -> Result<(), AllocError>
    ensures bytes { OnOk result (out.new.items ≡ out.old.items ++ seen_row row.now) }
    ensures typed { OnOk result (IsSeenRow row.now) }
{
    put_num(out, row.id)?;
    put_num(out, row.slot)?;
    put_num(out, row.copy)
}

/// The arrival at the front, and what stands behind it.
#[tactic(auto, unfolding(crate::specs::Reading::seen_row_at))]
pub(crate) fn seen_row_at(bytes: &[u8]) -> Result<(SeenRow, &[u8]), DecodeFault>
    ensures { Gives (λ x. (x.0, x.1.now)) result (seen_row_at bytes.now) }
{
    let (id, rest) = num_at(bytes)?;
    let (slot, rest) = num_at(rest)?;
    let (copy, rest) = num_at(rest)?;
    Ok((SeenRow { id, slot, copy }, rest))
}
