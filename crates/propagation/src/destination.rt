// Whether what is sent is taken in at its destination, or why it is not.
ghost use Rattle.std.specs.Prelude.{◌≡◌, ◌<◌, ◌^◌, Some, None, IfOk, IfErr, zip};
ghost use Rattle.std.specs.List.{list_all};
ghost use Rattle.queue_rows.specs.Rows.{table_of};
ghost use Rattle.queue_rows.specs.Propagating.{is_same_field, is_same_type, cause_at_table, cause_of, has_seen};
ghost use Rattle.propagation.specs.Sent.{parcel_meant};

use crate::parcel::ParcelRef;
use aq_base::NEXT_LIMIT;
use payload_records::{Field, List, RecordType};
use queue_rows::{Cause, SlotRef, TableRow, Tables, find_queue, find_table};

/// Whether the pair of the slot stands in the seen list. It does not go over the list.
pub(crate) fn has_seen(there: &Tables, at: &SlotRef) -> bool
    ensures { result ≡ has_seen there.now at.now }
{
    there.seen.has(at.id, u64::from(at.slot))
}

fn is_same_field(left: &Field, right: &Field) -> bool
    ensures { result ≡ is_same_field left.now right.now }
{
    left.name == right.name && left.kind == right.kind
}

fn are_same_fields(left: &List<Field>, right: &List<Field>) -> bool
    ensures { result ≡ list_all (λ pair. is_same_field pair.0 pair.1) (zip left.now right.now) }
{
    let mut others = right.iter();
    for field in left {
        let Some(other) = others.next() else {
            return true;
        };
        if !is_same_field(field, other) {
            return false;
        }
    }
    true
}

fn is_same_type(left: &RecordType, right: &RecordType) -> bool
    ensures { result ≡ is_same_type left.now right.now }
{
    let (left, right) = (left.fields(), right.fields());
    left.len() == right.len() && are_same_fields(left, right)
}

fn cause_at_table(table: &TableRow, parcel: ParcelRef<'_>, next: u64) -> Option<Cause>
    ensures { result ≡ cause_at_table (parcel_meant parcel.entry) next (Some table.now) }
{
    if !is_same_type(&table.fields, parcel.fields) {
        return Some(Cause::Payload);
    }
    if next >= NEXT_LIMIT {
        return Some(Cause::Limit);
    }
    None
}

/// The table in which the copy is to stand, where `next` is its id, or the first cause for which it is not taken in.
#[tactic(auto, unfolding(queue_rows::specs::Propagating::cause_of))]
pub(crate) fn destination<'a>(
    there: &'a Tables,
    parcel: ParcelRef<'_>,
    next: u64,
) -> Result<&'a TableRow, Cause>
    ensures table { IfOk result (λ table. table_of there.now (parcel_meant parcel.entry).to ≡ Some table.now) }
    ensures taken { IfOk result (λ table. cause_of there.now (parcel_meant parcel.entry) next ≡ None) }
    ensures limit { IfOk result (λ table. next < 2 ^ 61) }
    ensures failed { IfErr result (λ cause. cause_of there.now (parcel_meant parcel.entry) next ≡ Some cause) }
{
    let Some(queue) = find_queue(there, parcel.to) else {
        return Err(Cause::NoQueue);
    };
    if queue.kind.is_exception() {
        return Err(Cause::WrongKind);
    }
    if !queue.enqueue {
        return Err(Cause::EnqueueOff);
    }
    let Some(table) = find_table(there, &queue.table) else {
        return Err(Cause::NoQueue);
    };
    match cause_at_table(table, parcel, next) {
        Some(cause) => Err(cause),
        None => Ok(table),
    }
}
