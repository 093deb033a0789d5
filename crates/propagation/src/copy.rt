// The copy that is put in at the destination.
ghost use Rattle.std.specs.Prelude.{◌≡◌, ◌<◌, ◌≤◌, ◌^◌, [], ◌∷◌, map, option_copied, pos, IfOk, if◌then◌else◌};
ghost use Rattle.queue_rows.specs.Commits.{column_value, place_of};
ghost use Rattle.queue_rows.specs.Propagating.{copy_slot, copy_of, taken_in_by};
ghost use Rattle.propagation.specs.Sent.{facts_of, parcel_meant};
ghost use Rattle.propagation.specs.Copies.{copy_at, taken_in_at};

use crate::parcel::ParcelRef;
use payload_records::{Boxed, Copied, List};
use place_keys::{Column, Place, SortList};
use queue_rows::{Change, MsgRow, SeenRow, SlotRef, SlotRow, SlotState, TableRow};
use rule_conditions::Facts;
use smallvec::SmallVec;
use std::alloc::{AllocError, Global};

/// The numbers that a copy gets.
#[derive(Clone, Copy)]
pub(crate) struct Stamp {
    /// Its id.
    pub(crate) id: u64,
    /// Its group.
    pub(crate) group: u64,
    /// The moment of its arrival.
    pub(crate) moment: u64,
}

fn column_value(priority: i64, moment: u64, column: Column) -> i64
    requires { moment ≤ 2 ^ 62 }
    ensures { result ≡ column_value priority moment moment column }
{
    match column {
        Column::Priority => priority,
        Column::EnqTime | Column::CommitTime => moment as i64,
    }
}

fn column_values(
    alloc: Global,
    sort: &SortList,
    priority: i64,
    moment: u64,
) -> Result<SmallVec<i64, 2>, AllocError>
    requires { moment ≤ 2 ^ 62 }
    ensures { IfOk result (λ values. values.items ≡ map (column_value priority moment moment) sort.now) }
{
    let mut values = SmallVec::new(alloc);
    for column in sort.columns() {
        values.push(column_value(priority, moment, *column))?;
    }
    Ok(values)
}

fn lane(table: &TableRow, group: u64) -> i64
    requires { group ≤ 2 ^ 61 }
    ensures { result ≡ (if table.now.grouped then pos group else pos 0) }
{
    if table.grouped { group as i64 } else { 0 }
}

fn place_of(
    alloc: Global,
    table: &TableRow,
    priority: i64,
    stamp: Stamp,
) -> Result<Place, AllocError>
    requires id { stamp.id < 2 ^ 61 }
    requires group { stamp.group ≤ 2 ^ 61 }
    requires moment { stamp.moment ≤ 2 ^ 62 }
    ensures { IfOk result (λ place. let lane = if table.now.grouped then pos stamp.group else pos 0 in
        place ≡ place_of lane table.now.columns priority stamp.moment stamp.moment stamp.id) }
{
    let values = column_values(alloc, &table.columns, priority, stamp.moment)?;
    Place::of(alloc, lane(table, stamp.group), values.as_slice(), stamp.id)
}

fn copied_of<T: Copied>(value: Option<&T>) -> Result<Option<T>, AllocError>
    ensures { IfOk result (λ copy. copy ≡ option_copied value.entry) }
{
    match value {
        None => Ok(None),
        Some(value) => Ok(Some(value.copied()?)),
    }
}

fn copied_facts(parcel: ParcelRef<'_>) -> Result<Facts, AllocError>
    ensures { IfOk result (λ facts. facts ≡ facts_of parcel.entry) }
{
    Ok(Facts {
        priority: parcel.priority,
        corr: copied_of(parcel.corr)?,
        cells: parcel.payload.copied()?,
        props: parcel.props.copied()?,
    })
}

/// The one slot, with the recipient's name where a message of the table may have many.
fn copy_slot(table: &TableRow, parcel: ParcelRef<'_>, moment: u64) -> Result<SlotRow, AllocError>
    ensures { IfOk result (λ slot. slot ≡ copy_slot table.now (parcel_meant parcel.entry) moment) }
{
    let name = if table.multi {
        copied_of(parcel.name)?
    } else {
        None
    };
    Ok(SlotRow {
        name,
        address: None,
        state: SlotState::Ready,
        retries: 0,
        at: moment,
        expires: parcel.expires,
    })
}

fn copy_slots(
    alloc: Global,
    table: &TableRow,
    parcel: ParcelRef<'_>,
    moment: u64,
) -> Result<List<SlotRow>, AllocError>
    ensures { IfOk result (λ slots. slots ≡ copy_slot table.now (parcel_meant parcel.entry) moment ∷ []) }
{
    let mut slots = Vec::with_capacity(alloc, 1)?;
    slots.push(copy_slot(table, parcel, moment)?)?;
    Ok(List::from_vec(slots))
}

fn copy_of(
    alloc: Global,
    table: &TableRow,
    parcel: ParcelRef<'_>,
    stamp: Stamp,
) -> Result<MsgRow, AllocError>
    requires id { stamp.id < 2 ^ 61 }
    requires group { stamp.group ≤ 2 ^ 61 }
    requires moment { stamp.moment ≤ 2 ^ 62 }
    ensures { IfOk result (λ copy. copy ≡ copy_at table.now (parcel_meant parcel.entry) stamp) }
{
    Ok(MsgRow {
        id: stamp.id,
        queue: parcel.to.copied()?,
        place: place_of(alloc, table, parcel.priority, stamp)?,
        facts: copied_facts(parcel)?,
        exception: None,
        enq: stamp.moment,
        group: stamp.group,
        moved: false,
        slots: copy_slots(alloc, table, parcel, stamp.moment)?,
    })
}

/// What the destination commits: the copy, and that the slot's pair was seen.
pub(crate) fn taken_in(
    alloc: Global,
    table: &TableRow,
    at: &SlotRef,
    parcel: ParcelRef<'_>,
    stamp: Stamp,
) -> Result<List<Change>, AllocError>
    requires id { stamp.id < 2 ^ 61 }
    requires group { stamp.group ≤ 2 ^ 61 }
    requires moment { stamp.moment ≤ 2 ^ 62 }
    ensures { IfOk result (λ changes. changes ≡ taken_in_at table.now at.now (parcel_meant parcel.entry) stamp) }
{
    let mut changes = Vec::with_capacity(alloc, 2)?;
    let copy = Boxed::new(alloc, copy_of(alloc, table, parcel, stamp)?)?;
    changes.push(Change::Enqueued(copy))?;
    changes.push(Change::Seen(SeenRow {
        id: at.id,
        slot: u64::from(at.slot),
        copy: stamp.id,
    }))?;
    Ok(List::from_vec(changes))
}
