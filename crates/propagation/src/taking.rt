// How a parcel is taken in at its destination, whatever the origin is.
ghost use Rattle.std.specs.Prelude.{◌≡◌, ◌<◌, ◌≤◌, ◌^◌, Some, IfOk};
ghost use Rattle.queue_rows.specs.Rows.{table_of};
ghost use Rattle.queue_rows.specs.Propagating.{taken_in};
ghost use Rattle.propagation.specs.Sent.{parcel_meant};
ghost use Rattle.propagation.specs.Taking.{taking_in, meant};

use crate::copy::{Stamp, taken_in};
use crate::destination::{destination, has_seen};
use crate::parcel::ParcelRef;
use payload_records::List;
use queue_rows::{Cause, Change, SlotRef, TableRow, Tables};
use std::alloc::AllocError;

/// What a destination answers to a parcel.
#[derive(Drop)]
pub enum TakenIn {
    /// Its slot has arrived before.
    Known,
    /// It is not taken in.
    Refused(Cause),
    /// It is taken in by committing these changes.
    Takes(List<Change>),
}

fn taken_at(
    there: &Tables,
    table: &TableRow,
    at: &SlotRef,
    parcel: ParcelRef<'_>,
    next: u64,
    moment: u64,
) -> Result<List<Change>, AllocError>
    requires table { table_of there.now (parcel_meant parcel).to ≡ Some table.now }
    requires next { next < 2 ^ 61 }
    requires transaction { there.now.transaction ≤ 2 ^ 61 }
    requires moment { moment ≤ 2 ^ 62 }
    ensures { IfOk result (λ changes. changes ≡ taken_in there.now at.now (parcel_meant parcel.entry) next moment) }
{
    let stamp = Stamp {
        id: next,
        group: there.transaction,
        moment,
    };
    taken_in(there.schedules.allocator(), table, at, parcel, stamp)
}

/// How the database takes in what is sent of that slot of the other one, where `next` is the id that a copy would get: not
/// at all where the slot has arrived before, or for the first cause that there is; else by the copy and the slot's pair.
#[tactic(auto, unfolding(crate::specs::Taking::taking_in))]
pub fn take_in(
    there: &Tables,
    at: &SlotRef,
    parcel: ParcelRef<'_>,
    next: u64,
    moment: u64,
) -> Result<TakenIn, AllocError>
    requires transaction { there.now.transaction ≤ 2 ^ 61 }
    requires moment { moment ≤ 2 ^ 62 }
    ensures { IfOk result (λ t. meant t ≡ taking_in there.now at.now (parcel_meant parcel.entry) next moment) }
{
    if has_seen(there, at) {
        return Ok(TakenIn::Known);
    }
    match destination(there, parcel, next) {
        Ok(table) => Ok(TakenIn::Takes(taken_at(there, table, at, parcel, next, moment)?)),
        Err(cause) => Ok(TakenIn::Refused(cause)),
    }
}
