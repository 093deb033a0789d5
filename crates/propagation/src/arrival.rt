// What the arrival of a slot does at its destination.
ghost use Rattle.std.specs.Prelude.{◌≡◌, ◌≤◌, ◌^◌, Some, IfOk, IfSome, IsSome};
ghost use Rattle.queue_rows.specs.Propagating.{dispatch, arriving};
ghost use Rattle.propagation.specs.Outcomes.{meant, arrival_of, IsFailure};
ghost use Rattle.propagation.specs.Sent.{dispatch_by};

use crate::schedules::{delayed, is_last_failure};
use crate::sent::{Sent, sent_at};
use crate::taking::{TakenIn, take_in};
use payload_records::{Boxed, List};
use queue_rows::{Arrival, Cause, Change, MessageTables, ScheduleRow, SlotRef, Tables};
use std::alloc::{AllocError, Global};

/// How an arrival ends, and what it commits.
#[derive(Drop)]
pub struct Arriving {
    /// How it ends.
    pub outcome: Arrival,
    /// What is committed at the database from which the slot was sent.
    pub origin: List<Change>,
    /// What is committed at the destination.
    pub there: List<Change>,
}

fn failed(
    alloc: Global,
    schedule: &ScheduleRow,
    cause: Cause,
    moment: u64,
) -> Result<Arriving, AllocError>
    requires failures { schedule.now.failures ≤ 15 }
    requires moment { moment ≤ 2 ^ 62 }
    ensures { IfOk result (IsFailure schedule.now cause moment) }
{
    let mut origin = Vec::with_capacity(alloc, 1)?;
    let row = Boxed::new(alloc, delayed(schedule, moment)?)?;
    origin.push(Change::PutSchedule(row))?;
    Ok(Arriving {
        outcome: Arrival::Failed {
            cause,
            disabled: is_last_failure(schedule),
        },
        origin: List::from_vec(origin),
        there: List::new(alloc),
    })
}

fn arrive_at(
    there: &Tables,
    at: &SlotRef,
    sent: Sent<'_>,
    next: u64,
    moment: u64,
) -> Result<Arriving, AllocError>
    requires failures { sent.schedule.now.failures ≤ 15 }
    requires transaction { there.now.transaction ≤ 2 ^ 61 }
    requires moment { moment ≤ 2 ^ 62 }
    ensures { IfOk result (λ a. arriving there.now at.now (dispatch_by sent.entry) next moment ≡ meant a) }
{
    let alloc = there.schedules.allocator();
    match take_in(there, at, sent.parcel(), next, moment)? {
        TakenIn::Known => Ok(Arriving {
            outcome: Arrival::Seen,
            origin: List::new(alloc),
            there: List::new(alloc),
        }),
        TakenIn::Refused(cause) => failed(alloc, sent.schedule, cause, moment),
        TakenIn::Takes(changes) => Ok(Arriving {
            outcome: Arrival::Copied(next),
            origin: List::new(alloc),
            there: changes,
        }),
    }
}

/// What the arrival of the slot does at its destination, where `next` is the id that a copy would get there: nothing
/// where the slot has arrived before; the schedule's next failure, where the destination does not take it in; else the copy.
pub fn arrive<O: MessageTables, T: MessageTables>(
    origin: &O,
    at: &SlotRef,
    there: &T,
    next: u64,
    moment: u64,
) -> Result<Arriving, AllocError>
    requires sent { IsSome (dispatch (O.tables origin.now) at.now) }
    requires failures { IfSome (dispatch (O.tables origin.now) at.now) (λ d. d.schedule.failures ≤ 15) }
    requires transaction { (T.tables there.now).transaction ≤ 2 ^ 61 }
    requires moment { moment ≤ 2 ^ 62 }
    ensures { IfOk result (λ a.
        arrival_of (O.tables origin.now) at.now (T.tables there.now) next moment ≡ Some (meant a)) }
{
    let Some(sent) = sent_at(origin, at) else {
        unreachable!()
    };
    arrive_at(there.tables(), at, sent, next, moment)
}
