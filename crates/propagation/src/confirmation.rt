// What is committed when a slot has come to its destination.
ghost use Rattle.std.specs.Prelude.{◌≡◌, ◌∷◌, ◌++◌, Some, IfOk, OnOk, IsSome};
ghost use Rattle.queue_rows.specs.Propagating.{dispatch, recovering, confirming};
ghost use Rattle.queue_rows.specs.declared.change.Change.TheVariants.{Done};
ghost use Rattle.propagation.specs.Outcomes.{confirmation_of};

use crate::sent::sent_at;
use exception_queues::settle;
use payload_records::{Boxed, Copied, List};
use queue_rows::{Change, MessageTables, ScheduleRow, SlotRef};
use std::alloc::{AllocError, Global};

// A schedule that has sent something has not failed.
fn recover(changes: &mut List<Change>, schedule: &ScheduleRow) -> Result<(), AllocError>
    ensures { OnOk result (changes.new ≡ changes.old ++ recovering schedule.now) }
{
    if schedule.failures == 0 {
        return Ok(());
    }
    let mut row = schedule.copied()?;
    row.failures = 0;
    let row = Boxed::new(changes.allocator(), row)?;
    changes.push(Change::PutSchedule(row))
}

fn done(
    alloc: Global,
    at: &SlotRef,
    schedule: &ScheduleRow,
    moment: u64,
) -> Result<List<Change>, AllocError>
    ensures { IfOk result (λ changes. changes ≡ Done at.now.id at.now.slot moment ∷ recovering schedule.now) }
{
    let mut changes = List::new(alloc);
    changes.push(Change::Done {
        id: at.id,
        slot: u64::from(at.slot),
        at: moment,
    })?;
    recover(&mut changes, schedule)?;
    Ok(changes)
}

/// What is committed at the origin when the slot has come to its destination: it is done, its schedule has not failed, and
/// what this settles.
#[tactic(auto, unfolding(queue_rows::specs::Propagating::confirming))]
pub fn confirm<T: MessageTables>(
    origin: &T,
    at: &SlotRef,
    moment: u64,
) -> Result<List<Change>, AllocError>
    requires { IsSome (dispatch (T.tables origin.now) at.now) }
    ensures { IfOk result (λ changes. confirmation_of (T.tables origin.now) at.now moment ≡ Some changes) }
{
    let Some(sent) = sent_at(origin, at) else {
        unreachable!()
    };
    let alloc = origin.tables().schedules.allocator();
    let changes = done(alloc, at, sent.schedule, moment)?;
    settle(origin, changes)
}
