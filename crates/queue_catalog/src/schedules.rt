// Schedules: how one is made, taken away, turned on and turned off.
ghost use Rattle.std.specs.Prelude.{◌≡◌, ◌∷◌, [], Ok, Err, IfOk, IfErr, false};
ghost use Rattle.queue_rows.specs.Catalog.{judged, change_schedule, fresh_schedule};
ghost use Rattle.queue_rows.specs.declared.rows.ScheduleRow.{ScheduleRow};
ghost use Rattle.queue_rows.specs.declared.change.Change.{Change};
ghost use Rattle.queue_rows.specs.declared.change.Change.TheVariants.{DropSchedule, PutSchedule};
ghost use Rattle.queue_rows.specs.declared.statement.Admin.TheVariants as asks;
ghost use Rattle.queue_catalog.specs.Judging.{Refuses};

use crate::changes::one;
use crate::fault::CatalogFault;
use crate::lookup::{find_schedule, has_subscribers};
use payload_records::{Boxed, Copied, List, Name};
use queue_rows::{Change, Reply, ScheduleRow, Tables, find_queue};
use std::alloc::{AllocError, Global};

/// When a schedule sends.
#[derive(Clone, Copy)]
pub(crate) struct ScheduleTimes {
    /// The moment at which it begins; where nothing is said, now.
    pub(crate) start: Option<u64>,
    /// How long it is open, in seconds.
    pub(crate) duration: Option<u64>,
    /// After how many seconds it opens again.
    pub(crate) period: Option<u64>,
    /// The seconds between two moments at which it sends.
    pub(crate) latency: u64,
}

/// A schedule from a normal queue of a table for many consumers. It is enabled.
#[tactic(auto, unfolding(queue_rows::specs::Catalog::judged))]
pub(crate) fn schedule(
    alloc: Global,
    tables: &Tables,
    queue: &Name,
    to: &Name,
    times: ScheduleTimes,
    moment: u64,
) -> Result<List<Change>, CatalogFault>
    ensures changes { IfOk result (λ changes. judged tables.now
        (asks.Schedule queue.now to.now times.start times.duration times.period times.latency) moment
        ≡ Ok changes) }
    ensures refused { IfErr result (Refuses (judged tables.now
        (asks.Schedule queue.now to.now times.start times.duration times.period times.latency) moment)) }
{
    let Some(row) = find_queue(tables, queue) else {
        return Err(CatalogFault::Refused(Reply::NoQueue));
    };
    if !has_subscribers(tables, row) {
        return Err(CatalogFault::Refused(Reply::WrongKind));
    }
    if find_schedule(tables, queue, to).is_some() {
        return Err(CatalogFault::Refused(Reply::Exists));
    }
    let new = ScheduleRow {
        queue: queue.copied()?,
        to: to.copied()?,
        enabled: true,
        start: times.start.unwrap_or(moment),
        duration: times.duration,
        period: times.period,
        latency: times.latency,
        failures: 0,
        next: 0,
    };
    Ok(one(alloc, Change::PutSchedule(Boxed::new(alloc, new)?))?)
}

// The schedule of that queue and destination, or why a change of it is refused.
fn schedule_of<'a>(tables: &'a Tables, queue: &Name, to: &Name) -> Result<&'a ScheduleRow, Reply>
    ensures found { IfOk result (λ s. (change : ScheduleRow → Change) →
        change_schedule tables.now queue.now to.now change ≡ Ok (change s.now ∷ [])) }
    ensures refused { IfErr result (λ reply. (change : ScheduleRow → Change) →
        change_schedule tables.now queue.now to.now change ≡ Err reply) }
{
    if find_queue(tables, queue).is_none() {
        return Err(Reply::NoQueue);
    }
    match find_schedule(tables, queue, to) {
        Some(schedule) => Ok(schedule),
        None => Err(Reply::NoSchedule),
    }
}

/// A schedule goes.
pub(crate) fn unschedule(
    alloc: Global,
    tables: &Tables,
    queue: &Name,
    to: &Name,
) -> Result<List<Change>, CatalogFault>
    ensures changes { IfOk result (λ changes.
        change_schedule tables.now queue.now to.now (λ s. DropSchedule s.queue s.to) ≡ Ok changes) }
    ensures refused { IfErr result (Refuses
        (change_schedule tables.now queue.now to.now (λ s. DropSchedule s.queue s.to))) }
{
    let schedule = schedule_of(tables, queue, to)?;
    let change = Change::DropSchedule {
        queue: schedule.queue.copied()?,
        to: schedule.to.copied()?,
    };
    Ok(one(alloc, change)?)
}

/// A schedule sends, as if it had not failed before.
pub(crate) fn enable_schedule(
    alloc: Global,
    tables: &Tables,
    queue: &Name,
    to: &Name,
) -> Result<List<Change>, CatalogFault>
    ensures changes { IfOk result (λ changes.
        change_schedule tables.now queue.now to.now (λ s. PutSchedule (fresh_schedule s)) ≡ Ok changes) }
    ensures refused { IfErr result (Refuses
        (change_schedule tables.now queue.now to.now (λ s. PutSchedule (fresh_schedule s)))) }
{
    let mut schedule = schedule_of(tables, queue, to)?.copied()?;
    schedule.enabled = true;
    schedule.failures = 0;
    schedule.next = 0;
    Ok(one(alloc, Change::PutSchedule(Boxed::new(alloc, schedule)?))?)
}

/// A schedule sends no more, and the rest of it stays.
pub(crate) fn disable_schedule(
    alloc: Global,
    tables: &Tables,
    queue: &Name,
    to: &Name,
) -> Result<List<Change>, CatalogFault>
    ensures changes { IfOk result (λ changes.
        change_schedule tables.now queue.now to.now (λ s. PutSchedule (record s { enabled = false }))
        ≡ Ok changes) }
    ensures refused { IfErr result (Refuses
        (change_schedule tables.now queue.now to.now (λ s. PutSchedule (record s { enabled = false })))) }
{
    let mut schedule = schedule_of(tables, queue, to)?.copied()?;
    schedule.enabled = false;
    Ok(one(alloc, Change::PutSchedule(Boxed::new(alloc, schedule)?))?)
}
