// Subscribers and schedules that are right.
ghost use Rattle.std.specs.Prelude.{◌≡◌, IfOk, option_copied};
ghost use Rattle.std.specs.List.{list_all};
ghost use Rattle.queue_rows.specs.Rows.{table_of};
ghost use Rattle.queue_rows.specs.Catalog.{has_subscribers};
ghost use Rattle.queue_rows.specs.Within.{if_some, is_span};
ghost use Rattle.queue_rows.specs.Valid.{takes_subscribers, is_right_rule, is_valid_sub, has_right_failures, is_valid_schedule};

use crate::catalog::Catalog;
use crate::named::{NamedRows, table_of};
use crate::numbers::{is_span, is_time};
use aq_base::{MOMENT_LIMIT, SUBSCRIBER_LIMIT};
use payload_records::Name;
use queue_rows::{QueueRow, ScheduleRow, SubRow, TableRow};
use rule_conditions::{Cond, CondFault, check};
use std::alloc::AllocError;

fn has_subscribers(queue: &QueueRow, table: Option<&TableRow>) -> bool
    ensures { result ≡ has_subscribers queue.now (option_copied table.entry) }
{
    match table {
        Some(table) => table.multi && !queue.kind.is_exception(),
        None => false,
    }
}

// It is a normal queue of a table with many consumers.
fn takes_subscribers<R: NamedRows>(rows: &R, queue: &Name) -> bool
    ensures { result ≡ takes_subscribers (R.tables rows.now) queue.now }
{
    match rows.queue(queue) {
        Some(queue) => has_subscribers(queue, rows.table(&queue.table)),
        None => false,
    }
}

// ---- subscribers

// The rule goes with the table's record type.
fn is_right_rule(table: Option<&TableRow>, rule: &Cond) -> Result<bool, AllocError>
    ensures { IfOk result (λ right. right ≡ is_right_rule (option_copied table.entry) rule.now) }
{
    let Some(table) = table else {
        return Ok(false);
    };
    match check(rule, &table.fields) {
        Ok(()) => Ok(true),
        Err(CondFault::Memory) => Err(AllocError),
        Err(_) => Ok(false),
    }
}

fn has_right_rule<R: NamedRows>(rows: &R, sub: &SubRow) -> Result<bool, AllocError>
    ensures { IfOk result (λ right.
        right ≡ if_some (is_right_rule (table_of (R.tables rows.now) sub.now.queue)) sub.now.rule) }
{
    match &sub.rule {
        Some(rule) => is_right_rule(table_of(rows, &sub.queue), rule),
        None => Ok(true),
    }
}

/// Whether the subscriber belongs to a queue that has no more than it may have, and its rule is right. The error is want of
/// memory.
pub fn is_valid_sub<R: NamedRows>(rows: &R, sub: &SubRow) -> Result<bool, AllocError>
    ensures { IfOk result (λ valid. valid ≡ is_valid_sub (R.tables rows.now) sub.now) }
{
    Ok(
        takes_subscribers(rows, &sub.queue)
            && rows.sub_count(&sub.queue) <= SUBSCRIBER_LIMIT
            && has_right_rule(rows, sub)?,
    )
}

/// Whether each subscriber is right.
pub(crate) fn are_valid_subs(catalog: &Catalog<'_>) -> Result<bool, AllocError>
    ensures { IfOk result (λ valid. valid ≡ list_all (is_valid_sub catalog.now) catalog.now.subs) }
{
    for sub in &catalog.tables().subs {
        if !is_valid_sub(catalog, sub)? {
            return Ok(false);
        }
    }
    Ok(true)
}

// ---- schedules

// At most 16, and those of an enabled schedule at most 15.
fn has_right_failures(schedule: &ScheduleRow) -> bool
    ensures { result ≡ has_right_failures schedule.now }
{
    schedule.failures <= if schedule.enabled { 15 } else { 16 }
}

fn is_span_if_some(seconds: Option<u64>) -> bool
    ensures { result ≡ if_some is_span seconds }
{
    match seconds {
        Some(seconds) => is_span(seconds),
        None => true,
    }
}

/// Whether the schedule belongs to a queue that may have one, and its numbers are within the limits. It takes no memory.
pub fn is_valid_schedule<R: NamedRows>(rows: &R, schedule: &ScheduleRow) -> bool
    ensures { result ≡ is_valid_schedule (R.tables rows.now) schedule.now }
{
    takes_subscribers(rows, &schedule.queue)
        && has_right_failures(schedule)
        && schedule.start <= MOMENT_LIMIT
        && is_span_if_some(schedule.duration)
        && is_span_if_some(schedule.period)
        && is_time(schedule.latency)
}

/// Whether each schedule is right.
pub(crate) fn are_valid_schedules(catalog: &Catalog<'_>) -> bool
    ensures { result ≡ list_all (is_valid_schedule catalog.now) catalog.now.schedules }
{
    catalog
        .tables()
        .schedules
        .iter()
        .all(|schedule| is_valid_schedule(catalog, schedule))
}
