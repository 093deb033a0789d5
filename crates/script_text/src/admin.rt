// The administrative statements.
ghost use Rattle.std.specs.Prelude.{◌≡◌, IfOk, IsErrOf, Some, None, nat_le, true};
ghost use Rattle.serde_json.specs.View.{view};
ghost use Rattle.aq_base.specs.declared.limits.TheConstants.{MAX_RETRIES_LIMIT};
ghost use Rattle.history_laws.specs.Ordered.{asks_ordered};
ghost use Rattle.queue_rows.specs.Within.{is_admin_within};
ghost use Rattle.script_text.specs.Statement.{create_table, drop_table, max_retries_at, create_queue, drop_queue, start_queue, stop_queue, add_subscriber, remove_subscriber, schedule, unschedule, enable_schedule, disable_schedule};

use crate::fault::LineFault;
use crate::member::{
    bool_if_given, bool_or, given_at, name_at, name_if_given, number_between, table_at,
    text_if_given,
};
use crate::parts::{fields_at, grouping_at, kind_at, sort_at};
use crate::times::{latency_at, seconds_at, span_at, start_at};
use aq_base::{CONDITION_LIMIT, MAX_RETRIES_LIMIT};
use queue_rows::Admin;
use serde_json::Value;
use std::alloc::Global;

/// How often a removal may be rolled back where nothing is said.
const DEFAULT_MAX_RETRIES: u64 = 5;

fn max_retries_at(value: &Value) -> Result<u64, LineFault>
    ensures ok { IfOk result (λ n. max_retries_at (view value.now) ≡ Some n) }
    ensures within { IfOk result (λ n. nat_le n MAX_RETRIES_LIMIT ≡ true) }
    ensures bad { IsErrOf result LineFault.Bad → max_retries_at (view value.now) ≡ None }
{
    match given_at(value, "max_retries") {
        Some(member) => number_between(0, MAX_RETRIES_LIMIT, member).ok_or(LineFault::Bad),
        None => Ok(DEFAULT_MAX_RETRIES),
    }
}

/// A queue table is to be made.
#[tactic(auto, unfolding(crate::specs::Statement::create_table))]
pub fn create_table(alloc: Global, value: &Value) -> Result<Admin, LineFault>
    ensures ok { IfOk result (λ ask. create_table (view value.now) ≡ Some ask) }
    ensures within { IfOk result (λ ask. is_admin_within ask ≡ true) }
    ensures ordered { IfOk result (λ ask. asks_ordered ask ≡ true) }
    ensures bad { IsErrOf result LineFault.Bad → create_table (view value.now) ≡ None }
{
    let multi = bool_or(false, value, "multi")?;
    let grouped = grouping_at(value)?;
    let table = table_at(alloc, value)?;
    let fields = fields_at(alloc, value)?;
    let sort = sort_at(alloc, value)?;
    Ok(Admin::CreateTable {
        table,
        fields,
        sort,
        multi,
        grouped,
    })
}

/// A queue table is to go.
#[tactic(auto, unfolding(crate::specs::Statement::drop_table))]
pub fn drop_table(alloc: Global, value: &Value) -> Result<Admin, LineFault>
    ensures ok { IfOk result (λ ask. drop_table (view value.now) ≡ Some ask) }
    ensures within { IfOk result (λ ask. is_admin_within ask ≡ true) }
    ensures ordered { IfOk result (λ ask. asks_ordered ask ≡ true) }
    ensures bad { IsErrOf result LineFault.Bad → drop_table (view value.now) ≡ None }
{
    let table = table_at(alloc, value)?;
    Ok(Admin::DropTable { table })
}

/// A queue is to be made.
#[tactic(auto, unfolding(crate::specs::Statement::create_queue))]
pub fn create_queue(alloc: Global, value: &Value) -> Result<Admin, LineFault>
    ensures ok { IfOk result (λ ask. create_queue (view value.now) ≡ Some ask) }
    ensures within { IfOk result (λ ask. is_admin_within ask ≡ true) }
    ensures ordered { IfOk result (λ ask. asks_ordered ask ≡ true) }
    ensures bad { IsErrOf result LineFault.Bad → create_queue (view value.now) ≡ None }
{
    let kind = kind_at(value)?;
    let max_retries = max_retries_at(value)?;
    let retry_delay = seconds_at(value, "retry_delay")?;
    let retention = seconds_at(value, "retention")?;
    let queue = name_at(alloc, value, "queue")?;
    let table = table_at(alloc, value)?;
    Ok(Admin::CreateQueue {
        queue,
        table,
        kind,
        max_retries,
        retry_delay,
        retention,
    })
}

/// A queue is to go.
#[tactic(auto, unfolding(crate::specs::Statement::drop_queue))]
pub fn drop_queue(alloc: Global, value: &Value) -> Result<Admin, LineFault>
    ensures ok { IfOk result (λ ask. drop_queue (view value.now) ≡ Some ask) }
    ensures within { IfOk result (λ ask. is_admin_within ask ≡ true) }
    ensures ordered { IfOk result (λ ask. asks_ordered ask ≡ true) }
    ensures bad { IsErrOf result LineFault.Bad → drop_queue (view value.now) ≡ None }
{
    let queue = name_at(alloc, value, "queue")?;
    Ok(Admin::DropQueue { queue })
}

/// A queue is to be turned on.
#[tactic(auto, unfolding(crate::specs::Statement::start_queue))]
pub fn start_queue(alloc: Global, value: &Value) -> Result<Admin, LineFault>
    ensures ok { IfOk result (λ ask. start_queue (view value.now) ≡ Some ask) }
    ensures within { IfOk result (λ ask. is_admin_within ask ≡ true) }
    ensures ordered { IfOk result (λ ask. asks_ordered ask ≡ true) }
    ensures bad { IsErrOf result LineFault.Bad → start_queue (view value.now) ≡ None }
{
    let enqueue = bool_if_given(value, "enqueue")?;
    let dequeue = bool_or(true, value, "dequeue")?;
    let queue = name_at(alloc, value, "queue")?;
    Ok(Admin::StartQueue {
        queue,
        enqueue,
        dequeue,
    })
}

/// A queue is to be turned off.
#[tactic(auto, unfolding(crate::specs::Statement::stop_queue))]
pub fn stop_queue(alloc: Global, value: &Value) -> Result<Admin, LineFault>
    ensures ok { IfOk result (λ ask. stop_queue (view value.now) ≡ Some ask) }
    ensures within { IfOk result (λ ask. is_admin_within ask ≡ true) }
    ensures ordered { IfOk result (λ ask. asks_ordered ask ≡ true) }
    ensures bad { IsErrOf result LineFault.Bad → stop_queue (view value.now) ≡ None }
{
    let enqueue = bool_or(true, value, "enqueue")?;
    let dequeue = bool_or(true, value, "dequeue")?;
    let queue = name_at(alloc, value, "queue")?;
    Ok(Admin::StopQueue {
        queue,
        enqueue,
        dequeue,
    })
}

/// A subscriber is to be made.
#[tactic(auto, unfolding(crate::specs::Statement::add_subscriber))]
pub fn add_subscriber(alloc: Global, value: &Value) -> Result<Admin, LineFault>
    ensures ok { IfOk result (λ ask. add_subscriber (view value.now) ≡ Some ask) }
    ensures within { IfOk result (λ ask. is_admin_within ask ≡ true) }
    ensures ordered { IfOk result (λ ask. asks_ordered ask ≡ true) }
    ensures bad { IsErrOf result LineFault.Bad → add_subscriber (view value.now) ≡ None }
{
    let queue = name_at(alloc, value, "queue")?;
    let name = name_at(alloc, value, "name")?;
    let address = name_if_given(alloc, value, "address")?;
    let rule = text_if_given(alloc, CONDITION_LIMIT, value, "rule")?;
    Ok(Admin::AddSubscriber {
        queue,
        name,
        address,
        rule,
    })
}

/// A subscriber is to go.
#[tactic(auto, unfolding(crate::specs::Statement::remove_subscriber))]
pub fn remove_subscriber(alloc: Global, value: &Value) -> Result<Admin, LineFault>
    ensures ok { IfOk result (λ ask. remove_subscriber (view value.now) ≡ Some ask) }
    ensures within { IfOk result (λ ask. is_admin_within ask ≡ true) }
    ensures ordered { IfOk result (λ ask. asks_ordered ask ≡ true) }
    ensures bad { IsErrOf result LineFault.Bad → remove_subscriber (view value.now) ≡ None }
{
    let queue = name_at(alloc, value, "queue")?;
    let name = name_at(alloc, value, "name")?;
    Ok(Admin::RemoveSubscriber { queue, name })
}

/// A schedule is to be made.
#[tactic(auto, unfolding(crate::specs::Statement::schedule))]
pub fn schedule(alloc: Global, value: &Value) -> Result<Admin, LineFault>
    ensures ok { IfOk result (λ ask. schedule (view value.now) ≡ Some ask) }
    ensures within { IfOk result (λ ask. is_admin_within ask ≡ true) }
    ensures ordered { IfOk result (λ ask. asks_ordered ask ≡ true) }
    ensures bad { IsErrOf result LineFault.Bad → schedule (view value.now) ≡ None }
{
    let start = start_at(value)?;
    let duration = span_at(value, "duration")?;
    let period = span_at(value, "period")?;
    let latency = latency_at(value)?;
    let queue = name_at(alloc, value, "queue")?;
    let to = name_at(alloc, value, "to")?;
    Ok(Admin::Schedule {
        queue,
        to,
        start,
        duration,
        period,
        latency,
    })
}

/// A schedule is to go.
#[tactic(auto, unfolding(crate::specs::Statement::unschedule))]
pub fn unschedule(alloc: Global, value: &Value) -> Result<Admin, LineFault>
    ensures ok { IfOk result (λ ask. unschedule (view value.now) ≡ Some ask) }
    ensures within { IfOk result (λ ask. is_admin_within ask ≡ true) }
    ensures ordered { IfOk result (λ ask. asks_ordered ask ≡ true) }
    ensures bad { IsErrOf result LineFault.Bad → unschedule (view value.now) ≡ None }
{
    let queue = name_at(alloc, value, "queue")?;
    let to = name_at(alloc, value, "to")?;
    Ok(Admin::Unschedule { queue, to })
}

/// A schedule is to be turned on.
#[tactic(auto, unfolding(crate::specs::Statement::enable_schedule))]
pub fn enable_schedule(alloc: Global, value: &Value) -> Result<Admin, LineFault>
    ensures ok { IfOk result (λ ask. enable_schedule (view value.now) ≡ Some ask) }
    ensures within { IfOk result (λ ask. is_admin_within ask ≡ true) }
    ensures ordered { IfOk result (λ ask. asks_ordered ask ≡ true) }
    ensures bad { IsErrOf result LineFault.Bad → enable_schedule (view value.now) ≡ None }
{
    let queue = name_at(alloc, value, "queue")?;
    let to = name_at(alloc, value, "to")?;
    Ok(Admin::EnableSchedule { queue, to })
}

/// A schedule is to be turned off.
#[tactic(auto, unfolding(crate::specs::Statement::disable_schedule))]
pub fn disable_schedule(alloc: Global, value: &Value) -> Result<Admin, LineFault>
    ensures ok { IfOk result (λ ask. disable_schedule (view value.now) ≡ Some ask) }
    ensures within { IfOk result (λ ask. is_admin_within ask ≡ true) }
    ensures ordered { IfOk result (λ ask. asks_ordered ask ≡ true) }
    ensures bad { IsErrOf result LineFault.Bad → disable_schedule (view value.now) ≡ None }
{
    let queue = name_at(alloc, value, "queue")?;
    let to = name_at(alloc, value, "to")?;
    Ok(Admin::DisableSchedule { queue, to })
}
