// All administrative statements.
ghost use Rattle.std.specs.Prelude.{◌≡◌, Ok, IfOk, IfErr};
ghost use Rattle.queue_rows.specs.Catalog.{judged};
ghost use Rattle.queue_catalog.specs.Judging.{Refuses};

use crate::fault::CatalogFault;
use crate::queues::{QueueSettings, create_queue, drop_queue, start_queue, stop_queue};
use crate::schedules::{ScheduleTimes, disable_schedule, enable_schedule, schedule, unschedule};
use crate::subscribers::{add_subscriber, remove_subscriber};
use crate::tables::{create_table, drop_table};
use payload_records::List;
use queue_rows::{Admin, Change, Tables};
use std::alloc::Global;

/// What an administrative statement changes at a moment, or the first cause to refuse it. Whether work on what it takes
/// away is outstanding is not asked, and what the changes settle is not among them. Nothing is changed here.
#[tactic(auto, unfolding(queue_rows::specs::Catalog::judged))]
pub fn judge(
    alloc: Global,
    tables: &Tables,
    ask: &Admin,
    moment: u64,
) -> Result<List<Change>, CatalogFault>
    ensures changes { IfOk result (λ changes. judged tables.now ask.now moment ≡ Ok changes) }
    ensures refused { IfErr result (Refuses (judged tables.now ask.now moment)) }
{
    match ask {
        Admin::CreateTable {
            table,
            fields,
            sort,
            multi,
            grouped,
        } => create_table(alloc, tables, table, fields, sort, *multi, *grouped),
        Admin::DropTable { table } => drop_table(alloc, tables, table),
        Admin::CreateQueue {
            queue,
            table,
            kind,
            max_retries,
            retry_delay,
            retention,
        } => {
            let settings = QueueSettings {
                kind: *kind,
                max_retries: *max_retries,
                retry_delay: *retry_delay,
                retention: *retention,
            };
            create_queue(alloc, tables, queue, table, settings)
        }
        Admin::DropQueue { queue } => drop_queue(alloc, tables, queue),
        Admin::StartQueue {
            queue,
            enqueue,
            dequeue,
        } => start_queue(alloc, tables, queue, *enqueue, *dequeue),
        Admin::StopQueue {
            queue,
            enqueue,
            dequeue,
        } => stop_queue(alloc, tables, queue, *enqueue, *dequeue),
        Admin::AddSubscriber {
            queue,
            name,
            address,
            rule,
        } => add_subscriber(alloc, tables, queue, name, address, rule),
        Admin::RemoveSubscriber { queue, name } => {
            remove_subscriber(alloc, tables, queue, name, moment)
        }
        Admin::Schedule {
            queue,
            to,
            start,
            duration,
            period,
            latency,
        } => {
            let times = ScheduleTimes {
                start: *start,
                duration: *duration,
                period: *period,
                latency: *latency,
            };
            schedule(alloc, tables, queue, to, times, moment)
        }
        Admin::Unschedule { queue, to } => unschedule(alloc, tables, queue, to),
        Admin::EnableSchedule { queue, to } => enable_schedule(alloc, tables, queue, to),
        Admin::DisableSchedule { queue, to } => disable_schedule(alloc, tables, queue, to),
    }
}
