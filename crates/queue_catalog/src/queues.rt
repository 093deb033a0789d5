// Queues: how one is made, taken away, turned on and turned off.
ghost use Rattle.std.specs.Prelude.{◌≡◌, ℕ, Ok, IfOk, IfErr};
ghost use Rattle.queue_rows.specs.Rows.{find_queue};
ghost use Rattle.queue_rows.specs.Catalog.{judged, drop_queue, is_queue_used, start, started, stop, stopped};
ghost use Rattle.queue_rows.specs.declared.statement.Admin.TheVariants as asks;
ghost use Rattle.queue_catalog.specs.Judging.{Refuses};

use crate::changes::one;
use crate::fault::CatalogFault;
use crate::lookup::exception_name;
use payload_records::{Boxed, Copied, List, Name};
use queue_rows::{Change, QueueKind, QueueRow, Reply, Tables, find_queue, find_table};
use std::alloc::{AllocError, Global};

/// What a new queue is for, and how it treats its messages.
#[derive(Clone, Copy)]
pub(crate) struct QueueSettings {
    /// What it is for.
    pub(crate) kind: QueueKind,
    /// How often a removal may be rolled back.
    pub(crate) max_retries: u64,
    /// How long a message waits after a rollback, in seconds.
    pub(crate) retry_delay: u64,
    /// How long a message is kept after its last removal, in seconds.
    pub(crate) retention: u64,
}

/// A new queue neither takes nor gives messages.
#[tactic(auto, unfolding(queue_rows::specs::Catalog::judged))]
pub(crate) fn create_queue(
    alloc: Global,
    tables: &Tables,
    queue: &Name,
    table: &Name,
    settings: QueueSettings,
) -> Result<List<Change>, CatalogFault>
    ensures changes { (now : ℕ) → IfOk result (λ changes. judged tables.now
        (asks.CreateQueue queue.now table.now
        settings.kind settings.max_retries settings.retry_delay settings.retention) now
        ≡ Ok changes) }
    ensures refused { (now : ℕ) → IfErr result (Refuses (judged tables.now
        (asks.CreateQueue queue.now table.now
        settings.kind settings.max_retries settings.retry_delay settings.retention) now)) }
{
    if find_table(tables, table).is_none() {
        return Err(CatalogFault::Refused(Reply::NoTable));
    }
    if find_queue(tables, queue).is_some() {
        return Err(CatalogFault::Refused(Reply::Exists));
    }
    let row = QueueRow {
        name: queue.copied()?,
        table: table.copied()?,
        kind: settings.kind,
        enqueue: false,
        dequeue: false,
        max_retries: settings.max_retries,
        retry_delay: settings.retry_delay,
        retention: settings.retention,
        lowest: 0,
    };
    Ok(one(alloc, Change::PutQueue(Boxed::new(alloc, row)?))?)
}

fn is_queue_used(queue: &QueueRow) -> Result<bool, AllocError>
    ensures { IfOk result (λ used. used ≡ is_queue_used queue.now) }
{
    let exception = exception_name(&queue.table)?;
    Ok(queue.enqueue || queue.dequeue || queue.name == exception)
}

/// A queue goes that is turned off, if it is no default exception queue.
pub(crate) fn drop_queue(
    alloc: Global,
    tables: &Tables,
    queue: &Name,
) -> Result<List<Change>, CatalogFault>
    ensures changes { IfOk result (λ changes. drop_queue (find_queue tables.now queue.now) ≡ Ok changes) }
    ensures refused { IfErr result (Refuses (drop_queue (find_queue tables.now queue.now))) }
{
    let Some(row) = find_queue(tables, queue) else {
        return Err(CatalogFault::Refused(Reply::NoQueue));
    };
    if is_queue_used(row)? {
        return Err(CatalogFault::Refused(Reply::InUse));
    }
    Ok(one(alloc, Change::DropQueue(row.name.copied()?))?)
}

fn started(row: &QueueRow, enqueue: Option<bool>, dequeue: bool) -> Result<QueueRow, AllocError>
    ensures { IfOk result (λ new. new ≡ started row.now enqueue dequeue) }
{
    let mut new = row.copied()?;
    let takes = enqueue.unwrap_or(!new.kind.is_exception());
    new.enqueue = new.enqueue || takes;
    new.dequeue = new.dequeue || dequeue;
    Ok(new)
}

/// What is asked for is turned on, and the rest stays.
pub(crate) fn start_queue(
    alloc: Global,
    tables: &Tables,
    queue: &Name,
    enqueue: Option<bool>,
    dequeue: bool,
) -> Result<List<Change>, CatalogFault>
    ensures changes { IfOk result
        (λ changes. start (find_queue tables.now queue.now) enqueue dequeue ≡ Ok changes) }
    ensures refused { IfErr result (Refuses (start (find_queue tables.now queue.now) enqueue dequeue)) }
{
    let Some(row) = find_queue(tables, queue) else {
        return Err(CatalogFault::Refused(Reply::NoQueue));
    };
    if row.kind.is_exception() && enqueue.unwrap_or(false) {
        return Err(CatalogFault::Refused(Reply::WrongKind));
    }
    let new = Boxed::new(alloc, started(row, enqueue, dequeue)?)?;
    Ok(one(alloc, Change::PutQueue(new))?)
}

fn stopped(row: &QueueRow, enqueue: bool, dequeue: bool) -> Result<QueueRow, AllocError>
    ensures { IfOk result (λ new. new ≡ stopped row.now enqueue dequeue) }
{
    let mut new = row.copied()?;
    new.enqueue = new.enqueue && !enqueue;
    new.dequeue = new.dequeue && !dequeue;
    Ok(new)
}

/// What is asked for is turned off, and the rest stays.
pub(crate) fn stop_queue(
    alloc: Global,
    tables: &Tables,
    queue: &Name,
    enqueue: bool,
    dequeue: bool,
) -> Result<List<Change>, CatalogFault>
    ensures changes { IfOk result
        (λ changes. stop (find_queue tables.now queue.now) enqueue dequeue ≡ Ok changes) }
    ensures refused { IfErr result (Refuses (stop (find_queue tables.now queue.now) enqueue dequeue)) }
{
    let Some(row) = find_queue(tables, queue) else {
        return Err(CatalogFault::Refused(Reply::NoQueue));
    };
    let new = Boxed::new(alloc, stopped(row, enqueue, dequeue)?)?;
    Ok(one(alloc, Change::PutQueue(new))?)
}
