// Queue tables: how one is made, and how one is taken away.
ghost use Rattle.std.specs.Prelude.{◌≡◌, ◌∷◌, [], ◌&&◌, ℕ, not, Ok, IfOk, IfErr};
ghost use Rattle.std.specs.List.{list_any};
ghost use Rattle.std.specs.Str.{bytes_eq};
ghost use Rattle.queue_rows.specs.Catalog.{judged, exception_row, is_of_table, is_table_used};
ghost use Rattle.queue_rows.specs.declared.change.Change.TheVariants.{PutQueue, PutTable};
ghost use Rattle.queue_rows.specs.declared.statement.Admin.TheVariants as asks;
ghost use Rattle.queue_catalog.specs.Judging.{Refuses};

use crate::changes::{one, two};
use crate::fault::CatalogFault;
use crate::lookup::exception_name;
use payload_records::{Boxed, Copied, List, Name, RecordType};
use place_keys::SortList;
use queue_rows::{Change, QueueKind, QueueRow, Reply, TableRow, Tables, find_queue, find_table};
use std::alloc::{AllocError, Global};

fn exception_row(table: &Name) -> Result<QueueRow, AllocError>
    ensures { IfOk result (λ row. row ≡ exception_row table.now) }
{
    Ok(QueueRow {
        name: exception_name(table)?,
        table: table.copied()?,
        kind: QueueKind::Exception,
        enqueue: false,
        dequeue: false,
        max_retries: 0,
        retry_delay: 0,
        retention: 0,
        lowest: 0,
    })
}

fn puts(alloc: Global, row: TableRow, exception: QueueRow) -> Result<List<Change>, AllocError>
    ensures { IfOk result (λ changes. changes ≡ PutTable row ∷ PutQueue exception ∷ []) }
{
    let row = Boxed::new(alloc, row)?;
    let exception = Boxed::new(alloc, exception)?;
    two(alloc, Change::PutTable(row), Change::PutQueue(exception))
}

/// A queue table comes with its default exception queue, which takes and gives no messages until it is started.
#[tactic(auto, unfolding(queue_rows::specs::Catalog::judged))]
pub(crate) fn create_table(
    alloc: Global,
    tables: &Tables,
    table: &Name,
    fields: &RecordType,
    sort: &SortList,
    multi: bool,
    grouped: bool,
) -> Result<List<Change>, CatalogFault>
    ensures changes { (now : ℕ) → IfOk result (λ changes.
        judged tables.now (asks.CreateTable table.now fields.now sort.now multi grouped) now ≡ Ok changes) }
    ensures refused { (now : ℕ) → IfErr result (Refuses
        (judged tables.now (asks.CreateTable table.now fields.now sort.now multi grouped) now)) }
{
    let exception = exception_row(table)?;
    if find_table(tables, table).is_some() || find_queue(tables, &exception.name).is_some() {
        return Err(CatalogFault::Refused(Reply::Exists));
    }
    let row = TableRow {
        name: table.copied()?,
        fields: fields.copied()?,
        columns: sort.copied()?,
        multi,
        grouped,
    };
    Ok(puts(alloc, row, exception)?)
}

fn is_further_queue(table: &Name, exception: &Name, queue: &QueueRow) -> bool
    ensures { result ≡ (is_of_table table.now queue.now && not (bytes_eq queue.now.name exception.now)) }
{
    queue.table == *table && queue.name != *exception
}

fn has_further_queue(tables: &Tables, table: &Name, exception: &Name) -> bool
    ensures { result ≡ list_any
        (λ q. is_of_table table.now q && not (bytes_eq q.name exception.now)) tables.now.queues }
{
    tables
        .queues
        .iter()
        .any(|queue| is_further_queue(table, exception, queue))
}

fn has_message(tables: &Tables, queue: &Name) -> bool
    ensures { result ≡ list_any (λ m. bytes_eq m.queue queue.now) tables.now.messages }
{
    tables
        .messages
        .iter()
        .any(|message| message.queue == *queue)
}

fn is_table_used(tables: &Tables, table: &Name) -> Result<bool, AllocError>
    ensures { IfOk result (λ used. used ≡ is_table_used tables.now table.now) }
{
    let exception = exception_name(table)?;
    Ok(has_further_queue(tables, table, &exception) || has_message(tables, &exception))
}

/// A queue table goes, and its default exception queue with it, if there is no other queue of it and no message.
#[tactic(auto, unfolding(queue_rows::specs::Catalog::judged))]
pub(crate) fn drop_table(
    alloc: Global,
    tables: &Tables,
    table: &Name,
) -> Result<List<Change>, CatalogFault>
    ensures changes { (now : ℕ) → IfOk result
        (λ changes. judged tables.now (asks.DropTable table.now) now ≡ Ok changes) }
    ensures refused { (now : ℕ) → IfErr result (Refuses (judged tables.now (asks.DropTable table.now) now)) }
{
    if find_table(tables, table).is_none() {
        return Err(CatalogFault::Refused(Reply::NoTable));
    }
    if is_table_used(tables, table)? {
        return Err(CatalogFault::Refused(Reply::InUse));
    }
    Ok(one(alloc, Change::DropTable(table.copied()?))?)
}
