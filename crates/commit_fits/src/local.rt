// Changes that are local: what they do not name stays as right as it was.
ghost use Rattle.std.specs.Prelude.{◌≡◌, ◌&&◌, IfOk, not, true};
ghost use Rattle.std.specs.List.{list_any};
ghost use Rattle.std.specs.Option.{option_map_or};
ghost use Rattle.std.specs.Str.{bytes_eq};
ghost use Rattle.queue_rows.specs.Rows.{find_queue};
ghost use Rattle.queue_rows.specs.Catalog.{is_of_table, is_table_used};
ghost use Rattle.queue_rows.specs.Settling.{is_exception};
ghost use Rattle.fit_laws.specs.FitLaws.{is_same_kind, stands_for, is_further, goes_alone, is_local};

use payload_records::Name;
use queue_rows::{Change, QueueKind, QueueRow, Tables, find_queue, find_table};
use std::alloc::AllocError;

// ---- a queue is put

fn is_same_kind(left: QueueKind, right: QueueKind) -> bool
    ensures { result ≡ is_same_kind left right }
{
    if left.is_exception() {
        right.is_exception()
    } else {
        !right.is_exception()
    }
}

// Whether a queue may stand where another stood.
fn stands_for(row: &QueueRow, queue: &QueueRow) -> bool
    ensures { result ≡ stands_for row.now queue.now }
{
    row.table == queue.table
        && is_same_kind(row.kind, queue.kind)
        && queue.max_retries <= row.max_retries
        && row.lowest <= queue.lowest
}

fn may_be_put(tables: &Tables, row: &QueueRow) -> bool
    ensures { result ≡ option_map_or (stands_for row.now) (find_queue tables.now row.now.name) true }
{
    match find_queue(tables, &row.name) {
        Some(queue) => stands_for(row, queue),
        None => true,
    }
}

// ---- a queue goes

// Whether it is not the default exception queue of its table.
fn is_further(queue: &QueueRow) -> Result<bool, AllocError>
    ensures { IfOk result (λ further. further ≡ is_further queue.now) }
{
    let exception = queue.table.with_suffix("_e")?;
    Ok(queue.name != exception)
}

fn may_go(tables: &Tables, name: &Name) -> Result<bool, AllocError>
    ensures { IfOk result (λ may. may ≡ option_map_or is_further (find_queue tables.now name.now) true) }
{
    match find_queue(tables, name) {
        Some(queue) => is_further(queue),
        None => Ok(true),
    }
}

// ---- a queue table goes

fn is_exception_if_there(tables: &Tables, name: &Name) -> bool
    ensures { result ≡ option_map_or (λ q. is_exception q.kind) (find_queue tables.now name.now) true }
{
    match find_queue(tables, name) {
        Some(queue) => queue.kind.is_exception(),
        None => true,
    }
}

fn is_further_queue(table: &Name, exception: &Name, queue: &QueueRow) -> bool
    ensures { result ≡ (is_of_table table.now queue.now && not (bytes_eq queue.now.name exception.now)) }
{
    queue.table == *table && queue.name != *exception
}

fn has_further_queue(tables: &Tables, table: &Name, exception: &Name) -> bool
    ensures { result ≡ list_any
        (λ q. is_of_table table.now q && not (bytes_eq q.name exception.now)) tables.now.queues }
{
    tables
        .queues
        .iter()
        .any(|queue| is_further_queue(table, exception, queue))
}

fn has_message(tables: &Tables, queue: &Name) -> bool
    ensures { result ≡ list_any (λ m. bytes_eq m.queue queue.now) tables.now.messages }
{
    tables
        .messages
        .iter()
        .any(|message| message.queue == *queue)
}

// Whether the table takes nothing with it but an exception queue in which no message stands, and leaves no queue behind.
fn goes_alone(tables: &Tables, table: &Name) -> Result<bool, AllocError>
    ensures { IfOk result (λ alone. alone ≡ goes_alone tables.now table.now) }
{
    let exception = table.with_suffix("_e")?;
    Ok(
        is_exception_if_there(tables, &exception)
            && !(has_further_queue(tables, table, &exception) || has_message(tables, &exception)),
    )
}

// ---- all of them

/// Whether what the change does not name stays as right as it was. So it is where a queue table is put that is new, and where a queue is
/// put that is new, or that stands where one of its table and kind stood, for as many retries or more and with a lowest lane that is no
/// higher; where a queue goes that is not the default exception queue of its table; and where a table goes with an exception queue in
/// which no message stands, and no other queue is of it. Of numbers that are set it is not said. The error is want of memory.
pub fn is_local(tables: &Tables, change: &Change) -> Result<bool, AllocError>
    ensures { IfOk result (λ local. local ≡ is_local tables.now change.now) }
{
    match change {
        Change::PutTable(row) => Ok(find_table(tables, &row.get().name).is_none()),
        Change::DropTable(name) => goes_alone(tables, name),
        Change::PutQueue(row) => Ok(may_be_put(tables, row.get())),
        Change::DropQueue(name) => may_go(tables, name),
        Change::Counters { .. } => Ok(false),
        _ => Ok(true),
    }
}
