// Queue tables that are right.
ghost use Rattle.std.specs.Prelude.{◌≡◌, false, IfOk};
ghost use Rattle.std.specs.List.{list_all};
ghost use Rattle.std.specs.Option.{option_map_or};
ghost use Rattle.queue_rows.specs.Rows.{find_queue, exception_name};
ghost use Rattle.queue_rows.specs.Valid.{is_default_exception, is_valid_table};

use crate::catalog::Catalog;
use crate::named::NamedRows;
use payload_records::{FIELD_LIMIT, Name};
use queue_rows::{QueueRow, TableRow};
use std::alloc::AllocError;

fn is_default_exception(table: &Name, queue: &QueueRow) -> bool
    ensures { result ≡ is_default_exception table.now queue.now }
{
    queue.kind.is_exception() && queue.table == *table
}

fn has_default_exception<R: NamedRows>(rows: &R, table: &Name) -> Result<bool, AllocError>
    ensures { IfOk result (λ has. has
        ≡ option_map_or (is_default_exception table.now)
        (find_queue (R.tables rows.now) (exception_name table.now)) false) }
{
    let name = table.with_suffix("_e")?;
    match rows.queue(&name) {
        Some(queue) => Ok(is_default_exception(table, queue)),
        None => Ok(false),
    }
}

/// Whether the queue table has no more fields than a record type, and its default exception queue is there, of kind exception. The
/// error is want of memory.
pub fn is_valid_table<R: NamedRows>(rows: &R, table: &TableRow) -> Result<bool, AllocError>
    ensures { IfOk result (λ valid. valid ≡ is_valid_table (R.tables rows.now) table.now) }
{
    Ok(table.fields.fields().len() <= FIELD_LIMIT && has_default_exception(rows, &table.name)?)
}

/// Whether each queue table is right.
pub(crate) fn are_valid_tables(catalog: &Catalog<'_>) -> Result<bool, AllocError>
    ensures { IfOk result (λ valid. valid ≡ list_all (is_valid_table catalog.now) catalog.now.tables) }
{
    for table in &catalog.tables().tables {
        if !is_valid_table(catalog, table)? {
            return Ok(false);
        }
    }
    Ok(true)
}
