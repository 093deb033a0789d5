// Tables that are valid.
ghost use Rattle.std.specs.Prelude.{◌≡◌, ◌&&◌, IfOk, nat_lt};
ghost use Rattle.std.specs.List.{list_all};
ghost use Rattle.queue_rows.specs.Valid.{is_valid_table, is_valid_queue, is_valid_sub, is_valid_schedule, is_valid_message, is_valid};

use crate::catalog::Catalog;
use crate::distinct::has_distinct_rows;
use crate::messages::are_valid_messages;
use crate::numbers::has_right_numbers;
use crate::queues::are_valid_queues;
use crate::subscribers::{are_valid_schedules, are_valid_subs};
use crate::tables::are_valid_tables;
use queue_rows::Tables;
use std::alloc::{AllocError, Global};

// Each copy has a number that was given.
fn are_valid_seen(tables: &Tables) -> bool
    ensures { result ≡ list_all (λ s. nat_lt s.copy tables.now.next) tables.now.seen }
{
    tables.seen.iter().all(|row| row.copy < tables.next)
}

fn are_valid_rows(alloc: Global, tables: &Tables) -> Result<bool, AllocError>
    ensures { IfOk result (λ valid. valid ≡ (list_all (is_valid_table tables.now) tables.now.tables
        && list_all (is_valid_queue tables.now) tables.now.queues
        && list_all (is_valid_sub tables.now) tables.now.subs
        && list_all (is_valid_schedule tables.now) tables.now.schedules
        && list_all (is_valid_message tables.now) tables.now.messages)) }
{
    let catalog = Catalog::of(alloc, tables)?;
    Ok(
        are_valid_tables(&catalog)?
            && are_valid_queues(&catalog)
            && are_valid_subs(&catalog)?
            && are_valid_schedules(&catalog)
            && are_valid_messages(&catalog),
    )
}

/// Whether the tables of a database are valid: each row by itself, and with the rows that it refers to. The error is want
/// of memory.
#[tactic(auto, unfolding(queue_rows::specs::Valid::is_valid))]
pub fn is_valid(alloc: Global, tables: &Tables) -> Result<bool, AllocError>
    ensures { IfOk result (λ valid. valid ≡ is_valid tables.now) }
{
    Ok(
        has_right_numbers(tables)
            && has_distinct_rows(alloc, tables)?
            && are_valid_rows(alloc, tables)?
            && are_valid_seen(tables),
    )
}
