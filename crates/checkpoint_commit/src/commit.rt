// The commit of a checkpoint.
ghost use Rattle.std.specs.Prelude.{◌≡◌, IfOk};
ghost use Rattle.checkpoint_commit.specs.Checkpoint.{checkpoint_of};

use crate::rows::{put_messages, put_named_rows, put_paired_rows, put_rows};
use payload_records::List;
use queue_rows::{Change, Commit, Tables};
use std::alloc::{AllocError, Global};

// How many rows there are; as many as a number can count, where there are more.
fn row_count(tables: &Tables) -> usize {
    let catalogue = tables.tables.len().saturating_add(tables.queues.len());
    let subscriptions = tables.subs.len().saturating_add(tables.schedules.len());
    let messages = tables.messages.len().saturating_add(tables.seen.len());
    catalogue
        .saturating_add(subscriptions)
        .saturating_add(messages)
}

/// The commit that leads from no rows to these tables: their numbers, and then what puts each row, at their latest moment.
/// It fails only for want of memory.
#[tactic(auto, unfolding(crate::specs::Checkpoint::checkpoint_of))]
pub fn checkpoint_commit(alloc: Global, tables: &Tables) -> Result<Commit, AllocError>
    ensures { IfOk result (λ commit. commit ≡ checkpoint_of tables.now) }
{
    let mut changes = Vec::with_capacity(alloc, row_count(tables).saturating_add(1))?;
    changes.push(Change::Counters {
        next: tables.next,
        transaction: tables.transaction,
        latest: tables.latest,
    })?;
    put_named_rows(&mut changes, &tables.tables)?;
    put_named_rows(&mut changes, &tables.queues)?;
    put_named_rows(&mut changes, &tables.subs)?;
    put_rows(&mut changes, &tables.schedules)?;
    put_messages(&mut changes, &tables.messages)?;
    put_paired_rows(&mut changes, &tables.seen)?;
    Ok(Commit {
        moment: tables.latest,
        changes: List::from_vec(changes),
    })
}
