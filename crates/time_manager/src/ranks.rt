// Where the messages stand of which something may be due.
ghost use Rattle.std.specs.Prelude.{◌≡◌, ◌++◌, ◌<◌, ◌^◌, true, IfOk, OnOk, filter};
ghost use Rattle.std.specs.List.{range_with_len};
ghost use Rattle.std.specs.Option.{option_to_list};
ghost use Rattle.due_index.specs.Due.{is_due};
ghost use Rattle.queue_rows.specs.Distinct.{are_distinct};
ghost use Rattle.queue_rows.specs.Valid.{is_same_message};
ghost use Rattle.time_manager.specs.Ranks.{AreDueRanks, GiveAll, rank_of, ranks_of};
ghost use Rattle.time_manager.specs.Watching.{watch_of};

use crate::watching::Watching;
use due_index::DueIndex;
use due_slots::DueTables;
use std::alloc::{AllocError, Global};

fn push_rank<T: DueTables>(ranks: &mut Vec<usize>, store: &T, id: u64) -> Result<(), AllocError>
    ensures { OnOk result (ranks.new.items ≡ ranks.old.items
        ++ option_to_list (rank_of (T.tables store.now).messages id)) }
{
    if let Some(rank) = store.rank_of(id) {
        ranks.push(rank)?;
    }
    Ok(())
}

// In the order of the rows, and as often as there are rows of the message.
fn ranks_in_turn<T: DueTables>(
    store: &T,
    rows: &DueIndex,
    moment: u64,
    alloc: Global,
) -> Result<Vec<usize>, AllocError>
    ensures { IfOk result (λ ranks. ranks.items
        ≡ ranks_of (T.tables store.now).messages (filter (is_due moment) rows.now.rows)) }
{
    let mut ranks = Vec::new(alloc);
    let mut next = rows.due(moment);
    while let Some(row) = next {
        push_rank(&mut ranks, store, row.1)?;
        next = rows.after(row, moment);
    }
    Ok(ranks)
}

// Where the messages stand that have a row at or before the moment, each once, in the order of the messages.
fn due_ranks<T: DueTables>(
    store: &T,
    rows: &DueIndex,
    moment: u64,
    alloc: Global,
) -> Result<Vec<usize>, AllocError>
    ensures { let messages = (T.tables store.now).messages in
        IfOk result (λ ranks. AreDueRanks messages rows.now.rows moment ranks.items) }
{
    let mut ranks = ranks_in_turn(store, rows, moment, alloc)?;
    ranks.sort()?;
    ranks.dedup();
    Ok(ranks)
}

// Where all messages stand.
fn all_ranks(count: usize, alloc: Global) -> Result<Vec<usize>, AllocError>
    ensures { IfOk result (λ ranks. ranks.items ≡ range_with_len 0 count) }
{
    let mut ranks = Vec::new(alloc);
    for rank in 0..count {
        ranks.push(rank)?;
    }
    Ok(ranks)
}

/// Where the messages stand of which something may be due: by the rows, where they are kept, and else all.
pub(crate) fn named_ranks<T: DueTables>(
    store: &T,
    watching: &Watching<'_>,
    alloc: Global,
) -> Result<Vec<usize>, AllocError>
    requires tables { watching.now.tables.now ≡ T.tables store.now }
    requires moment { watching.now.moment < 2 ^ 64 }
    requires distinct { are_distinct is_same_message (T.tables store.now).messages ≡ true }
    ensures { IfOk result (λ ranks. GiveAll (watch_of watching.now) ranks.items) }
{
    match store.due_rows() {
        Some(rows) => due_ranks(store, rows, watching.moment, alloc),
        None => all_ranks(watching.tables.messages.len(), alloc),
    }
}
