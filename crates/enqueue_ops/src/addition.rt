// The number and the moment of a message that is added, and what it has in the columns of its table.
ghost use Rattle.std.specs.Prelude.{◌≡◌, ◌≤◌, ◌^◌, map, IfOk};
ghost use Rattle.queue_rows.specs.Commits.{column_value};

use place_keys::{Column, SortList};
use smallvec::SmallVec;
use std::alloc::{AllocError, Global};

/// The number that a message gets, and the moment at which it is put in.
#[derive(Clone, Copy)]
pub struct Stamp {
    /// The message's id.
    pub id: u64,
    /// The moment.
    pub moment: u64,
}

fn column_value(priority: i64, moment: u64, column: Column) -> i64
    requires { moment ≤ 2 ^ 62 }
    ensures { result ≡ column_value priority moment moment column }
{
    match column {
        Column::Priority => priority,
        Column::EnqTime | Column::CommitTime => moment as i64,
    }
}

/// What a message has in the columns of a sort list until its commit, whose moment is not known yet: its own stands for it.
pub(crate) fn column_values(
    alloc: Global,
    sort: &SortList,
    priority: i64,
    moment: u64,
) -> Result<SmallVec<i64, 2>, AllocError>
    requires { moment ≤ 2 ^ 62 }
    ensures { IfOk result (λ values. values.items ≡ map (column_value priority moment moment) sort.now) }
{
    let mut values = SmallVec::new(alloc);
    for column in sort.columns() {
        values.push(column_value(priority, moment, *column))?;
    }
    Ok(values)
}
