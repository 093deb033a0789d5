// The rows of tables as the changes that put them.
ghost use Rattle.std.specs.Prelude.{◌≡◌, ◌++◌, map, IfOk, OnOk};
ghost use Rattle.queue_rows.specs.declared.change.Change.{Change};
ghost use Rattle.queue_rows.specs.declared.change.Change.TheVariants.{PutTable, PutQueue, PutSub, PutSchedule, Enqueued, Seen};

use named_list::{Named, NamedList};
use pair_list::{PairList, Paired};
use payload_records::{Boxed, Copied, List};
use queue_rows::{Change, MsgRow, QueueRow, ScheduleRow, SeenRow, SubRow, TableRow};
use row_tree::Tree;
use std::alloc::{AllocError, Global};

/// A row that a change puts.
pub(crate) trait Row: Copied {
    /// The change that puts it.
    ghost put: { Self → Change };

    /// The change that puts it.
    fn into_change(self, alloc: Global) -> Result<Change, AllocError>
        ensures { IfOk result (λ change. change ≡ put self) };
}

impl Row for TableRow {
    ghost put = { PutTable };

    fn into_change(self, alloc: Global) -> Result<Change, AllocError> {
        Ok(Change::PutTable(Boxed::new(alloc, self)?))
    }
}

impl Row for QueueRow {
    ghost put = { PutQueue };

    fn into_change(self, alloc: Global) -> Result<Change, AllocError> {
        Ok(Change::PutQueue(Boxed::new(alloc, self)?))
    }
}

impl Row for SubRow {
    ghost put = { PutSub };

    fn into_change(self, alloc: Global) -> Result<Change, AllocError> {
        Ok(Change::PutSub(Boxed::new(alloc, self)?))
    }
}

impl Row for ScheduleRow {
    ghost put = { PutSchedule };

    fn into_change(self, alloc: Global) -> Result<Change, AllocError> {
        Ok(Change::PutSchedule(Boxed::new(alloc, self)?))
    }
}

impl Row for SeenRow {
    ghost put = { Seen };

    fn into_change(self, _alloc: Global) -> Result<Change, AllocError> {
        Ok(Change::Seen(self))
    }
}

/// Puts at the end of changes what puts each of these rows, in order.
pub(crate) fn put_rows<R: Row>(changes: &mut Vec<Change>, rows: &List<R>) -> Result<(), AllocError>
    ensures { OnOk result (changes.new.items ≡ changes.old.items ++ map R.put rows.now) }
{
    let alloc = *changes.allocator();
    for row in rows {
        changes.push(row.copied()?.into_change(alloc)?)?;
    }
    Ok(())
}

/// Puts at the end of changes what puts each of these rows, which have names, in order.
pub(crate) fn put_named_rows<R: Row + Named>(
    changes: &mut Vec<Change>,
    rows: &NamedList<R>,
) -> Result<(), AllocError>
    ensures { OnOk result (changes.new.items ≡ changes.old.items ++ map R.put rows.now) }
{
    let alloc = *changes.allocator();
    for row in rows {
        changes.push(row.copied()?.into_change(alloc)?)?;
    }
    Ok(())
}

/// Puts at the end of changes what puts each of these rows, which have pairs, in order.
pub(crate) fn put_paired_rows<R: Row + Paired>(
    changes: &mut Vec<Change>,
    rows: &PairList<R>,
) -> Result<(), AllocError>
    ensures { OnOk result (changes.new.items ≡ changes.old.items ++ map R.put rows.now) }
{
    let alloc = *changes.allocator();
    for row in rows {
        changes.push(row.copied()?.into_change(alloc)?)?;
    }
    Ok(())
}

/// Puts at the end of changes what puts each of these messages, in order.
pub(crate) fn put_messages(
    changes: &mut Vec<Change>,
    messages: &Tree<MsgRow>,
) -> Result<(), AllocError>
    ensures { OnOk result (changes.new.items ≡ changes.old.items ++ map Enqueued messages.now) }
{
    let alloc = *changes.allocator();
    for message in messages {
        changes.push(Change::Enqueued(Boxed::new(alloc, message.copied()?)?))?;
    }
    Ok(())
}
