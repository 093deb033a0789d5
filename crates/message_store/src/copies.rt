// Copies of changes.
ghost use Rattle.std.specs.Prelude.{◌≡◌, IfOk};
ghost use Rattle.queue_rows.specs.declared.change.Change.TheVariants as changes;

use payload_records::{Boxed, Copied, List, Name};
use queue_rows::{Change, MsgRow, QueueRow, ScheduleRow, SeenRow, SubRow, TableRow};
use std::alloc::AllocError;

fn table_put(row: &Boxed<TableRow>) -> Result<Change, AllocError>
    ensures { IfOk result (λ copy. copy ≡ changes.PutTable row.now) }
{
    Ok(Change::PutTable(row.copied()?))
}

fn table_drop(name: &Name) -> Result<Change, AllocError>
    ensures { IfOk result (λ copy. copy ≡ changes.DropTable name.now) }
{
    Ok(Change::DropTable(name.copied()?))
}

fn queue_put(row: &Boxed<QueueRow>) -> Result<Change, AllocError>
    ensures { IfOk result (λ copy. copy ≡ changes.PutQueue row.now) }
{
    Ok(Change::PutQueue(row.copied()?))
}

fn queue_drop(name: &Name) -> Result<Change, AllocError>
    ensures { IfOk result (λ copy. copy ≡ changes.DropQueue name.now) }
{
    Ok(Change::DropQueue(name.copied()?))
}

fn sub_put(row: &Boxed<SubRow>) -> Result<Change, AllocError>
    ensures { IfOk result (λ copy. copy ≡ changes.PutSub row.now) }
{
    Ok(Change::PutSub(row.copied()?))
}

fn sub_drop(queue: &Name, name: &Name) -> Result<Change, AllocError>
    ensures { IfOk result (λ copy. copy ≡ changes.DropSub queue.now name.now) }
{
    Ok(Change::DropSub {
        queue: queue.copied()?,
        name: name.copied()?,
    })
}

fn schedule_put(row: &Boxed<ScheduleRow>) -> Result<Change, AllocError>
    ensures { IfOk result (λ copy. copy ≡ changes.PutSchedule row.now) }
{
    Ok(Change::PutSchedule(row.copied()?))
}

fn schedule_drop(queue: &Name, to: &Name) -> Result<Change, AllocError>
    ensures { IfOk result (λ copy. copy ≡ changes.DropSchedule queue.now to.now) }
{
    Ok(Change::DropSchedule {
        queue: queue.copied()?,
        to: to.copied()?,
    })
}

fn enqueued(row: &Boxed<MsgRow>) -> Result<Change, AllocError>
    ensures { IfOk result (λ copy. copy ≡ changes.Enqueued row.now) }
{
    Ok(Change::Enqueued(row.copied()?))
}

fn moved(id: u64, queue: &Name, at: u64) -> Result<Change, AllocError>
    ensures { IfOk result (λ copy. copy ≡ changes.Moved id queue.now at) }
{
    Ok(Change::Moved {
        id,
        queue: queue.copied()?,
        at,
    })
}

fn seen(row: &SeenRow) -> Result<Change, AllocError>
    ensures { IfOk result (λ copy. copy ≡ changes.Seen row.now) }
{
    Ok(Change::Seen(row.copied()?))
}

/// A copy, which is the same change.
fn copy_of(change: &Change) -> Result<Change, AllocError>
    ensures { IfOk result (λ copy. copy ≡ change.now) }
{
    match change {
        Change::PutTable(row) => table_put(row),
        Change::DropTable(name) => table_drop(name),
        Change::PutQueue(row) => queue_put(row),
        Change::DropQueue(name) => queue_drop(name),
        Change::PutSub(row) => sub_put(row),
        Change::DropSub { queue, name } => sub_drop(queue, name),
        Change::PutSchedule(row) => schedule_put(row),
        Change::DropSchedule { queue, to } => schedule_drop(queue, to),
        Change::Enqueued(row) => enqueued(row),
        Change::Moved { id, queue, at } => moved(*id, queue, *at),
        Change::Seen(row) => seen(row),
        Change::Retried {
            id,
            slot,
            retries,
            until,
            at,
        } => Ok(Change::Retried {
            id: *id,
            slot: *slot,
            retries: *retries,
            until: *until,
            at: *at,
        }),
        Change::Ready { id, slot, at } => Ok(Change::Ready {
            id: *id,
            slot: *slot,
            at: *at,
        }),
        Change::Done { id, slot, at } => Ok(Change::Done {
            id: *id,
            slot: *slot,
            at: *at,
        }),
        Change::Expired { id, slot, at } => Ok(Change::Expired {
            id: *id,
            slot: *slot,
            at: *at,
        }),
        Change::Dropped { id, slot, at } => Ok(Change::Dropped {
            id: *id,
            slot: *slot,
            at: *at,
        }),
        Change::Purged { id } => Ok(Change::Purged { id: *id }),
        Change::Counters {
            next,
            transaction,
            latest,
        } => Ok(Change::Counters {
            next: *next,
            transaction: *transaction,
            latest: *latest,
        }),
    }
}

/// Copies, which are the same changes. Mostly few changes come of a commit: so there is room for them and for no more.
pub(crate) fn copies_of(changes: &List<Change>) -> Result<List<Change>, AllocError>
    ensures { IfOk result (λ copies. copies ≡ changes.now) }
{
    let mut copies = List::from_vec(Vec::with_capacity(changes.allocator(), changes.len())?);
    for change in changes {
        copies.push(copy_of(change)?)?;
    }
    Ok(copies)
}
