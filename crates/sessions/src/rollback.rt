// What a session's rollback commits.
ghost use Rattle.std.specs.Prelude.{◌≡◌, ◌<◌, ◌≤◌, ◌^◌, ◌++◌, All, IfOk, IfSome, OnOk, option_copied};
ghost use Rattle.queue_rows.specs.Transactions.{retry_until, retry_of, rollback_of};
ghost use Rattle.sessions.specs.Numbers.{IsCountable, AreCountable, IsDelaying};
ghost use Rattle.sessions.specs.Retries.{expiry_at, retried_at, slot_retried, retried_in, retried_for, retries_of};

use crate::SessionState;
use exception_queues::settle;
use payload_records::List;
use queue_rows::{Change, MessageTables, MsgRow, Pending, QueueRow, SlotRow, Tables, find_queue};
use std::alloc::AllocError;

/// A slot that a session removed, and the moment at which it rolls that back.
#[derive(Clone, Copy)]
pub struct Removal {
    /// The number of the message.
    pub id: u64,
    /// The slot of the message.
    pub slot: u64,
    /// The moment.
    pub moment: u64,
}

fn retry_until(queue: &QueueRow, retries: u64, moment: u64) -> Option<u64>
    requires moment { moment ≤ 2 ^ 62 }
    requires delay { IsDelaying queue.now }
    ensures { result ≡ retry_until queue.now retries moment }
{
    if retries > queue.max_retries || queue.retry_delay == 0 {
        None
    } else {
        Some(moment + queue.retry_delay)
    }
}

fn expire(
    made: &mut List<Change>,
    queue: &QueueRow,
    retries: u64,
    at: Removal,
) -> Result<(), AllocError>
    ensures { OnOk result (made.new ≡ made.old ++ expiry_at queue.now retries at) }
{
    if retries > queue.max_retries {
        made.push(Change::Expired {
            id: at.id,
            slot: at.slot,
            at: at.moment,
        })
    } else {
        Ok(())
    }
}

fn retry_to(
    made: &mut List<Change>,
    queue: &QueueRow,
    retries: u64,
    at: Removal,
) -> Result<(), AllocError>
    requires moment { at.moment ≤ 2 ^ 62 }
    requires delay { IsDelaying queue.now }
    ensures { OnOk result (made.new ≡ made.old ++ retried_at queue.now retries at) }
{
    made.push(Change::Retried {
        id: at.id,
        slot: at.slot,
        retries,
        until: retry_until(queue, retries, at.moment),
        at: at.moment,
    })?;
    expire(made, queue, retries, at)
}

fn retry_slot(
    made: &mut List<Change>,
    queue: &QueueRow,
    row: Option<&SlotRow>,
    at: Removal,
) -> Result<(), AllocError>
    requires moment { at.moment ≤ 2 ^ 62 }
    requires delay { IsDelaying queue.now }
    requires retries { IfSome (option_copied row) IsCountable }
    ensures { OnOk result (made.new ≡ made.old ++ slot_retried queue.now (option_copied row.entry) at) }
{
    match row {
        Some(row) => retry_to(made, queue, row.retries + 1, at),
        None => Ok(()),
    }
}

#[tactic(auto, using(crate::proofs::Each::got_each))]
fn retry_in(
    made: &mut List<Change>,
    queue: Option<&QueueRow>,
    message: &MsgRow,
    at: Removal,
) -> Result<(), AllocError>
    requires moment { at.moment ≤ 2 ^ 62 }
    requires delay { IfSome (option_copied queue) IsDelaying }
    requires retries { AreCountable message.now }
    ensures { OnOk result (made.new ≡ made.old ++ retried_in (option_copied queue.entry) message.now at) }
{
    let Some(queue) = queue else {
        return Ok(());
    };
    if queue.kind.is_exception() {
        return Ok(());
    }
    retry_slot(made, queue, message.slot(at.slot), at)
}

#[tactic(auto, using(crate::proofs::Each::found_each))]
fn retry_message(
    made: &mut List<Change>,
    tables: &Tables,
    message: Option<&MsgRow>,
    at: Removal,
) -> Result<(), AllocError>
    requires moment { at.moment ≤ 2 ^ 62 }
    requires delays { All IsDelaying tables.now.queues }
    requires retries { IfSome (option_copied message) AreCountable }
    ensures { OnOk result (made.new ≡ made.old ++ retried_for tables.now (option_copied message.entry) at) }
{
    match message {
        Some(message) => {
            let queue = find_queue(tables, &message.queue);
            retry_in(made, queue, message, at)
        }
        None => Ok(()),
    }
}

#[tactic(auto, using(crate::proofs::Each::found_each))]
fn retry<T: MessageTables>(
    made: &mut List<Change>,
    tables: &T,
    pending: &Pending,
    moment: u64,
) -> Result<(), AllocError>
    requires moment { moment ≤ 2 ^ 62 }
    requires delays { All IsDelaying (T.tables tables.now).queues }
    requires retries { All AreCountable (T.tables tables.now).messages }
    ensures { OnOk result (made.new ≡ made.old ++ retry_of (T.tables tables.now) moment pending.now) }
{
    match pending {
        Pending::Add(_) => Ok(()),
        Pending::Remove { id, slot } => {
            let message = tables.message(*id);
            let at = Removal {
                id: *id,
                slot: u64::from(*slot),
                moment,
            };
            retry_message(made, tables.tables(), message, at)
        }
    }
}

fn retries_of<T: MessageTables>(
    tables: &T,
    pending: &List<Pending>,
    moment: u64,
) -> Result<List<Change>, AllocError>
    requires moment { moment ≤ 2 ^ 62 }
    requires delays { All IsDelaying (T.tables tables.now).queues }
    requires retries { All AreCountable (T.tables tables.now).messages }
    ensures { IfOk result (λ changes. changes ≡ retries_of (T.tables tables.now) moment pending.now) }
{
    let mut changes = List::new(pending.allocator());
    for pending in pending {
        retry(&mut changes, tables, pending, moment)?;
    }
    Ok(changes)
}

/// What a session's pending additions and removals become when it rolls back at that moment.
pub fn rollback_changes<T: MessageTables>(
    tables: &T,
    session: &SessionState,
    moment: u64,
) -> Result<List<Change>, AllocError>
    requires moment { moment ≤ 2 ^ 62 }
    requires delays { All IsDelaying (T.tables tables.now).queues }
    requires retries { All AreCountable (T.tables tables.now).messages }
    ensures { IfOk result (λ it. it ≡ rollback_of (T.tables tables.now) moment session.now.pending) }
{
    settle(tables, retries_of(tables, &session.pending, moment)?)
}
