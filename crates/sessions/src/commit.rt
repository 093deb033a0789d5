// What a session commits.
ghost use Rattle.std.specs.Prelude.{◌≡◌, ◌<◌, ◌≤◌, ◌^◌, [], ◌∷◌, All, IfOk, IfSome, length};
ghost use Rattle.std.specs.List.{list_any};
ghost use Rattle.queue_rows.specs.Commits.{commit_of};
ghost use Rattle.queue_rows.specs.declared.session.Pending.TheVariants.{Add};
ghost use Rattle.sessions.specs.Numbers.{IsAddable, IsLowest, IsPendable};
ghost use Rattle.sessions.specs.Running.{AreEnoughFor, is_addition};
ghost use Rattle.sessions.specs.Stamped.{changes_at};

use crate::SessionState;
use crate::completed::{Stamp, change_of, complete};
use crate::running::lower_by;
use exception_queues::settle;
use named_list::NamedList;
use payload_records::{Boxed, Copied, List};
use queue_rows::{Change, MessageTables, MsgRow, Pending, QueueRow, Tables};
use std::alloc::{AllocError, Global};

fn is_addition(pending: &Pending) -> bool
    ensures { result ≡ is_addition pending.now }
{
    match pending {
        Pending::Add(_) => true,
        Pending::Remove { .. } => false,
    }
}

fn any_addition(pending: &List<Pending>) -> bool
    ensures { result ≡ list_any is_addition pending.now }
{
    pending.iter().any(|p| is_addition(p))
}

fn copies_of(alloc: Global, queues: &NamedList<QueueRow>) -> Result<List<QueueRow>, AllocError>
    ensures { IfOk result (λ copies. copies ≡ queues.now) }
{
    let mut copies = List::from_vec(Vec::with_capacity(alloc, queues.len())?);
    for queue in queues {
        copies.push(queue.copied()?)?;
    }
    Ok(copies)
}

// The queues that the walk over the pending changes begins with: removals look at none, so they copy none.
#[tactic(auto, using(crate::proofs::CommitChanges::removals_alone))]
fn queues_for(tables: &Tables, pending: &List<Pending>) -> Result<List<QueueRow>, AllocError>
    requires lowest { All (IsLowest (2 ^ 62)) tables.now.queues }
    ensures same { IfOk result (AreEnoughFor tables.now pending.now) }
    ensures lowest { IfOk result (λ queues. All (IsLowest (2 ^ 62)) queues) }
{
    if any_addition(pending) {
        copies_of(pending.allocator(), &tables.queues)
    } else {
        Ok(List::new(pending.allocator()))
    }
}

// Mostly few changes come of a commit: so there is room for them and for what a removal may settle, and for no more.
fn room_for(pending: &List<Pending>) -> Result<List<Change>, AllocError>
    ensures { IfOk result (λ changes. changes ≡ []) }
{
    let mut count = pending.len();
    for one in pending {
        if let Pending::Remove { .. } = one {
            count = count.saturating_add(1);
        }
    }
    Ok(List::from_vec(Vec::with_capacity(pending.allocator(), count)?))
}

fn changes_from(
    tables: &Tables,
    stamp: Stamp,
    pending: &List<Pending>,
) -> Result<List<Change>, AllocError>
    requires group { stamp.group < 2 ^ 62 }
    requires moment { stamp.moment ≤ 2 ^ 62 }
    requires count { length pending.now < 2 ^ 61 }
    requires lowest { All (IsLowest (2 ^ 62)) tables.now.queues }
    requires numbers { All IsPendable pending.now }
    ensures { IfOk result (λ changes. changes ≡ changes_at tables.now stamp pending.now) }
{
    let alloc = pending.allocator();
    let mut queues = queues_for(tables, pending)?;
    let mut changes = room_for(pending)?;
    for pending in pending {
        let change = change_of(alloc, tables, &queues, stamp, pending)?;
        lower_by(tables, &mut queues, &change);
        changes.push(change)?;
    }
    Ok(changes)
}

// That change, with room for what it may settle where it is of a removal, and for no more.
fn alone(alloc: Global, change: Change) -> Result<List<Change>, AllocError>
    ensures { IfOk result (λ changes. changes ≡ change ∷ []) }
{
    let room = match change {
        Change::Done { .. } => 2,
        _ => 1,
    };
    match Vec::with_capacity(alloc, room) {
        Ok(mut list) => {
            list.push(change)?;
            Ok(List::from_vec(list))
        }
        Err(AllocError) => {
            drop(change);
            Err(AllocError)
        }
    }
}

/// What one addition or removal becomes when it is committed at that moment, as a transaction of its own. It copies no queue.
#[tactic(auto, using(crate::proofs::CommitChanges::lowest_within))]
pub fn changes_alone<T: MessageTables>(
    alloc: Global,
    tables: &T,
    pending: &Pending,
    moment: u64,
) -> Result<List<Change>, AllocError>
    requires moment { moment ≤ 2 ^ 62 }
    requires group { (T.tables tables.now).transaction < 2 ^ 62 }
    requires lowest { All (IsLowest (2 ^ 62)) (T.tables tables.now).queues }
    requires numbers { IsPendable pending.now }
    ensures { IfOk result (λ it. it ≡ commit_of (T.tables tables.now) moment (pending.now ∷ [])) }
{
    let rows = tables.tables();
    let stamp = Stamp {
        group: rows.transaction,
        moment,
    };
    let change = change_of(alloc, rows, &rows.queues, stamp, pending)?;
    settle(tables, alone(alloc, change)?)
}

/// What one addition becomes when it is committed at that moment, as a transaction of its own. The message is completed where
/// it stands, and an addition settles nothing.
#[tactic(auto, using(crate::proofs::CommitChanges::lowest_within))]
pub fn addition_alone<T: MessageTables>(
    alloc: Global,
    tables: &T,
    mut message: MsgRow,
    moment: u64,
) -> Result<List<Change>, AllocError>
    requires moment { moment ≤ 2 ^ 62 }
    requires group { (T.tables tables.now).transaction < 2 ^ 62 }
    requires lowest { All (IsLowest (2 ^ 62)) (T.tables tables.now).queues }
    requires numbers { IsAddable message }
    ensures { IfOk result (λ it. it ≡ commit_of (T.tables tables.now) moment (Add message ∷ [])) }
{
    let rows = tables.tables();
    let group = rows.transaction;
    let stamp = Stamp { group, moment };
    complete(alloc, rows, &rows.queues, stamp, &mut message)?;
    alone(alloc, Change::Enqueued(Boxed::new(alloc, message)?))
}

// The pending one, where it is the only one.
fn only(pending: &List<Pending>) -> Option<&Pending>
    ensures { IfSome result (λ one. pending.now ≡ one.now ∷ []) }
{
    let mut pending = pending.iter();
    match (pending.next(), pending.next()) {
        (Some(one), None) => Some(one),
        _ => None,
    }
}

/// What pending additions and removals become when they are committed at that moment, as one transaction.
pub fn changes_of<T: MessageTables>(
    tables: &T,
    pending: &List<Pending>,
    moment: u64,
) -> Result<List<Change>, AllocError>
    requires moment { moment ≤ 2 ^ 62 }
    requires group { (T.tables tables.now).transaction < 2 ^ 62 }
    requires count { length pending.now < 2 ^ 61 }
    requires lowest { All (IsLowest (2 ^ 62)) (T.tables tables.now).queues }
    requires numbers { All IsPendable pending.now }
    ensures { IfOk result (λ it. it ≡ commit_of (T.tables tables.now) moment pending.now) }
{
    if let Some(one) = only(pending) {
        return changes_alone(pending.allocator(), tables, one, moment);
    }
    let rows = tables.tables();
    let stamp = Stamp {
        group: rows.transaction,
        moment,
    };
    settle(tables, changes_from(rows, stamp, pending)?)
}

/// What a session's pending additions and removals become when it commits at that moment.
pub fn commit_changes<T: MessageTables>(
    tables: &T,
    session: &SessionState,
    moment: u64,
) -> Result<List<Change>, AllocError>
    requires moment { moment ≤ 2 ^ 62 }
    requires group { (T.tables tables.now).transaction < 2 ^ 62 }
    requires count { length session.now.pending < 2 ^ 61 }
    requires lowest { All (IsLowest (2 ^ 62)) (T.tables tables.now).queues }
    requires numbers { All IsPendable session.now.pending }
    ensures { IfOk result (λ it. it ≡ commit_of (T.tables tables.now) moment session.now.pending) }
{
    changes_of(tables, &session.pending, moment)
}
