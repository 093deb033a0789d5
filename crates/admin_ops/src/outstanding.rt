// What is outstanding.
ghost use Rattle.std.specs.Prelude.{◌≡◌, ◌<◌, ◌^◌, length, slice_get, option_copied};
ghost use Rattle.std.specs.List.{list_any};
ghost use Rattle.slot_marks.specs.Marks.{marks_of};
ghost use Rattle.queue_rows.specs.Rows.{find_sub};
ghost use Rattle.queue_rows.specs.Session.{is_same_db};
ghost use Rattle.queue_rows.specs.Administration.{is_affected_at, is_added, of_subscriber};
ghost use Rattle.admin_ops.specs.Affecting.{affecting};
ghost use Rattle.admin_ops.specs.Shown.{session_with, sessions_of, works_at, works_by, is_sent_by, is_outstanding_by, is_hindered_by};

use crate::affected::{Affected, is_added, is_affected_at};
use aq_base::DbId;
use payload_records::{List, Name};
use queue_catalog::find_sub;
use queue_rows::{Admin, MessageTables, SlotRef};
use row_locks::RowLocks;
use sessions::SessionState;

/// What is under way at a database, besides its tables.
#[derive(Clone, Copy)]
pub(crate) struct Work<'a> {
    /// The database. What is under way at the other one counts for nothing.
    pub(crate) db: DbId,
    /// The marks of its sessions.
    pub(crate) locks: &'a RowLocks,
    /// The states of all sessions.
    pub(crate) sessions: &'a List<SessionState>,
    /// The slot that is being sent.
    pub(crate) transit: Option<&'a SlotRef>,
}

fn is_same_db(left: DbId, right: DbId) -> bool
    ensures { result ≡ is_same_db left right }
{
    match (left, right) {
        (DbId::Home, DbId::Home) | (DbId::Away, DbId::Away) => true,
        _ => false,
    }
}

fn has_marked<T: MessageTables>(
    store: &T,
    locks: &RowLocks,
    affected: Affected<'_>,
    number: u32,
) -> bool
    ensures { let is_at = is_affected_at (T.tables store.now) (affecting affected.entry) in
        result ≡ list_any (λ mark. is_at mark.id mark.slot) (marks_of locks.now number) }
{
    locks
        .marks_of(number)
        .any(|mark| is_affected_at(store, affected, mark.id, mark.slot))
}

fn has_added(affected: Affected<'_>, session: &SessionState) -> bool
    ensures { result ≡ list_any (is_added (affecting affected.entry)) session.now.pending }
{
    session
        .pending
        .iter()
        .any(|pending| is_added(affected, pending))
}

// The session of that number has added an affected slot, or has marked one.
fn works_on<T: MessageTables>(
    store: &T,
    work: Work<'_>,
    affected: Affected<'_>,
    session: &SessionState,
    number: u32,
) -> bool
    ensures { let s = session_with session.now (marks_of work.entry.locks.now number) in
        result ≡ works_by (T.tables store.now) work.entry (affecting affected.entry) s }
{
    is_same_db(session.at, work.db)
        && (has_added(affected, session) || has_marked(store, work.locks, affected, number))
}

// The session of that number works on an affected slot.
fn works_at<T: MessageTables>(
    store: &T,
    work: Work<'_>,
    affected: Affected<'_>,
    number: u32,
) -> bool
    ensures { let works = works_by (T.tables store.now) work.entry (affecting affected.entry) in
        result ≡ works_at works work.entry.locks.now (slice_get work.entry.sessions.now number) number }
{
    match work.sessions.get(number as usize) {
        Some(session) => works_on(store, work, affected, session, number),
        None => false,
    }
}

fn any_works<T: MessageTables>(store: &T, work: Work<'_>, affected: Affected<'_>) -> bool
    requires { length work.sessions.now < 2 ^ 32 }
    ensures { let works = works_by (T.tables store.now) work.entry (affecting affected.entry) in
        result ≡ list_any works (sessions_of work.entry) }
{
    let count = work.sessions.len() as u32;
    for number in 0..count {
        if works_at(store, work, affected, number) {
            return true;
        }
    }
    false
}

fn is_sent<T: MessageTables>(store: &T, work: Work<'_>, affected: Affected<'_>) -> bool
    ensures { result ≡ is_sent_by (T.tables store.now) work.entry (affecting affected.entry) }
{
    match work.transit {
        Some(sent) => {
            is_same_db(sent.db, work.db) && is_affected_at(store, affected, sent.id, sent.slot)
        }
        None => false,
    }
}

fn is_outstanding<T: MessageTables>(store: &T, work: Work<'_>, affected: Affected<'_>) -> bool
    requires { length work.sessions.now < 2 ^ 32 }
    ensures { result ≡ is_outstanding_by (T.tables store.now) work.entry (affecting affected.entry) }
{
    any_works(store, work, affected) || is_sent(store, work, affected)
}

fn is_subscriber_busy<T: MessageTables>(
    store: &T,
    work: Work<'_>,
    queue: &Name,
    name: &Name,
) -> bool
    requires { length work.sessions.now < 2 ^ 32 }
    ensures { let t = T.tables store.now in
        result ≡ is_outstanding_by t work.entry (of_subscriber queue.now (find_sub t queue.now name.now)) }
{
    let sub = find_sub(store.tables(), queue, name);
    is_outstanding(store, work, Affected::OfSubscriber { queue, sub })
}

/// Whether outstanding work stands against the statement. It takes no memory.
pub(crate) fn is_hindered<T: MessageTables>(store: &T, work: Work<'_>, ask: &Admin) -> bool
    requires { length work.sessions.now < 2 ^ 32 }
    ensures { result ≡ is_hindered_by (T.tables store.now) work.entry ask.now }
{
    match ask {
        Admin::DropQueue { queue } | Admin::StopQueue { queue, .. } => {
            is_outstanding(store, work, Affected::InQueue { queue })
        }
        Admin::RemoveSubscriber { queue, name } => is_subscriber_busy(store, work, queue, name),
        Admin::Unschedule { queue, to } => {
            is_sent(store, work, Affected::ToDestination { queue, to })
        }
        _ => false,
    }
}
