// What due work looks at.
use aq_base::DbId;
use queue_rows::{SlotRef, Tables};
use row_locks::RowLocks;

/// The tables of a database, the marks of its sessions, the slot that is being sent, and the moment.
#[derive(Clone, Copy)]
pub(crate) struct Watching<'a> {
    pub tables: &'a Tables,
    pub locks: &'a RowLocks,
    pub db: DbId,
    pub sent: Option<&'a SlotRef>,
    pub moment: u64,
}
