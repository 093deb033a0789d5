// What a session asks.
use queue_rows::{Dequeue, QueueRow, TableRow};
use row_locks::RowLocks;
use rule_conditions::Cond;
use sessions::SessionState;
use std::alloc::Global;

/// What the session of that number asks, and when, beside the marks of all sessions of its database.
#[derive(Clone, Copy)]
pub(crate) struct Request<'a> {
    pub alloc: Global,
    pub locks: &'a RowLocks,
    pub actor: u32,
    pub session: &'a SessionState,
    pub ask: &'a Dequeue,
    pub moment: u64,
}

/// A request that is not refused, with its queue, the queue's table, and the condition that it names.
#[derive(Clone, Copy)]
pub(crate) struct Asked<'a> {
    pub request: &'a Request<'a>,
    pub queue: &'a QueueRow,
    pub table: &'a TableRow,
    pub condition: Option<&'a Cond>,
}
