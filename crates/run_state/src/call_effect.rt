// What a session's call does, as values.
use payload_records::List;
use queue_rows::{Change, Pending, Reply};
use session_registry::NewPositions;
use slot_marks::Mark;

/// What a call does: nothing is changed before this is applied.
#[derive(Drop)]
pub struct CallEffect {
    /// What the session is told.
    pub reply: Reply,
    /// What is committed at once; where it is empty there is no commit.
    pub commit: List<Change>,
    /// What becomes of what the session holds.
    pub holdings: Holdings,
    /// The positions that the session then has.
    pub positions: NewPositions,
}

/// What becomes of what a session has done and not committed, and of its marks.
#[derive(Drop)]
pub enum Holdings {
    /// The session holds it further, and more.
    Kept {
        /// What it has done besides, and not committed.
        pend: Option<Pending>,
        /// The mark that it gets.
        mark: Option<Mark>,
        /// The mark that it loses.
        unmark: Option<Mark>,
    },
    /// Its transaction has ended: it holds nothing more.
    Cleared,
}
