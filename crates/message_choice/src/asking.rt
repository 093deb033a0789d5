// What is asked for, by whom, and what is answered.
use payload_records::{Name, Text};
use queue_rows::{Mode, MsgRow, Navigation, Position, QueueRow, TableRow};
use row_locks::RowLocks;
use rule_conditions::Cond;

/// What a dequeue asks for.
#[derive(Clone, Copy)]
pub struct Pick<'a> {
    /// The queue.
    pub queue: &'a QueueRow,
    /// The queue's table.
    pub table: &'a TableRow,
    /// The consumer, where the queue has consumers.
    pub consumer: Option<&'a Name>,
    /// What becomes of the message.
    pub mode: Mode,
    /// Where it is looked for.
    pub navigation: Navigation,
    /// Where the session stands in the queue, for the consumer.
    pub position: Option<&'a Position>,
    /// A pattern for the correlation.
    pub corr: Option<&'a Text>,
    /// A condition for the message.
    pub condition: Option<&'a Cond>,
}

/// What a dequeue chooses.
#[derive(Clone, Copy)]
pub enum Choice<'a> {
    /// A message, and the slot of it that is given.
    Found {
        /// The message.
        message: &'a MsgRow,
        /// The number of its slot.
        slot: u32,
    },
    /// No more message of the group in which the session stands.
    EndOfGroup,
    /// No message.
    Nothing,
}

/// What a dequeue comes to that names a message.
#[derive(Clone, Copy)]
pub enum Claim {
    /// The slot of that number is given.
    Given {
        /// The number.
        slot: u32,
    },
    /// Another session, of that number, holds it.
    Held(u32),
    /// It is not for the consumer.
    NotARecipient,
    /// There is none of that id to be given.
    NoSuchMessage,
}

/// What is asked for, by the session of that number, beside the marks of all.
#[derive(Clone, Copy)]
pub(crate) struct Asking<'a> {
    pub locks: &'a RowLocks,
    pub actor: u32,
    pub pick: &'a Pick<'a>,
}

/// Which messages a navigation asks for.
#[derive(Clone, Copy)]
pub(crate) enum Filter {
    /// All.
    All,
    /// Those of the group.
    InGroup(u64),
    /// Those of the lanes of later groups.
    PastGroup(u64),
}

/// A message that is found, with the slot that may be given.
#[derive(Clone, Copy)]
pub(crate) struct Hit<'a> {
    pub message: &'a MsgRow,
    pub slot: u32,
}
