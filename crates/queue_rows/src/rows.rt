// The rows of a database's tables.
ghost use Rattle.std.specs.Prelude.{◌≡◌};
ghost use Rattle.queue_rows.specs.Rows.{is_sub};
ghost use Rattle.queue_rows.specs.Sought.{is_of_queue};

use named_list::{Named, Sought};
use pair_list::Paired;
use payload_records::{Copied, List, Name, RecordType};
use place_keys::{Place, SortList};
use rule_conditions::{Cond, Facts};
use std::alloc::AllocError;

/// A queue table: what the messages of its queues have, and how they are ordered.
pub struct TableRow {
    /// Its name.
    pub name: Name,
    /// The type of its payloads.
    pub fields: RecordType,
    /// What its queues are sorted by.
    pub columns: SortList,
    /// Whether a message may have many consumers.
    pub multi: bool,
    /// Whether the messages of one commit stand together as a group.
    pub grouped: bool,
}

impl Drop for TableRow {
    fn drop(self) {
        let Self {
            name: _,
            fields: _,
            columns: _,
            multi: _,
            grouped: _,
        } = self;
    }
}

/// What a queue is for.
#[derive(Clone, Copy, Debug, PartialEq, Eq)]
pub enum QueueKind {
    /// Messages are put in and taken out.
    Normal,
    /// Messages that could not be handled are moved in, and taken out.
    Exception,
}

/// A queue.
pub struct QueueRow {
    /// Its name.
    pub name: Name,
    /// The table that it belongs to.
    pub table: Name,
    /// What it is for.
    pub kind: QueueKind,
    /// Whether messages may be put in.
    pub enqueue: bool,
    /// Whether messages may be taken out.
    pub dequeue: bool,
    /// How often a removal may be rolled back before the message is given up.
    pub max_retries: u64,
    /// How long a message waits after a rollback, in seconds.
    pub retry_delay: u64,
    /// How long a message is kept after its last removal, in seconds.
    pub retention: u64,
    /// The least lane that a message was put into, at most 0.
    pub lowest: i64,
}

impl Drop for QueueRow {
    fn drop(self) {
        let Self {
            name: _,
            table: _,
            kind: _,
            enqueue: _,
            dequeue: _,
            max_retries: _,
            retry_delay: _,
            retention: _,
            lowest: _,
        } = self;
    }
}

/// A subscriber of a queue.
pub struct SubRow {
    /// The queue.
    pub queue: Name,
    /// Its name, which no other subscriber of the queue has.
    pub name: Name,
    /// The queue of the other database to which its messages go, where it is not local.
    pub address: Option<Name>,
    /// The rule by which messages are chosen for it; without one it gets all.
    pub rule: Option<Cond>,
}

impl Drop for SubRow {
    fn drop(self) {
        let Self {
            queue: _,
            name: _,
            address: _,
            rule: _,
        } = self;
    }
}

/// What a subscriber is found by.
#[derive(Clone, Copy)]
pub struct SubKey<'a> {
    /// Its queue.
    pub queue: &'a Name,
    /// Its name.
    pub name: &'a Name,
}

/// A schedule of the propagation from a queue to a queue of the other database.
pub struct ScheduleRow {
    /// The queue.
    pub queue: Name,
    /// The destination.
    pub to: Name,
    /// Whether it is enabled.
    pub enabled: bool,
    /// The moment at which it begins.
    pub start: u64,
    /// How long it is open, in seconds; without it always.
    pub duration: Option<u64>,
    /// After how many seconds it opens again.
    pub period: Option<u64>,
    /// The seconds between two moments at which it sends; 0 is at once.
    pub latency: u64,
    /// How many times in a row an arrival has failed.
    pub failures: u64,
    /// The moment before which it waits after a failure.
    pub next: u64,
}

impl Drop for ScheduleRow {
    fn drop(self) {
        let Self {
            queue: _,
            to: _,
            enabled: _,
            start: _,
            duration: _,
            period: _,
            latency: _,
            failures: _,
            next: _,
        } = self;
    }
}

/// A message.
pub struct MsgRow {
    /// Its number, which no other message of the database has had.
    pub id: u64,
    /// The queue in which it stands.
    pub queue: Name,
    /// Its place there.
    pub place: Place,
    /// Its priority, correlation and payload.
    pub facts: Facts,
    /// The exception queue that was named for it.
    pub exception: Option<Name>,
    /// The moment of its enqueue.
    pub enq: u64,
    /// The group of the commit that added it; 0 before that.
    pub group: u64,
    /// Whether it was moved into an exception queue.
    pub moved: bool,
    /// Its slots, one for each recipient; of a moved message the last is slot 0.
    pub slots: List<SlotRow>,
}

impl Drop for MsgRow {
    fn drop(self) {
        let Self {
            id: _,
            queue: _,
            place: _,
            facts: _,
            exception: _,
            enq: _,
            group: _,
            moved: _,
            slots: _,
        } = self;
    }
}

/// A recipient of a message, and how far it has come there.
pub struct SlotRow {
    /// The recipient's name; none in a queue with one consumer.
    pub name: Option<Name>,
    /// The queue of the other database that it goes to, where it is not local.
    pub address: Option<Name>,
    /// How far it has come.
    pub state: SlotState,
    /// How often a removal was rolled back.
    pub retries: u64,
    /// The moment at which the state began; of a waiting slot the moment at which it ends.
    pub at: u64,
    /// The moment at which it expires, where it does.
    pub expires: Option<u64>,
}

impl Drop for SlotRow {
    fn drop(self) {
        let Self {
            name: _,
            address: _,
            state: _,
            retries: _,
            at: _,
            expires: _,
        } = self;
    }
}

/// How far a slot has come.
#[derive(Clone, Copy, Debug, PartialEq, Eq)]
pub enum SlotState {
    /// It can be taken.
    Ready,
    /// It can be taken later.
    Waiting,
    /// It was taken.
    Processed,
    /// Its time ran out, or it was rolled back too often.
    Expired,
    /// Its subscriber was removed.
    Dropped,
}

/// A message of the other database that has arrived here.
#[derive(Drop)]
pub struct SeenRow {
    /// The number that it has there.
    pub id: u64,
    /// Its slot there.
    pub slot: u64,
    /// The number of its copy here.
    pub copy: u64,
}

impl Named for TableRow {
    ghost name_of = { λ row. row.name };

    fn name(&self) -> &Name {
        &self.name
    }
}

impl Named for QueueRow {
    ghost name_of = { λ row. row.name };

    fn name(&self) -> &Name {
        &self.name
    }
}

/// What has arrived is found by the number and the slot that it has at the other database.
impl Paired for SeenRow {
    ghost pair_of = { λ row. (row.id, row.slot) };

    fn pair(&self) -> (u64, u64) {
        (self.id, self.slot)
    }
}

/// Subscribers are found by their queue.
impl Named for SubRow {
    ghost name_of = { λ row. row.queue };

    fn name(&self) -> &Name {
        &self.queue
    }
}

impl<'a> Sought<SubRow> for SubKey<'a> {
    ghost wanted = { λ key. key.queue.now };

    ghost is = { λ key sub. is_sub key.queue.now key.name.now sub };

    ghost has_name = { λ key sub. is_of_queue key.queue.now key.name.now sub };

    fn name(&self) -> &Name {
        self.queue
    }

    fn is(&self, sub: &SubRow) -> bool {
        sub.queue == *self.queue && sub.name == *self.name
    }
}

impl Copied for TableRow {
    fn copied(&self) -> Result<Self, AllocError> {
        Ok(TableRow {
            name: self.name.copied()?,
            fields: self.fields.copied()?,
            columns: self.columns.copied()?,
            multi: self.multi,
            grouped: self.grouped,
        })
    }
}

impl Copied for QueueRow {
    fn copied(&self) -> Result<Self, AllocError> {
        Ok(QueueRow {
            name: self.name.copied()?,
            table: self.table.copied()?,
            kind: self.kind,
            enqueue: self.enqueue,
            dequeue: self.dequeue,
            max_retries: self.max_retries,
            retry_delay: self.retry_delay,
            retention: self.retention,
            lowest: self.lowest,
        })
    }
}

impl Copied for SubRow {
    fn copied(&self) -> Result<Self, AllocError> {
        Ok(SubRow {
            queue: self.queue.copied()?,
            name: self.name.copied()?,
            address: Copied::copied(&self.address)?,
            rule: Copied::copied(&self.rule)?,
        })
    }
}

impl Copied for ScheduleRow {
    fn copied(&self) -> Result<Self, AllocError> {
        Ok(ScheduleRow {
            queue: self.queue.copied()?,
            to: self.to.copied()?,
            enabled: self.enabled,
            start: self.start,
            duration: self.duration,
            period: self.period,
            latency: self.latency,
            failures: self.failures,
            next: self.next,
        })
    }
}

impl Copied for SlotRow {
    fn copied(&self) -> Result<Self, AllocError> {
        Ok(SlotRow {
            name: Copied::copied(&self.name)?,
            address: Copied::copied(&self.address)?,
            state: self.state,
            retries: self.retries,
            at: self.at,
            expires: self.expires,
        })
    }
}

impl Copied for MsgRow {
    fn copied(&self) -> Result<Self, AllocError> {
        Ok(MsgRow {
            id: self.id,
            queue: self.queue.copied()?,
            place: self.place.copied()?,
            facts: self.facts.copied()?,
            exception: Copied::copied(&self.exception)?,
            enq: self.enq,
            group: self.group,
            moved: self.moved,
            slots: self.slots.copied()?,
        })
    }
}

impl Copied for SeenRow {
    fn copied(&self) -> Result<Self, AllocError> {
        Ok(SeenRow {
            id: self.id,
            slot: self.slot,
            copy: self.copy,
        })
    }
}
