// What nodes send one another.
use aq_base::DbId;
use payload_records::{List, Name, Prop, Record, RecordType, Text};
use queue_rows::SlotRef;

/// What is sent of a slot to the other database.
#[derive(Drop)]
pub struct Parcel {
    /// The slot.
    pub at: SlotRef,
    /// The queue that it goes to.
    pub to: Name,
    /// The recipient's name.
    pub name: Option<Name>,
    /// The type of its payload.
    pub fields: RecordType,
    /// The payload.
    pub payload: Record,
    /// The priority.
    pub priority: i64,
    /// The correlation.
    pub corr: Option<Text>,
    /// The properties, in byte order of their distinct names.
    pub props: List<Prop>,
    /// The moment at which it expires, where it does.
    pub expires: Option<u64>,
}

/// What goes over the link.
#[derive(Drop)]
pub enum Packet {
    /// A slot's message, for the other database than the slot's.
    Parcel(Parcel),
    /// That the parcel of a slot came, for the slot's database.
    Receipt(SlotRef),
}

/// What happens to a node.
#[derive(Drop)]
pub enum NodeEvent {
    /// It is that moment.
    Tick(u64),
    /// A packet came.
    Came(Packet),
}

/// What a node did.
#[derive(Drop)]
pub enum Handled {
    /// It sent a packet.
    Sent(Packet),
    /// It has a slot as done.
    Confirmed(SlotRef),
    /// Nothing of these.
    Nothing,
}

/// What happens to two nodes and the link between them.
#[derive(Clone, Copy, Debug, PartialEq, Eq)]
pub enum Event {
    /// It is that moment at a node.
    Tick {
        /// The node's database.
        db: DbId,
        /// The moment.
        moment: u64,
    },
    /// A packet that was sent comes to its node; it may have come before.
    Deliver {
        /// Its number among all that were sent, from 1.
        number: u64,
    },
    /// A node makes its commits durable.
    Flush {
        /// Its database.
        db: DbId,
    },
    /// A node stops and begins anew, with the first some of its commits.
    Restart {
        /// Its database.
        db: DbId,
        /// How many.
        keep: u64,
    },
}
