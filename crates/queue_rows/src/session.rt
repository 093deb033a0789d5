// What a session keeps from statement to statement.
use crate::MsgRow;
use payload_records::{Boxed, Copied, Name};
use place_keys::Place;
use std::alloc::AllocError;

/// What a session has done and not committed.
#[derive(Drop)]
pub enum Pending {
    /// It adds the message, which stands on the heap: what a statement does is moved from call to call.
    Add(Boxed<MsgRow>),
    /// It removes the slot.
    Remove {
        /// The message.
        id: u64,
        /// The slot.
        slot: u32,
    },
}

/// For whom a message is: a name, none in a queue with one consumer, and where it goes, where it is not local.
pub struct Agent {
    /// The name.
    pub name: Option<Name>,
    /// The queue of the other database that it is at.
    pub address: Option<Name>,
}

impl Drop for Agent {
    fn drop(self) {
        let Self {
            name: _,
            address: _,
        } = self;
    }
}

/// Where a session stands in a queue: at the last message that it was given there.
pub struct Position {
    /// The queue.
    pub queue: Name,
    /// The consumer for whom it was given.
    pub consumer: Option<Name>,
    /// The message's place.
    pub place: Place,
    /// The message's group.
    pub group: u64,
}

impl Drop for Position {
    fn drop(self) {
        let Self {
            queue: _,
            consumer: _,
            place: _,
            group: _,
        } = self;
    }
}

impl Copied for Position {
    fn copied(&self) -> Result<Self, AllocError> {
        Ok(Position {
            queue: self.queue.copied()?,
            consumer: Copied::copied(&self.consumer)?,
            place: self.place.copied()?,
            group: self.group,
        })
    }
}
