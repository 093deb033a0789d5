// What a mark says.
ghost use Rattle.std.specs.Prelude.{◌≡◌, option_copied};
ghost use Rattle.std.specs.Option.{option_eq};
ghost use Rattle.std.specs.Str.{bytes_eq};
ghost use Rattle.slot_marks.specs.Marks.{group_of, is_on, is_in_group};

use payload_records::{Boxed, Copied, Name};
use std::alloc::AllocError;

/// The messages of one commit in a grouped queue, as one consumer sees them.
pub struct Group {
    /// The queue in which the messages stand.
    pub queue: Name,
    /// The number of the commit's group.
    pub number: u64,
    /// The consumer, where the queue has consumers.
    pub consumer: Option<Name>,
}

impl Drop for Group {
    fn drop(self) {
        let Self {
            queue: _,
            number: _,
            consumer: _,
        } = self;
    }
}

/// A session's mark on a slot of a message. Few queues are grouped, so a group stands on the heap.
#[derive(Drop)]
pub struct Mark {
    /// The message's id.
    pub id: u64,
    /// The slot's number.
    pub slot: u32,
    /// Whether the session has removed the slot, and not only locked it.
    pub removed: bool,
    /// The group of the slot, where its queue is grouped.
    pub group: Option<Boxed<Group>>,
}

impl Copied for Group {
    fn copied(&self) -> Result<Self, AllocError> {
        Ok(Group {
            queue: self.queue.copied()?,
            number: self.number,
            consumer: Copied::copied(&self.consumer)?,
        })
    }
}

impl Copied for Mark {
    fn copied(&self) -> Result<Self, AllocError> {
        Ok(Mark {
            id: self.id,
            slot: self.slot,
            removed: self.removed,
            group: Copied::copied(&self.group)?,
        })
    }
}

fn is_same_consumer(left: &Option<Name>, right: Option<&Name>) -> bool
    ensures { result ≡ option_eq bytes_eq left.now (option_copied right.entry) }
{
    match (left, right) {
        (None, None) => true,
        (Some(left), Some(right)) => left == right,
        _ => false,
    }
}

impl Mark {
    /// Whether the mark is on that slot of the message with that id. It takes no memory.
    pub fn is_on(&self, id: u64, slot: u32) -> bool
        ensures { result ≡ is_on id slot self.now }
    {
        self.id == id && self.slot == slot
    }

    /// Whether the mark is on a slot of the group of that queue, number and consumer. It takes no memory.
    pub fn is_in_group(&self, queue: &Name, number: u64, consumer: Option<&Name>) -> bool
        ensures { result ≡ is_in_group (group_of queue.now number (option_copied consumer.entry)) self.now }
    {
        match &self.group {
            None => false,
            Some(own) => {
                let own = own.get();
                own.number == number
                    && own.queue == *queue
                    && is_same_consumer(&own.consumer, consumer)
            }
        }
    }
}
