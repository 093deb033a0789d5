// Which slots a statement touches.
ghost use Rattle.std.specs.Prelude.{◌≡◌, Some, option_copied};
ghost use Rattle.std.specs.List.{list_any};
ghost use Rattle.queue_rows.specs.Session.{is_same_consumer};
ghost use Rattle.queue_rows.specs.Administration.{is_affected_at, is_added};
ghost use Rattle.admin_ops.specs.Affecting.{affecting, goes_to, is_of};

use payload_records::Name;
use queue_catalog::is_slot_of;
use queue_rows::{MessageTables, MsgRow, Pending, SlotRow, SubRow};

/// The slots that a statement touches.
#[derive(Clone, Copy)]
pub(crate) enum Affected<'a> {
    /// All slots of the queue.
    InQueue {
        /// The queue.
        queue: &'a Name,
    },
    /// Those of the queue with the subscriber's name and address, and none where there is no subscriber.
    OfSubscriber {
        /// The queue.
        queue: &'a Name,
        /// The subscriber.
        sub: Option<&'a SubRow>,
    },
    /// Those of the queue that go to the destination.
    ToDestination {
        /// The queue.
        queue: &'a Name,
        /// The destination.
        to: &'a Name,
    },
}

fn is_of(sub: &SubRow, slot: Option<&SlotRow>) -> bool
    ensures { result ≡ is_of sub.now (option_copied slot.entry) }
{
    match slot {
        Some(slot) => is_slot_of(sub, slot),
        None => false,
    }
}

fn is_sent_to(to: &Name, slot: &SlotRow) -> bool
    ensures { result ≡ is_same_consumer slot.now.address (Some to.now) }
{
    match &slot.address {
        Some(address) => *address == *to,
        None => false,
    }
}

fn goes_to(to: &Name, slot: Option<&SlotRow>) -> bool
    ensures { result ≡ goes_to to.now (option_copied slot.entry) }
{
    match slot {
        Some(slot) => is_sent_to(to, slot),
        None => false,
    }
}

impl Affected<'_> {
    /// Whether a slot of the message is among them. It takes no memory.
    pub(crate) fn has(self, message: &MsgRow, slot: Option<&SlotRow>) -> bool
        ensures { result ≡ affecting self.entry message.now (option_copied slot.entry) }
    {
        match self {
            Affected::InQueue { queue } => message.queue == *queue,
            Affected::OfSubscriber {
                queue,
                sub: Some(sub),
            } => { message.queue == *queue && is_of(sub, slot) }
            Affected::OfSubscriber { sub: None, .. } => false,
            Affected::ToDestination { queue, to } => {
                message.queue == *queue && goes_to(to, slot)
            }
        }
    }
}

/// Whether the committed message has that slot, and it is affected. It takes no memory.
pub(crate) fn is_affected_at<T: MessageTables>(
    store: &T,
    affected: Affected<'_>,
    id: u64,
    slot: u32,
) -> bool
    ensures { result ≡ is_affected_at (T.tables store.now) (affecting affected.entry) id slot }
{
    match store.message(id) {
        Some(message) => affected.has(message, message.slot(u64::from(slot))),
        None => false,
    }
}

fn has_any(affected: Affected<'_>, message: &MsgRow) -> bool
    ensures { let has = affecting affected.entry in
        result ≡ list_any (λ slot. has message.now (Some slot)) message.now.slots }
{
    message
        .slots
        .iter()
        .any(|slot| affected.has(message, Some(slot)))
}

/// Whether it adds a message with an affected slot. It takes no memory.
pub(crate) fn is_added(affected: Affected<'_>, pending: &Pending) -> bool
    ensures { result ≡ is_added (affecting affected.entry) pending.now }
{
    match pending {
        Pending::Add(message) => has_any(affected, message.get()),
        Pending::Remove { .. } => false,
    }
}
