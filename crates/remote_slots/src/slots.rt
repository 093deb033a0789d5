// The index of remote slots that are ready, and what edits of messages make of it.
ghost use Rattle.std.specs.Prelude.{◌≡◌, OnOk, [], Some, option_copied};
ghost use Rattle.ready_slots.specs.Putting.{PutsRow};
ghost use Rattle.ready_slots.specs.Taking.{TakesRow};
ghost use Rattle.remote_slots.specs.Edits.{Puts, Removes};
ghost use Rattle.remote_slots.specs.Putting.{PutsEach, TakesEach, sent_to};

use payload_records::{Copied, Name};
use place_keys::Place;
use queue_rows::{MsgRow, SlotRow};
use sort_index::ReadyIndex;
use std::alloc::{AllocError, Global};
use std::marker::Model;

/// The index of the slots that are ready and go to the other database, beside messages that are kept under stamps. A message has a
/// row in it for each destination for which a slot of it is ready, under its queue, the destination in the consumer's place, its
/// place and its stamp. Contracts see the groups of its rows.
#[derive(Drop)]
pub struct RemoteSlots {
    index: ReadyIndex,
}

impl Model for RemoteSlots {
    ghost use Rattle.std.specs.Prelude.{List};
    ghost use Rattle.sort_index.specs.declared.group.Group.{Group};

    ghost Value = { List Group };

    ghost view = { λ s. s.index.groups };
}

// Where the slot goes, if it is ready.
fn sent_to(slot: &SlotRow) -> Option<&Name>
    ensures { option_copied result ≡ sent_to slot.now }
{
    if slot.state.is_ready() {
        slot.address.as_ref()
    } else {
        None
    }
}

impl RemoteSlots {
    /// No rows. It takes no memory.
    pub fn new(alloc: Global) -> RemoteSlots
        ensures { result ≡ [] }
    {
        RemoteSlots {
            index: ReadyIndex::new(alloc),
        }
    }

    /// The index, for looking things up.
    pub fn index(&self) -> &ReadyIndex
        ensures { result.now.groups ≡ self.now }
    {
        &self.index
    }

    fn take(&mut self, queue: &Name, to: &Name, place: &Place, stamp: u64)
        ensures { TakesRow queue.now (Some to.now) place.now stamp self.old self.new }
    {
        let _slot = self.index.take(queue, Some(to), place, stamp);
    }

    // Takes the row of each destination out that a slot of the message has.
    fn take_each(&mut self, stamp: u64, message: &MsgRow)
        ensures { TakesEach message.now stamp self.old self.new }
    {
        for slot in &message.slots {
            if let Some(to) = &slot.address {
                self.take(&message.queue, to, &message.place, stamp);
            }
        }
    }

    /// A message that stood under a stamp has gone: so do its rows. It takes no memory.
    pub fn remove(&mut self, stamp: u64, message: &MsgRow)
        ensures { Removes stamp message.now self.old self.new }
    {
        self.take_each(stamp, message);
    }

    // Puts the row of a destination in, where it is not there yet.
    fn put_row(&mut self, stamp: u64, message: &MsgRow, to: &Name) -> Result<(), AllocError>
        ensures { OnOk result (PutsRow message.now (Some to.now) stamp self.old self.new) }
    {
        let queue = message.queue.copied()?;
        let name = to.copied()?;
        let place = message.place.copied()?;
        self.index.reserve(1)?;
        let _slot = self
            .index
            .take(&message.queue, Some(to), &message.place, stamp);
        self.index.put(queue, Some(name), place, stamp, 0);
        Ok(())
    }

    // Puts the row of each destination in for which a slot of the message is ready.
    fn put_each(&mut self, stamp: u64, message: &MsgRow) -> Result<(), AllocError>
        ensures { OnOk result (PutsEach message.now stamp self.old self.new) }
    {
        for slot in &message.slots {
            if let Some(to) = sent_to(slot) {
                self.put_row(stamp, message, to)?;
            }
        }
        Ok(())
    }

    /// A message stands now under a stamp that no other has: its rows come. Where there is no memory the index is worth nothing any
    /// more, and its owner is to let it go.
    pub fn put(&mut self, stamp: u64, message: &MsgRow) -> Result<(), AllocError>
        ensures { OnOk result (Puts stamp message.now self.old self.new) }
    {
        self.put_each(stamp, message)
    }
}
