// The index of ready slots, and what edits of messages make of it.
ghost use Rattle.std.specs.Prelude.{◌≡◌, OnOk, [], option_copied};
ghost use Rattle.ready_slots.specs.Edits.{Puts, Removes};
ghost use Rattle.ready_slots.specs.Putting.{PutsEach, PutsNameless, PutsRow};
ghost use Rattle.ready_slots.specs.Slot.{ChangesSlot, SetsNamed, SetsRow, slot_name};
ghost use Rattle.ready_slots.specs.Taking.{TakesEach, TakesNameless, TakesRow};

use crate::showing::{offered_to, shown};
use payload_records::Name;
use place_keys::Place;
use queue_rows::MsgRow;
use sort_index::ReadyIndex;
use std::alloc::{AllocError, Global};
use std::marker::Model;

/// The index of ready slots beside messages that are kept under stamps, whose rows have the stamps as their ids. Contracts see the
/// groups of its rows.
#[derive(Drop)]
pub struct ReadySlots {
    index: ReadyIndex,
}

impl Model for ReadySlots {
    ghost use Rattle.std.specs.Prelude.{List};
    ghost use Rattle.sort_index.specs.declared.group.Group.{Group};

    ghost Value = { List Group };

    ghost view = { λ s. s.index.groups };
}

// The name of a slot's recipient.
fn name_of(message: &MsgRow, slot: u64) -> Option<&Name>
    ensures { option_copied result ≡ slot_name message.now slot }
{
    match message.slot(slot) {
        Some(slot) => slot.name.as_ref(),
        None => None,
    }
}

impl ReadySlots {
    /// No rows. It takes no memory.
    pub fn new(alloc: Global) -> ReadySlots
        ensures { result ≡ [] }
    {
        ReadySlots {
            index: ReadyIndex::new(alloc),
        }
    }

    /// The index, for looking things up.
    pub fn index(&self) -> &ReadyIndex
        ensures { result.now.groups ≡ self.now }
    {
        &self.index
    }

    fn take(&mut self, queue: &Name, consumer: Option<&Name>, place: &Place, stamp: u64)
        ensures { TakesRow queue.now (option_copied consumer.entry) place.now stamp self.old self.new }
    {
        let _slot = self.index.take(queue, consumer, place, stamp);
    }

    // Takes the row of the nameless consumer out, where it is shown the message: else there is none.
    fn take_nameless(&mut self, stamp: u64, message: &MsgRow)
        ensures { TakesNameless message.now stamp self.old self.new }
    {
        if shown(message, None) {
            self.take(&message.queue, None, &message.place, stamp);
        }
    }

    // Takes the row of each consumer out that a local and ready slot of the message names: no other has one.
    fn take_named(&mut self, stamp: u64, message: &MsgRow)
        ensures { TakesEach message.now stamp self.old self.new }
    {
        for slot in &message.slots {
            if let Some(name) = offered_to(slot) {
                self.take(&message.queue, Some(name), &message.place, stamp);
            }
        }
    }

    /// A message that stood under a stamp has gone: so do its rows. It takes no memory, and looks for no row that is not there.
    pub fn remove(&mut self, stamp: u64, message: &MsgRow)
        ensures { Removes stamp message.now self.old self.new }
    {
        self.take_nameless(stamp, message);
        self.take_named(stamp, message);
    }

    // Puts the row of a consumer in, where it is not there yet.
    fn put_row(
        &mut self,
        stamp: u64,
        message: &MsgRow,
        consumer: Option<&Name>,
    ) -> Result<(), AllocError>
        ensures { OnOk result (PutsRow message.now (option_copied consumer.entry) stamp self.old self.new) }
    {
        self.index
            .set(&message.queue, consumer, &message.place, stamp, 0)
    }

    fn put_nameless(&mut self, stamp: u64, message: &MsgRow) -> Result<(), AllocError>
        ensures { OnOk result (PutsNameless message.now stamp self.old self.new) }
    {
        if shown(message, None) {
            self.put_row(stamp, message, None)
        } else {
            Ok(())
        }
    }

    // Puts the row of each consumer in that a local and ready slot of the message names.
    fn put_named(&mut self, stamp: u64, message: &MsgRow) -> Result<(), AllocError>
        ensures { OnOk result (PutsEach message.now stamp self.old self.new) }
    {
        for slot in &message.slots {
            if let Some(name) = offered_to(slot) {
                self.put_row(stamp, message, Some(name))?;
            }
        }
        Ok(())
    }

    /// A message stands now under a stamp that no other has: its rows come. Where there is no memory the index is worth nothing any
    /// more, and its owner is to let it go.
    pub fn put(&mut self, stamp: u64, message: &MsgRow) -> Result<(), AllocError>
        ensures { OnOk result (Puts stamp message.now self.old self.new) }
    {
        self.put_nameless(stamp, message)?;
        self.put_named(stamp, message)
    }

    // The consumer gets or loses the row of the message, by whether it is shown the message.
    fn set_row(
        &mut self,
        stamp: u64,
        message: &MsgRow,
        consumer: Option<&Name>,
    ) -> Result<(), AllocError>
        ensures { OnOk result (SetsRow message.now (option_copied consumer.entry) stamp self.old self.new) }
    {
        if shown(message, consumer) {
            self.put_row(stamp, message, consumer)
        } else {
            self.take(&message.queue, consumer, &message.place, stamp);
            Ok(())
        }
    }

    // The same of the consumer that a slot names.
    fn set_named(&mut self, stamp: u64, message: &MsgRow, slot: u64) -> Result<(), AllocError>
        ensures { OnOk result
            (SetsNamed (slot_name message.now slot) message.now stamp self.old self.new) }
    {
        match name_of(message, slot) {
            Some(name) => self.set_row(stamp, message, Some(name)),
            None => Ok(()),
        }
    }

    /// A slot of the message under a stamp was changed, and left to its recipient; the message is given as it stands now. It looks only at the
    /// rows of those for whom the slot counts, however many slots there are. Where there is no memory the index is worth nothing any
    /// more, and its owner is to let it go.
    pub fn change_slot(&mut self, stamp: u64, message: &MsgRow, slot: u64) -> Result<(), AllocError>
        ensures { OnOk result (ChangesSlot stamp slot message.now self.old self.new) }
    {
        self.set_row(stamp, message, None)?;
        self.set_named(stamp, message, slot)
    }
}
