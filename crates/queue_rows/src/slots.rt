// The slots of messages: how one is found, set and retried, and how a message is moved.
ghost use Rattle.std.specs.Prelude.{◌≡◌, OnOk, OnErr, option_copied};
ghost use Rattle.queue_rows.specs.Rows.{changed_nth, recipient_count, has_slot, slot_index, slot_of, with_slot};
ghost use Rattle.queue_rows.specs.Settling.{is_exception, is_open, is_ready, is_processed, is_expired, is_gone};
ghost use Rattle.queue_rows.specs.Dequeueing.{is_local_for, is_ready_slot};
ghost use Rattle.queue_rows.specs.Tables.{in_state, retried, most_retries, slot_zero, moved_to};

use crate::{MsgRow, QueueKind, SlotRow, SlotState};
use payload_records::{List, Name};
use std::alloc::AllocError;

impl QueueKind {
    /// Whether it is a queue for messages that could not be handled.
    pub fn is_exception(self) -> bool
        ensures { result ≡ is_exception self }
    {
        match self {
            QueueKind::Normal => false,
            QueueKind::Exception => true,
        }
    }
}

impl SlotState {
    /// Whether it was not taken yet, and may be: at once or later.
    pub fn is_open(self) -> bool
        ensures { result ≡ is_open self }
    {
        match self {
            SlotState::Ready | SlotState::Waiting => true,
            SlotState::Processed | SlotState::Expired | SlotState::Dropped => false,
        }
    }

    /// Whether it can be taken at once.
    pub fn is_ready(self) -> bool
        ensures { result ≡ is_ready self }
    {
        match self {
            SlotState::Ready => true,
            SlotState::Waiting | SlotState::Processed | SlotState::Expired | SlotState::Dropped =>
                false,
        }
    }

    /// Whether it was taken.
    pub fn is_processed(self) -> bool
        ensures { result ≡ is_processed self }
    {
        match self {
            SlotState::Processed => true,
            SlotState::Ready | SlotState::Waiting | SlotState::Expired | SlotState::Dropped => {
                false
            }
        }
    }

    /// Whether its time ran out, or it was rolled back too often.
    pub fn is_expired(self) -> bool
        ensures { result ≡ is_expired self }
    {
        match self {
            SlotState::Expired => true,
            SlotState::Ready | SlotState::Waiting | SlotState::Processed | SlotState::Dropped => {
                false
            }
        }
    }

    /// Whether it was taken, or its subscriber was removed.
    pub fn is_gone(self) -> bool
        ensures { result ≡ is_gone self }
    {
        match self {
            SlotState::Processed | SlotState::Dropped => true,
            SlotState::Ready | SlotState::Waiting | SlotState::Expired => false,
        }
    }
}

impl SlotRow {
    /// Whether it is for that consumer of its own database.
    pub fn is_local_for(&self, consumer: &Name) -> bool
        ensures { result ≡ is_local_for consumer.now self.now }
    {
        match &self.name {
            Some(name) => *name == *consumer && self.address.is_none(),
            None => false,
        }
    }

    /// It is in that state from a moment on. It takes no memory.
    pub fn set_state(&mut self, state: SlotState, at: u64)
        ensures { self.new ≡ in_state state at self.old }
    {
        self.state = state;
        self.at = at;
    }

    /// A removal of it was rolled back, so many by now: it waits until a moment, or is ready at once. It takes no memory.
    pub fn retry(&mut self, retries: u64, until: Option<u64>, at: u64)
        ensures { self.new ≡ retried retries until at self.old }
    {
        self.retries = retries;
        match until {
            None => self.set_state(SlotState::Ready, at),
            Some(until) => self.set_state(SlotState::Waiting, until),
        }
    }
}

fn set_state_at(slots: &mut List<SlotRow>, index: usize, state: SlotState, at: u64)
    ensures { slots.new ≡ changed_nth (in_state state at) index slots.old }
{
    if let Some(slot) = slots.get_mut(index) {
        slot.set_state(state, at);
    }
}

fn retry_at(slots: &mut List<SlotRow>, index: usize, retries: u64, until: Option<u64>, at: u64)
    ensures { slots.new ≡ changed_nth (retried retries until at) index slots.old }
{
    if let Some(slot) = slots.get_mut(index) {
        slot.retry(retries, until, at);
    }
}

fn most_retries(slots: &List<SlotRow>) -> u64
    ensures { result ≡ most_retries slots.now }
{
    slots.iter().fold(0, |most, slot| most.max(slot.retries))
}

impl MsgRow {
    /// How many slots it has for recipients: all but slot 0. It takes no memory.
    pub fn recipient_count(&self) -> usize
        ensures { result ≡ recipient_count self.now }
    {
        if self.moved {
            self.slots.len().saturating_sub(1)
        } else {
            self.slots.len()
        }
    }

    /// Whether it has a slot of that number: slot 0 where it was moved, and else one for a recipient. It takes no memory.
    pub fn has_slot(&self, slot: u64) -> bool
        ensures { result ≡ has_slot self.now slot }
    {
        if slot == 0 {
            self.moved
        } else {
            slot <= self.recipient_count() as u64
        }
    }

    fn slot_index(&self, slot: u64) -> u64
        ensures { result ≡ slot_index self.now slot }
    {
        if slot == 0 {
            (self.slots.len() as u64).saturating_sub(1)
        } else {
            slot - 1
        }
    }

    /// The slot of that number, or None where it has none: they count from 1, and slot 0 of a moved message is its last. It
    /// takes no memory.
    pub fn slot(&self, slot: u64) -> Option<&SlotRow>
        ensures { option_copied result ≡ slot_of self.now slot }
    {
        if !self.has_slot(slot) {
            return None;
        }
        self.slots.get(self.slot_index(slot) as usize)
    }

    /// Whether it has a slot of that number that can be taken at once. It takes no memory.
    pub fn is_slot_ready(&self, slot: u64) -> bool
        ensures { result ≡ is_ready_slot (slot_of self.now slot) }
    {
        match self.slot(slot) {
            Some(slot) => slot.state.is_ready(),
            None => false,
        }
    }

    /// The slot of that number, if it has one, is in that state from a moment on. It takes no memory.
    pub fn set_slot_state(&mut self, slot: u64, state: SlotState, at: u64)
        ensures { self.new ≡ with_slot slot (in_state state at) self.old }
    {
        if self.has_slot(slot) {
            let index = self.slot_index(slot);
            set_state_at(&mut self.slots, index as usize, state, at);
        }
    }

    /// A removal of the slot of that number, if it has one, was rolled back, so many by now: it waits until a moment, or is
    /// ready at once. It takes no memory.
    pub fn retry_slot(&mut self, slot: u64, retries: u64, until: Option<u64>, at: u64)
        ensures { self.new ≡ with_slot slot (retried retries until at) self.old }
    {
        if self.has_slot(slot) {
            let index = self.slot_index(slot);
            retry_at(&mut self.slots, index as usize, retries, until, at);
        }
    }

    /// The slot 0 that the message gets as its last when it is moved at that moment. It takes no memory.
    pub fn slot_zero(&self, at: u64) -> SlotRow
        ensures { result ≡ slot_zero self.now.slots at }
    {
        SlotRow {
            name: None,
            address: None,
            state: SlotState::Ready,
            retries: most_retries(&self.slots),
            at,
            expires: None,
        }
    }

    /// The message stands in that queue, with a slot 0 behind its slots. At want of memory it is as before.
    pub fn move_to(&mut self, queue: Name, at: u64) -> Result<(), AllocError>
        ensures ok { OnOk result (self.new ≡ moved_to queue at self.old) }
        ensures err { OnErr result (self.new ≡ self.old) }
    {
        let zero = self.slot_zero(at);
        self.slots.push(zero)?;
        self.queue = queue;
        self.moved = true;
        Ok(())
    }
}
