// The index of ready slots beside the messages, which is let go where it finds no memory.
ghost use Rattle.std.specs.Prelude.{◌≡◌, [], length};
ghost use Rattle.remote_slots.specs.Indexed.{IndexesReady};
ghost use Rattle.message_index.specs.Messages.{ids_of};
ghost use Rattle.message_index.specs.Stamped.{AreStamps, Forgets, IfReady, Notes, Turns, entries_of};

use crate::message_index::MessageIndex;
use queue_rows::MsgRow;
use remote_slots::ReadySlots;
use row_tree::Tree;
use std::alloc::Global;

/// The index, where it is kept. Its rows are those of the messages that it stands beside.
#[derive(Drop)]
pub struct ReadyCache {
    /// The index.
    pub slots: Option<ReadySlots>,
}

impl ReadyCache {
    /// The index of no messages. It takes no memory.
    pub(crate) fn new(alloc: Global) -> ReadyCache
        ensures { IfReady [] result.slots }
    {
        ReadyCache {
            slots: Some(ReadySlots::new(alloc)),
        }
    }

    /// The index of messages that stand under stamps, where there is memory for it.
    pub fn of(messages: &Tree<MsgRow>, index: &MessageIndex, alloc: Global) -> ReadyCache
        requires ids { index.now.ids ≡ ids_of messages.now }
        requires stamped { AreStamps (length index.now.ids) index.now.stamps }
        ensures { IfReady (entries_of index.now.stamps messages.now) result.slots }
    {
        let _most = messages.len();
        let mut ready = ReadyCache::new(alloc);
        let mut at = 0;
        for message in messages {
            ready.put(index.stamp_at(at), message);
            at += 1;
        }
        ready
    }

    /// The message goes that stood under the stamp. It takes no memory.
    pub(crate) fn remove(&mut self, stamp: u64, message: &MsgRow)
        ensures { Forgets IndexesReady stamp message.now self.old.slots self.new.slots }
    {
        if let Some(slots) = &mut self.slots {
            slots.remove(stamp, message);
        }
    }

    /// The message comes under the stamp, which no other has. Where there is no memory for its rows, the index is let go.
    pub(crate) fn put(&mut self, stamp: u64, message: &MsgRow)
        ensures { Notes IndexesReady stamp message.now self.old.slots self.new.slots }
    {
        let Some(slots) = &mut self.slots else {
            return;
        };
        if slots.put(stamp, message).is_err() {
            self.slots = None;
        }
    }

    /// A slot of the message under the stamp was changed, and left to its recipient; the message is given as it stands now. Where there is no memory
    /// for its rows, the index is let go.
    pub(crate) fn change_slot(&mut self, stamp: u64, message: &MsgRow, slot: u64)
        ensures { Turns stamp slot message.now self.old.slots self.new.slots }
    {
        let Some(slots) = &mut self.slots else {
            return;
        };
        if slots.change_slot(stamp, message, slot).is_err() {
            self.slots = None;
        }
    }
}
