// The index of the slots that are ready and go to the other database, beside the messages, which is let go where it finds no memory.
ghost use Rattle.std.specs.Prelude.{◌≡◌, [], length};
ghost use Rattle.message_index.specs.Messages.{ids_of};
ghost use Rattle.message_index.specs.Stamped.{AreStamps, Forgets, IfRemote, Notes, entries_of};
ghost use Rattle.remote_slots.specs.Remote.{IndexesRemote};

use crate::message_index::MessageIndex;
use queue_rows::MsgRow;
use remote_slots::RemoteSlots;
use row_tree::Tree;
use std::alloc::Global;

/// The index, where it is kept. Its rows are those of the messages that it stands beside.
#[derive(Drop)]
pub struct RemoteCache {
    /// The index.
    pub slots: Option<RemoteSlots>,
}

impl RemoteCache {
    /// The index of no messages. It takes no memory.
    pub(crate) fn new(alloc: Global) -> RemoteCache
        ensures { IfRemote [] result.slots }
    {
        RemoteCache {
            slots: Some(RemoteSlots::new(alloc)),
        }
    }

    /// The index of messages that stand under stamps, where there is memory for it.
    pub fn of(messages: &Tree<MsgRow>, index: &MessageIndex, alloc: Global) -> RemoteCache
        requires ids { index.now.ids ≡ ids_of messages.now }
        requires stamped { AreStamps (length index.now.ids) index.now.stamps }
        ensures { IfRemote (entries_of index.now.stamps messages.now) result.slots }
    {
        let _most = messages.len();
        let mut remote = RemoteCache::new(alloc);
        let mut at = 0;
        for message in messages {
            remote.put(index.stamp_at(at), message);
            at += 1;
        }
        remote
    }

    /// The message goes that stood under the stamp. It takes no memory.
    pub(crate) fn remove(&mut self, stamp: u64, message: &MsgRow)
        ensures { Forgets IndexesRemote stamp message.now self.old.slots self.new.slots }
    {
        if let Some(slots) = &mut self.slots {
            slots.remove(stamp, message);
        }
    }

    /// The message comes under the stamp, which no other has. Where there is no memory for its rows, the index is let go.
    pub(crate) fn put(&mut self, stamp: u64, message: &MsgRow)
        ensures { Notes IndexesRemote stamp message.now self.old.slots self.new.slots }
    {
        let Some(slots) = &mut self.slots else {
            return;
        };
        if slots.put(stamp, message).is_err() {
            self.slots = None;
        }
    }
}
