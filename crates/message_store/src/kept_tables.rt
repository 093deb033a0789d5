// The tables of a database, with what is kept beside them.
ghost use Rattle.std.specs.Prelude.{◌≡◌, ◌==◌, All, OnOk, [], length, option_copied, position, true};
ghost use Rattle.choice_laws.specs.Entries.{message_at};
ghost use Rattle.queue_rows.specs.Rows.{find_message};
ghost use Rattle.queue_rows.specs.Tables.{after, empty_tables};
ghost use Rattle.message_index.specs.Caches.{AreOf};
ghost use Rattle.message_store.specs.Numbers.{HasNumbers};
ghost use Rattle.message_store.specs.OfMessages.{is_of_message};
ghost use Rattle.message_store.specs.Open.{held, room_of};
ghost use Rattle.message_store.specs.Prepared.{AreReady};
ghost use Rattle.message_index.specs.Stamped.{AreStamps, IfReady, IfRemote, entries_of};

use crate::beside::Beside;
use crate::in_place::{apply_in_place, are_of_messages};
use crate::numbers::check_numbers;
use crate::open::OpenTables;
use crate::room::{RowKind, puts_of};
use message_choice::StampedMessages;
use message_index::{Caches, MessageIndex, ReadyCache, RemoteCache, find, slot_rooms};
use payload_records::List;
use queue_rows::{Change, Commit, MsgRow, Tables};
use std::alloc::{AllocError, Global};
use std::marker::Model;

/// The tables of a database, an index of their messages by their numbers, and the memory that a commit was prepared with. Contracts
/// see the tables, that memory, and the stamps of the messages.
pub(crate) struct KeptTables {
    tables: Tables,
    beside: Beside,
}

impl Drop for KeptTables {
    fn drop(self) {
        let Self {
            tables: _,
            beside: _,
        } = self;
    }
}

impl Model for KeptTables {
    ghost use Rattle.std.specs.Coded.{codes};
    ghost use Rattle.rule_conditions.specs.contracts.condition.Cond as cond;
    ghost use Rattle.message_store.specs.Kept.{Kept};

    ghost Value = { Kept };

    ghost coded = { Prim.hlevel (codes, cond.the_row.coded) };

    ghost use Rattle.std.specs.Prelude.{◌≡◌, length};
    ghost use Rattle.message_store.specs.Beside.{room_beside};
    ghost use Rattle.message_index.specs.Messages.{ids_of};
    ghost use Rattle.message_index.specs.Stamped.{AreStamps};

    ghost view = { λ k. record {
      tables = k.tables;
      room = room_beside k.tables k.beside;
      stamps = k.beside.index.stamps;
    } };

    ghost invariant = { λ k. (k.beside.index.ids ≡ ids_of k.tables.messages)
        × AreStamps (length k.beside.index.ids) k.beside.index.stamps };
}

impl KeptTables {
    /// Tables in which nothing was committed yet. It takes no memory.
    pub(crate) fn new(alloc: Global) -> KeptTables
        ensures tables { result.tables ≡ empty_tables }
        ensures stamps { result.stamps ≡ [] }
    {
        KeptTables {
            tables: Tables::new(alloc),
            beside: Beside::of(alloc, MessageIndex::new(alloc)),
        }
    }

    /// The tables. It takes no memory.
    pub(crate) fn tables(&self) -> &Tables
        ensures tables { result.now ≡ self.now.tables }
        ensures stamped { AreStamps (length self.now.tables.messages) self.now.stamps }
    {
        &self.tables
    }

    /// The message of that number. It takes no memory, and does not go over the messages.
    pub(crate) fn message(&self, id: u64) -> Option<&MsgRow>
        ensures { option_copied result ≡ find_message self.now.tables id }
    {
        find(&self.tables.messages, &self.beside.index, id)
    }

    /// Takes all memory that a commit needs. The tables are as before, also at want of memory.
    pub(crate) fn prepare(&mut self, commit: &Commit) -> Result<(), AllocError>
        ensures tables { self.new.tables ≡ self.old.tables }
        ensures stamps { self.new.stamps ≡ self.old.stamps }
        ensures prepared { OnOk result (AreReady self.new.tables self.new.room commit.now.changes) }
    {
        let changes = &commit.changes;
        check_numbers(changes)?;
        if are_of_messages(changes) {
            self.reserve_messages(changes)
        } else {
            self.reserve_rows(changes)
        }
    }

    // Takes memory for changes of messages that stay in their queues: they put no other rows, and move no slots.
    fn reserve_messages(&mut self, changes: &List<Change>) -> Result<(), AllocError>
        requires numbers { All HasNumbers changes.now }
        requires messages { All (λ c. is_of_message c ≡ true) changes.now }
        ensures tables { self.new.tables ≡ self.old.tables }
        ensures stamps { self.new.stamps ≡ self.old.stamps }
        ensures prepared { OnOk result (AreReady self.new.tables self.new.room changes.now) }
    {
        let count = puts_of(RowKind::Message, changes);
        self.beside.index.reserve(count)?;
        Ok(())
    }

    // Takes memory for any changes. Few commits come here: its locals stay out of the way of the others.
    #[inline(never)]
    fn reserve_rows(&mut self, changes: &List<Change>) -> Result<(), AllocError>
        requires { All HasNumbers changes.now }
        ensures tables { self.new.tables ≡ self.old.tables }
        ensures stamps { self.new.stamps ≡ self.old.stamps }
        ensures prepared { OnOk result (AreReady self.new.tables self.new.room changes.now) }
    {
        self.beside.slots = slot_rooms(&self.tables.messages, &self.beside.index, changes)?;
        self.beside.reserve(&self.tables, changes)?;
        Ok(())
    }

    /// Where the message of that number stands among all. It takes no memory.
    pub(crate) fn rank_of(&self, id: u64) -> Option<usize>
        ensures { result ≡ position (λ m. m.id == id) self.now.tables.messages }
    {
        self.beside.index.position(id)
    }

    /// The index of the ready slots of the messages, where there is memory for it.
    pub(crate) fn ready(&self, alloc: Global) -> ReadyCache
        ensures { IfReady (entries_of self.now.stamps self.now.tables.messages) result.slots }
    {
        ReadyCache::of(&self.tables.messages, &self.beside.index, alloc)
    }

    /// The index of the ready slots that go to the other database, where there is memory for it.
    pub(crate) fn remote(&self, alloc: Global) -> RemoteCache
        ensures { IfRemote (entries_of self.now.stamps self.now.tables.messages) result.slots }
    {
        RemoteCache::of(&self.tables.messages, &self.beside.index, alloc)
    }

    /// Makes the changes of a commit in order, each of one message that stays in its queue, at its moment. It needs no memory.
    pub(crate) fn apply_in_place(&mut self, caches: &mut Caches, commit: Commit)
        requires ready { AreReady self.old.tables self.old.room commit.changes }
        requires messages { All (λ c. is_of_message c ≡ true) commit.changes }
        requires caches { AreOf self.old.stamps self.old.tables.messages caches.old }
        ensures tables { self.new.tables ≡ after self.old.tables commit }
        ensures caches { AreOf self.new.stamps self.new.tables.messages caches.new }
    {
        apply_in_place(&mut self.tables, &mut self.beside, caches, commit);
    }

    /// The tables, opened, with the indexes of their messages. It takes no memory.
    pub(crate) fn open(self, caches: Caches) -> OpenTables
        requires { AreOf self.stamps self.tables.messages caches }
        ensures held { held result ≡ self.tables }
        ensures room { room_of result ≡ self.room }
    {
        let Self { tables, beside } = self;
        OpenTables::of(tables, beside, caches)
    }

    /// The tables, closed again, and the indexes of their messages. It takes no memory.
    pub(crate) fn close(opened: OpenTables, alloc: Global) -> (KeptTables, Caches)
        ensures tables { result.0.tables ≡ held opened }
        ensures caches { AreOf result.0.stamps result.0.tables.messages result.1 }
    {
        let (tables, beside, caches) = opened.close(alloc);
        (KeptTables { tables, beside }, caches)
    }
}

impl StampedMessages for KeptTables {
    ghost entries = { λ k. entries_of k.stamps k.tables.messages };

    fn message_at(&self, stamp: u64) -> Option<&MsgRow> {
        match self.beside.index.rank(stamp) {
            Some(at) => self.tables.messages.get(at),
            None => None,
        }
    }
}
