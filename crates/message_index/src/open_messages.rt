// The messages of a database, while a commit is made.
ghost use Rattle.std.specs.Prelude.{◌≡◌, ◌==◌, ◌-◌, ◌<◌, ◌≤◌, [], ◌∷◌, ◌++◌, IfSome, find, length, not, option_copied, position, remove};
ghost use Rattle.std.specs.Str.{bytes_eq};
ghost use Rattle.queue_rows.specs.Rows.{with_slot};
ghost use Rattle.queue_rows.specs.Tables.{in_state, moved_to, retried};
ghost use Rattle.message_index.specs.Messages.{ids_of, with_changed, stands_in, KeepsId};
ghost use Rattle.open_rows.specs.Rows.{filtered, without_first};
ghost use Rattle.message_index.specs.Caches.{AreOf};
ghost use Rattle.message_index.specs.Stamped.{AreStamps};
ghost use Rattle.row_tree.specs.Edits.{edit_at};

use crate::caches::Caches;
use crate::edits::MoveTo;
use crate::found::find;
use crate::indexed_messages::{
    push_message, put_into, remove_at, remove_message, set_retried, set_state, take_from,
};
use crate::message_index::MessageIndex;
use open_rows::RowRoom;
use payload_records::Name;
use queue_rows::{MsgRow, SlotRow, SlotState};
use row_tree::{Edit, Tree};
use std::marker::Model;

/// Messages, with memory for so many more, and indexes of them: by their numbers, of their ready slots, of those that go to the other
/// database, and of what is due. Contracts see the messages and that count. A method that needs no memory lets an index other than that
/// by numbers go where it finds none for its rows.
#[derive(Drop)]
pub struct OpenMessages {
    rows: Tree<MsgRow>,
    index: MessageIndex,
    caches: Caches,
}

impl Model for OpenMessages {
    ghost use Rattle.queue_rows.specs.declared.rows.MsgRow.{MsgRow};
    ghost use Rattle.open_rows.specs.Rows.{Rows};

    ghost Value = { Rows MsgRow };

    ghost view = { λ m. record { items = m.rows; room = m.index.room } };

    ghost use Rattle.message_index.specs.Caches.{AreIndexed};

    ghost invariant = { λ m. AreIndexed m.rows m.index m.caches };
}

impl OpenMessages {
    /// The messages of tables, with their indexes. It takes no memory.
    pub fn of(rows: Tree<MsgRow>, index: MessageIndex, caches: Caches) -> OpenMessages
        requires ids { index.ids ≡ ids_of rows }
        requires stamped { AreStamps (length index.ids) index.stamps }
        requires caches { AreOf index.stamps rows caches }
        ensures { result ≡ record { items = rows; room = index.room } }
    {
        OpenMessages {
            rows,
            index,
            caches,
        }
    }

    /// The messages and their indexes. It takes no memory.
    pub fn close(self) -> (Tree<MsgRow>, MessageIndex, Caches)
        ensures rows { result.0 ≡ self.items }
        ensures ids { result.1.ids ≡ ids_of self.items }
        ensures stamped { AreStamps (length result.1.ids) result.1.stamps }
        ensures caches { AreOf result.1.stamps self.items result.2 }
    {
        (self.rows, self.index, self.caches)
    }

    /// Where the first message of that number stands. It does not go over the messages.
    pub(crate) fn position(&self, id: u64) -> Option<usize>
        ensures first { result ≡ position (λ m. m.id == id) self.now.items }
        ensures within { IfSome result (λ i. i < length self.now.items) }
    {
        self.index.position(id)
    }

    /// The first message of that number. It does not go over the messages.
    pub fn find(&self, id: u64) -> Option<&MsgRow>
        ensures { option_copied result ≡ find (λ m. m.id == id) self.now.items }
    {
        find(&self.rows, &self.index, id)
    }

    /// Puts a message last. It needs no memory.
    pub fn push(&mut self, row: MsgRow)
        requires { 0 < self.old.room }
        ensures { self.new ≡ record { items = self.old.items ++ row ∷ []; room = self.old.room - 1 } }
    {
        push_message(&mut self.rows, &mut self.index, &mut self.caches, row);
    }

    /// Takes the first message of that number out, if there is one. It takes no memory.
    pub fn remove_message(&mut self, id: u64)
        ensures { self.new ≡ without_first (λ m. m.id == id) self.old }
    {
        remove_message(&mut self.rows, &mut self.index, &mut self.caches, id);
    }

    fn remove_at(&mut self, at: usize)
        requires { at < length self.old.items }
        ensures { self.new ≡ record self.old { items = remove self.old.items at } }
    {
        remove_at(&mut self.rows, &mut self.index, &mut self.caches, at);
    }

    // Whether the message at an index stands in that queue; None past the end.
    fn stands_in(&self, at: usize, queue: &Name) -> Option<bool>
        ensures stands { result ≡ stands_in queue.now self.now.items at }
        ensures within { IfSome result (λ _. at < length self.now.items) }
        ensures countable { length self.now.items ≤ usize.MAX }
    {
        let _most = self.rows.len();
        let message = self.rows.get(at)?;
        Some(message.queue == *queue)
    }

    /// Takes the messages of that queue out. It takes no memory.
    pub fn remove_of_queue(&mut self, queue: &Name)
        ensures { self.new ≡ filtered (λ m. not (bytes_eq m.queue queue.now)) self.old }
    {
        let mut at = 0;
        while let Some(goes) = self.stands_in(at, queue) {
            if goes {
                self.remove_at(at);
            } else {
                at += 1;
            }
        }
    }

    // The first message of that number is changed, and keeps its number.
    fn edit<E: Edit<MsgRow> + Drop>(&mut self, id: u64, edit: E)
        requires { KeepsId (E.edited edit) }
        ensures { self.new ≡ with_changed id (E.edited edit) self.old }
    {
        if let Some(at) = self.position(id) {
            self.edit_at(at, edit);
        }
    }

    fn edit_at<E: Edit<MsgRow> + Drop>(&mut self, at: usize, edit: E)
        requires within { at < length self.old.items }
        requires id { KeepsId (E.edited edit) }
        ensures { self.new ≡ record self.old { items = edit_at self.old.items at (E.edited edit) } }
    {
        let stamp = self.index.stamp_at(at);
        take_from(&mut self.caches, &self.rows, &self.index, at, stamp);
        self.rows.edit(at, edit);
        put_into(&mut self.caches, &self.rows, at, stamp);
    }

    /// The slot of the first message of that number is in that state from a moment on. It needs no memory.
    pub fn set_state(&mut self, id: u64, slot: u64, state: SlotState, at: u64)
        ensures { self.new ≡ with_changed id (with_slot slot (in_state state at)) self.old }
    {
        set_state(
            &mut self.rows,
            &self.index,
            &mut self.caches,
            id,
            slot,
            state,
            at,
        );
    }

    /// The slot of the first message of that number was rolled back so often; it waits, or is ready at once. It
    /// needs no memory.
    pub fn set_retried(&mut self, id: u64, slot: u64, retries: u64, until: Option<u64>, at: u64)
        ensures { self.new ≡ with_changed id (with_slot slot (retried retries until at)) self.old }
    {
        set_retried(
            &mut self.rows,
            &self.index,
            &mut self.caches,
            id,
            slot,
            retries,
            until,
            at,
        );
    }

    /// The first message of that number stands in that queue, if there is one, with slot 0 behind its slots. It
    /// needs no memory.
    pub fn move_to(&mut self, id: u64, queue: Name, at: u64, room: RowRoom<SlotRow>)
        requires { IfSome (find (λ m. m.id == id) self.old.items) (λ m. length m.slots < room) }
        ensures { self.new ≡ with_changed id (moved_to queue at) self.old }
    {
        self.edit(id, MoveTo { queue, at, room });
    }
}
