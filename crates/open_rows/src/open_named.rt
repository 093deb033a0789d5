// Rows that are found by their names, while a commit is made.
ghost use Rattle.std.specs.Prelude.{◌≡◌, ◌+◌, ◌-◌, ◌<◌, ◌∷◌, ◌++◌, [], IfSome, length, min, remove, slice_get, slice_set};
ghost use Rattle.row_tree.specs.Edits.{edit_at};

use crate::rooms::Rooms;
use named_list::{Named, NamedList, Room};
use row_tree::Edit;
use std::marker::Model;

/// A row in the place of another one.
#[derive(Drop)]
struct Replacement<T> {
    row: T,
}

impl<T: Drop> Edit<T> for Replacement<T> {
    ghost edited = { λ edit _. edit.row };

    fn edit(self, _row: T) -> T {
        self.row
    }
}

/// Rows of one kind that are found by their names, with memory for so many more. Contracts see the rows and that number.
#[derive(Drop)]
pub struct OpenNamed<T: Named> {
    rows: NamedList<T>,
    rooms: Vec<Room<T>>,
    room: usize,
}

impl<T: Named> Model for OpenNamed<T> {
    ghost use Rattle.std.specs.Prelude.{◌+◌, ◌≤◌, length, vec_len};
    ghost use Rattle.std.below.core.specs.declared.int.usize.TheConstants.{MAX};
    ghost use Rattle.open_rows.specs.Rows.{Rows};

    ghost Value = { Rows T };

    ghost view = { λ r. record { items = r.rows; room = r.room } };

    ghost invariant = { λ r. (r.room ≤ vec_len r.rooms) × (length r.rows + r.room ≤ MAX) };
}

impl<T: Named + Drop> OpenNamed<T> {
    /// The rows of a list, with memory for more. It takes no memory.
    pub fn of(rows: NamedList<T>, room: Rooms<Room<T>>) -> OpenNamed<T>
        ensures { result ≡ record { items = rows; room = min room (usize.MAX - length rows) } }
    {
        let count = rows.len();
        let rooms = room.into_vec();
        let room = rooms.len().min(usize::MAX - count);
        OpenNamed { rows, rooms, room }
    }

    /// The rows as a list. It takes no memory.
    pub fn into_list(self) -> NamedList<T>
        ensures { result ≡ self.items }
    {
        self.rows
    }

    /// The rows.
    pub fn rows(&self) -> &NamedList<T>
        ensures { result.now ≡ self.now.items }
    {
        &self.rows
    }

    /// Puts a row last. It takes no memory.
    pub(crate) fn push(&mut self, row: T)
        requires { 0 < self.old.room }
        ensures { self.new ≡ record { items = self.old.items ++ row ∷ []; room = self.old.room - 1 } }
    {
        let Some(room) = self.rooms.pop() else {
            unreachable!()
        };
        self.room -= 1;
        self.rows.push(row, room);
    }

    /// Changes the row at an index, which keeps its name. It takes no memory.
    pub fn edit<E: Edit<T>>(&mut self, at: usize, edit: E)
        requires within { at < length self.old.items }
        requires name { IfSome (slice_get self.old.items at)
            (λ row. T.name_of (E.edited edit row) ≡ T.name_of row) }
        ensures { self.new ≡ record self.old { items = edit_at self.old.items at (E.edited edit) } }
    {
        self.rows.edit(at, edit);
    }

    /// Replaces the row at an index by one of its name, and gives the memory for one more row up. It takes no memory.
    pub(crate) fn set(&mut self, at: usize, row: T)
        requires within { at < length self.old.items }
        requires name { IfSome (slice_get self.old.items at)
            (λ other. T.name_of row ≡ T.name_of other) }
        ensures { self.new ≡ record { items = slice_set self.old.items at row; room = self.old.room - 1 } }
    {
        self.rows.edit(at, Replacement { row });
        self.room = self.room.saturating_sub(1);
    }

    /// Takes the row at an index out. It takes no memory.
    pub(crate) fn remove(&mut self, at: usize)
        requires { at < length self.old.items }
        ensures { self.new ≡ record self.old { items = remove self.old.items at } }
    {
        drop(self.rows.remove(at));
    }
}
