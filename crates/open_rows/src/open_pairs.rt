// Rows that are found by their pairs, while a commit is made.
ghost use Rattle.std.specs.Prelude.{◌≡◌, ◌-◌, ◌<◌, ◌∷◌, ◌++◌, [], length, min};

use crate::rooms::Rooms;
use pair_list::{PairList, Paired, Room};
use std::marker::Model;

/// Rows of one kind that are found by their pairs, with memory for so many more. Contracts see the rows and that number.
#[derive(Drop)]
pub struct OpenPairs<T: Paired> {
    rows: PairList<T>,
    rooms: Vec<Room<T>>,
    room: usize,
}

impl<T: Paired> Model for OpenPairs<T> {
    ghost use Rattle.std.specs.Prelude.{◌+◌, ◌≤◌, length, vec_len};
    ghost use Rattle.std.below.core.specs.declared.int.usize.TheConstants.{MAX};
    ghost use Rattle.open_rows.specs.Rows.{Rows};

    ghost Value = { Rows T };

    ghost view = { λ r. record { items = r.rows; room = r.room } };

    ghost invariant = { λ r. (r.room ≤ vec_len r.rooms) × (length r.rows + r.room ≤ MAX) };
}

impl<T: Paired + Drop> OpenPairs<T> {
    /// The rows of a list, with memory for more. It takes no memory.
    pub fn of(rows: PairList<T>, room: Rooms<Room<T>>) -> OpenPairs<T>
        ensures { result ≡ record { items = rows; room = min room (usize.MAX - length rows) } }
    {
        let count = rows.len();
        let rooms = room.into_vec();
        let room = rooms.len().min(usize::MAX - count);
        OpenPairs { rows, rooms, room }
    }

    /// The rows as a list. It takes no memory.
    pub fn into_list(self) -> PairList<T>
        ensures { result ≡ self.items }
    {
        self.rows
    }

    /// Puts a row last. It takes no memory.
    pub fn push(&mut self, row: T)
        requires { 0 < self.old.room }
        ensures { self.new ≡ record { items = self.old.items ++ row ∷ []; room = self.old.room - 1 } }
    {
        let Some(room) = self.rooms.pop() else {
            unreachable!()
        };
        self.room -= 1;
        self.rows.push(row, room);
    }
}
