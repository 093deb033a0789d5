// Rows of one kind, while a commit is made.
ghost use Rattle.std.specs.Prelude.{◌≡◌, ◌+◌, ◌-◌, ◌<◌, ◌≤◌, [], ◌∷◌, ◌++◌, OnOk, OnErr, length, remove, slice_set};
ghost use Rattle.std.specs.Fn.{CalledAt};
ghost use Rattle.std.specs.List.Retain.{IsFiltered};

use payload_records::List;
use std::alloc::{AllocError, Global};
use std::marker::Model;

/// Rows of one kind, with memory for so many more. Contracts see the rows and that number.
#[derive(Drop)]
pub struct OpenRows<T> {
    items: Vec<T>,
    room: usize,
}

impl<T> Model for OpenRows<T> {
    ghost use Rattle.std.specs.Prelude.{◌+◌, ◌≤◌, vec_len, vec_capacity};
    ghost use Rattle.open_rows.specs.Rows.{Rows};

    ghost Value = { Rows T };

    ghost view = { λ r. record { items = r.items.items; room = r.room } };

    ghost invariant = { λ r. vec_len r.items + r.room ≤ vec_capacity r.items };
}

impl<T> OpenRows<T> {
    /// No rows, and no memory for any. It takes no memory.
    pub(crate) fn new(alloc: Global) -> OpenRows<T>
        ensures { result ≡ record { items = []; room = 0 } }
    {
        OpenRows {
            items: Vec::new(alloc),
            room: 0,
        }
    }

    /// The rows of a list. It takes no memory.
    pub(crate) fn of(rows: List<T>) -> OpenRows<T>
        ensures { result ≡ record { items = rows; room = 0 } }
    {
        OpenRows {
            items: rows.into_vec(),
            room: 0,
        }
    }

    /// The rows as a list. It takes no memory.
    pub fn into_list(self) -> List<T>
        ensures { result ≡ self.items }
    {
        List::from_vec(self.items)
    }

    /// The rows.
    pub(crate) fn as_slice(&self) -> &[T]
        ensures { result.now ≡ self.now.items }
    {
        self.items.as_slice()
    }

    /// For how many more rows there is memory.
    pub(crate) fn room(&self) -> usize
        ensures { result ≡ self.now.room }
    {
        self.room
    }

    /// Takes memory for so many more rows.
    pub(crate) fn reserve(&mut self, room: usize) -> Result<(), AllocError>
        ensures ok { OnOk result (self.new ≡ record self.old { room = room }) }
        ensures err { OnErr result (self.new ≡ self.old) }
    {
        self.items.reserve(room)?;
        self.room = room;
        Ok(())
    }

    /// Puts a row last. It takes no memory.
    pub fn push(&mut self, row: T)
    where
        T: Drop,
        requires { 0 < self.old.room }
        ensures { self.new ≡ record { items = self.old.items ++ row ∷ []; room = self.old.room - 1 } }
    {
        self.room -= 1;
        let Ok(()) = self.items.push(row) else {
            unreachable!()
        };
    }

    /// Puts the rows of a list behind these. It takes no memory.
    pub(crate) fn append(&mut self, rows: List<T>)
    where
        T: Drop,
        requires { length rows ≤ self.old.room }
        ensures { self.new ≡ record { items = self.old.items ++ rows; room = self.old.room - length rows } }
    {
        self.room -= rows.len();
        let mut more = rows.into_vec();
        let Ok(()) = self.items.append(&mut more) else {
            unreachable!()
        };
    }

    /// Replaces the row at an index, and gives the memory for one more row up. It takes no memory.
    pub(crate) fn set(&mut self, at: usize, row: T)
    where
        T: Drop,
        requires within { at < length self.old.items }
        ensures { self.new ≡ record { items = slice_set self.old.items at row; room = self.old.room - 1 } }
    {
        self.items[at] = row;
        self.room = self.room.saturating_sub(1);
    }

    /// Keeps the rows that pass a test. It takes no memory.
    pub(crate) fn retain<F: FnMut(&T) -> bool>(&mut self, test: F)
    where
        T: Drop,
        requires { F.IsAlwaysCallable test }
        ensures items { IsFiltered (CalledAt F.FnMut) test self.old.items self.new.items }
        ensures room { self.new.room ≡ self.old.room }
    {
        self.items.retain(test);
    }

    /// Takes the row at an index out. It takes no memory.
    pub(crate) fn remove(&mut self, at: usize)
    where
        T: Drop,
        requires { at < length self.old.items }
        ensures { self.new ≡ record self.old { items = remove self.old.items at } }
    {
        drop(self.items.remove(at));
    }
}
