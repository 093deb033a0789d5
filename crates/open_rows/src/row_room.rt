// Memory for rows that come.
ghost use Rattle.std.specs.Prelude.{◌≡◌, ◌-◌, ◌<◌, ◌≤◌, ◌∷◌, ◌++◌, [], OnOk, OnErr, IfOk, length};

use crate::open_rows::OpenRows;
use crate::sums::total;
use payload_records::List;
use std::alloc::{AllocError, Global};
use std::marker::Model;
use std::mem;

/// Memory for the rows of a list and for those that come. Contracts see for how many.
#[derive(Drop)]
pub struct RowRoom<T> {
    rows: OpenRows<T>,
}

impl<T> Model for RowRoom<T> {
    ghost use Rattle.std.specs.Prelude.{◌≡◌, ℕ, []};

    ghost Value = { ℕ };

    ghost view = { λ r. r.rows.room };

    ghost invariant = { λ r. r.rows.items ≡ [] };
}

impl<T: Drop> RowRoom<T> {
    /// Memory for none. It takes no memory.
    pub fn none(alloc: Global) -> RowRoom<T>
        ensures { result ≡ 0 }
    {
        RowRoom {
            rows: OpenRows::new(alloc),
        }
    }

    /// Memory for so many rows, where it can be taken.
    pub fn new(alloc: Global, room: usize) -> Result<RowRoom<T>, AllocError>
        ensures { IfOk result (λ r. r ≡ room) }
    {
        let mut rows = OpenRows::new(alloc);
        rows.reserve(room)?;
        Ok(RowRoom { rows })
    }

    /// For how many rows there is memory.
    pub fn len(&self) -> usize
        ensures { result ≡ self.now }
    {
        self.rows.room()
    }

    /// Takes memory for the rows of a list and so many more, where any more come.
    pub fn reserve(&mut self, rows: &List<T>, more: usize) -> Result<(), AllocError>
        ensures { OnOk result (more ≤ self.new - length rows.now) }
    {
        if more == 0 {
            return Ok(());
        }
        self.rows.reserve(total(rows.len(), more)?)
    }

    /// The rows of a list, with the memory that is left for more. It takes no memory.
    pub fn open(self, rows: List<T>) -> OpenRows<T>
        ensures { result ≡ record { items = rows; room = self - length rows } }
    {
        if self.rows.room() <= rows.len() {
            return OpenRows::of(rows);
        }
        let mut open = self.rows;
        open.append(rows);
        open
    }
}
