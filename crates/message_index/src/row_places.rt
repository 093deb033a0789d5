// Places for rows that are to be put in, those of rows that are gone among them.
ghost use Rattle.std.specs.Prelude.{◌≡◌, ◌+◌, ◌<◌, ◌≤◌, max, OnOk};

use row_tree::Spare;
use std::alloc::{AllocError, Global};
use std::marker::Model;

/// How many places are kept at most when a row goes.
const KEPT_LIMIT: usize = 64;

/// Places for rows that are to be put in, which contracts see as their number. A place whose row is gone is kept, so that the next row
/// needs no new one.
#[derive(Drop)]
pub(crate) struct RowPlaces<T> {
    spares: Vec<Spare<T>>,
}

impl<T> Model for RowPlaces<T> {
    ghost use Rattle.std.specs.Prelude.{ℕ, vec_len};

    ghost Value = { ℕ };

    ghost view = { λ p. vec_len p.spares };
}

impl<T: Drop> RowPlaces<T> {
    /// No places. It takes no memory.
    pub(crate) fn new(alloc: Global) -> RowPlaces<T>
        ensures { result ≡ 0 }
    {
        RowPlaces {
            spares: Vec::new(alloc),
        }
    }

    /// Makes places until there are as many, and room to keep others. At want of memory there are at least as many as before.
    pub(crate) fn reserve(&mut self, rows: usize) -> Result<(), AllocError>
        ensures ok { OnOk result (rows ≤ self.new) }
        ensures kept { self.old ≤ self.new }
        ensures most { self.new ≤ max self.old rows }
    {
        let alloc = *self.spares.allocator();
        let most = rows.max(KEPT_LIMIT);
        self.spares.reserve(most.saturating_sub(self.spares.len()))?;
        let missing = rows.saturating_sub(self.spares.len());
        for _ in 0..missing {
            self.spares.push(Spare::new(alloc)?)?;
        }
        Ok(())
    }

    /// One of the places. It takes no memory.
    pub(crate) fn take(&mut self) -> Spare<T>
        requires { 0 < self.old }
        ensures { self.old ≡ self.new + 1 }
    {
        let Some(spare) = self.spares.pop() else {
            unreachable!()
        };
        spare
    }

    /// Keeps the place of a row that is gone, where there are fewer than 64. It takes no memory.
    pub(crate) fn keep(&mut self, spare: Spare<T>)
        ensures kept { self.old ≤ self.new }
        ensures most { self.new ≤ max self.old 64 }
    {
        let places = self.spares.len();
        if places < KEPT_LIMIT && places < self.spares.capacity() {
            self.spares.push_reserved(spare);
        }
    }
}
