// Memory for rows that come, in pieces of one row each.
ghost use Rattle.std.specs.Prelude.{◌≡◌, ◌-◌, ◌≤◌, OnOk, min, vec_len};

use std::alloc::{AllocError, Global};
use std::marker::Model;

/// The memory of one more row of a list.
pub trait RowMemory: Sized {
    /// Takes it, where there is any.
    fn taken(alloc: Global) -> Result<Self, AllocError>;
}

impl<T: Drop> RowMemory for named_list::Room<T> {
    fn taken(alloc: Global) -> Result<Self, AllocError> {
        named_list::Room::new(alloc)
    }
}

impl<T: Drop> RowMemory for pair_list::Room<T> {
    fn taken(alloc: Global) -> Result<Self, AllocError> {
        pair_list::Room::new(alloc)
    }
}

/// Memory for rows that come. Contracts see for how many.
#[derive(Drop)]
pub struct Rooms<R> {
    rooms: Vec<R>,
}

impl<R> Model for Rooms<R> {
    ghost use Rattle.std.specs.Prelude.{ℕ, vec_len};

    ghost Value = { ℕ };

    ghost view = { λ r. vec_len r.rooms };
}

impl<R: RowMemory + Drop> Rooms<R> {
    /// Memory for none. It takes no memory.
    pub fn none(alloc: Global) -> Rooms<R>
        ensures { result ≡ 0 }
    {
        Rooms {
            rooms: Vec::new(alloc),
        }
    }

    /// Takes memory for so many rows more than a list has, which has so many. There is none past the greatest length of a list.
    pub fn reserve(&mut self, rows: usize, more: usize) -> Result<(), AllocError>
        ensures { OnOk result (more ≤ min self.new (usize.MAX - rows)) }
    {
        if usize::MAX - rows < more {
            return Err(AllocError);
        }
        let alloc = *self.rooms.allocator();
        let missing = more.saturating_sub(self.rooms.len());
        for _ in 0..missing {
            self.rooms.push(R::taken(alloc)?)?;
        }
        Ok(())
    }

    /// The memory of each row. It takes no memory.
    pub(crate) fn into_vec(self) -> Vec<R>
        ensures { vec_len result ≡ self }
    {
        self.rooms
    }
}
