// The memory of one more item.
use crate::place::PairPlace;
use row_tree::Spare;
use std::alloc::{AllocError, Global};

/// The memory of one more item.
#[derive(Drop)]
pub struct Room<T> {
    /// Of the item.
    pub(crate) item: Spare<T>,
    /// Of where it stands, for an item that is the first of its pair.
    pub(crate) place: Spare<PairPlace>,
}

impl<T: Drop> Room<T> {
    /// Memory for one more item.
    pub fn new(alloc: Global) -> Result<Room<T>, AllocError> {
        Ok(Room {
            item: Spare::new(alloc)?,
            place: Spare::new(alloc)?,
        })
    }
}
