// The memory of one more item.
use crate::entry::{Entry, Stamp};
use crate::group::Group;
use row_tree::Spare;
use std::alloc::{AllocError, Global};

/// The memory of one more name in an index.
#[derive(Drop)]
pub(crate) struct NameRoom {
    /// Of its entry.
    pub(crate) entry: Spare<Entry>,
    /// Of its stamp.
    pub(crate) stamp: Spare<Stamp>,
    /// Of its group, where it needs one of its own.
    pub(crate) group: Spare<Group>,
}

/// The memory of one more item.
#[derive(Drop)]
pub struct Room<T> {
    /// Of the item.
    pub(crate) item: Spare<T>,
    /// Of its name.
    pub(crate) name: NameRoom,
}

impl<T: Drop> Room<T> {
    /// Memory for one more item.
    pub fn new(alloc: Global) -> Result<Room<T>, AllocError> {
        Ok(Room {
            item: Spare::new(alloc)?,
            name: NameRoom {
                entry: Spare::new(alloc)?,
                stamp: Spare::new(alloc)?,
                group: Spare::new(alloc)?,
            },
        })
    }
}
