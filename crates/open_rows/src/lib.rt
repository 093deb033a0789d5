//! Rows of a kind, opened for a commit: with the memory for those that come.
#![tactic(auto)]

mod open_named;
mod open_pairs;
mod open_rows;
mod rooms;
mod row_room;
mod rows;
mod sums;

pub use open_named::OpenNamed;
pub use open_pairs::OpenPairs;
pub use open_rows::OpenRows;
pub use rooms::{Rooms, RowMemory};
pub use row_room::RowRoom;
pub use rows::{
    Keyed, has_queue, has_table, put, put_schedule, queue_place, remove_exception_queue,
    remove_of_queue, remove_queue, remove_schedule, remove_schedules_of, remove_sub, remove_table,
    table_row,
};
pub use sums::total;
