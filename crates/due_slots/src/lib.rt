//! The index of what is due, kept beside messages.
#![tactic(auto)]

mod laws;
mod rows;
mod slots;
mod spent;
mod tables;

pub use laws::{
    adding_indexes, joined_tells, removing_indexes, rows_are_few, rows_have_its_number,
    rows_name_due, without_tells,
};
pub use slots::DueSlots;
pub use spent::{is_handled, is_taken, last_taken};
pub use tables::DueTables;
