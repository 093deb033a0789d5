//! Whether the tables of a database are valid, and whether a change names what is there.
#![tactic(auto)]

mod catalog;
mod changes;
mod distinct;
mod messages;
mod named;
mod numbers;
mod queues;
mod slots;
mod subscribers;
mod tables;
mod valid;

pub use changes::{find_schedule, find_sub, names_what_is_there};
pub use messages::is_valid_message;
pub use named::NamedRows;
pub use numbers::has_right_numbers;
pub use queues::is_valid_queue;
pub use subscribers::{is_valid_schedule, is_valid_sub};
pub use tables::is_valid_table;
pub use valid::is_valid;
