//! Marks of sessions on the slots of messages.
#![tactic(auto)]

mod classes;
mod entries;
mod groups;
mod hashing;
mod holds;
mod locks;
mod marks;
mod session_table;
mod slots;
mod tables;

pub use locks::{LockFault, RowLocks};
pub use marks::Marks;
pub use slot_marks::{Group, Mark};
