//! The slots that go to the other database: what a schedule sends of messages, and the index by which it is found.
#![tactic(auto)]

mod laws;
mod rows;
mod sending;
mod slots;
mod tables;
mod walk;

pub use laws::{changed_by_both, last_put, nothing_indexed};
pub use ready_slots::ReadySlots;
pub use rows::least_by_rows;
pub use sending::{first_to_send, goes_to};
pub use slots::RemoteSlots;
pub use tables::SendsMessages;
pub use walk::least_by_walk;
