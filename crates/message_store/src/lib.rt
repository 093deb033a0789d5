//! The tables of a database, as its commits leave them.
#![tactic(auto)]

mod apply;
mod beside;
mod copies;
mod enqueued;
mod in_place;
mod kept_tables;
mod numbers;
mod open;
mod prepared_store;
mod room;
mod store;

pub use prepared_store::PreparedStore;
pub use store::Store;
