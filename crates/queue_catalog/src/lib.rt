//! Administrative statements by the tables alone: what each changes, or why it is refused.
#![tactic(auto)]

mod changes;
mod fault;
mod judging;
mod lookup;
mod queues;
mod removal;
mod schedules;
mod subscribers;
mod tables;

pub use fault::CatalogFault;
pub use judging::judge;
pub use lookup::{exception_name, find_sub};
pub use removal::is_slot_of;
