//! The state of a run: two databases, the sessions with their locks, and the history; and each step of it.
#![tactic(auto)]

mod beginning;
mod call_effect;
mod copies;
mod entering;
mod holdings;
mod reserved_list;
mod run_database;
mod state;
mod steps;
mod transit;

pub use call_effect::{CallEffect, Holdings};
pub use message_store::PreparedStore;
pub use propagation::Arriving;
pub use reserved_list::ReservedList;
pub use run_database::RunDatabase;
pub use state::RunState;
pub use transit::{Stage, Transit};
