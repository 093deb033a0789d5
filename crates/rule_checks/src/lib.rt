//! Conditions as statements give them: read from texts, checked against a record type, and asked of a message.
#![tactic(auto)]

mod checking;
mod fault;
mod meeting;

pub use checking::read_checked;
pub use fault::CheckFault;
pub use meeting::is_met;
