//! The index of ready slots, kept beside messages that stand under stamps.
#![tactic(auto)]

mod laws;
mod showing;
mod slots;
mod stamped;

pub use laws::{changed_by_both, last_put, nothing_indexed};
pub use showing::shown;
pub use slots::ReadySlots;
pub use stamped::StampedMessages;
