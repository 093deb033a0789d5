//! Marks of sessions on the slots of messages, as values, and in `specs/` who holds a slot by them.
#![tactic(auto)]

mod mark;

pub use mark::{Group, Mark};
