//! The rows of slots and messages that are due at a moment, in order, so that the least one is at hand.
#![tactic(auto)]

mod index;
mod row;

pub use index::DueIndex;
pub use row::DueRow;
