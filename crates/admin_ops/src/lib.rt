//! What administrative statements do: what they change, where no work on what they take away is outstanding.
#![tactic(auto)]

mod affected;
mod effect;
mod outstanding;

pub use effect::admin;
