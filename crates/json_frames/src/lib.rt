//! JSON texts that are the same but for one object that stands in them.
#![tactic(auto)]

mod frame;
mod mode;

pub use frame::Frame;
