//! Due work: what becomes of slots and messages because a moment has come.
#![tactic(auto)]

mod found;
mod holding;
mod manager;
mod purges;
mod ranks;
mod slots;
mod watching;

pub use manager::due;
