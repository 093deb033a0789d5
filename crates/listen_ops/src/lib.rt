//! What listens are answered.
#![tactic(auto)]

mod agents;
mod listening;
mod serving;

pub use listening::listen;
