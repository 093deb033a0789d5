//! What enqueues are answered.
#![tactic(auto)]

mod addition;
mod answer;
mod effect;
mod message;
mod relative;

pub use answer::enqueue;
