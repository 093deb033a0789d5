//! What dequeues are answered.
#![tactic(auto)]

mod answered;
mod by_request;
mod dequeuing;
mod given;
mod reply;
mod request;

pub use dequeuing::dequeue;
