//! What commits settle besides: which messages move to their exception queues, and which go.
#![tactic(auto)]

mod alone;
mod left;
mod names;
mod outcomes;
mod settling;
mod slots;

pub use settling::{exception_queue_of, settle};
pub use slots::slot_of;
