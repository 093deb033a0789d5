//! The world of a run, and the turns of its actors.
#![tactic(auto)]

mod due_work;
mod mount;
mod own_turn;
mod sending;
mod turn_end;
mod turns;
mod world;

pub use durable_state::{Broken, CompactCause};
pub use mount::{MountCause, MountFault};
pub use turn_end::TurnEnd;
pub use world::{Compacted, Finished, Uncompacted, World};
