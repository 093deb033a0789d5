//! The sessions of a run by their numbers: what each keeps, and the marks of all in the lock tables of both databases.
#![tactic(auto)]

mod locks;
mod new_positions;
mod positions;
mod registry;
mod session_states;

pub use new_positions::NewPositions;
pub use positions::moved;
pub use registry::SessionRegistry;
