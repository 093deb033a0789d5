//! What sessions hold, and what their transactions become when they end.
#![tactic(auto)]

mod commit;
mod completed;
mod places;
mod rollback;
mod running;
mod state;

pub use commit::{addition_alone, changes_alone, changes_of, commit_changes};
pub use rollback::rollback_changes;
pub use state::{Effect, PositionMove, SessionState, Untold, Verdict};
