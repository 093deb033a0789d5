//! The one commit that leads from empty tables to those of a database, and a journal that is compacted into it.
#![tactic(auto)]

mod commit;
mod compacting;
mod laws;
mod rows;

pub use commit::checkpoint_commit;
pub use compacting::compact_into;
pub use laws::{checkpoint_is_spelled, checkpoint_leads, checkpoint_restores, compaction_recovers};
