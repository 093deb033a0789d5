//! The tables of a database as the commits of its journal leave them, each judged before it is made.
#![tactic(auto)]

mod fault;
mod frames;
mod judge;
mod laws;

pub use fault::RecoveryFault;
pub use frames::{damaged_at, recover};
pub use laws::{
    append_recovers, bodies_join, commit_leads_on, contents_recover, damage_recovers, frames_lead,
    journal_recovers, mount_recovers,
};
pub use message_store::PreparedStore;
