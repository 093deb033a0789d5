//! The slots that are ready, of each queue and consumer in the order of their places, so that the least place past a place is at
//! hand.
#![tactic(auto)]

mod bounds;
mod changes;
mod group;
mod index;
mod rows_past;
mod steps;

pub use group::{Group, Ready};
pub use index::ReadyIndex;
pub use rows_past::RowsPast;
pub use steps::Steps;
