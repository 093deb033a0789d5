//! A journal is compacted: a new area with one frame is written beside the active one, and takes its place.
#![tactic(auto)]

mod compacting;
mod place;
mod put;

pub use compacting::{CompactFault, compact};
