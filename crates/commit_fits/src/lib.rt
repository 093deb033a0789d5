//! Whether a commit fits the tables on which it is made, told by what it names.
#![tactic(auto)]

mod local;
mod named;
mod stays;

pub use local::is_local;
pub use stays::stays_valid;
