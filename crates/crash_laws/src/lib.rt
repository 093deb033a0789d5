//! Laws of crashes: what a crash at any moment leaves of a database, tied to the entries of its run.
#![tactic(auto)]

mod laws;

pub use laws::{calls_pass, entry_comes, flush_comes, flush_leaves, opening_survives};
