//! Laws of commits that fit: where changes are local, what a commit names tells whether the tables after it are valid.
#![tactic(auto)]

mod laws;

pub use laws::fit_is_local;
