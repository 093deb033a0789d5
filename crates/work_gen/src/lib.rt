//! Makes a script from a number: so many sessions, each with so many statements on one queue. The same number gives the same
//! script.
#![tactic(auto)]

mod draws;
mod script;
mod statements;

pub use script::sessions;
