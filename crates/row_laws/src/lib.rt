//! Laws of rows: what changes make of the messages of a database.
//!
//! Each law is a function with an empty body, whose clause is the law; a caller that calls it has it.
#![tactic(auto)]

mod laws;

pub use laws::{finds_after_all, stays_distinct};
