//! Laws of runs: each world of a legal history is valid, with each mark in the group of its slot.
//!
//! Each law is a function with an empty body, whose clause is the law; a caller that calls it has it.
#![tactic(auto)]

mod laws;

pub use laws::{
    grouped_are_in_groups, legal_is_grouped, legal_is_valid, opens_grouped, opens_valid,
    reading_keeps_groups, reading_keeps_valid, step_keeps_groups, step_keeps_valid,
};
