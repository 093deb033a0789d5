//! Laws of legal histories: what they commit, and what becomes of messages.
//!
//! Each law is a function with an empty body, whose clause is the law; a caller that calls it has it.
#![tactic(auto)]

mod laws;

pub use laws::{
    legal_commits_fit, legal_confirms_seen, legal_copies_durable, legal_ends_in,
    legal_entries_are_own, legal_has_arrivals, legal_has_fates, legal_is_durable_as_told,
    legal_is_valid_throughout, legal_sees_once, serial_is_durable,
};
