//! Laws of valid tables: which changes keep them valid, which commits fit, and that nothing is due after
//! due work.
//!
//! Each law is a function with an empty body, whose clause is the law; a caller that calls it has it.
#![tactic(auto)]

mod laws;

pub use laws::{
    arrival_fits, change_keeps_valid, commit_fits, confirmation_fits, due_fits, example_commits,
    example_drops, example_is_valid, example_rolls_back, giving_up_keeps_valid, judged_fits,
    later_is_valid, new_table_fits, nothing_due_at, one_change_fits, pending_fits, removal_fits,
    rollback_fits, settled_fits, slot_keeps_valid, subscriber_removal_fits,
};
