//! Laws of statements: what they leave with their session is right, and what they commit fits.
//!
//! Each law is a function with an empty body, whose clause is the law; a caller that calls it has it.
#![tactic(auto)]

mod laws;

pub use laws::{
    administration_keeps_standing, arrival_keeps_standing, commit_fits_for_sessions,
    commit_keeps_standing, confirmation_keeps_standing, dequeue_keeps_end, dequeue_keeps_standing,
    dequeue_removes_open, due_keeps_standing, empty_are_standing, empty_may_end,
    enqueue_adds_right, enqueue_keeps_end, enqueue_keeps_standing, example_stands,
    listen_keeps_standing, may_end_later, rollback_fits_for_sessions, rollback_keeps_standing,
    standing_later, standing_may_end, statements_keep_pending,
};
