//! Laws of histories: what may begin one, what becomes of each slot of each message, and what its commits make of a database.
//!
//! Each law is a function with an empty body, whose clause is the law; a caller that calls it has it.
#![tactic(auto)]

mod beginning;
mod fates;
mod histories;

pub use beginning::example_begins;
pub use fates::{
    administration_is_proper, arrival_is_proper, commit_is_proper, confirmation_is_proper,
    due_is_proper, proper_grows, proper_has_fates, rollback_is_proper,
    subscriber_removal_is_proper,
};
pub use histories::{
    arriving_copies, commit_keeps_made, copy_may_be_taken_in, dequeue_marks_local,
    fitting_has_arrivals, fitting_sees_once, local_stays, seen_stays,
    sent_confirmation_keeps_standing, sent_is_remote,
};
