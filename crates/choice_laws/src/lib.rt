//! Laws of choosing: why rows in the order of their places lead to the message that the definitions choose, and
//! what edits make of such rows.
//!
//! Each law is a function with an empty body, whose clause is the law; a caller that calls it has it.
#![tactic(auto)]

mod laws;

pub use laws::{
    available_stand_for, both_searches_are_short, chosen_in_rows, example_available,
    example_choice, example_rows, first_is_least, first_past_is_least, looks_are_few,
    looks_past_are_few, missing_row_is_free, moved_shows, new_row_is_free, others_are_shown_alike,
    rows_after_change, rows_after_drop, rows_after_push, rows_after_removal, rows_go_on, rows_lead,
    rows_rise, rows_stay, stamps_rise, stamps_stay_below, states_keep_recipient,
};
