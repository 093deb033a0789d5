//! Small histories of which the laws of runs say something, so that none of these laws is empty.
#![tactic(auto)]

mod examples;

pub use examples::{
    example_expires, example_is_given_up, example_is_put, example_is_sent, example_is_taken,
    example_waits,
};
