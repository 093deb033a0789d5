//! Laws of the serial schedule of a run, and of the calls of every legal one.
//!
//! Each law is a function with an empty body, whose clause is the law; a caller that calls it has it.
#![tactic(auto)]

mod laws;

pub use laws::{
    ended_stays, legal_calls_in_order, serial_calls_all, serial_front_is_legal, serial_is_done,
    serial_is_legal, serial_is_one, still_stays,
};
