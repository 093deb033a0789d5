//! The bytes of commits, one spelling each.
#![tactic(auto)]

mod changes;
mod commit;
mod fault;
mod laws;
mod lists;
mod messages;
mod numbers;
mod parts;
mod rows;
mod spelled;

pub use commit::{decode, encode, encode_into};
pub use fault::DecodeFault;
pub use laws::{one_spelling, spelling_is_read, written_is_read};
