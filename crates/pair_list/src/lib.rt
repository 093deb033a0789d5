//! A list whose items have pairs of numbers, in which the first item of a pair is found without a walk over all.
#![tactic(auto)]

mod list;
mod paired;
mod place;
mod room;

pub use list::PairList;
pub use paired::Paired;
pub use room::Room;
