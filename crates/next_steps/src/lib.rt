//! Which step comes next in a run, found by looking at it alone: what a session's statement does, what is due, and what is sent.
#![tactic(auto)]

mod calling;
mod due;
mod respond;
mod sending;

pub use calling::next_doing;
pub use due::{DueWork, due_work};
pub use respond::Doing;
pub use sending::{Sending, may_follow, next_sending};
