//! Which message a dequeue chooses, found by the ordered rows of its queue and consumer.
#![tactic(auto)]

mod asking;
mod choosing;
mod claims;
mod consumers;
mod rows;
mod search;
mod tables;
mod test;
mod waiting;
mod walk;

pub use asking::{Choice, Claim, Pick};
pub use choosing::{choose, choose_by_walk};
pub use claims::claim;
pub use consumers::{has_needless_consumer, lacks_consumer};
pub use ready_slots::StampedMessages;
pub use tables::ChoosesMessages;
pub use waiting::still_waits;
