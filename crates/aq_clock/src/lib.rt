//! Clocks: readings in seconds, where they come from, and which of them were given so far.
#![tactic(auto)]

mod list;
mod reading;
mod step;
mod system;

pub use list::ListClock;
pub use reading::Clock;
pub use step::{STEP_LIMIT, StepClock};
pub use system::SystemClock;
