//! A lock around one value that keeps a history. Threads enter with passes, and each pass knows what it has seen and what it has added.
#![tactic(auto)]

mod grows;
mod lends;
mod lock;
pub mod number_log;
mod pass;
mod rule;
#[cfg(test)]
mod tests;
mod ticket_queue;
mod turn;

pub use grows::Grows;
pub use lock::Turnstile;
pub use pass::Pass;
pub use turn::Turn;
