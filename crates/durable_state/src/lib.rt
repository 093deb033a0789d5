//! The state of a run over its disks: each step of the run once more, with the logs of both databases.
#![tactic(auto)]

mod broken;
mod compacting;
mod counting;
mod disk_calls;
mod durable_state;
mod flushing;
mod log_steps;
mod run_logs;
mod steps;

pub use broken::{Broken, Halted};
pub use commit_log::{CommitLog, LogFault, read_log};
pub use compacting::{CompactCause, Compacted, Uncompacted};
pub use durable_state::{DurableState, Finished, Unmounted};
