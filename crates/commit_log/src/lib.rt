//! The journal of a database's commits: what a crash leaves of it is recovered to a first part of them.
#![tactic(auto)]

mod anew;
mod compacting;
mod fault;
mod laws;
mod log;
mod mount;
mod read;

pub use checkpoint::CompactFault;
pub use fault::LogFault;
pub use laws::{log_keeps, log_recovers, loggable_so_far};
pub use log::CommitLog;
pub use read::read_log;
