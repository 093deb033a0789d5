//! The server: from words, bytes and two disks to bytes and a status.
#![tactic(auto)]

mod command;
mod compact;
mod dump;
mod outcome;
mod play;
mod rounds;
mod serial_run;
mod top;
mod unbegun;
mod writing;

pub use outcome::Outcome;
pub use top::{serve, serve_serial};
