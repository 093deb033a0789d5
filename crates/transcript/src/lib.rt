//! Prints a history: a line for each call, for each thing that the timer and the propagator did,
//! and for each end of a session. Prints the tables of a database: a line for each row.
#![tactic(auto)]

mod dump;
mod history;
mod line;
mod messages;
mod record;
mod reply;
mod rows;
mod text;
mod told;
mod word;
mod writing;

pub use dump::print_tables;
pub use history::print;
pub use writing::{PrintFault, print_to};
