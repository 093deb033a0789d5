//! Reads scripts: the sessions that a text declares and the statements that it has them ask, or its first bad line.
#![tactic(auto)]

mod admin;
mod alike;
mod earlier;
mod fault;
mod form;
mod laws;
mod line;
mod listed;
mod member;
mod message;
mod parts;
mod plain_enqueue;
mod reading;
mod sessions;
mod statement;
mod times;

pub use fault::ScriptFault;
pub use laws::script_needs_only_the_front;
pub use reading::read;
