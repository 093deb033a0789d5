//! For whom a message is: the recipients that an enqueue names, or the subscribers that want the message.
#![tactic(auto)]

mod agents;
mod choice;
mod fault;

pub use choice::chosen;
pub use fault::ChosenFault;
