//! Two nodes that exchange parcels and receipts over a link that loses, repeats and reorders them: what nodes send,
//! what each step of a node does, and the law that this is safe.
//!
//! The law is a function with an empty body, whose clause it is; a caller that calls it has it.
#![tactic(auto)]

mod laws;
mod packet;

pub use laws::link_is_safe;
pub use packet::{Event, Handled, NodeEvent, Packet, Parcel};
