//! Sums a run up: how many calls there were, how many messages were put in, how many slots were done, and the digest of the
//! transcript.
#![tactic(auto)]

mod counts;
mod text;

pub use text::summary;
