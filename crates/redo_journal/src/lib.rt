//! A journal on a disk: frames of commits, of which a crash leaves whole ones, and each that was
//! acknowledged.
#![tactic(auto)]

mod area;
mod begin;
mod compacted;
mod encode;
mod frame;
mod journal;
mod load;
mod mount;
mod put;
mod read;

pub use area::pointer_of;
pub use compacted::compacted_area;
pub use frame::{Active, Damage, FrameAt, Side};
pub use journal::{Journal, JournalFault};
pub use mount::MountFault;
