//! A list whose items have names, in which they are found by these without a walk over all.
#![tactic(auto)]

mod entry;
mod group;
mod index;
mod list;
mod named;
mod of;
mod room;

pub use list::NamedList;
pub use named::{Named, Sought};
pub use of::Of;
pub use room::Room;
pub use row_tree::Tree;
