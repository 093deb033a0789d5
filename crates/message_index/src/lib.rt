//! Messages with the index of their numbers, and with the indexes of their slots and of what is due.
#![tactic(auto)]

mod added_slots;
mod caches;
mod due_cache;
mod edits;
mod entry;
mod found;
mod indexed_messages;
mod message_index;
mod moved_rooms;
mod open_messages;
mod ready_cache;
mod remote_cache;
mod row_places;

pub use caches::Caches;
pub use due_cache::{DueCache, KeepRow};
pub use found::find;
pub use indexed_messages::{push_message, remove_message, set_retried, set_state};
pub use message_index::MessageIndex;
pub use moved_rooms::slot_rooms;
pub use open_messages::OpenMessages;
pub use ready_cache::ReadyCache;
pub use remote_cache::RemoteCache;
pub use remote_slots::{SendsMessages, least_by_rows, least_by_walk};
