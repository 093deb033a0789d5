//! What the whole project speaks of: rows, changes, statements, replies and histories, and in `specs/` what they mean.
//!
//! The definitions know plain lists alone. Each crate above cites them in its contracts.
#![tactic(auto)]

mod change;
mod history;
mod lanes;
mod lookup;
mod reply;
mod rows;
mod session;
mod slots;
mod statement;
mod tables;

pub use change::{Change, Commit};
pub use history::{Arrival, Cause, Entry, History, SessionScript, SlotRef, Step};
pub use lanes::lane_of;
pub use lookup::{MessageTables, find_queue, find_table};
pub use reply::{ConditionFault, GivenMessage, LimitName, Reply, ServedAgent, Shown};
pub use rows::{
    MsgRow, QueueKind, QueueRow, ScheduleRow, SeenRow, SlotRow, SlotState, SubKey, SubRow, TableRow,
};
pub use session::{Agent, Pending, Position};
pub use statement::{
    Admin, Dequeue, Enqueue, Listen, Listener, Mode, MsgId, Navigation, Recipient, Statement,
    Visibility,
};
pub use tables::Tables;
