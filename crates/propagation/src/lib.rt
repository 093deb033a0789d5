//! Propagation: which slot is sent to the other database, and what its arrival and its confirmation commit.
#![tactic(auto)]

mod arrival;
mod confirmation;
mod copy;
mod destination;
mod parcel;
mod picking;
mod schedules;
mod sent;
mod taking;

pub use arrival::{Arriving, arrive};
pub use confirmation::confirm;
pub use parcel::ParcelRef;
pub use picking::pick;
pub use sent::{parcel_at, schedule_of};
pub use taking::{TakenIn, take_in};
