// Which slot is sent: the schedules in their order, and of each open one the message that the tables find.
ghost use Rattle.std.specs.Prelude.{◌≡◌, All};
ghost use Rattle.queue_rows.specs.Propagating.{pick_by, pick};
ghost use Rattle.remote_slots.specs.Few.{HasFewSlots};

use crate::schedules::is_open_at;
use queue_rows::ScheduleRow;
use remote_slots::{SendsMessages, first_to_send};

// What the schedule sends, if it is open.
fn pick_by<T: SendsMessages>(tables: &T, schedule: &ScheduleRow, moment: u64) -> Option<(u64, u32)>
    requires { All HasFewSlots (T.tables tables.now).messages }
    ensures { result ≡ pick_by (T.tables tables.now) moment schedule.now }
{
    if !is_open_at(schedule, moment) {
        return None;
    }
    let message = tables.least_to_send(schedule, moment)?;
    let slot = first_to_send(schedule, moment, message)?;
    Some((message.id, slot))
}

/// The message and the slot that the database sends at that moment, if it has one to send: by the first schedule that has
/// one, of the message with the least place the first slot. It takes no memory.
#[tactic(auto, unfolding(queue_rows::specs::Propagating::pick))]
pub fn pick<T: SendsMessages>(tables: &T, moment: u64) -> Option<(u64, u32)>
    requires { All HasFewSlots (T.tables tables.now).messages }
    ensures { result ≡ pick (T.tables tables.now) moment }
{
    for schedule in &tables.tables().schedules {
        if let Some(found) = pick_by(tables, schedule, moment) {
            return Some(found);
        }
    }
    None
}
