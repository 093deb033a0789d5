// Tables in which what a schedule sends is found.
ghost use Rattle.std.specs.Prelude.{◌≡◌, All, option_copied};
ghost use Rattle.remote_slots.specs.Few.{HasFewSlots};
ghost use Rattle.remote_slots.specs.Searched.{sent_first};

use crate::walk::least_by_walk;
use queue_rows::{MessageTables, MsgRow, ScheduleRow, Tables};

/// Tables that find the message which a schedule sends.
pub trait SendsMessages: MessageTables {
    /// The message of which the schedule sends a slot at that moment, if it is open then: of those that stand in its queue and have a
    /// slot that it can send, the one with the least place. It takes no memory.
    fn least_to_send(&self, schedule: &ScheduleRow, moment: u64) -> Option<&MsgRow>
        requires { All HasFewSlots (Self.tables self.now).messages }
        ensures { option_copied result ≡ sent_first schedule.now moment (Self.tables self.now).messages };
}

/// The tables themselves, by a walk over all messages.
impl SendsMessages for Tables {
    fn least_to_send(&self, schedule: &ScheduleRow, moment: u64) -> Option<&MsgRow> {
        least_by_walk(&self.messages, schedule, moment)
    }
}
