// What a schedule sends, by a walk over all messages.
ghost use Rattle.std.specs.Prelude.{◌≡◌, All, Some, option_copied};
ghost use Rattle.queue_rows.specs.Dequeueing.{nearer};
ghost use Rattle.remote_slots.specs.Few.{HasFewSlots};
ghost use Rattle.remote_slots.specs.Searched.{sent_first};

use crate::sending::can_send_of;
use place_keys::compare;
use queue_rows::{MsgRow, ScheduleRow};
use row_tree::Tree;

fn nearer<'a>(best: Option<&'a MsgRow>, message: &'a MsgRow) -> &'a MsgRow
    ensures { Some result.now ≡ nearer (option_copied best.entry) message.now }
{
    match best {
        Some(best) => {
            if compare(&message.place, &best.place).is_lt() {
                message
            } else {
                best
            }
        }
        None => message,
    }
}

/// Of the messages of which the schedule can send a slot at that moment, the one with the least place, by a walk over all of them. It
/// takes no memory.
pub fn least_by_walk<'a>(
    messages: &'a Tree<MsgRow>,
    schedule: &ScheduleRow,
    moment: u64,
) -> Option<&'a MsgRow>
    requires { All HasFewSlots messages.now }
    ensures { option_copied result ≡ sent_first schedule.now moment messages.now }
{
    let mut best: Option<&MsgRow> = None;
    for message in messages {
        if can_send_of(schedule, moment, message) {
            best = Some(nearer(best, message));
        }
    }
    best
}
