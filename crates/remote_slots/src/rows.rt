// What a schedule sends, by the rows of its queue and destination.
ghost use Rattle.std.specs.Prelude.{◌≡◌, ◌<◌, All, option_copied};
ghost use Rattle.row_tree.specs.Found.{kept_by};
ghost use Rattle.queue_rows.specs.Propagating.{can_send_of};
ghost use Rattle.choice_laws.specs.Entries.{AreRising, message_at, messages_of};
ghost use Rattle.remote_slots.specs.Few.{HasFewSlots};
ghost use Rattle.remote_slots.specs.Remote.{IndexesRemote};
ghost use Rattle.remote_slots.specs.Searched.{first_from, sent_first};

use crate::sending::can_send_of;
use queue_rows::{MsgRow, ScheduleRow};
use ready_slots::StampedMessages;
use sort_index::{Ready, ReadyIndex, Steps};
use std::marker::Brand;
use std::sync::ledger::{Blank, Ledger};

// The message with that stamp, where the schedule can send a slot of it.
fn sent_at<'a, M: StampedMessages>(
    messages: &'a M,
    schedule: &ScheduleRow,
    moment: u64,
    stamp: u64,
) -> Option<&'a MsgRow>
    requires { All HasFewSlots (messages_of (M.entries messages.now)) }
    ensures { option_copied result
        ≡ kept_by (can_send_of schedule.now moment) (message_at (M.entries messages.now) stamp) }
{
    let message = messages.message_at(stamp)?;
    if can_send_of(schedule, moment, message) {
        Some(message)
    } else {
        None
    }
}

// The first message of which the schedule can send a slot, of the rows from this one on.
fn search_from<'a, M: StampedMessages, L: Ledger>(
    messages: &'a M,
    rows: &ReadyIndex,
    schedule: &ScheduleRow,
    moment: u64,
    first: Option<&Ready>,
    steps: &mut Steps<L>,
) -> Option<&'a MsgRow>
    requires rising { AreRising (M.entries messages.now) }
    requires indexed { IndexesRemote (M.entries messages.now) rows.now.groups }
    requires few { All HasFewSlots (messages_of (M.entries messages.now)) }
    ensures { let entries = M.entries messages.now in
        option_copied result ≡ first_from schedule.now moment entries (option_copied first.entry) }
{
    let mut next = first;
    while let Some(row) = next {
        if let Some(message) = sent_at(messages, schedule, moment, row.id) {
            return Some(message);
        }
        let after = Some((&row.place, row.id));
        next = rows.next_row(&schedule.queue, Some(&schedule.to), after, steps);
    }
    None
}

fn least_counted<'a, M: StampedMessages, L: Ledger>(
    messages: &'a M,
    rows: &ReadyIndex,
    schedule: &ScheduleRow,
    moment: u64,
    blank: Blank,
) -> Option<&'a MsgRow>
    requires name { blank.name ≡ L.name }
    requires parts { blank.parts ≡ L.parts }
    requires some { 0 < blank.parts }
    requires rising { AreRising (M.entries messages.now) }
    requires indexed { IndexesRemote (M.entries messages.now) rows.now.groups }
    requires few { All HasFewSlots (messages_of (M.entries messages.now)) }
    ensures { option_copied result ≡ sent_first schedule.now moment (messages_of (M.entries messages.now)) }
{
    let mut steps = Steps::<L>::new(blank);
    let first = rows.first_row_past(&schedule.queue, Some(&schedule.to), None, &mut steps);
    search_from(messages, rows, schedule, moment, first, &mut steps)
}

/// Of the messages of which the schedule can send a slot at that moment, the one with the least place, by the rows of its queue and
/// destination from the first one on, as far as the moments at which it sends pass messages over. It takes no memory.
pub fn least_by_rows<'a, M: StampedMessages>(
    messages: &'a M,
    rows: &ReadyIndex,
    schedule: &ScheduleRow,
    moment: u64,
) -> Option<&'a MsgRow>
    requires rising { AreRising (M.entries messages.now) }
    requires indexed { IndexesRemote (M.entries messages.now) rows.now.groups }
    requires few { All HasFewSlots (messages_of (M.entries messages.now)) }
    ensures { option_copied result ≡ sent_first schedule.now moment (messages_of (M.entries messages.now)) }
{
    least_counted::<M, Brand>(messages, rows, schedule, moment, Blank::new(1))
}
