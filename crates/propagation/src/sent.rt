// What is sent of a slot.
ghost use Rattle.std.specs.Prelude.{◌≡◌, find, option_copied, option_map};
ghost use Rattle.queue_rows.specs.Rows.{table_of};
ghost use Rattle.queue_rows.specs.Propagating.{is_schedule_of, dispatch_of_slot, dispatch};
ghost use Rattle.propagation.specs.Sent.{parcel_meant, parcel_of, dispatch_by};

use crate::parcel::ParcelRef;
use payload_records::Name;
use queue_rows::{
    MessageTables, MsgRow, ScheduleRow, SlotRef, SlotRow, TableRow, Tables, find_queue, find_table,
};
use remote_slots::goes_to;

/// A slot that is sent, with its message, the message's table, and the schedule by which it goes.
#[derive(Clone, Copy)]
pub(crate) struct Sent<'a> {
    /// The message.
    pub(crate) message: &'a MsgRow,
    /// The slot.
    pub(crate) slot: &'a SlotRow,
    /// The table of the message's queue.
    pub(crate) table: &'a TableRow,
    /// The schedule.
    pub(crate) schedule: &'a ScheduleRow,
}

impl<'a> Sent<'a> {
    /// What its destination needs of it.
    pub(crate) fn parcel(self) -> ParcelRef<'a>
        ensures { parcel_meant result ≡ parcel_of self.entry }
    {
        let facts = &self.message.facts;
        ParcelRef {
            to: &self.schedule.to,
            name: self.slot.name.as_ref(),
            fields: &self.table.fields,
            payload: &facts.cells,
            priority: facts.priority,
            corr: facts.corr.as_ref(),
            props: &facts.props,
            expires: self.slot.expires,
        }
    }
}

fn is_schedule_of(queue: &Name, slot: &SlotRow, schedule: &ScheduleRow) -> bool
    ensures { result ≡ is_schedule_of queue.now slot.now schedule.now }
{
    schedule.queue == *queue && goes_to(&schedule.to, slot)
}

fn schedule_for<'a>(tables: &'a Tables, queue: &Name, slot: &SlotRow) -> Option<&'a ScheduleRow>
    ensures { option_copied result ≡ find (is_schedule_of queue.now slot.now) tables.now.schedules }
{
    tables
        .schedules
        .iter()
        .find(|schedule| is_schedule_of(queue, slot, *schedule))
}

fn table_of<'a>(tables: &'a Tables, queue: &Name) -> Option<&'a TableRow>
    ensures { option_copied result ≡ table_of tables.now queue.now }
{
    let queue = find_queue(tables, queue)?;
    find_table(tables, &queue.table)
}

fn sent_of<'a>(tables: &'a Tables, message: &'a MsgRow, slot: &'a SlotRow) -> Option<Sent<'a>>
    ensures { option_map dispatch_by result ≡ dispatch_of_slot tables.now message.now slot.now }
{
    let table = table_of(tables, &message.queue)?;
    let schedule = schedule_for(tables, &message.queue, slot)?;
    Some(Sent {
        message,
        slot,
        table,
        schedule,
    })
}

/// What is sent of that slot; none where something that it needs is not there.
pub(crate) fn sent_at<'a, T: MessageTables>(origin: &'a T, at: &SlotRef) -> Option<Sent<'a>>
    ensures { option_map dispatch_by result ≡ dispatch (T.tables origin.now) at.now }
{
    let message = origin.message(at.id)?;
    let slot = message.slot(u64::from(at.slot))?;
    sent_of(origin.tables(), message, slot)
}

/// The schedule by which the slot is sent; none where the slot, its message's table or a schedule for it is not there.
/// It takes no memory.
pub fn schedule_of<'a, T: MessageTables>(origin: &'a T, at: &SlotRef) -> Option<&'a ScheduleRow>
    ensures { option_copied result ≡ option_map (λ d. d.schedule) (dispatch (T.tables origin.now) at.now) }
{
    let sent = sent_at(origin, at)?;
    Some(sent.schedule)
}

/// What is sent of that slot; none where the slot, its message's table or a schedule for it is not there. It takes no memory.
pub fn parcel_at<'a, T: MessageTables>(origin: &'a T, at: &SlotRef) -> Option<ParcelRef<'a>>
    ensures { option_map parcel_meant result ≡ option_map (λ d. d.parcel) (dispatch (T.tables origin.now) at.now) }
{
    let sent = sent_at(origin, at)?;
    Some(sent.parcel())
}
