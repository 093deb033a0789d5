// Additions as their commit puts them in.
ghost use Rattle.std.specs.Prelude.{◌≡◌, ◌<◌, ◌≤◌, ◌^◌, ◌-◌, List as Sequence, map, All, IfOk, IfSome, OnOk, find, option_copied};
ghost use Rattle.queue_rows.specs.declared.rows.QueueRow.{QueueRow};
ghost use Rattle.std.specs.Str.{bytes_eq};
ghost use Rattle.queue_rows.specs.Commits.{slot_at_commit};
ghost use Rattle.queue_rows.specs.Rows.{changed_nth};
ghost use Rattle.sessions.specs.Numbers.{IsAbove, IsLowest, IsAddable, IsPendable};
ghost use Rattle.sessions.specs.Stamped.{completed_in_table, completed_for, completed_among, change_among};

use crate::places::place_at_commit;
use named_list::NamedList;
use payload_records::{Boxed, Copied, List, Name};
use queue_rows::{
    Change, MsgRow, Pending, QueueRow, SlotRow, SlotState, TableRow, Tables, find_table,
};
use std::alloc::{AllocError, Global};

/// The number of a commit's group, and its moment.
#[derive(Clone, Copy)]
pub struct Stamp {
    /// The group.
    pub group: u64,
    /// The moment.
    pub moment: u64,
}

fn complete_slot(slot: &mut SlotRow, moment: u64)
    ensures { slot.new ≡ slot_at_commit moment slot.old }
{
    if slot.at <= moment {
        slot.set_state(SlotState::Ready, moment);
    }
}

fn complete_slot_at(slots: &mut List<SlotRow>, index: usize, moment: u64)
    ensures { slots.new ≡ changed_nth (slot_at_commit moment) index slots.old }
{
    if let Some(slot) = slots.get_mut(index) {
        complete_slot(slot, moment);
    }
}

fn complete_slots(slots: &mut List<SlotRow>, moment: u64)
    ensures { slots.new ≡ map (slot_at_commit moment) slots.old }
{
    let mut at = slots.len();
    while at > 0 {
        at -= 1;
        complete_slot_at(slots, at, moment);
    }
}

fn complete_in_table(
    alloc: Global,
    table: &TableRow,
    queue: &QueueRow,
    stamp: Stamp,
    message: &mut MsgRow,
) -> Result<(), AllocError>
    requires group { stamp.group < 2 ^ 62 }
    requires moment { stamp.moment ≤ 2 ^ 62 }
    requires lowest { IsAbove (2 ^ 63 - 1) queue.now.lowest }
    requires numbers { IsAddable message.old }
    ensures { OnOk result (message.new ≡ completed_in_table table.now queue.now stamp message.old) }
{
    message.place = place_at_commit(alloc, table, queue, stamp.group, stamp.moment, message)?;
    message.group = stamp.group;
    complete_slots(&mut message.slots, stamp.moment);
    Ok(())
}

fn complete_by(
    alloc: Global,
    tables: &Tables,
    queue: Option<&QueueRow>,
    stamp: Stamp,
    message: &mut MsgRow,
) -> Result<(), AllocError>
    requires group { stamp.group < 2 ^ 62 }
    requires moment { stamp.moment ≤ 2 ^ 62 }
    requires lowest { IfSome (option_copied queue) (IsLowest (2 ^ 63 - 1)) }
    requires numbers { IsAddable message.old }
    ensures { OnOk result (message.new
        ≡ completed_for tables.now (option_copied queue.entry) stamp message.old) }
{
    let Some(queue) = queue else {
        return Ok(());
    };
    match find_table(tables, &queue.table) {
        Some(table) => complete_in_table(alloc, table, queue, stamp, message),
        None => Ok(()),
    }
}

/// Queues among which one is found by its name.
pub trait Queues {
    ghost rows: { Self → Sequence QueueRow };

    /// The queue of that name. It takes no memory.
    fn queue(&self, name: &Name) -> Option<&QueueRow>
        ensures { option_copied result ≡ find (λ r. bytes_eq r.name name.now) (rows self.now) };
}

impl Queues for NamedList<QueueRow> {
    ghost rows = { λ queues. queues };

    fn queue(&self, name: &Name) -> Option<&QueueRow> {
        self.find(name)
    }
}

impl Queues for List<QueueRow> {
    ghost rows = { λ queues. queues };

    fn queue(&self, name: &Name) -> Option<&QueueRow> {
        self.iter().find(|r| r.name == *name)
    }
}

/// Completes an addition where it stands, in the tables with these queues: nothing of it is copied but its place.
#[tactic(auto, using(crate::proofs::Each::found_each))]
pub fn complete<Q: Queues>(
    alloc: Global,
    tables: &Tables,
    queues: &Q,
    stamp: Stamp,
    message: &mut MsgRow,
) -> Result<(), AllocError>
    requires group { stamp.group < 2 ^ 62 }
    requires moment { stamp.moment ≤ 2 ^ 62 }
    requires lowest { All (IsLowest (2 ^ 63 - 1)) (Q.rows queues.now) }
    requires numbers { IsAddable message.old }
    ensures { OnOk result (message.new
        ≡ completed_among tables.now (Q.rows queues.now) stamp message.old) }
{
    let queue = queues.queue(&message.queue);
    complete_by(alloc, tables, queue, stamp, message)
}

/// What a pending addition or removal becomes in the tables with these queues.
pub fn change_of<Q: Queues>(
    alloc: Global,
    tables: &Tables,
    queues: &Q,
    stamp: Stamp,
    pending: &Pending,
) -> Result<Change, AllocError>
    requires group { stamp.group < 2 ^ 62 }
    requires moment { stamp.moment ≤ 2 ^ 62 }
    requires lowest { All (IsLowest (2 ^ 63 - 1)) (Q.rows queues.now) }
    requires numbers { IsPendable pending.now }
    ensures { IfOk result (λ change. change ≡ change_among tables.now (Q.rows queues.now) stamp pending.now) }
{
    match pending {
        Pending::Add(message) => {
            let mut row = message.get().copied()?;
            complete(alloc, tables, queues, stamp, &mut row)?;
            Ok(Change::Enqueued(Boxed::new(alloc, row)?))
        }
        Pending::Remove { id, slot } => Ok(Change::Done {
            id: *id,
            slot: u64::from(*slot),
            at: stamp.moment,
        }),
    }
}
