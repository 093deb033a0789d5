// Commits made in open tables.
ghost use Rattle.std.specs.Prelude.{◌≡◌, ◌≤◌, IsTrue, true, drop, length};
ghost use Rattle.queue_rows.specs.Rows.{find_message};
ghost use Rattle.queue_rows.specs.Tables.{without_queue, without_table, after_change, after_all, after, move_some};
ghost use Rattle.queue_rows.specs.declared.change.Change.TheVariants as changes;
ghost use Rattle.message_store.specs.Open.{held, room_of};
ghost use Rattle.message_index.specs.SlotRooms.{next_slots};
ghost use Rattle.message_store.specs.Room.{room_after};
ghost use Rattle.message_store.specs.Prepared.{HasFewerSlots, IsReady, AreReady};
ghost use Rattle.message_store.specs.Taken.{goes_with, are_taken, TakesWhole};

use crate::enqueued::{enqueue, move_message};
use crate::open::OpenTables;
use open_rows::{
    RowRoom, has_queue, has_table, put, put_schedule, remove_exception_queue, remove_of_queue,
    remove_queue, remove_schedule, remove_schedules_of, remove_sub, remove_table,
};
use payload_records::{List, Name};
use queue_rows::{Change, Commit, SlotRow, SlotState};
use std::alloc::Global;
use std::collections::VecDeque;

fn drop_queue(opened: &mut OpenTables, name: &Name)
    ensures held { held opened.new ≡ without_queue (held opened.old) name.now }
    ensures room { room_of opened.new ≡ room_of opened.old }
{
    if !has_queue(opened.queues.rows(), name) {
        return;
    }
    remove_queue(&mut opened.queues, name);
    remove_of_queue(&mut opened.subs, name);
    remove_schedules_of(&mut opened.schedules, name);
    opened.messages.remove_of_queue(name);
}

fn drop_table(opened: &mut OpenTables, name: &Name)
    ensures held { held opened.new ≡ without_table (held opened.old) name.now }
    ensures room { room_of opened.new ≡ room_of opened.old }
{
    if !has_table(opened.tables.rows(), name) {
        return;
    }
    remove_exception_queue(&mut opened.queues, name);
    remove_table(&mut opened.tables, name);
}

fn set_counters(opened: &mut OpenTables, next: u64, transaction: u64, latest: u64)
    ensures held { held opened.new
        ≡ after_change (held opened.old) (changes.Counters next transaction latest) }
    ensures room { room_of opened.new ≡ room_of opened.old }
{
    opened.next = next;
    opened.transaction = transaction;
    opened.latest = latest;
}

fn next_room(rooms: &mut VecDeque<RowRoom<SlotRow>>, alloc: Global) -> RowRoom<SlotRow>
    ensures room { result ≡ next_slots rooms.old.items }
    ensures rest { rooms.new.items ≡ drop 1 rooms.old.items }
{
    match rooms.pop_front() {
        Some(room) => room,
        None => RowRoom::none(alloc),
    }
}

fn move_next(opened: &mut OpenTables, id: u64, queue: Name, at: u64, alloc: Global)
    requires { HasFewerSlots (held opened.old) id (next_slots opened.old.slots.items) }
    ensures held { let old = held opened.old in
        held opened.new ≡ move_some old (find_message old id) queue at }
    ensures room { let old = room_of opened.old in
        room_of opened.new ≡ record old { slots = drop 1 old.slots } }
{
    let slots = next_room(&mut opened.slots, alloc);
    move_message(opened, id, queue, at, slots);
}

fn apply_change(opened: &mut OpenTables, change: Change, alloc: Global)
    requires { IsReady (held opened.old) (room_of opened.old) change }
    ensures held { held opened.new ≡ after_change (held opened.old) change }
    ensures room { room_of opened.new ≡ room_after (room_of opened.old) change }
{
    match change {
        Change::PutTable(row) => put(&mut opened.tables, row.into_inner()),
        Change::DropTable(name) => drop_table(opened, &name),
        Change::PutQueue(row) => put(&mut opened.queues, row.into_inner()),
        Change::DropQueue(name) => drop_queue(opened, &name),
        Change::PutSub(row) => put(&mut opened.subs, row.into_inner()),
        Change::DropSub { queue, name } => remove_sub(&mut opened.subs, &queue, &name),
        Change::PutSchedule(row) => put_schedule(&mut opened.schedules, row.into_inner()),
        Change::DropSchedule { queue, to } => remove_schedule(&mut opened.schedules, &queue, &to),
        Change::Enqueued(row) => enqueue(opened, row.into_inner()),
        Change::Retried {
            id,
            slot,
            retries,
            until,
            at,
        } => opened.messages.set_retried(id, slot, retries, until, at),
        Change::Ready { id, slot, at } => {
            opened.messages.set_state(id, slot, SlotState::Ready, at)
        }
        Change::Done { id, slot, at } => {
            opened
                .messages
                .set_state(id, slot, SlotState::Processed, at)
        }
        Change::Expired { id, slot, at } => {
            opened.messages.set_state(id, slot, SlotState::Expired, at)
        }
        Change::Dropped { id, slot, at } => {
            opened.messages.set_state(id, slot, SlotState::Dropped, at)
        }
        Change::Moved { id, queue, at } => move_next(opened, id, queue, at, alloc),
        Change::Purged { id } => opened.messages.remove_message(id),
        Change::Seen(row) => opened.seen.push(row),
        Change::Counters {
            next,
            transaction,
            latest,
        } => set_counters(opened, next, transaction, latest),
    }
}

// Makes the changes behind the first so many, in order.
fn apply_behind(opened: &mut OpenTables, changes: Vec<Change>, first: usize, alloc: Global)
    requires within { first ≤ length changes.items }
    requires ready { AreReady (held opened.old) (room_of opened.old) (drop first changes.items) }
    ensures { held opened.new ≡ after_all (held opened.old) (drop first changes.items) }
{
    let mut changes = changes;
    for change in changes.drain(first..) {
        apply_change(opened, change, alloc);
    }
}

// Whether a slot of a message is done, and then the message goes.
fn goes_with(done: &Change, gone: &Change) -> bool
    ensures { IsTrue result → goes_with done.now gone.now ≡ true }
{
    let Change::Done { id, .. } = done else {
        return false;
    };
    let Change::Purged { id: purged } = gone else {
        return false;
    };
    *id == *purged
}

fn are_taken(dones: &[Change], gone: &[Change]) -> bool
    requires { length dones.now ≡ length gone.now }
    ensures { IsTrue result → are_taken dones.now gone.now ≡ true }
{
    for at in 0..dones.len() {
        if !goes_with(&dones[at], &gone[at]) {
            return false;
        }
    }
    true
}

/// Of how many messages, from the first change on, a slot is done, where all of these messages then go in the same order and nothing
/// else is changed; none where it is not so.
pub(crate) fn count_taken(changes: &[Change]) -> usize
    ensures within { result ≤ length changes.now }
    ensures taken { TakesWhole result changes.now }
{
    let half = changes.len() / 2;
    let (dones, gone) = changes.split_at(half);
    if dones.len() == gone.len() && are_taken(dones, gone) {
        half
    } else {
        0
    }
}

// Makes the changes, in order. Of messages that go nothing is changed before.
#[tactic(auto, using(crate::proofs::TakenLemmas::behind_is_all, crate::proofs::TakenLemmas::behind_is_ready))]
fn apply_in_order(opened: &mut OpenTables, changes: List<Change>, alloc: Global)
    requires { AreReady (held opened.old) (room_of opened.old) changes }
    ensures { held opened.new ≡ after_all (held opened.old) changes }
{
    let changes = changes.into_vec();
    let taken = count_taken(&changes);
    apply_behind(opened, changes, taken, alloc);
}

/// Makes the changes of a commit, in order, at its moment. It needs no memory.
#[tactic(auto, unfolding(queue_rows::specs::Tables::after))]
pub(crate) fn apply(opened: &mut OpenTables, commit: Commit, alloc: Global)
    requires { AreReady (held opened.old) (room_of opened.old) commit.changes }
    ensures { held opened.new ≡ after (held opened.old) commit }
{
    let Commit { moment, changes } = commit;
    apply_in_order(opened, changes, alloc);
    opened.latest = opened.latest.max(moment);
}
