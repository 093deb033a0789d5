// Commits of messages, made where the tables stand.
ghost use Rattle.std.specs.Prelude.{◌≡◌, ◌-◌, ◌^◌, ◌<◌, ◌≤◌, All, IsTrue, true, drop, length};
ghost use Rattle.std.specs.List.{AllByRecursion};
ghost use Rattle.std.specs.Str.{bytes_eq};
ghost use Rattle.queue_rows.specs.Rows.{changed_first};
ghost use Rattle.queue_rows.specs.Tables.{after, after_all, after_change, changed_slot, in_state, lowered_to, with_message};
ghost use Rattle.message_index.specs.Caches.{AreIndexed};
ghost use Rattle.message_store.specs.Beside.{room_beside};
ghost use Rattle.message_store.specs.OfMessages.{is_of_message};
ghost use Rattle.message_store.specs.Prepared.{IsReady, AreReady};
ghost use Rattle.message_store.specs.Room.{room_after};

use crate::apply::count_taken;
use crate::beside::Beside;
use crate::enqueued::{Lower, is_low};
use message_index::{Caches, push_message, remove_message, set_retried, set_state};
use named_list::NamedList;
use open_rows::queue_place;
use payload_records::{Boxed, List, Name};
use place_keys::Place;
use queue_rows::{Change, Commit, MsgRow, QueueRow, SlotState, TableRow, Tables};

fn is_of_message(change: &Change) -> bool
    ensures { result ≡ is_of_message change.now }
{
    matches!(
        change,
        Change::Enqueued(_)
            | Change::Retried { .. }
            | Change::Ready { .. }
            | Change::Done { .. }
            | Change::Expired { .. }
            | Change::Dropped { .. }
            | Change::Purged { .. }
    )
}

/// Whether each change is of one message, which stays in its queue.
pub(crate) fn are_of_messages(changes: &List<Change>) -> bool
    ensures { IsTrue result → All (λ c. is_of_message c ≡ true) changes.now }
{
    changes.iter().all(|change| is_of_message(change))
}

// The lowest lane of the queue of that name follows a message.
fn lower(tables: &NamedList<TableRow>, queues: &mut NamedList<QueueRow>, name: &Name, place: &Place)
    ensures rows { queues.new
        ≡ changed_first (λ q. bytes_eq q.name name.now) (lowered_to tables.now place.now) queues.old }
    ensures count { length queues.new ≡ length queues.old }
{
    if is_low(queues, name, place) {
        return;
    }
    if let Some(at) = queue_place(queues, name) {
        queues.edit(at, Lower { tables, place });
    }
}

// The message is there, last of all.
fn enqueue(tables: &mut Tables, beside: &mut Beside, caches: &mut Caches, put: Boxed<MsgRow>)
    requires id { put.id < 2 ^ 63 }
    requires group { put.group < 2 ^ 63 }
    requires place { 0 < beside.old.index.room }
    requires indexed { AreIndexed tables.old.messages beside.old.index caches.old }
    ensures tables { tables.new ≡ with_message tables.old put }
    ensures room { let old = room_beside tables.old beside.old in
        room_beside tables.new beside.new ≡ record old { messages = old.messages - 1 } }
    ensures indexed { AreIndexed tables.new.messages beside.new.index caches.new }
{
    let row = put.get();
    lower(&tables.tables, &mut tables.queues, &row.queue, &row.place);
    tables.next = tables.next.max(row.id + 1);
    tables.transaction = tables.transaction.max(row.group + 1);
    push_message(
        &mut tables.messages,
        &mut beside.index,
        caches,
        put.into_inner(),
    );
}

// A slot of a message is in that state from a moment on.
fn set(
    tables: &mut Tables,
    beside: &Beside,
    caches: &mut Caches,
    id: u64,
    slot: u64,
    state: SlotState,
    at: u64,
)
    requires { AreIndexed tables.old.messages beside.now.index caches.old }
    ensures tables { tables.new ≡ changed_slot tables.old id slot (in_state state at) }
    ensures indexed { AreIndexed tables.new.messages beside.now.index caches.new }
{
    set_state(
        &mut tables.messages,
        &beside.index,
        caches,
        id,
        slot,
        state,
        at,
    );
}

fn change_message(tables: &mut Tables, beside: &mut Beside, caches: &mut Caches, change: Change)
    requires of { is_of_message change ≡ true }
    requires ready { IsReady tables.old (room_beside tables.old beside.old) change }
    requires indexed { AreIndexed tables.old.messages beside.old.index caches.old }
    ensures tables { tables.new ≡ after_change tables.old change }
    ensures room { room_beside tables.new beside.new
        ≡ room_after (room_beside tables.old beside.old) change }
    ensures indexed { AreIndexed tables.new.messages beside.new.index caches.new }
{
    match change {
        Change::Enqueued(row) => enqueue(tables, beside, caches, row),
        Change::Retried {
            id,
            slot,
            retries,
            until,
            at,
        } => {
            let rows = &mut tables.messages;
            set_retried(rows, &beside.index, caches, id, slot, retries, until, at);
        }
        Change::Ready { id, slot, at } => {
            set(tables, beside, caches, id, slot, SlotState::Ready, at)
        }
        Change::Done { id, slot, at } => {
            set(tables, beside, caches, id, slot, SlotState::Processed, at)
        }
        Change::Expired { id, slot, at } => {
            set(tables, beside, caches, id, slot, SlotState::Expired, at)
        }
        Change::Dropped { id, slot, at } => {
            set(tables, beside, caches, id, slot, SlotState::Dropped, at)
        }
        Change::Purged { id } => {
            remove_message(&mut tables.messages, &mut beside.index, caches, id)
        }
        _ => unreachable!(),
    }
}

// Makes the changes behind the first so many, in order.
fn apply_behind(
    tables: &mut Tables,
    beside: &mut Beside,
    caches: &mut Caches,
    changes: Vec<Change>,
    first: usize,
)
    requires within { first ≤ length changes.items }
    requires of { AllByRecursion (λ c. is_of_message c ≡ true) (drop first changes.items) }
    requires ready { AreReady tables.old (room_beside tables.old beside.old) (drop first changes.items) }
    requires indexed { AreIndexed tables.old.messages beside.old.index caches.old }
    ensures tables { tables.new ≡ after_all tables.old (drop first changes.items) }
    ensures indexed { AreIndexed tables.new.messages beside.new.index caches.new }
{
    let mut changes = changes;
    for change in changes.drain(first..) {
        change_message(tables, beside, caches, change);
    }
}

// Makes the changes, in order. Of messages that go nothing is changed before.
#[tactic(auto, using(crate::proofs::TakenLemmas::behind_is_all, crate::proofs::TakenLemmas::behind_is_ready))]
fn apply_in_order(
    tables: &mut Tables,
    beside: &mut Beside,
    caches: &mut Caches,
    changes: List<Change>,
)
    requires of { All (λ c. is_of_message c ≡ true) changes }
    requires ready { AreReady tables.old (room_beside tables.old beside.old) changes }
    requires indexed { AreIndexed tables.old.messages beside.old.index caches.old }
    ensures tables { tables.new ≡ after_all tables.old changes }
    ensures indexed { AreIndexed tables.new.messages beside.new.index caches.new }
{
    let changes = changes.into_vec();
    let taken = count_taken(&changes);
    apply_behind(tables, beside, caches, changes, taken);
}

/// Makes the changes of a commit, in order, each of one message that stays in its queue, at its moment. It needs no memory.
#[tactic(auto, unfolding(queue_rows::specs::Tables::after))]
pub(crate) fn apply_in_place(
    tables: &mut Tables,
    beside: &mut Beside,
    caches: &mut Caches,
    commit: Commit,
)
    requires of { All (λ c. is_of_message c ≡ true) commit.changes }
    requires ready { AreReady tables.old (room_beside tables.old beside.old) commit.changes }
    requires indexed { AreIndexed tables.old.messages beside.old.index caches.old }
    ensures tables { tables.new ≡ after tables.old commit }
    ensures indexed { AreIndexed tables.new.messages beside.new.index caches.new }
{
    let Commit { moment, changes } = commit;
    apply_in_order(tables, beside, caches, changes);
    tables.latest = tables.latest.max(moment);
}
