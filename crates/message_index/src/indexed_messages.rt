// Messages that are changed where they stand, with the indexes of them.
ghost use Rattle.std.specs.Prelude.{◌≡◌, ◌==◌, ◌-◌, ◌<◌, [], ◌∷◌, ◌++◌, IfSome, find, length, remove, slice_get};
ghost use Rattle.queue_rows.specs.Rows.{changed_first, removed_first, with_slot};
ghost use Rattle.queue_rows.specs.Tables.{in_state, retried};
ghost use Rattle.message_index.specs.Messages.{ids_of, IsOfSlot};
ghost use Rattle.message_index.specs.Caches.{AreIndexed, AreOf};
ghost use Rattle.message_index.specs.DueKept.{Gains, IfDue, Loses, keeps_in};
ghost use Rattle.message_index.specs.Stamped.{AreStamps, Forgets, Notes, Turns};
ghost use Rattle.remote_slots.specs.Indexed.{IndexesReady};
ghost use Rattle.remote_slots.specs.Remote.{IndexesRemote};
ghost use Rattle.row_tree.specs.Edits.{edit_at};

use crate::caches::Caches;
use crate::edits::{Retry, SetState};
use crate::message_index::MessageIndex;
use crate::ready_cache::ReadyCache;
use queue_rows::{MsgRow, SlotState};
use row_tree::{Edit, Spare, Tree};

// The rows of a message that stands under the stamp, and is the only one of its number or not, go from each cache but that of ready slots.
fn take_rest(caches: &mut Caches, stamp: u64, message: &MsgRow, alone: bool)
    ensures ready { caches.new.ready.slots ≡ caches.old.ready.slots }
    ensures remote { Forgets IndexesRemote stamp message.now caches.old.remote.slots caches.new.remote.slots }
    ensures keeps { caches.new.due.keeps ≡ caches.old.due.keeps }
    ensures due { Loses (keeps_in caches.old.due.keeps) alone message.now.id
        caches.old.due.slots caches.new.due.slots }
{
    caches.remote.remove(stamp, message);
    caches.due.remove(message, alone);
}

// The rows of a message that stands under the stamp come to each cache but that of ready slots.
fn put_rest(caches: &mut Caches, stamp: u64, message: &MsgRow)
    ensures ready { caches.new.ready.slots ≡ caches.old.ready.slots }
    ensures remote { Notes IndexesRemote stamp message.now caches.old.remote.slots caches.new.remote.slots }
    ensures keeps { caches.new.due.keeps ≡ caches.old.due.keeps }
    ensures due { Gains (keeps_in caches.old.due.keeps) message.now
        caches.old.due.slots caches.new.due.slots }
{
    caches.remote.put(stamp, message);
    caches.due.put(message);
}

// The rows of the message at an index, which stands under the stamp, go from each cache.
pub(crate) fn take_from(
    caches: &mut Caches,
    rows: &Tree<MsgRow>,
    index: &MessageIndex,
    at: usize,
    stamp: u64,
)
    requires { index.now.ids ≡ ids_of rows.now }
    ensures ready { IfSome (slice_get rows.now at)
        (λ m. Forgets IndexesReady stamp m caches.old.ready.slots caches.new.ready.slots) }
    ensures remote { IfSome (slice_get rows.now at)
        (λ m. Forgets IndexesRemote stamp m caches.old.remote.slots caches.new.remote.slots) }
    ensures keeps { caches.new.due.keeps ≡ caches.old.due.keeps }
    ensures due { let keeps = keeps_in caches.old.due.keeps in
        IfDue keeps rows.now caches.old.due.slots → IfDue keeps (remove rows.now at) caches.new.due.slots }
{
    if let Some(message) = rows.get(at) {
        caches.ready.remove(stamp, message);
        take_rest(caches, stamp, message, index.is_alone(message.id));
    }
}

// The rows of the message at an index, which stands under the stamp, come to each cache.
pub(crate) fn put_into(caches: &mut Caches, rows: &Tree<MsgRow>, at: usize, stamp: u64)
    ensures ready { IfSome (slice_get rows.now at)
        (λ m. Notes IndexesReady stamp m caches.old.ready.slots caches.new.ready.slots) }
    ensures remote { IfSome (slice_get rows.now at)
        (λ m. Notes IndexesRemote stamp m caches.old.remote.slots caches.new.remote.slots) }
    ensures keeps { caches.new.due.keeps ≡ caches.old.due.keeps }
    ensures due { let keeps = keeps_in caches.old.due.keeps in
        IfSome (slice_get rows.now at) (λ m. Gains keeps m caches.old.due.slots caches.new.due.slots) }
{
    if let Some(message) = rows.get(at) {
        caches.ready.put(stamp, message);
        put_rest(caches, stamp, message);
    }
}

// The rows of the message at an index, which stands under the stamp, go from each cache but that of ready slots.
fn take_beside(
    caches: &mut Caches,
    rows: &Tree<MsgRow>,
    index: &MessageIndex,
    at: usize,
    stamp: u64,
)
    requires { index.now.ids ≡ ids_of rows.now }
    ensures ready { caches.new.ready.slots ≡ caches.old.ready.slots }
    ensures remote { IfSome (slice_get rows.now at)
        (λ m. Forgets IndexesRemote stamp m caches.old.remote.slots caches.new.remote.slots) }
    ensures keeps { caches.new.due.keeps ≡ caches.old.due.keeps }
    ensures due { let keeps = keeps_in caches.old.due.keeps in
        IfDue keeps rows.now caches.old.due.slots → IfDue keeps (remove rows.now at) caches.new.due.slots }
{
    if let Some(message) = rows.get(at) {
        take_rest(caches, stamp, message, index.is_alone(message.id));
    }
}

// The rows of the message at an index, which stands under the stamp, come to each cache but that of ready slots.
fn put_beside(caches: &mut Caches, rows: &Tree<MsgRow>, at: usize, stamp: u64)
    ensures ready { caches.new.ready.slots ≡ caches.old.ready.slots }
    ensures remote { IfSome (slice_get rows.now at)
        (λ m. Notes IndexesRemote stamp m caches.old.remote.slots caches.new.remote.slots) }
    ensures keeps { caches.new.due.keeps ≡ caches.old.due.keeps }
    ensures due { let keeps = keeps_in caches.old.due.keeps in
        IfSome (slice_get rows.now at) (λ m. Gains keeps m caches.old.due.slots caches.new.due.slots) }
{
    if let Some(message) = rows.get(at) {
        put_rest(caches, stamp, message);
    }
}

// A slot of the message at an index, which stands under the stamp, was changed.
fn turn_slot(ready: &mut ReadyCache, rows: &Tree<MsgRow>, at: usize, stamp: u64, slot: u64)
    ensures { IfSome (slice_get rows.now at) (λ n. Turns stamp slot n ready.old.slots ready.new.slots) }
{
    if let Some(message) = rows.get(at) {
        ready.change_slot(stamp, message, slot);
    }
}

// The message at an index goes, and leaves its place.
fn take_out(rows: &mut Tree<MsgRow>, at: usize) -> Spare<MsgRow>
    requires { at < length rows.old }
    ensures { rows.new ≡ remove rows.old at }
{
    let (_message, place) = rows.remove(at);
    place
}

/// Puts a message last, for which the index has memory. It needs no memory: an index of slots or of what is due is let go where it finds none.
pub fn push_message(
    rows: &mut Tree<MsgRow>,
    index: &mut MessageIndex,
    caches: &mut Caches,
    row: MsgRow,
)
    requires room { 0 < index.old.room }
    requires indexed { AreIndexed rows.old index.old caches.old }
    ensures rows { rows.new ≡ rows.old ++ row ∷ [] }
    ensures room { index.new.room ≡ index.old.room - 1 }
    ensures indexed { AreIndexed rows.new index.new caches.new }
{
    let (spare, stamp) = index.push(row.id);
    caches.ready.put(stamp, &row);
    caches.remote.put(stamp, &row);
    caches.due.put(&row);
    rows.push(row, spare);
}

/// Takes the message at an index out. It takes no memory.
pub(crate) fn remove_at(
    rows: &mut Tree<MsgRow>,
    index: &mut MessageIndex,
    caches: &mut Caches,
    at: usize,
)
    requires within { at < length rows.old }
    requires indexed { AreIndexed rows.old index.old caches.old }
    ensures rows { rows.new ≡ remove rows.old at }
    ensures room { index.new.room ≡ index.old.room }
    ensures indexed { AreIndexed rows.new index.new caches.new }
{
    let stamp = index.stamp_at(at);
    take_from(caches, rows, index, at, stamp);
    index.remove(at);
    let place = take_out(rows, at);
    index.keep(place);
}

/// Takes the first message of that number out, if there is one. It takes no memory.
pub fn remove_message(
    rows: &mut Tree<MsgRow>,
    index: &mut MessageIndex,
    caches: &mut Caches,
    id: u64,
)
    requires { AreIndexed rows.old index.old caches.old }
    ensures rows { rows.new ≡ removed_first (λ m. m.id == id) rows.old }
    ensures room { index.new.room ≡ index.old.room }
    ensures indexed { AreIndexed rows.new index.new caches.new }
{
    if let Some(at) = index.position(id) {
        remove_at(rows, index, caches, at);
    }
}

fn edit_slot_at<E: Edit<MsgRow> + Drop>(
    rows: &mut Tree<MsgRow>,
    index: &MessageIndex,
    caches: &mut Caches,
    at: usize,
    slot: u64,
    edit: E,
)
    requires within { at < length rows.old }
    requires slot { IsOfSlot slot (E.edited edit) }
    requires indexed { AreIndexed rows.old index.now caches.old }
    ensures rows { rows.new ≡ edit_at rows.old at (E.edited edit) }
    ensures indexed { AreIndexed rows.new index.now caches.new }
{
    let stamp = index.stamp_at(at);
    take_beside(caches, rows, index, at, stamp);
    rows.edit(at, edit);
    put_beside(caches, rows, at, stamp);
    turn_slot(&mut caches.ready, rows, at, stamp, slot);
}

// A slot of the first message of that number is changed, and left to its recipient: of the ready slots only the rows of those for whom it
// counts are looked at.
fn edit_slot<E: Edit<MsgRow> + Drop>(
    rows: &mut Tree<MsgRow>,
    index: &MessageIndex,
    caches: &mut Caches,
    id: u64,
    slot: u64,
    edit: E,
)
    requires slot { IsOfSlot slot (E.edited edit) }
    requires indexed { AreIndexed rows.old index.now caches.old }
    ensures rows { rows.new ≡ changed_first (λ m. m.id == id) (E.edited edit) rows.old }
    ensures indexed { AreIndexed rows.new index.now caches.new }
{
    if let Some(at) = index.position(id) {
        edit_slot_at(rows, index, caches, at, slot, edit);
    }
}

/// The slot of the first message of that number is in that state from a moment on. It needs no memory.
pub fn set_state(
    rows: &mut Tree<MsgRow>,
    index: &MessageIndex,
    caches: &mut Caches,
    id: u64,
    slot: u64,
    state: SlotState,
    at: u64,
)
    requires { AreIndexed rows.old index.now caches.old }
    ensures rows { rows.new ≡ changed_first (λ m. m.id == id) (with_slot slot (in_state state at)) rows.old }
    ensures indexed { AreIndexed rows.new index.now caches.new }
{
    edit_slot(rows, index, caches, id, slot, SetState { slot, state, at });
}

/// The slot of the first message of that number was rolled back so often; it waits, or is ready at once. It
/// needs no memory.
pub fn set_retried(
    rows: &mut Tree<MsgRow>,
    index: &MessageIndex,
    caches: &mut Caches,
    id: u64,
    slot: u64,
    retries: u64,
    until: Option<u64>,
    at: u64,
)
    requires { AreIndexed rows.old index.now caches.old }
    ensures rows { rows.new
        ≡ changed_first (λ m. m.id == id) (with_slot slot (retried retries until at)) rows.old }
    ensures indexed { AreIndexed rows.new index.now caches.new }
{
    let edit = Retry {
        slot,
        retries,
        until,
        at,
    };
    edit_slot(rows, index, caches, id, slot, edit);
}
