// Changes of one message.
ghost use Rattle.std.specs.Prelude.{◌≡◌, ◌<◌, [], ◌∷◌, ◌++◌, length};
ghost use Rattle.queue_rows.specs.Rows.{with_slot};
ghost use Rattle.queue_rows.specs.Tables.{in_state, moved_to, retried};
ghost use Rattle.message_index.specs.Moves.{moved_within};

use open_rows::RowRoom;
use payload_records::{List, Name};
use queue_rows::{MsgRow, SlotRow, SlotState};
use row_tree::Edit;
use std::mem;

/// A slot is in that state from a moment on.
#[derive(Drop)]
pub(crate) struct SetState {
    /// The slot.
    pub(crate) slot: u64,
    /// Its state.
    pub(crate) state: SlotState,
    /// The moment.
    pub(crate) at: u64,
}

/// A removal of a slot was rolled back: it waits, or is ready at once.
#[derive(Drop)]
pub(crate) struct Retry {
    /// The slot.
    pub(crate) slot: u64,
    /// How many removals were rolled back by now.
    pub(crate) retries: u64,
    /// Until when it waits.
    pub(crate) until: Option<u64>,
    /// The moment of the rollback.
    pub(crate) at: u64,
}

/// The message stands in another queue, with slot 0 behind its slots, where the memory is enough for those.
pub(crate) struct MoveTo {
    /// The queue.
    pub(crate) queue: Name,
    /// The moment.
    pub(crate) at: u64,
    /// The memory.
    pub(crate) room: RowRoom<SlotRow>,
}

impl Drop for MoveTo {
    fn drop(self) {
        let Self {
            queue: _,
            at: _,
            room: _,
        } = self;
    }
}

impl Edit<MsgRow> for SetState {
    ghost edited = { λ e message. with_slot e.slot (in_state e.state e.at) message };

    fn edit(self, row: MsgRow) -> MsgRow {
        let mut row = row;
        row.set_slot_state(self.slot, self.state, self.at);
        row
    }
}

impl Edit<MsgRow> for Retry {
    ghost edited = { λ e message. with_slot e.slot (retried e.retries e.until e.at) message };

    fn edit(self, row: MsgRow) -> MsgRow {
        let mut row = row;
        row.retry_slot(self.slot, self.retries, self.until, self.at);
        row
    }
}

impl Edit<MsgRow> for MoveTo {
    ghost edited = { λ e message. moved_within e.room e.queue e.at message };

    fn edit(self, row: MsgRow) -> MsgRow {
        let mut row = row;
        let MoveTo { queue, at, room } = self;
        if row.slots.len() < room.len() {
            move_to(&mut row, queue, at, room);
        }
        row
    }
}

fn push_slot(slots: &mut List<SlotRow>, slot: SlotRow, room: RowRoom<SlotRow>)
    requires { length slots.old < room }
    ensures { slots.new ≡ slots.old ++ slot ∷ [] }
{
    let mut open = room.open(mem::replace(slots, List::new(slots.allocator())));
    open.push(slot);
    *slots = open.into_list();
}

fn move_to(message: &mut MsgRow, queue: Name, at: u64, room: RowRoom<SlotRow>)
    requires { length message.old.slots < room }
    ensures { message.new ≡ moved_to queue at message.old }
{
    let zero = message.slot_zero(at);
    message.queue = queue;
    message.moved = true;
    push_slot(&mut message.slots, zero, room);
}
