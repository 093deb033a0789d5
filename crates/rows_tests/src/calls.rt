// The calls, asked of stores where what they require is so.
ghost use Rattle.std.specs.Prelude.{◌≡◌, ◌≤◌, All, IfSome, IsSome, IsTrue, option_copied, true};
ghost use Rattle.queue_rows.specs.Distinct.{are_distinct};
ghost use Rattle.queue_rows.specs.Propagating.{dispatch};
ghost use Rattle.queue_rows.specs.Valid.{is_same_message};
ghost use Rattle.remote_slots.specs.Few.{HasFewSlots};
ghost use Rattle.rows_tests.specs.Few.{CanNumberSlots, are_few, differ};

use aq_base::DbId;
use message_store::PreparedStore;
use payload_records::List;
use propagation::{Arriving, arrive, confirm, pick, schedule_of};
use queue_rows::{Change, MsgRow, SlotRef};
use row_locks::RowLocks;
use row_tree::Tree;
use std::test::Fail;
use time_manager::due;

fn has_few(message: &MsgRow) -> bool
    ensures slots { IsTrue result → CanNumberSlots message.now }
    ensures recipients { IsTrue result → HasFewSlots message.now }
{
    message.slots.len() < 100 && message.recipient_count() < 100
}

/// Whether the slots of each message can be numbered.
pub fn have_few(messages: &Tree<MsgRow>) -> bool
    ensures slots { IsTrue result → All CanNumberSlots messages.now }
    ensures recipients { IsTrue result → All HasFewSlots messages.now }
{
    messages.iter().all(|message| has_few(message))
}

// ---- what is sent

/// What is picked at that moment.
pub fn picked(store: &PreparedStore, moment: u64) -> Option<(u64, u32)> {
    if have_few(&store.tables().messages) {
        pick(store, moment)
    } else {
        None
    }
}

const AT: SlotRef = SlotRef {
    db: DbId::Home,
    id: 7,
    slot: 1,
};

fn is_sent(origin: &PreparedStore, at: &SlotRef) -> bool
    ensures sent { IsTrue result → IsSome (dispatch origin.now.tables at.now) }
    ensures failures { IsTrue result
        → IfSome (dispatch origin.now.tables at.now) (λ d. d.schedule.failures ≤ 15) }
{
    match schedule_of(origin, at) {
        Some(schedule) => schedule.failures <= 15,
        None => false,
    }
}

/// What the arrival of the first slot of the message 7 does, where its copy would get that id.
pub fn arrived(
    origin: &PreparedStore,
    there: &PreparedStore,
    next: u64,
    moment: u64,
) -> Result<Arriving, Fail> {
    let at = AT;
    if is_sent(origin, &at) && there.tables().transaction < 1000 && moment < 100_000 {
        Ok(arrive(origin, &at, there, next, moment)?)
    } else {
        Err(Fail::from("not sent"))
    }
}

/// What the confirmation of the first slot of the message 7 commits.
pub fn confirmed(origin: &PreparedStore, moment: u64) -> Result<List<Change>, Fail> {
    let at = AT;
    if is_sent(origin, &at) {
        Ok(confirm(origin, &at, moment)?)
    } else {
        Err(Fail::from("not sent"))
    }
}

// ---- what is due

fn differ(first: Option<&MsgRow>, second: Option<&MsgRow>) -> bool
    ensures { result ≡ differ (option_copied first.entry) (option_copied second.entry) }
{
    match (first, second) {
        (Some(first), Some(second)) => first.id != second.id,
        _ => true,
    }
}

fn are_few(messages: &Tree<MsgRow>) -> bool
    ensures { result ≡ are_few messages.now }
{
    messages.len() <= 2 && differ(messages.get(0), messages.get(1))
}

// Two messages at most, of different numbers.
fn are_apart(messages: &Tree<MsgRow>) -> bool
    ensures { IsTrue result → are_distinct is_same_message messages.now ≡ true }
{
    are_few(messages)
}

/// What is due at home at the moment 20.
pub fn due_at_twenty(
    store: &PreparedStore,
    locks: &RowLocks,
    sent: Option<&SlotRef>,
) -> Result<List<Change>, Fail> {
    let messages = &store.tables().messages;
    if have_few(messages) && are_apart(messages) {
        Ok(due(store, DbId::Home, locks, sent, 20)?)
    } else {
        Err(Fail::from("other messages"))
    }
}
