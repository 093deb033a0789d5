// The message that an enqueue adds, for each of its recipients, before another one or not.
ghost use Rattle.std.specs.Prelude.{◌≡◌, ◌<◌, ◌≤◌, ◌^◌, ◌+◌, pos, false, Some, None, IfOk, map, option_copied, option_map};
ghost use Rattle.place_keys.specs.Place.{put_before};
ghost use Rattle.queue_rows.specs.Enqueueing.{addition, is_too_deep, lane_until_commit, new_slot, place_until_commit};
ghost use Rattle.queue_rows.specs.Recipients.{facts_of};
ghost use Rattle.enqueue_ops.specs.Asked.{HasTimes};

use crate::addition::{Stamp, column_values};
use payload_records::{Copied, List, Record, SmallList};
use place_keys::{Place, before};
use queue_rows::{Agent, Enqueue, MsgRow, SlotRow, SlotState, TableRow};
use rule_conditions::Facts;
use std::alloc::{AllocError, Global};

// ---- slots

/// When the slots expire, where they do: the expiration counts from the end of the delay.
fn expiry(ask: &Enqueue, moment: u64) -> Option<u64>
    requires times { HasTimes ask.now }
    requires moment { moment ≤ 2 ^ 62 }
    ensures { result ≡ option_map (λ seconds. moment + ask.now.delay + seconds) ask.now.expiration }
{
    match ask.expiration {
        Some(seconds) => Some(moment + ask.delay + seconds),
        None => None,
    }
}

fn new_slot(ask: &Enqueue, moment: u64, agent: &Agent) -> Result<SlotRow, AllocError>
    requires times { HasTimes ask.now }
    requires moment { moment ≤ 2 ^ 62 }
    ensures { IfOk result (λ slot. slot ≡ new_slot ask.now moment agent.now) }
{
    Ok(SlotRow {
        name: Copied::copied(&agent.name)?,
        address: Copied::copied(&agent.address)?,
        state: SlotState::Waiting,
        retries: 0,
        at: moment + ask.delay,
        expires: expiry(ask, moment),
    })
}

fn new_slots(
    alloc: Global,
    ask: &Enqueue,
    moment: u64,
    agents: &SmallList<Agent>,
) -> Result<List<SlotRow>, AllocError>
    requires times { HasTimes ask.now }
    requires moment { moment ≤ 2 ^ 62 }
    ensures { IfOk result (λ slots. slots ≡ map (new_slot ask.now moment) agents.now) }
{
    let mut slots = List::from_vec(Vec::with_capacity(alloc, agents.len())?);
    for agent in agents {
        slots.push(new_slot(ask, moment, agent)?)?;
    }
    Ok(slots)
}

// ---- the place

fn lane_until_commit(ask: &Enqueue) -> i64
    ensures { result ≡ lane_until_commit ask.now }
{
    if ask.top { -1 } else { 0 }
}

fn own_place(
    alloc: Global,
    table: &TableRow,
    ask: &Enqueue,
    stamp: Stamp,
) -> Result<Place, AllocError>
    requires id { stamp.id < 2 ^ 61 }
    requires moment { stamp.moment ≤ 2 ^ 62 }
    ensures { IfOk result (λ place. place
        ≡ place_until_commit table.now ask.now None stamp.id stamp.moment) }
{
    let values = column_values(alloc, &table.columns, ask.priority, stamp.moment)?;
    Place::of(alloc, lane_until_commit(ask), values.as_slice(), stamp.id)
}

/// The place of the other message with the new one's id behind it.
fn place_before(
    alloc: Global,
    table: &TableRow,
    relative: &MsgRow,
    id: u64,
) -> Result<Place, AllocError>
    requires id { id < 2 ^ 61 }
    requires shallow { is_too_deep table.now (Some relative.now) ≡ false }
    ensures { IfOk result (λ place. place ≡ put_before relative.now.place (pos id)) }
{
    let columns = table.columns.columns().len() as u32;
    // That the place is too deep is refused before.
    before(alloc, &relative.place, columns, id).map_err(|_| AllocError)
}

fn place_until_commit(
    alloc: Global,
    table: &TableRow,
    ask: &Enqueue,
    relative: Option<&MsgRow>,
    stamp: Stamp,
) -> Result<Place, AllocError>
    requires id { stamp.id < 2 ^ 61 }
    requires moment { stamp.moment ≤ 2 ^ 62 }
    requires shallow { is_too_deep table.now (option_copied relative) ≡ false }
    ensures { IfOk result (λ place. place
        ≡ place_until_commit table.now ask.now (option_copied relative.entry) stamp.id stamp.moment) }
{
    match relative {
        Some(message) => place_before(alloc, table, message, stamp.id),
        None => own_place(alloc, table, ask, stamp),
    }
}

// ---- the message

fn facts_of(ask: &Enqueue, cells: &Record) -> Result<Facts, AllocError>
    ensures { IfOk result (λ facts. facts ≡ facts_of ask.now cells.now) }
{
    Ok(Facts {
        priority: ask.priority,
        corr: Copied::copied(&ask.corr)?,
        cells: cells.copied()?,
        props: ask.props.copied()?,
    })
}

/// The message that an enqueue adds, as it is until its commit.
pub(crate) fn new_message(
    alloc: Global,
    table: &TableRow,
    ask: &Enqueue,
    cells: &Record,
    agents: &SmallList<Agent>,
    relative: Option<&MsgRow>,
    stamp: Stamp,
) -> Result<MsgRow, AllocError>
    requires times { HasTimes ask.now }
    requires id { stamp.id < 2 ^ 61 }
    requires moment { stamp.moment ≤ 2 ^ 62 }
    requires shallow { is_too_deep table.now (option_copied relative) ≡ false }
    ensures { IfOk result (λ m. m ≡ addition table.now ask.now cells.now agents.now
        (option_copied relative.entry) stamp.id stamp.moment) }
{
    Ok(MsgRow {
        id: stamp.id,
        queue: ask.queue.copied()?,
        place: place_until_commit(alloc, table, ask, relative, stamp)?,
        facts: facts_of(ask, cells)?,
        exception: Copied::copied(&ask.exception_queue)?,
        enq: stamp.moment,
        group: 0,
        moved: false,
        slots: new_slots(alloc, ask, stamp.moment, agents)?,
    })
}
