// The lines of a message and of its slots.
ghost use Rattle.std.specs.Prelude.{◌≡◌, ◌<◌, OnOk, length, option_copied};
ghost use Rattle.queue_rows.specs.Rows.{table_of};
ghost use Rattle.transcript.specs.Messages.{state_word, slot_head, slot_tail, slot_line, number_at, slot_lines, numbers_text, place_part, order_part, origin_part, payload_part, message_line, message_lines};
ghost use Rattle.transcript.specs.Text.{Writes};

use crate::record::{put_cells, put_comma_if, put_props};
use crate::text::{
    Id, Slot, name_or_null, put_json_or_null, put_number_or_null, put_signed, word_of,
};
use aq_base::DbId;
use payload_records::Name;
use queue_rows::{MsgId, MsgRow, SlotRow, SlotState, TableRow, Tables, find_queue, find_table};
use rule_conditions::Facts;
use std::alloc::AllocError;

// ---- slots

fn state_word(state: SlotState) -> &'static str
    ensures { result.now ≡ state_word state }
{
    match state {
        SlotState::Ready => "ready",
        SlotState::Waiting => "waiting",
        SlotState::Processed => "processed",
        SlotState::Expired => "expired",
        SlotState::Dropped => "dropped",
    }
}

fn put_slot_head(out: &mut String, at: Slot, slot: &SlotRow) -> Result<(), AllocError>
    ensures { OnOk result (Writes out.old out.new (slot_head at.db at.id at.number slot.now)) }
{
    let name = name_or_null(&slot.name);
    let address = name_or_null(&slot.address);
    write!(out, "slot {at} name {name} address {address}")
}

fn put_slot_tail(out: &mut String, slot: &SlotRow) -> Result<(), AllocError>
    ensures { OnOk result (Writes out.old out.new (slot_tail slot.now)) }
{
    let state = state_word(slot.state);
    let (retries, at) = (slot.retries, slot.at);
    write!(out, " {state} retries {retries} at {at} expires ")?;
    put_number_or_null(out, slot.expires)?;
    out.push_str("\n")
}

fn put_slot(out: &mut String, at: Slot, slot: &SlotRow) -> Result<(), AllocError>
    ensures { OnOk result (Writes out.old out.new (slot_line at.db at.id at.number slot.now)) }
{
    put_slot_head(out, at, slot)?;
    put_slot_tail(out, slot)
}

// The number of the slot that stands at an index.
fn number_at(message: &MsgRow, index: usize) -> u64
    requires { index < length message.now.slots }
    ensures { result ≡ number_at message.now index }
{
    let count = message.slots.len();
    let number = index + 1;
    if message.moved && number == count {
        0
    } else {
        number as u64
    }
}

fn put_slots(out: &mut String, db: DbId, message: &MsgRow) -> Result<(), AllocError>
    ensures { OnOk result (Writes out.old out.new (slot_lines db message.now)) }
{
    let mut index = 0;
    for slot in &message.slots {
        let at = Slot {
            db,
            id: message.id,
            number: number_at(message, index),
        };
        put_slot(out, at, slot)?;
        index += 1;
    }
    Ok(())
}

// ---- messages

fn put_numbers(out: &mut String, numbers: &[i64]) -> Result<(), AllocError>
    ensures { OnOk result (Writes out.old out.new (numbers_text numbers.now)) }
{
    let mut later = false;
    for number in numbers {
        put_comma_if(out, later)?;
        put_signed(out, *number)?;
        later = true;
    }
    Ok(())
}

fn put_place(out: &mut String, db: DbId, message: &MsgRow) -> Result<(), AllocError>
    ensures { OnOk result (Writes out.old out.new (place_part db message.now)) }
{
    let id = Id(MsgId {
        db,
        number: message.id,
    });
    let queue = message.queue.as_str();
    write!(out, "message {id} queue {queue} place [")?;
    put_numbers(out, message.place.numbers())?;
    out.push_str("]")
}

fn put_order(out: &mut String, facts: &Facts) -> Result<(), AllocError>
    ensures { OnOk result (Writes out.old out.new (order_part facts.now)) }
{
    let priority = facts.priority;
    write!(out, " priority {priority} corr ")?;
    put_json_or_null(out, &facts.corr)
}

fn put_origin(out: &mut String, message: &MsgRow) -> Result<(), AllocError>
    ensures { OnOk result (Writes out.old out.new (origin_part message.now)) }
{
    let exception = name_or_null(&message.exception);
    let (enq, group) = (message.enq, message.group);
    let moved = word_of(message.moved, "true", "false");
    write!(
        out,
        " exception {exception} enq {enq} group {group} moved {moved} "
    )
}

fn table_of<'a>(tables: &'a Tables, queue: &Name) -> Option<&'a TableRow>
    ensures { option_copied result ≡ table_of tables.now queue.now }
{
    let queue = find_queue(tables, queue)?;
    find_table(tables, &queue.table)
}

fn put_payload(out: &mut String, tables: &Tables, message: &MsgRow) -> Result<(), AllocError>
    ensures { OnOk result (Writes out.old out.new (payload_part tables.now message.now)) }
{
    match table_of(tables, &message.queue) {
        Some(table) => put_cells(out, &table.fields, &message.facts.cells)?,
        None => out.push_str("{}")?,
    }
    put_props(out, &message.facts.props)?;
    out.push_str("\n")
}

fn put_message_line(
    out: &mut String,
    db: DbId,
    tables: &Tables,
    message: &MsgRow,
) -> Result<(), AllocError>
    ensures { OnOk result (Writes out.old out.new (message_line db tables.now message.now)) }
{
    put_place(out, db, message)?;
    put_order(out, &message.facts)?;
    put_origin(out, message)?;
    put_payload(out, tables, message)
}

/// Puts in the line of a message of these tables, and the lines of its slots behind it.
pub(crate) fn put_message(
    out: &mut String,
    db: DbId,
    tables: &Tables,
    message: &MsgRow,
) -> Result<(), AllocError>
    ensures { OnOk result (Writes out.old out.new (message_lines db tables.now message.now)) }
{
    put_message_line(out, db, tables, message)?;
    put_slots(out, db, message)
}
