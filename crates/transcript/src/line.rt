// The lines of what the timer and the propagator did.
ghost use Rattle.std.specs.Prelude.{◌≡◌, OnOk};
ghost use Rattle.transcript.specs.Line.{timer_line, timer_lines, offer_line, cause_word, arrival_text, arrive_line, confirm_line};
ghost use Rattle.transcript.specs.Text.{Writes};

use crate::text::{Id, Slot, other_of, word_of};
use aq_base::DbId;
use payload_records::{List, Name};
use queue_rows::{Arrival, Cause, Change, MsgId, SlotRef};
use std::alloc::AllocError;

fn put_timer_line(out: &mut String, db: DbId, change: &Change) -> Result<(), AllocError>
    ensures { OnOk result (Writes out.old out.new (timer_line db change.now)) }
{
    match change {
        Change::Ready { id, slot, .. } => {
            let slot = Slot {
                db,
                id: *id,
                number: *slot,
            };
            write!(out, "timer {slot} ready\n")
        }
        Change::Expired { id, slot, .. } => {
            let slot = Slot {
                db,
                id: *id,
                number: *slot,
            };
            write!(out, "timer {slot} expired\n")
        }
        Change::Moved { id, queue, .. } => {
            let id = Id(MsgId { db, number: *id });
            let queue = queue.as_str();
            write!(out, "timer {id} moved {queue}\n")
        }
        Change::Purged { id } => {
            let id = Id(MsgId { db, number: *id });
            write!(out, "timer {id} purged\n")
        }
        _ => Ok(()),
    }
}

/// Puts in a line for each change that due work made to a database.
pub(crate) fn put_timer_lines(
    out: &mut String,
    db: DbId,
    changes: &List<Change>,
) -> Result<(), AllocError>
    ensures { OnOk result (Writes out.old out.new (timer_lines db changes.now)) }
{
    for change in changes {
        put_timer_line(out, db, change)?;
    }
    Ok(())
}

/// Puts in the line of a slot that was taken up to be sent to a queue.
pub(crate) fn put_offer(out: &mut String, at: SlotRef, to: &Name) -> Result<(), AllocError>
    ensures { OnOk result (Writes out.old out.new (offer_line at to.now)) }
{
    let slot = Slot::from(at);
    let to = to.as_str();
    write!(out, "offer {slot} to {to}\n")
}

fn cause_word(cause: Cause) -> &'static str
    ensures { result.now ≡ cause_word cause }
{
    match cause {
        Cause::NoQueue => "no-queue",
        Cause::WrongKind => "wrong-kind",
        Cause::EnqueueOff => "enqueue-off",
        Cause::Payload => "payload",
        Cause::Limit => "limit",
    }
}

fn put_arrival(out: &mut String, from: DbId, outcome: Arrival) -> Result<(), AllocError>
    ensures { OnOk result (Writes out.old out.new (arrival_text from outcome)) }
{
    match outcome {
        Arrival::Copied(copy) => {
            let id = Id(MsgId {
                db: other_of(from),
                number: copy,
            });
            write!(out, "as {id}")
        }
        Arrival::Seen => out.push_str("seen"),
        Arrival::Failed { cause, disabled } => {
            let cause = cause_word(cause);
            let disabled = word_of(disabled, " disabled", "");
            write!(out, "failed {cause}{disabled}")
        }
    }
}

/// Puts in the line of a slot that came to its destination.
pub(crate) fn put_arrive(out: &mut String, at: SlotRef, outcome: Arrival) -> Result<(), AllocError>
    ensures { OnOk result (Writes out.old out.new (arrive_line at outcome)) }
{
    let slot = Slot::from(at);
    write!(out, "arrive {slot} ")?;
    put_arrival(out, at.db, outcome)?;
    out.push_str("\n")
}

/// Puts in the line of a slot that was sent and is done.
pub(crate) fn put_confirm(out: &mut String, at: SlotRef) -> Result<(), AllocError>
    ensures { OnOk result (Writes out.old out.new (confirm_line at)) }
{
    let slot = Slot::from(at);
    write!(out, "confirm {slot}\n")
}
