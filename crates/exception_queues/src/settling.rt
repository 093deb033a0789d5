// What becomes of the messages that changes name.
ghost use Rattle.std.specs.Prelude.{◌≡◌, ◌++◌, [], IfOk, OnOk, Some, None, is_some, option_copied};
ghost use Rattle.std.specs.List.{list_any};
ghost use Rattle.queue_rows.specs.Settling.{is_exception_of, named_or_default, exception_queue_of, retention_of, is_lost, is_handled, is_kept_by_none, settling_of, settled, named_by};
ghost use Rattle.exception_queues.specs.Outcomes.{outcome_of, settled_by, settling_by};
ghost use Rattle.exception_queues.specs.Sole.{purge_of};

use crate::alone::taken_whole;
use crate::names::named_by;
use crate::outcomes::{Outcome, Outcomes, outcomes_of};
use crate::slots::{all_gone, any_expired, any_open, any_processed, is_slot_processed};
use payload_records::{Copied, List, Name};
use queue_rows::{Change, MessageTables, MsgRow, QueueRow, Tables, find_queue};
use std::alloc::AllocError;

fn is_lost(message: &MsgRow) -> bool
    ensures { result ≡ is_lost message.now }
{
    !message.moved && !any_open(&message.slots) && any_expired(&message.slots)
}

fn is_handled(message: &MsgRow) -> bool
    ensures { result ≡ is_handled message.now }
{
    if message.moved {
        is_slot_processed(message, 0)
    } else {
        all_gone(&message.slots)
    }
}

fn retention_of(tables: &Tables, message: &MsgRow) -> u64
    ensures { result ≡ retention_of tables.now message.now }
{
    match find_queue(tables, &message.queue) {
        Some(queue) => queue.retention,
        None => 0,
    }
}

fn is_kept_by_none(tables: &Tables, message: &MsgRow) -> bool
    ensures { result ≡ is_kept_by_none tables.now message.now }
{
    retention_of(tables, message) == 0 || !any_processed(&message.slots)
}

fn is_exception_of(table: &Name, queue: Option<&QueueRow>) -> bool
    ensures { result ≡ is_exception_of table.now (option_copied queue.entry) }
{
    match queue {
        Some(queue) => queue.kind.is_exception() && queue.table == *table,
        None => false,
    }
}

fn named_or_default(tables: &Tables, table: &Name, named: &Option<Name>) -> Result<Name, AllocError>
    ensures { IfOk result (λ name. name ≡ named_or_default tables.now table.now named.now) }
{
    match named {
        Some(name) => {
            if is_exception_of(table, find_queue(tables, name)) {
                name.copied()
            } else {
                table.with_suffix("_e")
            }
        }
        None => table.with_suffix("_e"),
    }
}

/// The exception queue to which a message moves that nobody can take any more: the one that was named for it, where it
/// is one of the message's table, else the default one of the table.
pub fn exception_queue_of(tables: &Tables, message: &MsgRow) -> Result<Name, AllocError>
    ensures { IfOk result (λ name. name ≡ exception_queue_of tables.now message.now) }
{
    match find_queue(tables, &message.queue) {
        Some(queue) => named_or_default(tables, &queue.table, &message.exception),
        None => message.queue.copied(),
    }
}

fn settle_message(
    changes: &mut List<Change>,
    tables: &Tables,
    message: &MsgRow,
    moment: u64,
) -> Result<(), AllocError>
    ensures { OnOk result (changes.new ≡ changes.old ++ settling_of tables.now moment (Some message.now)) }
{
    if is_lost(message) {
        let queue = exception_queue_of(tables, message)?;
        return changes.push(Change::Moved {
            id: message.id,
            queue,
            at: moment,
        });
    }
    if is_handled(message) && is_kept_by_none(tables, message) {
        return changes.push(Change::Purged { id: message.id });
    }
    Ok(())
}

fn settle_outcome(
    changes: &mut List<Change>,
    tables: &Tables,
    outcome: &Outcome,
) -> Result<(), AllocError>
    ensures { OnOk result (changes.new ≡ changes.old ++ settling_by tables.now (Some outcome.now)) }
{
    match &outcome.message {
        Some(message) => settle_message(changes, tables, message, outcome.moment),
        None => Ok(()),
    }
}

fn settle_named(
    changes: &mut List<Change>,
    tables: &Tables,
    outcomes: &Outcomes,
    id: u64,
) -> Result<(), AllocError>
    ensures { OnOk result (changes.new ≡ changes.old ++ settling_by tables.now (outcome_of outcomes.now id)) }
{
    match outcomes.outcome(id) {
        Some(outcome) => settle_outcome(changes, tables, outcome),
        None => Ok(()),
    }
}

fn settle_all(
    mut changes: List<Change>,
    tables: &Tables,
    outcomes: &Outcomes,
) -> Result<List<Change>, AllocError>
    ensures { IfOk result (λ all. all ≡ changes ++ settled_by tables.now outcomes.now) }
{
    for id in outcomes.names() {
        settle_named(&mut changes, tables, outcomes, *id)?;
    }
    Ok(changes)
}

// The changes take the only slot of the message, and do nothing else: none has lost it, and its queue alone may keep it.
fn settle_taken(
    mut changes: List<Change>,
    tables: &Tables,
    message: &MsgRow,
) -> Result<List<Change>, AllocError>
    ensures { IfOk result (λ all. all ≡ changes ++ purge_of tables.now message.now) }
{
    if retention_of(tables, message) == 0 {
        changes.push(Change::Purged { id: message.id })?;
    }
    Ok(changes)
}

// Any changes: each message that they name is copied once, and followed.
fn settle_each<T: MessageTables>(
    tables: &T,
    changes: List<Change>,
) -> Result<List<Change>, AllocError>
    ensures { IfOk result (λ all. all ≡ settled (T.tables tables.now) changes) }
{
    let outcomes = outcomes_of(tables, &changes)?;
    settle_all(changes, tables.tables(), &outcomes)
}

fn names_any(changes: &List<Change>) -> bool
    ensures { result ≡ list_any (λ c. is_some (named_by c)) changes.now }
{
    changes.iter().any(|change| named_by(change).is_some())
}

// Where no change names a message there is nothing to settle.
#[tactic(auto, using(crate::proofs::Unnamed::settles_none))]
fn settle_others<T: MessageTables>(
    tables: &T,
    changes: List<Change>,
) -> Result<List<Change>, AllocError>
    ensures { IfOk result (λ all. all ≡ settled (T.tables tables.now) changes) }
{
    if names_any(&changes) {
        settle_each(tables, changes)
    } else {
        Ok(changes)
    }
}

/// What a list of changes is with what it settles: for each message that it names, that it moves to its exception queue
/// or goes. Where the changes take the only slot of one message, and do nothing else, it is not copied.
#[tactic(auto, using(crate::proofs::Sole::taken_settles))]
pub fn settle<T: MessageTables>(
    tables: &T,
    changes: List<Change>,
) -> Result<List<Change>, AllocError>
    ensures { IfOk result (λ all. all ≡ settled (T.tables tables.now) changes) }
{
    match taken_whole(tables, &changes) {
        Some(message) => settle_taken(changes, tables.tables(), message),
        None => settle_others(tables, changes),
    }
}
