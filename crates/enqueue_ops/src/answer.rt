// What an enqueue is answered, of every member that it may have.
ghost use Rattle.std.specs.Prelude.{◌≡◌, ◌≤◌, ◌^◌, true, None, IfOk, option_copied};
ghost use Rattle.queue_rows.specs.Enqueueing.{names_bad_exception};
ghost use Rattle.queue_rows.specs.Recipients.{names_recipients};
ghost use Rattle.queue_rows.specs.Settling.{is_exception_of};
ghost use Rattle.queue_rows.specs.Valid.{is_valid};
ghost use Rattle.queue_rows.specs.Within.{is_within};
ghost use Rattle.queue_rows.specs.declared.statement.Statement.TheVariants as statements;
ghost use Rattle.sessions.specs.Numbers.{IsAddable};
ghost use Rattle.enqueue_ops.specs.Asked.{MayAsk, IsTaken, MeansToEnqueueCells};
ghost use Rattle.enqueue_ops.specs.Enqueued.{MeansToAdd, MeansToAddPayload, MeansToEnqueue};

use crate::addition::Stamp;
use crate::effect::refused;
use crate::message::new_message;
use crate::relative::{is_too_deep, relative_of};
use aq_base::{DbId, NEXT_LIMIT};
use payload_records::{Boxed, Name, PayloadFault, Record};
use queue_rows::{
    Enqueue, LimitName, MessageTables, MsgId, MsgRow, Pending, QueueRow, Reply, TableRow, Tables,
    Visibility, find_queue, find_table,
};
use recipients::{ChosenFault, chosen};
use sessions::{Effect, SessionState, Verdict, addition_alone};
use std::alloc::{AllocError, Global};

// ---- the tests that refuse it

fn names_recipients(ask: &Enqueue) -> bool
    ensures { result ≡ names_recipients ask.now }
{
    match &ask.recipients {
        Some(recipients) => !recipients.is_empty(),
        None => false,
    }
}

fn is_exception_of(table: &Name, queue: Option<&QueueRow>) -> bool
    ensures { result ≡ is_exception_of table.now (option_copied queue.entry) }
{
    match queue {
        Some(queue) => queue.kind.is_exception() && queue.table == *table,
        None => false,
    }
}

/// Whether it names an exception queue that is none of the table.
fn names_bad_exception(tables: &Tables, table: &TableRow, ask: &Enqueue) -> bool
    ensures { result ≡ names_bad_exception tables.now table.now ask.now }
{
    match &ask.exception_queue {
        Some(name) => !is_exception_of(&table.name, find_queue(tables, name)),
        None => false,
    }
}

// ---- a message is added

/// The message is added as a transaction of its own, or kept with the session until it commits.
fn add_message<T: MessageTables>(
    alloc: Global,
    store: &T,
    at: DbId,
    visibility: Visibility,
    message: MsgRow,
    moment: u64,
) -> Result<Effect, AllocError>
    requires valid { is_valid (T.tables store.now) ≡ true }
    requires addable { IsAddable message }
    requires moment { moment ≤ 2 ^ 62 }
    ensures means { IfOk result (MeansToAdd at visibility (T.tables store.now) message moment) }
    ensures unmarked { IfOk result (λ e. e.mark ≡ None) }
{
    let reply = Reply::Enqueued(MsgId {
        db: at,
        number: message.id,
    });
    match visibility {
        Visibility::OnCommit => {
            let mut effect = Effect::answered(alloc, reply);
            effect.pend = Some(Pending::Add(Boxed::new(alloc, message)?));
            Ok(effect)
        }
        Visibility::Immediate => {
            let commit = addition_alone(alloc, store, message, moment)?;
            Ok(Effect::plain(Verdict::Answer(reply), commit))
        }
    }
}

/// Where no test before refuses it: it is refused for its recipients or its id, or the message is added.
fn enqueue_taken<T: MessageTables>(
    alloc: Global,
    store: &T,
    at: DbId,
    table: &TableRow,
    ask: &Enqueue,
    cells: &Record,
    stamp: Stamp,
) -> Result<Effect, AllocError>
    requires may { MayAsk (T.tables store.now) table.now ask.now stamp }
    requires taken { IsTaken at (T.tables store.now) table.now ask.now }
    ensures means { IfOk result
        (MeansToEnqueueCells at (T.tables store.now) table.now ask.now cells.now stamp) }
    ensures unmarked { IfOk result (λ e. e.mark ≡ None) }
{
    let agents = match chosen(alloc, store.tables(), table, ask, cells) {
        Ok(agents) => agents,
        Err(ChosenFault::NoRecipients) => return Ok(refused(alloc, Reply::NoRecipients)),
        Err(ChosenFault::TooMany) => {
            return Ok(refused(alloc, Reply::Limit(LimitName::Recipients)));
        }
        Err(ChosenFault::Memory) => return Err(AllocError),
    };
    if stamp.id >= NEXT_LIMIT {
        return Ok(refused(alloc, Reply::Limit(LimitName::Ids)));
    }
    let relative = relative_of(store, at, ask);
    let message = new_message(alloc, table, ask, cells, &agents, relative, stamp)?;
    add_message(alloc, store, at, ask.visibility, message, stamp.moment)
}

/// With the record that its payload is.
fn enqueue_cells<T: MessageTables>(
    alloc: Global,
    store: &T,
    at: DbId,
    table: &TableRow,
    ask: &Enqueue,
    cells: &Record,
    stamp: Stamp,
) -> Result<Effect, AllocError>
    requires may { MayAsk (T.tables store.now) table.now ask.now stamp }
    ensures means { IfOk result
        (MeansToEnqueueCells at (T.tables store.now) table.now ask.now cells.now stamp) }
    ensures unmarked { IfOk result (λ e. e.mark ≡ None) }
{
    if names_recipients(ask) && !table.multi {
        return Ok(refused(alloc, Reply::ConsumerRefused));
    }
    if names_bad_exception(store.tables(), table, ask) {
        return Ok(refused(alloc, Reply::BadExceptionQueue));
    }
    if table.grouped && (ask.before.is_some() || ask.top) {
        return Ok(refused(alloc, Reply::Grouped));
    }
    let relative = relative_of(store, at, ask);
    if ask.before.is_some() && relative.is_none() {
        return Ok(refused(alloc, Reply::BadRelative));
    }
    if is_too_deep(table, relative) {
        return Ok(refused(alloc, Reply::TooDeep));
    }
    enqueue_taken(alloc, store, at, table, ask, cells, stamp)
}

/// Reads the payload as a record of the table.
fn enqueue_typed<T: MessageTables>(
    alloc: Global,
    store: &T,
    at: DbId,
    table: &TableRow,
    ask: &Enqueue,
    stamp: Stamp,
) -> Result<Effect, AllocError>
    requires may { MayAsk (T.tables store.now) table.now ask.now stamp }
    ensures means { IfOk result (MeansToAddPayload at (T.tables store.now) table.now ask.now stamp) }
    ensures unmarked { IfOk result (λ e. e.mark ≡ None) }
{
    match Record::from_json(alloc, &table.fields, &ask.payload) {
        Ok(cells) => enqueue_cells(alloc, store, at, table, ask, &cells, stamp),
        Err(PayloadFault::Memory) => Err(AllocError),
        Err(fault) => Ok(refused(alloc, Reply::Payload(Boxed::new(alloc, fault)?))),
    }
}

/// What an enqueue of a session does, where `next` is the id that its message would get: it is refused for the first
/// reason that applies, or the message is added, at once or when the session commits. `Err` is want of memory alone.
#[tactic(auto, unfolding(queue_rows::specs::Enqueueing::enqueue))]
pub fn enqueue<T: MessageTables>(
    alloc: Global,
    store: &T,
    session: &SessionState,
    next: u64,
    ask: &Enqueue,
    moment: u64,
) -> Result<Effect, AllocError>
    requires valid { is_valid (T.tables store.now) ≡ true }
    requires within { is_within (statements.Enqueue ask.now) ≡ true }
    requires next { next ≤ 2 ^ 61 }
    requires moment { moment ≤ 2 ^ 62 }
    ensures means { IfOk result (MeansToEnqueue session.now (T.tables store.now) ask.now next moment) }
    ensures unmarked { IfOk result (λ e. e.mark ≡ None) }
{
    let tables = store.tables();
    let Some(queue) = find_queue(tables, &ask.queue) else {
        return Ok(refused(alloc, Reply::NoQueue));
    };
    if queue.kind.is_exception() {
        return Ok(refused(alloc, Reply::WrongKind));
    }
    if !queue.enqueue {
        return Ok(refused(alloc, Reply::EnqueueOff));
    }
    let Some(table) = find_table(tables, &queue.table) else {
        return Ok(refused(alloc, Reply::NoQueue));
    };
    let stamp = Stamp { id: next, moment };
    enqueue_typed(alloc, store, session.at, table, ask, stamp)
}
