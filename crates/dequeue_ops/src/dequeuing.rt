// What a dequeue is answered, and what it does.
ghost use Rattle.std.specs.Prelude.{◌≡◌, ◌≤◌, ◌^◌, true, Some, IfOk, IfSome};
ghost use Rattle.slot_marks.specs.Marks.{IsFreeFor, marks_of};
ghost use Rattle.queue_rows.specs.Rows.{find_queue, find_table};
ghost use Rattle.queue_rows.specs.Valid.{is_valid};
ghost use Rattle.queue_rows.specs.Dequeueing.{is_by_transaction, is_wrong_mode};
ghost use Rattle.message_choice.specs.Sound.{AreInGroups};
ghost use Rattle.dequeue_ops.specs.Asked.{CanDequeue, Does, IsDequeue, as_asked, in_table, on_condition};

use crate::answered::refuse;
use crate::by_request::dequeue_by;
use crate::request::{Asked, Request};
use message_choice::{ChoosesMessages, has_needless_consumer, lacks_consumer};
use payload_records::Boxed;
use queue_rows::{Dequeue, Mode, Navigation, QueueRow, Reply, TableRow, find_queue, find_table};
use row_locks::RowLocks;
use rule_checks::{CheckFault, read_checked};
use sessions::{Effect, SessionState};
use std::alloc::{AllocError, Global};

// Of the exception queue of a table with many consumers messages are only removed.
fn is_wrong_mode(queue: &QueueRow, table: &TableRow, mode: Mode) -> bool
    ensures { result ≡ is_wrong_mode queue.now table.now mode }
{
    queue.kind.is_exception() && table.multi && mode != Mode::Remove
}

fn is_by_transaction(navigation: Navigation) -> bool
    ensures { result ≡ is_by_transaction navigation }
{
    match navigation {
        Navigation::NextTransaction => true,
        Navigation::Next | Navigation::First => false,
    }
}

// The condition is read, and checked against the table's record type.
fn dequeue_where<'a, T: ChoosesMessages>(
    store: &T,
    request: &'a Request<'a>,
    queue: &'a QueueRow,
    table: &'a TableRow,
) -> Result<Effect, AllocError>
    requires can { CanDequeue (T.tables store.now) request.now }
    requires queue { find_queue (T.tables store.now) request.now.ask.now.queue ≡ Some queue.now }
    requires table { find_table (T.tables store.now) queue.now.table ≡ Some table.now }
    ensures { IfOk result
        (Does request.now (on_condition (T.tables store.now) request.now queue.now table.now)) }
{
    match read_checked(request.alloc, request.ask.condition.as_ref(), &table.fields) {
        Ok(condition) => {
            let asked = Asked {
                request,
                queue,
                table,
                condition: condition.as_ref(),
            };
            dequeue_by(store, &asked)
        }
        Err(CheckFault::Refused(fault)) => {
            let fault = Boxed::new(request.alloc, fault)?;
            Ok(refuse(request, Reply::BadCondition(fault)))
        }
        Err(CheckFault::Memory) => Err(AllocError),
    }
}

// In valid tables the table of a queue is there.
fn dequeue_typed<T: ChoosesMessages>(
    store: &T,
    request: &Request<'_>,
    queue: &QueueRow,
) -> Result<Effect, AllocError>
    requires can { CanDequeue (T.tables store.now) request.now }
    requires queue { find_queue (T.tables store.now) request.now.ask.now.queue ≡ Some queue.now }
    ensures { IfOk result (Does request.now (in_table (T.tables store.now) request.now queue.now)) }
{
    let Some(table) = find_table(store.tables(), &queue.table) else {
        return Ok(refuse(request, Reply::NoQueue));
    };
    let ask = request.ask;
    if lacks_consumer(queue, table, ask.consumer.as_ref()) {
        return Ok(refuse(request, Reply::ConsumerNeeded));
    }
    if has_needless_consumer(queue, table, ask.consumer.as_ref()) {
        return Ok(refuse(request, Reply::ConsumerRefused));
    }
    if is_wrong_mode(queue, table, ask.mode) {
        return Ok(refuse(request, Reply::WrongKind));
    }
    if is_by_transaction(ask.navigation) && !table.grouped {
        return Ok(refuse(request, Reply::NotGrouped));
    }
    dequeue_where(store, request, queue, table)
}

fn dequeue_from<T: ChoosesMessages>(store: &T, request: &Request<'_>) -> Result<Effect, AllocError>
    requires { CanDequeue (T.tables store.now) request.now }
    ensures { IfOk result (Does request.now (as_asked (T.tables store.now) request.now)) }
{
    let Some(queue) = find_queue(store.tables(), &request.ask.queue) else {
        return Ok(refuse(request, Reply::NoQueue));
    };
    if !queue.dequeue {
        return Ok(refuse(request, Reply::DequeueOff));
    }
    dequeue_typed(store, request, queue)
}

/// What a dequeue of the session of that number does, where the locks keep the marks of the sessions of its database: it is
/// refused, or gives a message, or waits. Nothing is changed. Err is want of memory alone.
pub fn dequeue<T: ChoosesMessages>(
    alloc: Global,
    store: &T,
    locks: &RowLocks,
    actor: u32,
    session: &SessionState,
    ask: &Dequeue,
    moment: u64,
) -> Result<Effect, AllocError>
    requires tables { is_valid (T.tables store.now) ≡ true }
    requires moment { moment ≤ 2 ^ 62 }
    requires groups { AreInGroups (T.tables store.now) (marks_of locks.now actor) }
    ensures means { IfOk result (IsDequeue (T.tables store.now) locks.now actor session.now ask.now moment) }
    ensures free { IfOk result (λ e. IfSome e.mark (IsFreeFor locks.now actor)) }
{
    let request = Request {
        alloc,
        locks,
        actor,
        session,
        ask,
        moment,
    };
    dequeue_from(store, &request)
}
