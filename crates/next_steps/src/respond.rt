// What a session's statement does, by the kinds of statements.
ghost use Rattle.std.specs.Prelude.{◌≡◌, ℕ, List as Sequence, Option as Optional, [], None, Some, IfOk, IfSome, option_copied};
ghost use Rattle.queue_rows.specs.declared.statement.Statement.TheVariants as statements;
ghost use Rattle.sessions.specs.States.{IsStateOf};
ghost use Rattle.queue_rows.specs.Meaning.{first_look};
ghost use Rattle.sessions.specs.declared.state.PositionMove.TheVariants.{Keep};
ghost use Rattle.queue_rows.specs.Session.{Session};
ghost use Rattle.next_steps.specs.Calling.{Does, IsFreeDoing, MayCall, MeansAs, mark_in};

use admin_ops::admin;
use dequeue_ops::dequeue;
use enqueue_ops::enqueue;
use listen_ops::listen;
use payload_records::{List, Name};
use queue_rows::{Admin, Dequeue, Enqueue, Listen, Reply, SlotRef, Statement};
use row_locks::RowLocks;
use run_state::{CallEffect, Holdings, RunDatabase};
use session_registry::{NewPositions, moved};
use sessions::{Effect, SessionState, Verdict, commit_changes, rollback_changes};
use std::alloc::{AllocError, Global};

/// A session that calls, with what its statement may look at.
#[derive(Clone, Copy)]
pub struct Caller<'a> {
    /// Where memory comes from.
    pub alloc: Global,
    /// The session's number.
    pub actor: u32,
    /// The session.
    pub session: &'a SessionState,
    /// All sessions, by their numbers.
    pub sessions: &'a List<SessionState>,
    /// The session's database.
    pub database: &'a RunDatabase,
    /// The marks of the sessions of that database.
    pub locks: &'a RowLocks,
    /// The slot that is being sent, if one is.
    pub sent: Option<SlotRef>,
    /// The moment of the call.
    pub moment: u64,
}

/// What a statement does.
#[derive(Drop)]
pub enum Doing {
    /// It is answered.
    Call(CallEffect),
    /// It waits.
    Wait {
        /// The moment since which it does.
        since: u64,
    },
}

/// The moment since which the caller waits, where it does.
fn first_look(caller: Caller<'_>) -> u64
    ensures { (s : Session) → IsStateOf caller.entry.session.now s
        → result ≡ first_look s caller.entry.moment }
{
    match caller.session.parked {
        Some(since) => since,
        None => caller.moment,
    }
}

/// What an effect does that leaves its session's positions alone.
fn staying(effect: Effect, caller: Caller<'_>) -> Doing
    requires { effect.position ≡ Keep }
    ensures means { (queue : Sequence ℕ) (consumer : Optional (Sequence ℕ))
        → Does effect queue consumer caller.entry.moment caller.entry.session.now result }
    ensures mark { IfSome (mark_in result) (λ mark. effect.mark ≡ Some mark) }
{
    let Effect {
        verdict,
        commit,
        pend,
        mark,
        unmark,
        position: _,
    } = effect;
    match verdict {
        Verdict::Answer(reply) => Doing::Call(CallEffect {
            reply,
            commit,
            holdings: Holdings::Kept { pend, mark, unmark },
            positions: NewPositions::Same,
        }),
        Verdict::Park => Doing::Wait {
            since: first_look(caller),
        },
    }
}

/// What the effect of a statement does that asked for that queue and consumer.
fn moving(
    effect: Effect,
    caller: Caller<'_>,
    queue: &Name,
    consumer: Option<&Name>,
) -> Result<Doing, AllocError>
    ensures means { IfOk result
        (Does effect queue.now (option_copied consumer.entry) caller.entry.moment caller.entry.session.now) }
    ensures mark { IfOk result (λ doing. IfSome (mark_in doing) (λ mark. effect.mark ≡ Some mark)) }
{
    let Effect {
        verdict,
        commit,
        pend,
        mark,
        unmark,
        position,
    } = effect;
    match verdict {
        Verdict::Answer(reply) => {
            let positions = moved(&caller.session.positions, position, queue, consumer)?;
            Ok(Doing::Call(CallEffect {
                reply,
                commit,
                holdings: Holdings::Kept { pend, mark, unmark },
                positions,
            }))
        }
        Verdict::Park => Ok(Doing::Wait {
            since: first_look(caller),
        }),
    }
}

fn admin_call(caller: Caller<'_>, ask: &Admin) -> Result<Doing, AllocError>
    requires { MayCall caller (statements.Admin ask.now) }
    ensures means { IfOk result (MeansAs caller.entry (statements.Admin ask.now)) }
    ensures unmarked { IfOk result (λ doing. mark_in doing ≡ None) }
{
    let effect = admin(
        caller.alloc,
        caller.database.store(),
        caller.session.at,
        caller.locks,
        caller.sessions,
        caller.sent.as_ref(),
        ask,
        caller.moment,
    )?;
    Ok(staying(effect, caller))
}

fn enqueue_call(caller: Caller<'_>, ask: &Enqueue) -> Result<Doing, AllocError>
    requires { MayCall caller (statements.Enqueue ask.now) }
    ensures means { IfOk result (MeansAs caller.entry (statements.Enqueue ask.now)) }
    ensures unmarked { IfOk result (λ doing. mark_in doing ≡ None) }
{
    let effect = enqueue(
        caller.alloc,
        caller.database.store(),
        caller.session,
        caller.database.next(),
        ask,
        caller.moment,
    )?;
    moving(effect, caller, &ask.queue, None)
}

fn dequeue_call(caller: Caller<'_>, ask: &Dequeue) -> Result<Doing, AllocError>
    requires { MayCall caller (statements.Dequeue ask.now) }
    ensures means { IfOk result (MeansAs caller.entry (statements.Dequeue ask.now)) }
    ensures free { IfOk result (IsFreeDoing caller.entry) }
{
    let effect = dequeue(
        caller.alloc,
        caller.database.store(),
        caller.locks,
        caller.actor,
        caller.session,
        ask,
        caller.moment,
    )?;
    moving(effect, caller, &ask.queue, ask.consumer.as_ref())
}

fn listen_call(caller: Caller<'_>, ask: &Listen) -> Result<Doing, AllocError>
    requires { MayCall caller (statements.Listen ask.now) }
    ensures means { IfOk result (MeansAs caller.entry (statements.Listen ask.now)) }
    ensures unmarked { IfOk result (λ doing. mark_in doing ≡ None) }
{
    let effect = listen(
        caller.alloc,
        caller.database.store(),
        caller.locks,
        caller.actor,
        caller.session,
        ask,
        caller.moment,
    )?;
    Ok(staying(effect, caller))
}

fn commit_call(caller: Caller<'_>) -> Result<Doing, AllocError>
    requires { MayCall caller statements.Commit }
    ensures means { IfOk result (MeansAs caller.entry statements.Commit) }
    ensures unmarked { IfOk result (λ doing. mark_in doing ≡ None) }
{
    Ok(Doing::Call(CallEffect {
        reply: Reply::Ok,
        commit: commit_changes(caller.database.store(), caller.session, caller.moment)?,
        holdings: Holdings::Cleared,
        positions: NewPositions::Same,
    }))
}

fn rollback_call(caller: Caller<'_>) -> Result<Doing, AllocError>
    requires { MayCall caller statements.Rollback }
    ensures means { IfOk result (MeansAs caller.entry statements.Rollback) }
    ensures unmarked { IfOk result (λ doing. mark_in doing ≡ None) }
{
    Ok(Doing::Call(CallEffect {
        reply: Reply::Ok,
        commit: rollback_changes(caller.database.store(), caller.session, caller.moment)?,
        holdings: Holdings::Cleared,
        positions: NewPositions::Others(List::new(caller.alloc)),
    }))
}

/// What a statement of that session does, where the locks keep the marks of the sessions of its database.
pub fn respond(caller: Caller<'_>, statement: &Statement) -> Result<Doing, AllocError>
    requires { MayCall caller statement.now }
    ensures means { IfOk result (MeansAs caller.entry statement.now) }
    ensures free { IfOk result (IsFreeDoing caller.entry) }
{
    match statement {
        Statement::Admin(ask) => admin_call(caller, ask),
        Statement::Enqueue(ask) => enqueue_call(caller, ask),
        Statement::Dequeue(ask) => dequeue_call(caller, ask),
        Statement::Listen(ask) => listen_call(caller, ask),
        Statement::Commit => commit_call(caller),
        Statement::Rollback => rollback_call(caller),
    }
}
