// What a listen is answered.
ghost use Rattle.std.specs.Prelude.{◌≡◌, [], true, IfOk};
ghost use Rattle.slot_marks.specs.Marks.{marks_of};
ghost use Rattle.queue_rows.specs.Valid.{is_valid};
ghost use Rattle.queue_rows.specs.Within.{is_within};
ghost use Rattle.queue_rows.specs.declared.statement.Statement.TheVariants as statements;
ghost use Rattle.sessions.specs.Effects.{plain_effect};
ghost use Rattle.message_choice.specs.Sound.{AreInGroups};
ghost use Rattle.listen_ops.specs.Listened.{IsListen};

use crate::agents::agents_fault;
use crate::serving::served;
use message_choice::{ChoosesMessages, still_waits};
use payload_records::List;
use queue_rows::{Listen, Reply};
use row_locks::RowLocks;
use sessions::{Effect, SessionState, Verdict};
use std::alloc::{AllocError, Global};

/// What a listen of the session of that number does, where the locks keep the marks of the sessions of its database: it is told
/// why the first agent cannot be listened for that is faulty, or else the first one that has a message to take; or it waits, or is
/// told that there is none. Nothing is changed. Err is want of memory alone.
pub fn listen<T: ChoosesMessages>(
    alloc: Global,
    store: &T,
    locks: &RowLocks,
    actor: u32,
    session: &SessionState,
    ask: &Listen,
    moment: u64,
) -> Result<Effect, AllocError>
    requires tables { is_valid (T.tables store.now) ≡ true }
    requires within { is_within (statements.Listen ask.now) ≡ true }
    requires groups { AreInGroups (T.tables store.now) (marks_of locks.now actor) }
    ensures means { IfOk result (IsListen (T.tables store.now) locks.now actor session.now ask.now moment) }
    ensures plain { IfOk result (λ e. e ≡ plain_effect e.verdict []) }
{
    if let Some(reply) = agents_fault(store.tables(), &ask.agents) {
        return Ok(Effect::answered(alloc, reply));
    }
    if let Some(reply) = served(alloc, store, locks, actor, &ask.agents)? {
        return Ok(Effect::answered(alloc, reply));
    }
    if still_waits(session.parked, ask.wait, moment) {
        Ok(Effect::plain(Verdict::Park, List::new(alloc)))
    } else {
        Ok(Effect::answered(alloc, Reply::NoMessage))
    }
}
