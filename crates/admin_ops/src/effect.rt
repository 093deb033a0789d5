// What an administrative statement does.
ghost use Rattle.std.specs.Prelude.{◌≡◌, ◌<◌, ◌^◌, length, Ok, Err, IfOk, option_copied};
ghost use Rattle.queue_rows.specs.Administration.{administered};
ghost use Rattle.admin_ops.specs.Meaning.{HasMeaning, IsPlain, MeansToAdminister};

use crate::outstanding::{Work, is_hindered};
use aq_base::DbId;
use exception_queues::settle;
use payload_records::List;
use queue_catalog::{CatalogFault, judge};
use queue_rows::{Admin, Change, MessageTables, Reply, SlotRef};
use row_locks::RowLocks;
use sessions::{Effect, SessionState, Verdict};
use std::alloc::{AllocError, Global};

// What a statement does that changes so much, where work stands against it or not.
fn effect_of<T: MessageTables>(
    alloc: Global,
    store: &T,
    changes: List<Change>,
    hindered: bool,
) -> Result<Effect, AllocError>
    ensures means { IfOk result
        (HasMeaning (λ s. administered (T.tables store.now) s hindered (Ok changes))) }
    ensures plain { IfOk result IsPlain }
{
    if hindered {
        return Ok(Effect::answered(alloc, Reply::Outstanding));
    }
    let commit = settle(store, changes)?;
    Ok(Effect::plain(Verdict::Answer(Reply::Ok), commit))
}

/// What an administrative statement does: the first cause of `judge` to refuse it, else `outstanding` where work on what it
/// takes away is under way at the database, by any session or by what is being sent; else it commits its changes, with what
/// they settle. `db` is the database of the store and of the locks: sessions and a transit of the other one count for nothing.
/// It leaves its session's transaction alone.
pub fn admin<T: MessageTables>(
    alloc: Global,
    store: &T,
    db: DbId,
    locks: &RowLocks,
    sessions: &List<SessionState>,
    transit: Option<&SlotRef>,
    ask: &Admin,
    moment: u64,
) -> Result<Effect, AllocError>
    requires { length sessions.now < 2 ^ 32 }
    ensures means { IfOk result (MeansToAdminister
        (T.tables store.now) db locks.now sessions.now (option_copied transit.entry) ask.now moment) }
    ensures plain { IfOk result IsPlain }
{
    match judge(alloc, store.tables(), ask, moment) {
        Ok(changes) => {
            let work = Work {
                db,
                locks,
                sessions,
                transit,
            };
            effect_of(alloc, store, changes, is_hindered(store, work, ask))
        }
        Err(CatalogFault::Refused(reply)) => Ok(Effect::answered(alloc, reply)),
        Err(CatalogFault::Memory) => Err(AllocError),
    }
}
