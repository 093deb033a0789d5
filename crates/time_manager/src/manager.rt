// All that is due at a database.
ghost use Rattle.std.specs.Prelude.{◌≡◌, ◌<◌, ◌^◌, true, IfOk, All, option_copied};
ghost use Rattle.queue_rows.specs.Distinct.{are_distinct};
ghost use Rattle.queue_rows.specs.Due.{watched};
ghost use Rattle.queue_rows.specs.Valid.{is_same_message};
ghost use Rattle.due_slots.specs.Rows.{HasFewSlots};
ghost use Rattle.time_manager.specs.Watching.{IsCalmAfter, IsDue, watch_of};

use crate::found::changes_at;
use crate::ranks::named_ranks;
use crate::watching::Watching;
use aq_base::DbId;
use due_slots::DueTables;
use payload_records::List;
use queue_rows::{Change, SlotRef};
use row_locks::RowLocks;
use std::alloc::AllocError;
use valid_laws::nothing_due_at;

fn watched<T: DueTables>(store: &T, watching: &Watching<'_>) -> Result<List<Change>, AllocError>
    requires tables { watching.now.tables.now ≡ T.tables store.now }
    requires moment { watching.now.moment < 2 ^ 64 }
    requires distinct { are_distinct is_same_message (T.tables store.now).messages ≡ true }
    requires slots { All HasFewSlots (T.tables store.now).messages }
    ensures { IfOk result (λ changes. changes ≡ watched (watch_of watching.now)) }
{
    let alloc = watching.tables.schedules.allocator();
    let ranks = named_ranks(store, watching, alloc)?;
    changes_at(store, watching, &ranks)
}

/// What is due at a database at that moment: which slots expire or are ready, and which messages go, each in the order of the
/// messages, and what this settles. A slot that a session holds, or that is being sent, stays. It looks at the messages alone
/// that have a row at or before the moment.
pub fn due<T: DueTables>(
    store: &T,
    db: DbId,
    locks: &RowLocks,
    transit: Option<&SlotRef>,
    moment: u64,
) -> Result<List<Change>, AllocError>
    requires distinct { are_distinct is_same_message (T.tables store.now).messages ≡ true }
    requires slots { All HasFewSlots (T.tables store.now).messages }
    ensures due { let sent = option_copied transit.entry in
        IfOk result (IsDue (T.tables store.now) db locks.now sent moment) }
    ensures calm { let sent = option_copied transit.entry in
        IfOk result (IsCalmAfter (T.tables store.now) db locks.now sent moment) }
{
    let watching = Watching {
        tables: store.tables(),
        locks,
        db,
        sent: transit,
        moment,
    };
    nothing_due_at();
    watched(store, &watching)
}
