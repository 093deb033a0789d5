// An entry with what it commits and what its session then holds: put in and made together, or not at all.
ghost use Rattle.std.specs.Prelude.{◌≡◌, ◌≤◌, ◌<◌, ◌++◌, ◌∷◌, [], length, OnOk, OnErr, IfSome};
ghost use Rattle.queue_rows.specs.Legal.{last_entry};
ghost use Rattle.queue_rows.specs.World.{committed};
ghost use Rattle.run_state.specs.CallEffects.{IsLaterThan, mark_of, pend_of, with_pended, holding};
ghost use Rattle.run_state.specs.Reserved.{HasPlaces};
ghost use Rattle.session_registry.specs.Sessions.{changed_at, with_pending, IsFreeIn};

use crate::call_effect::Holdings;
use crate::holdings::{make_room, release, take};
use crate::reserved_list::ReservedList;
use crate::run_database::{RunDatabase, commit_both};
use queue_rows::{Entry, Pending};
use session_registry::SessionRegistry;
use std::alloc::AllocError;

// The history has an entry or more for each statement, so entries stay small beside what they commit: bytes.
const _: () = prove!(size_of::<Entry>() <= 128);

/// Makes what the last entry commits. Each commit has an entry, so their number fits.
fn commit_last(
    home: &mut RunDatabase,
    away: &mut RunDatabase,
    entries: &ReservedList<Entry>,
    moment: u64,
) -> Result<(), AllocError>
    requires home_few { home.old.made < length entries.now.items }
    requires away_few { away.old.made < length entries.now.items }
    ensures home { OnOk result (IfSome (last_entry entries.now.items) (λ e.
        home.new ≡ committed e.home moment home.old)) }
    ensures away { OnOk result (IfSome (last_entry entries.now.items) (λ e.
        away.new ≡ committed e.away moment away.old)) }
    ensures err_home { OnErr result (home.new ≡ home.old) }
    ensures err_away { OnErr result (away.new ≡ away.old) }
{
    let _count = entries.len();
    match entries.last() {
        Some(entry) => commit_both(home, away, &entry.home, &entry.away, moment),
        None => Ok(()),
    }
}

/// Puts an entry at the end, in a place that was kept for it, and makes what it commits at its moment. At want of memory all is as before.
pub fn put(
    home: &mut RunDatabase,
    away: &mut RunDatabase,
    entries: &mut ReservedList<Entry>,
    entry: Entry,
) -> Result<(), AllocError>
    requires home_few { home.old.made ≤ length entries.old.items }
    requires away_few { away.old.made ≤ length entries.old.items }
    requires room { HasPlaces 1 entries.old }
    ensures home { OnOk result (home.new ≡ committed entry.home entry.moment home.old) }
    ensures away { OnOk result (away.new ≡ committed entry.away entry.moment away.old) }
    ensures entries { OnOk result (entries.new.items ≡ entries.old.items ++ entry ∷ []) }
    ensures capacity { entries.old.capacity ≤ entries.new.capacity }
    ensures err_home { OnErr result (home.new ≡ home.old) }
    ensures err_away { OnErr result (away.new ≡ away.old) }
    ensures err_entries { OnErr result (entries.new.items ≡ entries.old.items) }
{
    let moment = entry.moment;
    entries.push(entry);
    match commit_last(home, away, entries, moment) {
        Ok(()) => Ok(()),
        Err(AllocError) => {
            entries.drop_last();
            Err(AllocError)
        }
    }
}

/// Puts an entry at the end, in a place that was kept for it, and keeps what its session has done and not committed. At want of memory all is as before.
fn put_pending(
    registry: &mut SessionRegistry,
    entries: &mut ReservedList<Entry>,
    entry: Entry,
    pending: Pending,
) -> Result<(), AllocError>
    requires room { HasPlaces 1 entries.old }
    ensures entries { OnOk result (entries.new.items ≡ entries.old.items ++ entry ∷ []) }
    ensures capacity { entries.old.capacity ≤ entries.new.capacity }
    ensures sessions { OnOk result (
        registry.new.sessions ≡ changed_at entry.actor (with_pending pending) registry.old.sessions) }
    ensures locks { registry.new.locks ≡ registry.old.locks }
    ensures err_entries { OnErr result (entries.new.items ≡ entries.old.items) }
    ensures err_sessions { OnErr result (registry.new.sessions ≡ registry.old.sessions) }
{
    let actor = entry.actor;
    entries.push(entry);
    match registry.pend(actor, pending) {
        Ok(()) => Ok(()),
        Err(AllocError) => {
            entries.drop_last();
            Err(AllocError)
        }
    }
}

/// Puts the entry of a session at the end, and makes what it commits, or keeps with the session what it has done and not committed.
fn keep(
    registry: &mut SessionRegistry,
    home: &mut RunDatabase,
    away: &mut RunDatabase,
    entries: &mut ReservedList<Entry>,
    entry: Entry,
    pending: Option<Pending>,
) -> Result<(), AllocError>
    requires home_few { home.old.made ≤ length entries.old.items }
    requires away_few { away.old.made ≤ length entries.old.items }
    requires room { HasPlaces 1 entries.old }
    requires later { IsLaterThan pending entry.home entry.away }
    ensures home { OnOk result (home.new ≡ committed entry.home entry.moment home.old) }
    ensures away { OnOk result (away.new ≡ committed entry.away entry.moment away.old) }
    ensures entries { OnOk result (entries.new.items ≡ entries.old.items ++ entry ∷ []) }
    ensures capacity { entries.old.capacity ≤ entries.new.capacity }
    ensures sessions { OnOk result (
        registry.new.sessions ≡ changed_at entry.actor (with_pended pending) registry.old.sessions) }
    ensures locks { registry.new.locks ≡ registry.old.locks }
    ensures err_home { OnErr result (home.new ≡ home.old) }
    ensures err_away { OnErr result (away.new ≡ away.old) }
    ensures err_entries { OnErr result (entries.new.items ≡ entries.old.items) }
    ensures err_sessions { OnErr result (registry.new.sessions ≡ registry.old.sessions) }
{
    match pending {
        Some(pending) => put_pending(registry, entries, entry, pending),
        None => put(home, away, entries, entry),
    }
}

/// Puts the entry of a session's call at the end, makes what it commits, and changes what the session holds. At want of memory all is
/// as before.
pub fn put_call(
    registry: &mut SessionRegistry,
    home: &mut RunDatabase,
    away: &mut RunDatabase,
    entries: &mut ReservedList<Entry>,
    entry: Entry,
    holdings: Holdings,
) -> Result<(), AllocError>
    requires home_few { home.old.made ≤ length entries.old.items }
    requires away_few { away.old.made ≤ length entries.old.items }
    requires room { HasPlaces 1 entries.old }
    requires later { IsLaterThan (pend_of holdings) entry.home entry.away }
    requires free { IfSome (mark_of holdings) (λ m. IsFreeIn entry.actor m registry.old.sessions) }
    ensures home { OnOk result (home.new ≡ committed entry.home entry.moment home.old) }
    ensures away { OnOk result (away.new ≡ committed entry.away entry.moment away.old) }
    ensures entries { OnOk result (entries.new.items ≡ entries.old.items ++ entry ∷ []) }
    ensures capacity { entries.old.capacity ≤ entries.new.capacity }
    ensures sessions { OnOk result (
        registry.new.sessions ≡ changed_at entry.actor (holding holdings) registry.old.sessions) }
    ensures err_home { OnErr result (home.new ≡ home.old) }
    ensures err_away { OnErr result (away.new ≡ away.old) }
    ensures err_entries { OnErr result (entries.new.items ≡ entries.old.items) }
    ensures err_sessions { OnErr result (registry.new.sessions ≡ registry.old.sessions) }
{
    let actor = entry.actor;
    make_room(registry, actor, &holdings)?;
    match holdings {
        Holdings::Kept { pend, mark, unmark } => {
            keep(registry, home, away, entries, entry, pend)?;
            take(registry, actor, mark);
            release(registry, actor, unmark);
        }
        Holdings::Cleared => {
            put(home, away, entries, entry)?;
            registry.clear(actor);
        }
    }
    Ok(())
}
