// Whether a commit fits the tables of a store, and making it there.
ghost use Rattle.std.specs.Prelude.{◌≡◌, IfOk, IfSome, OnOk, is_some, max, true};
ghost use Rattle.std.specs.Bool.{OnTrue};
ghost use Rattle.queue_rows.specs.Fits.{names_what_is_there, all_name_what_is_there, fits};
ghost use Rattle.queue_rows.specs.Tables.{after_change, after_all, after};
ghost use Rattle.queue_rows.specs.Valid.{is_valid};
ghost use Rattle.fit_laws.specs.FitLaws.{is_local, are_local};

use commit_fits::{is_local, stays_valid};
use message_store::PreparedStore;
use payload_records::List;
use queue_rows::{Change, Commit};
use std::alloc::{AllocError, Global};
use valid_tables::names_what_is_there;

// Whether a change is local, where what it names is there.
fn judge_change(store: &PreparedStore, change: &Change) -> Result<Option<bool>, AllocError>
    ensures named { IfOk result (λ judged.
        is_some judged ≡ names_what_is_there store.now.tables change.now) }
    ensures local { IfOk result (λ judged. IfSome judged (λ local.
        local ≡ is_local store.now.tables change.now)) }
{
    if !names_what_is_there(store, change) {
        return Ok(None);
    }
    Ok(Some(is_local(store.tables(), change)?))
}

#[tactic(auto, using(crate::proofs::Judging::after_one))]
fn commit_change(alloc: Global, store: &mut PreparedStore, change: Change) -> Result<(), AllocError>
    ensures { OnOk result (store.new.tables ≡ after_change store.old.tables change) }
{
    let mut changes = List::new(alloc);
    changes.push(change)?;
    let commit = Commit { moment: 0, changes };
    store.prepare(&commit)?;
    store.apply(commit);
    Ok(())
}

// Makes a change where what it names is there, and then answers whether it was local.
fn make_change(
    alloc: Global,
    store: &mut PreparedStore,
    change: Change,
) -> Result<Option<bool>, AllocError>
    ensures named { IfOk result (λ made. is_some made ≡ names_what_is_there store.old.tables change) }
    ensures made { IfOk result (λ made. IfSome made (λ _.
        store.new.tables ≡ after_change store.old.tables change)) }
    ensures local { IfOk result (λ made. IfSome made (λ local.
        local ≡ is_local store.old.tables change)) }
{
    match judge_change(store, &change) {
        Ok(Some(local)) => {
            commit_change(alloc, store, change)?;
            Ok(Some(local))
        }
        unmade => {
            drop(change);
            unmade
        }
    }
}

// Makes changes in order where what they name is there when they come, and then answers whether each was local when it came.
fn make_changes(
    alloc: Global,
    store: &mut PreparedStore,
    changes: List<Change>,
) -> Result<Option<bool>, AllocError>
    ensures named { IfOk result (λ made.
        is_some made ≡ all_name_what_is_there store.old.tables changes) }
    ensures made { IfOk result (λ made. IfSome made (λ _.
        store.new.tables ≡ after_all store.old.tables changes)) }
    ensures local { IfOk result (λ made. IfSome made (λ local.
        local ≡ are_local store.old.tables changes)) }
{
    let mut changes = changes.into_vec();
    let mut local = true;
    for change in changes.drain(..) {
        let Some(one) = make_change(alloc, store, change)? else {
            return Ok(None);
        };
        local = local && one;
    }
    Ok(Some(local))
}

#[tactic(auto, using(crate::proofs::Judging::after_none))]
fn raise_latest(alloc: Global, store: &mut PreparedStore, moment: u64) -> Result<(), AllocError>
    ensures { OnOk result (store.new.tables
        ≡ record store.old.tables { latest = max store.old.tables.latest moment }) }
{
    let changes = List::new(alloc);
    let commit = Commit { moment, changes };
    store.prepare(&commit)?;
    store.apply(commit);
    Ok(())
}

/// Makes a commit on valid tables where it fits, and answers whether it does. Where it does not, nothing is said of what the
/// store then holds. What the commit changes is given twice, since making it takes it.
#[tactic(auto, using(crate::proofs::Judging::unnamed_is_unfit))]
pub(crate) fn make_fitting(
    alloc: Global,
    store: &mut PreparedStore,
    commit: Commit,
    named: &List<Change>,
) -> Result<bool, AllocError>
    requires valid { is_valid store.old.tables ≡ true }
    requires same { named.now ≡ commit.changes }
    ensures judged { IfOk result (λ fitting. fitting ≡ fits store.old.tables commit) }
    ensures made { IfOk result (λ fitting. OnTrue fitting
        (store.new.tables ≡ after store.old.tables commit)) }
{
    let Commit { moment, changes } = commit;
    let Some(local) = make_changes(alloc, store, changes)? else {
        return Ok(false);
    };
    raise_latest(alloc, store, moment)?;
    stays_valid(alloc, store, named, local)
}
