// What is counted in the entries of a run. No memory holds so much that a count does not fit, so that is out of memory too.
ghost use Rattle.std.specs.Prelude.{◌≡◌, ◌+◌, count_by, IfOk, if◌then◌else◌};
ghost use Rattle.run_summary.specs.Summary.{is_call, is_enqueued, is_removal, removals_in, calls, enqueues, removals};

use payload_records::List;
use queue_rows::{Change, Entry, Reply, Step};
use std::alloc::AllocError;

fn added(count: u64, more: u64) -> Result<u64, AllocError>
    ensures { IfOk result (λ sum. sum ≡ count + more) }
{
    count.checked_add(more).ok_or(AllocError)
}

fn one_more_if(count: u64, is_counted: bool) -> Result<u64, AllocError>
    ensures { IfOk result (λ sum. sum ≡ count + (if is_counted then 1 else 0)) }
{
    if is_counted {
        added(count, 1)
    } else {
        Ok(count)
    }
}

#[tactic(auto, unfolding(crate::specs::Summary::is_call))]
fn is_call(step: &Step) -> bool
    ensures { result ≡ is_call step.now }
{
    matches!(step, Step::Call { .. })
}

/// How many calls there are.
pub fn count_calls(entries: &List<Entry>) -> Result<u64, AllocError>
    ensures { IfOk result (λ count. count ≡ calls entries.now) }
{
    let mut count = 0u64;
    for entry in entries {
        count = one_more_if(count, is_call(&entry.step))?;
    }
    Ok(count)
}

#[tactic(auto, unfolding(crate::specs::Summary::is_enqueued))]
fn is_enqueued(step: &Step) -> bool
    ensures { result ≡ is_enqueued step.now }
{
    match step {
        Step::Call { number: _, reply } => matches!(reply, Reply::Enqueued(_)),
        _ => false,
    }
}

/// How many messages were put in.
pub fn count_enqueued(entries: &List<Entry>) -> Result<u64, AllocError>
    ensures { IfOk result (λ count. count ≡ enqueues entries.now) }
{
    let mut count = 0u64;
    for entry in entries {
        count = one_more_if(count, is_enqueued(&entry.step))?;
    }
    Ok(count)
}

#[tactic(auto, unfolding(crate::specs::Summary::is_removal))]
fn is_removal(change: &Change) -> bool
    ensures { result ≡ is_removal change.now }
{
    matches!(change, Change::Done { .. })
}

fn count_done(changes: &List<Change>) -> Result<u64, AllocError>
    ensures { IfOk result (λ count. count ≡ count_by is_removal changes.now) }
{
    let mut count = 0u64;
    for change in changes {
        count = one_more_if(count, is_removal(change))?;
    }
    Ok(count)
}

fn removals_in(entry: &Entry) -> Result<u64, AllocError>
    ensures { IfOk result (λ count. count ≡ removals_in entry.now) }
{
    added(count_done(&entry.home)?, count_done(&entry.away)?)
}

/// How many slots were done, in all commits of both databases.
pub fn count_removed(entries: &List<Entry>) -> Result<u64, AllocError>
    ensures { IfOk result (λ count. count ≡ removals entries.now) }
{
    let mut count = 0u64;
    for entry in entries {
        count = added(count, removals_in(entry)?)?;
    }
    Ok(count)
}
