// What a step does to one log.
ghost use Rattle.std.specs.Prelude.{◌≡◌, ◌≤◌, ◌<◌, ◌+◌, ℕ, [], None, IsSome, OnOk, OnErr, length, true};
ghost use Rattle.durable_state.specs.Queueing.{Queues, unqueueing};
ghost use Rattle.durable_state.specs.Writing.{Flushes, Writes};

use aq_disk::Disk;
use commit_log::{CommitLog, loggable_so_far};
use crash_laws::{calls_pass, entry_comes, flush_comes, flush_leaves};
use payload_records::List;
use queue_rows::Change;
use redo_journal::JournalFault;
use std::alloc::AllocError;

/// Queues the commit of these changes at that moment; an empty list is no commit. At want of memory the log is as before.
pub(crate) fn queue<D: Disk>(
    log: &mut CommitLog<D>,
    moment: u64,
    changes: &List<Change>,
) -> Result<(), AllocError>
    ensures ok { OnOk result (Queues D.seen D.is_image D.calls moment changes.now log.old log.new) }
    ensures err { OnErr result (log.new ≡ log.old) }
{
    entry_comes::<D>();
    loggable_so_far();
    if changes.is_empty() {
        return Ok(());
    }
    log.prepare(moment, changes)
}

/// A log goes on as it is where nothing is committed.
pub(crate) fn queue_nothing<D: Disk>(log: &CommitLog<D>)
    ensures { (moment : ℕ) → Queues D.seen D.is_image D.calls moment [] log.now log.now }
{
    let _log = log;
    entry_comes::<D>();
    loggable_so_far();
}

/// Takes back what was queued last, if that is to be taken back.
pub(crate) fn unqueue<D: Disk>(log: &mut CommitLog<D>, back: bool)
    requires { back ≡ true → 1 ≤ length log.old.queued }
    ensures { log.new ≡ unqueueing back log.old }
{
    if back {
        log.withdraw();
    }
}

/// Writes what is queued.
pub(crate) fn append<D: Disk>(log: &mut CommitLog<D>) -> Result<(), JournalFault>
    requires { log.old.failed_at ≡ None }
    ensures writes { Writes D.seen D.is_image D.calls D.faults log.old log.new }
    ensures flushes { OnOk result (Flushes D.seen D.is_image D.calls log.old log.new) }
    ensures failed { OnErr result (IsSome log.new.failed_at) }
    ensures queued { OnOk result (log.new.queued ≡ []) }
    ensures number { D.calls log.new.disk ≤ D.calls log.old.disk + 4 }
{
    calls_pass::<D>();
    flush_comes::<D>();
    flush_leaves();
    log.append()
}
