// The logs of both databases.
ghost use Rattle.std.specs.Prelude.{◌≡◌, ◌≤◌, ◌+◌, ◌⊎◌, ◌++◌, ◌∷◌, ℕ, [], None, IsSome, IfOk, OnOk, OnErr, length, true, false};
ghost use Rattle.queue_rows.specs.World.{at_home, at_away};
ghost use Rattle.run_state.specs.Reserved.{HasPlaces};
ghost use Rattle.durable_state.specs.Queueing.{Enters, Queues, numbers, queued_of, taken_back};
ghost use Rattle.durable_state.specs.Writing.{Flushes, Writes, WritesHomeFirst};

use crate::disk_calls::DiskCalls;
use crate::log_steps::{append, queue, queue_nothing, unqueue};
use aq_base::DbId;
use aq_disk::Disk;
use commit_log::CommitLog;
use payload_records::List;
use queue_rows::Change;
use redo_journal::JournalFault;
use run_state::{ReservedList, RunState};
use std::alloc::AllocError;

/// Which of the logs have a commit of the entry that comes.
#[derive(Clone, Copy, Debug)]
pub(crate) struct Queued {
    pub(crate) home: bool,
    pub(crate) away: bool,
}

/// The logs of both databases, and the call numbers of their disks behind each entry of the run.
#[derive(Drop)]
pub(crate) struct RunLogs<D: Disk> {
    pub(crate) home: CommitLog<D>,
    pub(crate) away: CommitLog<D>,
    pub(crate) calls: ReservedList<DiskCalls>,
}

/// Queues what is committed at home and at away. At want of memory both logs are as before.
fn queue_both<D: Disk>(
    home_log: &mut CommitLog<D>,
    away_log: &mut CommitLog<D>,
    moment: u64,
    home: &List<Change>,
    away: &List<Change>,
) -> Result<Queued, AllocError>
    ensures same { IfOk result (λ queued. queued ≡ queued_of home.now away.now) }
    ensures home { OnOk result
        (Queues D.seen D.is_image D.calls moment home.now home_log.old home_log.new) }
    ensures away { OnOk result
        (Queues D.seen D.is_image D.calls moment away.now away_log.old away_log.new) }
    ensures err_home { OnErr result (home_log.new ≡ home_log.old) }
    ensures err_away { OnErr result (away_log.new ≡ away_log.old) }
{
    let queued = Queued {
        home: !home.is_empty(),
        away: !away.is_empty(),
    };
    queue(home_log, moment, home)?;
    if let Err(AllocError) = queue(away_log, moment, away) {
        unqueue(home_log, queued.home);
        return Err(AllocError);
    }
    Ok(queued)
}

impl<D: Disk> RunLogs<D> {
    /// Whether a call on one of the disks failed.
    pub(crate) fn has_failed(&self) -> bool
        ensures failed { result ≡ true → IsSome self.now.home.failed_at ⊎ IsSome self.now.away.failed_at }
        ensures fine { result ≡ false → (self.now.home.failed_at ≡ None) × (self.now.away.failed_at ≡ None) }
    {
        self.home.failed_at().is_some() || self.away.failed_at().is_some()
    }

    /// The present call numbers of the disks.
    fn numbers(&self) -> DiskCalls
        ensures { result ≡ numbers D.calls self.now }
    {
        DiskCalls {
            home: self.home.calls(),
            away: self.away.calls(),
        }
    }

    /// Puts the present call numbers of the disks at the end, in a place that was kept for them.
    pub(crate) fn count(&mut self)
        requires { HasPlaces 1 self.old.calls }
        ensures home { self.new.home ≡ self.old.home }
        ensures away { self.new.away ≡ self.old.away }
        ensures calls { self.new.calls.items ≡ self.old.calls.items ++ numbers D.calls self.old ∷ [] }
        ensures capacity { self.old.calls.capacity ≤ self.new.calls.capacity }
    {
        let numbers = self.numbers();
        self.calls.push(numbers);
    }

    /// An entry comes that is no flush, and commits these changes: they are queued, and its call numbers kept; and there is room for what is
    /// promised behind it. At want of memory all is as before.
    pub(crate) fn enter(
        &mut self,
        state: &RunState,
        home: &List<Change>,
        away: &List<Change>,
    ) -> Result<Queued, AllocError>
        ensures same { IfOk result (λ queued. queued ≡ queued_of home.now away.now) }
        ensures ok { OnOk result
            (Enters D.seen D.is_image D.calls state.now.moment home.now away.now self.old self.new) }
        ensures room { OnOk result (HasPlaces (length state.now.sessions + 1) self.new.calls) }
        ensures err { OnErr result (self.new ≡ self.old) }
    {
        let numbers = self.numbers();
        let moment = state.moment();
        let queued = queue_both(&mut self.home, &mut self.away, moment, home, away)?;
        if let Err(AllocError) = self.calls.reserve(state.session_count()) {
            unqueue(&mut self.home, queued.home);
            unqueue(&mut self.away, queued.away);
            return Err(AllocError);
        }
        self.calls.push(numbers);
        Ok(queued)
    }

    /// The same of an entry that commits these changes at one database, and nothing at the other one.
    pub(crate) fn enter_at(
        &mut self,
        state: &RunState,
        db: DbId,
        changes: &List<Change>,
    ) -> Result<Queued, AllocError>
        ensures same { IfOk result
            (λ queued. queued ≡ queued_of (at_home db changes.now) (at_away db changes.now)) }
        ensures ok { OnOk result (Enters D.seen D.is_image D.calls state.now.moment
            (at_home db changes.now) (at_away db changes.now) self.old self.new) }
        ensures room { OnOk result (HasPlaces (length state.now.sessions + 1) self.new.calls) }
        ensures err { OnErr result (self.new ≡ self.old) }
    {
        let nothing = List::new(changes.allocator());
        match db {
            DbId::Home => self.enter(state, changes, &nothing),
            DbId::Away => self.enter(state, &nothing, changes),
        }
    }

    /// The same of an entry that commits nothing.
    pub(crate) fn note(&mut self, state: &RunState) -> Result<Queued, AllocError>
        ensures same { IfOk result (λ queued. queued ≡ queued_of [] []) }
        ensures ok { OnOk result (Enters D.seen D.is_image D.calls state.now.moment [] [] self.old self.new) }
        ensures room { OnOk result (HasPlaces (length state.now.sessions + 1) self.new.calls) }
        ensures err { OnErr result (self.new ≡ self.old) }
    {
        let nothing = List::new(state.allocator());
        self.enter(state, &nothing, &nothing)
    }

    /// An entry comes that is no flush and commits nothing, for which a place was kept.
    pub(crate) fn pass(&mut self)
        requires { HasPlaces 1 self.old.calls }
        ensures enters { (moment : ℕ) → Enters D.seen D.is_image D.calls moment [] [] self.old self.new }
        ensures capacity { self.old.calls.capacity ≤ self.new.calls.capacity }
    {
        queue_nothing(&self.home);
        queue_nothing(&self.away);
        self.count();
    }

    /// What became of a step whose entry came: where it was not made, the entry is taken back.
    pub(crate) fn settle(&mut self, queued: Queued, made: &Result<(), AllocError>)
        requires home { queued.home ≡ true → 1 ≤ length self.old.home.queued }
        requires away { queued.away ≡ true → 1 ≤ length self.old.away.queued }
        ensures ok { OnOk made.now (self.new ≡ self.old) }
        ensures err { OnErr made.now (self.new ≡ taken_back queued self.old) }
    {
        if made.is_ok() {
            return;
        }
        unqueue(&mut self.home, queued.home);
        unqueue(&mut self.away, queued.away);
        self.calls.drop_last();
    }

    /// Writes all that is queued, at home and then at away. Where home's disk fails, away's is not called.
    pub(crate) fn append(&mut self) -> Result<(), JournalFault>
        requires home { self.old.home.failed_at ≡ None }
        requires away { self.old.away.failed_at ≡ None }
        ensures home_writes { Writes D.seen D.is_image D.calls D.faults self.old.home self.new.home }
        ensures away_writes { Writes D.seen D.is_image D.calls D.faults self.old.away self.new.away }
        ensures home_flushes { OnOk result (Flushes D.seen D.is_image D.calls self.old.home self.new.home) }
        ensures away_flushes { OnOk result (Flushes D.seen D.is_image D.calls self.old.away self.new.away) }
        ensures calls { self.new.calls ≡ self.old.calls }
        ensures failed { OnErr result (IsSome self.new.home.failed_at ⊎ IsSome self.new.away.failed_at) }
        ensures order { WritesHomeFirst self.old.away self.new.home self.new.away }
        ensures home_number { D.calls self.new.home.disk ≤ D.calls self.old.home.disk + 4 }
        ensures away_number { D.calls self.new.away.disk ≤ D.calls self.old.away.disk + 4 }
    {
        append(&mut self.home)?;
        append(&mut self.away)
    }
}
