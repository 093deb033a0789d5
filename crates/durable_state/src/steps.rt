// The steps of a run that make no call on a disk. What they commit is queued in the logs, and made durable by the next flush.
ghost use Rattle.std.specs.Prelude.{◌≡◌, ◌<◌, ◌+◌, ◌^◌, ℕ, OnOk, OnErr, IsOk};
ghost use Rattle.run_state.specs.Outcomes.{meant};
ghost use Rattle.queue_rows.specs.declared.history.Step.TheVariants.{Timer};
ghost use Rattle.queue_rows.specs.World.{other_db, database_at, read_clock, stepped};
ghost use Rattle.queue_rows.specs.Sending.{offers, arrives, confirms, sent, home_of, away_of};
ghost use Rattle.queue_rows.specs.Turns.{parked, ended};
ghost use Rattle.run_state.specs.CallEffects.{IsCallable, called_with};
ghost use Rattle.session_registry.specs.Sessions.{IsAbsent, OfSession};
ghost use Rattle.durable_state.specs.Going.{AddsEntries, Goes};
ghost use Rattle.durable_state.specs.Held.{HasFailed};

use crate::durable_state::DurableState;
use aq_base::DbId;
use aq_disk::Disk;
use payload_records::{List, Name};
use queue_rows::{Change, SlotRef};
use run_state::{Arriving, CallEffect};
use std::alloc::AllocError;

/// What is committed at home and at away, of what is at one of them and at the other one.
fn sides<'a>(
    at: DbId,
    own: &'a List<Change>,
    other: &'a List<Change>,
) -> (&'a List<Change>, &'a List<Change>)
    ensures first { result.0.now ≡ home_of at own.now other.now }
    ensures second { result.1.now ≡ away_of at own.now other.now }
{
    match at {
        DbId::Home => (own, other),
        DbId::Away => (other, own),
    }
}

impl<D: Disk> DurableState<D> {
    /// Takes a reading of the clock: the moment is the greatest reading so far, and no reading counts for more than the greatest moment.
    pub fn read_clock(&mut self, reading: u64)
        requires { self.old.world.readings + 1 < 2 ^ 64 }
        ensures world { self.new.world ≡ read_clock reading self.old.world }
        ensures entries { self.new.entries ≡ self.old.entries }
        ensures disks { Goes D.seen D.is_image D.calls D.faults self.old self.new }
        ensures fine { HasFailed self.new → HasFailed self.old }
        ensures stays { HasFailed self.old → HasFailed self.new }
    {
        self.state.read_clock(reading);
    }

    /// The session of that number makes this call, if there is one. At want of memory all is as before.
    pub fn call(&mut self, at: u32, effect: CallEffect) -> Result<(), AllocError>
        requires { OfSession at self.old.world (λ s. IsCallable self.old.world at s effect) }
        ensures ok { OnOk result (OfSession at self.old.world (λ s.
            self.new.world ≡ called_with at effect self.old.world s)) }
        ensures absent { IsAbsent at self.old.world → IsOk result × (self.new ≡ self.old) }
        ensures err { OnErr result (self.new.world ≡ self.old.world) }
        ensures adds { AddsEntries at self.old self.new }
        ensures disks { Goes D.seen D.is_image D.calls D.faults self.old self.new }
        ensures fine { HasFailed self.new → HasFailed self.old }
    {
        let Some(session) = self.state.session(at) else {
            return Ok(());
        };
        let db = session.at;
        let queued = self.logs.enter_at(&self.state, db, &effect.commit)?;
        let made = self.state.call(at, effect);
        self.logs.settle(queued, &made);
        made
    }

    /// The next statement of the session of that number, if there is one, waits since that moment, which is noted once. At want of memory
    /// all is as before.
    pub fn park(&mut self, at: u32, since: u64) -> Result<(), AllocError>
        requires { OfSession at self.old.world (λ s. s.next + 1 < 2 ^ 32) }
        ensures ok { OnOk result (OfSession at self.old.world (λ s.
            self.new.world ≡ parked at s since self.old.world)) }
        ensures absent { IsAbsent at self.old.world → IsOk result × (self.new ≡ self.old) }
        ensures err { OnErr result (self.new.world ≡ self.old.world) }
        ensures adds { AddsEntries at self.old self.new }
        ensures disks { Goes D.seen D.is_image D.calls D.faults self.old self.new }
        ensures fine { HasFailed self.new → HasFailed self.old }
    {
        let Some(session) = self.state.session(at) else {
            return Ok(());
        };
        if session.parked.is_some() {
            return Ok(());
        }
        let queued = self.logs.note(&self.state)?;
        let made = self.state.park(at, since);
        self.logs.settle(queued, &made);
        made
    }

    /// Ends the session of that number, if there is one. At want of memory all is as before.
    pub fn end(&mut self, at: u32) -> Result<(), AllocError>
        ensures ok { OnOk result (OfSession at self.old.world (λ s.
            self.new.world ≡ ended at s self.old.world)) }
        ensures absent { IsAbsent at self.old.world → IsOk result × (self.new ≡ self.old) }
        ensures err { OnErr result (self.new.world ≡ self.old.world) }
        ensures adds { AddsEntries at self.old self.new }
        ensures disks { Goes D.seen D.is_image D.calls D.faults self.old self.new }
        ensures fine { HasFailed self.new → HasFailed self.old }
    {
        let Some(_) = self.state.session(at) else {
            return Ok(());
        };
        let queued = self.logs.note(&self.state)?;
        let made = self.state.end(at);
        self.logs.settle(queued, &made);
        made
    }

    /// Commits the work that is due at home and at away. At want of memory all is as before.
    pub fn time(
        &mut self,
        actor: u32,
        home: List<Change>,
        away: List<Change>,
    ) -> Result<(), AllocError>
        ensures ok { OnOk result (self.new.world ≡ stepped actor self.old.world home away Timer) }
        ensures err { OnErr result (self.new.world ≡ self.old.world) }
        ensures adds { AddsEntries actor self.old self.new }
        ensures disks { Goes D.seen D.is_image D.calls D.faults self.old self.new }
        ensures fine { HasFailed self.new → HasFailed self.old }
    {
        let queued = self.logs.enter(&self.state, &home, &away)?;
        let made = self.state.time(actor, home, away);
        self.logs.settle(queued, &made);
        made
    }

    /// Takes a slot up, to send it to that queue of the other database. At want of memory all is as before.
    pub fn offer(&mut self, actor: u32, at: SlotRef, to: Name) -> Result<(), AllocError>
        ensures ok { OnOk result (self.new.world ≡ sent actor (offers at to) self.old.world) }
        ensures err { OnErr result (self.new.world ≡ self.old.world) }
        ensures adds { AddsEntries actor self.old self.new }
        ensures disks { Goes D.seen D.is_image D.calls D.faults self.old self.new }
        ensures fine { HasFailed self.new → HasFailed self.old }
    {
        let queued = self.logs.note(&self.state)?;
        let made = self.state.offer(actor, at, to);
        self.logs.settle(queued, &made);
        made
    }

    /// The slot that is being sent arrives, with what that does at both databases. At want of memory all is as before.
    pub fn arrive(&mut self, actor: u32, at: SlotRef, arriving: Arriving) -> Result<(), AllocError>
        requires { (database_at (other_db at.db) self.old.world).next + 1 < 2 ^ 64 }
        ensures ok { OnOk result (self.new.world ≡ sent actor (arrives at (meant arriving)) self.old.world) }
        ensures err { OnErr result (self.new.world ≡ self.old.world) }
        ensures adds { AddsEntries actor self.old self.new }
        ensures disks { Goes D.seen D.is_image D.calls D.faults self.old self.new }
        ensures fine { HasFailed self.new → HasFailed self.old }
    {
        let (home, away) = sides(at.db, &arriving.origin, &arriving.there);
        let queued = self.logs.enter(&self.state, home, away)?;
        let made = self.state.arrive(actor, at, arriving);
        self.logs.settle(queued, &made);
        made
    }

    /// The slot that was sent is done, which commits this where it came from. At want of memory all is as before.
    pub fn confirm(
        &mut self,
        actor: u32,
        at: SlotRef,
        changes: List<Change>,
    ) -> Result<(), AllocError>
        ensures ok { OnOk result ((number : ℕ) →
            self.new.world ≡ sent actor (confirms at number changes) self.old.world) }
        ensures err { OnErr result (self.new.world ≡ self.old.world) }
        ensures adds { AddsEntries actor self.old self.new }
        ensures disks { Goes D.seen D.is_image D.calls D.faults self.old self.new }
        ensures fine { HasFailed self.new → HasFailed self.old }
    {
        let queued = self.logs.enter_at(&self.state, at.db, &changes)?;
        let made = self.state.confirm(actor, at, changes);
        self.logs.settle(queued, &made);
        made
    }
}
