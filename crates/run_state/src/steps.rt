// The steps of a run. Each takes all its memory before anything is changed; a flush and a telling take none.
ghost use Rattle.std.specs.Prelude.{◌≡◌, ◌<◌, ◌+◌, ◌^◌, ◌++◌, [], ℕ, IfOk, OnOk, OnErr, IsOk, IsSome, option_map, position};
ghost use Rattle.std.specs.List.{position_or_len};
ghost use Rattle.propagation.specs.Outcomes.{meant};
ghost use Rattle.queue_rows.specs.Propagating.{is_pair};
ghost use Rattle.queue_rows.specs.Turns.{ids_taken, parked, ended, flushed, told};
ghost use Rattle.queue_rows.specs.declared.history.Step.TheVariants.{Timer};
ghost use Rattle.queue_rows.specs.World.{other_db, database_at, entry_of, stepped};
ghost use Rattle.queue_rows.specs.Sending.{offers, arrives, confirms, sent, taking_ids, ids_copied, pair_number, home_of, away_of, transit_after};
ghost use Rattle.run_state.specs.CallEffects.{IsCallable, IsFreeOf, IsLater, called_with, entered_as};
ghost use Rattle.run_state.specs.Sendings.{transit_of};
ghost use Rattle.session_registry.specs.Sessions.{IsAbsent, OfSession, gone_by, gone_in};

use crate::call_effect::CallEffect;
use crate::entering::{put, put_call};
use crate::state::RunState;
use crate::transit::{Stage, Transit};
use aq_base::DbId;
use payload_records::{Boxed, Copied, List, Name};
use propagation::Arriving;
use queue_catalog::exception_name;
use queue_rows::{Arrival, Change, Entry, Reply, SlotRef, Step, Tables};
use std::alloc::AllocError;

fn ids_taken(reply: &Reply) -> u64
    ensures { result ≡ ids_taken reply.now }
{
    match reply {
        Reply::Enqueued(_) => 1,
        _ => 0,
    }
}

/// A copy takes the next id.
fn ids_copied(outcome: Arrival) -> u64
    ensures { result ≡ ids_copied outcome }
{
    match outcome {
        Arrival::Copied(_) => 1,
        Arrival::Seen | Arrival::Failed { .. } => 0,
    }
}

fn other_db(db: DbId) -> DbId
    ensures { result ≡ other_db db }
{
    match db {
        DbId::Home => DbId::Away,
        DbId::Away => DbId::Home,
    }
}

/// What an entry commits at home and at away, of what one of them commits and the other one.
fn sides(at: DbId, own: List<Change>, other: List<Change>) -> (List<Change>, List<Change>)
    ensures home { result.0 ≡ home_of at own other }
    ensures away { result.1 ≡ away_of at own other }
{
    match at {
        DbId::Home => (own, other),
        DbId::Away => (other, own),
    }
}

/// Puts the name of the queue at the end that a change takes away, if it takes one.
fn push_gone(names: &mut List<Name>, change: &Change) -> Result<(), AllocError>
    ensures { OnOk result (names.new ≡ names.old ++ gone_by change.now) }
{
    match change {
        Change::DropQueue(queue) => names.push(queue.copied()?),
        Change::DropTable(table) => names.push(exception_name(table)?),
        _ => Ok(()),
    }
}

/// The names of the queues that changes take away.
fn gone_queues(changes: &List<Change>) -> Result<List<Name>, AllocError>
    ensures { IfOk result (λ names. names ≡ gone_in changes.now) }
{
    let mut names = List::new(changes.allocator());
    for change in changes {
        push_gone(&mut names, change)?;
    }
    Ok(names)
}

fn find_pair(there: &Tables, at: &SlotRef) -> Option<usize>
    ensures { result ≡ position (is_pair at.now.id at.now.slot) there.now.seen }
{
    there.seen.position(at.id, u64::from(at.slot))
}

/// The place of the slot's pair, counted from 0, among those that a database has seen; the next one where it is not there.
fn pair_place(there: &Tables, at: &SlotRef) -> usize
    ensures { result ≡ position_or_len (is_pair at.now.id at.now.slot) there.now.seen }
{
    match find_pair(there, at) {
        Some(place) => place,
        None => there.seen.len(),
    }
}

impl RunState {
    /// An entry that is made now.
    fn entry(&self, actor: u32, home: List<Change>, away: List<Change>, step: Step) -> Entry
        ensures { result ≡ entry_of actor self.now home away step }
    {
        Entry {
            actor,
            moment: self.moment,
            readings: self.readings,
            home_calls: 0,
            away_calls: 0,
            home,
            away,
            step,
        }
    }

    /// An entry that is made now and commits nothing.
    fn quiet_entry(&self, actor: u32, step: Step) -> Entry
        ensures { result ≡ entry_of actor self.now [] [] step }
    {
        self.entry(actor, List::new(self.alloc), List::new(self.alloc), step)
    }

    /// Puts an entry at the end, and makes what it commits. At want of memory all is as before.
    fn enter(
        &mut self,
        actor: u32,
        home: List<Change>,
        away: List<Change>,
        step: Step,
    ) -> Result<(), AllocError>
        ensures ok { OnOk result (self.new ≡ stepped actor self.old home away step) }
        ensures err { OnErr result (self.new ≡ self.old) }
    {
        let entry = self.entry(actor, home, away, step);
        self.entries.reserve(self.registry.len())?;
        put(&mut self.home, &mut self.away, &mut self.entries, entry)
    }

    /// Puts an entry at the end that commits nothing. At want of memory all is as before.
    fn note(&mut self, actor: u32, step: Step) -> Result<(), AllocError>
        ensures ok { OnOk result (self.new ≡ stepped actor self.old [] [] step) }
        ensures err { OnErr result (self.new ≡ self.old) }
    {
        self.enter(actor, List::new(self.alloc), List::new(self.alloc), step)
    }

    /// Takes so many ids of that database.
    fn take_ids(&mut self, db: DbId, ids: u64)
        requires { (database_at db self.old).next + ids < 2 ^ 64 }
        ensures { self.new ≡ taking_ids db ids self.old }
    {
        match db {
            DbId::Home => self.home.take_ids(ids),
            DbId::Away => self.away.take_ids(ids),
        }
    }

    /// The session of that number makes its call of that number, but for the ids that it takes: its entry stands, it has called its next
    /// statement and waits to be told, and no session of its database stands in the queues that have gone. At want of memory all is as
    /// before.
    fn enter_call(
        &mut self,
        at: u32,
        number: u32,
        db: DbId,
        effect: CallEffect,
        gone: &List<Name>,
    ) -> Result<(), AllocError>
        requires early { OfSession at self.old (λ s. s.next + 1 < 2 ^ 32) }
        requires later { IsLater effect }
        requires free { IsFreeOf self.old at effect.holdings }
        ensures ok { OnOk result (self.new ≡ entered_as at number db effect gone.now self.old) }
        ensures err { OnErr result (self.new ≡ self.old) }
    {
        let CallEffect {
            reply,
            commit,
            holdings,
            positions,
        } = effect;
        let (home, away) = sides(db, commit, List::new(self.alloc));
        let entry = self.entry(at, home, away, Step::Call { number, reply });
        self.entries.reserve(self.registry.len())?;
        put_call(
            &mut self.registry,
            &mut self.home,
            &mut self.away,
            &mut self.entries,
            entry,
            holdings,
        )?;
        let (home, away) = (self.home.made(), self.away.made());
        self.registry.call(at, positions, home, away);
        self.registry.leave(db, gone);
        Ok(())
    }

    /// The session of that number makes this call, if there is one. At want of memory all is as before.
    pub fn call(&mut self, at: u32, effect: CallEffect) -> Result<(), AllocError>
        requires { OfSession at self.old (λ s. IsCallable self.old at s effect) }
        ensures ok { OnOk result (OfSession at self.old (λ s. self.new ≡ called_with at effect self.old s)) }
        ensures absent { IsAbsent at self.old → IsOk result × (self.new ≡ self.old) }
        ensures err { OnErr result (self.new ≡ self.old) }
    {
        let Some(session) = self.registry.get(at) else {
            return Ok(());
        };
        let (db, number) = (session.at, session.next + 1);
        let ids = ids_taken(&effect.reply);
        let gone = gone_queues(&effect.commit)?;
        self.enter_call(at, number, db, effect, &gone)?;
        self.take_ids(db, ids);
        Ok(())
    }

    /// The next statement of the session of that number, if there is one, waits since that moment, which is noted once. At want of memory
    /// all is as before.
    pub fn park(&mut self, at: u32, since: u64) -> Result<(), AllocError>
        requires { OfSession at self.old (λ s. s.next + 1 < 2 ^ 32) }
        ensures ok { OnOk result (OfSession at self.old (λ s. self.new ≡ parked at s since self.old)) }
        ensures absent { IsAbsent at self.old → IsOk result × (self.new ≡ self.old) }
        ensures err { OnErr result (self.new ≡ self.old) }
    {
        let Some(session) = self.registry.get(at) else {
            return Ok(());
        };
        if session.parked.is_some() {
            return Ok(());
        }
        let number = session.next + 1;
        self.note(at, Step::Park { number })?;
        self.registry.park(at, since);
        Ok(())
    }

    /// Ends the session of that number, if there is one. At want of memory all is as before.
    pub fn end(&mut self, at: u32) -> Result<(), AllocError>
        ensures ok { OnOk result (OfSession at self.old (λ s. self.new ≡ ended at s self.old)) }
        ensures absent { IsAbsent at self.old → IsOk result × (self.new ≡ self.old) }
        ensures err { OnErr result (self.new ≡ self.old) }
    {
        let Some(_) = self.registry.get(at) else {
            return Ok(());
        };
        self.note(at, Step::End)?;
        self.registry.end(at);
        Ok(())
    }

    /// Makes each commit durable, where one is not. It takes no memory.
    pub fn flush(&mut self, actor: u32)
        ensures { self.new ≡ flushed actor self.old }
    {
        if self.is_durable() {
            return;
        }
        let entry = self.quiet_entry(actor, Step::Flush);
        self.entries.push(entry);
        self.home.make_durable();
        self.away.make_durable();
    }

    /// Tells the session of that number, which was not told yet, the reply to its statement, once every commit is durable. It takes no
    /// memory.
    pub fn tell(&mut self, at: u32, number: u32)
        requires { OfSession at self.old (λ s. IsSome s.untold) }
        ensures told { OfSession at self.old (λ s. self.new ≡ told at s number self.old) }
        ensures absent { IsAbsent at self.old → self.new ≡ self.old }
    {
        let Some(_) = self.registry.get(at) else {
            return;
        };
        self.flush(at);
        let entry = self.quiet_entry(at, Step::Told { number });
        self.entries.push(entry);
        self.registry.tell(at);
    }

    /// Commits the work that is due at home and at away. At want of memory all is as before.
    pub fn time(
        &mut self,
        actor: u32,
        home: List<Change>,
        away: List<Change>,
    ) -> Result<(), AllocError>
        ensures ok { OnOk result (self.new ≡ stepped actor self.old home away Timer) }
        ensures err { OnErr result (self.new ≡ self.old) }
    {
        self.enter(actor, home, away, Step::Timer)
    }

    /// Takes a slot up, to send it to that queue of the other database. At want of memory all is as before.
    #[tactic(auto, unfolding(queue_rows::specs::Sending::sent))]
    pub fn offer(&mut self, actor: u32, at: SlotRef, to: Name) -> Result<(), AllocError>
        ensures ok { OnOk result (self.new ≡ sent actor (offers at to) self.old) }
        ensures err { OnErr result (self.new ≡ self.old) }
    {
        let to = Boxed::new(self.alloc, to)?;
        self.note(actor, Step::Offer { at, to })?;
        self.transit = Some(Transit {
            slot: at,
            stage: Stage::OnItsWay,
        });
        Ok(())
    }

    /// The place of a slot's pair, counted from 0, among those that its destination has seen.
    fn place_of(&self, at: SlotRef) -> u64
        ensures { result + 1 ≡ pair_number (database_at (other_db at.db) self.now).tables at }
    {
        pair_place(self.database(other_db(at.db)).store().tables(), &at) as u64
    }

    /// How far a slot has come whose arrival ended so; a failure ends its sending.
    fn transit_after(&self, at: SlotRef, outcome: Arrival) -> Option<Transit>
        ensures { option_map transit_of result ≡ transit_after self.now at outcome }
    {
        match outcome {
            Arrival::Copied(_) | Arrival::Seen => Some(Transit {
                slot: at,
                stage: Stage::Came(self.place_of(at)),
            }),
            Arrival::Failed { .. } => None,
        }
    }

    /// The slot that is being sent arrives, with what that does at both databases. At want of memory all is as before.
    #[tactic(auto, unfolding(queue_rows::specs::Sending::sent))]
    pub fn arrive(&mut self, actor: u32, at: SlotRef, arriving: Arriving) -> Result<(), AllocError>
        requires { (database_at (other_db at.db) self.old).next + 1 < 2 ^ 64 }
        ensures ok { OnOk result (self.new ≡ sent actor (arrives at (meant arriving)) self.old) }
        ensures err { OnErr result (self.new ≡ self.old) }
    {
        let Arriving {
            outcome,
            origin,
            there,
        } = arriving;
        let (home, away) = sides(at.db, origin, there);
        self.enter(actor, home, away, Step::Arrive { at, outcome })?;
        self.transit = self.transit_after(at, outcome);
        self.take_ids(other_db(at.db), ids_copied(outcome));
        Ok(())
    }

    /// The slot that was sent is done, which commits this where it came from. At want of memory all is as before.
    #[tactic(auto, unfolding(queue_rows::specs::Sending::sent))]
    pub fn confirm(
        &mut self,
        actor: u32,
        at: SlotRef,
        changes: List<Change>,
    ) -> Result<(), AllocError>
        ensures ok { OnOk result ((number : ℕ) →
            self.new ≡ sent actor (confirms at number changes) self.old) }
        ensures err { OnErr result (self.new ≡ self.old) }
    {
        let (home, away) = sides(at.db, changes, List::new(self.alloc));
        self.enter(actor, home, away, Step::Confirm { at })?;
        self.transit = None;
        Ok(())
    }
}
