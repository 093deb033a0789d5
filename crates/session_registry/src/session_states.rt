// The sessions of a run, without their marks.
ghost use Rattle.std.specs.Prelude.{◌≡◌, ◌<◌, ◌^◌, ◌+◌, [], length, map, slice_get, false, IfOk, IfSome, OnOk, OnErr, option_map, option_copied};
ghost use Rattle.std.specs.List.{list_any};
ghost use Rattle.queue_rows.specs.World.{fresh};
ghost use Rattle.queue_rows.specs.Turns.{is_live};
ghost use Rattle.session_registry.specs.Sessions.{changed_at, fresh_state, session_of, with_pending, after_call, after_park, after_reply, left_by};
ghost use Rattle.queue_rows.specs.Session.{not_standing_in, without_positions};

use crate::new_positions::NewPositions;
use crate::positions::{leave_queue, replace};
use aq_base::DbId;
use payload_records::{List, Name};
use queue_rows::{Pending, SessionScript};
use sessions::{SessionState, Untold};
use std::alloc::{AllocError, Global};
use std::marker::Model;

/// What the sessions keep, by their numbers. Contracts see the sessions of the definitions without their marks, which the locks of
/// their databases have.
#[derive(Drop)]
pub struct SessionStates {
    states: List<SessionState>,
}

impl Model for SessionStates {
    ghost use Rattle.std.specs.Prelude.{List as Sequence, map};
    ghost use Rattle.queue_rows.specs.Session.{Session};
    ghost use Rattle.session_registry.specs.Sessions.{session_of};

    ghost Value = { Sequence Session };

    ghost view = { λ s. map session_of s.states };
}

// ---- one session

fn fresh_state(alloc: Global, at: DbId) -> SessionState
    ensures { result ≡ fresh_state at }
{
    SessionState {
        at,
        next: 0,
        pending: List::new(alloc),
        positions: List::new(alloc),
        parked: None,
        untold: None,
        live: true,
    }
}

fn pend(session: &mut SessionState, pending: Pending) -> Result<(), AllocError>
    ensures ok { OnOk result (session_of session.new ≡ with_pending pending (session_of session.old)) }
    ensures err { OnErr result (session.new ≡ session.old) }
{
    session.pending.push(pending)
}

fn call(session: &mut SessionState, positions: NewPositions, home: u64, away: u64)
    requires { session.old.next + 1 < 2 ^ 32 }
    ensures { session_of session.new ≡ after_call positions home away (session_of session.old) }
{
    match positions {
        NewPositions::Same => {}
        NewPositions::Replaced { at, position } => {
            replace(&mut session.positions, at, position.into_inner())
        }
        NewPositions::Others(others) => session.positions = others,
    }
    session.next += 1;
    session.parked = None;
    session.untold = Some(Untold {
        number: session.next,
        home,
        away,
    });
}

fn clear(session: &mut SessionState)
    ensures { session_of session.new ≡ record (session_of session.old) { pending = [] } }
{
    session.pending.clear();
}

fn park(session: &mut SessionState, since: u64)
    ensures { session_of session.new ≡ after_park since (session_of session.old) }
{
    session.parked = Some(since);
}

fn leave(session: &mut SessionState, db: DbId, queue: &Name)
    ensures { session_of session.new ≡ not_standing_in db queue.now (session_of session.old) }
{
    if session.at == db {
        leave_queue(&mut session.positions, queue);
    }
}

fn tell(session: &mut SessionState)
    ensures { session_of session.new ≡ after_reply (session_of session.old) }
{
    session.untold = None;
}

fn end(session: &mut SessionState)
    ensures { session_of session.new ≡ record (session_of session.old) { pending = []; live = false } }
{
    session.pending.clear();
    session.live = false;
}

// ---- the one of a number

fn pend_at(states: &mut List<SessionState>, at: usize, pending: Pending) -> Result<(), AllocError>
    ensures ok { OnOk result
        (map session_of states.new ≡ changed_at at (with_pending pending) (map session_of states.old)) }
    ensures err { OnErr result (states.new ≡ states.old) }
{
    match states.get_mut(at) {
        Some(session) => pend(session, pending),
        None => Ok(()),
    }
}

fn clear_at(states: &mut List<SessionState>, at: usize)
    ensures { map session_of states.new
        ≡ changed_at at (λ s. record s { pending = [] }) (map session_of states.old) }
{
    if let Some(session) = states.get_mut(at) {
        clear(session);
    }
}

fn call_at(
    states: &mut List<SessionState>,
    at: usize,
    positions: NewPositions,
    home: u64,
    away: u64,
)
    requires { IfSome (slice_get states.old at) (λ s. s.next + 1 < 2 ^ 32) }
    ensures { map session_of states.new
        ≡ changed_at at (after_call positions home away) (map session_of states.old) }
{
    if let Some(session) = states.get_mut(at) {
        call(session, positions, home, away);
    }
}

fn park_at(states: &mut List<SessionState>, at: usize, since: u64)
    ensures { map session_of states.new ≡ changed_at at (after_park since) (map session_of states.old) }
{
    if let Some(session) = states.get_mut(at) {
        park(session, since);
    }
}

fn leave_at(states: &mut List<SessionState>, at: usize, db: DbId, queue: &Name)
    ensures { map session_of states.new
        ≡ changed_at at (not_standing_in db queue.now) (map session_of states.old) }
{
    if let Some(session) = states.get_mut(at) {
        leave(session, db, queue);
    }
}

fn tell_at(states: &mut List<SessionState>, at: usize)
    ensures { map session_of states.new ≡ changed_at at after_reply (map session_of states.old) }
{
    if let Some(session) = states.get_mut(at) {
        tell(session);
    }
}

fn end_at(states: &mut List<SessionState>, at: usize)
    ensures { map session_of states.new
        ≡ changed_at at (λ s. record s { pending = []; live = false }) (map session_of states.old) }
{
    if let Some(session) = states.get_mut(at) {
        end(session);
    }
}

// ---- all of them

fn collect_states(
    alloc: Global,
    scripts: &List<SessionScript>,
) -> Result<Vec<SessionState>, AllocError>
    ensures { IfOk result (λ states. states.items ≡ map (λ script. fresh_state script.at) scripts.now) }
{
    scripts
        .iter()
        .map(|script| fresh_state(alloc, script.at))
        .collect(alloc)
}

fn leave_one(states: &mut List<SessionState>, db: DbId, queue: &Name)
    ensures { map session_of states.new ≡ without_positions db queue.now (map session_of states.old) }
{
    for at in 0..states.len() {
        leave_at(states, at, db, queue);
    }
}

fn leave_all(states: &mut List<SessionState>, db: DbId, queues: &List<Name>)
    ensures { map session_of states.new ≡ left_by db queues.now (map session_of states.old) }
{
    for queue in queues {
        leave_one(states, db, queue);
    }
}

fn any_live(states: &List<SessionState>) -> bool
    ensures { result ≡ list_any (λ s. s.live) states.now }
{
    states.iter().any(|session| session.live)
}

impl SessionStates {
    /// The sessions of these scripts, which have called nothing yet.
    pub fn fresh(alloc: Global, scripts: &List<SessionScript>) -> Result<SessionStates, AllocError>
        ensures { IfOk result (λ sessions. sessions ≡ map fresh scripts.now) }
    {
        Ok(SessionStates {
            states: List::from_vec(collect_states(alloc, scripts)?),
        })
    }

    /// What they keep, in order.
    pub fn all(&self) -> &List<SessionState>
        ensures { map session_of result.now ≡ self.now }
    {
        &self.states
    }

    /// How many there are.
    pub fn len(&self) -> usize
        ensures { result ≡ length self.now }
    {
        self.states.len()
    }

    /// What the session of that number keeps.
    pub fn get(&self, at: usize) -> Option<&SessionState>
        ensures { option_map session_of (option_copied result) ≡ slice_get self.now at }
    {
        self.states.get(at)
    }

    /// Whether a session goes on.
    pub fn any_live(&self) -> bool
        ensures { result ≡ list_any is_live self.now }
    {
        any_live(&self.states)
    }

    /// The session of that number keeps what it has done and not committed. At want of memory all is as before.
    pub fn pend(&mut self, at: usize, pending: Pending) -> Result<(), AllocError>
        ensures ok { OnOk result (self.new ≡ changed_at at (with_pending pending) self.old) }
        ensures err { OnErr result (self.new ≡ self.old) }
    {
        pend_at(&mut self.states, at, pending)
    }

    /// What the session of that number had done and not committed is committed, or dropped. It takes no memory.
    pub fn clear(&mut self, at: usize)
        ensures { self.new ≡ changed_at at (λ s. record s { pending = [] }) self.old }
    {
        clear_at(&mut self.states, at);
    }

    /// The session of that number has called its next statement, with so many commits made up to then, and has these positions, or
    /// those that it had. It takes no memory.
    pub fn call(&mut self, at: usize, positions: NewPositions, home: u64, away: u64)
        requires { IfSome (slice_get self.old at) (λ s. s.next + 1 < 2 ^ 32) }
        ensures { self.new ≡ changed_at at (after_call positions home away) self.old }
    {
        call_at(&mut self.states, at, positions, home, away);
    }

    /// The next statement of the session of that number waits since that moment.
    pub fn park(&mut self, at: usize, since: u64)
        ensures { self.new ≡ changed_at at (after_park since) self.old }
    {
        park_at(&mut self.states, at, since);
    }

    /// No session of that database stands in one of these queues any more. It takes no memory.
    pub fn leave(&mut self, db: DbId, queues: &List<Name>)
        ensures { self.new ≡ left_by db queues.now self.old }
    {
        leave_all(&mut self.states, db, queues);
    }

    /// The reply to the session of that number was told.
    pub fn tell(&mut self, at: usize)
        ensures { self.new ≡ changed_at at after_reply self.old }
    {
        tell_at(&mut self.states, at);
    }

    /// The session of that number has ended, with nothing pending. It takes no memory.
    pub fn end(&mut self, at: usize)
        ensures { self.new ≡ changed_at at (λ s. record s { pending = []; live = false }) self.old }
    {
        end_at(&mut self.states, at);
    }
}
