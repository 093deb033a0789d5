// The sessions of a run.
ghost use Rattle.std.specs.Prelude.{◌≡◌, ◌<◌, ◌^◌, ◌+◌, length, map, slice_get, IfOk, IfSome, OnOk, OnErr, option_map, option_copied};
ghost use Rattle.std.specs.List.{AllZip, list_any};
ghost use Rattle.queue_rows.specs.World.{fresh};
ghost use Rattle.queue_rows.specs.Turns.{is_live};
ghost use Rattle.queue_rows.specs.Session.{AreMarks};
ghost use Rattle.sessions.specs.States.{IsStateOf};
ghost use Rattle.session_registry.specs.Sessions.{HasRoom, IsFreeIn, session_of, changed_at, with_pending, with_mark, with_released, cleared, after_call, after_park, after_reply, after_end, left_by, unmarked};

use crate::locks::Locks;
use crate::new_positions::NewPositions;
use crate::session_states::SessionStates;
use aq_base::DbId;
use payload_records::{List, Name};
use queue_rows::{Pending, SessionScript};
use row_locks::{Mark, RowLocks};
use sessions::SessionState;
use std::alloc::{AllocError, Global};
use std::marker::Model;

/// The sessions by their numbers, with their marks. Contracts see the sessions of the definitions.
pub struct SessionRegistry {
    locks: Locks,
    sessions: SessionStates,
}

impl Drop for SessionRegistry {
    fn drop(self) {
        let Self {
            locks: _,
            sessions: _,
        } = self;
    }
}

impl Model for SessionRegistry {
    ghost use Rattle.std.specs.Coded.{codes};
    ghost use Rattle.session_registry.specs.Locks.{shown};
    ghost use Rattle.session_registry.specs.Sessions.{SessionsWithLocks, AreMarksOwned};

    ghost Value = { SessionsWithLocks };

    ghost coded = { Prim.hlevel codes };

    ghost view = { λ s. record { sessions = shown s.locks s.sessions; locks = s.locks } };

    ghost invariant = { λ s. AreMarksOwned s.locks s.sessions };
}

impl SessionRegistry {
    /// The sessions of these scripts, which have called nothing yet.
    pub fn fresh(
        alloc: Global,
        scripts: &List<SessionScript>,
    ) -> Result<SessionRegistry, AllocError>
        ensures { IfOk result (λ sessions. sessions.sessions ≡ map fresh scripts.now) }
    {
        Ok(SessionRegistry {
            locks: Locks::new(alloc),
            sessions: SessionStates::fresh(alloc, scripts)?,
        })
    }

    /// How many there are.
    pub fn len(&self) -> usize
        ensures { result ≡ length self.now.sessions }
    {
        self.sessions.len()
    }

    /// What all sessions keep, by their numbers.
    pub fn states(&self) -> &List<SessionState>
        ensures { AllZip IsStateOf result.now self.now.sessions }
    {
        self.sessions.all()
    }

    /// What the session of that number keeps.
    pub fn get(&self, at: u32) -> Option<&SessionState>
        ensures { option_map session_of (option_copied result)
            ≡ option_map unmarked (slice_get self.now.sessions at) }
    {
        self.sessions.get(at as usize)
    }

    /// Whether a session goes on.
    pub fn any_live(&self) -> bool
        ensures { result ≡ list_any is_live self.now.sessions }
    {
        self.sessions.any_live()
    }

    /// The marks of all sessions at that database.
    pub fn locks(&self, db: DbId) -> &RowLocks
        ensures { AreMarks db self.now.sessions result.now }
    {
        self.locks.at(db)
    }

    /// Makes room for one mark of the session of that number.
    pub fn reserve(&mut self, at: u32) -> Result<(), AllocError>
        ensures sessions { self.new.sessions ≡ self.old.sessions }
        ensures room { OnOk result (HasRoom at self.new) }
    {
        let Some(session) = self.sessions.get(at as usize) else {
            return Ok(());
        };
        self.locks.reserve(session.at, at)
    }

    /// The session of that number keeps what it has done and not committed. At want of memory all is as before.
    pub fn pend(&mut self, at: u32, pending: Pending) -> Result<(), AllocError>
        ensures locks { self.new.locks ≡ self.old.locks }
        ensures ok { OnOk result (
            self.new.sessions ≡ changed_at at (with_pending pending) self.old.sessions) }
        ensures err { OnErr result (self.new.sessions ≡ self.old.sessions) }
    {
        self.sessions.pend(at as usize, pending)
    }

    /// Takes a mark for the session of that number, which no other holds at its database and for which there is room. It takes no
    /// memory.
    pub fn take(&mut self, at: u32, mark: Mark)
        requires room { HasRoom at self.old }
        requires free { IsFreeIn at mark self.old.sessions }
        ensures { self.new.sessions ≡ changed_at at (with_mark mark) self.old.sessions }
    {
        if let Some(session) = self.sessions.get(at as usize) {
            self.locks.take(session.at, at, mark);
        }
    }

    /// Frees the mark of the session of that number on the slot, if it has one. It takes no memory.
    pub fn release(&mut self, at: u32, id: u64, slot: u32)
        ensures { self.new.sessions ≡ changed_at at (with_released id slot) self.old.sessions }
    {
        if let Some(session) = self.sessions.get(at as usize) {
            self.locks.release_one(session.at, at, id, slot);
        }
    }

    fn release_all(&mut self, at: u32)
        ensures { self.new.sessions ≡ changed_at at unmarked self.old.sessions }
    {
        if let Some(session) = self.sessions.get(at as usize) {
            self.locks.release_all(session.at, at);
        }
    }

    /// What the session of that number had done and not committed is committed, or dropped, and its marks go. It takes no memory.
    pub fn clear(&mut self, at: u32)
        ensures { self.new.sessions ≡ changed_at at cleared self.old.sessions }
    {
        self.release_all(at);
        self.sessions.clear(at as usize);
    }

    /// The session of that number has called its next statement, with so many commits made up to then, and has these positions, or
    /// those that it had. It takes no memory.
    pub fn call(&mut self, at: u32, positions: NewPositions, home: u64, away: u64)
        requires { IfSome (slice_get self.old.sessions at) (λ s. s.next + 1 < 2 ^ 32) }
        ensures { self.new.sessions ≡ changed_at at (after_call positions home away) self.old.sessions }
    {
        self.sessions.call(at as usize, positions, home, away);
    }

    /// The next statement of the session of that number waits since that moment.
    pub fn park(&mut self, at: u32, since: u64)
        ensures { self.new.sessions ≡ changed_at at (after_park since) self.old.sessions }
    {
        self.sessions.park(at as usize, since);
    }

    /// No session of that database stands in one of these queues any more. It takes no memory.
    pub fn leave(&mut self, db: DbId, queues: &List<Name>)
        ensures { self.new.sessions ≡ left_by db queues.now self.old.sessions }
    {
        self.sessions.leave(db, queues);
    }

    /// The reply to the session of that number was told.
    pub fn tell(&mut self, at: u32)
        ensures { self.new.sessions ≡ changed_at at after_reply self.old.sessions }
    {
        self.sessions.tell(at as usize);
    }

    /// The session of that number has ended: it has nothing pending, and no marks. It takes no memory.
    pub fn end(&mut self, at: u32)
        ensures { self.new.sessions ≡ changed_at at after_end self.old.sessions }
    {
        self.release_all(at);
        self.sessions.end(at as usize);
    }
}
