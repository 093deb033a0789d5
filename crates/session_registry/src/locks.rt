// The marks of all sessions, at both databases.
ghost use Rattle.std.specs.Prelude.{◌≡◌, ◌<◌, [], OnOk};
ghost use Rattle.slot_marks.specs.Marks.{marks_of, spare_of, taken, released, IsFreeFor, ChangesOnly};
ghost use Rattle.session_registry.specs.Locks.{locks_at, marks_at, KeepsMarks, ChangesMarks};

use aq_base::DbId;
use row_locks::{Mark, RowLocks};
use std::alloc::{AllocError, Global};

/// The marks of all sessions, by their database.
pub struct Locks {
    home: RowLocks,
    away: RowLocks,
}

impl Drop for Locks {
    fn drop(self) {
        let Self { home: _, away: _ } = self;
    }
}

/// Takes a mark that nobody else holds and for which there is room.
fn take(locks: &mut RowLocks, session: u32, mark: Mark)
    requires room { 0 < spare_of locks.old session }
    requires free { IsFreeFor locks.old session mark }
    ensures marks { marks_of locks.new session ≡ taken (marks_of locks.old session) mark }
    ensures rest { ChangesOnly locks.old locks.new session }
{
    let Ok(()) = locks.take(session, mark) else {
        unreachable!()
    };
}

impl Locks {
    /// No marks. It takes no memory.
    pub fn new(alloc: Global) -> Locks
        ensures home { result.home ≡ [] }
        ensures away { result.away ≡ [] }
    {
        Locks {
            home: RowLocks::new(alloc),
            away: RowLocks::new(alloc),
        }
    }

    /// The marks at that database.
    pub fn at(&self, db: DbId) -> &RowLocks
        ensures { result.now ≡ locks_at db self.now }
    {
        match db {
            DbId::Home => &self.home,
            DbId::Away => &self.away,
        }
    }

    /// Makes room for one mark of the session at that database.
    pub fn reserve(&mut self, db: DbId, session: u32) -> Result<(), AllocError>
        ensures marks { KeepsMarks self.old self.new }
        ensures room { OnOk result (0 < spare_of (locks_at db self.new) session) }
    {
        match db {
            DbId::Home => self.home.reserve(session),
            DbId::Away => self.away.reserve(session),
        }
    }

    /// Takes a mark for the session, which nobody else holds and for which there is room. It takes no memory.
    pub fn take(&mut self, db: DbId, session: u32, mark: Mark)
        requires room { 0 < spare_of (locks_at db self.old) session }
        requires free { IsFreeFor (locks_at db self.old) session mark }
        ensures { ChangesMarks db session (taken (marks_at db session self.old) mark) self.old self.new }
    {
        match db {
            DbId::Home => take(&mut self.home, session, mark),
            DbId::Away => take(&mut self.away, session, mark),
        }
    }

    /// Frees the session's mark on the slot, if it has one. It takes no memory.
    pub fn release_one(&mut self, db: DbId, session: u32, id: u64, slot: u32)
        ensures { let marks = released (marks_at db session self.old) id slot in
            ChangesMarks db session marks self.old self.new }
    {
        match db {
            DbId::Home => self.home.release_one(session, id, slot),
            DbId::Away => self.away.release_one(session, id, slot),
        }
    }

    /// Frees all marks of the session at that database. It takes no memory.
    pub fn release_all(&mut self, db: DbId, session: u32)
        ensures { ChangesMarks db session [] self.old self.new }
    {
        match db {
            DbId::Home => self.home.free_all(session),
            DbId::Away => self.away.free_all(session),
        }
    }
}
