// The state of a run.
ghost use Rattle.std.specs.Prelude.{◌≡◌, ◌<◌, ◌^◌, ◌+◌, [], map, length, All, IfOk, option_map, option_copied, slice_get};
ghost use Rattle.std.specs.List.{AllZip};
ghost use Rattle.queue_rows.specs.Statements.{statement_of};
ghost use Rattle.queue_rows.specs.Tables.{empty_tables};
ghost use Rattle.queue_rows.specs.World.{uncounted, database_at, opened, read_clock};
ghost use Rattle.queue_rows.specs.Turns.{any_live, is_durable};
ghost use Rattle.queue_rows.specs.Session.{AreMarks};
ghost use Rattle.sessions.specs.States.{IsStateOf};
ghost use Rattle.run_state.specs.Entries.{BeginsAs, HasNoCalls};
ghost use Rattle.run_state.specs.Sendings.{transit_of};
ghost use Rattle.session_registry.specs.Sessions.{session_of, unmarked};

use crate::beginning::Beginning;
use crate::reserved_list::ReservedList;
use crate::run_database::RunDatabase;
use crate::transit::Transit;
use aq_base::{DbId, MOMENT_LIMIT};
use message_store::PreparedStore;
use payload_records::List;
use queue_rows::{Entry, History, SessionScript, Statement};
use row_locks::RowLocks;
use session_registry::SessionRegistry;
use sessions::SessionState;
use std::alloc::{AllocError, Global};
use std::marker::Model;

/// A statement is called, its commit is made durable, and it is told.
const ENTRIES_A_STATEMENT: usize = 3;

// The history is the longest list of a run, and the scripts tell how long it mostly grows: it has that room from the start.
pub(crate) fn room_for_entries(
    alloc: Global,
    scripts: &List<SessionScript>,
) -> Result<ReservedList<Entry>, AllocError>
    ensures { IfOk result (λ entries. entries.items ≡ []) }
{
    let mut count: usize = 0;
    for script in scripts {
        let statements = script.statements.len();
        count = count.saturating_add(statements.saturating_mul(ENTRIES_A_STATEMENT));
    }
    ReservedList::with_places(alloc, count.saturating_add(scripts.len()))
}

/// The state of a run: the two databases, the sessions with what they hold, the slot that is being sent, the moment, and the history so
/// far. Contracts see the world of the definitions. Each step of a run is a call that does just that to it; which step may be made,
/// those know who make it.
///
/// There is always room for the entries that are promised: for a flush where a commit is not durable, and for a telling of each session
/// that was not told yet. So each other step takes memory for them before it changes anything, and these two take none.
#[derive(Drop)]
pub struct RunState {
    pub(crate) alloc: Global,
    pub(crate) home: RunDatabase,
    pub(crate) away: RunDatabase,
    pub(crate) scripts: List<SessionScript>,
    pub(crate) registry: SessionRegistry,
    pub(crate) transit: Option<Transit>,
    pub(crate) opening: u64,
    pub(crate) moment: u64,
    pub(crate) readings: u64,
    pub(crate) entries: ReservedList<Entry>,
}

impl Model for RunState {
    ghost use Rattle.std.specs.Prelude.{All, map, option_map};
    ghost use Rattle.std.specs.Coded.{codes};
    ghost use Rattle.rule_conditions.specs.contracts.condition.Cond as cond;
    ghost use Rattle.queue_rows.specs.World.{uncounted};
    ghost use Rattle.queue_rows.specs.World.{World};
    ghost use Rattle.run_state.specs.Entries.{HasNoCalls, AreCounted};
    ghost use Rattle.run_state.specs.Promises.{promised_by};
    ghost use Rattle.run_state.specs.Reserved.{HasPlaces};
    ghost use Rattle.run_state.specs.Sendings.{transit_of};

    ghost Value = { World };

    ghost coded = { Prim.hlevel (codes, cond.the_row.coded) };

    ghost view = { λ w. record {
      home = w.home;
      away = w.away;
      scripts = w.scripts;
      sessions = w.registry.sessions;
      transit = option_map transit_of w.transit;
      opening = w.opening;
      moment = w.moment;
      readings = w.readings;
      entries = map uncounted w.entries.items;
    } };

    ghost invariant = { λ w. record {
      calls : All HasNoCalls w.entries.items;
      counted : AreCounted w.home.made w.away.made w.entries.items;
      room : HasPlaces (promised_by w.home w.away w.registry.sessions) w.entries;
    } };
}

impl RunState {
    /// The state in which the sessions of these scripts have called nothing yet, over two databases in which nothing was committed.
    #[tactic(auto, unfolding(queue_rows::specs::World::opened))]
    pub fn open(alloc: Global, scripts: List<SessionScript>) -> Result<RunState, AllocError>
        ensures { IfOk result (λ w. w ≡ opened empty_tables empty_tables scripts) }
    {
        let registry = SessionRegistry::fresh(alloc, &scripts)?;
        let entries = room_for_entries(alloc, &scripts)?;
        Ok(RunState {
            alloc,
            home: RunDatabase::new(alloc),
            away: RunDatabase::new(alloc),
            scripts,
            registry,
            transit: None,
            opening: 0,
            moment: 0,
            readings: 0,
            entries,
        })
    }

    /// The state in which the sessions of these scripts have called nothing yet, over the databases of these tables. The run begins at the
    /// moment of the latest commit of both.
    pub fn resume(
        alloc: Global,
        home: PreparedStore,
        away: PreparedStore,
        scripts: List<SessionScript>,
    ) -> Result<RunState, AllocError>
        ensures { IfOk result (λ w. w ≡ opened home.tables away.tables scripts) }
    {
        match Beginning::new(alloc, home.tables(), away.tables(), scripts) {
            Ok(beginning) => Ok(beginning.over(home, away)),
            Err(AllocError) => Err(AllocError),
        }
    }

    /// Where memory comes from.
    pub fn allocator(&self) -> Global {
        self.alloc
    }

    /// The database of that name.
    pub fn database(&self, db: DbId) -> &RunDatabase
        ensures { result.now ≡ database_at db self.now }
    {
        match db {
            DbId::Home => &self.home,
            DbId::Away => &self.away,
        }
    }

    /// The sessions and what they ask.
    pub fn scripts(&self) -> &List<SessionScript>
        ensures { result.now ≡ self.now.scripts }
    {
        &self.scripts
    }

    /// The statement of that number of a session, from 0, or None where it has called all.
    pub fn statement(&self, at: u32, number: u32) -> Option<&Statement>
        ensures { option_copied result ≡ statement_of (slice_get self.now.scripts at) number }
    {
        match self.scripts.get(at as usize) {
            Some(script) => script.statement(number as usize),
            None => None,
        }
    }

    /// What the session of that number keeps, but for its marks.
    pub fn session(&self, at: u32) -> Option<&SessionState>
        ensures { option_map session_of (option_copied result)
            ≡ option_map unmarked (slice_get self.now.sessions at) }
    {
        self.registry.get(at)
    }

    /// What all sessions keep, by their numbers.
    pub fn states(&self) -> &List<SessionState>
        ensures { AllZip IsStateOf result.now self.now.sessions }
    {
        self.registry.states()
    }

    /// The marks of all sessions at that database.
    pub fn locks(&self, db: DbId) -> &RowLocks
        ensures { AreMarks db self.now.sessions result.now }
    {
        self.registry.locks(db)
    }

    /// How many sessions there are.
    pub fn session_count(&self) -> usize
        ensures { result ≡ length self.now.sessions }
    {
        self.registry.len()
    }

    /// Whether a session goes on.
    #[tactic(auto, unfolding(queue_rows::specs::Turns::any_live))]
    pub fn any_live(&self) -> bool
        ensures { result ≡ any_live self.now }
    {
        self.registry.any_live()
    }

    /// The slot that is being sent, if one is.
    pub fn transit(&self) -> Option<&Transit>
        ensures { option_map transit_of (option_copied result) ≡ self.now.transit }
    {
        self.transit.as_ref()
    }

    /// The moment at which the run began, in seconds.
    pub fn opening(&self) -> u64
        ensures { result ≡ self.now.opening }
    {
        self.opening
    }

    /// The present moment, in seconds.
    pub fn moment(&self) -> u64
        ensures { result ≡ self.now.moment }
    {
        self.moment
    }

    /// How many readings of the clock were taken.
    pub fn readings(&self) -> u64
        ensures { result ≡ self.now.readings }
    {
        self.readings
    }

    /// How many entries the history has.
    pub fn entry_count(&self) -> usize
        ensures { result ≡ length self.now.entries }
    {
        self.entries.len()
    }

    /// Whether each commit is durable, at both databases.
    pub fn is_durable(&self) -> bool
        ensures { result ≡ is_durable self.now }
    {
        self.home.is_durable() && self.away.is_durable()
    }

    /// Takes a reading of the clock: the moment is the greatest reading so far, and no reading counts for more than the greatest moment.
    #[tactic(auto, unfolding(queue_rows::specs::World::read_clock))]
    pub fn read_clock(&mut self, reading: u64)
        requires { self.old.readings + 1 < 2 ^ 64 }
        ensures { self.new ≡ read_clock reading self.old }
    {
        self.readings += 1;
        self.moment = self.moment.max(reading.min(MOMENT_LIMIT));
    }

    /// The history of the run.
    pub fn finish(self) -> History
        ensures entries { map uncounted result.entries ≡ self.entries }
        ensures begins { BeginsAs self result }
        ensures calls { All HasNoCalls result.entries }
    {
        History {
            home: self.home.finish(),
            away: self.away.finish(),
            opening: self.opening,
            scripts: self.scripts,
            entries: self.entries.into_list(),
        }
    }
}
