// What a run over databases begins with.
ghost use Rattle.std.specs.Prelude.{◌≡◌, [], map, IfOk};
ghost use Rattle.queue_rows.specs.World.{fresh, opened};

use crate::copies::copied_tables;
use crate::reserved_list::ReservedList;
use crate::run_database::RunDatabase;
use crate::state::{RunState, room_for_entries};
use message_store::PreparedStore;
use payload_records::List;
use queue_rows::{Entry, SessionScript, Tables};
use session_registry::SessionRegistry;
use std::alloc::{AllocError, Global};

/// All that a run takes memory for as it begins: copies of its tables, its sessions, and room for its entries.
pub(crate) struct Beginning {
    alloc: Global,
    home: Tables,
    away: Tables,
    scripts: List<SessionScript>,
    registry: SessionRegistry,
    entries: ReservedList<Entry>,
}

impl Drop for Beginning {
    fn drop(self) {
        let Self {
            alloc: _,
            home: _,
            away: _,
            scripts: _,
            registry: _,
            entries: _,
        } = self;
    }
}

impl Beginning {
    /// Of databases that have these tables, and sessions with these scripts.
    pub(crate) fn new(
        alloc: Global,
        home: &Tables,
        away: &Tables,
        scripts: List<SessionScript>,
    ) -> Result<Beginning, AllocError>
        ensures home { IfOk result (λ b. b.home ≡ home.now) }
        ensures away { IfOk result (λ b. b.away ≡ away.now) }
        ensures scripts { IfOk result (λ b. b.scripts ≡ scripts) }
        ensures sessions { IfOk result (λ b. b.registry.sessions ≡ map fresh scripts) }
        ensures entries { IfOk result (λ b. b.entries.items ≡ []) }
    {
        let registry = SessionRegistry::fresh(alloc, &scripts)?;
        let entries = room_for_entries(alloc, &scripts)?;
        let home = copied_tables(alloc, home)?;
        let away = copied_tables(alloc, away)?;
        Ok(Beginning {
            alloc,
            home,
            away,
            scripts,
            registry,
            entries,
        })
    }

    /// The state of the run that begins so, over the stores of its databases.
    #[tactic(auto, unfolding(queue_rows::specs::World::opened))]
    pub(crate) fn over(self, home: PreparedStore, away: PreparedStore) -> RunState
        requires home { self.home ≡ home.tables }
        requires away { self.away ≡ away.tables }
        requires sessions { self.registry.sessions ≡ map fresh self.scripts }
        requires entries { self.entries.items ≡ [] }
        ensures { result ≡ opened home.tables away.tables self.scripts }
    {
        let opening = self.home.latest.max(self.away.latest);
        let Self {
            alloc,
            home: home_tables,
            away: away_tables,
            scripts,
            registry,
            entries,
        } = self;
        RunState {
            alloc,
            home: RunDatabase::resume(home_tables, home),
            away: RunDatabase::resume(away_tables, away),
            scripts,
            registry,
            transit: None,
            opening,
            moment: opening,
            readings: 0,
            entries,
        }
    }
}
