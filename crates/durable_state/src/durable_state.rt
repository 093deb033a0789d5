// The state of a run over its disks.
ghost use Rattle.std.specs.Prelude.{◌≡◌, [], IfOk, IfErr, map};
ghost use Rattle.queue_rows.specs.World.{uncounted, opened};
ghost use Rattle.run_state.specs.Entries.{BeginsAs};
ghost use Rattle.durable_state.specs.Brief.{AreBrief};
ghost use Rattle.durable_state.specs.Mounting.{IsMountedOn};
ghost use Rattle.durable_state.specs.Survival.{Begun, Survives};

use crate::counting::set_all_calls;
use crate::run_logs::RunLogs;
use aq_disk::Disk;
use commit_log::CommitLog;
use crash_laws::opening_survives;
use payload_records::List;
use queue_rows::{History, SessionScript};
use run_state::{PreparedStore, ReservedList, RunState};
use std::alloc::{AllocError, Global};
use std::marker::Model;

/// The state of a run whose commits stand in the logs of its databases. Contracts see the world of the definitions, its entries with the
/// disks' call numbers, and both logs. Whatever a crash leaves of the disks, each step keeps that the run survives it. There is always room
/// for the call numbers of the entries that are promised.
#[derive(Drop)]
pub struct DurableState<D: Disk> {
    pub(crate) state: RunState,
    pub(crate) logs: RunLogs<D>,
}

impl<D: Disk> Model for DurableState<D> {
    ghost use Rattle.std.specs.Prelude.{◌≡◌, length};
    ghost use Rattle.std.specs.Coded.{codes};
    ghost use Rattle.rule_conditions.specs.contracts.condition.Cond as cond;
    ghost use Rattle.run_state.specs.Promises.{promised};
    ghost use Rattle.run_state.specs.Reserved.{HasPlaces};
    ghost use Rattle.durable_state.specs.Brief.{IsBrief};
    ghost use Rattle.durable_state.specs.Counted.{counted};
    ghost use Rattle.durable_state.specs.Held.{Held};

    ghost Value = { Held D };

    ghost coded = { Prim.hlevel (codes, cond.the_row.coded, D.code) };

    ghost view = { λ s. record {
      world = s.state;
      entries = counted s.state.entries s.logs.calls.items;
      home = s.logs.home;
      away = s.logs.away;
    } };

    ghost invariant = { λ s. record {
      few : length s.logs.calls.items ≡ length s.state.entries;
      room : HasPlaces (promised s.state) s.logs.calls;
      brief : IsBrief D.calls (record {
        world = s.state;
        entries = counted s.state.entries s.logs.calls.items;
        home = s.logs.home;
        away = s.logs.away;
      });
    } };
}

/// The disks of a run that was not begun.
#[derive(Drop)]
pub struct Unmounted<D> {
    /// Home's disk.
    pub home: D,
    /// Away's disk.
    pub away: D,
}

/// What a run leaves.
#[derive(Drop)]
pub struct Finished<D> {
    /// Its history.
    pub history: History,
    /// Home's disk.
    pub home: D,
    /// Away's disk.
    pub away: D,
}

impl<D: Disk> DurableState<D> {
    /// The state in which the sessions of these scripts have called nothing yet, over databases as they were mounted: each with its log and
    /// its tables. At want of memory both disks are given back.
    pub fn mount(
        alloc: Global,
        scripts: List<SessionScript>,
        home: (CommitLog<D>, PreparedStore),
        away: (CommitLog<D>, PreparedStore),
    ) -> Result<DurableState<D>, Unmounted<D>>
        ensures world { IfOk result (λ v. v.world ≡ opened home.1.tables away.1.tables scripts) }
        ensures entries { IfOk result (λ v. v.entries ≡ []) }
        ensures logs { IfOk result (λ v. (v.home ≡ home.0) × (v.away ≡ away.0)) }
        ensures begun { IfOk result (λ v. (b : Begun D)
            → IsMountedOn D.seen D.is_image D.calls D.faults b.home home.1.tables home.0
            → IsMountedOn D.seen D.is_image D.calls D.faults b.away away.1.tables away.0
            → Survives D.seen D.is_image D.calls D.faults b v) }
        ensures err { IfErr result (λ disks. (disks.home ≡ home.0.disk) × (disks.away ≡ away.0.disk)) }
    {
        opening_survives::<D>();
        let (home_log, home_store) = home;
        let (away_log, away_store) = away;
        match RunState::resume(alloc, home_store, away_store, scripts) {
            Ok(state) => Ok(DurableState {
                state,
                logs: RunLogs {
                    home: home_log,
                    away: away_log,
                    calls: ReservedList::new(alloc),
                },
            }),
            Err(AllocError) => Err(Unmounted {
                home: home_log.into_disk(),
                away: away_log.into_disk(),
            }),
        }
    }

    /// The state of the run, without its disks.
    pub fn run(&self) -> &RunState
        ensures { result.now ≡ self.now.world }
    {
        &self.state
    }

    /// The history of the run, and its disks.
    pub fn finish(self) -> Finished<D>
        ensures entries { result.history.entries ≡ self.entries }
        ensures uncounted { map uncounted result.history.entries ≡ self.world.entries }
        ensures begins { BeginsAs self.world result.history }

        // Each flush made few calls on the disks.
        ensures brief { AreBrief result.history.entries }
        ensures home { result.home ≡ self.home.disk }
        ensures away { result.away ≡ self.away.disk }
    {
        let mut history = self.state.finish();
        set_all_calls(&mut history.entries, &self.logs.calls);
        Finished {
            history,
            home: self.logs.home.into_disk(),
            away: self.logs.away.into_disk(),
        }
    }
}
