// The world of a run, and the turns of its actors.
ghost use Rattle.std.specs.Prelude.{◌≡◌, ◌<◌, ◌≤◌, ◌^◌, ◌⊎◌, [], true, false, Some, MatchResult, IfOk, IfErr, map, length, slice_get};
ghost use Rattle.std.specs.Option.{ForSome};
ghost use Rattle.aq_clock.specs.Clock.{HasReading, TellsOn, step_reading};
ghost use Rattle.queue_rows.specs.World.{uncounted, database_at, opened};
ghost use Rattle.history_laws.specs.ValidWorld.{AreScripts};
ghost use Rattle.queue_rows.specs.Turns.{any_live};
ghost use Rattle.run_state.specs.Entries.{BeginsAs};
ghost use Rattle.durable_state.specs.Brief.{AreBrief};
ghost use Rattle.durable_state.specs.Compacting.{AreCompacted, HasCompactCause, IsFresh, KeepBoth};
ghost use Rattle.durable_state.specs.Going.{Goes};
ghost use Rattle.durable_state.specs.Held.{HasFailed};
ghost use Rattle.durable_state.specs.Recovery.{RecoversTo};
ghost use Rattle.durable_state.specs.Survival.{Survives};
ghost use Rattle.aq_world.specs.Clocked.{Grows, IsClocked, IsClosing, IsTurn};
ghost use Rattle.aq_world.specs.Going.{Stops};
ghost use Rattle.aq_world.specs.Mounting.{AreMounted, HasSoundOpenings, IsUnopened};
ghost use Rattle.aq_world.specs.Turning.{IsActor, broken_end, is_owed};
ghost use Rattle.aq_world.specs.declared.turn_end.TurnEnd.TheVariants.{Done, Halted, Memory};

use crate::mount::{MountFault, open};
use crate::turn_end::TurnEnd;
use crate::turns::{closing_turn, reads_clock, turn};
use aq_base::DbId;
use aq_clock::{Clock, StepClock};
use aq_disk::Disk;
use durable_state::{Broken, CompactCause, DurableState};
use payload_records::List;
use queue_rows::{History, SessionScript, Tables};
use std::alloc::Global;
use std::marker::Model;

/// The world of a run over its two disks: the two databases, the sessions with what they hold, the slot that is being sent, the moment, the
/// history so far, and the clock. Contracts see the world of the definitions beside the journals and the clock; legal steps led to it, by
/// the readings that the clock gave.
#[derive(Drop)]
pub struct World<D: Disk, C: Clock> {
    state: DurableState<D>,
    clock: C,
}

impl<D: Disk, C: Clock> Model for World<D, C> {
    ghost use Rattle.std.specs.Coded.{codes};
    ghost use Rattle.rule_conditions.specs.contracts.condition.Cond as cond;
    ghost use Rattle.aq_world.specs.Clocked.{Clocked, IsClocked};

    ghost Value = { Clocked D C };

    ghost coded = { Prim.hlevel (codes, cond.the_row.coded, D.code, C.code) };

    ghost view = { λ w. record { held = w.state; clock = w.clock } };

    ghost invariant = { λ w. IsClocked C.given w.clock w.state.world };
}

/// What a run leaves.
#[derive(Drop)]
pub struct Finished<D, C> {
    /// Its history.
    pub history: History,
    /// Home's disk.
    pub home: D,
    /// Away's disk.
    pub away: D,
    /// The clock.
    pub clock: C,
}

/// The disks of databases whose journals were compacted.
#[derive(Drop)]
pub struct Compacted<D, C> {
    /// Home's disk.
    pub home: D,
    /// Away's disk.
    pub away: D,
    /// The clock, of which no reading was taken.
    pub clock: C,
    /// How many frames home's journal had before.
    pub home_frames: u64,
    /// How many frames away's journal had before.
    pub away_frames: u64,
}

/// Databases whose journals were not both compacted.
#[derive(Drop)]
pub struct Uncompacted<D, C> {
    /// Why they were not.
    pub cause: CompactCause,
    /// Home's disk.
    pub home: D,
    /// Away's disk.
    pub away: D,
    /// The clock, of which no reading was taken.
    pub clock: C,
}

fn end_of(turn: Result<TurnEnd, Broken>) -> TurnEnd
    ensures { MatchResult turn (λ end. result ≡ end) (λ why. result ≡ broken_end why) }
{
    match turn {
        Ok(end) => end,
        Err(Broken::Memory) => TurnEnd::Memory,
        Err(Broken::Halted) => TurnEnd::Halted,
    }
}

/// Reads the clock where it is to be read. Where it is not it is left alone, and the answer means nothing.
fn read_if<C: Clock>(clock: &mut C, is_read: bool) -> u64
    ensures read { is_read ≡ true → ForSome (C.given clock.new) (HasReading (C.given clock.old) result) }
    ensures tells { is_read ≡ true → ForSome (C.given clock.old) (TellsOn (C.given clock.new)) }
    ensures planned { is_read ≡ true → C.plan clock.new ≡ C.plan clock.old }
    ensures unread { is_read ≡ false → clock.new ≡ clock.old }
{
    if is_read { clock.now() } else { 0 }
}

impl<D: Disk, C: Clock> World<D, C> {
    /// The world of these scripts' sessions, over the databases that are recovered of two disks, with a clock of which nothing was read. A
    /// disk that has none yet has one then. Where a database is not mounted both disks and the clock are given back, and a crash leaves of
    /// the disks what it left.
    pub fn mount(
        alloc: Global,
        home: D,
        away: D,
        clock: C,
        scripts: List<SessionScript>,
    ) -> Result<World<D, C>, MountFault<D, C>>
        requires scripts { AreScripts scripts }
        requires fresh { ForSome (C.given clock) (λ readings. readings ≡ []) }
        ensures opens { IfOk result (λ w.
            w.held.world ≡ opened w.held.world.home.opening w.held.world.away.opening scripts) }
        ensures home { IfOk result (λ w. RecoversTo D.seen home w.held.world.home.opening) }
        ensures away { IfOk result (λ w. RecoversTo D.seen away w.held.world.away.opening) }
        ensures sound { IfOk result (λ w. HasSoundOpenings w.held.world) }
        ensures entries { IfOk result (λ w. w.held.entries ≡ []) }
        ensures begun { IfOk result (λ w.
            Survives D.seen D.is_image D.calls D.faults (record { home = home; away = away }) w.held) }
        ensures unfailed { IfOk result (λ w. HasFailed w.held → ⊥) }
        ensures mounted { IfOk result (λ w. AreMounted D.Disk home away w.held) }
        ensures fresh { IfOk result (λ w. IsFresh w.held) }
        ensures unopened { IfErr result (λ e. IsUnopened D.Disk e.cause home away e.home e.away) }
        ensures clock { IfOk result (λ w. w.clock ≡ clock) }
        ensures unread { IfErr result (λ e. e.clock ≡ clock) }
    {
        match open(alloc, home, away, scripts) {
            Ok(state) => Ok(World { state, clock }),
            Err(unopened) => Err(unopened.with_clock(clock)),
        }
    }

    /// The turn of an actor: of the session of that number, of the timer (64) or of the propagator (65). Each takes the clock and does
    /// what is due first. A session whose last call is not yet told is told it instead, and takes no reading; neither does an actor that
    /// has ended. At want of memory, or where a disk fails, the turn is broken off. Where a call on a disk has failed, now or before, it is
    /// halted, whatever else stood in its way.
    pub fn turn(&mut self, actor: u32) -> TurnEnd
        requires actor { IsActor self.old.held.world actor }
        requires readings { self.old.held.world.readings < 2 ^ 63 }
        ensures turn { IsTurn C.given C.plan actor result self.old self.new }
        ensures grows { Grows actor self.old.held self.new.held }

        // Each flush makes few calls on the disks.
        ensures brief { AreBrief self.old.held.entries → AreBrief self.new.held.entries }

        // A session that is to be told a reply is told it without memory.
        ensures telling { is_owed (slice_get self.old.held.world.sessions actor) ≡ true
            → (result ≡ Done) ⊎ (result ≡ Halted) }

        // The disks go on so that a crash leaves what it is to leave. A failure, now or before, is told, and behind it nothing is entered.
        ensures disks { Goes D.seen D.is_image D.calls D.faults self.old.held self.new.held }
        ensures halted { result ≡ Halted → HasFailed self.new.held }
        ensures fine { (result ≡ Halted → ⊥) → HasFailed self.new.held → ⊥ }
        ensures stops { Stops (result ≡ Halted) self.old.held self.new.held }
    {
        let is_read = reads_clock(self.state.run(), actor);
        let reading = read_if(&mut self.clock, is_read);
        end_of(turn(&mut self.state, actor, reading))
    }

    /// The turn that follows when no session goes on any more: with one reading, what is due is done and what can be sent is, until there
    /// is nothing more, and then every commit is durable. At want of memory, or where a disk fails, it is broken off. Where a call on a disk
    /// has failed, now or before, it is halted, as each turn is.
    pub fn closing(&mut self) -> TurnEnd
        requires readings { self.old.held.world.readings ≤ 2 ^ 63 }
        ensures known { (result ≡ Done) ⊎ ((result ≡ Memory) ⊎ (result ≡ Halted)) }
        ensures turn { IsClosing C.given C.plan result self.old self.new }
        ensures grows { Grows 66 self.old.held self.new.held }

        // Each flush makes few calls on the disks.
        ensures brief { AreBrief self.old.held.entries → AreBrief self.new.held.entries }

        // The disks go on so that a crash leaves what it is to leave. A failure, now or before, is told, and behind it nothing is entered.
        ensures disks { Goes D.seen D.is_image D.calls D.faults self.old.held self.new.held }
        ensures halted { result ≡ Halted → HasFailed self.new.held }
        ensures fine { (result ≡ Halted → ⊥) → HasFailed self.new.held → ⊥ }
        ensures stops { Stops (result ≡ Halted) self.old.held self.new.held }
    {
        let reading = self.clock.now();
        end_of(closing_turn(&mut self.state, reading))
    }

    /// How many sessions there are.
    pub fn session_count(&self) -> u32
        ensures count { result ≡ length self.now.held.world.sessions }
        ensures most { length self.now.held.world.sessions ≤ 64 }
    {
        self.state.run().session_count() as u32
    }

    /// Whether a session goes on.
    pub fn any_live(&self) -> bool
        ensures { result ≡ any_live self.now.held.world }
    {
        self.state.run().any_live()
    }

    /// Whether the session of that number is to be told the reply to its last call.
    pub fn is_owed(&self, session: u32) -> bool
        ensures { result ≡ is_owed (slice_get self.now.held.world.sessions session) }
    {
        match self.state.run().session(session) {
            Some(session) => session.untold.is_some(),
            None => false,
        }
    }

    /// How many readings of the clock were taken.
    pub fn readings(&self) -> u64
        ensures { result ≡ self.now.held.world.readings }
    {
        self.state.run().readings()
    }

    /// The tables of that database.
    pub fn tables(&self, db: DbId) -> &Tables
        ensures { result.now ≡ (database_at db self.now.held.world).tables }
    {
        self.state.run().database(db).store().tables()
    }

    /// The sessions and what they ask.
    pub fn scripts(&self) -> &List<SessionScript>
        ensures { result.now ≡ self.now.held.world.scripts }
    {
        self.state.run().scripts()
    }

    /// Writes the journals of both databases anew, home's and then away's, each with the one commit that leads to its tables. Nothing may have
    /// been done since they were mounted. At each call a crash leaves the tables of both, whatever is answered.
    pub fn compact(self) -> Result<Compacted<D, C>, Uncompacted<D, C>>
        requires { IsFresh self.held }
        ensures compacted { IfOk result (λ c. AreCompacted D.Disk self.held c.home c.away) }
        ensures frames { IfOk result (λ c. (c.home_frames ≡ self.held.home.count)
            × (c.away_frames ≡ self.held.away.count)) }
        ensures keep { MatchResult result (λ c. KeepBoth D.Disk self.held c.home c.away)
            (λ e. KeepBoth D.Disk self.held e.home e.away) }
        ensures cause { IfErr result (λ e. HasCompactCause D.Disk
            e.cause self.held.home.disk self.held.away.disk e.home e.away) }
        ensures clock { MatchResult result (λ c. c.clock ≡ self.clock) (λ e. e.clock ≡ self.clock) }
    {
        let World { state, clock } = self;
        match state.compact() {
            Ok(
                durable_state::Compacted {
                    home,
                    away,
                    home_frames,
                    away_frames,
                },
            ) => Ok(Compacted {
                home,
                away,
                clock,
                home_frames,
                away_frames,
            }),
            Err(durable_state::Uncompacted { cause, home, away }) => Err(Uncompacted {
                cause,
                home,
                away,
                clock,
            }),
        }
    }

    /// The history of the run, both disks and the clock.
    pub fn finish(self) -> Finished<D, C>
        ensures entries { result.history.entries ≡ self.held.entries }
        ensures uncounted { map uncounted result.history.entries ≡ self.held.world.entries }
        ensures begins { BeginsAs self.held.world result.history }

        // Each flush made few calls on the disks.
        ensures brief { AreBrief result.history.entries }
        ensures running { IsClocked C.given self.clock self.held.world }
        ensures home { result.home ≡ self.held.home.disk }
        ensures away { result.away ≡ self.held.away.disk }
        ensures clock { result.clock ≡ self.clock }
    {
        let World { state, clock } = self;
        let durable_state::Finished {
            history,
            home,
            away,
        } = state.finish();
        Finished {
            history,
            home,
            away,
            clock,
        }
    }
}

impl<D: Disk> World<D, StepClock> {
    /// The world of these scripts' sessions, as `mount` makes it, with the clock of the serial schedule: it counts seconds from the opening
    /// moment, which the mounting finds.
    pub fn mount_serial(
        alloc: Global,
        home: D,
        away: D,
        scripts: List<SessionScript>,
    ) -> Result<World<D, StepClock>, MountFault<D, StepClock>>
        requires { AreScripts scripts }
        ensures opens { IfOk result (λ w.
            w.held.world ≡ opened w.held.world.home.opening w.held.world.away.opening scripts) }
        ensures home { IfOk result (λ w. RecoversTo D.seen home w.held.world.home.opening) }
        ensures away { IfOk result (λ w. RecoversTo D.seen away w.held.world.away.opening) }
        ensures sound { IfOk result (λ w. HasSoundOpenings w.held.world) }
        ensures entries { IfOk result (λ w. w.held.entries ≡ []) }
        ensures begun { IfOk result (λ w.
            Survives D.seen D.is_image D.calls D.faults (record { home = home; away = away }) w.held) }
        ensures unfailed { IfOk result (λ w. HasFailed w.held → ⊥) }
        ensures mounted { IfOk result (λ w. AreMounted D.Disk home away w.held) }
        ensures fresh { IfOk result (λ w. IsFresh w.held) }
        ensures unopened { IfErr result (λ e. IsUnopened D.Disk e.cause home away e.home e.away) }
        ensures plan { IfOk result (λ w.
            ⟦<StepClock as Clock>⟧.plan w.clock ≡ Some (step_reading w.held.world.opening)) }
        ensures given { IfOk result (λ w. ⟦<StepClock as Clock>⟧.given w.clock ≡ Some []) }

        // Where nothing is mounted the clock is one that counts from 0, and nothing of it was read.
        ensures unread { IfErr result (λ e. ⟦<StepClock as Clock>⟧.given e.clock ≡ Some []) }
        ensures from_0 { IfErr result (λ e.
            ⟦<StepClock as Clock>⟧.plan e.clock ≡ Some (step_reading 0)) }
    {
        match open(alloc, home, away, scripts) {
            Ok(state) => {
                let clock = StepClock::from(state.run().opening());
                Ok(World { state, clock })
            }
            Err(unopened) => Err(unopened.with_clock(StepClock::from(0))),
        }
    }
}
