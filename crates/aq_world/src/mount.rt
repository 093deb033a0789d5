// The journals of both databases are mounted.
ghost use Rattle.std.specs.Prelude.{◌≡◌, [], IfOk, IfErr};
ghost use Rattle.history_laws.specs.ValidWorld.{AreScripts};
ghost use Rattle.queue_rows.specs.World.{opened};
ghost use Rattle.durable_state.specs.Compacting.{IsFresh};
ghost use Rattle.durable_state.specs.Held.{HasFailed};
ghost use Rattle.durable_state.specs.LogMounting.{IsMounted, IsRead, IsRenewable, disk_in};
ghost use Rattle.durable_state.specs.Recovery.{RecoversTo};
ghost use Rattle.durable_state.specs.Survival.{Survives};
ghost use Rattle.aq_world.specs.Mounting.{AreMounted, HasSoundOpenings, IsUnopened, cause_of};
ghost use Rattle.next_steps.specs.Sound.{IsRunning};

use aq_base::DbId;
use aq_disk::Disk;
use durable_state::{CommitLog, DurableState, LogFault, Unmounted, read_log};
use payload_records::List;
use queue_rows::SessionScript;
use redo_journal::Journal;
use run_state::PreparedStore;
use std::alloc::Global;

/// Why databases were not mounted.
#[derive(Clone, Copy, Debug, PartialEq, Eq)]
pub enum MountCause {
    /// A call on the disk of that database failed.
    Fault(DbId),
    /// The disk of that database is damaged at that offset.
    Damaged(DbId, u64),
    /// There was no memory.
    Memory,
}

/// Databases that were not mounted. Both disks and the clock are given back.
#[derive(Drop)]
pub struct MountFault<D, C> {
    /// Why they were not.
    pub cause: MountCause,
    /// Home's disk.
    pub home: D,
    /// Away's disk.
    pub away: D,
    /// The clock, of which no reading was taken.
    pub clock: C,
}

/// Why databases were not mounted, and both disks.
#[derive(Drop)]
pub struct Unopened<D> {
    cause: MountCause,
    home: D,
    away: D,
}

impl<D> Unopened<D> {
    /// The same, with the clock.
    pub fn with_clock<C>(self, clock: C) -> MountFault<D, C>
        ensures cause { result.cause ≡ self.cause }
        ensures home { result.home ≡ self.home }
        ensures away { result.away ≡ self.away }
        ensures clock { result.clock ≡ clock }
    {
        MountFault {
            cause: self.cause,
            home: self.home,
            away: self.away,
            clock,
        }
    }
}

/// The journal of a database as it was read, and the tables that its commits lead to.
type Read<D> = (Journal<D>, PreparedStore);

/// The log of a database, and the tables that its commits lead to.
type Mounted<D> = (CommitLog<D>, PreparedStore);

/// Why the log of that database was not mounted, and its disk.
fn cause_of<D>(db: DbId, fault: LogFault<D>) -> (MountCause, D)
    ensures cause { result.0 ≡ cause_of db fault }
    ensures disk { result.1 ≡ disk_in fault }
{
    match fault {
        LogFault::Fault(disk) => (MountCause::Fault(db), disk),
        LogFault::Damaged(offset, disk) => (MountCause::Damaged(db, offset), disk),
        LogFault::Memory(disk) => (MountCause::Memory, disk),
    }
}

/// Reads the journals of home and away. Home comes first.
fn read_logs<D: Disk>(alloc: Global, home: D, away: D) -> Result<(Read<D>, Read<D>), Unopened<D>>
    ensures home { IfOk result (λ r. IsRead D.Disk home r.0.1.tables r.0.0) }
    ensures away { IfOk result (λ r. IsRead D.Disk away r.1.1.tables r.1.0) }
    ensures unopened { IfErr result (λ e. IsUnopened D.Disk e.cause home away e.home e.away) }
{
    let home = match read_log(alloc, home) {
        Ok(read) => read,
        Err(fault) => {
            let (cause, home) = cause_of(DbId::Home, fault);
            return Err(Unopened { cause, home, away });
        }
    };
    match read_log(alloc, away) {
        Ok(away) => Ok((home, away)),
        Err(fault) => {
            let (cause, away) = cause_of(DbId::Away, fault);
            let home = home.0.into_disk();
            Err(Unopened { cause, home, away })
        }
    }
}

/// Writes the journals anew whose version is an older one, and mounts both. Home comes first.
fn renew_logs<D: Disk>(
    alloc: Global,
    home: Read<D>,
    away: Read<D>,
) -> Result<(Mounted<D>, Mounted<D>), Unopened<D>>
    requires home { IsRenewable home.1.tables home.0 }
    requires away { IsRenewable away.1.tables away.0 }

    // Of the disks of which they were read.
    ensures mounted { IfOk result (λ m. (home_disk away_disk : D)
        → IsRead D.Disk home_disk home.1.tables home.0 → IsRead D.Disk away_disk away.1.tables away.0
        → IsMounted D.Disk home_disk m.0.1.tables m.0.0 × IsMounted D.Disk away_disk m.1.1.tables m.1.0) }
    ensures unopened { IfErr result (λ e. (home_disk away_disk : D)
        → IsRead D.Disk home_disk home.1.tables home.0 → IsRead D.Disk away_disk away.1.tables away.0
        → IsUnopened D.Disk e.cause home_disk away_disk e.home e.away) }
{
    let (home, home_store) = home;
    let (away, away_store) = away;
    let home = match CommitLog::renew(alloc, home, home_store) {
        Ok(mounted) => mounted,
        Err(fault) => {
            let (cause, home) = cause_of(DbId::Home, fault);
            let away = away.into_disk();
            return Err(Unopened { cause, home, away });
        }
    };
    match CommitLog::renew(alloc, away, away_store) {
        Ok(away) => Ok((home, away)),
        Err(fault) => {
            let (cause, away) = cause_of(DbId::Away, fault);
            let home = home.0.into_disk();
            Err(Unopened { cause, home, away })
        }
    }
}

/// Mounts the journals of home and away: both are read before either is written anew.
fn mount_logs<D: Disk>(
    alloc: Global,
    home: D,
    away: D,
) -> Result<(Mounted<D>, Mounted<D>), Unopened<D>>
    ensures home { IfOk result (λ m. IsMounted D.Disk home m.0.1.tables m.0.0) }
    ensures away { IfOk result (λ m. IsMounted D.Disk away m.1.1.tables m.1.0) }
    ensures unopened { IfErr result (λ e. IsUnopened D.Disk e.cause home away e.home e.away) }
{
    let (home, away) = read_logs(alloc, home, away)?;
    renew_logs(alloc, home, away)
}

/// The state of a run of these scripts' sessions, over the databases that are recovered of two disks. A disk that has none yet has one
/// then.
pub fn open<D: Disk>(
    alloc: Global,
    home: D,
    away: D,
    scripts: List<SessionScript>,
) -> Result<DurableState<D>, Unopened<D>>
    requires { AreScripts scripts }
    ensures opens { IfOk result (λ w.
        w.world ≡ opened w.world.home.opening w.world.away.opening scripts) }
    ensures home { IfOk result (λ w. RecoversTo D.seen home w.world.home.opening) }
    ensures away { IfOk result (λ w. RecoversTo D.seen away w.world.away.opening) }
    ensures sound { IfOk result (λ w. HasSoundOpenings w.world) }
    ensures runs { IfOk result (λ w. IsRunning [] w.world) }
    ensures entries { IfOk result (λ w. w.entries ≡ []) }
    ensures begun { IfOk result
        (Survives D.seen D.is_image D.calls D.faults (record { home = home; away = away })) }
    ensures unfailed { IfOk result (λ w. HasFailed w → ⊥) }
    ensures mounted { IfOk result (AreMounted D.Disk home away) }
    ensures fresh { IfOk result IsFresh }
    ensures unopened { IfErr result (λ e. IsUnopened D.Disk e.cause home away e.home e.away) }
{
    let (home, away) = mount_logs(alloc, home, away)?;
    match DurableState::mount(alloc, scripts, home, away) {
        Ok(state) => Ok(state),
        Err(Unmounted { home, away }) => Err(Unopened {
            cause: MountCause::Memory,
            home,
            away,
        }),
    }
}
