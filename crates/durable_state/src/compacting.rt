// The logs of a run are compacted.
ghost use Rattle.std.specs.Prelude.{◌≡◌, IfOk, IfErr, MatchResult};
ghost use Rattle.commit_log.specs.CompactAnswer.{disk_in};
ghost use Rattle.durable_state.specs.Compacting.{cause_of, AreCompacted, HasCompactCause, IsFresh, KeepBoth};

use crate::durable_state::DurableState;
use crate::run_logs::RunLogs;
use aq_base::DbId;
use aq_disk::Disk;
use commit_log::{CompactFault, log_keeps};

/// The disks of databases whose logs were compacted.
#[derive(Drop)]
pub struct Compacted<D> {
    /// Home's disk.
    pub home: D,
    /// Away's disk.
    pub away: D,
    /// How many frames home's log had before.
    pub home_frames: u64,
    /// How many frames away's log had before.
    pub away_frames: u64,
}

/// Why logs were not compacted.
#[derive(Clone, Copy, Debug, PartialEq, Eq)]
pub enum CompactCause {
    /// A call on the disk of that database failed.
    Fault(DbId),
    /// There was no memory.
    Memory,
}

/// Databases whose logs were not both compacted.
#[derive(Drop)]
pub struct Uncompacted<D> {
    /// Why they were not.
    pub cause: CompactCause,
    /// Home's disk.
    pub home: D,
    /// Away's disk.
    pub away: D,
}

/// Why the log of that database was not compacted, and its disk.
fn cause_of<D>(db: DbId, fault: CompactFault<D>) -> (CompactCause, D)
    ensures cause { result.0 ≡ cause_of db fault }
    ensures disk { result.1 ≡ disk_in fault }
{
    match fault {
        CompactFault::Fault(disk) => (CompactCause::Fault(db), disk),
        CompactFault::Memory(disk) => (CompactCause::Memory, disk),
    }
}

impl<D: Disk> DurableState<D> {
    /// Writes both logs anew, home's and then away's, each with the one commit that leads to its tables. Nothing may have been done in the
    /// run. At each call a crash leaves the tables of both, whatever is answered.
    pub fn compact(self) -> Result<Compacted<D>, Uncompacted<D>>
        requires { IsFresh self }
        ensures compacted { IfOk result (λ c. AreCompacted D.Disk self c.home c.away) }
        ensures frames { IfOk result (λ c.
            (c.home_frames ≡ self.home.count) × (c.away_frames ≡ self.away.count)) }
        ensures keep { MatchResult result (λ c. KeepBoth D.Disk self c.home c.away)
            (λ e. KeepBoth D.Disk self e.home e.away) }
        ensures cause { IfErr result (λ e.
            HasCompactCause D.Disk e.cause self.home.disk self.away.disk e.home e.away) }
    {
        log_keeps::<D>();
        let DurableState { state, logs } = self;
        let RunLogs {
            home,
            away,
            calls: _,
        } = logs;
        let alloc = state.allocator();
        let home_frames = home.count();
        let away_frames = away.count();
        let home = match home.compact(alloc, state.database(DbId::Home).store().tables()) {
            Ok(home) => home,
            Err(fault) => {
                let (cause, home) = cause_of(DbId::Home, fault);
                let away = away.into_disk();
                return Err(Uncompacted { cause, home, away });
            }
        };
        match away.compact(alloc, state.database(DbId::Away).store().tables()) {
            Ok(away) => Ok(Compacted {
                home,
                away,
                home_frames,
                away_frames,
            }),
            Err(fault) => {
                let (cause, away) = cause_of(DbId::Away, fault);
                Err(Uncompacted { cause, home, away })
            }
        }
    }
}
