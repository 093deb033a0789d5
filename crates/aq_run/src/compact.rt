// The journals of both databases, compacted.
ghost use Rattle.std.specs.Prelude.{◌≡◌, ◌⊎◌};
ghost use Rattle.aq_run.specs.Compacting.{compacted_text, status_of_cause, Compacts};
ghost use Rattle.aq_run.specs.Histories.{HoldsOf};
ghost use Rattle.aq_run.specs.Outcomes.{IsRun, ReachesNoRun};
ghost use Rattle.aq_run.specs.Serve.{LeavesDisks};
ghost use Rattle.aq_run.specs.Written.{Writes};

use crate::outcome::Outcome;
use crate::unbegun::{unmounted, without_run};
use crate::writing::show_frames;
use aq_base::Sink;
use aq_clock::{Clock, StepClock};
use aq_disk::Disk;
use aq_world::{CompactCause, Compacted, Uncompacted, World};
use payload_records::List;
use std::alloc::Global;

/// Tells of journals that were compacted.
fn told<O: Sink, D: Disk, C: Clock>(
    alloc: Global,
    out: &mut O,
    done: Compacted<D, StepClock>,
    clock: C,
) -> Outcome<D, C>
    ensures known { IsRun result.status ⊎ (result.status ≡ 4) }
    ensures writes { Writes O.taken O.faults out.old out.new
        (compacted_text done.home_frames done.away_frames) result.status }
    ensures nothing { result.status ≡ 4 → O.taken out.new ≡ O.taken out.old }
    ensures none { ReachesNoRun done.home done.away clock result }
{
    let Compacted {
        home,
        away,
        clock: _,
        home_frames,
        away_frames,
    } = done;
    let status = show_frames(alloc, out, home_frames, away_frames);
    without_run(alloc, status, home, away, clock)
}

fn status_of_cause(cause: CompactCause) -> u8
    ensures { result ≡ status_of_cause cause }
{
    match cause {
        CompactCause::Fault(_) => 5,
        CompactCause::Memory => 4,
    }
}

/// A call whose journals were not both compacted.
fn uncompacted<D: Disk, C: Clock>(
    alloc: Global,
    left: Uncompacted<D, StepClock>,
    clock: C,
) -> Outcome<D, C>
    ensures status { result.status ≡ status_of_cause left.cause }
    ensures none { ReachesNoRun left.home left.away clock result }
{
    let Uncompacted {
        cause,
        home,
        away,
        clock: _,
    } = left;
    without_run(alloc, status_of_cause(cause), home, away, clock)
}

/// Compacts the journals of the databases of both disks, home's and then away's, and tells how many frames they
/// had.
pub fn compact<O: Sink, D: Disk, C: Clock>(
    alloc: Global,
    out: &mut O,
    home: D,
    away: D,
    clock: C,
) -> Outcome<D, C>
    ensures answers { Compacts O.Sink D.Disk out.old out.new home away result }
    ensures disks { LeavesDisks D.Disk home away result }
    ensures holds { HoldsOf result.history }
    ensures clock { result.clock ≡ clock }
{
    let world = match World::mount_serial(alloc, home, away, List::new(alloc)) {
        Ok(world) => world,
        Err(fault) => return unmounted(alloc, out, fault, clock),
    };
    match world.compact() {
        Ok(done) => told(alloc, out, done, clock),
        Err(left) => uncompacted(alloc, left, clock),
    }
}
