// Calls that reach no run.
ghost use Rattle.std.specs.Prelude.{◌≡◌, ◌⊎◌, ◌≤◌};
ghost use Rattle.aq_run.specs.Disks.{IsUnmounted};
ghost use Rattle.aq_run.specs.Histories.{empty_history};
ghost use Rattle.aq_run.specs.Outcomes.{IsNotMounted, IsStatusOf, ReachesNoRun, TellsCause};
ghost use Rattle.aq_run.specs.Serve.{LeavesDisks};

use crate::outcome::Outcome;
use crate::play::legal_holds;
use crate::writing::tell_damaged;
use aq_base::Sink;
use aq_clock::{Clock, StepClock};
use aq_disk::Disk;
use aq_world::{MountCause, MountFault};
use payload_records::List;
use queue_rows::{History, Tables};
use std::alloc::{AllocError, Global};

/// The history of a call that reached no run.
fn empty_history(alloc: Global) -> History
    ensures { result ≡ empty_history }
{
    History {
        home: Tables::new(alloc),
        away: Tables::new(alloc),
        opening: 0,
        scripts: List::new(alloc),
        entries: List::new(alloc),
    }
}

/// The outcome of a call that reached no run.
pub fn without_run<D: Disk, C: Clock>(
    alloc: Global,
    status: u8,
    home: D,
    away: D,
    clock: C,
) -> Outcome<D, C>
    ensures status { result.status ≡ status }
    ensures none { ReachesNoRun home away clock result }
{
    legal_holds();
    Outcome {
        status,
        history: empty_history(alloc),
        home,
        away,
        clock,
    }
}

/// A call that ends before the disks are looked at.
pub fn unbegun<D: Disk, C: Clock>(
    alloc: Global,
    status: u8,
    home: D,
    away: D,
    clock: C,
) -> Outcome<D, C>
    requires some { 1 ≤ status }
    requires few { status ≤ 4 }
    ensures status { result.status ≡ status }
    ensures none { ReachesNoRun home away clock result }
    ensures disks { LeavesDisks D.Disk home away result }
{
    without_run(alloc, status, home, away, clock)
}

/// The status of a call whose databases were not mounted. Where one is damaged that is told.
fn tell_cause<O: Sink>(alloc: Global, out: &mut O, cause: MountCause) -> u8
    ensures status { IsStatusOf cause result }
    ensures damaged { result ≡ 6 → TellsCause O.Sink out.old out.new cause }
    ensures nothing { (result ≡ 4) ⊎ (result ≡ 5) → O.taken out.new ≡ O.taken out.old }
{
    match cause {
        MountCause::Fault(_) => 5,
        MountCause::Damaged(db, offset) => match tell_damaged(alloc, out, db, offset) {
            Ok(()) => 6,
            Err(AllocError) => 4,
        },
        MountCause::Memory => 4,
    }
}

/// A call whose databases were not mounted. What it answers, it answers of the disks that were to have them.
pub fn unmounted<O: Sink, D: Disk, C: Clock>(
    alloc: Global,
    out: &mut O,
    fault: MountFault<D, StepClock>,
    clock: C,
) -> Outcome<D, C>
    ensures none { ReachesNoRun fault.home fault.away clock result }
    ensures answers { (home away : D) → IsUnmounted D.Disk home away fault
        → IsNotMounted O.Sink D.Disk out.old out.new home away result }
    ensures disks { (home away : D) → IsUnmounted D.Disk home away fault → LeavesDisks D.Disk home away result }
{
    let MountFault {
        cause,
        home,
        away,
        clock: _,
    } = fault;
    let status = tell_cause(alloc, out, cause);
    without_run(alloc, status, home, away, clock)
}
