// The tables of both databases, printed.
ghost use Rattle.std.specs.Prelude.{◌≡◌, ◌⊎◌};
ghost use Rattle.aq_run.specs.Written.{Writes};
ghost use Rattle.aq_run.specs.Dumping.{dump_text, Dumps};
ghost use Rattle.aq_run.specs.Histories.{HoldsOf};
ghost use Rattle.aq_run.specs.Outcomes.{IsRun, ReachesNoRun};
ghost use Rattle.aq_run.specs.Serve.{LeavesDisks};

use crate::outcome::Outcome;
use crate::unbegun::{unmounted, without_run};
use crate::writing::show_tables;
use aq_base::{DbId, Sink};
use aq_clock::{Clock, StepClock};
use aq_disk::Disk;
use aq_world::{Finished, World};
use payload_records::List;
use std::alloc::Global;

/// Prints the tables of a mounted world.
fn shown<O: Sink, D: Disk, C: Clock>(
    alloc: Global,
    out: &mut O,
    world: World<D, StepClock>,
    clock: C,
) -> Outcome<D, C>
    ensures known { IsRun result.status ⊎ (result.status ≡ 4) }
    ensures writes { Writes O.taken O.faults out.old out.new
        (dump_text world.held.world.home.tables world.held.world.away.tables) result.status }
    ensures nothing { result.status ≡ 4 → O.taken out.new ≡ O.taken out.old }
    ensures none { ReachesNoRun world.held.home.disk world.held.away.disk clock result }
{
    let status = show_tables(
        alloc,
        out,
        world.tables(DbId::Home),
        world.tables(DbId::Away),
    );
    let Finished {
        history: _,
        home,
        away,
        clock: _,
    } = world.finish();
    without_run(alloc, status, home, away, clock)
}

/// Prints the tables of the databases of the two disks.
pub fn dump<O: Sink, D: Disk, C: Clock>(
    alloc: Global,
    out: &mut O,
    home: D,
    away: D,
    clock: C,
) -> Outcome<D, C>
    ensures answers { Dumps O.Sink D.Disk out.old out.new home away result }
    ensures disks { LeavesDisks D.Disk home away result }
    ensures holds { HoldsOf result.history }
    ensures clock { result.clock ≡ clock }
{
    match World::mount_serial(alloc, home, away, List::new(alloc)) {
        Ok(world) => shown(alloc, out, world, clock),
        Err(fault) => unmounted(alloc, out, fault, clock),
    }
}
