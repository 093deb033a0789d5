// Due work: a turn takes the clock first, and then does what is due at both databases.
ghost use Rattle.std.specs.Prelude.{◌≡◌, ◌<◌, ◌+◌, ◌^◌, IfOk, OnOk, OnErr};
ghost use Rattle.queue_rows.specs.Turns.{begun, caught_up, is_due};
ghost use Rattle.run_laws.specs.ValidRun.{IsValidWorld};
ghost use Rattle.queue_rows.specs.World.{read_clock};
ghost use Rattle.aq_world.specs.Going.{GoesQuietly};

use aq_disk::Disk;
use durable_state::DurableState;
use next_steps::{DueWork, due_work};
use std::alloc::AllocError;

/// Does the work that is due, and tells whether there was any. At want of memory all is as before.
#[tactic(auto, unfolding(queue_rows::specs::Turns::caught_up, queue_rows::specs::Turns::is_due))]
pub fn catch_up<D: Disk>(state: &mut DurableState<D>, actor: u32) -> Result<bool, AllocError>
    requires { IsValidWorld state.old.world }
    ensures ok { OnOk result (state.new.world ≡ caught_up actor state.old.world) }
    ensures due { IfOk result (λ was_due. was_due ≡ is_due state.old.world) }
    ensures err { OnErr result (state.new.world ≡ state.old.world) }
    ensures disks { GoesQuietly actor D.seen D.is_image D.calls D.faults state.old state.new }
{
    let Some(work) = due_work(state.run())? else {
        return Ok(false);
    };
    let DueWork { home, away } = work;
    state.time(actor, home, away)?;
    Ok(true)
}

/// A turn begins: it takes that reading of the clock, and then does what is due; whether there was any is told. At want of memory
/// the reading alone was taken.
#[tactic(auto, using(run_laws::proofs::Worlds::reading_keeps_valid))]
pub fn begin<D: Disk>(
    state: &mut DurableState<D>,
    actor: u32,
    reading: u64,
) -> Result<bool, AllocError>
    requires valid { IsValidWorld state.old.world }
    requires readings { state.old.world.readings + 1 < 2 ^ 64 }
    ensures ok { OnOk result (state.new.world ≡ begun actor reading state.old.world) }
    ensures due { IfOk result (λ was_due. was_due ≡ is_due (read_clock reading state.old.world)) }
    ensures err { OnErr result (state.new.world ≡ read_clock reading state.old.world) }
    ensures disks { GoesQuietly actor D.seen D.is_image D.calls D.faults state.old state.new }
{
    state.read_clock(reading);
    catch_up(state, actor)
}
